//! Sources made of sources, when memory runs out.
//!
//! The kit's unproved run has one allocation refused: `rt try --test --fail-alloc N`.
use calloop::transient::TransientSource;
use calloop::{
    Both, Dispatcher, Error, EventDispatcher, InsertError, Movable, Ping, PingSource,
    RegistrationToken, ScriptLoop, Sources, make_ping,
};
use calloop_script::{ScriptClock, ScriptPoller};
use calloop_test_sources::source::Teller;
use std::alloc::Global;
use std::sync::Wait;
use std::time::Duration;

#[test]
fn a_boxed_source_that_was_refused_comes_back_and_goes_in(rt: HostRuntime) {
    assert_eq!(rt; boxed_ping(&rt, rt.alloc()), Some(true));
}

#[test]
fn three_pings_that_were_refused_are_dropped_and_three_others_go_in(rt: HostRuntime) {
    assert_eq!(rt; three_pings(&rt, rt.alloc()), Some(true));
}

/// A source of pings, and these.
#[derive(Drop)]
struct Belled<D, R: Wait + Drop> {
    held: D,
    bells: Vec<Ping<R>>,
}

type Boxed<R> = Sources<Dispatcher<Box<TransientSource<PingSource<R>>>, Teller>, Vec<u32>>;

// Whether a boxed ping that says 1 does so each time that it rings, in a loop that had two tries for each call.
fn boxed_ping<R: Wait + Clone + Drop>(rt: &R, alloc: Global) -> Option<bool> {
    let mut bells = bells(alloc)?;
    let wrapped = TransientSource::from(ping(rt, alloc, &mut bells)?);
    let boxed = match Box::new(alloc, wrapped) {
        Ok(boxed) => boxed,
        Err(failed) => Box::new(alloc, failed.value).ok()?,
    };
    let held: Boxed<R> = Sources::new(Dispatcher::new(boxed, Teller { number: 1 }));
    let mut event_loop = loop_of(rt, alloc)?;
    let token = match event_loop.handle().register_dispatcher(held) {
        Ok(token) => token,
        Err(refused) => {
            let back = given_back(refused)?;
            event_loop.handle().register_dispatcher(back).ok()?
        }
    };
    goes_on(rt, alloc, &mut event_loop, &token, &bells, &[1])
}

type Part<R> = Dispatcher<Movable<PingSource<R>>, Teller>;

type Three<R> = Sources<Both<Part<R>, Both<Part<R>, Part<R>>>, Vec<u32>>;

// The same of three pings as one source. What was registered of a refused one stays so, up to its drop: a second one goes in then.
fn three_pings<R: Wait + Clone + Drop>(rt: &R, alloc: Global) -> Option<bool> {
    let first: Belled<Three<R>, R> = three(rt, alloc)?;
    let second: Belled<Three<R>, R> = three(rt, alloc)?;
    let mut event_loop = loop_of(rt, alloc)?;
    match event_loop.handle().register_dispatcher(first.held) {
        Ok(token) => goes_on(rt, alloc, &mut event_loop, &token, &first.bells, &[1, 2, 3]),
        Err(refused) => {
            drop(given_back(refused)?);
            let token = event_loop.handle().register_dispatcher(second.held).ok()?;
            goes_on(
                rt,
                alloc,
                &mut event_loop,
                &token,
                &second.bells,
                &[1, 2, 3],
            )
        }
    }
}

fn three<R: Wait + Clone + Drop>(rt: &R, alloc: Global) -> Option<Belled<Three<R>, R>> {
    let mut bells = bells(alloc)?;
    let first = part(rt, alloc, 1, &mut bells)?;
    let second = Both {
        first: part(rt, alloc, 2, &mut bells)?,
        second: part(rt, alloc, 3, &mut bells)?,
    };
    let held = Sources::new(Both { first, second });
    Some(Belled { held, bells })
}

fn part<R>(rt: &R, alloc: Global, number: u32, bells: &mut Vec<Ping<R>>) -> Option<Part<R>>
where
    R: Wait + Clone + Drop,
{
    let source = ping(rt, alloc, bells)?;
    Some(Dispatcher::new(Movable::from(source), Teller { number }))
}

// A ping's source. The ping goes to the others, if there is room.
fn ping<R>(rt: &R, alloc: Global, bells: &mut Vec<Ping<R>>) -> Option<PingSource<R>>
where
    R: Wait + Clone + Drop,
{
    let (bell, source) = match make_ping(rt, alloc) {
        Err(_) => make_ping(rt, alloc).ok()?,
        made => made.ok()?,
    };
    bells.push(bell).ok()?;
    Some(source)
}

// Room for three.
fn bells<R: Wait + Drop>(alloc: Global) -> Option<Vec<Ping<R>>> {
    match Vec::with_capacity(alloc, 3) {
        Ok(bells) => Some(bells),
        Err(_) => Vec::with_capacity(alloc, 3).ok(),
    }
}

fn loop_of<D, R>(rt: &R, alloc: Global) -> Option<ScriptLoop<D, R>>
where
    D: EventDispatcher<ScriptPoller, ScriptClock, R, Data = Vec<u32>>,
    R: Wait + Clone + Drop,
{
    match ScriptLoop::with_script(rt, alloc) {
        Err(Error::OutOfMemory) => ScriptLoop::with_script(rt, alloc).ok(),
        made => made.ok(),
    }
}

fn given_back<T: Drop>(refused: InsertError<T>) -> Option<T> {
    let InsertError { inserted, error } = refused;
    match error {
        Error::OutOfMemory => Some(inserted),
        _ => None,
    }
}

// Whether a source says these numbers at each ring, also once it was updated, and once it was disabled and enabled.
fn goes_on<D, R>(
    rt: &R,
    alloc: Global,
    event_loop: &mut ScriptLoop<D, R>,
    token: &RegistrationToken,
    bells: &[Ping<R>],
    numbers: &[u32],
) -> Option<bool>
where
    D: EventDispatcher<ScriptPoller, ScriptClock, R, Data = Vec<u32>>,
    R: Wait + Clone + Drop,
{
    let first = says(rt, alloc, event_loop, bells, numbers)?;
    update(event_loop, token)?;
    let second = says(rt, alloc, event_loop, bells, numbers)?;
    event_loop.handle().disable(token).ok()?;
    let enabled = event_loop.handle().enable(token);
    if let Err(Error::OutOfMemory) = enabled {
        // what was registered until then stays so, and an update goes on from there
        update(event_loop, token)?;
    } else {
        enabled.ok()?;
    }
    Some(first && second && says(rt, alloc, event_loop, bells, numbers)?)
}

fn update<D, R>(event_loop: &mut ScriptLoop<D, R>, token: &RegistrationToken) -> Option<()>
where
    D: EventDispatcher<ScriptPoller, ScriptClock, R, Data = Vec<u32>>,
    R: Wait + Clone + Drop,
{
    match event_loop.handle().update(token) {
        Err(Error::OutOfMemory) => event_loop.handle().update(token).ok(),
        answer => answer.ok(),
    }
}

// Whether the pings ring, and a dispatch, by one of two tries, says these numbers.
fn says<D, R>(
    rt: &R,
    alloc: Global,
    event_loop: &mut ScriptLoop<D, R>,
    bells: &[Ping<R>],
    numbers: &[u32],
) -> Option<bool>
where
    D: EventDispatcher<ScriptPoller, ScriptClock, R, Data = Vec<u32>>,
    R: Wait + Clone + Drop,
{
    for bell in bells {
        let _receipt = bell.ping();
    }
    let mut said = room(alloc)?;
    let timeout = Some(Duration::ZERO);
    match event_loop.dispatch(rt, timeout, &mut said) {
        Err(Error::OutOfMemory) if said.is_empty() => {
            event_loop.dispatch(rt, timeout, &mut said).ok()?
        }
        answer => answer.ok()?,
    }
    Some(said.as_slice() == numbers)
}

// Room for what is said.
fn room(alloc: Global) -> Option<Vec<u32>> {
    match Vec::with_capacity(alloc, 8) {
        Ok(said) => Some(said),
        Err(_) => Vec::with_capacity(alloc, 8).ok(),
    }
}
