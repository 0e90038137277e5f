//! The loops of the tests. Each function names the types of one, and makes its source.
use super::desk::{Act, Played, plays};
use calloop::channel::{Channel, Event, make_channel};
use calloop::ping::is_registered_by_its_calls;
use calloop::transient::{TransientSource, at_most_one_is_registered, wrong_marks_are_ruled_out};
use calloop::{
    Both, Dispatcher, EventSource, Forward, Instant, Movable, On, OneOf, Ping, PingSource,
    QuietDispatch, Sources, TimeoutAction, Timer, make_ping,
};
use calloop_script::{ScriptClock, ScriptPoller};
use calloop_test_sources::numbered::{Ending, Numbered};
use calloop_test_sources::source::{Listener, Teller, Waker};
use std::alloc::Global;
use std::sync::Wait;

/// What is said when a channel's close is told.
pub const CLOSED: u32 = u32::MAX;

type Held<A> = Sources<A, Vec<u32>>;

// A wrapped ping.
type Wrapped<R> = Dispatcher<TransientSource<PingSource<R>>, Teller>;

// A ping that is a part of a source.
type PingPart<R> = Dispatcher<Movable<PingSource<R>>, Teller>;

// Says each message, and the close.
#[derive(Drop)]
pub struct Reader;

impl On<Event<u32>, Vec<u32>, ()> for Reader {
    fn on(&mut self, event: Event<u32>, said: &mut Vec<u32>) {
        let _failed = match event {
            Event::Msg(number) => said.push(number),
            Event::Closed => said.push(CLOSED),
        };
    }
}

fn only<R: Wait + Drop>(alloc: Global, bell: Ping<R>) -> Option<Vec<Ping<R>>> {
    let mut bells = Vec::new(alloc);
    bells.push(bell).ok()?;
    Some(bells)
}

/// How many of the acts are as they are wanted, of a ping that says 1.
pub fn plain_ping<R>(rt: &R, alloc: Global, acts: &[Act<'_>]) -> Option<usize>
where
    R: Wait + Clone + Drop,
{
    let (bell, source) = make_ping(rt, alloc).ok()?;
    let held: Held<Dispatcher<PingSource<R>, Teller>> = Sources::new(Dispatcher::new(
        source,
        Teller { number: 1 },
    ));
    Some(plays(rt, alloc, held, only(alloc, bell)?, acts)?.acts)
}

/// The same, of a boxed one.
pub fn boxed_ping<R>(rt: &R, alloc: Global, acts: &[Act<'_>]) -> Option<usize>
where
    R: Wait + Clone + Drop,
{
    let (bell, source) = make_ping(rt, alloc).ok()?;
    let boxed = Box::new(alloc, source).ok()?;
    let held: Held<Dispatcher<Box<PingSource<R>>, Teller>> = Sources::new(Dispatcher::new(
        boxed,
        Teller { number: 1 },
    ));
    Some(plays(rt, alloc, held, only(alloc, bell)?, acts)?.acts)
}

/// The same, of one that is lent.
pub fn forwarded_ping<R>(rt: &R, alloc: Global, acts: &[Act<'_>]) -> Option<usize>
where
    R: Wait + Clone + Drop,
{
    let (bell, mut source) = make_ping(rt, alloc).ok()?;
    let lent = Forward {
        source: &mut source,
    };
    let held: Held<Dispatcher<Forward<'_, PingSource<R>>, Teller>> = Sources::new(Dispatcher::new(
        lent,
        Teller { number: 1 },
    ));
    Some(plays(rt, alloc, held, only(alloc, bell)?, acts)?.acts)
}

/// The same, of a boxed wrapper of a wrapped one that is lent.
pub fn nested_ping<R>(rt: &R, alloc: Global, acts: &[Act<'_>]) -> Option<usize>
where
    R: Wait + Clone + Drop,
{
    let (bell, source) = make_ping(rt, alloc).ok()?;
    let mut wrapped = TransientSource::from(source);
    let lent = TransientSource::from(Forward {
        source: &mut wrapped,
    });
    let boxed = Box::new(alloc, lent).ok()?;
    let held: Held<
        Dispatcher<Box<TransientSource<Forward<'_, TransientSource<PingSource<R>>>>>, Teller>,
    > = Sources::new(Dispatcher::new(boxed, Teller { number: 1 }));
    Some(plays(rt, alloc, held, only(alloc, bell)?, acts)?.acts)
}

/// The same, of a wrapped one, and whether its wrapper is empty after that.
pub fn wrapped_ping<R>(rt: &R, alloc: Global, acts: &[Act<'_>]) -> Option<(usize, bool)>
where
    R: Wait + Clone + Drop,
{
    let (bell, source) = make_ping(rt, alloc).ok()?;
    let wrapped = TransientSource::from(source);
    let held: Held<Wrapped<R>> = Sources::new(Dispatcher::new(wrapped, Teller { number: 1 }));
    let Played { acts, held } = plays(rt, alloc, held, only(alloc, bell)?, acts)?;
    Some((acts, held?.held.into_source_inner().is_none()))
}

/// The same, of a wrapped ping whose turns hand out its number and end so, and the number within after that.
pub fn numbered_ping<R>(
    rt: &R,
    alloc: Global,
    ending: Ending,
    acts: &[Act<'_>],
) -> Option<(usize, Option<u32>)>
where
    R: Wait + Clone + Drop,
{
    let (bell, source) = make_ping(rt, alloc).ok()?;
    let wrapped = TransientSource::from(Numbered::new(source, ending));
    let held: Held<Dispatcher<TransientSource<Numbered<R>>, Listener>> = Sources::new(
        Dispatcher::new(wrapped, Listener),
    );
    let Played { acts, held } = plays(rt, alloc, held, only(alloc, bell)?, acts)?;
    let mut wrapped = held?.held.into_source_inner();
    Some((acts, wrapped.map(|source| source.number)))
}

/// The same, of a wrapped channel to which these numbers were sent, and whose sender is gone.
pub fn closed_channel<R>(
    rt: &R,
    alloc: Global,
    numbers: &[u32],
    acts: &[Act<'_>],
) -> Option<(usize, bool)>
where
    R: Wait + Clone + Drop,
{
    let (sender, channel) = make_channel(rt, alloc).ok()?;
    for number in numbers.iter() {
        sender.send(*number).ok()?;
    }
    drop(sender);
    let held: Held<Dispatcher<TransientSource<Channel<u32, R>>, Reader>> = Sources::new(
        Dispatcher::new(TransientSource::from(channel), Reader),
    );
    let Played { acts, held } = plays(rt, alloc, held, Vec::new(alloc), acts)?;
    Some((acts, held?.held.into_source_inner().is_none()))
}

fn part<R>(rt: &R, alloc: Global, number: u32, bells: &mut Vec<Ping<R>>) -> Option<PingPart<R>>
where
    R: Wait + Clone + Drop,
{
    let (bell, source) = make_ping(rt, alloc).ok()?;
    bells.push(bell).ok()?;
    Some(Dispatcher::new(Movable::from(source), Teller { number }))
}

/// The same, of one source of three pings that say 1, 2 and 3.
pub fn three_pings<R>(rt: &R, alloc: Global, acts: &[Act<'_>]) -> Option<usize>
where
    R: Wait + Clone + Drop,
{
    let mut bells = Vec::new(alloc);
    let first = part(rt, alloc, 1, &mut bells)?;
    let second = Both {
        first: part(rt, alloc, 2, &mut bells)?,
        second: part(rt, alloc, 3, &mut bells)?,
    };
    let held: Held<Both<PingPart<R>, Both<PingPart<R>, PingPart<R>>>> = Sources::new(Both {
        first,
        second,
    });
    Some(plays(rt, alloc, held, bells, acts)?.acts)
}

/// The same, of one source of a ping that says 1 and a timer of 10 milliseconds that says 5.
pub fn ping_and_timer<R>(
    rt: &R,
    alloc: Global,
    action: TimeoutAction,
    acts: &[Act<'_>],
) -> Option<usize>
where
    R: Wait + Clone + Drop,
{
    let mut bells = Vec::new(alloc);
    let first = part(rt, alloc, 1, &mut bells)?;
    let timer = Timer::from_deadline(Instant { nanos: 10_000_000 });
    let second = Dispatcher::new(Movable::from(timer), Waker { number: 5, action });
    let held: Held<Both<PingPart<R>, Dispatcher<Movable<Timer>, Waker>>> = Sources::new(Both {
        first,
        second,
    });
    Some(plays(rt, alloc, held, bells, acts)?.acts)
}

/// The same, of a boxed timer of 10 milliseconds that says 5 and leaves, in a loop that could hold two pings as one source, too.
pub fn boxed_timer<R>(rt: &R, alloc: Global, acts: &[Act<'_>]) -> Option<usize>
where
    R: Wait + Clone + Drop,
{
    let timer = Timer::from_deadline(Instant { nanos: 10_000_000 });
    let action = TimeoutAction::Drop;
    let boxed = Dispatcher::new(Box::new(alloc, timer).ok()?, Waker { number: 5, action });
    let held: Held<OneOf<Both<PingPart<R>, PingPart<R>>, Dispatcher<Box<Timer>, Waker>>> =
        Sources::new(OneOf::Other(boxed));
    Some(plays(rt, alloc, held, Vec::new(alloc), acts)?.acts)
}

/// Whether a deadline of seven milliseconds is set of a timer that is lent, of one in a box, and of a ping; and the timers' deadlines
/// after that.
pub fn deadlines_that_are_set<R>(rt: &R, alloc: Global) -> Option<([bool; 3], [Option<Instant>; 2])>
where
    R: Wait + Clone + Drop,
{
    let mut timer = Timer::from_deadline(Instant::from_millis(5));
    let lent = is_set(rt, &mut Forward { source: &mut timer });
    let mut boxed = Box::new(alloc, Timer::from_deadline(Instant::from_millis(5))).ok()?;
    let is_boxed_set = is_set(rt, &mut boxed);
    let (_ping, mut source) = make_ping(rt, alloc).ok()?;
    let is_ping_set = is_set(rt, &mut source);
    Some((
        [lent, is_boxed_set, is_ping_set],
        [timer.current_deadline(), boxed.current_deadline()],
    ))
}

fn is_set<R, S>(_rt: &R, source: &mut S) -> bool
where
    R: Wait + Drop,
    S: EventSource<ScriptPoller, ScriptClock, R>,
{
    source.try_set_deadline(Instant::from_millis(7))
}

/// True if two pings as one source ask the loop for nothing when their callbacks don't, as their types say.
pub fn quiet_pings<R>(rt: &R, alloc: Global) -> Option<bool>
where
    R: Wait + Clone + Drop,
{
    let mut bells = Vec::new(alloc);
    let both = Both {
        first: part(rt, alloc, 1, &mut bells)?,
        second: part(rt, alloc, 2, &mut bells)?,
    };
    Some(asks_nothing(rt, &both))
}

// Takes only what asks the loop for nothing.
fn asks_nothing<R, D>(_rt: &R, _parts: &D) -> bool
where
    R: Wait + Drop,
    D: QuietDispatch<ScriptPoller, ScriptClock, R, Vec<u32>, ()>,
{
    true
}

/// Calls the laws of wrappers, of a wrapper of pings.
pub fn laws_of_wrapped_pings<R: Wait + Drop>(_rt: &R) {
    at_most_one_is_registered::<ScriptPoller, ScriptClock, R, PingSource<R>>();
    is_registered_by_its_calls::<ScriptPoller, R>();
    wrong_marks_are_ruled_out();
}
