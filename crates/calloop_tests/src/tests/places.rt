//! Two places of one choice for the same source and callback.
use super::stage::{Table, time};
use calloop::{
    Dispatcher, EventDispatcher, Here, Hold, OneOf, PingSource, RegistrationToken, Requests,
    Sources, There, make_ping,
};
use calloop_script::{ScriptClock, ScriptPoller};
use calloop_test_sources::source::Teller;
use std::alloc::Global;
use std::sync::Wait;

#[test]
fn each_place_of_one_kind_of_source_is_called_for_its_own_event(rt: HostRuntime) {
    let called = is_each_called::<Twice<HostRuntime>, HostRuntime>(&rt, rt.alloc());
    assert_eq!(rt; called, Some(true));
}

// Pings that say their numbers, in two places.
type Twice<R> = Sources<
    OneOf<Dispatcher<PingSource<R>, Teller>, Dispatcher<PingSource<R>, Teller>>,
    Vec<u32>,
>;

// What the loop holds for a ping in one of two places.
trait Placed {
    // At which it is, and the number that it says.
    fn place(&self) -> (u32, u32);
}

impl<R: Wait + Drop> Placed for Twice<R> {
    fn place(&self) -> (u32, u32) {
        match &self.held {
            OneOf::First(held) => (0, held.callback.number),
            OneOf::Other(held) => (1, held.callback.number),
        }
    }
}

// True if a ping in each place is called for its own ring. `None` without memory.
fn is_each_called<D, R>(rt: &R, alloc: Global) -> Option<bool>
where
    D: EventDispatcher<ScriptPoller, ScriptClock, R, Data = Vec<u32>, Idle = ()> + Placed,
    D: Hold<PingSource<R>, Teller, ScriptPoller, ScriptClock, R, Vec<u32>, Requests<D>, Here>,
    D: Hold<
        PingSource<R>,
        Teller,
        ScriptPoller,
        ScriptClock,
        R,
        Vec<u32>,
        Requests<D>,
        There<Here>,
    >,
    R: Wait + Clone + Drop,
{
    let mut table: Table<D, R> = Table::new(rt, alloc)?;
    let (first, first_source) = make_ping(rt, alloc).ok()?;
    let (second, second_source) = make_ping(rt, alloc).ok()?;
    let mut handle = table.event_loop.handle();
    let one = handle
        .insert_source::<_, _, Here>(first_source, Teller { number: 1 })
        .ok()?;
    let other = handle
        .insert_source::<_, _, There<Here>>(second_source, Teller { number: 2 })
        .ok()?;
    second.ping();
    let is_second_called = table.says(time(Some(0)), &[2]);
    first.ping();
    let is_first_called = table.says(time(Some(0)), &[1]);
    let places = [place_of(&mut table, one), place_of(&mut table, other)];
    Some(is_second_called && is_first_called && places == [Some((0, 1)), Some((1, 2))])
}

fn place_of<D, R>(table: &mut Table<D, R>, token: RegistrationToken) -> Option<(u32, u32)>
where
    D: EventDispatcher<ScriptPoller, ScriptClock, R> + Placed,
    R: Wait + Clone + Drop,
{
    let handle = table.event_loop.handle();
    Some(handle.dispatcher(&token).ok()?.place())
}
