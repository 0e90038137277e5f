//! Callbacks and pings: one that rings, clones and drops its own ping, since no lock of its cell is held while it is called; and one
//! that has another ping's dispatcher registered.
use super::stage::{Table, time};
use calloop::ping::{Ping, make_ping};
use calloop::{
    Callback, Choice, Dispatcher, EventDispatcher, Here, Hold, On, OneOf, PingSource,
    RegistrationToken, Requests, Sources, There,
};
use calloop_script::{ScriptClock, ScriptPoller};
use calloop_test_sources::source::Teller;
use std::alloc::Global;
use std::sync::Wait;

#[test]
fn a_callback_rings_clones_and_drops_its_own_ping(rt: HostRuntime) {
    let called = calls_its_own::<Held<HostRuntime>, HostRuntime>(&rt, rt.alloc());
    assert_eq!(rt; called, Some(true));
}

type Held<R> = Sources<Dispatcher<PingSource<R>, Own<R>>, Vec<u32>>;

// Rings its own ping by a clone, once; then it drops both.
#[derive(Drop)]
struct Own<R: Wait + Clone + Drop> {
    ping: Option<Ping<R>>,
    calls: u32,
}

impl<R: Wait + Clone + Drop> On<(), Vec<u32>, ()> for Own<R> {
    fn on(&mut self, _event: (), said: &mut Vec<u32>) {
        self.calls = self.calls.saturating_add(1);
        let _failed = said.push(self.calls);
        let Some(ping) = self.ping.take() else {
            return;
        };
        if self.calls == 1 {
            if let Ok(again) = ping.clone() {
                again.ping();
            }
            self.ping = Some(ping);
        }
    }
}

// Whether it is called twice, and leaves with the next turn, since the second call drops the last ping.
fn calls_its_own<D, R>(rt: &R, alloc: Global) -> Option<bool>
where
    D: EventDispatcher<ScriptPoller, ScriptClock, R, Data = Vec<u32>>,
    D: Choice<PingSource<R>, Own<R>, Here>,
    R: Wait + Clone + Drop,
{
    let mut table: Table<D, R> = Table::new(rt, alloc)?;
    let (ping, source) = make_ping(rt, alloc).ok()?;
    ping.ping();
    let own = Own {
        ping: Some(ping),
        calls: 0,
    };
    let held = D::hold(Dispatcher::new(source, own));
    let token = table.event_loop.handle().register_dispatcher(held).ok()?;
    let timeout = time(Some(100));
    let said = [[1].as_slice(), &[2], &[]]
        .into_iter()
        .all(|numbers| table.says(timeout, numbers));
    Some(said && table.is_gone(token) && table.was_asked(&[Some(0), Some(0), Some(0)]))
}

#[test]
fn a_callback_has_the_dispatcher_of_another_ping_registered(rt: HostRuntime) {
    let called = brings_another::<Two<HostRuntime>, HostRuntime>(&rt, rt.alloc());
    assert_eq!(rt; called, Some(true));
}

type Two<R> = Sources<
    OneOf<Dispatcher<PingSource<R>, Brings<R>>, Dispatcher<PingSource<R>, Teller>>,
    Vec<u32>,
>;

// Says 1, and has the source that it brings registered, which says 2.
#[derive(Drop)]
struct Brings<R: Wait + Drop> {
    source: Option<PingSource<R>>,
}

impl<D, R> Callback<(), (), (), Vec<u32>, Requests<D>> for Brings<R>
where
    D: Choice<PingSource<R>, Teller, There<Here>> + Drop,
    R: Wait + Drop,
{
    fn call(&mut self, _: (), _: &mut (), said: &mut Vec<u32>, requests: &mut Requests<D>) {
        let _failed = said.push(1);
        if let Some(source) = self.source.take() {
            let held = D::hold(Dispatcher::new(source, Teller { number: 2 }));
            let _registration = requests.register_dispatcher(held);
        }
    }
}

// Whether both pings are called, of which the second one's source is with the first one's callback.
fn brings_another<D, R>(rt: &R, alloc: Global) -> Option<bool>
where
    D: EventDispatcher<ScriptPoller, ScriptClock, R, Data = Vec<u32>, Idle = ()>,
    D: Hold<PingSource<R>, Brings<R>, ScriptPoller, ScriptClock, R, Vec<u32>, Requests<D>, Here>,
    D: Choice<PingSource<R>, Teller, There<Here>>,
    R: Wait + Clone + Drop,
{
    let mut table: Table<D, R> = Table::new(rt, alloc)?;
    let (first, source) = make_ping(rt, alloc).ok()?;
    let (second, brought) = make_ping(rt, alloc).ok()?;
    let brings = Brings {
        source: Some(brought),
    };
    let mut handle = table.event_loop.handle();
    handle.insert_source(source, brings).ok()?;
    second.ping();
    first.ping();
    let timeout = time(Some(100));
    let said = table.says(timeout, &[1]) && table.says(timeout, &[2]);
    Some(said && table.was_asked(&[Some(0), Some(0)]))
}
