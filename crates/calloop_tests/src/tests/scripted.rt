//! Loops of pings over a scripted poller: threads that ring, runs, clocks, and pings that outlive their loop.
use super::machine::runs;
use super::stage::{Table, time};
use calloop::futures::{Context, Future, Poll};
use calloop::{
    Choice, Clock, Dispatcher, Error, EventDispatcher, Here, Instant, Ping, PingSource,
    RegistrationToken, ScriptLoop, Sources, make_ping,
};
use calloop_script::{ScriptAnswer, ScriptClock, ScriptEnd, ScriptEvents, ScriptPoller};
use calloop_test_sources::source::Teller;
use std::alloc::Global;
use std::sync::Wait;
use std::thread::{Threads, spawn};
use std::time::Duration;

#[test]
fn a_ring_of_another_thread_is_one_call(rt: HostRuntime) {
    assert_eq!(rt; goes(&rt, rt.alloc(), Trial::RingOfThread), Some(true));
}

#[test]
fn rings_of_a_thread_beside_dispatches_are_at_most_as_many_calls(rt: HostRuntime) {
    assert_eq!(rt; goes(&rt, rt.alloc(), Trial::RingsOfThread), Some(true));
}

#[test]
fn the_clock_of_a_scripted_loop_follows_its_waits(rt: HostRuntime) {
    assert_eq!(rt; goes(&rt, rt.alloc(), Trial::Clock), Some(true));
}

#[test]
fn a_stop_lets_a_wait_run_to_its_end(rt: HostRuntime) {
    assert_eq!(rt; goes(&rt, rt.alloc(), Trial::Stop), Some(true));
}

#[test]
fn a_fault_ends_a_run_without_a_call(rt: HostRuntime) {
    assert_eq!(rt; goes(&rt, rt.alloc(), Trial::Fault), Some(true));
}

#[test]
fn a_ping_that_outlives_its_loop_can_be_rung(rt: HostRuntime) {
    assert_eq!(rt; goes(&rt, rt.alloc(), Trial::Outlives), Some(true));
}

#[test]
fn a_loop_runs_for_a_future_that_is_ready_at_once(rt: HostRuntime) {
    assert_eq!(rt; goes(&rt, rt.alloc(), Trial::Future), Some(true));
}

#[derive(Clone, Copy)]
enum Trial {
    RingOfThread,
    RingsOfThread,
    Clock,
    Stop,
    Fault,
    Outlives,
    Future,
}

/// Pings that say their numbers.
pub type Pings<R> = Sources<Dispatcher<PingSource<R>, Teller>, Vec<u32>>;

// True if it goes as it should. `None` without memory. Only this knows the types of the loop.
fn goes<R>(rt: &R, alloc: Global, trial: Trial) -> Option<bool>
where
    R: Threads + Wait + Clone + Drop + Send + Sync + 'static,
{
    tries::<Pings<R>, R>(rt, alloc, trial)
}

fn tries<D, R>(rt: &R, alloc: Global, trial: Trial) -> Option<bool>
where
    D: EventDispatcher<ScriptPoller, ScriptClock, R, Data = Vec<u32>>,
    D: Choice<PingSource<R>, Teller, Here>,
    R: Threads + Wait + Clone + Drop + Send + Sync + 'static,
{
    let table: Table<D, R> = Table::new(rt, alloc)?;
    match trial {
        Trial::RingOfThread => is_one_call(rt, table),
        Trial::RingsOfThread => are_at_most_as_many(rt, table),
        Trial::Clock => Some(follows(table)),
        Trial::Stop => rests_to_its_end(table),
        Trial::Fault => is_ended_by_a_fault(rt, alloc, table),
        Trial::Outlives => outlives(table),
        Trial::Future => runs_for(alloc, table),
    }
}

/// A future that is ready at once.
#[derive(Drop)]
struct Seven;

impl<R: Wait + Drop> Future<R> for Seven {
    type Output = u32;

    fn poll(&mut self, _cx: &mut Context<'_, R>) -> Poll<u32> {
        Poll::Ready(7)
    }
}

// Whether the loop gives the future's output, and waits for nothing.
fn runs_for<D, R>(alloc: Global, mut table: Table<D, R>) -> Option<bool>
where
    D: EventDispatcher<ScriptPoller, ScriptClock, R, Data = Vec<u32>>,
    R: Wait + Clone + Drop,
{
    let mut said = Vec::new(alloc);
    let ran = table
        .event_loop
        .block_on(&table.rt, alloc, Seven, &mut said, |_| {});
    Some(ran.ok()? == Some(7) && table.was_asked(&[]))
}

// A ping of the loop, which says 1.
fn insert_ping<D, R>(table: &mut Table<D, R>) -> Option<(RegistrationToken, Ping<R>)>
where
    D: EventDispatcher<ScriptPoller, ScriptClock, R, Data = Vec<u32>>,
    D: Choice<PingSource<R>, Teller, Here>,
    R: Wait + Clone + Drop,
{
    let (ping, source) = make_ping(&table.rt, table.alloc).ok()?;
    let held = D::hold(Dispatcher::new(source, Teller { number: 1 }));
    let token = table.event_loop.handle().register_dispatcher(held).ok()?;
    Some((token, ping))
}

// Whether a thread's ring is one call, and the next dispatch waits.
fn is_one_call<D, R>(rt: &R, mut table: Table<D, R>) -> Option<bool>
where
    D: EventDispatcher<ScriptPoller, ScriptClock, R, Data = Vec<u32>>,
    D: Choice<PingSource<R>, Teller, Here>,
    R: Threads + Wait + Clone + Drop + Send + Sync + 'static,
{
    let (_, ping) = insert_ping(&mut table)?;
    let again = ping.clone().ok()?;
    let child = spawn(rt, move || rings_once(again)).ok()?;
    let is_joined = child.join(rt);
    let timeout = time(Some(100));
    let is_said = table.says(timeout, &[1]) && table.says(timeout, &[]);
    Some(is_joined && is_said && table.was_asked(&[Some(0), Some(100)]))
}

// Whether as many rings are at least one call, and the source leaves after some waits, and the next dispatch waits.
fn are_at_most_as_many<D, R>(rt: &R, mut table: Table<D, R>) -> Option<bool>
where
    D: EventDispatcher<ScriptPoller, ScriptClock, R, Data = Vec<u32>>,
    D: Choice<PingSource<R>, Teller, Here>,
    R: Threads + Wait + Clone + Drop + Send + Sync + 'static,
{
    let (token, ping) = insert_ping(&mut table)?;
    let child = spawn(rt, move || rings_by_clones(ping)).ok()?;
    let mut calls = 0usize;
    for _ in 0..1000u32 {
        calls = calls.saturating_add(calls_in(&mut table));
    }
    let is_joined = child.join(rt);
    calls = calls.saturating_add(calls_in(&mut table));
    let is_closed = table.is_gone(token)
        && !table.was_asked(&[])
        && table.says(time(Some(100)), &[]);
    Some(is_joined && is_closed && calls >= 1 && calls <= 1000 && table.was_asked(&[Some(100)]))
}

fn calls_in<D, R>(table: &mut Table<D, R>) -> usize
where
    D: EventDispatcher<ScriptPoller, ScriptClock, R, Data = Vec<u32>>,
    R: Wait + Clone + Drop,
{
    let (_answer, said) = table.dispatch(time(Some(0)));
    said.len()
}

// Whether the loop's clock shows the end of a wait.
fn follows<D, R>(mut table: Table<D, R>) -> bool
where
    D: EventDispatcher<ScriptPoller, ScriptClock, R, Data = Vec<u32>>,
    R: Wait + Clone + Drop,
{
    let before = table.event_loop.clock().now();
    let is_said = table.says(time(Some(7)), &[]);
    let after = table.event_loop.clock().now();
    before == Instant::from_nanos(0) && is_said && after == Instant::from_millis(7)
}

fn rests_to_its_end<D, R>(mut table: Table<D, R>) -> Option<bool>
where
    D: EventDispatcher<ScriptPoller, ScriptClock, R, Data = Vec<u32>>,
    R: Wait + Clone + Drop,
{
    let signal = table.event_loop.get_signal().ok()?;
    signal.stop();
    let is_said = table.says(time(Some(50)), &[]);
    Some(is_said && table.event_loop.clock().now() == Instant::from_millis(50))
}

// Whether a run whose second wait fails calls once, and answers the fault.
fn is_ended_by_a_fault<D, R>(rt: &R, alloc: Global, mut table: Table<D, R>) -> Option<bool>
where
    D: EventDispatcher<ScriptPoller, ScriptClock, R, Data = Vec<u32>>,
    R: Wait + Clone + Drop,
{
    scripts(
        &mut table.event_loop,
        ScriptEnd::Events(ScriptEvents::new(alloc)),
    )?;
    scripts(&mut table.event_loop, ScriptEnd::Fault)?;
    let (answer, said) = runs(rt, alloc, &mut table.event_loop, None, |said| says(said, 1));
    Some(matches!(answer, Err(Error::IoError(_))) && said.as_slice() == [1].as_slice())
}

fn scripts<D, R>(event_loop: &mut ScriptLoop<D, R>, end: ScriptEnd) -> Option<()>
where
    D: EventDispatcher<ScriptPoller, ScriptClock, R>,
    R: Wait + Drop,
{
    let moment = Instant::from_nanos(5);
    event_loop
        .handle()
        .poller_mut()
        .script(ScriptAnswer { moment, end })
        .ok()
}

fn outlives<D, R>(mut table: Table<D, R>) -> Option<bool>
where
    D: EventDispatcher<ScriptPoller, ScriptClock, R, Data = Vec<u32>>,
    D: Choice<PingSource<R>, Teller, Here>,
    R: Wait + Clone + Drop,
{
    let (_, ping) = insert_ping(&mut table)?;
    ping.ping();
    let is_said = table.says(time(Some(0)), &[1]);
    drop(table);
    ping.ping();
    Some(is_said && ping.clone().is_ok())
}

fn rings_once<R: Wait + Clone + Drop>(ping: Ping<R>) -> bool {
    ping.ping();
    true
}

// Clones, rings and drops the ping a thousand times, and then drops it. False if it couldn't be cloned.
fn rings_by_clones<R: Wait + Clone + Drop>(ping: Ping<R>) -> bool {
    for _ in 0..1000u64 {
        let Ok(again) = ping.clone() else {
            return false;
        };
        again.ping();
    }
    true
}

fn says(said: &mut Vec<u32>, number: u32) {
    let _failed = said.push(number);
}
