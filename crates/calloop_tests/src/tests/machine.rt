//! Loops of pings over the machine's poller: rings, wakeups and stops, of the loop's own thread and of another, while it sleeps and while it doesn't.
use super::scripted::Pings;
use calloop::loop_logic::{EventLoop, LoopAnswer, LoopCall};
use calloop::{
    Choice, Clock, Dispatcher, EventDispatcher, Here, Instant, LoopSignal, MioPoller, Ping,
    PingSource, Poller, Readiness, RegistrationToken, Result, SystemClock, SystemLoop, make_ping,
};
use calloop_poll::sys::EVENTS_PER_WAIT;
use calloop_poll::sys::notifier::Notifier;
use calloop_test_sources::source::Teller;
use calloop_wake::Notify;
use std::alloc::Global;
use std::net::Net;
use std::sync::Wait;
use std::test::Fail;
use std::thread::{Threads, sleep, spawn};
use std::time::{Clock as MachineClock, Duration};

#[test]
fn a_notifier_of_another_thread_ends_a_long_wait_and_one_without_a_limit(
    rt: HostRuntime,
) -> std::result::Result<(), Fail> {
    for timeout in [minute(), None] {
        let clock = SystemClock::new(&rt)?;
        let mut poller = MioPoller::new(&rt, rt.alloc(), clock.clone()?)?;
        let notifier = poller.notifier()?;
        let child = spawn(&rt, move || notifies_later(&rt, notifier))?;
        let mut told: Vec<(u64, Readiness)> = Vec::with_capacity(rt.alloc(), EVENTS_PER_WAIT)?;
        assert!(rt; poller.wait(timeout, 0, &mut told).is_ok());
        assert!(rt; told.is_empty() && is_rested(&clock) && is_early(&clock));
        child.join(&rt);
    }
    Ok(())
}

#[test]
fn a_ring_of_another_thread_ends_a_long_dispatch(rt: HostRuntime) {
    assert_eq!(rt; goes(&rt, rt.alloc(), Trial::RingOfThread), Some(true));
}

#[test]
fn a_signal_of_another_thread_ends_a_long_dispatch(rt: HostRuntime) {
    assert_eq!(rt; goes(&rt, rt.alloc(), Trial::WakeupOfThread), Some(true));
}

#[test]
fn a_wakeup_before_a_dispatch_ends_its_wait(rt: HostRuntime) {
    assert_eq!(rt; goes(&rt, rt.alloc(), Trial::WakeupBefore), Some(true));
}

#[test]
fn a_run_ends_once_another_thread_stops_it(rt: HostRuntime) {
    assert_eq!(rt; goes(&rt, rt.alloc(), Trial::StopOfThread), Some(true));
}

#[test]
fn a_run_calls_after_each_dispatch_until_it_is_stopped(rt: HostRuntime) {
    assert_eq!(rt; goes(&rt, rt.alloc(), Trial::Run), Some(true));
}

#[test]
fn a_run_that_is_woken_goes_on(rt: HostRuntime) {
    assert_eq!(rt; goes(&rt, rt.alloc(), Trial::WokenRun), Some(true));
}

#[test]
fn a_stop_is_found_until_it_is_forgotten(rt: HostRuntime) {
    assert_eq!(rt; goes(&rt, rt.alloc(), Trial::StopIsForgotten), Some(true));
}

#[test]
fn a_ring_before_a_wait_and_one_after_it_are_called_at_once(rt: HostRuntime) {
    assert_eq!(rt; goes(&rt, rt.alloc(), Trial::RingsItself), Some(true));
}

#[test]
fn a_wakeup_ends_one_wait_and_not_the_next(rt: HostRuntime) {
    assert_eq!(rt; goes(&rt, rt.alloc(), Trial::WakesOnce), Some(true));
}

#[test]
fn no_ring_of_two_threads_is_slept_over(rt: HostRuntime) {
    assert_eq!(rt; goes(&rt, rt.alloc(), Trial::TwoThreads), Some(true));
}

#[test]
fn a_loop_of_the_machine_waits_for_its_timeout(rt: HostRuntime) {
    assert_eq!(rt; goes(&rt, rt.alloc(), Trial::Timeout), Some(true));
}

#[derive(Clone, Copy)]
enum Trial {
    RingOfThread,
    WakeupOfThread,
    WakeupBefore,
    StopOfThread,
    Run,
    WokenRun,
    StopIsForgotten,
    RingsItself,
    WakesOnce,
    TwoThreads,
    Timeout,
}

// True if it goes as it should. `None` without memory. Only this knows the types of the loop.
fn goes<R>(rt: &R, alloc: Global, trial: Trial) -> Option<bool>
where
    R: Net + MachineClock + Threads + Wait + Clone + Drop + Send + Sync + 'static,
{
    tries::<Pings<R>, R>(rt, alloc, trial)
}

fn tries<D, R>(rt: &R, alloc: Global, trial: Trial) -> Option<bool>
where
    D: EventDispatcher<MioPoller<SystemClock<R>>, SystemClock<R>, R, Data = Vec<u32>>,
    D: Choice<PingSource<R>, Teller, Here>,
    R: Net + MachineClock + Threads + Wait + Clone + Drop + Send + Sync + 'static,
{
    let event_loop: SystemLoop<D, R> = SystemLoop::system(rt, alloc).ok()?;
    match trial {
        Trial::RingOfThread => is_ended_by_a_ring(rt, alloc, event_loop),
        Trial::WakeupOfThread => is_ended_by_a_wakeup(rt, alloc, event_loop),
        Trial::WakeupBefore => is_ended_before(rt, alloc, event_loop),
        Trial::StopOfThread => is_stopped(rt, alloc, event_loop),
        Trial::Run => runs_until_stopped(rt, alloc, event_loop),
        Trial::WokenRun => runs_on(rt, alloc, event_loop),
        Trial::StopIsForgotten => is_found_until_forgotten(rt, event_loop),
        Trial::RingsItself => rings_itself(rt, alloc, event_loop),
        Trial::WakesOnce => wakes_once(rt, alloc, event_loop),
        Trial::TwoThreads => serves_two_threads(rt, alloc, event_loop),
        Trial::Timeout => waits_for_its_timeout(rt, alloc, event_loop),
    }
}

fn is_ended_by_a_ring<D, R>(rt: &R, alloc: Global, mut event_loop: SystemLoop<D, R>) -> Option<bool>
where
    D: EventDispatcher<MioPoller<SystemClock<R>>, SystemClock<R>, R, Data = Vec<u32>>,
    D: Choice<PingSource<R>, Teller, Here>,
    R: Net + MachineClock + Threads + Wait + Clone + Drop + Send + Sync + 'static,
{
    let (ping, _token) = ping_of(rt, alloc, &mut event_loop)?;
    let own = rt.clone().ok()?;
    let child = spawn(rt, move || rings_later(&own, ping)).ok()?;
    let is_ended = says_early(rt, alloc, &mut event_loop, &[7]);
    child.join(rt);
    Some(is_ended)
}

fn is_ended_by_a_wakeup<D, R>(
    rt: &R,
    alloc: Global,
    mut event_loop: SystemLoop<D, R>,
) -> Option<bool>
where
    D: EventDispatcher<MioPoller<SystemClock<R>>, SystemClock<R>, R, Data = Vec<u32>>,
    R: Net + MachineClock + Threads + Wait + Clone + Drop + Send + Sync + 'static,
{
    let signal = event_loop.get_signal().ok()?;
    let own = rt.clone().ok()?;
    let child = spawn(rt, move || wakes_later(&own, signal)).ok()?;
    let is_ended = says_early(rt, alloc, &mut event_loop, &[]);
    child.join(rt);
    Some(is_ended)
}

// The signal outlives its loop.
fn is_ended_before<D, R>(rt: &R, alloc: Global, mut event_loop: SystemLoop<D, R>) -> Option<bool>
where
    D: EventDispatcher<MioPoller<SystemClock<R>>, SystemClock<R>, R, Data = Vec<u32>>,
    R: Net + MachineClock + Wait + Clone + Drop,
{
    let signal = event_loop.get_signal().ok()?;
    signal.clone().ok()?.wakeup();
    let is_ended = says_early(rt, alloc, &mut event_loop, &[]);
    drop(event_loop);
    signal.wakeup();
    signal.stop();
    Some(is_ended)
}

fn is_stopped<D, R>(rt: &R, alloc: Global, mut event_loop: SystemLoop<D, R>) -> Option<bool>
where
    D: EventDispatcher<MioPoller<SystemClock<R>>, SystemClock<R>, R, Data = Vec<u32>>,
    R: Net + MachineClock + Threads + Wait + Clone + Drop + Send + Sync + 'static,
{
    let signal = event_loop.get_signal().ok()?;
    let own = rt.clone().ok()?;
    let child = spawn(rt, move || stops_later(&own, signal)).ok()?;
    let (answer, said) = runs(rt, alloc, &mut event_loop, minute(), |said| says(said, 1));
    child.join(rt);
    Some(answer.is_ok() && said.as_slice() == [1].as_slice() && is_early(event_loop.clock()))
}

fn runs_until_stopped<D, R>(rt: &R, alloc: Global, mut event_loop: SystemLoop<D, R>) -> Option<bool>
where
    D: EventDispatcher<MioPoller<SystemClock<R>>, SystemClock<R>, R, Data = Vec<u32>>,
    D: Choice<PingSource<R>, Teller, Here>,
    R: Net + MachineClock + Wait + Clone + Drop,
{
    let signal = event_loop.get_signal().ok()?;
    let (ping, _token) = ping_of(rt, alloc, &mut event_loop)?;
    // A stop of before is forgotten.
    signal.stop();
    let none = Some(Duration::ZERO);
    let (answer, said) = runs(rt, alloc, &mut event_loop, none, |said| {
        says(said, 1);
        match said.len() {
            1 => drop(ping.ping()),
            2 => {}
            _ => signal.stop(),
        }
    });
    Some(answer.is_ok() && said.as_slice() == [1, 7, 1].as_slice())
}

fn runs_on<D, R>(rt: &R, alloc: Global, mut event_loop: SystemLoop<D, R>) -> Option<bool>
where
    D: EventDispatcher<MioPoller<SystemClock<R>>, SystemClock<R>, R, Data = Vec<u32>>,
    R: Net + MachineClock + Wait + Clone + Drop,
{
    let signal = event_loop.get_signal().ok()?;
    signal.wakeup();
    let (answer, said) = runs(rt, alloc, &mut event_loop, minute(), |said| {
        says(said, 1);
        if said.len() > 1 {
            signal.stop();
        }
        signal.wakeup();
    });
    Some(answer.is_ok() && said.as_slice() == [1, 1].as_slice() && is_early(event_loop.clock()))
}

// Whether each look for a stop finds that of its signal until it is forgotten.
fn is_found_until_forgotten<D, R>(rt: &R, mut event_loop: SystemLoop<D, R>) -> Option<bool>
where
    D: EventDispatcher<MioPoller<SystemClock<R>>, SystemClock<R>, R, Data = Vec<u32>>,
    R: Net + MachineClock + Wait + Clone + Drop,
{
    let signal = event_loop.get_signal().ok()?;
    let is_none = !finds_a_stop(rt, &mut event_loop);
    signal.stop();
    let is_found = finds_a_stop(rt, &mut event_loop) && finds_a_stop(rt, &mut event_loop);
    let answer = event_loop.carry_out(rt, LoopCall::ForgetStop);
    let is_forgotten = matches!(answer, LoopAnswer::StopForgotten);
    Some(is_none && is_found && is_forgotten && !finds_a_stop(rt, &mut event_loop))
}

fn finds_a_stop<D, R>(rt: &R, event_loop: &mut SystemLoop<D, R>) -> bool
where
    D: EventDispatcher<MioPoller<SystemClock<R>>, SystemClock<R>, R, Data = Vec<u32>>,
    R: Net + MachineClock + Wait + Clone + Drop,
{
    let answer = event_loop.carry_out(rt, LoopCall::LookForStop);
    matches!(answer, LoopAnswer::Stopped(true))
}

fn rings_itself<D, R>(rt: &R, alloc: Global, mut event_loop: SystemLoop<D, R>) -> Option<bool>
where
    D: EventDispatcher<MioPoller<SystemClock<R>>, SystemClock<R>, R, Data = Vec<u32>>,
    D: Choice<PingSource<R>, Teller, Here>,
    R: Net + MachineClock + Wait + Clone + Drop,
{
    let (ping, _token) = ping_of(rt, alloc, &mut event_loop)?;
    ping.ping();
    let before = says_early(rt, alloc, &mut event_loop, &[7]);
    let rests = says_within(rt, alloc, &mut event_loop, pause(), &[]);
    ping.ping();
    Some(before && rests && says_early(rt, alloc, &mut event_loop, &[7]))
}

fn wakes_once<D, R>(rt: &R, alloc: Global, mut event_loop: SystemLoop<D, R>) -> Option<bool>
where
    D: EventDispatcher<MioPoller<SystemClock<R>>, SystemClock<R>, R, Data = Vec<u32>>,
    R: Net + MachineClock + Wait + Clone + Drop,
{
    let signal = event_loop.get_signal().ok()?;
    let rests = says_within(rt, alloc, &mut event_loop, pause(), &[]);
    signal.wakeup();
    let is_ended = says_early(rt, alloc, &mut event_loop, &[]);
    Some(rests && is_ended && waits(rt, alloc, &mut event_loop))
}

fn waits_for_its_timeout<D, R>(
    rt: &R,
    alloc: Global,
    mut event_loop: SystemLoop<D, R>,
) -> Option<bool>
where
    D: EventDispatcher<MioPoller<SystemClock<R>>, SystemClock<R>, R, Data = Vec<u32>>,
    R: Net + MachineClock + Wait + Clone + Drop,
{
    Some(waits(rt, alloc, &mut event_loop))
}

// Whether a dispatch of two milliseconds takes one of them at least.
fn waits<D, R>(rt: &R, alloc: Global, event_loop: &mut SystemLoop<D, R>) -> bool
where
    D: EventDispatcher<MioPoller<SystemClock<R>>, SystemClock<R>, R, Data = Vec<u32>>,
    R: Net + MachineClock + Wait + Clone + Drop,
{
    let began = event_loop.clock().now();
    says_within(rt, alloc, event_loop, pause(), &[])
        && event_loop.clock().now() >= began.after(Duration::from_millis(1))
}

// Two threads ring 50,000 times each, beside dispatches that may wait for a minute each.
fn serves_two_threads<D, R>(rt: &R, alloc: Global, mut event_loop: SystemLoop<D, R>) -> Option<bool>
where
    D: EventDispatcher<MioPoller<SystemClock<R>>, SystemClock<R>, R, Data = Vec<u32>>,
    D: Choice<PingSource<R>, Teller, Here>,
    R: Net + MachineClock + Threads + Wait + Clone + Drop + Send + Sync + 'static,
{
    let (first, token) = ping_of(rt, alloc, &mut event_loop)?;
    let second = first.clone().ok()?;
    let one = spawn(rt, move || rings(first)).ok()?;
    let other = spawn(rt, move || rings(second)).ok()?;
    let mut said = Vec::new(alloc);
    for _ in 0..200_000u32 {
        if event_loop.handle().dispatcher(&token).is_err() {
            break;
        }
        said.clear();
        event_loop.dispatch(rt, minute(), &mut said).ok()?;
    }
    one.join(rt);
    other.join(rt);
    let is_gone = event_loop.handle().dispatcher(&token).is_err();
    Some(is_gone && is_early(event_loop.clock()))
}

// A ping of the loop, which says 7.
fn ping_of<D, R>(
    rt: &R,
    alloc: Global,
    event_loop: &mut SystemLoop<D, R>,
) -> Option<(Ping<R>, RegistrationToken)>
where
    D: EventDispatcher<MioPoller<SystemClock<R>>, SystemClock<R>, R, Data = Vec<u32>>,
    D: Choice<PingSource<R>, Teller, Here>,
    R: Net + MachineClock + Wait + Clone + Drop,
{
    let (ping, source) = make_ping(rt, alloc).ok()?;
    let held = D::hold(Dispatcher::new(source, Teller { number: 7 }));
    let token = event_loop.handle().register_dispatcher(held).ok()?;
    Some((ping, token))
}

// Whether a dispatch succeeds in which these numbers are said.
fn says_within<D, R>(
    rt: &R,
    alloc: Global,
    event_loop: &mut SystemLoop<D, R>,
    timeout: Option<Duration>,
    numbers: &[u32],
) -> bool
where
    D: EventDispatcher<MioPoller<SystemClock<R>>, SystemClock<R>, R, Data = Vec<u32>>,
    R: Net + MachineClock + Wait + Clone + Drop,
{
    let mut said = Vec::new(alloc);
    let answer = event_loop.dispatch(rt, timeout, &mut said);
    answer.is_ok() && said.as_slice() == numbers
}

// The same of one that may take a minute, before that is over.
fn says_early<D, R>(
    rt: &R,
    alloc: Global,
    event_loop: &mut SystemLoop<D, R>,
    numbers: &[u32],
) -> bool
where
    D: EventDispatcher<MioPoller<SystemClock<R>>, SystemClock<R>, R, Data = Vec<u32>>,
    R: Net + MachineClock + Wait + Clone + Drop,
{
    says_within(rt, alloc, event_loop, minute(), numbers) && is_early(event_loop.clock())
}

/// What a run with this callback answers, and what was said in it.
pub fn runs<D, P: Poller, C: Clock, R: Wait + Drop, F: FnMut(&mut Vec<u32>)>(
    rt: &R,
    alloc: Global,
    event_loop: &mut EventLoop<D, P, C, R>,
    timeout: Option<Duration>,
    callback: F,
) -> (Result<()>, Vec<u32>)
where
    D: EventDispatcher<P, C, R, Data = Vec<u32>>,
    requires { F.IsAlwaysCallable callback }
{
    let mut said = Vec::new(alloc);
    let answer = event_loop.run(rt, timeout, &mut said, callback);
    (answer, said)
}

fn minute() -> Option<Duration> {
    Some(Duration::from_secs(60))
}

fn pause() -> Option<Duration> {
    Some(Duration::from_millis(2))
}

// How long a thread rests before it does something.
fn rest() -> Duration {
    Duration::from_millis(50)
}

// Whether it has shown nothing before the rest of another thread was over.
fn is_rested<C: Clock>(clock: &C) -> bool {
    clock.now() >= Instant { nanos: 0 }.after(rest())
}

// Whether less than a minute went by since the clock was made.
fn is_early<C: Clock>(clock: &C) -> bool {
    clock.now().nanos < 60_000_000_000
}

fn notifies_later<R: MachineClock>(rt: &R, notifier: Notifier) {
    sleep(rt, rest());
    notifier.notify();
}

fn rings_later<R: MachineClock, Q: Wait + Drop>(rt: &R, ping: Ping<Q>) {
    sleep(rt, rest());
    ping.ping();
}

fn wakes_later<R: MachineClock>(rt: &R, signal: LoopSignal) {
    sleep(rt, rest());
    signal.wakeup();
}

fn stops_later<R: MachineClock>(rt: &R, signal: LoopSignal) {
    sleep(rt, rest());
    signal.stop();
    signal.wakeup();
}

// Rings, and is dropped, which is told as well.
fn rings<R: Wait + Drop>(ping: Ping<R>) {
    for _ in 0..50_000u32 {
        ping.ping();
    }
}

fn says(said: &mut Vec<u32>, number: u32) {
    let _failed = said.push(number);
}
