//! A loop in which each timer asks for the next one: the law of armings, with callbacks that ask for insertions.
#![tactic(auto)]

ghost use Rattle.calloop_laws.specs.EveryRun.{OverEveryRun, FromTheStart, ArmingsAreKept};
ghost use Rattle.calloop_loop.specs.Askings.{OnlyAsks};
ghost use Rattle.timer_chain.specs.Chains.{AsksForTimers, chain_meaning, no_idles};

use calloop::{
    Callback, Choice, Dispatcher, Here, Instant, Requests, Result, ScriptLoop, Sources,
    TimeoutAction, Timer,
};
use calloop_laws::once;
use calloop_poll::sys::{Clock, Poller};
use std::alloc::Global;
use std::process::ExitCode;
use std::sync::Wait;

/// Counts its call, and asks for a timer of the same moment, so many times more.
#[derive(Drop)]
pub struct Again {
    left: u32,
}

impl<D> Callback<Instant, (), TimeoutAction, u64, Requests<D>> for Again
where
    D: Choice<Timer, Again, Here> + Drop,
{
    ghost use Rattle.timer_chain.specs.Chains.{AsksForTimers};

    ghost may = { λ f e m x q t g n y r. AsksForTimers D.held q r };

    fn call(
        &mut self,
        deadline: Instant,
        _: &mut (),
        calls: &mut u64,
        requests: &mut Requests<D>,
    ) -> TimeoutAction {
        *calls = calls.saturating_add(1);
        ask(self.left, deadline, requests);
        TimeoutAction::Drop
    }
}

// Asks for the next timer, if there is one more.
fn ask<D>(left: u32, deadline: Instant, requests: &mut Requests<D>)
where
    D: Choice<Timer, Again, Here> + Drop,
    ensures timers { AsksForTimers D.held requests.old requests.new }
    ensures asks { OnlyAsks requests.old requests.new }
{
    if left > 0 {
        let next = Again { left: left - 1 };
        let _ticket = requests.insert_source(Timer::from_deadline(deadline), next);
    }
}

/// What the loop holds: timers that ask for the next one. A dispatch lends the number of calls.
type Chain = Sources<Dispatcher<Timer, Again>, u64>;

/// Whatever calls a loop over this chain gets from its beginning, and whatever poller and clock answer: if each timer that is inserted
/// by a call was never registered, and none is exchanged for one that holds more, no timer is called early, nor twice for one
/// arming. That the callbacks ask for such timers alone, their relation says.
pub fn no_timer_is_early<P: Poller, C: Clock, R: Wait + Drop>()
    ensures { OverEveryRun chain_meaning no_idles P.outside
        (FromTheStart (ArmingsAreKept chain_meaning)) }
{
    once::<Chain, P, C, R>();
}

// Three dispatches of a loop with a chain of three timers: how often they called.
fn run<R: Wait + Clone + Drop>(rt: &R, alloc: Global) -> Result<u64> {
    let mut event_loop: ScriptLoop<Chain, R> = ScriptLoop::with_script(rt, alloc)?;
    let timer = Timer::from_deadline(Instant::from_millis(0));
    event_loop
        .handle()
        .insert_source(timer, Again { left: 2 })
        .map_err(|refused| refused.error)?;
    let mut calls = 0u64;
    for _ in 0..3u32 {
        event_loop.dispatch(rt, None, &mut calls)?;
    }
    Ok(calls)
}

fn main(rt: HostRuntime) -> ExitCode {
    let Ok(calls) = run(&rt, rt.alloc()) else {
        return ExitCode::FAILURE;
    };
    match println!(rt; "{calls} timers were called") {
        Ok(()) => ExitCode::SUCCESS,
        Err(_) => ExitCode::FAILURE,
    }
}
