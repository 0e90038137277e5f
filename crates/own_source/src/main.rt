//! A source of the program's own, whose events carry numbers: its callback adds them to what each dispatch lends.
#![tactic(auto)]

use calloop::{Asking, Callback, Dispatcher, Result, ScriptLoop, Sources};
use numbers::Numbers;
use std::alloc::Global;
use std::process::ExitCode;
use std::sync::Wait;
use std::time::Duration;

mod numbers;

/// Adds each number to the sum.
#[derive(Drop)]
struct Add;

impl<Q: Asking> Callback<u64, (), (), u64, Q> for Add {
    ghost use Rattle.std.specs.Prelude.{◌≡◌, ◌+◌, ◌-◌, ◌^◌, min};

    ghost may = { λ _ number _ sum _ _ _ _ after _. after ≡ min (sum + number) (2 ^ 64 - 1) };

    fn call(&mut self, number: u64, _: &mut (), sum: &mut u64, _: &mut Q) {
        *sum = sum.saturating_add(number);
    }
}

/// What the loop holds: one kind of source with its callback, and the sum that is lent.
type Held = Sources<Dispatcher<Numbers, Add>, u64>;

// The sums after each of four dispatches.
fn sums<R: Wait + Clone + Drop>(rt: &R, alloc: Global) -> Result<[u64; 4]> {
    let mut event_loop: ScriptLoop<Held, R> = ScriptLoop::with_script(rt, alloc)?;
    event_loop.handle().insert_source(Numbers::up_to(3), Add)?;

    let mut sum = 0u64;
    let mut sums = [0u64; 4];
    for shown in &mut sums {
        event_loop.dispatch(rt, Some(Duration::from_millis(10)), &mut sum)?;
        *shown = sum;
    }
    Ok(sums)
}

fn main(rt: HostRuntime) -> ExitCode {
    match sums(&rt, rt.alloc()) {
        Ok(sums) if println!(rt; "{sums:?}").is_ok() => ExitCode::SUCCESS,
        _ => ExitCode::FAILURE,
    }
}
