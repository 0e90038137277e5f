//! A loop with one timer.
#![tactic(auto)]

use calloop::{Dispatcher, Instant, On, Result, Sources, SystemLoop, TimeoutAction, Timer};
use std::alloc::Global;
use std::net::Net;
use std::sync::Wait;
use std::time::Clock;

/// Says that its time has come, once.
#[derive(Drop)]
struct Says;

impl On<Instant, String, TimeoutAction> for Says {
    fn on(&mut self, _deadline: Instant, said: &mut String) -> TimeoutAction {
        let _failed = said.push_str("five milliseconds\n");
        TimeoutAction::Drop
    }
}

// Waits for it, by the machine's clock.
fn wait_for_it<R: Net + Clock + Wait + Clone + Drop>(
    rt: &R,
    alloc: Global,
    said: &mut String,
) -> Result<()> {
    let mut event_loop: SystemLoop<Sources<Dispatcher<Timer, Says>, String>, R> =
        SystemLoop::system(rt, alloc)?;
    let timer = Timer::from_deadline(Instant::from_millis(5));
    event_loop.handle().insert_source(timer, Says)?;
    event_loop.dispatch(rt, None, said)?;
    Ok(())
}

fn main(rt: HostRuntime) -> Result<()> {
    let mut said = String::new(rt.alloc());
    wait_for_it(&rt, rt.alloc(), &mut said)?;
    print!(rt; "{said}")?;
    Ok(())
}
