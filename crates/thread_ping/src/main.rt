//! A ping that another thread rings, beside a timer, in one loop.
#![tactic(auto)]

use calloop::{
    Dispatcher, Instant, On, OneOf, PingSource, Result, Sources, SystemLoop, TimeoutAction, Timer,
    make_ping,
};
use std::thread::spawn;
use std::time::Duration;

/// Says its line.
#[derive(Drop)]
struct Says(&'static str);

impl On<(), String, ()> for Says {
    fn on(&mut self, _ring: (), said: &mut String) {
        let _failed = said.push_str(self.0);
    }
}

impl On<Instant, String, TimeoutAction> for Says {
    fn on(&mut self, _deadline: Instant, said: &mut String) -> TimeoutAction {
        let _failed = said.push_str(self.0);
        TimeoutAction::Drop
    }
}

/// What the loop holds, and what a dispatch lends.
type Held<R> = Sources<OneOf<Dispatcher<PingSource<R>, Says>, Dispatcher<Timer, Says>>, String>;

fn main(rt: HostRuntime) -> Result<()> {
    let alloc = rt.alloc();
    let mut event_loop: SystemLoop<Held<HostRuntime>, _> = SystemLoop::system(&rt, alloc)?;
    let (ping, source) = make_ping(&rt, alloc)?;
    let mut handle = event_loop.handle();
    handle.insert_source(source, Says("rung\n"))?;
    if let Ok(child) = spawn(&rt, move || ping.ping()) {
        child.join(&rt);
    }
    let mut said = String::new(alloc);
    event_loop.dispatch(&rt, Some(Duration::from_millis(10)), &mut said)?;
    let timer = Timer::from_duration(event_loop.clock(), Duration::from_millis(5));
    event_loop
        .handle()
        .insert_source(timer, Says("five milliseconds later\n"))?;
    event_loop.dispatch(&rt, None, &mut said)?;
    print!(rt; "{said}")?;
    Ok(())
}
