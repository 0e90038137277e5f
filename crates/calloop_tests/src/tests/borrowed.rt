//! Data of a dispatch that borrows.
use calloop::loop_logic::EventLoop;
use calloop::ping::make_ping;
use calloop::{Dispatcher, On, PingSource, Sources};
use calloop_script::{ScriptClock, ScriptPoller};
use std::time::Duration;

#[test]
fn the_data_of_a_dispatch_may_borrow_what_outlives_the_loop(rt: HostRuntime) {
    let mut rings = 0;
    {
        let poller = ScriptPoller::new(rt.alloc()).expect(&rt, "a poller");
        let clock = poller.clock().expect(&rt, "a clock");
        let mut event_loop: Borrowing<'_, HostRuntime> = EventLoop::try_new(
            &rt,
            rt.alloc(),
            poller,
            clock,
        ).expect(&rt, "a loop");
        let (ping, source) = make_ping(&rt, rt.alloc()).expect(&rt, "a ping");
        assert!(rt; event_loop.handle().insert_source(source, Ringer).is_ok());
        ping.ping();
        let mut count = Count { rings: &mut rings };
        let answer = event_loop.dispatch(&rt, Some(Duration::ZERO), &mut count);
        assert!(rt; answer.is_ok());
    }
    assert_eq!(rt; rings, 1);
}

type Borrowing<'a, R> = EventLoop<
    Sources<Dispatcher<PingSource<R>, Ringer>, Count<'a>>,
    ScriptPoller,
    ScriptClock,
    R,
>;

// Lends a number.
#[derive(Drop)]
struct Count<'a> {
    rings: &'a mut u32,
}

// Counts a ring.
#[derive(Drop)]
struct Ringer;

impl<'a> On<(), Count<'a>, ()> for Ringer {
    fn on(&mut self, _event: (), count: &mut Count<'a>) {
        *count.rings = count.rings.saturating_add(1);
    }
}
