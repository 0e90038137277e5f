//! A loop that is measured.
ghost use Rattle.std.specs.Prelude.{◌≡◌, ◌+◌, ◌*◌, ◌%◌, ◌^◌, ◌-◌, ◌≤◌, min, IfOk, vec_len};

use crate::measured::{Measured, ReadsByte};
use crate::tasks::{Meeting, Task};
use anyhow::{Context, Result};
use calloop::channel::{Channel, Event, Sender, SyncSender, make_channel, sync_channel};
use calloop::futures::{Executor, Scheduler, make_executor};
use calloop::loop_logic::EventLoop;
use calloop::ping::{Ping, make_ping};
use calloop::{
    Asking, Callback, Choice, Clock, Dispatcher, EventDispatcher, Generic, Here, Instant, Interest,
    Keep, Mode, NoIoDrop, OneOf, PingSource, Poller, PostAction, Readiness, RegistrationToken,
    Requests, Sources, There, TimeoutAction, TimeoutFuture, TimeoutTimer, Timer,
};
use std::alloc::Global;
use std::io;
use std::sync::{Arc, Wait};
use std::time::{self, Duration};

/// Counts its calls in the data that a dispatch lends.
#[derive(Drop)]
pub struct Counts;

impl<Q: Asking> Callback<(), (), (), u64, Q> for Counts {
    ghost use Rattle.loop_bench.specs.Counting.{counts};

    ghost may = { counts };

    fn call(&mut self, _event: (), _: &mut (), calls: &mut u64, _: &mut Q) {
        *calls = calls.saturating_add(1);
    }
}

impl<Q: Asking> Callback<Event<u64>, (), (), u64, Q> for Counts {
    ghost use Rattle.loop_bench.specs.Counting.{counts_events};

    ghost may = { counts_events };

    fn call(&mut self, _event: Event<u64>, _: &mut (), calls: &mut u64, _: &mut Q) {
        *calls = calls.saturating_add(1);
    }
}

impl<Q: Asking> Callback<Instant, (), TimeoutAction, u64, Q> for Counts {
    ghost use Rattle.loop_bench.specs.Counting.{counts_and_leaves};

    ghost may = { counts_and_leaves };

    fn call(
        &mut self,
        _deadline: Instant,
        _: &mut (),
        calls: &mut u64,
        _: &mut Q,
    ) -> TimeoutAction {
        *calls = calls.saturating_add(1);
        TimeoutAction::Drop
    }
}

impl<I, Q: Asking> Callback<Readiness, NoIoDrop<I>, io::Result<PostAction>, u64, Q> for Counts {
    ghost use Rattle.loop_bench.specs.Counting.{counts_and_stays};

    ghost may = { counts_and_stays };

    // Reads nothing, so the socket stays readable.
    fn call(
        &mut self,
        _readiness: Readiness,
        _: &mut NoIoDrop<I>,
        calls: &mut u64,
        _: &mut Q,
    ) -> io::Result<PostAction> {
        *calls = calls.saturating_add(1);
        Ok(PostAction::Continue)
    }
}

/// Reads a byte of its socket, and counts its calls in the data that a dispatch lends.
#[derive(Drop)]
pub struct Reads;

impl<I: ReadsByte, Q: Asking> Callback<Readiness, NoIoDrop<I>, io::Result<PostAction>, u64, Q>
    for Reads {
    ghost use Rattle.loop_bench.specs.Counting.{counts_and_reads};

    ghost may = { counts_and_reads };

    fn call(
        &mut self,
        _readiness: Readiness,
        io: &mut NoIoDrop<I>,
        calls: &mut u64,
        _: &mut Q,
    ) -> io::Result<PostAction> {
        io.get_mut().read_byte()?;
        *calls = calls.saturating_add(1);
        Ok(PostAction::Continue)
    }
}

/// The sources of the rows, and the count of calls that each dispatch lends. Only the code that runs a row names them.
pub type Held<P, C, R> = Sources<
    OneOf<
        Dispatcher<PingSource<R>, Counts>,
        OneOf<
            Dispatcher<Timer, Counts>,
            OneOf<
                Dispatcher<Generic<<P as Measured<C, R>>::Io>, Counts>,
                OneOf<
                    Dispatcher<Channel<u64, R>, Counts>,
                    OneOf<
                        Dispatcher<Generic<<P as Measured<C, R>>::Io>, Reads>,
                        OneOf<Dispatcher<Executor<Task<C, R>, R>, Counts>, TimeoutTimer<R>>,
                    >,
                >,
            >,
        >,
    >,
    u64,
>;

/// The place of timers in `Held`.
pub type Second = There<Here>;

/// The place of sockets which aren't read.
pub type Third = There<Second>;

/// The place of channels.
pub type Fourth = There<Third>;

/// The place of sockets which are read.
pub type Fifth = There<Fourth>;

/// The place of executors.
pub type Sixth = There<Fifth>;

/// The place of timeouts.
pub type Seventh = There<Sixth>;

/// A loop, the number of calls of its callbacks, and the time that was measured, in nanoseconds.
#[derive(Drop)]
pub struct Bench<D: EventDispatcher<P, C, R>, P: Poller, C: Clock, R: Wait + Drop> {
    pub rt: R,
    pub alloc: Global,
    pub event_loop: EventLoop<D, P, C, R>,
    clock: C,
    pub calls: u64,
    pub nanoseconds: u64,
}

impl<D, P, C, R> Bench<D, P, C, R>
where
    D: EventDispatcher<P, C, R, Data = u64, Idle = ()>,
    D: Choice<PingSource<R>, Counts, Here>,
    D: Choice<Timer, Counts, Second>,
    D: Choice<Generic<P::Io>, Counts, Third>,
    D: Choice<Channel<u64, R>, Counts, Fourth>,
    D: Choice<Generic<P::Io>, Reads, Fifth>,
    D: Choice<Executor<Task<C, R>, R>, Counts, Sixth>,
    D: Keep<TimeoutTimer<R>, P, C, R, u64, Requests<D>, Seventh>,
    P: Measured<C, R>,
    C: Clock,
    R: Wait + time::Clock + Clone + Drop,
{
    /// Makes a loop without sources. Nothing was measured yet.
    pub fn new(rt: &R, alloc: Global) -> Result<Bench<D, P, C, R>>
        ensures { IfOk result (λ made. (made.calls ≡ 0) × (made.nanoseconds ≡ 0)) }
    {
        let (poller, clock) = P::make(rt, alloc)?;
        Ok(Bench {
            rt: rt.clone()?,
            alloc,
            clock: clock.clone()?,
            event_loop: EventLoop::try_new(rt, alloc, poller, clock)?,
            calls: 0,
            nanoseconds: 0,
        })
    }

    /// Returns the beginning of a span of time that is to be measured.
    pub fn start(&self) -> Result<time::Instant> {
        time::Instant::now(&self.rt).context("reading the clock")
    }

    /// Adds the time since then to the measured time.
    pub fn stop(&mut self, began: time::Instant) -> Result<()>
        ensures adds { self.old.nanoseconds ≤ self.new.nanoseconds }
        ensures calls { self.new.calls ≡ self.old.calls }
    {
        let span = began.elapsed(&self.rt).context("reading the clock")?;
        let nanoseconds = u64::try_from(span.as_nanos()).unwrap_or(u64::MAX);
        self.nanoseconds = self.nanoseconds.saturating_add(nanoseconds);
        Ok(())
    }

    /// Dispatches without waiting.
    pub fn dispatch(&mut self) -> calloop::Result<()>
        ensures { self.new.nanoseconds ≡ self.old.nanoseconds }
    {
        self.event_loop
            .dispatch(&self.rt, Some(Duration::ZERO), &mut self.calls)
    }

    /// Dispatches and waits for at most ten seconds.
    pub fn wait(&mut self) -> calloop::Result<()>
        ensures { self.new.nanoseconds ≡ self.old.nanoseconds }
    {
        self.event_loop
            .dispatch(&self.rt, Some(Duration::from_secs(10)), &mut self.calls)
    }

    /// The present time of the loop's clock.
    pub fn now(&self) -> Instant
        ensures { C.shows self.now.clock result.nanos }
    {
        self.clock.now()
    }

    /// Returns once the loop's clock shows this moment or a later one.
    pub fn come_to(&mut self, moment: Instant)
        ensures calls { self.new.calls ≡ self.old.calls }
        ensures nanoseconds { self.new.nanoseconds ≡ self.old.nanoseconds }
    {
        self.event_loop
            .handle()
            .poller_mut()
            .come_to(&self.rt, moment);
    }

    /// Makes a ping, and its source, which isn't registered yet.
    pub fn make_ping(&self) -> Result<(Ping<R>, PingSource<R>)> {
        Ok(make_ping(&self.rt, self.alloc)?)
    }

    /// The loop's entry for the source of a ping.
    pub fn hold_ping(source: PingSource<R>) -> D {
        <D as Choice<PingSource<R>, Counts, Here>>::hold(Dispatcher::new(source, Counts))
    }

    /// Puts a source into the loop.
    pub fn insert(&mut self, held: D) -> Result<RegistrationToken>
        ensures calls { self.new.calls ≡ self.old.calls }
        ensures nanoseconds { self.new.nanoseconds ≡ self.old.nanoseconds }
    {
        match self.event_loop.handle().register_dispatcher(held) {
            Ok(token) => Ok(token),
            Err(refused) => Err(refused.error.into()),
        }
    }

    /// Puts so many pings into the loop.
    pub fn insert_pings(&mut self, size: u32) -> Result<Vec<Ping<R>>>
        ensures pings { IfOk result (λ pings. vec_len pings ≡ size) }
        ensures calls { self.new.calls ≡ self.old.calls }
        ensures nanoseconds { self.new.nanoseconds ≡ self.old.nanoseconds }
    {
        let mut pings = Vec::new(self.alloc);
        for _ in 0..size {
            let (ping, source) = self.make_ping()?;
            self.insert(Self::hold_ping(source))?;
            pings.push(ping)?;
        }
        Ok(pings)
    }

    /// Puts a channel into the loop. Returns its sender.
    pub fn insert_channel(&mut self) -> Result<Sender<u64, R>>
        ensures calls { self.new.calls ≡ self.old.calls }
        ensures nanoseconds { self.new.nanoseconds ≡ self.old.nanoseconds }
    {
        let (sender, channel) = make_channel(&self.rt, self.alloc)?;
        self.insert(Self::hold_channel(channel))?;
        Ok(sender)
    }

    /// Puts a channel with a bound into the loop. Returns its sender.
    pub fn insert_sync_channel(&mut self, bound: u32) -> Result<SyncSender<u64, R>>
        ensures calls { self.new.calls ≡ self.old.calls }
        ensures nanoseconds { self.new.nanoseconds ≡ self.old.nanoseconds }
    {
        let (sender, channel) = sync_channel(&self.rt, self.alloc, bound as usize)?;
        self.insert(Self::hold_channel(channel))?;
        Ok(sender)
    }

    fn hold_channel(channel: Channel<u64, R>) -> D {
        let dispatcher = Dispatcher::new(channel, Counts);
        <D as Choice<Channel<u64, R>, Counts, Fourth>>::hold(dispatcher)
    }

    /// Puts so many sockets into the loop, each with a byte to be read. Returns their peers.
    pub fn insert_sockets(&mut self, size: u32) -> Result<Vec<P::Peer>>
        ensures calls { self.new.calls ≡ self.old.calls }
        ensures nanoseconds { self.new.nanoseconds ≡ self.old.nanoseconds }
    {
        let mut peers = Vec::new(self.alloc);
        for _ in 0..size {
            let (io, mut peer) = P::pair(&self.rt)?;
            P::send(&mut peer)?;
            let source: Generic<P::Io> = Generic::new(io, Interest::READ, Mode::Level);
            let dispatcher = Dispatcher::new(source, Counts);
            self.insert(<D as Choice<Generic<P::Io>, Counts, Third>>::hold(dispatcher))?;
            peers.push(peer)?;
        }
        Ok(peers)
    }

    /// Puts so many sockets into the loop in this mode, read by their callback. Returns their peers, which have sent nothing.
    pub fn insert_read_sockets(&mut self, size: u32, mode: Mode) -> Result<Vec<P::Peer>>
        ensures peers { IfOk result (λ peers. vec_len peers ≡ size) }
        ensures calls { self.new.calls ≡ self.old.calls }
        ensures nanoseconds { self.new.nanoseconds ≡ self.old.nanoseconds }
    {
        let mut peers = Vec::new(self.alloc);
        for _ in 0..size {
            let (io, peer) = P::pair(&self.rt)?;
            let source: Generic<P::Io> = Generic::new(io, Interest::READ, mode);
            let dispatcher = Dispatcher::new(source, Reads);
            self.insert(<D as Choice<Generic<P::Io>, Reads, Fifth>>::hold(dispatcher))?;
            peers.push(peer)?;
        }
        Ok(peers)
    }

    /// Puts an executor into the loop. Returns its scheduler.
    pub fn insert_executor(&mut self) -> Result<Scheduler<Task<C, R>, R>>
        ensures calls { self.new.calls ≡ self.old.calls }
        ensures nanoseconds { self.new.nanoseconds ≡ self.old.nanoseconds }
    {
        let (executor, scheduler) = make_executor(&self.rt, self.alloc)?;
        let dispatcher = Dispatcher::new(executor, Counts);
        self.insert(<D as Choice<Executor<Task<C, R>, R>, Counts, Sixth>>::hold(dispatcher))?;
        Ok(scheduler)
    }

    /// Makes a future that is ready at this moment.
    pub fn make_timeout(&mut self, deadline: Instant) -> Result<TimeoutFuture<C, R>>
        ensures calls { self.new.calls ≡ self.old.calls }
        ensures nanoseconds { self.new.nanoseconds ≡ self.old.nanoseconds }
    {
        let mut handle = self.event_loop.handle();
        let timeout = TimeoutFuture::from_deadline(&mut handle, &self.rt, self.alloc, deadline)?;
        Ok(timeout)
    }

    /// Makes the meeting of a future and another thread, before either of them came.
    pub fn make_meeting(&self) -> Result<Arc<Meeting<R>, Global>> {
        Ok(Arc::new(self.alloc, Meeting::new(self.rt.clone()?))?)
    }

    /// Arms a timer for this moment, if the loop has room for it.
    pub fn insert_timer(&mut self, deadline: Instant) -> Option<RegistrationToken>
        ensures calls { self.new.calls ≡ self.old.calls }
        ensures nanoseconds { self.new.nanoseconds ≡ self.old.nanoseconds }
    {
        let timer = Dispatcher::new(Timer::from_deadline(deadline), Counts);
        let held = <D as Choice<Timer, Counts, Second>>::hold(timer);
        self.event_loop.handle().register_dispatcher(held).ok()
    }

    /// Arms so many timers, for the scattered moments from this one on.
    pub fn insert_timers(&mut self, size: u32, from: Instant) -> Result<()>
        ensures calls { self.new.calls ≡ self.old.calls }
        ensures nanoseconds { self.new.nanoseconds ≡ self.old.nanoseconds }
    {
        for i in 0..size {
            self.insert_timer(scatter(from, i))
                .context("room for a timer")?;
        }
        Ok(())
    }
}

/// The span of the scattered moments, in nanoseconds.
pub const SCATTER: u64 = 1 << 20;

/// The moment of this number among 2^20 that are a nanosecond apart, in an order that goes to and fro. Further numbers give them again.
pub fn scatter(from: Instant, number: u32) -> Instant
    ensures { result.nanos ≡ min (from.nanos + number * 489905 % 2 ^ 20) (2 ^ 64 - 1) }
{
    let nanoseconds = u64::from(number) * 489_905 % SCATTER;
    from.after(Duration::from_nanos(nanoseconds))
}
