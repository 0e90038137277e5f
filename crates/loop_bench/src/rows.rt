//! Runs the rows. The set-up before isn't measured.
use crate::bench::{
    Bench, Counts, Fifth, Fourth, Held, Reads, SCATTER, Second, Seventh, Sixth, Third, scatter,
};
use crate::measured::{Measured, ReadsByte};
use crate::row::{Kind, Row};
use crate::tasks::{Meeting, Sleeper, Task};
use anyhow::{Context, Result, ensure};
use calloop::channel::{Channel, Sender, SyncSender};
use calloop::futures::{Executor, Scheduler, Waker};
use calloop::{
    Choice, Clock, EventDispatcher, Generic, Here, Instant, Keep, Mode, PingSource, Requests,
    TimeoutTimer, Timer,
};
use std::alloc::Global;
use std::sync::{Arc, Wait};
use std::thread::{Threads, spawn};
use std::time::{self, Duration};

// The number of seconds until the timers are due that don't fire while a row runs.
const FAR: u64 = 1_000_000;

/// Runs a row, and returns its time in nanoseconds. An error says what went wrong, also a wrong number of called callbacks.
pub fn run<P, C, R>(rt: &R, alloc: Global, row: &Row) -> Result<u64>
where
    P: Measured<C, R>,
    P::Io: ReadsByte,
    C: Clock,
    R: Threads + Wait + time::Clock + Clone + Drop + Send + Sync + 'static,
{
    // Only this knows the loop's types, and it calls nothing else: each such call costs the prover as much as a row.
    run_over::<Held<P, C, R>, P, C, R>(rt, alloc, row)
}

fn run_over<D, P, C, R>(rt: &R, alloc: Global, row: &Row) -> Result<u64>
where
    D: EventDispatcher<P, C, R, Data = u64, Idle = ()>,
    D: Choice<PingSource<R>, Counts, Here>,
    D: Choice<Timer, Counts, Second>,
    D: Choice<Generic<P::Io>, Counts, Third>,
    D: Choice<Channel<u64, R>, Counts, Fourth>,
    D: Choice<Generic<P::Io>, Reads, Fifth>,
    D: Choice<Executor<Task<C, R>, R>, Counts, Sixth>,
    D: Keep<TimeoutTimer<R>, P, C, R, u64, Requests<D>, Seventh>,
    P: Measured<C, R>,
    P::Io: ReadsByte,
    C: Clock,
    R: Threads + Wait + time::Clock + Clone + Drop + Send + Sync + 'static,
{
    let mut bench: Bench<D, P, C, R> = Bench::new(rt, alloc)?;
    bench.measure(row)?;
    let calls = bench.calls;
    ensure!(
        calls == row.calls(),
        "{calls} calls in place of {}",
        row.calls()
    );
    Ok(bench.nanoseconds)
}

impl<D, P, C, R> Bench<D, P, C, R>
where
    D: EventDispatcher<P, C, R, Data = u64, Idle = ()>,
    D: Choice<PingSource<R>, Counts, Here>,
    D: Choice<Timer, Counts, Second>,
    D: Choice<Generic<P::Io>, Counts, Third>,
    D: Choice<Channel<u64, R>, Counts, Fourth>,
    D: Choice<Generic<P::Io>, Reads, Fifth>,
    D: Choice<Executor<Task<C, R>, R>, Counts, Sixth>,
    D: Keep<TimeoutTimer<R>, P, C, R, u64, Requests<D>, Seventh>,
    P: Measured<C, R>,
    C: Clock,
    R: Threads + Wait + time::Clock + Clone + Drop + Send + Sync + 'static,
{
    fn measure(&mut self, row: &Row) -> Result<()> {
        let (count, size) = (row.count.get(), row.size.get());
        match row.kind {
            Kind::RingAndDispatch => self.ring_and_dispatch(count, size),
            Kind::TimersFired => self.timers_fired(count, size),
            Kind::TimersCancelled => self.timers_cancelled(count, size),
            Kind::InsertAndRemove => self.insert_and_remove(count, size),
            Kind::IdleDispatch => self.idle_dispatch(count, size),
            Kind::IdleBesidePings => self.idle_beside_pings(count, size),
            Kind::PingsServed => self.pings_served(count, size),
            Kind::PingsRung => self.pings_rung(count, size),
            Kind::ReadableSockets => self.readable_sockets(count, size),
            Kind::EdgeSockets => self.sockets_read(count, size, Mode::Edge),
            Kind::LevelSockets => self.sockets_read(count, size, Mode::Level),
            Kind::MessagesServed => self.messages_served(count, size),
            Kind::BoundedMessagesServed => self.bounded_messages_served(count, size),
            Kind::ThreadMessagesServed => self.thread_messages_served(count, size),
            Kind::BoundedThreadMessagesServed => self.bounded_thread_messages_served(count, size),
            Kind::ReadyFutures => self.ready_futures(count, size),
            Kind::ThreadWoken => self.thread_woken(count, size),
            Kind::TimeoutsReady => self.timeouts_ready(count, size),
            Kind::TimerNear => self.timer_near(count, size),
            Kind::WaitingSenders => self.waiting_senders(count, size),
        }
    }

    fn ring_and_dispatch(&mut self, count: u32, size: u32) -> Result<()> {
        let pings = self.insert_pings(size)?;
        let began = self.start()?;
        let mut turn = 0usize;
        for _ in 0..count {
            let ping = pings.get(turn).context("a ping for each turn")?;
            ping.ping();
            self.dispatch()?;
            turn = if turn + 1 < pings.len() { turn + 1 } else { 0 };
        }
        self.stop(began)
    }

    fn timers_fired(&mut self, count: u32, size: u32) -> Result<()> {
        for _ in 0..count {
            self.fire_timers(size)?;
        }
        Ok(())
    }

    // One round: the way to the last deadline isn't measured.
    fn fire_timers(&mut self, size: u32) -> Result<()> {
        let from = self.now();
        let began = self.start()?;
        self.insert_timers(size, from)?;
        self.stop(began)?;
        self.come_to(from.after(Duration::from_nanos(SCATTER)));
        let wanted = self.calls.saturating_add(u64::from(size));
        let began = self.start()?;
        self.dispatch_until(wanted, size)?;
        self.stop(began)
    }

    // Arms so many timers that are far from due, and returns the moment from which on they are due.
    fn insert_far_timers(&mut self, size: u32) -> Result<Instant> {
        let far = self.now().after(Duration::from_secs(FAR));
        self.insert_timers(size, far)?;
        Ok(far)
    }

    fn timers_cancelled(&mut self, count: u32, size: u32) -> Result<()> {
        let far = self.insert_far_timers(size)?;
        let began = self.start()?;
        for i in 0..count {
            let token = self
                .insert_timer(scatter(far, size.wrapping_add(i)))
                .context("room for a timer")?;
            let removed = self.event_loop.handle().remove(token);
            ensure!(removed.is_some(), "a timer is gone");
        }
        self.stop(began)
    }

    fn insert_and_remove(&mut self, count: u32, size: u32) -> Result<()> {
        let _standing = self.insert_pings(size)?;
        let (_ping, source) = self.make_ping()?;
        let mut held = Self::hold_ping(source);
        let began = self.start()?;
        for _ in 0..count {
            let token = self.insert(held)?;
            held = self
                .event_loop
                .handle()
                .remove(token)
                .context("a ping is gone")?;
        }
        self.stop(began)
    }

    fn idle_dispatch(&mut self, count: u32, size: u32) -> Result<()> {
        let _far = self.insert_far_timers(size)?;
        let began = self.start()?;
        for _ in 0..count {
            self.dispatch()?;
        }
        self.stop(began)
    }

    fn idle_beside_pings(&mut self, count: u32, size: u32) -> Result<()> {
        let _standing = self.insert_pings(size)?;
        let began = self.start()?;
        for _ in 0..count {
            self.dispatch()?;
        }
        self.stop(began)
    }

    fn pings_served(&mut self, count: u32, size: u32) -> Result<()> {
        for _ in 0..count {
            self.serve_pings(size)?;
        }
        Ok(())
    }

    // One round: dropping the pings, and their leaving the loop, isn't measured.
    fn serve_pings(&mut self, size: u32) -> Result<()> {
        let wanted = self.calls.saturating_add(u64::from(size));
        let began = self.start()?;
        let pings = self.insert_pings(size)?;
        for ping in &pings {
            ping.ping();
        }
        self.dispatch_until(wanted, size)?;
        self.stop(began)?;
        drop(pings);
        self.dispatch()?;
        Ok(())
    }

    fn pings_rung(&mut self, count: u32, size: u32) -> Result<()> {
        let pings = self.insert_pings(size)?;
        let began = self.start()?;
        for _ in 0..count {
            let wanted = self.calls.saturating_add(u64::from(size));
            for ping in &pings {
                ping.ping();
            }
            self.dispatch_until(wanted, size)?;
        }
        self.stop(began)
    }

    // Measures how long after its deadline a dispatch has called a timer that was SIZE microseconds ahead, and returned.
    fn timer_near(&mut self, count: u32, size: u32) -> Result<()> {
        for _ in 0..count {
            let wanted = self.calls.saturating_add(1);
            let deadline = self.now().after(Duration::from_micros(u64::from(size)));
            self.insert_timer(deadline).context("room for a timer")?;
            self.wait_until(wanted, 1)?;
            let late = self.now().nanos.saturating_sub(deadline.nanos);
            self.nanoseconds = self.nanoseconds.saturating_add(late);
        }
        Ok(())
    }

    // SIZE threads send COUNT messages each into a channel of bound 1.
    fn waiting_senders(&mut self, count: u32, size: u32) -> Result<()> {
        let sender = self.insert_sync_channel(1)?;
        let wanted = u64::from(count) * u64::from(size);
        let mut children = Vec::new(self.alloc);
        let began = self.start()?;
        for _ in 0..size {
            let own = sender.clone()?;
            children.push(spawn(&self.rt, move || sends_waiting(own, count))?)?;
        }
        self.wait_until(wanted, count.saturating_mul(size))?;
        self.stop(began)?;
        for child in children {
            child.join(&self.rt).context("a message is refused")?;
        }
        Ok(())
    }

    fn readable_sockets(&mut self, count: u32, size: u32) -> Result<()> {
        let _peers = self.insert_sockets(size)?;
        let began = self.start()?;
        for _ in 0..count {
            self.dispatch()?;
        }
        self.stop(began)
    }

    fn sockets_read(&mut self, count: u32, size: u32, mode: Mode) -> Result<()> {
        let mut peers = self.insert_read_sockets(size, mode)?;
        for _ in 0..count {
            send_all::<P, C, R>(&mut peers)?;
            let wanted = self.calls.saturating_add(u64::from(size));
            let began = self.start()?;
            self.dispatch_until(wanted, size)?;
            self.stop(began)?;
        }
        Ok(())
    }

    fn messages_served(&mut self, count: u32, size: u32) -> Result<()> {
        let sender = self.insert_channel()?;
        for _ in 0..count {
            let wanted = self.calls.saturating_add(u64::from(size));
            let began = self.start()?;
            for message in 0..size {
                let sent = sender.send(u64::from(message));
                ensure!(sent.is_ok(), "a message is refused");
            }
            self.dispatch_until(wanted, size)?;
            self.stop(began)?;
        }
        Ok(())
    }

    fn bounded_messages_served(&mut self, count: u32, size: u32) -> Result<()> {
        let sender = self.insert_sync_channel(size)?;
        for _ in 0..count {
            let wanted = self.calls.saturating_add(u64::from(size));
            let began = self.start()?;
            for message in 0..size {
                let sent = sender.try_send(u64::from(message));
                ensure!(sent.is_ok(), "a message is refused");
            }
            self.dispatch_until(wanted, size)?;
            self.stop(began)?;
        }
        Ok(())
    }

    // The sender goes to a thread and comes back from it in each round.
    fn thread_messages_served(&mut self, count: u32, size: u32) -> Result<()> {
        let mut sender = self.insert_channel()?;
        for _ in 0..count {
            let wanted = self.calls.saturating_add(u64::from(size));
            let began = self.start()?;
            let child = spawn(&self.rt, move || sends(sender, size))?;
            self.wait_until(wanted, size)?;
            self.stop(began)?;
            sender = child.join(&self.rt).context("a message is refused")?;
        }
        Ok(())
    }

    fn bounded_thread_messages_served(&mut self, count: u32, size: u32) -> Result<()> {
        let mut sender = self.insert_sync_channel(size)?;
        for _ in 0..count {
            let wanted = self.calls.saturating_add(u64::from(size));
            let began = self.start()?;
            let child = spawn(&self.rt, move || sends_waiting(sender, size))?;
            self.wait_until(wanted, size)?;
            self.stop(began)?;
            sender = child.join(&self.rt).context("a message is refused")?;
        }
        Ok(())
    }

    fn ready_futures(&mut self, count: u32, size: u32) -> Result<()> {
        let scheduler = self.insert_executor()?;
        for _ in 0..count {
            let wanted = self.calls.saturating_add(u64::from(size));
            let began = self.start()?;
            schedule_ready(&scheduler, size)?;
            self.dispatch_until(wanted, size)?;
            self.stop(began)?;
        }
        Ok(())
    }

    fn timeouts_ready(&mut self, count: u32, size: u32) -> Result<()> {
        let scheduler = self.insert_executor()?;
        for _ in 0..count {
            self.wait_for_timeouts(&scheduler, size)?;
        }
        Ok(())
    }

    // One round: the way to the last moment isn't measured.
    fn wait_for_timeouts(&mut self, scheduler: &Scheduler<Task<C, R>, R>, size: u32) -> Result<()> {
        let from = self.now();
        let began = self.start()?;
        self.schedule_timeouts(scheduler, size, from)?;
        self.stop(began)?;
        self.come_to(from.after(Duration::from_nanos(SCATTER)));
        let wanted = self.calls.saturating_add(u64::from(size));
        let began = self.start()?;
        self.dispatch_until(wanted, size)?;
        self.stop(began)
    }

    // Schedules so many futures that are ready at the scattered moments from this one on.
    fn schedule_timeouts(
        &mut self,
        scheduler: &Scheduler<Task<C, R>, R>,
        size: u32,
        from: Instant,
    ) -> Result<()> {
        for i in 0..size {
            let timeout = self.make_timeout(scatter(from, i))?;
            let scheduled = scheduler.schedule(Task::Lasts(timeout));
            ensure!(scheduled.is_ok(), "a future is refused");
        }
        Ok(())
    }

    fn thread_woken(&mut self, count: u32, size: u32) -> Result<()> {
        let scheduler = self.insert_executor()?;
        for _ in 0..count {
            self.wake_from_thread(&scheduler, size)?;
        }
        Ok(())
    }

    // One round: the future's first poll, in which it hands its waker out, isn't measured.
    fn wake_from_thread(&mut self, scheduler: &Scheduler<Task<C, R>, R>, size: u32) -> Result<()> {
        let meeting = self.make_meeting()?;
        let sleeper = Sleeper::new(Arc::try_clone(&meeting)?, size);
        let scheduled = scheduler.schedule(Task::Sleeps(sleeper));
        ensure!(scheduled.is_ok(), "a future is refused");
        self.dispatch()?;
        let waker = meeting.take().context("a future without a waker")?;
        let wanted = self.calls.saturating_add(1);
        let began = self.start()?;
        let child = spawn(&self.rt, move || wakes(&meeting, &waker, size))?;
        self.wait_until(wanted, size)?;
        self.stop(began)?;
        child.join(&self.rt);
        Ok(())
    }

    // Dispatches, waiting for at most ten seconds each, until so many calls were made in all: at most four for each of this size.
    fn wait_until(&mut self, calls: u64, size: u32) -> Result<()> {
        for _ in 0..u64::from(size) * 4 {
            if self.calls >= calls {
                break;
            }
            self.wait()?;
        }
        Ok(())
    }

    // Dispatches, at most so many times, until so many calls were made in all.
    fn dispatch_until(&mut self, calls: u64, most: u32) -> Result<()> {
        for _ in 0..most {
            if self.calls >= calls {
                break;
            }
            self.dispatch()?;
        }
        Ok(())
    }
}

// Each peer sends a byte.
fn send_all<P: Measured<C, R>, C: Clock, R>(peers: &mut [P::Peer]) -> Result<()> {
    for peer in peers {
        P::send(peer)?;
    }
    Ok(())
}

// Schedules so many futures that are ready.
fn schedule_ready<C: Clock, R: Wait + Clone + Drop>(
    scheduler: &Scheduler<Task<C, R>, R>,
    size: u32,
) -> Result<()> {
    for _ in 0..size {
        let scheduled = scheduler.schedule(Task::IsReady);
        ensure!(scheduled.is_ok(), "a future is refused");
    }
    Ok(())
}

// Wakes the future of this waker so many times. Each wake is counted before it is made, so that the poll after it finds it.
fn wakes<R: Wait + Drop>(meeting: &Meeting<R>, waker: &Waker<R>, size: u32) {
    for _ in 0..size {
        meeting.count_wake();
        waker.wake();
    }
}

// Sends so many messages. Returns the sender, if no send failed.
fn sends<R: Wait + Drop>(sender: Sender<u64, R>, size: u32) -> Option<Sender<u64, R>> {
    for message in 0..size {
        if sender.send(u64::from(message)).is_err() {
            return None;
        }
    }
    Some(sender)
}

// The same with a channel with a bound.
fn sends_waiting<R: Wait + Drop>(
    sender: SyncSender<u64, R>,
    size: u32,
) -> Option<SyncSender<u64, R>> {
    for message in 0..size {
        if sender.send(u64::from(message)).is_err() {
            return None;
        }
    }
    Some(sender)
}
