//! The wait.
ghost use Rattle.std.specs.Prelude.{◌≡◌, ◌↔◌, ℕ, ◌≤◌, true, [], List, Result, Ok, Err, IfOk, IfErr, vec_len, vec_capacity, is_none};
ghost use Rattle.calloop_poll.specs.sys.Pollers.{nanos_of, events_per_wait};
ghost use Rattle.calloop_poll.specs.sys.Polls.{poll_view, IsReady};
ghost use Rattle.calloop_poll.specs.declared.sys.Readiness.{Readiness};
ghost use Rattle.calloop_poll.specs.sys.Waits.{IsInterruption, asked_for, is_zero, lesser, time_left, time_to_first, Waited, Polled};

use super::Poll;
use crate::sys::Poller;
use calloop_slots::wheel::Instant;
use calloop_wake::SleepPermit;
use std::io;
use std::sync::Wait;
use std::time::Duration;

fn lesser(a: Option<Duration>, b: Option<Duration>) -> Option<Duration>
    ensures { nanos_of result ≡ lesser (nanos_of a) (nanos_of b) }
{
    match (a, b) {
        (None, _) => b,
        (Some(_), None) => a,
        (Some(x), Some(y)) => Some(if x < y { x } else { y }),
    }
}

fn is_zero(time: Option<Duration>) -> bool
    ensures { result ≡ is_zero (nanos_of time) }
{
    match time {
        None => false,
        Some(time) => time.is_zero(),
    }
}

// What is left of the timeout, counted from the start.
fn time_left(timeout: Option<Duration>, start: Instant, now: Instant) -> Option<Duration>
    ensures { nanos_of result ≡ time_left (nanos_of timeout) start.nanos now.nanos }
{
    let passed = Duration::from_nanos(now.nanos.saturating_sub(start.nanos));
    Some(timeout?.saturating_sub(passed))
}

fn is_interruption(cause: &io::Error) -> bool
    ensures { (result ≡ true) ↔ IsInterruption cause.now }
{
    matches!(cause.kind(), io::ErrorKind::Interrupted)
}

impl<P, C, R: Wait + Drop> Poll<P, C, R> {
    fn time_to_first(&self, now: Instant) -> Option<Duration>
        ensures { nanos_of result ≡ time_to_first self.now.wheel.entries now.nanos }
    {
        let first = self.wheel.next_deadline()?;
        Some(Duration::from_nanos(first.nanos.saturating_sub(now.nanos)))
    }

    // Returns how long to wait. It spends the permit to sleep; without one a key is posted, and the wait is zero.
    fn timeout_for(
        &self,
        permit: Option<SleepPermit>,
        timeout: Option<Duration>,
        start: Instant,
        now: Instant,
    ) -> Option<Duration>
        ensures { nanos_of result
            ≡ asked_for (poll_view self.now) (is_none permit)
            (nanos_of timeout) start.nanos now.nanos }
    {
        match permit {
            Some(permit) => {
                permit.spend();
                if self.batch.is_empty() {
                    lesser(time_left(timeout, start, now), self.time_to_first(now))
                } else {
                    Some(Duration::ZERO)
                }
            }
            None => Some(Duration::ZERO),
        }
    }
}

impl<P: Poller, C, R: Wait + Drop> Poll<P, C, R> {
    // Waits until the poller answers or nothing is left to wait for. Returns the moment of the gathering.
    fn wait<Q: Wait>(&mut self, rt: &Q, timeout: Option<Duration>) -> io::Result<Instant>
        requires events { self.old.events.items ≡ [] }
        requires room { events_per_wait ≤ vec_capacity self.old.events }
        ensures ok { IfOk result (λ now. Waited P.outside (poll_view self.old) (nanos_of timeout)
            (Ok now.nanos) self.new.events.items self.new.poller self.new.batch.watch) }
        ensures err { IfErr result (λ cause. (given : List (ℕ × Readiness))
            × Waited P.outside (poll_view self.old) (nanos_of timeout) (Err cause) given
            self.new.poller self.new.batch.watch) }
        ensures others { self.new ≡ record self.old {
          poller = self.new.poller;
          batch = record self.old.batch { watch = self.new.batch.watch };
          events = self.new.events;
        } }
        ensures few { vec_len self.new.events ≤ events_per_wait }
    {
        let start = self.poller.now();
        let permit = self.batch.look(rt);
        let mut asked = self.timeout_for(permit, timeout, start, start);
        for _ in rt.forever() {
            let left = self.batch.polled_end();
            let answer = self.poller.wait(asked, left, &mut self.events);
            let Err(cause) = answer else {
                return Ok(self.poller.now());
            };
            if !is_interruption(&cause) {
                return Err(cause);
            }
            self.events.clear();
            let now = self.poller.now();
            let again = self.batch.look(rt);
            asked = self.timeout_for(again, timeout, start, now);
            if is_zero(asked) {
                return Ok(now);
            }
        }
        unreachable!()
    }

    /// Waits for events, at most for `timeout`, at most until the first deadline, and not at all if an event was left over or a
    /// key is posted. Then it puts the batch together: what was left over, the posted keys in ascending order, the poller's
    /// events in its order, and the due timers, by deadline and counter.
    ///
    /// After an interruption it waits anew, for what is left of the timeout since the start. Fails with the fault of the wait;
    /// then the batch, the posted keys and the deadlines are unchanged.
    pub fn poll<Q: Wait>(&mut self, rt: &Q, timeout: Option<Duration>) -> io::Result<()>
        requires { IsReady 0 self.old }
        ensures { Polled P.outside (nanos_of timeout) result
            (poll_view self.old) (poll_view self.new) }
    {
        let now = self.wait(rt, timeout)?;
        self.gather(now);
        Ok(())
    }
}
