//! The deadlines of timers.
ghost use Rattle.std.specs.Prelude.{◌≡◌, false, IfOk, IfErr, OnOk};
ghost use Rattle.calloop_slots.specs.Deadlines.{is_armed, arm_error, CannotArm, CannotArmAgain};
ghost use Rattle.calloop_poll.specs.sys.Polls.{poll_view, poll_after, Allowed, Arm, ArmAgain, Cancel, ReadClock};

use super::Poll;
use crate::sys::Poller;
use calloop_slots::token::Token;
use calloop_slots::wheel::{ArmRefusal, Instant};
use std::sync::Wait;

impl<P: Poller, C, R: Wait + Drop> Poll<P, C, R> {
    /// Arms a deadline under the next counter, and returns the counter. Fails as `TimerWheel::insert` does, and then changes
    /// nothing.
    pub fn insert_timer(&mut self, deadline: Instant, token: Token) -> Result<u64, ArmRefusal>
        ensures ok { IfOk result (λ counter. (counter ≡ (poll_view self.old).deadlines.next)
            × (poll_view self.new ≡ poll_after (poll_view self.old) (Arm deadline token))) }
        ensures err { IfErr result (λ e. CannotArm (poll_view self.old).deadlines.next (arm_error e)
            × (poll_view self.new ≡ poll_view self.old)) }
    {
        self.wheel.insert(deadline, token)
    }

    /// Arms a deadline under a counter that has none now. Fails as `TimerWheel::insert_reuse` does, and then changes
    /// nothing.
    pub fn insert_timer_again(
        &mut self,
        counter: u64,
        deadline: Instant,
        token: Token,
    ) -> Result<(), ArmRefusal>
        requires { is_armed counter (poll_view self.old).deadlines ≡ false }
        ensures ok { OnOk result
            (Allowed P.outside (poll_view self.old) (ArmAgain counter deadline token)
            × (poll_view self.new
            ≡ poll_after (poll_view self.old) (ArmAgain counter deadline token))) }
        ensures err { IfErr result (λ e.
            CannotArmAgain counter (poll_view self.old).deadlines (arm_error e)
            × (poll_view self.new ≡ poll_view self.old)) }
    {
        self.wheel.insert_reuse(counter, deadline, token)
    }

    /// Takes out the deadline of this counter, if it has one.
    pub fn cancel_timer(&mut self, counter: u64)
        ensures { poll_view self.new ≡ poll_after (poll_view self.old) (Cancel counter) }
    {
        self.wheel.cancel(counter);
    }

    /// True if the counter has a deadline now.
    pub fn is_armed(&self, counter: u64) -> bool
        ensures { result ≡ is_armed counter (poll_view self.now).deadlines }
    {
        self.wheel.is_armed(counter)
    }

    /// The moment that the poller's clock shows.
    pub fn now(&mut self) -> Instant
        ensures { (after : P)
            × Allowed P.outside (poll_view self.old) (ReadClock result.nanos after)
            × (poll_view self.new
            ≡ poll_after (poll_view self.old) (ReadClock result.nanos after)) }
    {
        self.poller.now()
    }
}
