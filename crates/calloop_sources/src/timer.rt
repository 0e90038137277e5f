//! Timers: a source that is called once its deadline has come. From calloop's `timer.rs`.
ghost use Rattle.std.specs.Prelude.{◌≡◌, ℕ, List, [], ◌∷◌, Result, Option, None, Some, Ok, Err, false};
ghost use Rattle.calloop_slots.specs.declared.wheel.Instant.{Instant};
ghost use Rattle.calloop_slots.specs.declared.error.Error.TheVariants.{OutOfMemory};
ghost use Rattle.calloop_slots.specs.Deadlines.{is_armed, moment_after};
ghost use Rattle.calloop_poll.specs.sys.Polls.{PollView, PollStep, poll_view, AllStepped};
ghost use Rattle.calloop_sources.specs.sources.Calls.{CallbackCall, Went};
ghost use Rattle.calloop_sources.specs.declared.timer.TimeoutAction.{TimeoutAction};
ghost use Rattle.calloop_sources.specs.Timers.{fresh_timer, releases, Armed, ArmedAgain, FollowsFrom, timer_holds, IsTimerReg, IsTimerUnreg, IsTimerTurn};

use crate::sources::{Asking, Callback, EventSource, IntoError, PostAction};
use calloop_poll::sys::events::EventIterator;
use calloop_poll::sys::poll::Poll;
use calloop_poll::sys::synthetic::Synthetic;
use calloop_poll::sys::{Clock, Poller, Readiness};
use calloop_slots::error::{Error, Result as LoopResult};
use calloop_slots::token::{Token, TokenFactory};
use calloop_slots::wheel::Instant;
use std::sync::Wait;
use std::time::Duration;
use thiserror::Error as ThisError;

/// The result of a timer's callback.
#[derive(Clone, Copy, Debug)]
pub enum TimeoutAction {
    /// The timer leaves the loop.
    Drop,
    /// It is armed again, for this moment.
    ToInstant(Instant),
    /// It is armed again, for the poller's clock plus this duration. Past 2^64 - 1 nanoseconds it leaves the loop.
    ToDuration(Duration),
}

/// Why a timer's turn failed.
#[derive(Debug, Drop, ThisError)]
pub enum TimerError {
    /// There was no memory to arm it again, or its turn was on a `Poll` that never gave its counter, which no loop does. It is
    /// unarmed then, with the requested deadline.
    #[error("out of memory")]
    OutOfMemory,
}

impl IntoError for TimerError {
    ghost use Rattle.std.specs.Prelude.{◌≡◌};
    ghost use Rattle.calloop_slots.specs.declared.error.Error.TheVariants.{OutOfMemory};
    ghost use Rattle.calloop_sources.specs.sources.Lawful.{memory_of_source};

    ghost becomes = { λ _ e. e ≡ OutOfMemory };

    ghost of_source = { λ _ e is. memory_of_source e is };

    /// Becomes `OutOfMemory`.
    fn into_error(self) -> Error {
        Error::OutOfMemory
    }
}

/// How a timer is registered.
#[derive(Clone, Copy, Debug)]
pub struct Registration {
    token: Token,
    counter: u64,
    armed: Instant,
    spent: bool,
}

/// A source that is called when its deadline has come, with that deadline. calloop passes the deadline as it is set
/// by then, and arms a timer twice that is registered twice.
#[derive(Debug, Drop)]
pub struct Timer {
    registration: Option<Registration>,
    deadline: Option<Instant>,
}

impl Timer {
    /// Makes a timer that is due at once, by this clock.
    pub fn immediate<C: Clock>(clock: &C) -> Timer
        ensures { (now : Instant) × C.shows clock.now now.nanos
            × (result ≡ fresh_timer (Some now)) }
    {
        Timer::from_deadline(clock.now())
    }

    /// Makes a timer that is due this long after the clock's moment. Past 2^64 - 1 nanoseconds it has no deadline.
    pub fn from_duration<C: Clock>(clock: &C, duration: Duration) -> Timer
        ensures { (now : Instant) × C.shows clock.now now.nanos
            × (result ≡ fresh_timer (moment_after now duration)) }
    {
        Timer {
            registration: None,
            deadline: clock.now().checked_add(duration),
        }
    }

    /// Makes a timer that is due at this moment.
    pub fn from_deadline(deadline: Instant) -> Timer
        ensures { result ≡ fresh_timer (Some deadline) }
    {
        Timer {
            registration: None,
            deadline: Some(deadline),
        }
    }

    /// Sets the deadline. It counts from the next registration on.
    pub fn set_deadline(&mut self, deadline: Instant)
        ensures { self.new ≡ record self.old { deadline = Some deadline } }
    {
        self.deadline = Some(deadline);
    }

    /// Sets the deadline to this long after the clock's moment. Past 2^64 - 1 nanoseconds it has none. It counts from the
    /// next registration on.
    pub fn set_duration<C: Clock>(&mut self, clock: &C, duration: Duration)
        ensures { (now : Instant) × C.shows clock.now now.nanos
            × (self.new ≡ record self.old { deadline = moment_after now duration }) }
    {
        self.deadline = clock.now().checked_add(duration);
    }

    /// Returns the deadline, which is not always the armed one.
    pub fn current_deadline(&self) -> Option<Instant>
        ensures { result ≡ self.now.deadline }
    {
        self.deadline
    }

    // Takes the older arming back.
    #[inline(always)]
    fn release<P: Poller, C, R: Wait + Drop>(&mut self, poll: &mut Poll<P, C, R>)
        ensures timer { self.new ≡ fresh_timer self.old.deadline }
        ensures steps { AllStepped P.outside (poll_view poll.old)
            (releases self.old.registration) (poll_view poll.new) }
        ensures next { (poll_view poll.new).deadlines.next ≡ (poll_view poll.old).deadlines.next }
    {
        if let Some(registration) = self.registration {
            poll.cancel_timer(registration.counter);
            self.registration = None;
        }
    }

    // Arms a timer that isn't armed, if it has a deadline.
    #[inline(always)]
    fn arm<P: Poller, C, R: Wait + Drop>(
        &mut self,
        poll: &mut Poll<P, C, R>,
        factory: &mut TokenFactory,
    ) -> LoopResult<()>
        requires { self.old ≡ fresh_timer self.old.deadline }
        ensures { (steps : List (PollStep P))
            × Armed self.old.deadline (poll_view poll.old).deadlines.next factory.old result steps
            self.new factory.new
            × AllStepped P.outside (poll_view poll.old) steps (poll_view poll.new) }
    {
        let Some(deadline) = self.deadline else {
            return Ok(());
        };
        let token = factory.token()?;
        let counter = poll.insert_timer(deadline, token)?;
        self.registration = Some(Registration {
            token,
            counter,
            armed: deadline,
            spent: false,
        });
        Ok(())
    }

    // Arms its counter again.
    fn arm_again<P: Poller, C, R: Wait + Drop>(
        &mut self,
        registration: Registration,
        deadline: Instant,
        poll: &mut Poll<P, C, R>,
    ) -> Result<PostAction, TimerError>
        requires { is_armed registration.counter (poll_view poll.old).deadlines ≡ false }
        ensures { (steps : List (PollStep P))
            × ArmedAgain registration deadline result steps self.new
            × AllStepped P.outside (poll_view poll.old) steps (poll_view poll.new) }
    {
        self.deadline = Some(deadline);
        let Registration { token, counter, .. } = registration;
        match poll.insert_timer_again(counter, deadline, token) {
            Ok(()) => {
                self.registration = Some(Registration {
                    token,
                    counter,
                    armed: deadline,
                    spent: false,
                });
                Ok(PostAction::Continue)
            }
            Err(_) => {
                self.registration = None;
                Err(TimerError::OutOfMemory)
            }
        }
    }

    // Calls back once, and does what the result asks for.
    fn call<P: Poller, C, R: Wait + Drop, F, X, Q>(
        &mut self,
        registration: Registration,
        poll: &mut Poll<P, C, R>,
        callback: &mut F,
        data: &mut X,
        requests: &mut Q,
    ) -> Result<PostAction, TimerError>
    where
        Q: Asking,
        F: Callback<Instant, (), TimeoutAction, X, Q>,
        requires { is_armed registration.counter (poll_view poll.old).deadlines ≡ false }
        ensures { (action : TimeoutAction) × (steps : List (PollStep P))
            × FollowsFrom self.old registration action result steps self.new
            × AllStepped P.outside (poll_view poll.old) steps (poll_view poll.new)
            × Went F.may Q.reaches callback.old «data».old requests.old
            (record { event = registration.armed; before = tt; after = tt; answer = action } ∷ [])
            callback.new «data».new requests.new }
    {
        self.registration = Some(Registration {
            spent: true,
            ..registration
        });
        match callback.call(registration.armed, &mut (), data, requests) {
            TimeoutAction::Drop => Ok(PostAction::Remove),
            TimeoutAction::ToInstant(deadline) => self.arm_again(registration, deadline, poll),
            TimeoutAction::ToDuration(duration) => match poll.now().checked_add(duration) {
                Some(deadline) => self.arm_again(registration, deadline, poll),
                None => {
                    self.deadline = None;
                    Ok(PostAction::Remove)
                }
            },
        }
    }
}

impl<P: Poller, C, R: Wait + Drop> EventSource<P, C, R> for Timer {
    ghost use Rattle.calloop_sources.specs.Timers.{timer_meaning};
    ghost use Rattle.calloop_sources.specs.TimerKeeping.{timer_keeps};
    ghost use Rattle.std.specs.Prelude.{◌≡◌, Some, true};
    ghost use Rattle.calloop_sources.specs.sources.SetDeadlines.{SetsDeadline};

    type Event = Instant;

    type Metadata = ();

    type Ret = TimeoutAction;

    type Error = TimerError;

    ghost means = { timer_meaning };

    /// Calls back once with the armed deadline, if the token is the timer's, that arming wasn't called for, and no
    /// deadline of its counter is armed. Else the event is ignored.
    fn process_events<F, X, Q>(
        &mut self,
        _readiness: Readiness,
        token: Token,
        poll: &mut Poll<P, C, R>,
        callback: &mut F,
        data: &mut X,
        requests: &mut Q,
    ) -> Result<PostAction, TimerError>
    where
        Q: Asking,
        F: Callback<Instant, (), TimeoutAction, X, Q>,
    {
        let Some(registration) = self.registration else {
            return Ok(PostAction::Continue);
        };
        if registration.token != token || registration.spent {
            return Ok(PostAction::Continue);
        }
        if poll.is_armed(registration.counter) {
            return Ok(PostAction::Continue);
        }
        self.call(registration, poll, callback, data, requests)
    }

    /// Takes an older arming back, and arms the timer for its deadline under the factory's next token, if it has one.
    /// On failure it is unarmed, with its deadline.
    #[inline(always)]
    fn register(&mut self, poll: &mut Poll<P, C, R>, factory: &mut TokenFactory) -> LoopResult<()> {
        self.release(poll);
        self.arm(poll, factory)
    }

    /// As `register`: takes the older arming back, and arms the deadline anew.
    fn reregister(
        &mut self,
        poll: &mut Poll<P, C, R>,
        factory: &mut TokenFactory,
    ) -> LoopResult<()> {
        self.register(poll, factory)
    }

    /// Takes the arming back, if there is one. It never fails.
    fn unregister(&mut self, poll: &mut Poll<P, C, R>) -> LoopResult<()> {
        self.release(poll);
        Ok(())
    }

    /// False: it isn't told of waits.
    fn needs_extra_lifecycle_events() -> bool {
        false
    }

    fn max_synthetic() -> u16 {
        0
    }

    fn before_sleep(&mut self, _out: &mut Synthetic) -> LoopResult<()> {
        Ok(())
    }

    fn before_handle_events(&mut self, _events: EventIterator<'_>) {}

    /// As `set_deadline`. It returns true.
    fn try_set_deadline(&mut self, deadline: Instant) -> bool
        ensures sets { SetsDeadline (timer_meaning {P = P}) deadline self.old result self.new }
        ensures set { result ≡ true }
        ensures timer { self.new ≡ record self.old { deadline = Some deadline } }
    {
        self.set_deadline(deadline);
        true
    }

    ghost keeps = { timer_keeps };
}
