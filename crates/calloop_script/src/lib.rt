//! A poller that replays scripted answers, with a clock of its own: for tests and for recorded answers.
#![tactic(auto)]

ghost use Rattle.std.specs.Prelude.{◌≡◌, ℕ, ◌+◌, ◌≤◌, ◌++◌, [], ◌∷◌, List, length, nat_le, false, Option, vec_len, vec_capacity, IsOk, OnOk, OnErr, IfOk, IfErr, is_ok, if◌then◌else◌};
ghost use Rattle.calloop_poll.specs.sys.Pollers.{events_per_wait};
ghost use Rattle.calloop_poll.specs.sys.Polls.{head_of};
ghost use Rattle.calloop_script.specs.Scripts.{kept_waits};
ghost use Rattle.calloop_poll.specs.declared.sys.Readiness.{Readiness};

use calloop_poll::sys::faults::FaultCount;
use calloop_poll::sys::notifier::Notifier;
use calloop_poll::sys::{Clock, EVENTS_PER_WAIT, Poller, Readiness, Watched};
use calloop_slots::error::{Error, Result as LoopResult};
use calloop_slots::wheel::Instant;
use std::alloc::{AllocError, AllocFailed, Global};
use std::collections::VecDeque;
use std::io;
use std::os::fd::RawFd;
use std::sync::Arc;
use std::sync::atomic::{AtomicBool, AtomicU64, Ordering};
use std::time::Duration;

mod calls;

pub use calls::{ScriptCall, ScriptFaults, ScriptIo, ScriptKind};

/// The events of one scripted wait, at most 1,024 of them.
#[derive(Drop)]
pub struct ScriptEvents {
    events: Vec<(u64, Readiness)>,
    ghost few: { vec_len events ≤ events_per_wait },
}

impl ScriptEvents {
    /// Makes an empty list.
    pub fn new(alloc: Global) -> ScriptEvents
        ensures { result.events.items ≡ [] }
    {
        ScriptEvents {
            events: Vec::new(alloc),
        }
    }

    /// True if there are 1,024 events, so that no other fits.
    pub fn is_full(&self) -> bool
        ensures { result ≡ nat_le events_per_wait (length self.now.events.items) }
    {
        self.events.len() >= EVENTS_PER_WAIT
    }

    /// Adds an event. The 1,025th is handed back, and so is one for which there is no memory; then nothing changes.
    pub fn push(&mut self, key: u64, readiness: Readiness) -> Result<(), (u64, Readiness)>
        ensures ok { OnOk result
            (self.new.events.items ≡ self.old.events.items ++ (key, readiness) ∷ []) }
        ensures err { IfErr result (λ event. (event ≡ (key, readiness))
            × (self.new.events.items ≡ self.old.events.items)) }
    {
        if self.events.len() >= EVENTS_PER_WAIT {
            return Err((key, readiness));
        }
        self.events
            .push((key, readiness))
            .map_err(|failed| failed.value)
    }
}

impl Clone for ScriptEvents {
    ghost use Rattle.std.specs.Prelude.{◌≡◌};

    ghost is_clone = { λ events again. again.events.items ≡ events.events.items };

    fn clone(&self) -> Result<ScriptEvents, AllocError> {
        Ok(ScriptEvents {
            events: self.events.clone()?,
        })
    }
}

/// How a scripted wait ends.
#[derive(Drop)]
pub enum ScriptEnd {
    Events(ScriptEvents),
    /// An error of kind `Interrupted`, after which the loop waits anew.
    Interrupted,
    /// A fault, of kind `Other`.
    Fault,
}

/// What the next scripted wait returns, and the moment that the clock then shows.
#[derive(Drop)]
pub struct ScriptAnswer {
    pub moment: Instant,
    pub end: ScriptEnd,
}

/// Replays scripted answers. When none is left, a wait returns no events and advances the clock by its timeout, at most to
/// 2^64 - 1 nanoseconds; a wait without a timeout then doesn't move the clock.
#[derive(Drop)]
pub struct ScriptPoller {
    moment: Instant,
    answers: VecDeque<ScriptAnswer>,
    waits: Vec<Option<Duration>>,
    calls: Vec<ScriptCall>,
    failing: ScriptFaults,
    faults: FaultCount,
    shown: Arc<AtomicU64, Global>,
    signal: Arc<AtomicBool, Global>,
}

/// Shows what the clock of its poller shows. No contract sees that, since another thread may read it.
#[derive(Drop)]
pub struct ScriptClock {
    shown: Arc<AtomicU64, Global>,
}

impl Clone for ScriptClock {
    fn clone(&self) -> Result<ScriptClock, AllocError> {
        Ok(ScriptClock {
            shown: Arc::try_clone(&self.shown)?,
        })
    }
}

impl Clock for ScriptClock {
    ghost shows = { λ clock now. Unit {0} };

    fn now(&self) -> Instant {
        Instant {
            nanos: self.shown.load(Ordering::SeqCst),
        }
    }
}

impl ScriptPoller {
    /// Makes a poller with the clock at 0, no answers, and no room for requested waits.
    pub fn new(alloc: Global) -> Result<ScriptPoller, AllocError>
        ensures { IfOk result (λ made. (made.moment.nanos ≡ 0)
            × (made.answers.items ≡ [])
            × (made.waits.items ≡ [])
            × (vec_capacity made.waits ≡ 0)
            × (made.calls.items ≡ [])
            × (made.failing ≡ record { add = false; modify = false; delete = false })
            × (made.faults.count ≡ 0)) }
    {
        Ok(ScriptPoller {
            moment: Instant { nanos: 0 },
            answers: VecDeque::new(alloc),
            waits: Vec::new(alloc),
            calls: Vec::new(alloc),
            failing: ScriptFaults::NONE,
            faults: FaultCount::new(),
            shown: Arc::new(alloc, AtomicU64::new(0))?,
            signal: Arc::new(alloc, AtomicBool::new(false))?,
        })
    }

    /// Returns a clock that follows this poller's. Fails if there are 2^63 of them.
    pub fn clock(&self) -> Result<ScriptClock, AllocError> {
        Ok(ScriptClock {
            shown: Arc::try_clone(&self.shown)?,
        })
    }

    /// Returns the moment that the clock shows.
    pub fn moment(&self) -> Instant
        ensures { result ≡ self.now.moment }
    {
        self.moment
    }

    /// Sets the clock.
    pub fn set_clock(&mut self, moment: Instant)
        ensures { self.new ≡ record self.old { moment = moment } }
    {
        self.moment = moment;
        self.shown.store(moment.nanos, Ordering::SeqCst);
    }

    /// Adds the answer of another wait, behind those that are there.
    pub fn script(&mut self, answer: ScriptAnswer) -> Result<(), AllocFailed<ScriptAnswer>>
        ensures answers { self.new.answers.items ≡ (if is_ok result
            then self.old.answers.items ++ answer ∷ [] else self.old.answers.items) }
        ensures value_returned { IfErr result (λ failed. failed.value ≡ answer) }
        ensures moment { self.new.moment ≡ self.old.moment }
        ensures waits { self.new.waits ≡ self.old.waits }
        ensures calls { self.new.calls ≡ self.old.calls }
        ensures failing { self.new.failing ≡ self.old.failing }
        ensures faults { self.new.faults ≡ self.old.faults }
        ensures shown { self.new.shown ≡ self.old.shown }
        ensures signal { self.new.signal ≡ self.old.signal }
    {
        self.answers.push_back(answer)
    }

    /// Forgets all answers that no wait took, and hands back the first of them.
    pub fn unscript(&mut self) -> Option<ScriptAnswer>
        ensures first { result ≡ head_of self.old.answers.items }
        ensures answers { self.new.answers.items ≡ [] }
        ensures moment { self.new.moment ≡ self.old.moment }
        ensures waits { self.new.waits ≡ self.old.waits }
        ensures calls { self.new.calls ≡ self.old.calls }
        ensures failing { self.new.failing ≡ self.old.failing }
        ensures faults { self.new.faults ≡ self.old.faults }
        ensures shown { self.new.shown ≡ self.old.shown }
        ensures signal { self.new.signal ≡ self.old.signal }
    {
        let first = self.answers.pop_front();
        self.answers.clear();
        first
    }

    /// Empties the list of requested waits, and makes room for at least `n`. Running out of memory leaves the list unchanged;
    /// if there is room for `n` already, it takes no memory.
    pub fn keep_waits(&mut self, n: usize) -> Result<(), AllocError>
        ensures waits { self.new.waits.items ≡ (if is_ok result then [] else self.old.waits.items) }
        ensures room { OnOk result (n ≤ vec_capacity self.new.waits) }
        ensures succeeds { n ≤ vec_capacity self.old.waits → IsOk result }
        ensures moment { self.new.moment ≡ self.old.moment }
        ensures answers { self.new.answers ≡ self.old.answers }
        ensures calls { self.new.calls ≡ self.old.calls }
        ensures failing { self.new.failing ≡ self.old.failing }
        ensures faults { self.new.faults ≡ self.old.faults }
        ensures shown { self.new.shown ≡ self.old.shown }
        ensures signal { self.new.signal ≡ self.old.signal }
    {
        self.waits
            .try_reserve_exact(n.saturating_sub(self.waits.len()))?;
        self.waits.clear();
        Ok(())
    }

    /// Returns the waits that were requested since `keep_waits`, in order, as far as the room goes.
    pub fn waits(&self) -> &[Option<Duration>]
        ensures { result.now ≡ self.now.waits.items }
    {
        self.waits.as_slice()
    }

    /// True if a wakeup came since the last wait.
    pub fn is_woken(&self) -> bool {
        self.signal.load(Ordering::SeqCst)
    }

    fn note(&mut self, timeout: Option<Duration>)
        ensures waits { self.new.waits.items
            ≡ kept_waits self.old.waits.items (vec_capacity self.old.waits) timeout }
        ensures room { vec_capacity self.new.waits ≡ vec_capacity self.old.waits }
        ensures moment { self.new.moment ≡ self.old.moment }
        ensures answers { self.new.answers ≡ self.old.answers }
        ensures calls { self.new.calls ≡ self.old.calls }
        ensures failing { self.new.failing ≡ self.old.failing }
        ensures faults { self.new.faults ≡ self.old.faults }
        ensures shown { self.new.shown ≡ self.old.shown }
        ensures signal { self.new.signal ≡ self.old.signal }
    {
        if self.waits.len() < self.waits.capacity() {
            self.waits.push_reserved(timeout);
        }
    }
}

fn append(mut events: Vec<(u64, Readiness)>, out: &mut Vec<(u64, Readiness)>)
    requires { vec_len out.old + vec_len events ≤ vec_capacity out.old }
    ensures items { out.new.items ≡ out.old.items ++ events.items }
    ensures room { vec_capacity out.old ≤ vec_capacity out.new }
{
    // There is room, so it takes no memory.
    out.append(&mut events).unwrap()
}

impl Poller for ScriptPoller {
    ghost use Rattle.calloop_script.specs.ScriptPollers.{script_outside, script_sockets};

    ghost outside = { script_outside };

    ghost sockets = { script_sockets };

    fn add(&mut self, fd: RawFd, key: u64, watched: Watched) -> io::Result<()> {
        self.call(ScriptCall::Add(fd, key, watched))
    }

    fn modify(&mut self, fd: RawFd, key: u64, watched: Watched) -> io::Result<()> {
        self.call(ScriptCall::Modify(fd, key, watched))
    }

    fn delete(&mut self, fd: RawFd) -> io::Result<()> {
        self.call(ScriptCall::Delete(fd))
    }

    fn now(&mut self) -> Instant {
        self.moment
    }

    fn wait(
        &mut self,
        timeout: Option<Duration>,
        _left: usize,
        events: &mut Vec<(u64, Readiness)>,
    ) -> io::Result<()> {
        self.note(timeout);
        self.signal.store(false, Ordering::SeqCst);
        let Some(answer) = self.answers.pop_front() else {
            if let Some(asked) = timeout {
                self.moment = self.moment.after(asked);
                self.shown.store(self.moment.nanos, Ordering::SeqCst);
            }
            return Ok(());
        };
        self.moment = answer.moment;
        self.shown.store(answer.moment.nanos, Ordering::SeqCst);
        match answer.end {
            ScriptEnd::Events(given) => {
                append(given.events, events);
                Ok(())
            }
            ScriptEnd::Interrupted => Err(io::Error::from(io::ErrorKind::Interrupted)),
            ScriptEnd::Fault => {
                self.faults = FaultCount::after(&self.faults);
                Err(io::Error::other("a scripted fault"))
            }
        }
    }

    fn notifier(&self) -> LoopResult<Notifier> {
        Ok(Notifier::Script(Arc::try_clone(&self.signal)?))
    }
}
