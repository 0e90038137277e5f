//! The poller of the operating system, over `mio`.
#![tactic(auto)]

ghost use Rattle.std.specs.Prelude.{◌≡◌, ◌+◌, ◌⊎◌, false, [], IfErr, IfOk, IfSome, IsErrAnd, OnErr, is_some};
ghost use Rattle.std.specs.declared.io.Error.{Error as IoCause};
ghost use Rattle.std.specs.IoError.{error_kind};
ghost use Rattle.std.specs.declared.io.ErrorKind.TheVariants.{InvalidInput};
ghost use Rattle.mio.specs.Events.{items};
ghost use Rattle.mio.specs.Interest.{is_readable, is_writable, is_priority};
ghost use Rattle.calloop_slots.specs.declared.error.Error.TheVariants.{IoError, OutOfMemory};
ghost use Rattle.calloop_poll.specs.sys.Pollers.{asks, failure_of, faults_of};
ghost use Rattle.calloop_mio.specs.declared.portions.Precision.TheVariants.{Microseconds};

use calloop_poll::sys::faults::FaultCount;
use calloop_poll::sys::notifier::{LazyWaker, Notifier};
use calloop_poll::sys::{Clock, Interest, Mode, Poller, Readiness, Watched};
use calloop_slots::error::{Error, Result as LoopResult};
use calloop_slots::wheel::Instant;
use found::Found;
use levels::{Levels, Registering};
use mio::unix::SourceFd;
use mio::{Poll, Token, Waker};
use std::alloc::Global;
use std::io;
use std::net::Net;
use std::os::fd::RawFd;
use std::sync::Arc;
use std::time::Duration;

mod clock;
mod found;
mod levels;
mod portions;
mod sockets;

pub use clock::SystemClock;
pub use portions::Precision;
pub use sockets::MioIo;

// No socket is told of under this key, because it is that of the poller's own waker.
const OWN_KEY: Token = Token(usize::MAX);

/// Waits on the OS sockets by epoll, with the clock that `new` gets. A socket is told of when it becomes ready, and again by
/// `modify`; under `Mode::Level` in each wait as long as it is ready. One under the key 2^64 - 1 is never told of: that is the
/// key of the poller's own waker.
///
/// While an event of an earlier wait is left, a wait finds none: so what stays ready isn't told twice.
///
/// A wait that ends with nothing found before its time is over by that clock is an interruption, after which the loop waits anew:
/// e.g. when the process gets a signal, and after each portion of a wait (`Precision`). If that clock stood still, it's over.
#[derive(Drop)]
pub struct MioPoller<C> {
    poll: Poll,
    levels: Levels,
    found: Found,
    waker: Arc<LazyWaker, Global>,
    clock: C,
    faults: FaultCount,
    precision: Precision,
}

impl<C: Drop> MioPoller<C> {
    /// Makes a poller over this clock, with no socket. An OS error is `IoError`, and running out of memory is `OutOfMemory`.
    pub fn new<R: Net>(rt: &R, alloc: Global, clock: C) -> LoopResult<MioPoller<C>>
        ensures ok { IfOk result (λ made. (made.clock ≡ clock) × (made.faults.count ≡ 0)
            × (made.precision ≡ Microseconds)) }
        ensures err { IfErr result (λ e. (e ≡ OutOfMemory)
            ⊎ ((cause : IoCause) × (e ≡ IoError cause))) }
    {
        let poll = Poll::new(rt)?;
        let found = Found::new(alloc)?;
        let waker = Waker::new(poll.registry(), OWN_KEY)?;
        Ok(MioPoller {
            poll,
            levels: Levels::new(alloc),
            found,
            waker: Arc::new(alloc, LazyWaker::new(waker))?,
            clock,
            faults: FaultCount::new(),
            precision: Precision::Microseconds,
        })
    }
}

impl<C> MioPoller<C> {
    /// Sets how exactly the poller's waits end from now on. It starts with `Precision::Microseconds`.
    pub fn set_precision(&mut self, precision: Precision)
        ensures { self.new ≡ record self.old { precision = precision } }
    {
        self.precision = precision;
    }

    // How long to sleep: not at all if somebody notified since the last wait.
    fn time_to_sleep(&self, timeout: Option<Duration>) -> Option<Duration> {
        if timeout == Some(Duration::ZERO) || self.waker.fall_asleep() {
            timeout
        } else {
            Some(Duration::ZERO)
        }
    }

    // Counts a failure as another fault.
    fn note_fault(&mut self, answer: io::Result<()>) -> io::Result<()>
        ensures same { result ≡ answer }
        ensures poller { self.new ≡ record self.old { faults = self.new.faults } }
        ensures faults { self.new.faults.count ≡ self.old.faults.count + faults_of result }
    {
        if answer.is_err() {
            self.faults = FaultCount::after(&self.faults);
        }
        answer
    }
}

impl<C> MioPoller<C> {
    // Makes waits tell of a socket in its mode. Fails if its interest is empty.
    fn register(
        &mut self,
        how: Registering,
        fd: RawFd,
        key: u64,
        watched: Watched,
    ) -> io::Result<()>
        ensures same { self.new ≡ self.old }
        ensures refused { asks watched.interest ≡ false
            → IsErrAnd result (λ cause. error_kind cause ≡ InvalidInput) }
    {
        let Some(asked) = mio_interest(watched.interest) else {
            return Err(no_interest());
        };
        self.levels.clear(fd);
        match watched.mode {
            Mode::Level => self.register_level(how, fd, key, watched.interest),
            Mode::OneShot | Mode::Edge => self.register_edge(how, fd, key, asked),
        }
    }

    // Makes each wait tell of a socket as long as it is ready.
    fn register_level(
        &mut self,
        how: Registering,
        fd: RawFd,
        key: u64,
        interest: Interest,
    ) -> io::Result<()>
        ensures { self.new ≡ self.old }
    {
        how.register(&self.poll, fd, key, interest)?;
        // If it isn't noted, the next call asks the system again.
        let _noted = self.levels.note(fd, key, interest);
        Ok(())
    }

    // Makes waits tell of a socket when it becomes ready.
    fn register_edge(
        &self,
        how: Registering,
        fd: RawFd,
        key: u64,
        asked: mio::Interest,
    ) -> io::Result<()> {
        let token = Token(key as usize);
        match how {
            Registering::First => self
                .poll
                .registry()
                .register(&mut SourceFd(&fd), token, asked),
            Registering::Again => self
                .poll
                .registry()
                .reregister(&mut SourceFd(&fd), token, asked),
        }
    }
}

impl<C: Clock> MioPoller<C> {
    // Waits for the OS to find events, for a portion of the time if the time isn't over then; not at all if events of earlier
    // waits are left.
    fn find(&mut self, timeout: Option<Duration>, left: usize) -> io::Result<()>
        ensures events { OnErr result (items self.new.found.events ≡ []) }
        ensures failed { failure_of result ≡ self.new.found.failed }
        ensures poller { self.new ≡ record self.old {
          poll = self.new.poll;
          found = self.new.found;
        } }
    {
        if left > 0 {
            self.found.clear();
            return Ok(());
        }
        if timeout == Some(Duration::ZERO) {
            return self.found.wait(&mut self.poll, timeout);
        }
        let start = self.clock.now();
        self.found.note_served(start);
        let portion = self.precision.portion(timeout);
        if !portion.asleep.is_zero() && !self.found.is_busy(start) {
            self.clock.sleep(portion.asleep);
        }
        self.found.wait(&mut self.poll, portion.waiting)?;
        if self.found.is_empty() && !self.is_over(start, timeout) {
            return Err(self.found.interruption());
        }
        Ok(())
    }

    // True if this time is over, counted from the start, or the clock stands still.
    fn is_over(&self, start: Instant, timeout: Option<Duration>) -> bool {
        let Some(timeout) = timeout else {
            return false;
        };
        let now = self.clock.now();
        now == start || now >= start.after(timeout)
    }
}

// The interest as `mio` has it, if it isn't empty.
fn mio_interest(interest: Interest) -> Option<mio::Interest>
    ensures some { is_some result ≡ asks interest }
    ensures value { IfSome result (λ asked. (is_readable asked ≡ interest.readable)
        × (is_writable asked ≡ interest.writable) × (is_priority asked ≡ false)) }
{
    match (interest.readable, interest.writable) {
        (true, true) => Some(mio::Interest::READABLE | mio::Interest::WRITABLE),
        (true, false) => Some(mio::Interest::READABLE),
        (false, true) => Some(mio::Interest::WRITABLE),
        (false, false) => None,
    }
}

fn no_interest() -> io::Error
    ensures { error_kind result ≡ InvalidInput }
{
    io::Error::new(io::ErrorKind::InvalidInput, "an empty interest")
}

impl<C: Clock> Poller for MioPoller<C> {
    ghost use Rattle.calloop_mio.specs.SystemPollers.{system_outside, system_sockets};

    ghost outside = { system_outside C.shows };

    ghost sockets = { system_sockets };

    /// Fails with kind `InvalidInput` if the interest is empty, which counts as a fault.
    fn add(&mut self, fd: RawFd, key: u64, watched: Watched) -> io::Result<()> {
        let answer = self.register(Registering::First, fd, key, watched);
        self.note_fault(answer)
    }

    /// Fails with kind `InvalidInput` if the interest is empty, which counts as a fault; the socket stays as it was added. The
    /// system is always called: the descriptor may be another socket's by now.
    fn modify(&mut self, fd: RawFd, key: u64, watched: Watched) -> io::Result<()> {
        let answer = self.register(Registering::Again, fd, key, watched);
        self.note_fault(answer)
    }

    /// Fails as `modify` does. Makes no system call if the descriptor was last registered so, under `Mode::Level`.
    fn rearm(&mut self, fd: RawFd, key: u64, watched: Watched) -> io::Result<()> {
        let Watched { interest, mode } = watched;
        if mode == Mode::Level && interest.asks() && self.levels.has(fd, key, interest) {
            return Ok(());
        }
        self.modify(fd, key, watched)
    }

    /// True: epoll tells of such a descriptor in each wait.
    #[inline(always)]
    fn keeps_levels() -> bool {
        true
    }

    fn delete(&mut self, fd: RawFd) -> io::Result<()> {
        self.levels.clear(fd);
        let answer = self.poll.registry().deregister(&mut SourceFd(&fd));
        self.note_fault(answer)
    }

    fn now(&mut self) -> Instant {
        self.clock.now()
    }

    fn wait(
        &mut self,
        timeout: Option<Duration>,
        left: usize,
        events: &mut Vec<(u64, Readiness)>,
    ) -> io::Result<()> {
        let timeout = self.time_to_sleep(timeout);
        let answer = self.find(timeout, left);
        self.waker.end_wait(&answer);
        match answer {
            Ok(()) => {
                self.found.append_to(events);
                Ok(())
            }
            Err(cause) => {
                if cause.kind() != io::ErrorKind::Interrupted {
                    self.faults = FaultCount::after(&self.faults);
                }
                Err(cause)
            }
        }
    }

    fn notifier(&self) -> LoopResult<Notifier> {
        Ok(Notifier::Mio(Arc::try_clone(&self.waker)?))
    }
}
