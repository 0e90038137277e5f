//! Pollers and clocks, and what sources register with.
ghost use Rattle.std.specs.Prelude.{◌≡◌, ℕ, ◌+◌, ◌≤◌, ◌++◌, ◌||◌, List, length, vec_len, vec_capacity};
ghost use Rattle.calloop_poll.specs.sys.Pollers.{Outside, IsCounted, nanos_of, asks};
ghost use Rattle.calloop_poll.specs.declared.sys.Readiness.{Readiness};

use calloop_slots::error::Result as LoopResult;
use calloop_slots::wheel::Instant;
use notifier::Notifier;
use std::io;
use std::os::fd::RawFd;
use std::time::Duration;

pub mod events;
pub mod faults;
pub mod hub;
pub mod notifier;
pub mod poll;
pub mod synthetic;

/// The most events that one wait returns.
pub const EVENTS_PER_WAIT: usize = 1024;

/// What a source was found ready for, as in calloop.
#[derive(Clone, Copy, Debug)]
pub struct Readiness {
    pub readable: bool,
    pub writable: bool,
    pub error: bool,
}

impl Readiness {
    /// Ready for nothing.
    pub const EMPTY: Readiness = Readiness {
        readable: false,
        writable: false,
        error: false,
    };

    // Ready to be read, as the events of posted keys and of timers are.
    pub(crate) const READ: Readiness = Readiness {
        readable: true,
        writable: false,
        error: false,
    };
}

/// What a source wants to be told of, as in calloop.
#[derive(Clone, Copy, Debug, PartialEq, Eq)]
pub struct Interest {
    pub readable: bool,
    pub writable: bool,
}

impl Interest {
    /// No interest: a socket with it is in no poller.
    pub const EMPTY: Interest = Interest {
        readable: false,
        writable: false,
    };

    /// Interest in readable.
    pub const READ: Interest = Interest {
        readable: true,
        writable: false,
    };

    /// Interest in writable.
    pub const WRITE: Interest = Interest {
        readable: false,
        writable: true,
    };

    /// Interest in both.
    pub const BOTH: Interest = Interest {
        readable: true,
        writable: true,
    };

    /// True if the interest isn't empty.
    pub fn asks(self) -> bool
        ensures { result ≡ asks self }
    {
        self.readable || self.writable
    }
}

/// How often a source is told that its socket is ready, as in calloop. The source keeps it, and a poller is told of `Level`.
#[derive(Clone, Copy, Debug, PartialEq, Eq)]
pub enum Mode {
    /// Once, until it is registered anew.
    OneShot,
    /// In each wait while it is ready.
    Level,
    /// When it becomes ready.
    Edge,
}

/// What is waited for under a key: interest and mode.
#[derive(Clone, Copy, Debug, PartialEq, Eq)]
pub struct Watched {
    pub interest: Interest,
    pub mode: Mode,
}

/// A clock. The relation `shows` says which moments it may show; the loop is proved for any, also for one that is smaller than
/// an earlier one.
pub trait Clock: Clone + Drop {
    ghost use Rattle.std.specs.Prelude.{ℕ};

    /// The moments that the clock may show, in nanoseconds.
    ghost shows: { Self → (now : ℕ) → Type 0 };

    fn now(&self) -> Instant
        ensures { shows self.now result.nanos };

    /// Sleeps for about this time, if the clock is the OS clock. By default it doesn't sleep: then a poller that waits by this
    /// clock calls the OS again and again.
    fn sleep(&self, _time: Duration) {}
}

/// Waits for events, and tells the moment. The loop is proved for every result that a poller may return.
pub trait Poller: Drop {
    ghost use Rattle.std.specs.Prelude.{◌≡◌, ℕ, ℤ, ◌+◌, ◌≤◌, ◌++◌, List, length, vec_len, vec_capacity};
    ghost use Rattle.std.specs.Prelude.{IfErr, Ok, true};
    ghost use Rattle.calloop_slots.specs.declared.error.Error.TheVariants.{OutOfMemory};
    ghost use Rattle.calloop_poll.specs.sys.Pollers.{Outside, Sockets, Add, Modify, Delete, IsCounted, asks, faults_of, nanos_of, events_per_wait};
    ghost use Rattle.calloop_poll.specs.declared.sys.Readiness.{Readiness};
    ghost use Rattle.calloop_poll.specs.declared.sys.Watched.{Watched};

    /// What the poller's calls may do.
    ghost outside: { Outside Self };

    /// What the poller's calls for a descriptor may do.
    ghost sockets: { Sockets Self };

    /// From now on a wait returns the events of this descriptor, under this key. Under `Mode::Level` each wait may tell of it
    /// while it is ready, without a further call. An `Err` is a fault, and is counted.
    fn add(&mut self, fd: RawFd, key: u64, watched: Watched) -> io::Result<()>
        ensures sockets { sockets self.old fd (Add key watched) result self.new }
        ensures calls { outside.calls self.old (Add key watched) result self.new }
        ensures faults { outside.faults self.new ≡ outside.faults self.old + faults_of result };

    /// Changes the key, interest or mode of a descriptor that was added, and its readiness is told anew. It is an explicit
    /// registration anew, so the descriptor may name another socket than before: a poller that keeps notes of sockets calls the
    /// OS all the same. An `Err` is a fault, and is counted.
    fn modify(&mut self, fd: RawFd, key: u64, watched: Watched) -> io::Result<()>
        ensures sockets { sockets self.old fd (Modify key watched) result self.new }
        ensures calls { outside.calls self.old (Modify key watched) result self.new }
        ensures faults { outside.faults self.new ≡ outside.faults self.old + faults_of result };

    /// As `modify`, after a callback of the source, when probably only the interest changed. A poller in which each wait tells
    /// of this descriptor under this key and for this interest already has nothing to do. By default it is `modify`.
    fn rearm(&mut self, fd: RawFd, key: u64, watched: Watched) -> io::Result<()>
        ensures sockets { sockets self.old fd (Modify key watched) result self.new }
        ensures calls { outside.calls self.old (Modify key watched) result self.new }
        ensures faults { outside.faults self.new ≡ outside.faults self.old + faults_of result }
    {
        self.modify(fd, key, watched)
    }

    /// True if a descriptor that was added, or modified last, under `Mode::Level` needs no further call: each wait tells of it
    /// while it is ready. The loop then asks again, behind a callback, only if the key, the interest or the mode changed. By
    /// default false.
    fn keeps_levels() -> bool
        ensures sockets { result ≡ true → (p : Self) (fd : ℤ) (key : ℕ) (watched : Watched)
            → asks watched.interest ≡ true → sockets p fd (Modify key watched) (Ok tt) p }
        ensures calls { result ≡ true → (p : Self) (key : ℕ) (watched : Watched)
            → asks watched.interest ≡ true → outside.calls p (Modify key watched) (Ok tt) p }
    {
        false
    }

    /// From now on no wait returns an event of this descriptor. An `Err` is a fault, and is counted.
    fn delete(&mut self, fd: RawFd) -> io::Result<()>
        ensures sockets { sockets self.old fd Delete result self.new }
        ensures calls { outside.calls self.old Delete result self.new }
        ensures faults { outside.faults self.new ≡ outside.faults self.old + faults_of result };

    /// The moment that the poller's clock shows.
    fn now(&mut self) -> Instant
        ensures reads { outside.reads self.old result.nanos self.new }
        ensures faults { outside.faults self.new ≡ outside.faults self.old };

    /// Waits, at most for `timeout`, and appends at most 1,024 events to `events`, for which the caller reserved room: each is
    /// the key of a token and the readiness found. Without a timeout it may wait for ever. After an `Err` none of its events is
    /// handed out. One of kind `Interrupted` is an interruption, after which the loop waits anew; any other is a fault, and is
    /// counted.
    ///
    /// `left` is how many events wait for their turn since an earlier dispatch failed, up to this poller's last one. A poller
    /// that tells of a socket anew while it is ready may tell of nothing beside them, so that no event is told twice.
    fn wait(
        &mut self,
        timeout: Option<Duration>,
        left: usize,
        events: &mut Vec<(u64, Readiness)>,
    ) -> io::Result<()>
        requires { vec_len events.old + events_per_wait ≤ vec_capacity events.old }
        ensures waits { (given : List (ℕ × Readiness))
            × outside.waits self.old (nanos_of timeout) result given self.new
            × (events.new.items ≡ events.old.items ++ given) × (length given ≤ events_per_wait) }
        ensures room { vec_capacity events.old ≤ vec_capacity events.new }
        ensures faults { IsCounted (outside.faults self.old) result (outside.faults self.new) };

    /// Returns what ends a wait from another thread. No contract says that it does; running out of memory is `OutOfMemory`.
    fn notifier(&self) -> LoopResult<Notifier>
        ensures { IfErr result (λ e. e ≡ OutOfMemory) };
}
