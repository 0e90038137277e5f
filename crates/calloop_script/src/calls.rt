//! The calls of a scripted poller for sockets.
ghost use Rattle.std.specs.Prelude.{◌≡◌, ◌+◌, true, false, [], Some, Err, IsErrAnd, IsOk};
ghost use Rattle.std.specs.Io.{ReadsAtMost, WritesAtMost};
ghost use Rattle.std.specs.Io.KnownBytes.{ReadConsumes, WriteAppends, Keeps};
ghost use Rattle.std.specs.IoError.{error_kind};
ghost use Rattle.std.specs.declared.io.ErrorKind.TheVariants.{WouldBlock};
ghost use Rattle.calloop_poll.specs.sys.Pollers.{faults_of};
ghost use Rattle.calloop_script.specs.ScriptCalls.{kind_of, is_to_fail, with_failing};
ghost use Rattle.calloop_script.specs.ScriptPollers.{ScriptCalled};

use super::ScriptPoller;
use calloop_poll::sys::Watched;
use calloop_poll::sys::faults::FaultCount;
use std::io;
use std::io::{Read, Write};
use std::os::fd::{AsRawFd, RawFd};

/// A socket that doesn't exist: the number of its descriptor.
#[derive(Debug, Drop)]
pub struct ScriptIo {
    pub number: RawFd,
}

impl AsRawFd for ScriptIo {
    ghost raw_fd = { λ io. Some io.number };

    fn as_raw_fd(&self) -> RawFd {
        self.number
    }
}

impl Read for ScriptIo {
    ghost remaining = { λ _. Some [] };

    /// Reads nothing: fails with kind `WouldBlock`, with the buffer and the socket unchanged.
    fn read(&mut self, buf: &mut [u8]) -> io::Result<usize>
        ensures bound { ReadsAtMost result buf.new }
        ensures bytes { ReadConsumes (Some []) (Some []) result buf.new }
        ensures blocks { IsErrAnd result (λ cause. error_kind cause ≡ WouldBlock) }
        ensures unread { buf.new ≡ buf.old }
        ensures same { self.new ≡ self.old }
    {
        Err(io::Error::new(io::ErrorKind::WouldBlock, "nothing comes"))
    }
}

impl Write for ScriptIo {
    ghost contents = { λ _. Some [] };

    /// Writes nothing: fails with kind `WouldBlock`, with the socket unchanged.
    fn write(&mut self, buf: &[u8]) -> io::Result<usize>
        ensures bound { WritesAtMost result buf.now }
        ensures bytes { WriteAppends (Some []) (Some []) result buf.now }
        ensures blocks { IsErrAnd result (λ cause. error_kind cause ≡ WouldBlock) }
        ensures same { self.new ≡ self.old }
    {
        Err(io::Error::new(io::ErrorKind::WouldBlock, "no room"))
    }

    /// Succeeds, and leaves the socket unchanged.
    fn flush(&mut self) -> io::Result<()>
        ensures bytes { Keeps (Some []) (Some []) }
        ensures ok { IsOk result }
        ensures same { self.new ≡ self.old }
    {
        // Nothing was written.
        Ok(())
    }
}

/// A call for a socket: its number, and the key and what it was to wait for.
#[derive(Clone, Copy, Debug, PartialEq, Eq)]
pub enum ScriptCall {
    Add(RawFd, u64, Watched),
    Modify(RawFd, u64, Watched),
    Delete(RawFd),
}

impl ScriptCall {
    /// Returns which kind of call this is.
    pub fn kind(self) -> ScriptKind
        ensures { result ≡ kind_of self }
    {
        match self {
            ScriptCall::Add(_, _, _) => ScriptKind::Add,
            ScriptCall::Modify(_, _, _) => ScriptKind::Modify,
            ScriptCall::Delete(_) => ScriptKind::Delete,
        }
    }
}

/// The kind of a call for a socket.
#[derive(Clone, Copy, Debug, PartialEq, Eq)]
pub enum ScriptKind {
    Add,
    Modify,
    Delete,
}

/// Which calls for a socket are to fail the next time.
#[derive(Clone, Copy, Debug)]
pub struct ScriptFaults {
    pub add: bool,
    pub modify: bool,
    pub delete: bool,
}

impl ScriptFaults {
    /// No call is to fail.
    pub const NONE: ScriptFaults = ScriptFaults {
        add: false,
        modify: false,
        delete: false,
    };

    fn set(&mut self, kind: ScriptKind, fails: bool)
        ensures { self.new ≡ with_failing kind fails self.old }
    {
        match kind {
            ScriptKind::Add => self.add = fails,
            ScriptKind::Modify => self.modify = fails,
            ScriptKind::Delete => self.delete = fails,
        }
    }

    fn is_set(&self, kind: ScriptKind) -> bool
        ensures { result ≡ is_to_fail kind self.now }
    {
        match kind {
            ScriptKind::Add => self.add,
            ScriptKind::Modify => self.modify,
            ScriptKind::Delete => self.delete,
        }
    }
}

impl ScriptPoller {
    /// The calls for sockets, in order, including those that failed.
    pub fn calls(&self) -> &[ScriptCall]
        ensures { result.now ≡ self.now.calls.items }
    {
        self.calls.as_slice()
    }

    /// Makes the next call of this kind fail, with an error of kind `Other`.
    pub fn fail(&mut self, kind: ScriptKind)
        ensures { self.new ≡ record self.old { failing = with_failing kind true self.old.failing } }
    {
        self.failing.set(kind, true);
    }

    // Returns whether the next call of this kind was to fail; from now on it isn't.
    fn take_failing(&mut self, kind: ScriptKind) -> bool
        ensures fails { result ≡ is_to_fail kind self.old.failing }
        ensures poller { self.new
            ≡ record self.old { failing = with_failing kind false self.old.failing } }
    {
        let fails = self.failing.is_set(kind);
        self.failing.set(kind, false);
        fails
    }

    // Counts another fault.
    fn fault<T>(&mut self, cause: io::Error) -> io::Result<T>
        ensures err { result ≡ Err cause }
        ensures faults { self.new.faults.count ≡ self.old.faults.count + 1 }
        ensures calls { self.new.calls ≡ self.old.calls }
        ensures failing { self.new.failing ≡ self.old.failing }
        ensures moment { self.new.moment ≡ self.old.moment }
        ensures answers { self.new.answers ≡ self.old.answers }
        ensures waits { self.new.waits ≡ self.old.waits }
        ensures shown { self.new.shown ≡ self.old.shown }
        ensures signal { self.new.signal ≡ self.old.signal }
    {
        self.faults = FaultCount::after(&self.faults);
        Err(cause)
    }

    // Notes a call, and returns its result. Running out of memory is a fault of kind `OutOfMemory`.
    pub(super) fn call(&mut self, call: ScriptCall) -> io::Result<()>
        ensures called { ScriptCalled self.old call result self.new }
        ensures faults { self.new.faults.count ≡ self.old.faults.count + faults_of result }
    {
        if self.calls.push(call).is_err() {
            return self.fault(io::Error::from(io::ErrorKind::OutOfMemory));
        }
        if self.take_failing(call.kind()) {
            return self.fault(io::Error::other("a scripted fault"));
        }
        Ok(())
    }
}
