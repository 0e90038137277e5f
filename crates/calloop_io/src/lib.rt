//! Sockets as futures. From calloop's `io.rs`.
//!
//! An adapter has two ends. The loop's end has a slot; the other end is an `Async`, which polls the socket. What a poll waits for
//! is registered by the loop, at the beginning of its next dispatch; calloop registers it at once.
#![tactic(auto)]

ghost use Rattle.std.specs.Prelude.{◌≡◌, ◌⊎◌, [], None, false, OnOk, IfOk, IfErr};
ghost use Rattle.std.specs.Io.{ReadsAtMost, WritesAtMost};
ghost use Rattle.calloop_slots.specs.declared.error.Error.TheVariants.{OutOfMemory};
ghost use Rattle.calloop_ends.specs.futures.Polled.{IfReady};
ghost use Rattle.calloop_io.specs.Refusals.{IsAnswer};
ghost use Rattle.calloop_io.specs.AdapterNotes.{with_poll_note};
ghost use Rattle.calloop_io.specs.AsyncPolls.{WaitsFor, AnswersWith, Polls, to_read, to_write};
ghost use Rattle.calloop_io.specs.declared.notes.PollNote.TheVariants.{Waits, Tried, Flushed};

use calloop_ends::futures::{Context, Poll, Waker};
use calloop_poll::sys::Interest;
use calloop_slots::error::{InsertError, Result as LoopResult};
use calloop_slots::token::RegistrationToken;
use shared::PollEnd;
use std::alloc::Global;
use std::io;
use std::io::{Read, Write};
use std::marker::Model;
use std::os::fd::AsRawFd;
use std::sync::{MutexGuard, Wait};

mod adapter;
pub mod notes;
mod ready;
mod refusal;
mod shared;
pub mod state;
mod whole;

pub use adapter::Adapter;
pub use ready::{Readable, Writable};

/// A socket that is polled as a future, with the other end of its adapter in a loop. Its drop takes the adapter out of the
/// loop, at the beginning of the next dispatch; `LoopHandle::into_inner` does so at once, and hands the socket back.
///
/// In a clause it is its tally: the name of its adapter, and what it did. Each poll adds its notes, and nothing else does.
pub struct Async<F: AsRawFd + Drop, R: Wait + Drop> {
    end: PollEnd<F, R>,
}

impl<F: AsRawFd + Drop, R: Wait + Drop> Model for Async<F, R> {
    ghost use Rattle.calloop_io.specs.declared.state.PollTally.{PollTally};

    ghost Value = { PollTally };

    ghost view = { λ a. a.end };
}

impl<F: AsRawFd + Drop, R: Wait + Drop> Drop for Async<F, R> {
    fn drop(self) {
        let Async { end } = self;
        end.let_go();
    }
}

/// Makes both ends of an adapter that is in no loop yet, and sets the socket non-blocking. The socket is in neither end;
/// `LoopHandle::adapt_io` calls this first. If memory runs out it fails with `OutOfMemory`, and hands the socket back.
///
/// A descriptor that can't be set so, since it is closed, is refused by the poller once a poll waits.
pub fn make_ends<F: AsRawFd + Drop, R: Wait + Clone + Drop>(
    rt: &R,
    alloc: Global,
    io: F,
) -> Result<(Adapter<F, R>, Async<F, R>, F), InsertError<F>>
    ensures ok { IfOk result (λ made. (made.0.token ≡ None) × (made.0.entered ≡ false)
        × (made.0.end.name ≡ made.1.name)) }
    ensures notes { IfOk result (λ made. (made.0.end.notes ≡ []) × (made.1.notes ≡ [])) }
    ensures socket { IfOk result (λ made. made.2 ≡ io) }
    ensures err { IfErr result (λ refused. (refused.inserted ≡ io)
        × (refused.error ≡ OutOfMemory)) }
{
    match shared::make_ends(rt, alloc) {
        Ok((slot, poll)) => {
            let _is_set = os::set_nonblocking(io.as_raw_fd(), true);
            Ok((Adapter::new(slot), Async { end: poll }, io))
        }
        Err(error) => Err(InsertError {
            inserted: io,
            error,
        }),
    }
}

impl<F: AsRawFd + Drop, R: Wait + Drop> Async<F, R> {
    /// Puts the socket in, once the loop has its adapter. A socket that was there is dropped.
    pub fn put(&self, io: F) {
        *self.end.io() = Some(io);
    }

    /// Takes the socket out, once its adapter has left the loop. `None` if it was taken out before.
    pub fn take(&self) -> Option<F> {
        self.end.io().take()
    }

    /// Returns its registration, if it is in a loop: from now on the loop may take the adapter out, until `stay` is called
    /// or the adapter leaves.
    pub fn begin_leaving(&self) -> Option<RegistrationToken> {
        self.end.begin_leaving()
    }

    /// Keeps the adapter in its loop, if it is in one, since its leaving failed.
    pub fn stay(&self) {
        self.end.stay();
    }

    /// Lends the socket, to be changed: `None` if it was taken out. While the guard is held, a dispatch of the loop waits
    /// before it settles the adapter. Calloop returns a reference.
    pub fn get_mut(&mut self) -> MutexGuard<'_, Option<F>> {
        self.end.io()
    }
}

impl<F: AsRawFd + Drop, R: Wait + Clone + Drop> Async<F, R> {
    /// Makes a future that is ready once the socket can be read, or is in error.
    pub fn readable(&mut self) -> Readable<'_, F, R> {
        Readable::of(self)
    }

    /// Makes a future that is ready once the socket can be written, or is in error.
    pub fn writable(&mut self) -> Writable<'_, F, R> {
        Writable::of(self)
    }

    // Polls for this readiness.
    pub(crate) fn poll_for(
        &mut self,
        cx: &mut Context<'_, R>,
        wanted: Interest,
    ) -> Poll<LoopResult<()>>
        ensures answer { IfReady result IsAnswer }
        ensures told { WaitsFor wanted self.old result self.new }
    {
        let waker = match cx.waker().clone() {
            Ok(waker) => waker,
            Err(failed) => return Poll::Ready(Err(failed.into())),
        };
        match self.end.answer_or_wait(wanted, waker) {
            Ok(Some(answer)) => Poll::Ready(answer),
            Ok(None) => Poll::Pending,
            Err(failed) => Poll::Ready(Err(failed.into())),
        }
    }

    // Waits for this interest.
    fn wait(&mut self, waker: &Waker<R>, wanted: Interest) -> LoopResult<()>
        ensures ok { OnOk result (self.new ≡ with_poll_note (Waits wanted) self.old) }
        ensures err { IfErr result (λ e. (e ≡ OutOfMemory)
            × ((self.new ≡ self.old)
            ⊎ (self.new ≡ with_poll_note (Waits wanted) self.old))) }
    {
        let waker = waker.clone()?;
        self.end.wait(wanted, waker)?;
        Ok(())
    }

    // The answer of a call of the socket, unless it would block: then the poll waits for this interest.
    fn answer<T>(
        &mut self,
        cx: &mut Context<'_, R>,
        wanted: Interest,
        answer: io::Result<T>,
    ) -> Poll<io::Result<T>>
        ensures { AnswersWith wanted answer self.old result self.new }
    {
        match answer {
            Err(cause) if cause.kind() == io::ErrorKind::WouldBlock => {
                match self.wait(cx.waker(), wanted) {
                    Ok(()) => Poll::Pending,
                    Err(refusal) => Poll::Ready(Err(io::Error::from(refusal))),
                }
            }
            other => Poll::Ready(other),
        }
    }

    /// Reads. If the socket has nothing yet, it waits until it can be read. The error of a registration is returned first,
    /// once. If there is no memory to wait, it fails with an error of kind `Other`; if there is no socket, with `NotFound`.
    pub fn poll_read(&mut self, cx: &mut Context<'_, R>, buf: &mut [u8]) -> Poll<io::Result<usize>>
    where
        F: Read,
        ensures bound { IfReady result (λ read. ReadsAtMost read buf.new) }
        ensures told { Polls to_read Tried self.old result self.new }
    {
        if let Some(refusal) = self.end.take_refusal() {
            return Poll::Ready(Err(io::Error::from(refusal)));
        }
        let read = self.end.try_read(buf);
        self.answer(cx, Interest::READ, read)
    }

    /// Writes. If the socket takes nothing yet, it waits until the socket can be written. It fails as `poll_read` does.
    pub fn poll_write(&mut self, cx: &mut Context<'_, R>, buf: &[u8]) -> Poll<io::Result<usize>>
    where
        F: Write,
        ensures bound { IfReady result (λ written. WritesAtMost written buf.now) }
        ensures told { Polls to_write Tried self.old result self.new }
    {
        if let Some(refusal) = self.end.take_refusal() {
            return Poll::Ready(Err(io::Error::from(refusal)));
        }
        let written = self.end.try_write(buf);
        self.answer(cx, Interest::WRITE, written)
    }

    /// Flushes what was written. It fails as `poll_read` does.
    pub fn poll_flush(&mut self, cx: &mut Context<'_, R>) -> Poll<io::Result<()>>
    where
        F: Write,
        ensures told { Polls to_write Flushed self.old result self.new }
    {
        if let Some(refusal) = self.end.take_refusal() {
            return Poll::Ready(Err(io::Error::from(refusal)));
        }
        let flushed = self.end.try_flush();
        self.answer(cx, Interest::WRITE, flushed)
    }

    /// Flushes, as in calloop: the socket is closed by its drop.
    pub fn poll_close(&mut self, cx: &mut Context<'_, R>) -> Poll<io::Result<()>>
    where
        F: Write,
        ensures told { Polls to_write Flushed self.old result self.new }
    {
        self.poll_flush(cx)
    }
}
