//! What the two ends of an adapter share: its state and its socket, each under a lock of its own; neither lock is taken
//! while the other is held. Each end has its own tally besides, which notes what that end did.
ghost use Rattle.std.specs.Prelude.{◌≡◌, [], ℕ, ℤ, true, is_some, IfOk, IfErr, IfSome, IfNone, OnErr};
ghost use Rattle.std.specs.Io.{ReadsAtMost, WritesAtMost};
ghost use Rattle.std.specs.Arc.{arc_value};
ghost use Rattle.calloop_slots.specs.declared.error.Error.TheVariants.{OutOfMemory};
ghost use Rattle.calloop_poll.specs.sys.Polls.{poll_view, IsReady};
ghost use Rattle.calloop_poll.specs.sys.SocketCalls.{DidEdit};
ghost use Rattle.calloop_io.specs.TakingUp.{taking_up};
ghost use Rattle.calloop_io.specs.AdapterNotes.{with_poll_note, with_slot_note};
ghost use Rattle.calloop_io.specs.declared.notes.PollNote.TheVariants.{Answered, Refused, Waits, Tried, Flushed};
ghost use Rattle.calloop_io.specs.declared.notes.SlotNote.TheVariants.{Heard, Settled as SettledSo, Kept, Asked, Reached};
ghost use Rattle.calloop_io.specs.Refusals.{IsAnswer, of_registration};

use super::notes::Settled;
use super::refusal::Refusal;
use super::state::{Home, MarkDebt, PollTally, SlotTally, State, Waiting};
use calloop_ends::futures::Waker;
use calloop_poll::sys::hub::{SharedHub, share};
use calloop_poll::sys::poll::Poll;
use calloop_poll::sys::{Interest, Mode, Poller, Readiness};
use calloop_slots::error::{Error, Result as LoopResult};
use calloop_slots::token::{RegistrationToken, Token};
use calloop_wake::locked::Locked;
use std::alloc::{AllocError, Global};
use std::io;
use std::io::{Read, Write};
use std::marker::Model;
use std::os::fd::AsRawFd;
use std::sync::{Arc, Mutex, MutexGuard, Wait};

#[derive(Drop)]
pub(crate) struct Shared<F: AsRawFd + Drop, R: Wait + Drop> {
    state: Locked<State<R>>,
    io: Mutex<Option<F>>,
}

/// An `Async`'s part of its adapter. In a clause it is the tally.
pub(crate) struct PollEnd<F: AsRawFd + Drop, R: Wait + Drop> {
    rt: R,
    shared: Arc<Shared<F, R>, Global>,
    tally: PollTally,
}

impl<F: AsRawFd + Drop, R: Wait + Drop> Model for PollEnd<F, R> {
    ghost use Rattle.std.specs.Prelude.{◌≡◌};
    ghost use Rattle.std.specs.Arc.{arc_value};
    ghost use Rattle.calloop_io.specs.declared.state.PollTally.{PollTally};

    ghost Value = { PollTally };

    ghost view = { λ e. e.tally };

    ghost invariant = { λ e. e.tally.name ≡ (arc_value e.shared).state.tag };
}

/// The part of an adapter that belongs to its end in a slot. In a clause it is the tally.
#[derive(Drop)]
pub(crate) struct SlotEnd<F: AsRawFd + Drop, R: Wait + Drop> {
    rt: R,
    shared: Arc<Shared<F, R>, Global>,
    tally: SlotTally,
}

impl<F: AsRawFd + Drop, R: Wait + Drop> Model for SlotEnd<F, R> {
    ghost use Rattle.std.specs.Prelude.{◌≡◌};
    ghost use Rattle.std.specs.Arc.{arc_value};
    ghost use Rattle.calloop_io.specs.declared.state.SlotTally.{SlotTally};

    ghost Value = { SlotTally };

    ghost view = { λ e. e.tally };

    ghost invariant = { λ e. e.tally.name ≡ (arc_value e.shared).state.tag };
}

/// Makes both ends of an adapter that is in no loop yet, without its socket. Fails with `OutOfMemory` if memory runs out.
pub(crate) fn make_ends<F: AsRawFd + Drop, R: Wait + Clone + Drop>(
    rt: &R,
    alloc: Global,
) -> LoopResult<(SlotEnd<F, R>, PollEnd<F, R>)>
    ensures same { IfOk result (λ made. made.0.name ≡ made.1.name) }
    ensures slot { IfOk result (λ made. made.0.notes ≡ []) }
    ensures poll { IfOk result (λ made. made.1.notes ≡ []) }
    ensures err { IfErr result (λ e. e ≡ OutOfMemory) }
{
    let of_slot = rt.clone()?;
    let of_poll = rt.clone()?;
    let (state, name, poll, slot) = State::new();
    let state = Locked::new(alloc, state, &name)?;
    let io = Mutex::new(None);
    let shared = Arc::new(alloc, Shared { state, io })?;
    let again = share(rt, &shared);
    let slot = SlotEnd {
        rt: of_slot,
        shared: again,
        tally: slot.into_tally(),
    };
    let poll = PollEnd {
        rt: of_poll,
        shared,
        tally: poll.into_tally(),
    };
    Ok((slot, poll))
}

// Puts an adapter among the marks of its loop, if that is owed. If there is no memory it fails, and the mark is taken back.
fn put_mark<R: Wait + Drop>(
    rt: &R,
    state: &Locked<State<R>>,
    debt: Option<MarkDebt>,
) -> Result<(), AllocError> {
    let Some(debt) = debt else {
        return Ok(());
    };
    match debt.mark(rt) {
        Ok(()) => Ok(()),
        Err(failed) => {
            let mut held = state.lock(rt);
            let refused = held.core().unmark(failed);
            held.unlock();
            Err(refused)
        }
    }
}

impl<F: AsRawFd + Drop, R: Wait + Drop> PollEnd<F, R> {
    /// Locks the socket: the guard holds `None` if it isn't there.
    pub(crate) fn io(&self) -> MutexGuard<'_, Option<F>> {
        self.shared.io.lock(&self.rt)
    }

    /// Takes a kept refusal, once.
    pub(crate) fn take_refusal(&mut self) -> Option<Error>
        ensures refused { IfSome result (λ e. of_registration e ≡ true) }
        ensures tally { self.new ≡ with_poll_note (Refused result) self.old }
    {
        let mut held = self.shared.state.lock(&self.rt);
        let error = held.core().take_refusal(&mut self.tally);
        held.unlock();
        error
    }

    /// Answers a poll. If there is no answer, the poll waits, and its loop is woken, if the adapter is in one and unmarked.
    pub(crate) fn answer_or_wait(
        &mut self,
        wanted: Interest,
        waker: Waker<R>,
    ) -> Result<Option<LoopResult<()>>, AllocError>
        ensures refused { IfOk result (λ answer. IfSome answer IsAnswer) }
        ensures some { IfOk result (λ answer. IfSome answer
            (λ a. self.new ≡ with_poll_note (Answered a) self.old)) }
        ensures none { IfOk result (λ answer. IfNone answer
            (self.new ≡ with_poll_note (Waits wanted) self.old)) }
        ensures err { OnErr result (self.new ≡ with_poll_note (Waits wanted) self.old) }
    {
        let mut held = self.shared.state.lock(&self.rt);
        let answer = held.core().answer(&mut self.tally, wanted);
        if let Some(answer) = answer {
            held.unlock();
            return Ok(Some(answer));
        }
        let Waiting { older, debt } = held.core().wait(&self.rt, &mut self.tally, wanted, waker);
        held.unlock();
        drop(older);
        put_mark(&self.rt, &self.shared.state, debt)?;
        Ok(None)
    }

    /// Lets a poll wait, and wakes its loop, if the adapter is in one and unmarked.
    pub(crate) fn wait(&mut self, wanted: Interest, waker: Waker<R>) -> Result<(), AllocError>
        ensures { self.new ≡ with_poll_note (Waits wanted) self.old }
    {
        let mut held = self.shared.state.lock(&self.rt);
        let Waiting { older, debt } = held.core().wait(&self.rt, &mut self.tally, wanted, waker);
        held.unlock();
        drop(older);
        put_mark(&self.rt, &self.shared.state, debt)
    }

    /// Reads the socket.
    pub(crate) fn try_read(&mut self, buf: &mut [u8]) -> io::Result<usize>
    where
        F: Read,
        ensures bound { ReadsAtMost result buf.new }
        ensures tally { self.new ≡ with_poll_note (Tried result) self.old }
    {
        let mut held = self.shared.io.lock(&self.rt);
        self.tally.try_read(&mut *held, buf)
    }

    /// Writes to the socket.
    pub(crate) fn try_write(&mut self, buf: &[u8]) -> io::Result<usize>
    where
        F: Write,
        ensures bound { WritesAtMost result buf.now }
        ensures tally { self.new ≡ with_poll_note (Tried result) self.old }
    {
        let mut held = self.shared.io.lock(&self.rt);
        self.tally.try_write(&mut *held, buf)
    }

    /// Flushes the socket.
    pub(crate) fn try_flush(&mut self) -> io::Result<()>
    where
        F: Write,
        ensures tally { self.new ≡ with_poll_note (Flushed result) self.old }
    {
        let mut held = self.shared.io.lock(&self.rt);
        self.tally.try_flush(&mut *held)
    }

    // Returns its registration, if it is in a loop, and sets whether the loop may take it out from now on.
    fn set_leaving(&self, leaving: bool) -> Option<RegistrationToken> {
        let mut held = self.shared.state.lock(&self.rt);
        let state = held.core();
        let token = state.registration();
        state.set_leaving(&self.tally, leaving && token.is_some());
        held.unlock();
        token
    }

    /// Returns its registration, if it is in a loop, which may take it out from now on.
    pub(crate) fn begin_leaving(&self) -> Option<RegistrationToken> {
        self.set_leaving(true)
    }

    /// Keeps it in its loop, if it is in one.
    pub(crate) fn stay(&self) {
        let _token = self.set_leaving(false);
    }

    /// Drops the `Async`'s end.
    pub(crate) fn let_go(self) {
        let PollEnd { rt, shared, tally } = self;
        let mut held = shared.state.lock(&rt);
        let debt = held.core().let_go(&rt, tally);
        held.unlock();
        // If there is no memory for the mark, the adapter stays until its loop is dropped.
        let _failed = put_mark(&rt, &shared.state, debt);
    }
}

impl<F: AsRawFd + Drop, R: Wait + Drop> SlotEnd<F, R> {
    /// Registers the socket for this interest, if it is there: anew if the adapter has `entered`, else for the first time.
    pub(crate) fn register<P: Poller, C>(
        &mut self,
        entered: bool,
        token: Token,
        interest: Interest,
        poll: &mut Poll<P, C, R>,
    ) -> Option<LoopResult<()>>
        ensures tally { self.new ≡ with_slot_note (Reached (is_some result)) self.old }
        ensures none { IfNone result (poll_view poll.new ≡ poll_view poll.old) }
        ensures some { IfSome result (λ told. (fd : ℤ)
            × DidEdit P.outside P.sockets (taking_up token entered interest)
            (poll_view poll.old) fd told (poll_view poll.new)) }
        ensures refused { IfSome result (λ told. IfErr told (λ e. of_registration e ≡ true)) }
        ensures ready { (more : ℕ) → IsReady more poll.old → IsReady more poll.new }
    {
        let mut held = self.shared.io.lock(&self.rt);
        self.tally.reach(&*held);
        match &*held {
            Some(io) if entered => {
                Some(poll.reregister(io.as_raw_fd(), token, interest, Mode::OneShot, token))
            }
            Some(io) => Some(poll.register(io.as_raw_fd(), interest, Mode::OneShot, token)),
            None => None,
        }
    }

    /// Locks the socket: the guard holds `None` if it isn't there.
    pub(crate) fn io(&self) -> MutexGuard<'_, Option<F>> {
        self.shared.io.lock(&self.rt)
    }

    /// Makes room for its mark in this loop. If memory runs out, nothing changes.
    pub(crate) fn open_mark(&self, hub: &SharedHub) -> Result<(), AllocError> {
        hub.open_mark(&self.rt)
    }

    /// Gives up the room for its mark.
    pub(crate) fn close_mark(&self, hub: &SharedHub) {
        hub.close_mark(&self.rt);
    }

    /// Enters a loop, which takes up what was asked of the adapter until then.
    pub(crate) fn come_into(&self, hub: &SharedHub, token: RegistrationToken) {
        let home = Home {
            hub: share(&self.rt, hub),
            token,
        };
        let mut held = self.shared.state.lock(&self.rt);
        let debt = held.core().come_into(&self.rt, &self.tally, home);
        held.unlock();
        let _failed = put_mark(&self.rt, &self.shared.state, debt);
    }

    /// Leaves its loop.
    pub(crate) fn leave(&self) {
        let mut held = self.shared.state.lock(&self.rt);
        held.core().leave(&self.tally);
        held.unlock();
    }

    /// True if it is being given back.
    pub(crate) fn is_leaving(&mut self) -> bool
        ensures { self.new ≡ with_slot_note (Asked result) self.old }
    {
        let mut held = self.shared.state.lock(&self.rt);
        let leaving = held.core().is_leaving(&mut self.tally);
        held.unlock();
        leaving
    }

    /// Returns what the loop is to do with it.
    pub(crate) fn settle(&mut self) -> Settled
        ensures { self.new ≡ with_slot_note (SettledSo result) self.old }
    {
        let mut held = self.shared.state.lock(&self.rt);
        let settled = held.core().settle(&mut self.tally);
        held.unlock();
        settled
    }

    /// Keeps a refusal, and wakes the waiting poll.
    pub(crate) fn refuse(&mut self, refusal: Refusal)
        ensures { self.new ≡ with_slot_note (Kept refusal.error) self.old }
    {
        let mut held = self.shared.state.lock(&self.rt);
        let waking = held.core().refuse(&mut self.tally, refusal);
        held.unlock();
        waking.wake();
    }

    /// Keeps the readiness found, and wakes the waiting poll.
    pub(crate) fn hear(&mut self, found: Readiness)
        ensures { self.new ≡ with_slot_note (Heard found) self.old }
    {
        let mut held = self.shared.state.lock(&self.rt);
        let waking = held.core().hear(&mut self.tally, found);
        held.unlock();
        waking.wake();
    }
}
