//! What the two ends of an adapter know of it, besides its socket, under a lock with its name. Each end notes what it does there
//! in its tally, a value that nobody else has: so its contracts say what it did.
ghost use Rattle.std.specs.Prelude.{◌≡◌, ◌++◌, ◌∷◌, [], None, Some, true, false, is_some, not, ◌&&◌, ◌||◌, IfSome, IfNone, option_map};
ghost use Rattle.std.specs.Io.{ReadsAtMost, WritesAtMost};
ghost use Rattle.calloop_io.specs.AdapterStates.{suits, fresh_state, error_of, answer_of, after_answer, after_wait, after_coming, after_drop, settled_by};
ghost use Rattle.calloop_io.specs.AdapterNotes.{with_poll_note, with_slot_note};
ghost use Rattle.calloop_io.specs.declared.notes.PollNote.TheVariants.{Answered, Refused, Waits, Tried, Flushed};
ghost use Rattle.calloop_io.specs.declared.notes.SlotNote.TheVariants.{Heard, Settled as SettledSo, Kept, Asked, Reached};
ghost use Rattle.calloop_io.specs.Refusals.{IsAnswer, of_registration};

use super::notes::{LentPollNote, LentSlotNote, PollNote, Settled, SlotNote};
use super::refusal::Refusal;
use calloop_ends::futures::Waker;
use calloop_poll::sys::hub::{SharedHub, share};
use calloop_poll::sys::{Interest, Readiness};
use calloop_slots::error::{Error, Result as LoopResult};
use calloop_slots::token::RegistrationToken;
use calloop_wake::Last;
use calloop_wake::ghosts::{Name, Notes};
use calloop_wake::locked::Core;
use counted_slot::Fits;
use std::alloc::AllocError;
use std::io::{Read, Write};
use std::sync::Wait;
use std::{io, mem};

/// Says which adapter of which loop it is.
#[derive(Drop)]
pub(crate) struct Home {
    pub(crate) hub: SharedHub,
    pub(crate) token: RegistrationToken,
}

/// What the `Async` of the adapter of this name did. There is one for each adapter, and it is spent when the `Async` is dropped.
#[must_use]
pub struct PollTally {
    name: Name,
    notes: Notes<PollNote>,
}

/// What the end in a slot of the adapter of this name did. There is one for each adapter.
#[derive(Drop)]
pub struct SlotTally {
    name: Name,
    notes: Notes<SlotNote>,
}

/// The right to the `Async`'s part of the adapter of this name. There is one for each, made with it, and it can't be cloned.
#[derive(Drop)]
pub(crate) struct PollRight {
    name: Name,
}

/// The right to the slot's part of the adapter of this name. There is one for each, made with it, and it can't be cloned.
#[derive(Drop)]
pub(crate) struct SlotRight {
    name: Name,
}

/// An adapter that is to be put among the marks of its loop.
#[must_use]
pub(crate) struct MarkDebt {
    home: Home,
}

/// There was no memory for a mark.
#[must_use]
pub(crate) struct NotMarked {
    of_state: (),
}

impl MarkDebt {
    /// Spends the debt: the adapter is among the marks of its loop, which is woken.
    pub(crate) fn mark<R: Wait>(self, rt: &R) -> Result<(), NotMarked> {
        let MarkDebt { home } = self;
        match home.hub.mark(rt, home.token) {
            Ok(()) => Ok(()),
            Err(_) => Err(NotMarked { of_state: () }),
        }
    }
}

/// The waker of the waiting poll, to be woken, if there is one.
#[must_use]
pub(crate) struct Waking<R: Wait + Drop> {
    waker: Option<Waker<R>>,
}

impl<R: Wait + Drop> Waking<R> {
    /// Spends the value and wakes, outside of every lock.
    pub(crate) fn wake(self) {
        let Waking { waker } = self;
        if let Some(waker) = waker {
            waker.wake();
        }
    }
}

/// The outcome of a wait: the waker of the poll before, and the debt for the mark.
pub(crate) struct Waiting<R: Wait + Drop> {
    pub(crate) older: Option<Waker<R>>,
    pub(crate) debt: Option<MarkDebt>,
}

/// What both ends share, under the lock. It has no `Drop`.
pub(crate) struct State<R: Wait + Drop> {
    // What the last poll waits for.
    interest: Option<Interest>,
    readiness: Readiness,
    waker: Option<Waker<R>>,
    refusal: Option<Refusal>,
    // True if the adapter is among the marks of its loop, or that is owed.
    marked: bool,
    dropped: bool,
    // True if the adapter is being given back.
    leaving: bool,
    home: Option<Home>,
    name: Name,
}

impl<R: Wait + Drop> Fits for State<R> {
    ghost use Rattle.std.specs.Prelude.{◌≡◌};

    type Tag = Name;

    ghost fits = { λ tag state. state.name ≡ tag };
}

impl<R: Wait + Drop> Core for State<R> {
    fn dissolve(self, last: Last) {
        last.end();
        let State {
            interest: _,
            readiness: _,
            waker: _,
            refusal: _,
            marked: _,
            dropped: _,
            leaving: _,
            home: _,
            name: _,
        } = self;
    }
}

// True if the readiness found answers a wait for this interest.
fn suits(wanted: Interest, found: Readiness) -> bool
    ensures { result ≡ suits wanted found }
{
    wanted.readable && found.readable || wanted.writable && found.writable || found.error
}

fn not_there() -> io::Error {
    io::Error::from(io::ErrorKind::NotFound)
}

impl PollRight {
    /// Makes the tally, which did nothing yet.
    pub(crate) fn into_tally(self) -> PollTally
        ensures { result ≡ record { name = self.name; notes = [] } }
    {
        let PollRight { name } = self;
        PollTally {
            name,
            notes: Notes::none(),
        }
    }
}

impl SlotRight {
    /// Makes the tally, which did nothing yet.
    pub(crate) fn into_tally(self) -> SlotTally
        ensures { result ≡ record { name = self.name; notes = [] } }
    {
        let SlotRight { name } = self;
        SlotTally {
            name,
            notes: Notes::none(),
        }
    }
}

impl PollTally {
    /// Reads the socket, if it is there, and notes the answer.
    pub(crate) fn try_read<Io: Read>(
        &mut self,
        io: &mut Option<Io>,
        buf: &mut [u8],
    ) -> io::Result<usize>
        ensures bound { ReadsAtMost result buf.new }
        ensures tally { self.new ≡ with_poll_note (Tried result) self.old }
    {
        let answer = match io {
            Some(io) => io.read(buf),
            None => Err(not_there()),
        };
        self.notes = self.notes.and(LentPollNote::Tried(&answer));
        answer
    }

    /// Writes to the socket, if it is there, and notes the answer.
    pub(crate) fn try_write<Io: Write>(
        &mut self,
        io: &mut Option<Io>,
        buf: &[u8],
    ) -> io::Result<usize>
        ensures bound { WritesAtMost result buf.now }
        ensures tally { self.new ≡ with_poll_note (Tried result) self.old }
    {
        let answer = match io {
            Some(io) => io.write(buf),
            None => Err(not_there()),
        };
        self.notes = self.notes.and(LentPollNote::Tried(&answer));
        answer
    }

    /// Flushes the socket, if it is there, and notes the answer.
    pub(crate) fn try_flush<Io: Write>(&mut self, io: &mut Option<Io>) -> io::Result<()>
        ensures tally { self.new ≡ with_poll_note (Flushed result) self.old }
    {
        let answer = match io {
            Some(io) => io.flush(),
            None => Err(not_there()),
        };
        self.notes = self.notes.and(LentPollNote::Flushed(&answer));
        answer
    }
}

impl SlotTally {
    /// Notes if the socket is there.
    pub(crate) fn reach<Io>(&mut self, io: &Option<Io>)
        ensures { self.new ≡ with_slot_note (Reached (is_some io.now)) self.old }
    {
        self.notes = self.notes.and(LentSlotNote::Reached(io.is_some()));
    }
}

impl<R: Wait + Drop> State<R> {
    /// Makes the state of an adapter that is in no loop yet, its name, and the rights of its ends.
    pub(crate) fn new() -> (State<R>, Name, PollRight, SlotRight)
        ensures state { result.0 ≡ fresh_state result.1 }
        ensures poll { result.2.name ≡ result.1 }
        ensures slot { result.3.name ≡ result.1 }
    {
        let name = Name::fresh();
        let state = State {
            interest: None,
            readiness: Readiness::EMPTY,
            waker: None,
            refusal: None,
            marked: false,
            dropped: false,
            leaving: false,
            home: None,
            name: name.again(),
        };
        let poll = PollRight { name: name.again() };
        let slot = SlotRight { name: name.again() };
        (state, name, poll, slot)
    }

    /// Takes the kept refusal, once.
    pub(crate) fn take_refusal(&mut self, tally: &mut PollTally) -> Option<Error>
        requires { tally.old.name ≡ self.old.name }
        ensures gives { result ≡ option_map error_of self.old.refusal }
        ensures state { self.new ≡ record self.old { refusal = None } }
        ensures refused { IfSome result (λ e. of_registration e ≡ true) }
        ensures tally { tally.new ≡ with_poll_note (Refused result) tally.old }
    {
        let error = match self.refusal.take() {
            Some(refusal) => Some(refusal.into_error()),
            None => None,
        };
        tally.notes = tally.notes.and(LentPollNote::Refused(&error));
        error
    }

    // The answer to a poll that waits for this interest.
    fn answer_to(&mut self, wanted: Interest) -> Option<LoopResult<()>>
        ensures answer { result ≡ answer_of self.old.refusal wanted self.old.readiness }
        ensures refused { IfSome result IsAnswer }
        ensures state { self.new ≡ after_answer self.old }
    {
        if let Some(refusal) = self.refusal.take() {
            return Some(Err(refusal.into_error()));
        }
        let found = mem::replace(&mut self.readiness, Readiness::EMPTY);
        if suits(wanted, found) {
            Some(Ok(()))
        } else {
            None
        }
    }

    /// The answer to a poll that waits for this interest, once: a kept refusal first, and then the readiness found.
    pub(crate) fn answer(
        &mut self,
        tally: &mut PollTally,
        wanted: Interest,
    ) -> Option<LoopResult<()>>
        requires { tally.old.name ≡ self.old.name }
        ensures answer { result ≡ answer_of self.old.refusal wanted self.old.readiness }
        ensures refused { IfSome result IsAnswer }
        ensures state { self.new ≡ after_answer self.old }
        ensures some { IfSome result (λ a. tally.new ≡ with_poll_note (Answered a) tally.old) }
        ensures none { IfNone result (tally.new ≡ tally.old) }
    {
        let answer = self.answer_to(wanted)?;
        tally.notes = tally.notes.and(LentPollNote::Answered(&answer));
        Some(answer)
    }

    // Sets the mark and returns the debt to post it, if the adapter is in a loop and isn't marked yet.
    fn mark<S: Wait>(&mut self, rt: &S) -> Option<MarkDebt>
        ensures owes { is_some result ≡ (is_some self.old.home && not self.old.marked) }
        ensures state { self.new
            ≡ record self.old { marked = self.old.marked || is_some self.old.home } }
    {
        let home = self.home.as_ref()?;
        if self.marked {
            return None;
        }
        let debt = MarkDebt {
            home: Home {
                hub: share(rt, &home.hub),
                token: home.token,
            },
        };
        self.marked = true;
        Some(debt)
    }

    /// Lets a poll wait for this interest.
    pub(crate) fn wait(
        &mut self,
        rt: &R,
        tally: &mut PollTally,
        wanted: Interest,
        waker: Waker<R>,
    ) -> Waiting<R>
        requires { tally.old.name ≡ self.old.name }
        ensures older { result.older ≡ self.old.waker }
        ensures owes { is_some result.debt ≡ (is_some self.old.home && not self.old.marked) }
        ensures state { self.new ≡ after_wait wanted waker self.old }
        ensures tally { tally.new ≡ with_poll_note (Waits wanted) tally.old }
    {
        tally.notes = tally.notes.and(LentPollNote::Waits(wanted));
        self.interest = Some(wanted);
        let older = mem::replace(&mut self.waker, Some(waker));
        let debt = self.mark(rt);
        Waiting { older, debt }
    }

    /// Takes the mark back, since there was no memory for it.
    pub(crate) fn unmark(&mut self, failed: NotMarked) -> AllocError
        ensures { self.new ≡ record self.old { marked = false } }
    {
        let NotMarked { of_state: _ } = failed;
        self.marked = false;
        AllocError
    }

    /// The adapter's registration, if it is in a loop.
    pub(crate) fn registration(&self) -> Option<RegistrationToken>
        ensures { is_some result ≡ is_some self.now.home }
    {
        match &self.home {
            Some(home) => Some(home.token),
            None => None,
        }
    }

    /// Enters a loop, which takes up what was asked of the adapter until then.
    pub(crate) fn come_into(&mut self, rt: &R, tally: &SlotTally, home: Home) -> Option<MarkDebt>
        requires { tally.now.name ≡ self.old.name }
        ensures owes { is_some result ≡ true }
        ensures state { self.new ≡ after_coming home self.old }
    {
        let _ = tally;
        self.home = Some(home);
        self.marked = false;
        self.mark(rt)
    }

    /// Leaves its loop.
    pub(crate) fn leave(&mut self, tally: &SlotTally)
        requires { tally.now.name ≡ self.old.name }
        ensures { self.new ≡ record self.old { home = None; marked = false } }
    {
        let _ = tally;
        self.home = None;
        self.marked = false;
    }

    /// Returns what the loop is to do with the adapter, which was taken from the marks.
    pub(crate) fn settle(&mut self, tally: &mut SlotTally) -> Settled
        requires { tally.old.name ≡ self.old.name }
        ensures settled { result ≡ settled_by self.old.marked self.old.dropped self.old.interest }
        ensures state { self.new ≡ record self.old { marked = false } }
        ensures tally { tally.new ≡ with_slot_note (SettledSo result) tally.old }
    {
        let settled = self.to_settle();
        self.marked = false;
        tally.notes = tally.notes.and(LentSlotNote::Settled(settled));
        settled
    }

    fn to_settle(&self) -> Settled
        ensures { result ≡ settled_by self.now.marked self.now.dropped self.now.interest }
    {
        if !self.marked {
            return Settled::Stays;
        }
        if self.dropped {
            return Settled::Leaves;
        }
        match self.interest {
            Some(interest) => Settled::Registers(interest),
            None => Settled::Stays,
        }
    }

    /// Keeps the refusal of its registration. The waiting poll is to be woken.
    pub(crate) fn refuse(&mut self, tally: &mut SlotTally, refusal: Refusal) -> Waking<R>
        requires { tally.old.name ≡ self.old.name }
        ensures wakes { result.waker ≡ self.old.waker }
        ensures state { self.new
            ≡ record self.old { refusal = Some refusal; interest = None; waker = None } }
        ensures tally { tally.new ≡ with_slot_note (Kept refusal.error) tally.old }
    {
        tally.notes = tally.notes.and(LentSlotNote::Kept(refusal.error()));
        self.refusal = Some(refusal);
        self.interest = None;
        Waking {
            waker: self.waker.take(),
        }
    }

    /// Keeps what an event found. The waiting poll is to be woken.
    pub(crate) fn hear(&mut self, tally: &mut SlotTally, found: Readiness) -> Waking<R>
        requires { tally.old.name ≡ self.old.name }
        ensures wakes { result.waker ≡ self.old.waker }
        ensures state { self.new
            ≡ record self.old { readiness = found; interest = None; waker = None } }
        ensures tally { tally.new ≡ with_slot_note (Heard found) tally.old }
    {
        tally.notes = tally.notes.and(LentSlotNote::Heard(found));
        self.readiness = found;
        self.interest = None;
        Waking {
            waker: self.waker.take(),
        }
    }

    /// Sets that the adapter is being given back, or isn't any more since that failed.
    pub(crate) fn set_leaving(&mut self, tally: &PollTally, leaving: bool)
        requires { tally.now.name ≡ self.old.name }
        ensures { self.new ≡ record self.old { leaving = leaving } }
    {
        let _ = tally;
        self.leaving = leaving;
    }

    /// True if the adapter is being given back.
    pub(crate) fn is_leaving(&self, tally: &mut SlotTally) -> bool
        requires { tally.old.name ≡ self.now.name }
        ensures answer { result ≡ self.now.leaving }
        ensures tally { tally.new ≡ with_slot_note (Asked result) tally.old }
    {
        let leaving = self.leaving;
        tally.notes = tally.notes.and(LentSlotNote::Asked(leaving));
        leaving
    }

    /// Notes that its other end is gone, and spends that end's tally.
    pub(crate) fn let_go(&mut self, rt: &R, tally: PollTally) -> Option<MarkDebt>
        requires { tally.name ≡ self.old.name }
        ensures owes { is_some result ≡ (is_some self.old.home && not self.old.marked) }
        ensures state { self.new ≡ after_drop self.old }
    {
        let PollTally { name: _, notes: _ } = tally;
        self.dropped = true;
        self.mark(rt)
    }
}
