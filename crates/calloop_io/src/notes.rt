//! Notes of what each end of an adapter did, which only contracts see. They have no bytes.
use calloop_poll::sys::{Interest, Readiness};
use calloop_slots::error::{Error, Result as LoopResult};
use calloop_wake::ghosts::LentNote;
use std::io;

/// What the loop is to do with an adapter.
#[derive(Clone, Copy, Debug, PartialEq, Eq)]
pub enum Settled {
    Stays,
    Registers(Interest),
    Leaves,
}

/// An action of an `Async`.
#[derive(Drop)]
pub enum PollNote {
    /// A wait was answered so: by a kept refusal, or by what an event found.
    Answered(LoopResult<()>),
    /// A kept refusal was taken: this one, or `None` if none was kept.
    Refused(Option<Error>),
    /// A poll waits for this, and the adapter is marked, if it is in a loop and there is memory for the mark.
    Waits(Interest),
    /// Its socket was read or written, with this answer.
    Tried(io::Result<usize>),
    /// Its socket was flushed, with this answer.
    Flushed(io::Result<()>),
}

/// An action of the end in a slot.
#[derive(Drop)]
pub enum SlotNote {
    /// An event was kept, and the waiting poll was woken.
    Heard(Readiness),
    /// It told the loop what to do with the adapter, which was marked.
    Settled(Settled),
    /// A registration failed so, and the waiting poll was woken.
    Kept(Error),
    /// It was asked if the adapter is being given back, and answered this.
    Asked(bool),
    /// It looked for its socket, to register it: true if the socket was there.
    Reached(bool),
}

/// A note of an `Async`, lent.
#[derive(Clone, Copy)]
pub(super) enum LentPollNote<'a> {
    Answered(&'a LoopResult<()>),
    Refused(&'a Option<Error>),
    Waits(Interest),
    Tried(&'a io::Result<usize>),
    Flushed(&'a io::Result<()>),
}

impl LentNote<PollNote> for LentPollNote<'_> {
    ghost use Rattle.calloop_io.specs.AdapterNotes.{poll_note_of};

    ghost note = { poll_note_of };
}

/// A note of the end in a slot, lent.
#[derive(Clone, Copy)]
pub(super) enum LentSlotNote<'a> {
    Heard(Readiness),
    Settled(Settled),
    Kept(&'a Error),
    Asked(bool),
    Reached(bool),
}

impl LentNote<SlotNote> for LentSlotNote<'_> {
    ghost use Rattle.calloop_io.specs.AdapterNotes.{slot_note_of};

    ghost note = { slot_note_of };
}
