//! Notes of what was done to a board for its loop, which only contracts see. They have no bytes.
use super::board::Board;
use super::ghosts::{Anything, LentNote};
use calloop_slots::token::RegistrationToken;
use logbook::Seen;
use std::marker::Model;

/// Keys of a board.
#[derive(Drop)]
pub struct Keys {
    seen: Seen<u64, u64, Anything>,
}

impl Model for Keys {
    ghost use Rattle.std.specs.Prelude.{ℕ, List};

    ghost Value = { List ℕ };

    ghost view = { λ k. k.seen.log };
}

/// Registrations.
#[derive(Drop)]
pub struct Registrations {
    seen: Seen<RegistrationToken, u64, Anything>,
}

impl Model for Registrations {
    ghost use Rattle.std.specs.Prelude.{List};
    ghost use Rattle.calloop_slots.specs.declared.token.RegistrationToken.{RegistrationToken};

    ghost Value = { List RegistrationToken };

    ghost view = { λ r. r.seen.log };
}

/// Something that was done to a board for its loop.
#[derive(Drop)]
pub enum Note {
    /// Its open places were counted: their number.
    Counted(usize),
    /// It was looked at: true if a key was posted.
    Looked(bool),
    /// Posted keys were taken, with room for so many: these.
    Unposted(usize, Keys),
    /// The marks were taken: these, in the order in which they were set.
    Marked(Registrations),
}

/// Something that was done to a board, lent.
#[derive(Clone, Copy)]
pub(crate) enum LentBoardNote<'a> {
    Counted(usize),
    Looked(&'a Board),
    Unposted(usize, &'a Board),
    Marked(&'a [RegistrationToken]),
}

impl LentNote<Note> for LentBoardNote<'_> {
    ghost use Rattle.calloop_wake.specs.BoardNotes.{note_of};

    ghost note = { note_of };
}
