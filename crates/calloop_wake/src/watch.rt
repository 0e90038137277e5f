//! The watch of a board, which notes each look at the board and each taking of its keys.
ghost use Rattle.std.specs.Prelude.{◌≡◌};
ghost use Rattle.calloop_wake.specs.Watches.{with_note};
ghost use Rattle.calloop_wake.specs.declared.notes.Note.TheVariants.{Counted};

use super::ghosts::{Name, Notes};
use super::notes::{LentBoardNote, Note};

/// The loop's end of the board of this name: the notes of what was done to the board for it, in order. One is made with each
/// board, and it can't be cloned.
#[derive(Drop)]
pub struct Watch {
    pub(crate) name: Name,
    pub(crate) notes: Notes<Note>,
}

impl Watch {
    /// Notes how many places were open when they were counted.
    pub fn note_count(&mut self, places: OpenPlaces)
        requires { places.name ≡ self.old.name }
        ensures { self.new ≡ with_note (Counted places.number) self.old }
    {
        self.notes = self.notes.and(LentBoardNote::Counted(places.number));
    }
}

/// How many places of the board of this name were open when they were counted. Only the board makes one.
#[derive(Drop)]
pub struct OpenPlaces {
    pub(crate) number: usize,
    pub(crate) name: Name,
}

impl OpenPlaces {
    /// The number of places.
    pub fn number(&self) -> usize
        ensures { result ≡ self.now.number }
    {
        self.number
    }
}
