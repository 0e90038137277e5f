//! What a loop did with the stop of its signals, as contracts alone see it. It has no bytes.
ghost use Rattle.std.specs.Prelude.{◌≡◌, ◌++◌, ◌∷◌, []};

use calloop_wake::ghosts::Anything;
use logbook::{Opening, Seen, Start};
use std::marker::Model;

/// What a loop did with the stop of its signals.
#[derive(Clone, Copy)]
pub enum StopNote {
    /// The loop forgot an earlier stop.
    Forgot,
    /// The loop looked for a stop: true if it was stopped.
    Looked(bool),
}

/// Notes in order, the last one at the end.
#[derive(Drop)]
pub(super) struct StopNotes {
    seen: Seen<StopNote, u64, Anything>,
}

impl Model for StopNotes {
    ghost use Rattle.std.specs.Prelude.{List};
    ghost use Rattle.calloop_loop.specs.declared.stops.StopNote.{StopNote};

    ghost Value = { List StopNote };

    ghost view = { λ n. n.seen.log };
}

// No note.
struct Nothing;

impl Opening<(), StopNote> for Nothing {
    ghost use Rattle.std.specs.Prelude.{[]};

    ghost log = { λ words x. [] };
}

// Notes, and one to be put behind them.
#[derive(Clone, Copy)]
struct WithNote<'a> {
    notes: &'a StopNotes,
    note: StopNote,
}

// Another note.
struct AndNote;

impl Opening<WithNote<'_>, StopNote> for AndNote {
    ghost use Rattle.std.specs.Prelude.{◌++◌, ◌∷◌, []};

    ghost log = { λ words x. x.notes.now ++ x.note ∷ [] };
}

impl StopNotes {
    // No notes.
    pub(super) fn none() -> StopNotes
        ensures { result ≡ [] }
    {
        let (seen, _pens) = Seen::open_row::<(), Nothing>(&(), Start::alone(), 0);
        StopNotes { seen }
    }

    // Puts this note behind the others.
    pub(super) fn note(&mut self, note: StopNote)
        ensures { self.new ≡ self.old ++ note ∷ [] }
    {
        let about = WithNote { notes: self, note };
        let (seen, _pens) = Seen::open_row::<WithNote<'_>, AndNote>(&about, Start::alone(), 0);
        *self = StopNotes { seen };
    }
}
