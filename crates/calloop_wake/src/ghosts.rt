//! Names, numbers and notes that only contracts see. They have no bytes.
ghost use Rattle.std.specs.Prelude.{◌≡◌, ◌+◌, ◌++◌, ◌∷◌, []};
ghost use Rattle.calloop_wake.specs.Cells.{one};

use logbook::{Opening, Rule, Seen, Start};
use std::marker::Model;

/// The rule of a book that keeps nothing.
pub struct Anything;

impl<E> Rule<E, u64> for Anything {
    ghost use Rattle.std.specs.Prelude.{[]};
    ghost use base.Fml.{ftrue};

    ghost holds = { λ cells log. Unit {0} };

    ghost first = { [] };

    ghost hinted = { λ n log. Unit {0} };

    ghost shows = { λ log. [] };

    ghost keeps = { λ names log. ftrue };

    ghost moves = { λ ask before after answer. Unit {0} };
}

/// The name of one cell, one board or one loop's signal. Each fresh name is that of a new book.
#[derive(Drop)]
pub struct Name {
    seen: Seen<u64, u64, Anything>,
}

impl Model for Name {
    ghost use Rattle.logbook.specs.Pages.{Book};

    ghost Value = { Book };

    ghost view = { λ n. n.seen.book };
}

impl Name {
    /// A fresh name. Its contract says nothing of it, so nobody can show that it is another's.
    pub fn fresh() -> Name {
        let (seen, ..) = Seen::open(Start::alone(), 0, 0);
        Name { seen }
    }

    /// The same name again.
    pub fn again(&self) -> Name
        ensures { result ≡ self.now }
    {
        let seen = self.seen.again();
        Name { seen }
    }
}

/// A number without bound.
#[derive(Drop)]
pub struct Count {
    seen: Seen<u64, u64, Anything>,
}

impl Model for Count {
    ghost use Rattle.std.specs.Prelude.{ℕ, length};

    ghost Value = { ℕ };

    ghost view = { λ c. length c.seen.log };
}

// Adds 1.
struct Next;

impl Opening<Count, u64> for Next {
    ghost use Rattle.std.specs.Prelude.{◌+◌, replicate};

    ghost log = { λ words count. replicate (count + 1) 0 };
}

impl Count {
    /// 0.
    pub fn zero() -> Count
        ensures { result ≡ 0 }
    {
        let (seen, _first, _second) = Seen::open(Start::alone(), 0, 0);
        Count { seen }
    }

    /// Adds 1.
    pub fn next(&self) -> Count
        ensures { result ≡ self.now + 1 }
    {
        let (seen, _pens) = Seen::open_row::<Count, Next>(self, Start::alone(), 0);
        Count { seen }
    }

    /// Adds 1 if this holds.
    pub fn and_one_if(&self, holds: bool) -> Count
        ensures { result ≡ self.now + one holds }
    {
        if holds { self.next() } else { self.again() }
    }

    /// The same number again.
    pub fn again(&self) -> Count
        ensures { result ≡ self.now }
    {
        Count {
            seen: self.seen.again(),
        }
    }
}

/// A note whose values are lent, since not all of them can be cloned.
pub trait LentNote<N> {
    /// The note that it stands for.
    ghost note: { Self → N };
}

/// Notes in order, the last one at the end.
#[derive(Drop)]
pub struct Notes<N> {
    seen: Seen<N, u64, Anything>,
}

impl<N> Model for Notes<N> {
    ghost use Rattle.std.specs.Prelude.{List};

    ghost Value = { List N };

    ghost view = { λ n. n.seen.log };
}

// No note.
struct NoNote;

impl<N> Opening<(), N> for NoNote {
    ghost use Rattle.std.specs.Prelude.{[]};

    ghost log = { λ words x. [] };
}

// Another note.
struct AndNote;

impl<N, L: LentNote<N>> Opening<(&Notes<N>, L), N> for AndNote {
    ghost use Rattle.std.specs.Prelude.{◌++◌, ◌∷◌, []};

    ghost log = { λ words x. x.0.now ++ L.note x.1 ∷ [] };
}

impl<N> Notes<N> {
    /// No note.
    pub fn none() -> Notes<N>
        ensures { result ≡ [] }
    {
        let (seen, _pens) = Seen::open_row::<(), NoNote>(&(), Start::alone(), 0);
        Notes { seen }
    }

    /// These notes, with another one behind them.
    pub fn and<L: LentNote<N> + Copy>(&self, note: L) -> Notes<N>
        ensures { result ≡ self.now ++ L.note note ∷ [] }
    {
        let about = (self, note);
        let (seen, _pens) = Seen::open_row::<(&Notes<N>, L), AndNote>(&about, Start::alone(), 0);
        Notes { seen }
    }
}
