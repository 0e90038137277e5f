//! Lends the content of a lock to its holder. It is a file of its own, since its contract names a field of `Held`.
ghost use Rattle.std.specs.Prelude.{◌≡◌, ◌∷◌, []};
ghost use Rattle.std.specs.Borrow.{sem, follows};
ghost use mir.Syntax.{named};
ghost use Rattle.atomic_table.specs.Table.{rest};
ghost use Rattle.calloop_wake.specs.contracts.locked.Held.{the_row};
ghost use Rattle.calloop_wake.specs.Locks.{IsOut, OfContent};
ghost use Rattle.calloop_wake.specs.LockLendings.{held_with};

use super::{Core, Held};

impl<'a, X: Core> Held<'a, X> {
    /// The content, in place.
    pub fn core(&mut self) -> &mut X
        requires { (self.old.seat.table_id ≡ self.old.shared.now.table_id)
            × IsOut self.old.seat.me.1 }
        ensures* writes_back { sem 𝓛 (follows
            (the_row (record { mir = named 1; lft = [] })
            X.row X.Tag.row (record { hints = X.hints }) X.Fits)
            X.row self.entry.ghost_name result.ghost_name (held_with self.old)) }
        ensures value { self.old.seat.me.1 ≡ (0, result.now) ∷ rest self.old.seat.me.1 }
        ensures fits { OfContent (X.fits self.old.shared.now.key) self.old.seat.me.1
            → X.fits self.old.shared.now.key result.now }
    {
        let shared = self.shared;
        self.seat.slot_mut(shared, 0)
    }
}
