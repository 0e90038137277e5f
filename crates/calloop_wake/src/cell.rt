//! The operations of every kind of cell.
ghost use Rattle.std.specs.Prelude.{◌≡◌, Option, None, Some, IfOk, IfSome};
ghost use Rattle.calloop_wake.specs.Cells.{fresh_tally};
ghost use Rattle.logbook.specs.Pages.{Book};
ghost use Rattle.calloop_wake.specs.Passes.{Keyed};

use super::locked::Core;
use super::{ClosePermit, Debt, OpenedPass, ReceivingRight, Sender, Tally};
use std::alloc::AllocError;

/// The core of a cell: its senders, its receiving end, and the key by which its loop knows it. Each kind of cell has further
/// steps of its own.
pub trait CellCore: Core {
    /// The name of the cell.
    ghost name_of: { Self → Book };

    /// Its key, with the board on which the key has its place.
    ghost place_of: { Self → Option Keyed };

    /// The name that a tag has.
    ghost named_by: { Self.Tag → Book };

    /// The receiving end, before it has set a key or opened a turn.
    fn receiver(&self, right: ReceivingRight) -> Tally
        requires { right.name ≡ name_of self.now }
        ensures { result ≡ fresh_tally (name_of self.now) };

    /// Adds a sender. Fails, and changes nothing, exactly if there are 2^64 - 1.
    fn add_sender(&mut self) -> Result<Sender, AllocError>
        ensures fits { (tag : Self.Tag) → Self.fits tag self.old → Self.fits tag self.new }
        ensures place { place_of self.new ≡ place_of self.old }
        ensures ok { IfOk result (λ sender. sender.name ≡ name_of self.old) };

    /// Removes a sender. Returns the debt of that to the board: the last sender of a ping or of a channel closes it.
    fn drop_sender(&mut self, sender: Sender) -> Option<Debt>
        requires { sender.name ≡ name_of self.old }
        ensures fits { (tag : Self.Tag) → Self.fits tag self.old → Self.fits tag self.new }
        ensures place { place_of self.new ≡ place_of self.old }
        ensures owes { IfSome result (λ debt. place_of self.old ≡ Some debt) };

    /// Sets the cell's key to that of an opened place, as calloop registers the descriptor under a token. Returns the debt under
    /// the new key, and then the permit to close the place of the key before.
    fn set_key(
        &mut self,
        pass: OpenedPass,
        tally: &mut Tally,
    ) -> (Option<Debt>, Option<ClosePermit>)
        requires { tally.old.name ≡ name_of self.old }
        ensures tally { tally.new ≡ record tally.old { key = Some pass.key } }
        ensures fits { (tag : Self.Tag) → Self.fits tag self.old → Self.fits tag self.new }
        ensures place { place_of self.new ≡ Some pass }
        ensures owes { IfSome result.0 (λ debt. debt ≡ pass) }
        ensures permit { result.1 ≡ place_of self.old };

    /// Takes the cell's key back, as calloop takes the descriptor out of the poller. What is due stays due. Returns the permit to
    /// close the place of the key, if the cell had one.
    fn clear_key(&mut self, tally: &mut Tally) -> Option<ClosePermit>
        requires { tally.old.name ≡ name_of self.old }
        ensures tally { tally.new ≡ record tally.old { key = None } }
        ensures fits { (tag : Self.Tag) → Self.fits tag self.old → Self.fits tag self.new }
        ensures place { place_of self.new ≡ None }
        ensures permit { result ≡ place_of self.old };

    /// Drops the receiving end: takes the key back, and nobody will take what is due.
    fn abandon(&mut self, tally: Tally) -> Option<ClosePermit>
        requires { tally.name ≡ name_of self.old }
        ensures fits { (tag : Self.Tag) → Self.fits tag self.old → Self.fits tag self.new }
        ensures place { place_of self.new ≡ None }
        ensures permit { result ≡ place_of self.old };

    ghost is_named: { (tag : Self.Tag) (core : Self) → Self.Core.fits tag core → name_of core ≡ named_by tag };
}
