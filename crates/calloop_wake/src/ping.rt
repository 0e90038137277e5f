//! The cell of a ping, shared by its ends.
ghost use Rattle.std.specs.Prelude.{◌≡◌, ◌+◌, ◌<◌, ◌^◌, ◌&&◌, not, true, false, None, Some, IfOk, IfErr};
ghost use Rattle.calloop_wake.specs.Cells.{fresh, one, opens, IsLit, IsStanding, IsTold, IsSince, debt_of, owed_at, owed_by_drop, after_add_sender, after_drop_sender, after_clear_key, after_end_turn, in_turn, core_with, core_after_set_key, core_after_ring, core_after_open_turn, tally_after_open_turn, receipt_of, turn_of};
ghost use Rattle.calloop_wake.specs.Passes.{on};

use super::bell::Bell;
use super::cell::CellCore;
use super::ghosts::{Count, Name};
use super::locked::Core;
use super::{
    ClosePermit, Debt, Last, OpenedPass, PingTurn, Receipt, ReceivingRight, Sender, TakenPass,
    Tally,
};
use counted_slot::Fits;
use std::alloc::AllocError;
use std::marker::Model;

/// The state that the ends of a ping share. Calloop has the state of an eventfd or a pipe here.
///
/// What is due, a ring or a close that no turn has told, is pinged: its key is posted, owed or taken, or the cell has none yet.
/// Has no `Drop`: the lock around a cell ends it at its last drop.
pub struct PingCore {
    bell: Bell,
    rung: bool,
    rings: Count,
    seen: Count,
    taken: Count,
}

impl Model for PingCore {
    ghost use Rattle.std.specs.Prelude.{◌≡◌, ◌<◌, true, false, ◌≤◌, ◌+◌};
    ghost use Rattle.calloop_wake.specs.Cells.{CoreView, IsLit, one};

    ghost Value = { CoreView };

    ghost view = { λ c. record {
      cell = record c.bell.cell { rung = c.rung };
      name = c.bell.name;
      board = c.bell.board;
      rings = c.rings;
      seen = c.seen;
      taken = c.taken;
    } };

    ghost invariant = { λ c.
        IsLit (record c.bell.cell { rung = c.rung })
        × (c.bell.cell.told ≡ true → c.bell.cell.closed ≡ true)
        × (c.rung ≡ true → c.seen < c.rings)
        × (c.rung ≡ false → c.seen ≡ c.rings)
        × (c.taken + one c.rung ≤ c.rings) };
}

impl Fits for PingCore {
    ghost use Rattle.std.specs.Prelude.{◌≡◌};

    type Tag = Name;

    ghost fits = { λ tag core. core.name ≡ tag };
}

impl Core for PingCore {
    fn dissolve(self, last: Last) {
        let Last { of_wake: _ } = last;
        let PingCore {
            bell,
            rung: _,
            rings: _,
            seen: _,
            taken: _,
        } = self;
        bell.dissolve();
    }
}

/// A turn that was opened.
pub struct OpenedTurn {
    /// The turn to end.
    pub turn: PingTurn,
    /// The ping was rung since the last turn was opened.
    pub rung: bool,
    /// The last sender is gone, and no turn has told it before.
    pub told: bool,
}

impl PingCore {
    /// A cell that wasn't rung, without a key and without senders, its name, and the right to its receiving end.
    pub fn new() -> (PingCore, Name, ReceivingRight)
        ensures core { result.0 ≡ record
            { cell = fresh; name = result.1; board = result.1; rings = 0; seen = 0; taken = 0 } }
        ensures right { result.2.name ≡ result.1 }
    {
        let (bell, name) = Bell::new();
        let core = PingCore {
            bell,
            rung: false,
            rings: Count::zero(),
            seen: Count::zero(),
            taken: Count::zero(),
        };
        let right = ReceivingRight { name: name.again() };
        (core, name, right)
    }

    /// Shows that no ring and no close is lost: what is due is pinged, or a turn is open. A ring is pending exactly if there was
    /// one since the last turn was opened; the rings that turns took, and the pending one, are at most all rings.
    pub fn stands(&self)
        ensures lit { IsLit self.now.cell }
        ensures standing { IsStanding self.now.cell }
        ensures told { IsTold self.now.cell }
        ensures since { IsSince self.now }
    {
        let _ = &self.rung;
    }

    /// Rings. Returns the receipt, and a debt if the cell has a key and wasn't pinged. Calloop writes to the descriptor.
    pub fn ring(&mut self) -> (Receipt, Option<Debt>)
        ensures core { self.new ≡ core_after_ring self.old }
        ensures receipt { result.0 ≡ receipt_of self.old }
        ensures gives { result.1 ≡ on self.old.board (debt_of self.old.cell) }
    {
        let receipt = Receipt {
            name: self.bell.name(),
            number: self.rings.again(),
        };
        self.rung = true;
        self.rings = self.rings.next();
        (receipt, self.bell.ping())
    }

    /// Opens a turn with a pass of the cell's own key, and takes what is due; the tally counts it.
    ///
    /// Refuses a pass of another key, and any pass while a turn is open: the pass comes back marked as refused by this cell, and
    /// the cell is unchanged.
    pub fn open_turn(&mut self, pass: TakenPass, tally: &mut Tally) -> Result<OpenedTurn, TakenPass>
        requires { tally.old.name ≡ self.old.name }
        ensures core { self.new ≡ core_after_open_turn pass.key self.old }
        ensures tally { tally.new ≡ tally_after_open_turn pass.key self.old tally.old }
        ensures gives { result ≡ turn_of pass self.old }
    {
        let TakenPass {
            key,
            board,
            refused: _,
        } = pass;
        if !self.bell.opens(key) {
            let refused = Some(self.bell.name());
            return Err(TakenPass {
                key,
                board,
                refused,
            });
        }
        Ok(self.begin_turn(tally))
    }

    // Nothing is due any more; the tally counts the turn, a ring that it takes and a close that it tells.
    fn begin_turn(&mut self, tally: &mut Tally) -> OpenedTurn
        ensures core { self.new ≡ record self.old {
          cell = in_turn self.old.cell;
          seen = self.old.rings;
          taken = self.old.taken + one self.old.cell.rung;
        } }
        ensures tally { tally.new ≡ record tally.old {
          turns = tally.old.turns + 1;
          number = tally.old.number + one self.old.cell.rung;
          closes = tally.old.closes + one (self.old.cell.closed && not self.old.cell.told);
        } }
        ensures turn { result ≡ record {
          turn = record { name = self.old.name };
          rung = self.old.cell.rung;
          told = self.old.cell.closed && not self.old.cell.told;
        } }
    {
        let rung = self.rung;
        let turn = PingTurn {
            name: self.bell.name(),
        };
        self.bell.open();
        let told = self.bell.tell_close();
        self.rung = false;
        self.seen = self.rings.again();
        self.taken = self.taken.and_one_if(rung);
        tally.turns = tally.turns.next();
        tally.number = tally.number.and_one_if(rung);
        tally.closes = tally.closes.and_one_if(told);
        OpenedTurn { turn, rung, told }
    }

    /// Ends the turn, which has to be one of this cell. A ping owes nothing then.
    pub fn end_turn(&mut self, turn: PingTurn) -> Option<Debt>
        requires { turn.name ≡ self.old.name }
        ensures core { self.new ≡ core_with (after_end_turn self.old.cell) self.old }
        ensures gives { result ≡ None }
    {
        let PingTurn { name: _ } = turn;
        self.bell.end(false)
    }
}

impl CellCore for PingCore {
    ghost use Rattle.calloop_wake.specs.Passes.{on};

    ghost name_of = { λ c. c.name };

    ghost place_of = { λ c. on c.board c.cell.key };

    ghost named_by = { λ tag. tag };

    fn receiver(&self, right: ReceivingRight) -> Tally {
        self.bell.receiver(right)
    }

    fn add_sender(&mut self) -> Result<Sender, AllocError>
        ensures ok { IfOk result (λ sender. (sender.name ≡ self.old.name)
            × (self.new ≡ core_with (after_add_sender self.old.cell) self.old)) }
        ensures err { IfErr result (λ _. (self.old.cell.senders + 1 ≡ 2 ^ 64)
            × (self.new ≡ self.old)) }
    {
        self.bell.add_sender()
    }

    fn drop_sender(&mut self, sender: Sender) -> Option<Debt>
        requires { sender.name ≡ self.old.name }
        ensures core { self.new ≡ core_with (after_drop_sender self.old.cell) self.old }
        ensures gives { result ≡ on self.old.board (owed_by_drop self.old.cell) }
    {
        self.bell.drop_sender(sender)
    }

    fn set_key(
        &mut self,
        pass: OpenedPass,
        tally: &mut Tally,
    ) -> (Option<Debt>, Option<ClosePermit>)
        requires { tally.old.name ≡ self.old.name }
        ensures tally { tally.new ≡ record tally.old { key = Some pass.key } }
        ensures core { self.new ≡ core_after_set_key pass self.old }
        ensures owes { result.0 ≡ on pass.board (owed_at pass.key self.old.cell) }
        ensures permit { result.1 ≡ on self.old.board self.old.cell.key }
    {
        self.bell.set_key(pass, tally)
    }

    fn clear_key(&mut self, tally: &mut Tally) -> Option<ClosePermit>
        requires { tally.old.name ≡ self.old.name }
        ensures tally { tally.new ≡ record tally.old { key = None } }
        ensures core { self.new ≡ core_with (after_clear_key false self.old.cell) self.old }
        ensures permit { result ≡ on self.old.board self.old.cell.key }
    {
        self.bell.clear_key(tally)
    }

    fn abandon(&mut self, tally: Tally) -> Option<ClosePermit>
        requires { tally.name ≡ self.old.name }
        ensures core { self.new ≡ core_with (after_clear_key true self.old.cell) self.old }
        ensures permit { result ≡ on self.old.board self.old.cell.key }
    {
        self.bell.abandon(tally)
    }

    ghost is_named = { λ tag core fits. fits };
}
