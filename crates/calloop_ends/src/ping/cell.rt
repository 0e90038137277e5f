//! The sections of the lock of a ping's cell that no other kind of cell has.
ghost use Rattle.std.specs.Prelude.{◌≡◌, None, Some, IfOk, IfErr};
ghost use Rattle.calloop_slots.specs.declared.error.Error.TheVariants.{OutOfMemory};
ghost use Rattle.calloop_ends.specs.ping.Pings.{tally_opened};

use crate::cell::{Cell, ReceivingEnd, SendingEnd, post};
use calloop_slots::error::Result as LoopResult;
use calloop_wake::locked::Locked;
use calloop_wake::ping::{OpenedTurn, PingCore};
use calloop_wake::{Receipt, ReceivingRight, TakenPass};
use std::alloc::Global;
use std::sync::Wait;

/// What the ends of a ping share.
pub type PingCell = Cell<PingCore>;

/// Makes a cell to which nothing has happened yet, under its lock, and the right to its receiving end.
pub fn new_locked(alloc: Global) -> LoopResult<(Locked<PingCell>, ReceivingRight)>
    ensures right { IfOk result (λ made. made.1.name ≡ made.0.tag) }
    ensures err { IfErr result (λ e. e ≡ OutOfMemory) }
{
    let (core, name, right) = PingCore::new();
    Ok((Cell::new_locked(alloc, core, &name)?, right))
}

impl<R: Wait + Drop> SendingEnd<PingCore, R> {
    /// Rings the cell.
    pub(crate) fn ring(&self) -> Receipt
        ensures { result.name ≡ self.now }
    {
        let mut held = self.shared.lock(&self.rt);
        let cell = held.core();
        let (receipt, debt) = cell.core.ring();
        let owed = cell.with_hub(&self.rt, debt);
        held.unlock();
        post(&self.rt, owed);
        receipt
    }
}

/// The events that a turn of the cell consumed.
#[derive(Clone, Copy, Debug, PartialEq, Eq)]
pub struct Due {
    /// Somebody rang since the last turn.
    pub rung: bool,
    /// The last sender is gone, and no turn told it before.
    pub told: bool,
}

impl<R: Wait + Drop> ReceivingEnd<PingCore, R> {
    /// A turn of the cell: opened with the pass, and ended. The pass comes back as refused if it opens none.
    pub(crate) fn take_turn(&mut self, pass: TakenPass) -> Result<Due, TakenPass>
        ensures tag { self.new.tag ≡ self.old.tag }
        ensures ok { IfOk result
            (λ due. self.new.tally ≡ tally_opened due.rung due.told self.old.tally) }
        ensures err { IfErr result
            (λ refused. (refused ≡ record pass { refused = Some self.old.tally.name })
            × (self.new.tally ≡ self.old.tally)) }
    {
        let mut held = self.shared.lock(&self.rt);
        let cell = held.core();
        let (taken, debt) = match cell.core.open_turn(pass, &mut self.tally) {
            Ok(OpenedTurn { turn, rung, told }) => {
                (Ok(Due { rung, told }), cell.core.end_turn(turn))
            }
            Err(pass) => (Err(pass), None),
        };
        let owed = cell.with_hub(&self.rt, debt);
        held.unlock();
        post(&self.rt, owed);
        taken
    }
}
