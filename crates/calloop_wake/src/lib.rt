//! The wake machine: values that must be spent, the cells that the ends of a ping, of a channel or of an executor share, and the board
//! of the posted keys.
//!
//! In calloop the kernel does this work, through an eventfd or a pipe for each ping and the poller; a channel has a ping there.
//! Most types here have no `Drop`: their holder must hand them on or spend them (the compiler refuses to drop them). A receipt and the
//! right to a receiving end can be dropped.
#![tactic(auto)]

ghost use Rattle.std.specs.Prelude.{◌≡◌, ◌&&◌, not, nat_lt, is_some, None};
ghost use Rattle.calloop_wake.specs.Cells.{fresh_tally};
ghost use Rattle.calloop_wake.specs.Passes.{given_back};

use ghosts::{Count, Name};
use std::marker::Model;

pub(crate) mod bell;
pub mod board;
pub mod cell;
pub mod channel;
pub mod executor;
pub mod ghosts;
pub mod homes;
pub mod locked;
pub mod marking;
pub mod notes;
pub mod ping;
pub(crate) mod places;
pub(crate) mod queue;
pub(crate) mod sleepers;
pub mod tasks;
pub mod watch;

/// A key that must be posted on its board. Its holder owes the post.
#[must_use]
pub struct Debt {
    key: u64,
    // The board of the key.
    board: Name,
}

impl Model for Debt {
    ghost use Rattle.calloop_wake.specs.Passes.{Keyed};

    ghost Value = { Keyed };

    ghost view = { λ d. record { key = d.key; board = d.board } };
}

/// A key whose place was opened on its board, so that one cell can take it now.
#[must_use]
pub struct OpenedPass {
    key: u64,
    // The board of the key.
    board: Name,
}

impl Model for OpenedPass {
    ghost use Rattle.calloop_wake.specs.Passes.{Keyed};

    ghost Value = { Keyed };

    ghost view = { λ p. record { key = p.key; board = p.board } };
}

/// A key that its cell gave up, so that the place on its board can be closed.
#[must_use]
pub struct ClosePermit {
    key: u64,
    // The board of the key.
    board: Name,
}

impl Model for ClosePermit {
    ghost use Rattle.calloop_wake.specs.Passes.{Keyed};

    ghost Value = { Keyed };

    ghost view = { λ l. record { key = l.key; board = l.board } };
}

/// A key that was taken from its board. Opens a turn of its cell, or goes back there as a debt.
#[must_use]
pub struct TakenPass {
    key: u64,
    // The board from which it was taken.
    board: Name,
    // The cell that refused it.
    refused: Option<Name>,
}

impl Model for TakenPass {
    ghost use Rattle.calloop_wake.specs.Passes.{Taken};

    ghost Value = { Taken };

    ghost view = { λ p. record { key = p.key; board = p.board; refused = p.refused } };
}

impl TakenPass {
    /// The key that was taken.
    pub fn key(&self) -> u64
        ensures { result ≡ self.now.key }
    {
        self.key
    }

    /// True if a cell refused to open a turn with it.
    pub fn is_refused(&self) -> bool
        ensures { result ≡ is_some self.now.refused }
    {
        self.refused.is_some()
    }

    /// Returns the key to its board, as a debt.
    pub fn back(self) -> Debt
        ensures { result ≡ given_back self }
    {
        let TakenPass {
            key,
            board,
            refused: _,
        } = self;
        Debt { key, board }
    }
}

/// An open turn of a ping's cell. Has the name of the cell, so it can't be ended on another.
#[must_use]
pub struct PingTurn {
    pub(crate) name: Name,
}

/// An open turn of a channel's cell: how many pops it may still make, and whether its last one found no message. Has the name
/// of the cell, so it can't be ended on another.
#[must_use]
pub struct ChannelTurn {
    pub(crate) name: Name,
    pub(crate) left: u64,
    pub(crate) done: bool,
}

impl ChannelTurn {
    /// True if it may make another pop, and its last one found a message.
    pub fn goes_on(&self) -> bool
        ensures { result ≡ (nat_lt 0 self.now.left && not self.now.done) }
    {
        self.left > 0 && !self.done
    }
}

/// A proof that the cell of this name was rung, or that a message or a task was put into it, with the number of those before.
#[derive(Drop)]
pub struct Receipt {
    pub(crate) name: Name,
    pub(crate) number: Count,
}

/// One of the senders of the cell of this name, which counts it until it is dropped there.
#[must_use]
pub struct Sender {
    pub(crate) name: Name,
}

/// The right to the receiving end of the cell of this name. One is made with each cell, and it can't be cloned.
#[derive(Drop)]
pub struct ReceivingRight {
    pub(crate) name: Name,
}

/// The receiving end of the cell of this name: the key that it set for the cell, how many turns it opened, how often it told the close,
/// and, in `number`, how many of a ping's turns took a ring, or how many messages of a channel or results of tasks were handed out.
/// It is spent when the cell is abandoned.
#[must_use]
pub struct Tally {
    pub(crate) name: Name,
    pub(crate) key: Option<u64>,
    pub(crate) turns: Count,
    pub(crate) number: Count,
    pub(crate) closes: Count,
    // How many tasks were popped whose futures were still to come.
    pub(crate) misses: Count,
}

impl Tally {
    // A receiving end that has set no key for its cell yet and opened no turn.
    fn new(right: ReceivingRight) -> Tally
        ensures { result ≡ fresh_tally right.name }
    {
        Tally {
            name: right.name,
            key: None,
            turns: Count::zero(),
            number: Count::zero(),
            closes: Count::zero(),
            misses: Count::zero(),
        }
    }

    fn end(self) {
        let Tally {
            name: _,
            key: _,
            turns: _,
            number: _,
            closes: _,
            misses: _,
        } = self;
    }

    /// The key that this end last set for the cell, if it didn't take it back.
    pub fn key(&self) -> Option<u64>
        ensures { result ≡ self.now.key }
    {
        self.key
    }
}

/// The right to end the content of a lock, which only the lock's last drop has.
#[must_use]
pub struct Last {
    pub(crate) of_wake: (),
}

impl Last {
    /// Spends it, when the content of the lock ends.
    pub fn end(self) {
        let Last { of_wake: _ } = self;
    }
}

/// A loop that must be woken if it waits, since a new mark was set on its board.
#[must_use]
pub struct Wakeup {
    of_wake: (),
}

/// Wakes a loop that waits, as calloop's `Notifier` does for the poller.
pub trait Notify {
    /// Ends the current wait, or makes the next one return at once. OS errors are ignored.
    fn notify(&self);
}

impl Wakeup {
    /// Spends the wakeup: the notifier is notified once. No contract says what that does.
    pub fn spend<N: Notify>(self, notifier: &N) {
        let Wakeup { of_wake: _ } = self;
        notifier.notify();
    }
}

/// The permit to wait once, for a loop on whose board no key was marked.
#[must_use]
pub struct SleepPermit {
    of_wake: (),
}

impl SleepPermit {
    /// Spends the permit, by the wait that it allows.
    pub fn spend(self) {
        let SleepPermit { of_wake: _ } = self;
    }
}
