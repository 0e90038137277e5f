//! The bell of a cell: what each kind of cell shares with a ping.
ghost use Rattle.std.specs.Prelude.{◌≡◌, ◌+◌, ◌-◌, ◌<◌, ◌^◌, ◌&&◌, ◌||◌, not, true, false, None, Some, IfOk, IfErr, if◌then◌else◌};
ghost use Rattle.calloop_wake.specs.Cells.{fresh_tally, fresh, one, opens, debt_of, owed_at, owed_by_drop, after_close, after_add_sender, after_drop_sender, after_set_key, after_clear_key};
ghost use Rattle.calloop_wake.specs.Bells.{bell_with, after_ping, after_drain, after_end, owed_if, after_tell_close};
ghost use Rattle.calloop_wake.specs.Passes.{on};

use super::ghosts::Name;
use super::{ClosePermit, Debt, OpenedPass, ReceivingRight, Sender, Tally};
use std::alloc::AllocError;
use std::marker::Model;

/// The state that every cell has: whether its key is posted, its ends, and the key by which the loop knows it.
pub(crate) struct Bell {
    pinged: bool,
    draining: bool,
    closed: bool,
    told: bool,
    gone: bool,
    key: Option<u64>,
    senders: u64,
    name: Name,
    // The board of its key; its own name if it never had one.
    board: Name,
}

impl Model for Bell {
    ghost use Rattle.std.specs.Prelude.{false};
    ghost use Rattle.calloop_wake.specs.Bells.{BellView};

    ghost Value = { BellView };

    ghost view = { λ b. record {
      cell = record { rung = false; pinged = b.pinged; draining = b.draining; closed = b.closed; told = b.told; gone = b.gone; key = b.key; senders = b.senders };
      name = b.name;
      board = b.board;
    } };
}

impl Bell {
    /// A bell that wasn't rung, without a key and without senders, and its name.
    pub(super) fn new() -> (Bell, Name)
        ensures { result.0 ≡ record { cell = fresh; name = result.1; board = result.1 } }
    {
        let name = Name::fresh();
        let bell = Bell {
            pinged: false,
            draining: false,
            closed: false,
            told: false,
            gone: false,
            key: None,
            senders: 0,
            name: name.again(),
            board: name.again(),
        };
        (bell, name)
    }

    /// Drops the bell: its fields are plain.
    pub(super) fn dissolve(self) {
        let Bell {
            pinged: _,
            draining: _,
            closed: _,
            told: _,
            gone: _,
            key: _,
            senders: _,
            name: _,
            board: _,
        } = self;
    }

    /// The name of its cell.
    pub(super) fn name(&self) -> Name
        ensures { result ≡ self.now.name }
    {
        self.name.again()
    }

    pub(super) fn is_closed(&self) -> bool
        ensures { result ≡ self.now.cell.closed }
    {
        self.closed
    }

    pub(super) fn is_gone(&self) -> bool
        ensures { result ≡ self.now.cell.gone }
    {
        self.gone
    }

    /// True if a turn is open.
    pub(super) fn is_draining(&self) -> bool
        ensures { result ≡ self.now.cell.draining }
    {
        self.draining
    }

    // The debt of pinging.
    fn debt(&self) -> Option<Debt>
        ensures { result ≡ on self.now.board (debt_of self.now.cell) }
    {
        if self.pinged {
            return None;
        }
        match self.key {
            Some(key) => Some(Debt {
                key,
                board: self.board.again(),
            }),
            None => None,
        }
    }

    /// The key is posted, or about to be.
    pub(super) fn ping(&mut self) -> Option<Debt>
        ensures bell { self.new ≡ bell_with (after_ping self.old.cell) self.old }
        ensures gives { result ≡ on self.old.board (debt_of self.old.cell) }
    {
        let debt = self.debt();
        self.pinged = true;
        debt
    }

    // The last sender is gone.
    fn close(&mut self) -> Option<Debt>
        ensures bell { self.new ≡ bell_with (after_close self.old.cell) self.old }
        ensures gives { result ≡ on self.old.board (debt_of self.old.cell) }
    {
        let debt = self.debt();
        self.senders = 0;
        self.closed = true;
        self.pinged = true;
        debt
    }

    pub(super) fn receiver(&self, right: ReceivingRight) -> Tally
        ensures { result ≡ fresh_tally right.name }
    {
        Tally::new(right)
    }

    pub(super) fn add_sender(&mut self) -> Result<Sender, AllocError>
        ensures ok { IfOk result (λ sender. (sender.name ≡ self.old.name)
            × (self.old.cell.senders + 1 < 2 ^ 64)
            × (self.new ≡ bell_with (after_add_sender self.old.cell) self.old)) }
        ensures err { IfErr result (λ _. (self.old.cell.senders + 1 ≡ 2 ^ 64)
            × (self.new ≡ self.old)) }
        ensures others { self.new
            ≡ bell_with (record self.old.cell { senders = self.new.cell.senders }) self.old }
    {
        match self.senders.checked_add(1) {
            Some(senders) => {
                self.senders = senders;
                let name = self.name.again();
                Ok(Sender { name })
            }
            None => Err(AllocError),
        }
    }

    pub(super) fn drop_sender(&mut self, sender: Sender) -> Option<Debt>
        ensures bell { self.new ≡ bell_with (after_drop_sender self.old.cell) self.old }
        ensures gives { result ≡ on self.old.board (owed_by_drop self.old.cell) }
    {
        let Sender { name: _ } = sender;
        if self.senders > 1 {
            self.senders -= 1;
            None
        } else {
            self.close()
        }
    }

    /// One sender less, and no close even if it was the last.
    pub(super) fn drop_without_close(&mut self, sender: Sender)
        ensures { self.new
            ≡ bell_with (record self.old.cell { senders = self.old.cell.senders - 1 }) self.old }
    {
        let Sender { name: _ } = sender;
        self.senders = self.senders.saturating_sub(1);
    }

    pub(super) fn set_key(
        &mut self,
        pass: OpenedPass,
        tally: &mut Tally,
    ) -> (Option<Debt>, Option<ClosePermit>)
        ensures tally { tally.new ≡ record tally.old { key = Some pass.key } }
        ensures bell { self.new ≡ record {
          cell = after_set_key pass.key self.old.cell;
          name = self.old.name;
          board = pass.board;
        } }
        ensures owes { result.0 ≡ on pass.board (owed_at pass.key self.old.cell) }
        ensures permit { result.1 ≡ on self.old.board self.old.cell.key }
    {
        let OpenedPass { key, board } = pass;
        let permit = self.take_key();
        self.key = Some(key);
        self.board = board.again();
        tally.key = Some(key);
        if self.pinged {
            (Some(Debt { key, board }), permit)
        } else {
            (None, permit)
        }
    }

    fn take_key(&mut self) -> Option<ClosePermit>
        ensures bell { self.new ≡ bell_with (after_clear_key false self.old.cell) self.old }
        ensures permit { result ≡ on self.old.board self.old.cell.key }
    {
        let key = self.key.take()?;
        Some(ClosePermit {
            key,
            board: self.board.again(),
        })
    }

    pub(super) fn clear_key(&mut self, tally: &mut Tally) -> Option<ClosePermit>
        ensures tally { tally.new ≡ record tally.old { key = None } }
        ensures bell { self.new ≡ bell_with (after_clear_key false self.old.cell) self.old }
        ensures permit { result ≡ on self.old.board self.old.cell.key }
    {
        tally.key = None;
        self.take_key()
    }

    pub(super) fn abandon(&mut self, tally: Tally) -> Option<ClosePermit>
        ensures bell { self.new ≡ bell_with (after_clear_key true self.old.cell) self.old }
        ensures permit { result ≡ on self.old.board self.old.cell.key }
    {
        tally.end();
        self.gone = true;
        self.take_key()
    }

    /// True if a pass of this key opens a turn.
    pub(super) fn opens(&self, key: u64) -> bool
        ensures { result ≡ opens key self.now.cell }
    {
        self.key == Some(key) && !self.draining
    }

    /// A turn is open.
    pub(super) fn open(&mut self)
        ensures { self.new ≡ bell_with (after_drain self.old.cell) self.old }
    {
        self.pinged = false;
        self.draining = true;
    }

    /// A close is told. Returns true if it wasn't before.
    pub(super) fn tell_close(&mut self) -> bool
        ensures bell { self.new ≡ bell_with (after_tell_close self.old.cell) self.old }
        ensures gives { result ≡ (self.old.cell.closed && not self.old.cell.told) }
    {
        let tells = self.closed && !self.told;
        self.told = self.closed || self.told;
        tells
    }

    /// The turn is over, and pings if it stopped early.
    pub(super) fn end(&mut self, early: bool) -> Option<Debt>
        ensures bell { self.new ≡ bell_with (after_end early self.old.cell) self.old }
        ensures gives { result ≡ on self.old.board (owed_if early self.old.cell) }
    {
        self.draining = false;
        if early { self.ping() } else { None }
    }
}
