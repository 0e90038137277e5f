//! The cell of a channel, shared by its ends.
ghost use Rattle.std.specs.Prelude.{◌≡◌, ◌≤◌, ◌<◌, ◌+◌, ◌^◌, ◌⊎◌, IfSome, IfOk, IfErr, MatchResult, is_ok, true, false, None, Some, Err, [], if◌then◌else◌};
ghost use Rattle.calloop_wake.specs.Cells.{debt_of, owed_at, owed_by_drop, after_add_sender, after_drop_sender, after_clear_key};
ghost use Rattle.calloop_wake.specs.Bells.{after_ping, owed_if};
ghost use Rattle.calloop_wake.specs.Channels.{fresh_channel, has_room, with_bell, view_with, view_after_put, receipt_of, view_after_set_key, after_open_turn, tally_after_open, turn_of, view_after_pop, after_pop_of, tells_close, pop_answer, handed_back, FitsBound, tally_after_pop, turn_after_pop, front, view_after_take, tally_after_take, is_early, after_end_turn, pops, IsStandingChannel, IsSoundChannel};
ghost use Rattle.calloop_wake.specs.Passes.{on};
ghost use Rattle.calloop_wake.specs.declared.channel.PutError.TheVariants.{Gone, Full, OutOfMemory};

use super::bell::Bell;
use super::cell::CellCore;
use super::ghosts::Name;
use super::locked::Core;
use super::queue::Queue;
use super::{
    ChannelTurn, ClosePermit, Debt, Last, OpenedPass, Receipt, ReceivingRight, Sender, TakenPass,
    Tally,
};
use counted_slot::Fits;
use std::alloc::{AllocError, Global};
use std::marker::Model;

/// The result of a turn's last pop.
#[derive(Clone, Copy, Debug, PartialEq, Eq)]
pub enum LastPop {
    /// The turn has made no pop yet.
    NoPop,
    AnItem,
    NoItem,
}

/// The result of a pop.
#[derive(Drop)]
pub enum Popped<T> {
    Item(T),
    /// There is no message now.
    Empty,
    /// No message will ever come. Returned once.
    Closed,
}

/// Why a message wasn't put. The message comes back.
#[derive(Drop)]
pub enum PutError<T> {
    /// The receiving end is gone.
    Gone(T),
    /// The channel holds as many messages as its bound says.
    Full(T),
    OutOfMemory(T),
}

/// What never changes of a channel's cell: its name, and the most messages that it holds.
#[derive(Drop)]
pub struct Label {
    pub(crate) name: Name,
    pub(crate) bound: Option<usize>,
}

/// The state that the ends of a channel share. Calloop has the queue of std's `mpsc` and a ping here.
///
/// With a message, or a close that no turn has told, the cell is pinged, or a turn is open. Has no `Drop`: the lock around a
/// cell ends it at its last drop.
pub struct ChannelCore<T> {
    bell: Bell,
    queue: Queue<T>,
    last: LastPop,
}

impl<T> Model for ChannelCore<T> {
    ghost use Rattle.calloop_wake.specs.Channels.{ChannelView, channel_of, IsLitChannel, IsSoundChannel};

    ghost Value = { ChannelView T };

    ghost view = { λ c. channel_of {T = T} c.bell c.queue c.last };

    ghost invariant = { λ c.
        IsLitChannel {T = T} (record { cell = c.bell.cell; queue = c.queue.items; bound = c.queue.bound; last = c.last })
        × IsSoundChannel {T = T} (record { cell = c.bell.cell; queue = c.queue.items; bound = c.queue.bound; last = c.last }) };
}

impl<T> Fits for ChannelCore<T> {
    ghost use Rattle.std.specs.Prelude.{◌≡◌};

    type Tag = Label;

    ghost fits = { λ tag core. (core.name ≡ tag.name) × (core.state.bound ≡ tag.bound) };
}

impl<T: Drop> Core for ChannelCore<T> {
    fn dissolve(self, last: Last) {
        let Last { of_wake: _ } = last;
        let ChannelCore {
            bell,
            queue,
            last: _,
        } = self;
        bell.dissolve();
        queue.dissolve();
    }
}

impl<T> ChannelCore<T> {
    /// A cell without messages, without a key and without senders, its label, and the right to its receiving end. With a bound it
    /// has room for that many messages.
    pub fn new(
        alloc: Global,
        bound: Option<usize>,
    ) -> Result<(ChannelCore<T>, Label, ReceivingRight), AllocError>
    where
        T: Drop,
        ensures core { IfOk result (λ r. r.0 ≡ record {
          state = fresh_channel bound;
          name = r.1.name;
          board = r.1.name;
          puts = 0;
          given = 0;
        }) }
        ensures label { IfOk result (λ r. r.1.bound ≡ bound) }
        ensures right { IfOk result (λ r. r.2.name ≡ r.1.name) }
    {
        let queue = Queue::new(alloc, bound)?;
        let (bell, name) = Bell::new();
        let core = ChannelCore {
            bell,
            queue,
            last: LastPop::NoPop,
        };
        let right = ReceivingRight { name: name.again() };
        Ok((core, Label { name, bound }, right))
    }

    /// Shows that no message and no close is lost: the cell is pinged, or a turn is open. A close is told only once it has
    /// happened, and the messages are at most the bound.
    pub fn stands(&self)
        ensures standing { IsStandingChannel self.now.state }
        ensures sound { IsSoundChannel self.now.state }
    {
        let _ = &self.last;
    }

    /// Appends a message. Returns its receipt, and a debt if the cell has a key and wasn't pinged. On failure the cell is
    /// unchanged.
    pub fn put(&mut self, message: T) -> Result<(Receipt, Option<Debt>), PutError<T>>
        ensures core { self.new
            ≡ (if is_ok result then view_after_put message self.old else self.old) }
        ensures gone { self.old.state.cell.gone ≡ true → result ≡ Err (Gone message) }
        ensures full { self.old.state.cell.gone ≡ false → has_room self.old.state ≡ false
            → result ≡ Err (Full message) }
        ensures put { self.old.state.cell.gone ≡ false → has_room self.old.state ≡ true
            → MatchResult result
            (λ put. (put.0 ≡ receipt_of self.old)
            × (put.1 ≡ on self.old.board (debt_of self.old.state.cell)))
            (λ e. (e ≡ OutOfMemory message) × (self.old.state.bound ≡ None)) }
        ensures err { IfErr result (λ e. (handed_back e ≡ message)
            × FitsBound self.old.state.bound e) }
        ensures ok { IfOk result (λ put. put.0 ≡ receipt_of self.old) }
        ensures owes { IfOk result
            (λ put. put.1 ≡ on self.old.board (debt_of self.old.state.cell)) }
    {
        if self.bell.is_gone() {
            return Err(PutError::Gone(message));
        }
        if !self.queue.has_room() {
            return Err(PutError::Full(message));
        }
        let number = self.queue.puts();
        match self.append(message) {
            Ok(debt) => {
                let name = self.bell.name();
                Ok((Receipt { name, number }, debt))
            }
            Err(message) => Err(PutError::OutOfMemory(message)),
        }
    }

    // Appends if there is room.
    fn append(&mut self, message: T) -> Result<Option<Debt>, T>
        requires { has_room self.old.state ≡ true }
        ensures core { self.new
            ≡ (if is_ok result then view_after_put message self.old else self.old) }
        ensures answer { MatchResult result
            (λ debt. debt ≡ on self.old.board (debt_of self.old.state.cell))
            (λ back. (back ≡ message) × (self.old.state.bound ≡ None)) }
    {
        match self.queue.put(message) {
            Ok(()) => Ok(self.bell.ping()),
            Err(failed) => Err(failed.value),
        }
    }

    /// Pings without a message, as a send that finds the queue full does.
    pub fn ring(&mut self) -> Option<Debt>
        ensures core { self.new
            ≡ view_with (with_bell (after_ping self.old.state.cell) self.old.state) self.old }
        ensures gives { result ≡ on self.old.board (debt_of self.old.state.cell) }
    {
        self.bell.ping()
    }

    /// True if the last sender is gone.
    pub fn is_closed(&self) -> bool
        ensures { result ≡ self.now.state.cell.closed }
    {
        self.bell.is_closed()
    }

    /// Opens a turn with a pass of the cell's own key; the tally counts it. The turn may make one pop more than the bound, and
    /// at most 1,024.
    ///
    /// Refuses a pass of another key, and any pass while a turn is open: the pass comes back marked as refused by this cell, and
    /// the cell is unchanged.
    pub fn open_turn(
        &mut self,
        pass: TakenPass,
        tally: &mut Tally,
    ) -> Result<ChannelTurn, TakenPass>
        requires { tally.old.name ≡ self.old.name }
        ensures core { self.new ≡ view_with (after_open_turn pass.key self.old.state) self.old }
        ensures tally { tally.new ≡ tally_after_open pass.key self.old.state.cell tally.old }
        ensures gives { result ≡ turn_of pass self.old }
    {
        let TakenPass {
            key,
            board,
            refused: _,
        } = pass;
        if !self.bell.opens(key) {
            let refused = Some(self.bell.name());
            return Err(TakenPass {
                key,
                board,
                refused,
            });
        }
        self.begin();
        tally.turns = tally.turns.next();
        Ok(ChannelTurn {
            name: self.bell.name(),
            left: self.pops(),
            done: false,
        })
    }

    fn begin(&mut self)
        ensures { self.new ≡ view_with (record {
          cell = record self.old.state.cell { pinged = false; draining = true };
          queue = self.old.state.queue;
          bound = self.old.state.bound;
          last = LastPop.NoPop;
        })
            self.old }
    {
        self.last = LastPop::NoPop;
        self.bell.open();
    }

    fn pops(&self) -> u64
        ensures { result ≡ pops self.now.state.bound }
    {
        match self.queue.bound() {
            Some(bound) if bound < 1023 => bound as u64 + 1,
            _ => 1024,
        }
    }

    /// A pop of a turn, which counts it. Returns the first message; or that there is none now; or, once, that none will come.
    pub fn pop(&mut self, turn: &mut ChannelTurn, tally: &mut Tally) -> Popped<T>
        requires left { 0 < turn.old.left }
        requires turn { turn.old.name ≡ self.old.name }
        requires tally { tally.old.name ≡ self.old.name }
        ensures core { self.new ≡ view_after_pop self.old }
        ensures gives { result ≡ pop_answer self.old.state }
        ensures turn { turn.new ≡ turn_after_pop result turn.old }
        ensures tally { tally.new ≡ tally_after_pop result tally.old }
    {
        turn.left -= 1;
        match self.take(tally) {
            Some(message) => {
                turn.done = false;
                Popped::Item(message)
            }
            None => {
                turn.done = true;
                let tells = self.stop();
                tally.closes = tally.closes.and_one_if(tells);
                if tells { Popped::Closed } else { Popped::Empty }
            }
        }
    }

    // A pop of the turn finds no message. True if it tells the close.
    fn stop(&mut self) -> bool
        requires { self.old.state.queue ≡ [] }
        ensures core { self.new ≡ view_with (after_pop_of [] self.old.state) self.old }
        ensures gives { result ≡ tells_close self.old.state.cell }
    {
        self.last = LastPop::NoItem;
        self.bell.tell_close()
    }

    /// The first message, if there is one, outside of a turn. Never tells the close.
    pub fn take(&mut self, tally: &mut Tally) -> Option<T>
        requires { tally.old.name ≡ self.old.name }
        ensures core { self.new ≡ view_after_take self.old }
        ensures gives { result ≡ front self.old.state.queue }
        ensures tally { tally.new ≡ tally_after_take self.old.state tally.old }
    {
        let message = self.queue.pop()?;
        self.last = LastPop::AnItem;
        tally.number = tally.number.next();
        Some(message)
    }

    /// Ends the turn, which has to be one of this cell. Either its last pop found nothing, or it made all pops that it may make,
    /// and then the cell is pinged.
    pub fn end_turn(&mut self, turn: ChannelTurn) -> Option<Debt>
        requires turn { turn.name ≡ self.old.name }
        requires over { (turn.left ≡ 0) ⊎ (turn.done ≡ true) }
        ensures core { self.new ≡ view_with (after_end_turn self.old.state) self.old }
        ensures gives { result
            ≡ on self.old.board (owed_if (is_early self.old.state.last) self.old.state.cell) }
    {
        let ChannelTurn {
            name: _,
            left: _,
            done: _,
        } = turn;
        let early = match self.last {
            LastPop::NoItem => false,
            LastPop::NoPop | LastPop::AnItem => true,
        };
        self.bell.end(early)
    }
}

impl<T: Drop> CellCore for ChannelCore<T> {
    ghost use Rattle.calloop_wake.specs.Passes.{on};

    ghost name_of = { λ c. c.name };

    ghost place_of = { λ c. on c.board c.state.cell.key };

    ghost named_by = { λ tag. tag.name };

    fn receiver(&self, right: ReceivingRight) -> Tally {
        self.bell.receiver(right)
    }

    fn add_sender(&mut self) -> Result<Sender, AllocError>
        ensures ok { IfOk result (λ sender. (sender.name ≡ self.old.name)
            × (self.new ≡ view_with
            (with_bell (after_add_sender self.old.state.cell) self.old.state) self.old)) }
        ensures err { IfErr result (λ _. (self.old.state.cell.senders + 1 ≡ 2 ^ 64)
            × (self.new ≡ self.old)) }
    {
        self.bell.add_sender()
    }

    fn drop_sender(&mut self, sender: Sender) -> Option<Debt>
        requires { sender.name ≡ self.old.name }
        ensures core { self.new ≡ view_with
            (with_bell (after_drop_sender self.old.state.cell) self.old.state) self.old }
        ensures gives { result ≡ on self.old.board (owed_by_drop self.old.state.cell) }
    {
        self.bell.drop_sender(sender)
    }

    fn set_key(
        &mut self,
        pass: OpenedPass,
        tally: &mut Tally,
    ) -> (Option<Debt>, Option<ClosePermit>)
        requires { tally.old.name ≡ self.old.name }
        ensures tally { tally.new ≡ record tally.old { key = Some pass.key } }
        ensures core { self.new ≡ view_after_set_key pass self.old }
        ensures owes { result.0 ≡ on pass.board (owed_at pass.key self.old.state.cell) }
        ensures permit { result.1 ≡ on self.old.board self.old.state.cell.key }
    {
        self.bell.set_key(pass, tally)
    }

    fn clear_key(&mut self, tally: &mut Tally) -> Option<ClosePermit>
        requires { tally.old.name ≡ self.old.name }
        ensures tally { tally.new ≡ record tally.old { key = None } }
        ensures core { self.new ≡ view_with
            (with_bell (after_clear_key false self.old.state.cell) self.old.state) self.old }
        ensures permit { result ≡ on self.old.board self.old.state.cell.key }
    {
        self.bell.clear_key(tally)
    }

    fn abandon(&mut self, tally: Tally) -> Option<ClosePermit>
        requires { tally.name ≡ self.old.name }
        ensures core { self.new ≡ view_with
            (with_bell (after_clear_key true self.old.state.cell) self.old.state) self.old }
        ensures permit { result ≡ on self.old.board self.old.state.cell.key }
    {
        self.bell.abandon(tally)
    }

    ghost is_named = { λ tag core fits. fits.0 };
}
