//! The sections of the lock of a channel's cell that no other kind of cell has.
ghost use Rattle.std.specs.Prelude.{◌≡◌, ◌⊎◌, ◌<◌, ◌+◌, true, false, None, Some, IfOk, IfErr};
ghost use Rattle.calloop_wake.specs.Cells.{one};
ghost use Rattle.calloop_wake.specs.Channels.{handed_back, FitsBound, turn_after_pop, tally_after_pop};
ghost use Rattle.calloop_ends.specs.channel.Channels.{fresh_turn};
ghost use Rattle.calloop_ends.specs.channel.Sends.{unsent, IsDisconnected};
ghost use Rattle.calloop_slots.specs.declared.error.Error.TheVariants.{OutOfMemory};

use super::{RecvError, SendError, TryRecvError};
use crate::cell::{Cell, ReceivingEnd, SendingEnd, post};
use calloop_slots::error::Result as LoopResult;
use calloop_wake::channel::{ChannelCore, Popped, PutError};
use calloop_wake::locked::{Awaited, Locked};
use calloop_wake::{ChannelTurn, Receipt, ReceivingRight, TakenPass};
use std::alloc::Global;
use std::sync::Wait;

/// What the ends of a channel share.
pub type ChannelCell<T> = Cell<ChannelCore<T>>;

/// Makes a cell to which nothing has happened yet, under its lock, and the right to its receiving end.
pub fn new_locked<T: Drop>(
    alloc: Global,
    bound: Option<usize>,
) -> LoopResult<(Locked<ChannelCell<T>>, ReceivingRight)>
    ensures right { IfOk result (λ made. made.1.name ≡ made.0.tag.name) }
    ensures bound { IfOk result (λ made. made.0.tag.bound ≡ bound) }
    ensures err { IfErr result (λ e. e ≡ OutOfMemory) }
{
    let (core, label, right) = ChannelCore::new(alloc, bound)?;
    Ok((Cell::new_locked(alloc, core, &label)?, right))
}

impl<T: Drop, R: Wait + Drop> SendingEnd<ChannelCore<T>, R> {
    /// Appends a message. If there is no room, the channel is pinged.
    pub(crate) fn put(&self, message: T) -> Result<Receipt, PutError<T>>
        ensures ok { IfOk result (λ r. r.name ≡ self.now.name) }
        ensures err { IfErr result
            (λ e. (handed_back e ≡ message) × FitsBound self.now.bound e) }
    {
        let mut held = self.shared.lock(&self.rt);
        let cell = held.core();
        match cell.core.put(message) {
            Ok((receipt, debt)) => {
                let owed = cell.with_hub(&self.rt, debt);
                held.unlock();
                self.shared.notify_all(Awaited::Content);
                post(&self.rt, owed);
                Ok(receipt)
            }
            Err(PutError::Full(message)) => {
                let debt = cell.core.ring();
                let owed = cell.with_hub(&self.rt, debt);
                held.unlock();
                post(&self.rt, owed);
                Err(PutError::Full(message))
            }
            Err(refused) => {
                held.unlock();
                Err(refused)
            }
        }
    }

    /// Appends a message to a channel with a bound, and waits while there is no room.
    pub(crate) fn put_waiting(&self, message: T, limit: usize) -> Result<Receipt, SendError<T>>
        requires { self.now.bound ≡ Some limit }
        ensures ok { IfOk result (λ r. r.name ≡ self.now.name) }
        ensures err { IfErr result (λ e. (unsent e ≡ message) × IsDisconnected e) }
    {
        let mut held = self.shared.lock(&self.rt);
        let mut message = message;
        for _ in self.rt.forever() {
            let cell = held.core();
            match cell.core.put(message) {
                Ok((receipt, debt)) => {
                    let owed = cell.with_hub(&self.rt, debt);
                    held.unlock();
                    self.shared.notify_all(Awaited::Content);
                    post(&self.rt, owed);
                    return Ok(receipt);
                }
                Err(PutError::Gone(refused)) => {
                    held.unlock();
                    return Err(SendError::Disconnected(refused));
                }
                Err(PutError::Full(refused)) => message = refused,
                Err(PutError::OutOfMemory(_)) => unreachable!(),
            }
            held = held.wait(&self.rt, Awaited::Room);
        }
        unreachable!()
    }
}

impl<T: Drop, R: Wait + Drop> ReceivingEnd<ChannelCore<T>, R> {
    /// Takes the first message, if there is one.
    pub(crate) fn take(&mut self) -> Result<T, TryRecvError>
        ensures tag { self.new.tag ≡ self.old.tag }
        ensures ok { IfOk result
            (λ _. self.new.tally ≡ record self.old.tally { number = self.old.tally.number + 1 }) }
        ensures err { IfErr result (λ _. self.new.tally ≡ self.old.tally) }
    {
        let mut held = self.shared.lock(&self.rt);
        let cell = held.core();
        let message = cell.core.take(&mut self.tally);
        let closed = cell.core.is_closed();
        held.unlock();
        match message {
            Some(message) => {
                self.shared.notify_one(Awaited::Room);
                Ok(message)
            }
            None if closed => Err(TryRecvError::Disconnected),
            None => Err(TryRecvError::Empty),
        }
    }

    /// Takes the first message. Waits while there is none and a sender is there.
    pub(crate) fn take_waiting(&mut self) -> Result<T, RecvError>
        ensures tag { self.new.tag ≡ self.old.tag }
        ensures ok { IfOk result
            (λ _. self.new.tally ≡ record self.old.tally { number = self.old.tally.number + 1 }) }
        ensures err { IfErr result (λ _. self.new.tally ≡ self.old.tally) }
    {
        let (rt, shared, tally) = (&self.rt, &self.shared, &mut self.tally);
        let mut held = shared.lock(rt);
        for _ in rt.forever() {
            let cell = held.core();
            if let Some(message) = cell.core.take(tally) {
                held.unlock();
                shared.notify_one(Awaited::Room);
                return Ok(message);
            }
            if cell.core.is_closed() {
                held.unlock();
                return Err(RecvError);
            }
            held = held.wait(rt, Awaited::Content);
        }
        unreachable!()
    }

    /// Opens a turn of the cell with the pass, which comes back as refused if it opens none.
    pub(crate) fn open_turn(&mut self, pass: TakenPass) -> Result<ChannelTurn, TakenPass>
        ensures tag { self.new.tag ≡ self.old.tag }
        ensures turn { IfOk result (λ turn. turn
            ≡ fresh_turn (record { name = self.old.tally.name; bound = self.old.tag.bound })) }
        ensures ok { IfOk result
            (λ _. self.new.tally ≡ record self.old.tally { turns = self.old.tally.turns + 1 }) }
        ensures err { IfErr result
            (λ refused. (refused ≡ record pass { refused = Some self.old.tally.name })
            × (self.new.tally ≡ self.old.tally)) }
    {
        let mut held = self.shared.lock(&self.rt);
        let cell = held.core();
        let opened = cell.core.open_turn(pass, &mut self.tally);
        held.unlock();
        opened
    }

    /// A pop of the turn.
    pub(crate) fn pop(&mut self, turn: &mut ChannelTurn) -> Popped<T>
        requires left { 0 < turn.old.left }
        requires turn { turn.old.name ≡ self.old.tally.name }
        ensures tag { self.new.tag ≡ self.old.tag }
        ensures turn { turn.new ≡ turn_after_pop result turn.old }
        ensures tally { self.new.tally ≡ tally_after_pop result self.old.tally }
    {
        let mut held = self.shared.lock(&self.rt);
        let cell = held.core();
        let popped = cell.core.pop(turn, &mut self.tally);
        held.unlock();
        if matches!(popped, Popped::Item(_)) {
            self.shared.notify_one(Awaited::Room);
        }
        popped
    }

    /// Ends a turn of the cell.
    pub(crate) fn end_turn(&self, turn: ChannelTurn)
        requires name { turn.name ≡ self.now.tally.name }
        requires over { (turn.left ≡ 0) ⊎ (turn.done ≡ true) }
    {
        let mut held = self.shared.lock(&self.rt);
        let cell = held.core();
        let debt = cell.core.end_turn(turn);
        let owed = cell.with_hub(&self.rt, debt);
        held.unlock();
        post(&self.rt, owed);
    }
}
