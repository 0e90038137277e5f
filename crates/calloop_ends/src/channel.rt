//! Channels: messages that are sent from any thread, as a source.
ghost use Rattle.std.specs.Prelude.{◌≡◌, ◌<◌, None, Some, Err, IfOk, IfErr};
ghost use Rattle.calloop_wake.specs.Cells.{fresh_tally};
ghost use Rattle.calloop_slots.specs.declared.error.Error.TheVariants.{OutOfMemory, NoRendezvous};
ghost use Rattle.calloop_ends.specs.channel.Channels.{with_message};
ghost use Rattle.calloop_ends.specs.channel.Sends.{unsent, IsDisconnected, message_back};

use crate::cell::{ReceivingEnd, SendingEnd, make_ends};
use crate::ping::PingError;
use calloop_slots::error::{Error, Result as LoopResult};
use calloop_wake::Receipt;
use calloop_wake::channel::{ChannelCore, PutError};
use std::alloc::{AllocError, Global};
use std::marker::Model;
use std::sync::Wait;
use thiserror::Error as ThisError;

mod cell;
mod errors;
mod source;

pub use errors::{RecvError, SendError, TryRecvError, TrySendError};

/// The argument of a channel's callback.
#[derive(Debug, Drop)]
pub enum Event<T> {
    /// A message.
    Msg(T),
    /// The last sender is gone, and every message was handed out. This event comes once.
    Closed,
}

/// Why a channel's turn could fail. This crate's own channels never fail: their memory is reserved up front.
#[derive(Debug, Drop, ThisError)]
#[error("{0}")]
pub struct ChannelError(pub PingError);

/// Sends to its channel, from any thread. Clones send to the same channel; dropping the last one closes it.
///
/// In a clause it is the name of the cell to which it sends.
#[derive(Drop)]
pub struct Sender<T: Drop, R: Wait + Drop> {
    end: SendingEnd<ChannelCore<T>, R>,
}

impl<T: Drop, R: Wait + Drop> Model for Sender<T, R> {
    ghost use Rattle.std.specs.Prelude.{◌≡◌, None};
    ghost use Rattle.logbook.specs.Pages.{Book};

    ghost Value = { Book };

    ghost view = { λ s. s.end.name };

    ghost invariant = { λ s. s.end.bound ≡ None };
}

/// Sends to its channel, which holds at most as many messages as its bound. A send can wait for room.
///
/// In a clause it is the name of the cell to which it sends, and the bound.
#[derive(Drop)]
pub struct SyncSender<T: Drop, R: Wait + Drop> {
    end: SendingEnd<ChannelCore<T>, R>,
    limit: usize,
}

impl<T: Drop, R: Wait + Drop> Model for SyncSender<T, R> {
    ghost use Rattle.std.specs.Prelude.{◌≡◌, Some};
    ghost use Rattle.calloop_ends.specs.channel.Channels.{BoundedEnd};

    ghost Value = { BoundedEnd };

    ghost view = { λ s. record { name = s.end.name; bound = s.limit } };

    ghost invariant = { λ s. s.end.bound ≡ Some s.limit };
}

/// The receiving end of a channel, and its source. Each message is an event.
///
/// Its drop, also when the loop that it is registered with drops it, takes its registration back.
///
/// In a clause it is its tally, as a `PingSource` is, and how many messages it holds at most.
#[derive(Drop)]
pub struct Channel<T: Drop, R: Wait + Drop> {
    end: ReceivingEnd<ChannelCore<T>, R>,
}

impl<T: Drop, R: Wait + Drop> Model for Channel<T, R> {
    ghost use Rattle.calloop_ends.specs.channel.Channels.{ReceivingEnd};

    ghost Value = { ReceivingEnd };

    ghost view = { λ c. record { tally = c.end.tally; bound = c.end.tag.bound } };
}

impl<T: Drop, R: Wait + Drop> Sender<T, R> {
    /// Appends a message. The receipt is of a message of this very channel.
    pub fn send(&self, message: T) -> Result<Receipt, SendError<T>>
        ensures ok { IfOk result (λ r. r.name ≡ self.now) }
        ensures err { IfErr result (λ e. unsent e ≡ message) }
    {
        match self.end.put(message) {
            Ok(receipt) => Ok(receipt),
            Err(PutError::Gone(message)) => Err(SendError::Disconnected(message)),
            Err(PutError::OutOfMemory(message)) => Err(SendError::OutOfMemory(message)),
            Err(PutError::Full(_)) => unreachable!(),
        }
    }
}

impl<T: Drop, R: Wait + Drop> SyncSender<T, R> {
    /// Appends a message, and waits while there is no room. The receipt is of a message of this very channel. Sending takes
    /// no memory.
    pub fn send(&self, message: T) -> Result<Receipt, SendError<T>>
        ensures ok { IfOk result (λ r. r.name ≡ self.now.name) }
        ensures err { IfErr result (λ e. (unsent e ≡ message) × IsDisconnected e) }
    {
        self.end.put_waiting(message, self.limit)
    }

    /// Appends a message, if there is room. If there is no room, the channel is pinged. Sending takes no memory.
    pub fn try_send(&self, message: T) -> Result<Receipt, TrySendError<T>>
        ensures ok { IfOk result (λ r. r.name ≡ self.now.name) }
        ensures err { IfErr result (λ e. message_back e ≡ message) }
    {
        match self.end.put(message) {
            Ok(receipt) => Ok(receipt),
            Err(PutError::Gone(message)) => Err(TrySendError::Disconnected(message)),
            Err(PutError::Full(message)) => Err(TrySendError::Full(message)),
            Err(PutError::OutOfMemory(_)) => unreachable!(),
        }
    }
}

impl<T: Drop, R: Wait + Clone + Drop> Clone for Sender<T, R> {
    ghost use Rattle.std.specs.Prelude.{◌≡◌};

    ghost is_clone = { λ sender again. again ≡ sender };

    fn clone(&self) -> Result<Sender<T, R>, AllocError> {
        let end = self.end.clone()?;
        Ok(Sender { end })
    }
}

impl<T: Drop, R: Wait + Clone + Drop> Clone for SyncSender<T, R> {
    ghost use Rattle.std.specs.Prelude.{◌≡◌};

    ghost is_clone = { λ sender again. again ≡ sender };

    fn clone(&self) -> Result<SyncSender<T, R>, AllocError> {
        let end = self.end.clone()?;
        let limit = self.limit;
        Ok(SyncSender { end, limit })
    }
}

impl<T: Drop, R: Wait + Drop> Channel<T, R> {
    /// Takes the first message. Waits while there is none and a sender is there.
    pub fn recv(&mut self) -> Result<T, RecvError>
        ensures ok { IfOk result (λ _. self.new ≡ with_message self.old) }
        ensures err { IfErr result (λ _. self.new ≡ self.old) }
    {
        self.end.take_waiting()
    }

    /// Takes the first message, if there is one.
    pub fn try_recv(&mut self) -> Result<T, TryRecvError>
        ensures ok { IfOk result (λ _. self.new ≡ with_message self.old) }
        ensures err { IfErr result (λ _. self.new ≡ self.old) }
    {
        self.end.take()
    }
}

// Makes both ends of a cell to which nothing has happened yet.
fn ends<T: Drop, R: Wait + Clone + Drop>(
    rt: &R,
    alloc: Global,
    bound: Option<usize>,
) -> LoopResult<(SendingEnd<ChannelCore<T>, R>, Channel<T, R>)>
    ensures bound { IfOk result (λ made. made.0.bound ≡ bound) }
    ensures channel { IfOk result (λ made.
        made.1 ≡ record { tally = fresh_tally made.0.name; bound = bound }) }
    ensures err { IfErr result (λ e. e ≡ OutOfMemory) }
{
    let (locked, right) = cell::new_locked(alloc, bound)?;
    let (sending, receiving) = make_ends(rt, alloc, locked, right)?;
    Ok((sending, Channel { end: receiving }))
}

/// Makes a sender and its channel, which holds any number of messages and isn't registered yet. Both use the runtime `rt` to
/// lock what they share. In calloop this function is `channel`.
///
/// Fails with `OutOfMemory` if memory runs out.
pub fn make_channel<T: Drop, R: Wait + Clone + Drop>(
    rt: &R,
    alloc: Global,
) -> LoopResult<(Sender<T, R>, Channel<T, R>)>
    ensures ok { IfOk result (λ made.
        made.1 ≡ record { tally = fresh_tally made.0; bound = None }) }
    ensures err { IfErr result (λ e. e ≡ OutOfMemory) }
{
    let (end, channel) = ends(rt, alloc, None)?;
    Ok((Sender { end }, channel))
}

/// Makes a sender and its channel, which holds at most `bound` messages and isn't registered yet. The queue has room for them
/// from the beginning.
///
/// A bound of 0, which would hand over messages without a queue, fails with `NoRendezvous`; no memory, with `OutOfMemory`.
pub fn sync_channel<T: Drop, R: Wait + Clone + Drop>(
    rt: &R,
    alloc: Global,
    bound: usize,
) -> LoopResult<(SyncSender<T, R>, Channel<T, R>)>
    ensures channel { IfOk result (λ made.
        made.1 ≡ record { tally = fresh_tally made.0.name; bound = Some bound }) }
    ensures sender { IfOk result (λ made. made.0.bound ≡ bound) }
    ensures none { bound ≡ 0 → result ≡ Err NoRendezvous }
    ensures err { 0 < bound → IfErr result (λ e. e ≡ OutOfMemory) }
{
    if bound == 0 {
        return Err(Error::NoRendezvous);
    }
    let (end, channel) = ends(rt, alloc, Some(bound))?;
    let limit = bound;
    Ok((SyncSender { end, limit }, channel))
}
