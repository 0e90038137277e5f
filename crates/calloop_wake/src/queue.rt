//! The messages of a channel.
ghost use Rattle.std.specs.Prelude.{◌≡◌, ◌+◌, [], true, false, length, IsSome, IfOk, MatchResult, is_ok, None, if◌then◌else◌};
ghost use Rattle.calloop_wake.specs.Channels.{is_below, front, queue_after_put, queue_after_pop};

use super::ghosts::Count;
use std::alloc::{AllocError, AllocFailed, Global};
use std::collections::VecDeque;
use std::marker::Model;

/// The messages that were put and not yet handed out, in order. The number put is the number handed out and those here.
///
/// With a bound there is room for that many, so a put takes no memory.
pub(crate) struct Queue<T> {
    items: VecDeque<T>,
    bound: Option<usize>,
    puts: Count,
    given: Count,
}

impl<T> Model for Queue<T> {
    ghost use Rattle.std.specs.Prelude.{◌≡◌, ◌+◌, ◌≤◌, IfSome};
    ghost use Rattle.std.specs.VecDeque.{deque_len, deque_capacity};
    ghost use Rattle.calloop_wake.specs.Channels.{QueueView};

    ghost Value = { QueueView T };

    ghost view = { λ q. record { items = q.items.items; bound = q.bound; puts = q.puts; given = q.given } };

    ghost invariant = { λ q.
        (q.puts ≡ q.given + deque_len q.items)
        × IfSome q.bound (λ b. deque_len q.items ≤ b)
        × IfSome q.bound (λ b. b ≤ deque_capacity q.items) };
}

impl<T> Queue<T> {
    /// No message, with room for the bound.
    pub(super) fn new(alloc: Global, bound: Option<usize>) -> Result<Queue<T>, AllocError>
    where
        T: Drop,
        ensures { IfOk result (λ q. q ≡ record { items = []; bound = bound; puts = 0; given = 0 }) }
    {
        let items = match bound {
            Some(bound) => VecDeque::with_capacity(alloc, bound)?,
            None => VecDeque::new(alloc),
        };
        Ok(Queue {
            items,
            bound,
            puts: Count::zero(),
            given: Count::zero(),
        })
    }

    /// Drops the queue, with the messages that nobody took.
    pub(super) fn dissolve(self)
    where
        T: Drop,
    {
        let Queue {
            items: _,
            bound: _,
            puts: _,
            given: _,
        } = self;
    }

    /// The most messages that it holds.
    pub(super) fn bound(&self) -> Option<usize>
        ensures { result ≡ self.now.bound }
    {
        self.bound
    }

    /// The number of messages that were put.
    pub(super) fn puts(&self) -> Count
        ensures { result ≡ self.now.puts }
    {
        self.puts.again()
    }

    /// True if there is room for a message. Without a bound there always is.
    pub(super) fn has_room(&self) -> bool
        ensures room { result ≡ is_below (length self.now.items) self.now.bound }
        ensures full { result ≡ false → IsSome self.now.bound }
    {
        match self.bound {
            Some(bound) => self.items.len() < bound,
            None => true,
        }
    }

    /// Appends a message if there is room. Without a bound this can fail for lack of memory, and then nothing changes.
    pub(super) fn put(&mut self, message: T) -> Result<(), AllocFailed<T>>
        requires { is_below (length self.old.items) self.old.bound ≡ true }
        ensures queue { self.new
            ≡ (if is_ok result then queue_after_put message self.old else self.old) }
        ensures answer { MatchResult result (λ _. Unit {0})
            (λ e. (e.value ≡ message) × (self.old.bound ≡ None)) }
    {
        self.items.push_back(message)?;
        self.puts = self.puts.next();
        Ok(())
    }

    /// Takes out the first message, if there is one.
    pub(super) fn pop(&mut self) -> Option<T>
        ensures queue { self.new ≡ queue_after_pop self.old }
        ensures gives { result ≡ front self.old.items }
    {
        let message = self.items.pop_front()?;
        self.given = self.given.next();
        Some(message)
    }
}
