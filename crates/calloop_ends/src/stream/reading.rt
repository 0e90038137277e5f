//! Streams, and one poll of a stream.
ghost use Rattle.std.specs.Prelude.{⊤, Option};
ghost use Rattle.calloop_ends.specs.declared.futures.task.Poll.{Poll};
ghost use Rattle.calloop_ends.specs.stream.StreamReads.{IsNext};

use crate::futures::{Context, Poll, Waker};
use std::sync::Wait;

/// Values that come one after the other. A stream is polled on the loop's thread, until it gives `None`, and not after that.
pub trait Stream<R: Wait + Drop>: Drop {
    type Item: Drop;

    // What a poll may do: the stream before it, its answer, and the stream after it.
    ghost polls: { Self → Poll (Option Self.Item) → Self → Type 0 } = { λ _ _ _. ⊤ };

    /// Polls for the next item: `None` is the end. If pending, the stream has kept a clone of the waker, or has woken the waker.
    fn poll_next(&mut self, cx: &mut Context<'_, R>) -> Poll<Option<Self::Item>>
        ensures { polls self.old result self.new };
}

/// How a turn of a stream ended.
#[derive(Clone, Copy, Debug, PartialEq, Eq)]
pub enum Ending {
    /// The stream waits for a wake.
    AtPending,
    /// The stream's end was told.
    AtEnd,
    /// The stream gave as many items as a turn takes.
    AtLimit,
}

/// A stream whose end wasn't told yet, with its waker.
#[derive(Drop)]
pub(crate) struct Readable<S: Stream<R>, R: Wait + Drop> {
    pub(crate) stream: S,
    pub(crate) waker: Waker<R>,
}

/// The answer of one poll, with the stream if that isn't at its end.
#[derive(Drop)]
pub(crate) enum Read<S: Stream<R>, R: Wait + Drop> {
    Item(S::Item, Readable<S, R>),
    End,
    Pending(Readable<S, R>),
}

impl<S: Stream<R>, R: Wait + Drop> Readable<S, R> {
    /// Polls once.
    pub(crate) fn next(self) -> Read<S, R>
        ensures { IsNext S.polls self.stream result }
    {
        let Readable { mut stream, waker } = self;
        match stream.poll_next(&mut Context::from_waker(&waker)) {
            Poll::Ready(Some(item)) => Read::Item(item, Readable { stream, waker }),
            Poll::Ready(None) => Read::End,
            Poll::Pending => Read::Pending(Readable { stream, waker }),
        }
    }
}
