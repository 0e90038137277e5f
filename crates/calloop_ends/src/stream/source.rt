//! A stream as a source of the loop.
ghost use Rattle.std.specs.Prelude.{◌≡◌, List, length};
ghost use Rattle.calloop_sources.specs.sources.Calls.{Went};
ghost use Rattle.calloop_ends.specs.stream.StreamReads.{ReadsTo, left_by};
ghost use Rattle.calloop_ends.specs.stream.Streams.{StreamCalls, calls_of, action_of, EndsSo, RingsItself, ReadsSo};
ghost use Rattle.calloop_ends.specs.declared.stream.reading.Readable.{Readable};
ghost use Rattle.std.specs.Option.{option_map};
ghost use Rattle.calloop_ends.specs.declared.stream.reading.Ending.{Ending};

use super::reading::{Ending, Read, Readable, Stream};
use super::{StreamError, StreamSource};
use crate::cell::source::{CellSource, take_turn};
use crate::ping::Ping;
use calloop_poll::sys::events::EventIterator;
use calloop_poll::sys::poll::Poll;
use calloop_poll::sys::synthetic::Synthetic;
use calloop_poll::sys::{Poller, Readiness};
use calloop_slots::error::Result as LoopResult;
use calloop_slots::token::{Token, TokenFactory};
use calloop_sources::sources::{Asking, Callback, EventSource, PostAction};
use calloop_wake::{Receipt, TakenPass, Tally};
use std::sync::Wait;

// The most items of one turn.
const MOST_ITEMS: u32 = 1024;

// Polls the stream and calls back with each item, and with its end. Returns the stream, unless it ended, and how the turn ended.
fn read<S, R, F, X, Q>(
    stream: Readable<S, R>,
    callback: &mut F,
    data: &mut X,
    requests: &mut Q,
) -> (Option<Readable<S, R>>, Ending)
where
    R: Wait + Drop,
    S: Stream<R>,
    Q: Asking,
    F: Callback<Option<S::Item>, (), (), X, Q>,
    ensures { (items : List S.Item) × (left : S)
        × EndsSo (length items) result.1 × ReadsTo S.polls stream.stream items result.1 left
        × (option_map (λ (rest : Readable S R S.Item). rest.stream) result.0
        ≡ left_by result.1 left)
        × Went F.may Q.reaches callback.old «data».old requests.old (calls_of items result.1)
        callback.new «data».new requests.new }
{
    let mut stream = stream;
    let mut items = 0u32;
    'items: while items < MOST_ITEMS {
        match stream.next() {
            Read::Item(item, rest) => {
                stream = rest;
                callback.call(Some(item), &mut (), data, requests);
                items += 1;
            }
            Read::End => {
                callback.call(None, &mut (), data, requests);
                return (None, Ending::AtEnd);
            }
            Read::Pending(rest) => return (Some(rest), Ending::AtPending),
        }
    }
    (Some(stream), Ending::AtLimit)
}

// The receipt of a ring by which the source asks for another turn, if it stopped at the limit.
fn ring_at_limit<R: Wait + Drop>(ping: &Ping<R>, ending: Ending) -> Option<Receipt>
    ensures { RingsItself ping.now ending result }
{
    match ending {
        Ending::AtLimit => Some(ping.ping()),
        Ending::AtPending | Ending::AtEnd => None,
    }
}

// The end removes the source.
fn action_of(ending: Ending) -> PostAction
    ensures { result ≡ action_of ending }
{
    match ending {
        Ending::AtEnd => PostAction::Remove,
        Ending::AtPending | Ending::AtLimit => PostAction::Continue,
    }
}

impl<S: Stream<R>, R: Wait + Drop> StreamSource<S, R> {
    // What an opened turn does: one that took a ring reads the stream, unless its end was told before.
    fn listen<F, X, Q>(
        &mut self,
        rung: bool,
        callback: &mut F,
        data: &mut X,
        requests: &mut Q,
    ) -> PostAction
    where
        Q: Asking,
        F: Callback<Option<S::Item>, (), (), X, Q>,
        ensures tally { self.new.tally ≡ self.old.tally }
        ensures reads { (items : List S.Item) × (ending : Ending) × (calls : StreamCalls S.Item)
            × ReadsSo S.polls self.old.tally.name rung self.old.reading.stream items ending
            self.old.reading calls result self.new.reading
            × Went F.may Q.reaches callback.old «data».old requests.old calls
            callback.new «data».new requests.new }
    {
        if !rung {
            return PostAction::Continue;
        }
        let Some(stream) = self.stream.take() else {
            return PostAction::Continue;
        };
        let (rest, ending) = read(stream, callback, data, requests);
        self.stream = rest;
        self.own = ring_at_limit(&self.ping, ending);
        action_of(ending)
    }
}

impl<S: Stream<R>, R: Wait + Drop> CellSource for StreamSource<S, R> {
    ghost use Rattle.calloop_ends.specs.stream.Streams.{StreamOpens, stream_tally};

    type Event = Option<S::Item>;

    ghost tally_of = { stream_tally };

    ghost opens = { StreamOpens S.polls };

    fn tally(&self) -> &Tally {
        self.source.tally()
    }

    /// Reads the stream, if its ping was rung.
    fn open_turn<F, X, Q>(
        &mut self,
        pass: TakenPass,
        callback: &mut F,
        data: &mut X,
        requests: &mut Q,
    ) -> Result<PostAction, TakenPass>
    where
        Q: Asking,
        F: Callback<Option<S::Item>, (), (), X, Q>,
    {
        let source = &mut self.source;
        let due = source.end.take_turn(pass)?;
        Ok(self.listen(due.rung, callback, data, requests))
    }
}

impl<S: Stream<R>, P: Poller, C, R: Wait + Drop> EventSource<P, C, R> for StreamSource<S, R> {
    ghost use Rattle.calloop_ends.specs.stream.Streams.{stream_meaning};
    ghost use Rattle.calloop_ends.specs.stream.StreamKeeping.{stream_keeps};

    type Event = Option<S::Item>;

    type Metadata = ();

    type Ret = ();

    type Error = StreamError;

    ghost means = { stream_meaning S.polls };

    /// The stream's turn: if its ping was rung, polls the stream and calls back with each item, until the stream is pending, or
    /// at most 1,024 times; then it asks for another turn. The end is called back as `None`, once, and removes the source. An
    /// event of another token, or without a posted key behind it, polls nothing.
    fn process_events<F, X, Q>(
        &mut self,
        _readiness: Readiness,
        token: Token,
        poll: &mut Poll<P, C, R>,
        callback: &mut F,
        data: &mut X,
        requests: &mut Q,
    ) -> Result<PostAction, StreamError>
    where
        Q: Asking,
        F: Callback<Option<S::Item>, (), (), X, Q>,
    {
        take_turn(self, token, poll, callback, data, requests)
    }

    /// Registers the stream under the factory's next token. One that was woken before is posted at once.
    ///
    /// It fails as `PingSource::register` does. On failure the stream and the board are unchanged.
    fn register(&mut self, poll: &mut Poll<P, C, R>, factory: &mut TokenFactory) -> LoopResult<()> {
        let source = &mut self.source;
        source.end.register(poll, factory)
    }

    /// Moves the registration to the factory's next token; under the same key it does nothing. What is due is posted under the
    /// new key.
    ///
    /// It fails as `PingSource::reregister` does. On failure the stream and the board are unchanged.
    fn reregister(
        &mut self,
        poll: &mut Poll<P, C, R>,
        factory: &mut TokenFactory,
    ) -> LoopResult<()> {
        let source = &mut self.source;
        source.end.reregister(poll, factory)
    }

    /// Takes the registration back. A wake that is due is told after the next registration. Fails with `IoError` of kind
    /// `NotFound` if the stream isn't registered, and then nothing changes.
    fn unregister(&mut self, poll: &mut Poll<P, C, R>) -> LoopResult<()> {
        let source = &mut self.source;
        source.end.unregister(poll)
    }

    /// Returns false: a stream isn't told of waits.
    fn needs_extra_lifecycle_events() -> bool {
        false
    }

    fn max_synthetic() -> u16 {
        0
    }

    fn before_sleep(&mut self, _out: &mut Synthetic) -> LoopResult<()> {
        Ok(())
    }

    fn before_handle_events(&mut self, _events: EventIterator<'_>) {}

    ghost keeps = { stream_keeps S.polls };
}
