//! A channel as a source of the loop.
ghost use Rattle.std.specs.Prelude.{◌≡◌, ◌<◌, List};
ghost use Rattle.calloop_wake.specs.Channels.{turn_after_pop, tally_after_pop, is_close};
ghost use Rattle.calloop_wake.specs.declared.channel.Popped.{Popped};
ghost use Rattle.calloop_sources.specs.sources.Calls.{Went};
ghost use Rattle.calloop_ends.specs.channel.Channels.{call_of, turn_after, IsOver, Handed};

use super::{Channel, ChannelError, Event};
use crate::cell::ReceivingEnd;
use crate::cell::source::{CellSource, take_turn};
use crate::ping::source::action_of;
use calloop_poll::sys::events::EventIterator;
use calloop_poll::sys::poll::Poll;
use calloop_poll::sys::synthetic::Synthetic;
use calloop_poll::sys::{Poller, Readiness};
use calloop_slots::error::{Error, Result as LoopResult};
use calloop_slots::token::{Token, TokenFactory};
use calloop_sources::sources::{Asking, Callback, EventSource, IntoError, PostAction};
use calloop_wake::channel::{ChannelCore, Popped};
use calloop_wake::{ChannelTurn, TakenPass, Tally};
use std::sync::Wait;

impl IntoError for ChannelError {
    ghost use Rattle.std.specs.Prelude.{◌≡◌};
    ghost use Rattle.calloop_slots.specs.declared.error.Error.TheVariants.{OutOfMemory};
    ghost use Rattle.calloop_sources.specs.sources.Lawful.{memory_of_source};

    ghost becomes = { λ _ e. e ≡ OutOfMemory };

    ghost of_source = { λ _ e is. memory_of_source e is };

    /// `OutOfMemory`.
    fn into_error(self) -> Error {
        Error::OutOfMemory
    }
}

impl<T: Drop, R: Wait + Drop> ReceivingEnd<ChannelCore<T>, R> {
    // One pop of the turn, and its call. True if it tells the close.
    fn step<F, X, Q>(
        &mut self,
        turn: &mut ChannelTurn,
        callback: &mut F,
        data: &mut X,
        requests: &mut Q,
    ) -> bool
    where
        Q: Asking,
        F: Callback<Event<T>, (), (), X, Q>,
        requires left { 0 < turn.old.left }
        requires turn { turn.old.name ≡ self.old.tally.name }
        ensures tag { self.new.tag ≡ self.old.tag }
        ensures pop { (p : Popped T) × (turn.new ≡ turn_after_pop p turn.old)
            × (self.new.tally ≡ tally_after_pop p self.old.tally) × (result ≡ is_close p)
            × Went F.may Q.reaches callback.old «data».old requests.old (call_of p)
            callback.new «data».new requests.new }
    {
        match self.pop(turn) {
            Popped::Item(message) => {
                callback.call(Event::Msg(message), &mut (), data, requests);
                false
            }
            Popped::Empty => false,
            Popped::Closed => {
                callback.call(Event::Closed, &mut (), data, requests);
                true
            }
        }
    }

    // The pops of a turn, up to one that finds no message or to the turn's limit. True if the close was told.
    fn hand_out<F, X, Q>(
        &mut self,
        turn: ChannelTurn,
        callback: &mut F,
        data: &mut X,
        requests: &mut Q,
    ) -> bool
    where
        Q: Asking,
        F: Callback<Event<T>, (), (), X, Q>,
        requires turn { turn.name ≡ self.old.tally.name }
        ensures tag { self.new.tag ≡ self.old.tag }
        ensures name { self.new.tally.name ≡ self.old.tally.name }
        ensures handed { (ps : List (Popped T)) × IsOver (turn_after ps turn)
            × Handed F.may Q.reaches turn self.old.tally callback.old «data».old requests.old ps
            (turn_after ps turn) self.new.tally result callback.new «data».new requests.new }
    {
        let mut turn = turn;
        let mut told = false;
        'pops: while turn.goes_on() {
            let tells = self.step(&mut turn, callback, data, requests);
            told = told || tells;
        }
        self.end_turn(turn);
        told
    }
}

impl<T: Drop, R: Wait + Drop> CellSource for Channel<T, R> {
    ghost use Rattle.calloop_ends.specs.channel.Channels.{ChannelOpens, channel_tally};

    type Event = Event<T>;

    ghost tally_of = { channel_tally };

    ghost opens = { ChannelOpens };

    fn tally(&self) -> &Tally {
        self.end.tally()
    }

    /// Calls back with the messages of the turn's pops. The close removes the source.
    fn open_turn<F, X, Q>(
        &mut self,
        pass: TakenPass,
        callback: &mut F,
        data: &mut X,
        requests: &mut Q,
    ) -> Result<PostAction, TakenPass>
    where
        Q: Asking,
        F: Callback<Event<T>, (), (), X, Q>,
    {
        let turn = self.end.open_turn(pass)?;
        let told = self.end.hand_out(turn, callback, data, requests);
        Ok(action_of(told))
    }
}

impl<T: Drop, P: Poller, C, R: Wait + Drop> EventSource<P, C, R> for Channel<T, R> {
    ghost use Rattle.calloop_ends.specs.channel.Channels.{channel_meaning};
    ghost use Rattle.calloop_ends.specs.channel.ChannelKeeping.{channel_keeps};

    type Event = Event<T>;

    type Metadata = ();

    type Ret = ();

    type Error = ChannelError;

    ghost means = { channel_meaning };

    /// The channel's turn: calls back with the messages in order, at most one more than the bound, and at most 1,024. If the last
    /// sender is gone and no message is left, it calls back with `Closed`, once, and removes the source. An event of another
    /// token, or without a posted key behind it, calls nothing.
    fn process_events<F, X, Q>(
        &mut self,
        _readiness: Readiness,
        token: Token,
        poll: &mut Poll<P, C, R>,
        callback: &mut F,
        data: &mut X,
        requests: &mut Q,
    ) -> Result<PostAction, ChannelError>
    where
        Q: Asking,
        F: Callback<Event<T>, (), (), X, Q>,
    {
        take_turn(self, token, poll, callback, data, requests)
    }

    /// Registers the channel under the factory's next token. One that holds a message or was closed before is posted at once.
    ///
    /// Fails with `IoError` of kind `AlreadyExists` if the channel is registered already, with `TooManyTokens` if the factory has
    /// no token left, and with `OutOfMemory` if memory runs out. On failure the channel and the board are unchanged.
    fn register(&mut self, poll: &mut Poll<P, C, R>, factory: &mut TokenFactory) -> LoopResult<()> {
        self.end.register(poll, factory)
    }

    /// Moves the registration to the factory's next token; under the same key it does nothing. What is due is posted under the
    /// new key.
    ///
    /// Fails with `IoError` of kind `NotFound` if the channel isn't registered, with `TooManyTokens` if the factory has no token
    /// left, with `IoError` of kind `AlreadyExists` if the place of the new key is open already, and with `OutOfMemory` if memory
    /// runs out. On failure the channel and the board are unchanged.
    fn reregister(
        &mut self,
        poll: &mut Poll<P, C, R>,
        factory: &mut TokenFactory,
    ) -> LoopResult<()> {
        self.end.reregister(poll, factory)
    }

    /// Takes the registration back. What is due is told after the next registration. Fails with `IoError` of kind `NotFound` if
    /// the channel isn't registered, and then nothing changes.
    fn unregister(&mut self, poll: &mut Poll<P, C, R>) -> LoopResult<()> {
        self.end.unregister(poll)
    }

    /// Returns false: a channel isn't told of waits.
    fn needs_extra_lifecycle_events() -> bool {
        false
    }

    fn max_synthetic() -> u16 {
        0
    }

    fn before_sleep(&mut self, _out: &mut Synthetic) -> LoopResult<()> {
        Ok(())
    }

    fn before_handle_events(&mut self, _events: EventIterator<'_>) {}

    ghost keeps = { channel_keeps };
}
