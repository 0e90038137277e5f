//! A ping as a source of the loop.
ghost use Rattle.std.specs.Prelude.{◌≡◌, is_some};
ghost use Rattle.calloop_sources.specs.sources.Calls.{Went};
ghost use Rattle.calloop_sources.specs.TransientMarks.{IsRegisteredBy};
ghost use Rattle.calloop_ends.specs.ping.Pings.{calls_of, action_of, ping_meaning};

use super::PingSource;
use crate::cell::source::{CellSource, take_turn};
use calloop_poll::sys::events::EventIterator;
use calloop_poll::sys::poll::Poll;
use calloop_poll::sys::synthetic::Synthetic;
use calloop_poll::sys::{Poller, Readiness};
use calloop_slots::error::{Error, Result as LoopResult};
use calloop_slots::token::{Token, TokenFactory};
use calloop_sources::sources::{Asking, Callback, EventSource, IntoError, PostAction};
use calloop_wake::{TakenPass, Tally};
use std::sync::Wait;
use thiserror::Error as ThisError;

/// Why a ping's turn could fail. This crate's own pings never fail: their memory is reserved up front.
#[derive(Debug, Drop, ThisError)]
pub enum PingError {
    #[error("out of memory")]
    OutOfMemory,
}

impl IntoError for PingError {
    ghost use Rattle.std.specs.Prelude.{◌≡◌};
    ghost use Rattle.calloop_slots.specs.declared.error.Error.TheVariants.{OutOfMemory};
    ghost use Rattle.calloop_sources.specs.sources.Lawful.{memory_of_source};

    ghost becomes = { λ _ e. e ≡ OutOfMemory };

    ghost of_source = { λ _ e is. memory_of_source e is };

    /// `OutOfMemory`.
    fn into_error(self) -> Error {
        Error::OutOfMemory
    }
}

// Calls back, if the source was rung.
fn call_if<F, X, Q>(rang: bool, callback: &mut F, data: &mut X, requests: &mut Q)
where
    Q: Asking,
    F: Callback<(), (), (), X, Q>,
    ensures { Went F.may Q.reaches callback.old «data».old requests.old (calls_of rang) callback.new
        «data».new requests.new }
{
    if rang {
        callback.call((), &mut (), data, requests);
    }
}

/// A close that is told removes the source.
pub(crate) fn action_of(told: bool) -> PostAction
    ensures { result ≡ action_of told }
{
    if told {
        PostAction::Remove
    } else {
        PostAction::Continue
    }
}

/// A ping is registered from a registration that succeeds until one is taken back, as its tally's key shows. So a wrapper of
/// pings keeps the law `at_most_one_is_registered`.
pub fn is_registered_by_its_calls<P: Poller, R: Wait + Drop>()
    ensures { IsRegisteredBy (ping_meaning {P = P}) (λ tally. is_some tally.key) }
{}

impl<R: Wait + Drop> CellSource for PingSource<R> {
    ghost use Rattle.calloop_ends.specs.ping.Pings.{PingOpens, ping_tally};

    type Event = ();

    ghost tally_of = { ping_tally };

    ghost opens = { PingOpens };

    fn tally(&self) -> &Tally {
        self.end.tally()
    }

    /// Calls back once if a ring is due, and removes the source if the last `Ping` is gone.
    fn open_turn<F, X, Q>(
        &mut self,
        pass: TakenPass,
        callback: &mut F,
        data: &mut X,
        requests: &mut Q,
    ) -> Result<PostAction, TakenPass>
    where
        Q: Asking,
        F: Callback<(), (), (), X, Q>,
    {
        let due = self.end.take_turn(pass)?;
        call_if(due.rung, callback, data, requests);
        Ok(action_of(due.told))
    }
}

impl<P: Poller, C, R: Wait + Drop> EventSource<P, C, R> for PingSource<R> {
    ghost use Rattle.calloop_ends.specs.ping.Pings.{ping_meaning};
    ghost use Rattle.calloop_ends.specs.ping.PingKeeping.{ping_keeps};

    type Event = ();

    type Metadata = ();

    type Ret = ();

    type Error = PingError;

    ghost means = { ping_meaning };

    /// The ping's turn: calls back once if a ring is due, and removes the source if the last `Ping` is gone. An event of another
    /// token, or without a posted key behind it, calls nothing.
    fn process_events<F, X, Q>(
        &mut self,
        _readiness: Readiness,
        token: Token,
        poll: &mut Poll<P, C, R>,
        callback: &mut F,
        data: &mut X,
        requests: &mut Q,
    ) -> Result<PostAction, PingError>
    where
        Q: Asking,
        F: Callback<(), (), (), X, Q>,
    {
        take_turn(self, token, poll, callback, data, requests)
    }

    /// Registers the ping under the factory's next token. One that was rung or closed before is posted at once.
    ///
    /// Fails with `IoError` of kind `AlreadyExists` if the ping is registered already, with `TooManyTokens` if the factory has no
    /// token left, and with `OutOfMemory` if memory runs out. On failure the ping and the board are unchanged.
    fn register(&mut self, poll: &mut Poll<P, C, R>, factory: &mut TokenFactory) -> LoopResult<()> {
        self.end.register(poll, factory)
    }

    /// Moves the registration to the factory's next token; under the same key it does nothing. What is due is posted under the
    /// new key.
    ///
    /// Fails with `IoError` of kind `NotFound` if the ping isn't registered, with `TooManyTokens` if the factory has no token
    /// left, with `IoError` of kind `AlreadyExists` if the place of the new key is open already, and with `OutOfMemory` if memory
    /// runs out. On failure the ping and the board are unchanged.
    fn reregister(
        &mut self,
        poll: &mut Poll<P, C, R>,
        factory: &mut TokenFactory,
    ) -> LoopResult<()> {
        self.end.reregister(poll, factory)
    }

    /// Takes the registration back. What is due is told after the next registration. Fails with `IoError` of kind `NotFound` if
    /// the ping isn't registered, and then nothing changes.
    fn unregister(&mut self, poll: &mut Poll<P, C, R>) -> LoopResult<()> {
        self.end.unregister(poll)
    }

    /// Returns false: a ping isn't told of waits.
    fn needs_extra_lifecycle_events() -> bool {
        false
    }

    fn max_synthetic() -> u16 {
        0
    }

    fn before_sleep(&mut self, _out: &mut Synthetic) -> LoopResult<()> {
        Ok(())
    }

    fn before_handle_events(&mut self, _events: EventIterator<'_>) {}

    ghost keeps = { ping_keeps };
}
