//! Sources for tests: pings and timers with callbacks that report their number, and a source of the tests' own.
ghost use Rattle.std.specs.Prelude.{◌≡◌};

use calloop::{
    Asking, Callback, Dispatcher, Error, EventIterator, EventSource, Instant, IntoError, On, OneOf,
    PingSource, Poll, Poller, PostAction, Readiness, Result, Sources, Synthetic, TimeoutAction,
    Timer, Token, TokenFactory,
};
use std::io;
use std::sync::Wait;

/// A callback that reports its number.
#[derive(Drop)]
pub struct Teller {
    pub number: u32,
}

impl On<(), Vec<u32>, ()> for Teller {
    fn on(&mut self, _event: (), said: &mut Vec<u32>) {
        let _failed = said.push(self.number);
    }
}

/// A callback that reports its number, and returns its action.
#[derive(Drop)]
pub struct Waker {
    pub number: u32,
    pub action: TimeoutAction,
}

impl On<Instant, Vec<u32>, TimeoutAction> for Waker {
    fn on(&mut self, _event: Instant, said: &mut Vec<u32>) -> TimeoutAction {
        let _failed = said.push(self.number);
        self.action
    }
}

/// A callback that reports how many turns its source had.
#[derive(Drop)]
pub struct Listener;

impl On<u32, Vec<u32>, ()> for Listener {
    fn on(&mut self, turns: u32, said: &mut Vec<u32>) {
        let _failed = said.push(turns);
    }
}

/// A source that counts its calls. Each turn ends with the same action, or fails if there is none; a registration beyond the
/// limit fails.
#[derive(Debug, Drop)]
pub struct Counter {
    pub turns: u32,
    pub registrations: u32,
    pub unregistrations: u32,
    pub limit: u32,
    pub ends: Option<PostAction>,
}

impl Counter {
    /// Makes one that is registered nowhere.
    pub fn new(limit: u32, ends: Option<PostAction>) -> Counter {
        Counter {
            turns: 0,
            registrations: 0,
            unregistrations: 0,
            limit,
            ends,
        }
    }

    fn count_registration(&mut self) -> Result<()>
        ensures { self.new.turns ≡ self.old.turns }
    {
        if self.registrations >= self.limit {
            return Err(Error::IoError(io::Error::from(io::ErrorKind::NotFound)));
        }
        self.registrations = self.registrations.saturating_add(1);
        Ok(())
    }
}

/// Why a turn of a `Counter` failed.
#[derive(Debug, Drop)]
pub struct Broken;

impl IntoError for Broken {
    ghost use Rattle.calloop_test_sources.specs.Sources.{IsOther, other_is_of_source};

    ghost becomes = { λ _ e. IsOther e };

    ghost of_source = { λ _ e is. other_is_of_source e is };

    fn into_error(self) -> Error {
        Error::OtherError(anyhow::Error::msg("broken"))
    }
}

impl<P: Poller, C, R: Wait + Drop> EventSource<P, C, R> for Counter {
    ghost use Rattle.calloop_sources.specs.sources.Meanings.{still};
    ghost use Rattle.calloop_sources.specs.sources.Lawful.{keeping_still};
    ghost use Rattle.calloop_test_sources.specs.Sources.{Counts};

    type Event = u32;

    type Metadata = ();

    type Ret = ();

    type Error = Broken;

    ghost means = { still Counts };

    fn process_events<F, X, Q>(
        &mut self,
        _readiness: Readiness,
        _token: Token,
        _poll: &mut Poll<P, C, R>,
        callback: &mut F,
        data: &mut X,
        requests: &mut Q,
    ) -> std::result::Result<PostAction, Broken>
    where
        Q: Asking,
        F: Callback<u32, (), (), X, Q>,
    {
        self.turns = self.turns.saturating_add(1);
        callback.call(self.turns, &mut (), data, requests);
        match self.ends {
            Some(action) => Ok(action),
            None => Err(Broken),
        }
    }

    fn register(&mut self, _poll: &mut Poll<P, C, R>, _factory: &mut TokenFactory) -> Result<()> {
        self.count_registration()
    }

    fn reregister(&mut self, _poll: &mut Poll<P, C, R>, _factory: &mut TokenFactory) -> Result<()> {
        self.count_registration()
    }

    fn unregister(&mut self, _poll: &mut Poll<P, C, R>) -> Result<()> {
        self.unregistrations = self.unregistrations.saturating_add(1);
        Ok(())
    }

    fn needs_extra_lifecycle_events() -> bool {
        false
    }

    fn max_synthetic() -> u16 {
        0
    }

    fn before_sleep(&mut self, _out: &mut Synthetic) -> Result<()> {
        Ok(())
    }

    fn before_handle_events(&mut self, _events: EventIterator<'_>) {}

    ghost keeps = { keeping_still Counts };
}

/// The sources of a test.
pub type Source<R> = Sources<
    OneOf<
        Dispatcher<PingSource<R>, Teller>,
        OneOf<Dispatcher<Timer, Waker>, Dispatcher<Counter, Listener>>,
    >,
    Vec<u32>,
>;
