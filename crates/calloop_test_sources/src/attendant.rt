//! A source of the tests that is told of waits.
ghost use Rattle.std.specs.Prelude.{◌≡◌};

use crate::source::{Broken, Listener, Teller};
use calloop::{
    Asking, Callback, Dispatcher, Error, EventIterator, EventSource, OneOf, PingSource, Poll,
    Poller, PostAction, Readiness, Result, Sources, Synthetic, Token, TokenFactory,
};
use std::io;
use std::sync::Wait;

/// Before a wait it asks for an event for itself, as long as it has one to ask for, and fails before one wait. It counts the
/// waits, and the events that it is told of. A turn reports how many waits there were.
#[derive(Debug, Drop)]
pub struct Attendant {
    pub token: Option<Token>,
    pub is_refused: bool,
    pub asks: u32,
    pub fails_at: u32,
    pub waits: u32,
    pub told: u32,
    pub ends: PostAction,
}

impl Attendant {
    /// Makes one that asks for this many events, stays in the loop, and never fails.
    pub fn new(asks: u32) -> Attendant {
        Attendant {
            token: None,
            is_refused: false,
            asks,
            fails_at: 0,
            waits: 0,
            told: 0,
            ends: PostAction::Continue,
        }
    }

    fn take_token(&mut self, factory: &mut TokenFactory) -> Result<()>
        ensures { self.new.waits ≡ self.old.waits }
    {
        if self.is_refused {
            return Err(Error::IoError(io::Error::from(io::ErrorKind::NotFound)));
        }
        self.token = Some(factory.token()?);
        Ok(())
    }
}

impl<P: Poller, C, R: Wait + Drop> EventSource<P, C, R> for Attendant {
    ghost use Rattle.calloop_sources.specs.sources.Meanings.{attentive};
    ghost use Rattle.calloop_sources.specs.sources.Lawful.{keeping_attentive};
    ghost use Rattle.calloop_test_sources.specs.Sources.{Attends};

    type Event = u32;

    type Metadata = ();

    type Ret = ();

    type Error = Broken;

    ghost means = { attentive Attends };

    fn process_events<F, X, Q>(
        &mut self,
        _readiness: Readiness,
        _token: Token,
        _poll: &mut Poll<P, C, R>,
        callback: &mut F,
        data: &mut X,
        requests: &mut Q,
    ) -> std::result::Result<PostAction, Broken>
    where
        Q: Asking,
        F: Callback<u32, (), (), X, Q>,
    {
        callback.call(self.waits, &mut (), data, requests);
        Ok(self.ends)
    }

    fn register(&mut self, _poll: &mut Poll<P, C, R>, factory: &mut TokenFactory) -> Result<()> {
        self.take_token(factory)
    }

    fn reregister(&mut self, _poll: &mut Poll<P, C, R>, factory: &mut TokenFactory) -> Result<()> {
        self.take_token(factory)
    }

    fn unregister(&mut self, _poll: &mut Poll<P, C, R>) -> Result<()> {
        self.token = None;
        Ok(())
    }

    fn needs_extra_lifecycle_events() -> bool {
        true
    }

    fn max_synthetic() -> u16 {
        1
    }

    fn before_sleep(&mut self, out: &mut Synthetic) -> Result<()> {
        self.waits = self.waits.saturating_add(1);
        if self.waits == self.fails_at {
            return Err(Error::OtherError(anyhow::Error::msg("no wait")));
        }
        if self.asks == 0 {
            return Ok(());
        }
        self.asks -= 1;
        if let Some(token) = self.token {
            let _full = out.push(Readiness::EMPTY, token);
        }
        Ok(())
    }

    fn before_handle_events(&mut self, events: EventIterator<'_>) {
        let mut told = 0u32;
        for _ in events {
            told = told.saturating_add(1);
        }
        self.told = self.told.saturating_add(told);
    }

    ghost keeps = { keeping_attentive Attends };
}

/// The sources of a test of waits: one that reports how many there were, and pings.
pub type Attended<R> = Sources<
    OneOf<Dispatcher<Attendant, Listener>, Dispatcher<PingSource<R>, Teller>>,
    Vec<u32>,
>;
