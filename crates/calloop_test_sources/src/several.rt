//! A source of the tests that asks for several events before a wait.
ghost use Rattle.std.specs.Prelude.{◌≡◌, ◌^◌, ◌<◌};

use crate::source::{Broken, Listener, Teller, Waker};
use calloop::{
    Asking, Callback, Dispatcher, Error, EventIterator, EventSource, OneOf, PingSource, Poll,
    Poller, PostAction, Readiness, Result, Sources, Synthetic, Timer, Token, TokenFactory,
};
use std::sync::Wait;

/// Before a wait it asks for an event of each of its tokens, in order, and forgets them. It is registered under none of its
/// own. It may ask for `LIMIT`, and counts the events handed back unchanged. A turn reports slot and sub-id of its token.
#[derive(Drop)]
pub struct Several<const LIMIT: u16> {
    pub tokens: Vec<Token>,
    pub is_failing: bool,
    pub waits: u32,
    pub handed_back: u32,
}

impl<const LIMIT: u16> Several<LIMIT> {
    /// Makes one that asks for an event of each of these.
    pub fn new(tokens: Vec<Token>) -> Several<LIMIT> {
        Several {
            tokens,
            is_failing: false,
            waits: 0,
            handed_back: 0,
        }
    }
}

// Returns ten times the slot, plus the sub-id.
fn number_of(token: Token) -> u32 {
    let sub_id = token.key() % 65_536;
    token
        .registration()
        .slot()
        .saturating_mul(10)
        .saturating_add(sub_id as u32)
}

impl<P: Poller, C, R: Wait + Drop, const LIMIT: u16> EventSource<P, C, R> for Several<LIMIT> {
    ghost use Rattle.calloop_sources.specs.sources.Meanings.{attentive_to};
    ghost use Rattle.calloop_sources.specs.sources.Lawful.{keeping_attentive_to};
    ghost use Rattle.calloop_test_sources.specs.Sources.{Anything};

    type Event = u32;

    type Metadata = ();

    type Ret = ();

    type Error = Broken;

    ghost means = { attentive_to LIMIT Anything };

    fn process_events<F, X, Q>(
        &mut self,
        _readiness: Readiness,
        token: Token,
        _poll: &mut Poll<P, C, R>,
        callback: &mut F,
        data: &mut X,
        requests: &mut Q,
    ) -> std::result::Result<PostAction, Broken>
    where
        Q: Asking,
        F: Callback<u32, (), (), X, Q>,
    {
        callback.call(number_of(token), &mut (), data, requests);
        Ok(PostAction::Continue)
    }

    fn register(&mut self, _poll: &mut Poll<P, C, R>, _factory: &mut TokenFactory) -> Result<()> {
        Ok(())
    }

    fn reregister(&mut self, _poll: &mut Poll<P, C, R>, _factory: &mut TokenFactory) -> Result<()> {
        Ok(())
    }

    fn unregister(&mut self, _poll: &mut Poll<P, C, R>) -> Result<()> {
        Ok(())
    }

    fn needs_extra_lifecycle_events() -> bool {
        true
    }

    fn max_synthetic() -> u16 {
        LIMIT
    }

    fn before_sleep(&mut self, out: &mut Synthetic) -> Result<()> {
        self.waits = self.waits.saturating_add(1);
        for token in &self.tokens {
            if let Err((readiness, back)) = out.push(Readiness::EMPTY, *token) {
                if !readiness.readable && back == *token {
                    self.handed_back = self.handed_back.saturating_add(1);
                }
            }
        }
        self.tokens.clear();
        if self.is_failing {
            self.is_failing = false;
            return Err(Error::OtherError(anyhow::Error::msg("no wait")));
        }
        Ok(())
    }

    fn before_handle_events(&mut self, _events: EventIterator<'_>) {}

    ghost keeps = { keeping_attentive_to LIMIT Anything };
}

/// The sources of a test of several events: some that may ask for three, for one, and for none, pings and timers.
pub type Severals<R> = Sources<
    OneOf<
        Dispatcher<Several<3>, Listener>,
        OneOf<
            Dispatcher<Several<1>, Listener>,
            OneOf<
                Dispatcher<Several<0>, Listener>,
                OneOf<Dispatcher<PingSource<R>, Teller>, Dispatcher<Timer, Waker>>,
            >,
        >,
    >,
    Vec<u32>,
>;
