//! A source of the program's own, which calls back at each of the loop's first waits.
use calloop::{
    Asking, Callback, Error, EventIterator, EventSource, Poll, Poller, PostAction, Readiness,
    Result, Synthetic, Token, TokenFactory,
};
use std::sync::Wait;

/// Asks for an event of its own before so many waits, and leaves the loop after the last.
#[derive(Drop)]
pub struct Countdown {
    left: u32,
    token: Option<Token>,
}

impl Countdown {
    pub fn new(waits: u32) -> Countdown {
        Countdown {
            left: waits,
            token: None,
        }
    }
}

impl<P: Poller, C, R: Wait + Drop> EventSource<P, C, R> for Countdown {
    ghost use Rattle.calloop_sources.specs.sources.Meanings.{attentive};
    ghost use Rattle.calloop_sources.specs.sources.Lawful.{keeping_attentive};
    ghost use Rattle.three_kinds.specs.Countdowns.{CallsOnce};

    type Event = ();

    type Metadata = ();

    type Ret = ();

    type Error = Error;

    ghost means = { attentive CallsOnce };

    fn process_events<F, X, Q>(
        &mut self,
        _readiness: Readiness,
        _token: Token,
        _poll: &mut Poll<P, C, R>,
        callback: &mut F,
        data: &mut X,
        requests: &mut Q,
    ) -> Result<PostAction>
    where
        Q: Asking,
        F: Callback<(), (), (), X, Q>,
    {
        callback.call((), &mut (), data, requests);
        if self.left == 0 {
            Ok(PostAction::Remove)
        } else {
            Ok(PostAction::Continue)
        }
    }

    fn register(&mut self, _poll: &mut Poll<P, C, R>, factory: &mut TokenFactory) -> Result<()> {
        self.token = Some(factory.token()?);
        Ok(())
    }

    fn reregister(&mut self, poll: &mut Poll<P, C, R>, factory: &mut TokenFactory) -> Result<()> {
        self.register(poll, factory)
    }

    fn unregister(&mut self, _poll: &mut Poll<P, C, R>) -> Result<()> {
        self.token = None;
        Ok(())
    }

    fn needs_extra_lifecycle_events() -> bool {
        true
    }

    fn max_synthetic() -> u16 {
        1
    }

    fn before_sleep(&mut self, out: &mut Synthetic) -> Result<()> {
        let Some(left) = self.left.checked_sub(1) else {
            return Ok(());
        };
        self.left = left;
        if let Some(token) = self.token {
            let _full = out.push(Readiness::EMPTY, token);
        }
        Ok(())
    }

    fn before_handle_events(&mut self, _events: EventIterator<'_>) {}

    ghost keeps = { keeping_attentive CallsOnce };
}
