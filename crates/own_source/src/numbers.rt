//! A source of numbers, one at each of the loop's first waits.
use calloop::{
    Asking, Callback, Error, EventIterator, EventSource, Poll, Poller, PostAction, Readiness,
    Result, Synthetic, Token, TokenFactory,
};
use std::sync::Wait;

/// Hands out 1, 2 and so on, one number before each wait, and leaves the loop after the last.
#[derive(Drop)]
pub struct Numbers {
    number: u64,
    last: u64,
    token: Option<Token>,
}

impl Numbers {
    pub fn up_to(last: u64) -> Numbers {
        Numbers {
            number: 0,
            last,
            token: None,
        }
    }
}

impl<P: Poller, C, R: Wait + Drop> EventSource<P, C, R> for Numbers {
    ghost use Rattle.calloop_sources.specs.sources.Meanings.{attentive};
    ghost use Rattle.calloop_sources.specs.sources.Lawful.{keeping_attentive};
    ghost use Rattle.own_source.specs.Counting.{HandsOut};

    type Event = u64;

    type Metadata = ();

    type Ret = ();

    type Error = Error;

    ghost means = { attentive HandsOut };

    fn process_events<F, X, Q>(
        &mut self,
        _readiness: Readiness,
        _token: Token,
        _poll: &mut Poll<P, C, R>,
        callback: &mut F,
        data: &mut X,
        requests: &mut Q,
    ) -> Result<PostAction>
    where
        Q: Asking,
        F: Callback<u64, (), (), X, Q>,
    {
        callback.call(self.number, &mut (), data, requests);
        if self.number == self.last {
            Ok(PostAction::Remove)
        } else {
            Ok(PostAction::Continue)
        }
    }

    fn register(&mut self, _poll: &mut Poll<P, C, R>, factory: &mut TokenFactory) -> Result<()> {
        self.token = Some(factory.token()?);
        Ok(())
    }

    fn reregister(&mut self, poll: &mut Poll<P, C, R>, factory: &mut TokenFactory) -> Result<()> {
        self.register(poll, factory)
    }

    fn unregister(&mut self, _poll: &mut Poll<P, C, R>) -> Result<()> {
        self.token = None;
        Ok(())
    }

    fn needs_extra_lifecycle_events() -> bool {
        true
    }

    fn max_synthetic() -> u16 {
        1
    }

    fn before_sleep(&mut self, out: &mut Synthetic) -> Result<()> {
        self.number = self.number.saturating_add(1);
        if let Some(token) = self.token {
            let _full = out.push(Readiness::EMPTY, token);
        }
        Ok(())
    }

    fn before_handle_events(&mut self, _events: EventIterator<'_>) {}

    ghost keeps = { keeping_attentive HandsOut };
}
