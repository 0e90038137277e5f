//! A source of the tests with a ping in it, which can fail before it calls the ping.
use crate::source::{Broken, Teller};
use calloop::{
    Asking, Callback, Dispatcher, Error, EventIterator, EventSource, OneOf, PingSource, Poll,
    Poller, PostAction, Readiness, Result, Synthetic, Token, TokenFactory,
};
use std::io;
use std::sync::Wait;

/// A ping behind a guard. So many turns fail before they reach the ping, and if it is stuck, so does each
/// unregistration.
#[derive(Drop)]
pub struct Guarded<R: Wait + Drop> {
    pub ping: PingSource<R>,
    pub failures: u32,
    pub is_stuck: bool,
}

impl<P: Poller, C, R: Wait + Drop> EventSource<P, C, R> for Guarded<R> {
    ghost use Rattle.calloop_test_sources.specs.Guards.{guarded_meaning, guarded_keeps};

    type Event = ();

    type Metadata = ();

    type Ret = ();

    type Error = Broken;

    ghost means = { guarded_meaning };

    fn process_events<F, X, Q>(
        &mut self,
        readiness: Readiness,
        token: Token,
        poll: &mut Poll<P, C, R>,
        callback: &mut F,
        data: &mut X,
        requests: &mut Q,
    ) -> std::result::Result<PostAction, Broken>
    where
        Q: Asking,
        F: Callback<(), (), (), X, Q>,
    {
        if self.failures > 0 {
            self.failures -= 1;
            return Err(Broken);
        }
        match self
            .ping
            .process_events(readiness, token, poll, callback, data, requests)
        {
            Ok(action) => Ok(action),
            Err(_) => Err(Broken),
        }
    }

    fn register(&mut self, poll: &mut Poll<P, C, R>, factory: &mut TokenFactory) -> Result<()> {
        self.ping.register(poll, factory)
    }

    fn reregister(&mut self, poll: &mut Poll<P, C, R>, factory: &mut TokenFactory) -> Result<()> {
        self.ping.reregister(poll, factory)
    }

    fn unregister(&mut self, poll: &mut Poll<P, C, R>) -> Result<()> {
        if self.is_stuck {
            return Err(Error::IoError(io::Error::from(io::ErrorKind::Other)));
        }
        self.ping.unregister(poll)
    }

    fn needs_extra_lifecycle_events() -> bool {
        false
    }

    fn max_synthetic() -> u16 {
        0
    }

    fn before_sleep(&mut self, _out: &mut Synthetic) -> Result<()> {
        Ok(())
    }

    fn before_handle_events(&mut self, _events: EventIterator<'_>) {}

    ghost keeps = { guarded_keeps };
}

/// The sources of a test of guards: guarded pings, and plain ones.
pub type Guards<R> = OneOf<Dispatcher<Guarded<R>, Teller>, Dispatcher<PingSource<R>, Teller>>;
