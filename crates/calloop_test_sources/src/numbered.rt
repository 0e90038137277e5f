//! A ping of the tests, with a number that rises.
ghost use Rattle.calloop_sources.specs.sources.Calls.{Went};
ghost use Rattle.calloop_test_sources.specs.Passing.{numbered_calls};

use crate::source::Broken;
use calloop::{
    Asking, Callback, EventIterator, EventSource, PingSource, Poll, Poller, PostAction, Readiness,
    Result, Synthetic, Token, TokenFactory,
};
use std::sync::Wait;

/// How turns of a numbered ping end.
#[derive(Clone, Copy, Debug)]
pub enum Ending {
    /// With `Disable`.
    Disable,
    /// With `Remove` if the number is above this one, and else with `Continue`.
    RemoveAbove(u32),
}

/// A ping whose number begins at 0, and rises at each registration, each one anew, and each turn. A turn hands the number out if
/// the ping rang, and its ending depends on the number, before the number rises.
#[derive(Drop)]
pub struct Numbered<R: Wait + Drop> {
    pub ping: PingSource<R>,
    pub number: u32,
    pub ending: Ending,
}

// Notes that it was called.
#[derive(Drop)]
struct Rang {
    rang: bool,
}

impl<Q: Asking> Callback<(), (), (), (), Q> for Rang {
    fn call(&mut self, _event: (), _metadata: &mut (), _data: &mut (), _requests: &mut Q) {
        self.rang = true;
    }
}

// Calls back if the ping rang.
fn call_if<F, X, Q>(rang: bool, number: u32, callback: &mut F, data: &mut X, requests: &mut Q)
where
    Q: Asking,
    F: Callback<u32, (), (), X, Q>,
    ensures { Went F.may Q.reaches callback.old «data».old requests.old (numbered_calls rang number)
        callback.new «data».new requests.new }
{
    if rang {
        callback.call(number, &mut (), data, requests);
    }
}

impl<R: Wait + Drop> Numbered<R> {
    /// Makes one with number 0.
    pub fn new(ping: PingSource<R>, ending: Ending) -> Numbered<R> {
        Numbered {
            ping,
            number: 0,
            ending,
        }
    }

    fn end(&self) -> PostAction {
        match self.ending {
            Ending::Disable => PostAction::Disable,
            Ending::RemoveAbove(most) if self.number > most => PostAction::Remove,
            Ending::RemoveAbove(_) => PostAction::Continue,
        }
    }
}

impl<P: Poller, C, R: Wait + Drop> EventSource<P, C, R> for Numbered<R> {
    ghost use Rattle.calloop_ends.specs.ping.Pings.{ping_meaning};
    ghost use Rattle.calloop_ends.specs.ping.PingKeeping.{ping_keeps};
    ghost use Rattle.calloop_test_sources.specs.Passing.{passing, keeping_passing};

    type Event = u32;

    type Metadata = ();

    type Ret = ();

    type Error = Broken;

    ghost means = { passing (λ s. s.ping) ping_meaning };

    fn process_events<F, X, Q>(
        &mut self,
        readiness: Readiness,
        token: Token,
        poll: &mut Poll<P, C, R>,
        callback: &mut F,
        data: &mut X,
        requests: &mut Q,
    ) -> std::result::Result<PostAction, Broken>
    where
        Q: Asking,
        F: Callback<u32, (), (), X, Q>,
    {
        let mut noted = Rang { rang: false };
        let turn = self
            .ping
            .process_events(readiness, token, poll, &mut noted, &mut (), &mut ());
        call_if(noted.rang, self.number, callback, data, requests);
        let end = self.end();
        self.number = self.number.saturating_add(1);
        match turn {
            Ok(_) => Ok(end),
            Err(_) => Err(Broken),
        }
    }

    fn register(&mut self, poll: &mut Poll<P, C, R>, factory: &mut TokenFactory) -> Result<()> {
        self.number = self.number.saturating_add(1);
        self.ping.register(poll, factory)
    }

    fn reregister(&mut self, poll: &mut Poll<P, C, R>, factory: &mut TokenFactory) -> Result<()> {
        self.number = self.number.saturating_add(1);
        self.ping.reregister(poll, factory)
    }

    fn unregister(&mut self, poll: &mut Poll<P, C, R>) -> Result<()> {
        self.ping.unregister(poll)
    }

    fn needs_extra_lifecycle_events() -> bool {
        false
    }

    fn max_synthetic() -> u16 {
        0
    }

    fn before_sleep(&mut self, _out: &mut Synthetic) -> Result<()> {
        Ok(())
    }

    fn before_handle_events(&mut self, _events: EventIterator<'_>) {}

    ghost keeps = { keeping_passing (λ s. s.ping) ping_meaning ping_keeps };
}
