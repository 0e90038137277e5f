//! A source that can't be registered anew.
ghost use Rattle.calloop_test_sources.specs.Spending.{Spends};

use calloop::{
    Asking, Callback, EventIterator, EventSource, PingError, PingSource, Poll, Poller, PostAction,
    Readiness, Result, Synthetic, Token, TokenFactory,
};
use std::sync::Wait;

/// A ping that is to be registered anew after each turn, and then takes all tokens before its ping takes one.
#[derive(Drop)]
pub struct Greedy<R: Wait + Drop> {
    pub ping: PingSource<R>,
}

// Takes all tokens that are left.
fn spend(factory: &mut TokenFactory)
    ensures { Spends factory.old factory.new }
{
    for _round in 0..65_536u32 {
        let _taken = factory.token();
    }
}

impl<P: Poller, C, R: Wait + Drop> EventSource<P, C, R> for Greedy<R> {
    ghost use Rattle.calloop_ends.specs.ping.Pings.{ping_meaning};
    ghost use Rattle.calloop_ends.specs.ping.PingKeeping.{ping_keeps};
    ghost use Rattle.calloop_test_sources.specs.Spending.{spending, keeping_spending};

    type Event = ();

    type Metadata = ();

    type Ret = ();

    type Error = PingError;

    ghost means = { spending (λ s. s.ping) ping_meaning };

    fn process_events<F, X, Q>(
        &mut self,
        readiness: Readiness,
        token: Token,
        poll: &mut Poll<P, C, R>,
        callback: &mut F,
        data: &mut X,
        requests: &mut Q,
    ) -> std::result::Result<PostAction, PingError>
    where
        Q: Asking,
        F: Callback<(), (), (), X, Q>,
    {
        self.ping
            .process_events(readiness, token, poll, callback, data, requests)?;
        Ok(PostAction::Reregister)
    }

    fn register(&mut self, poll: &mut Poll<P, C, R>, factory: &mut TokenFactory) -> Result<()> {
        self.ping.register(poll, factory)
    }

    fn reregister(&mut self, poll: &mut Poll<P, C, R>, factory: &mut TokenFactory) -> Result<()> {
        spend(factory);
        self.ping.reregister(poll, factory)
    }

    fn unregister(&mut self, poll: &mut Poll<P, C, R>) -> Result<()> {
        self.ping.unregister(poll)
    }

    fn needs_extra_lifecycle_events() -> bool {
        false
    }

    fn max_synthetic() -> u16 {
        0
    }

    fn before_sleep(&mut self, _out: &mut Synthetic) -> Result<()> {
        Ok(())
    }

    fn before_handle_events(&mut self, _events: EventIterator<'_>) {}

    ghost keeps = { keeping_spending (λ s. s.ping) ping_meaning ping_keeps };
}
