//! A source that alternates between the factory's first token and its second one.
ghost use Rattle.std.specs.Prelude.{◌≡◌, IfErr};
ghost use Rattle.calloop_slots.specs.declared.error.Error.TheVariants.{TooManyTokens};
ghost use Rattle.calloop_test_sources.specs.Spending.{Spends};

use calloop::{
    Asking, Callback, EventIterator, EventSource, Poll, Poller, PostAction, Readiness, Result,
    Synthetic, Token, TokenFactory,
};
use std::sync::Wait;

/// Each registration moves the inner source from sub-id 0 to sub-id 1, or back.
#[derive(Drop)]
pub struct Shifting<T> {
    pub source: T,
    pub is_shifted: bool,
}

impl<T> Shifting<T> {
    /// Makes one whose first registration has sub-id 0.
    pub fn new(source: T) -> Shifting<T> {
        Shifting {
            source,
            is_shifted: true,
        }
    }

    fn shift(&mut self, factory: &mut TokenFactory) -> Result<()>
        ensures source { self.new.source ≡ self.old.source }
        ensures spends { Spends factory.old factory.new }
        ensures err { IfErr result (λ e. e ≡ TooManyTokens) }
    {
        self.is_shifted = !self.is_shifted;
        if self.is_shifted {
            factory.token()?;
        }
        Ok(())
    }
}

impl<P: Poller, C, R: Wait + Drop, T> EventSource<P, C, R> for Shifting<T>
where
    T: EventSource<P, C, R> + Drop,
{
    ghost use Rattle.calloop_test_sources.specs.Spending.{spending, keeping_spending};

    type Event = T::Event;

    type Metadata = T::Metadata;

    type Ret = T::Ret;

    type Error = T::Error;

    ghost means = { spending (λ s. s.source) T.EventSource.means };

    fn process_events<F, X, Q>(
        &mut self,
        readiness: Readiness,
        token: Token,
        poll: &mut Poll<P, C, R>,
        callback: &mut F,
        data: &mut X,
        requests: &mut Q,
    ) -> std::result::Result<PostAction, T::Error>
    where
        Q: Asking,
        F: Callback<T::Event, T::Metadata, T::Ret, X, Q>,
    {
        self.source
            .process_events(readiness, token, poll, callback, data, requests)
    }

    fn register(&mut self, poll: &mut Poll<P, C, R>, factory: &mut TokenFactory) -> Result<()> {
        self.shift(factory)?;
        self.source.register(poll, factory)
    }

    fn reregister(&mut self, poll: &mut Poll<P, C, R>, factory: &mut TokenFactory) -> Result<()> {
        self.shift(factory)?;
        self.source.reregister(poll, factory)
    }

    fn unregister(&mut self, poll: &mut Poll<P, C, R>) -> Result<()> {
        self.source.unregister(poll)
    }

    fn needs_extra_lifecycle_events() -> bool {
        false
    }

    fn max_synthetic() -> u16 {
        0
    }

    fn before_sleep(&mut self, _out: &mut Synthetic) -> Result<()> {
        Ok(())
    }

    fn before_handle_events(&mut self, _events: EventIterator<'_>) {}

    ghost keeps = { keeping_spending (λ s. s.source) T.EventSource.means T.EventSource.keeps };
}
