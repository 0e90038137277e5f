//! Sources behind a box or a lent reference. Each call goes to the inner source, whose results and errors are handed on. From
//! calloop's `sources/mod.rs`.
use crate::sources::{Asking, Callback, EventSource, PostAction};
use calloop_poll::sys::events::EventIterator;
use calloop_poll::sys::poll::Poll;
use calloop_poll::sys::synthetic::Synthetic;
use calloop_poll::sys::{Poller, Readiness};
use calloop_slots::error::Result as LoopResult;
use calloop_slots::token::{Token, TokenFactory};
use calloop_slots::wheel::Instant;
use std::sync::Wait;

impl<P: Poller, C, R: Wait + Drop, T: EventSource<P, C, R>> EventSource<P, C, R> for Box<T> {
    ghost use Rattle.calloop_sources.specs.sources.Meanings.{seen_as};
    ghost use Rattle.calloop_sources.specs.sources.Lawful.{keeping_seen};

    type Event = T::Event;

    type Metadata = T::Metadata;

    type Ret = T::Ret;

    type Error = T::Error;

    ghost means = { seen_as (λ s. s.value) T.means };

    fn process_events<F, X, Q>(
        &mut self,
        readiness: Readiness,
        token: Token,
        poll: &mut Poll<P, C, R>,
        callback: &mut F,
        data: &mut X,
        requests: &mut Q,
    ) -> Result<PostAction, T::Error>
    where
        Q: Asking,
        F: Callback<T::Event, T::Metadata, T::Ret, X, Q>,
    {
        (**self).process_events(readiness, token, poll, callback, data, requests)
    }

    fn register(&mut self, poll: &mut Poll<P, C, R>, factory: &mut TokenFactory) -> LoopResult<()> {
        (**self).register(poll, factory)
    }

    fn reregister(
        &mut self,
        poll: &mut Poll<P, C, R>,
        factory: &mut TokenFactory,
    ) -> LoopResult<()> {
        (**self).reregister(poll, factory)
    }

    fn unregister(&mut self, poll: &mut Poll<P, C, R>) -> LoopResult<()> {
        (**self).unregister(poll)
    }

    fn needs_extra_lifecycle_events() -> bool {
        <T as EventSource<P, C, R>>::needs_extra_lifecycle_events()
    }

    fn max_synthetic() -> u16 {
        <T as EventSource<P, C, R>>::max_synthetic()
    }

    fn before_sleep(&mut self, out: &mut Synthetic) -> LoopResult<()> {
        (**self).before_sleep(out)
    }

    fn before_handle_events(&mut self, events: EventIterator<'_>) {
        (**self).before_handle_events(events);
    }

    fn try_set_deadline(&mut self, deadline: Instant) -> bool {
        (**self).try_set_deadline(deadline)
    }

    ghost keeps = { keeping_seen (λ s. s.value) T.means T.keeps };
}

/// A source that is lent. calloop has this as an implementation for `&mut T`.
#[derive(Drop)]
pub struct Forward<'a, T> {
    pub source: &'a mut T,
}

impl<'a, P: Poller, C, R: Wait + Drop, T: EventSource<P, C, R>> EventSource<P, C, R>
    for Forward<'a, T> {
    ghost use Rattle.calloop_sources.specs.sources.Meanings.{seen_as};
    ghost use Rattle.calloop_sources.specs.sources.Lawful.{keeping_seen};

    type Event = T::Event;

    type Metadata = T::Metadata;

    type Ret = T::Ret;

    type Error = T::Error;

    ghost means = { seen_as (λ s. s.source.now) T.means };

    fn process_events<F, X, Q>(
        &mut self,
        readiness: Readiness,
        token: Token,
        poll: &mut Poll<P, C, R>,
        callback: &mut F,
        data: &mut X,
        requests: &mut Q,
    ) -> Result<PostAction, T::Error>
    where
        Q: Asking,
        F: Callback<T::Event, T::Metadata, T::Ret, X, Q>,
    {
        self.source
            .process_events(readiness, token, poll, callback, data, requests)
    }

    fn register(&mut self, poll: &mut Poll<P, C, R>, factory: &mut TokenFactory) -> LoopResult<()> {
        self.source.register(poll, factory)
    }

    fn reregister(
        &mut self,
        poll: &mut Poll<P, C, R>,
        factory: &mut TokenFactory,
    ) -> LoopResult<()> {
        self.source.reregister(poll, factory)
    }

    fn unregister(&mut self, poll: &mut Poll<P, C, R>) -> LoopResult<()> {
        self.source.unregister(poll)
    }

    fn needs_extra_lifecycle_events() -> bool {
        <T as EventSource<P, C, R>>::needs_extra_lifecycle_events()
    }

    fn max_synthetic() -> u16 {
        <T as EventSource<P, C, R>>::max_synthetic()
    }

    fn before_sleep(&mut self, out: &mut Synthetic) -> LoopResult<()> {
        self.source.before_sleep(out)
    }

    fn before_handle_events(&mut self, events: EventIterator<'_>) {
        self.source.before_handle_events(events);
    }

    fn try_set_deadline(&mut self, deadline: Instant) -> bool {
        self.source.try_set_deadline(deadline)
    }

    ghost keeps = { keeping_seen (λ s. s.source.now) T.means T.keeps };
}
