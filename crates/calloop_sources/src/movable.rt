//! A source whose registration can be taken back and made again within a registration of the whole.
use crate::sources::{Asking, Callback, EventSource, PostAction};
use crate::transient::TransientSource;
use calloop_poll::sys::events::EventIterator;
use calloop_poll::sys::poll::Poll;
use calloop_poll::sys::synthetic::Synthetic;
use calloop_poll::sys::{Poller, Readiness};
use calloop_slots::error::Result as LoopResult;
use calloop_slots::token::{Token, TokenFactory};
use std::sync::Wait;

/// A `TransientSource` that `reregister` registers, too, if it is to stay and isn't registered: so a source made of several can
/// unregister all its parts, and then call `reregister` of each, and no part meets a key that another still has. A part that
/// rests stays at rest then. calloop has none.
#[derive(Debug, Drop)]
pub struct Movable<T> {
    pub source: TransientSource<T>,
}

impl<T> From<T> for Movable<T> {
    ghost use Rattle.std.specs.Prelude.{◌≡◌};
    ghost use Rattle.calloop_sources.specs.Movables.{coming_again};

    ghost from_gives = { λ source movable. movable ≡ coming_again source };

    /// Makes one whose source is registered by the first registration.
    fn from(source: T) -> Movable<T> {
        Movable {
            source: TransientSource::from(source),
        }
    }
}

impl<P: Poller, C, R: Wait + Drop, T> EventSource<P, C, R> for Movable<T>
where
    T: EventSource<P, C, R> + Drop,
{
    ghost use Rattle.calloop_sources.specs.Movables.{movable_meaning, movable_keeps};

    type Event = T::Event;

    type Metadata = T::Metadata;

    type Ret = T::Ret;

    type Error = T::Error;

    ghost means = { movable_meaning T.EventSource.means };

    fn process_events<F, X, Q>(
        &mut self,
        readiness: Readiness,
        token: Token,
        poll: &mut Poll<P, C, R>,
        callback: &mut F,
        data: &mut X,
        requests: &mut Q,
    ) -> Result<PostAction, T::Error>
    where
        Q: Asking,
        F: Callback<T::Event, T::Metadata, T::Ret, X, Q>,
    {
        self.source
            .process_events(readiness, token, poll, callback, data, requests)
    }

    fn register(&mut self, poll: &mut Poll<P, C, R>, factory: &mut TokenFactory) -> LoopResult<()> {
        self.source.register(poll, factory)
    }

    /// Registers the inner source if it is to stay and isn't registered. All else is as for a `TransientSource`.
    fn reregister(
        &mut self,
        poll: &mut Poll<P, C, R>,
        factory: &mut TokenFactory,
    ) -> LoopResult<()> {
        if self.source.is_given_up() {
            self.source.register(poll, factory)
        } else {
            self.source.reregister(poll, factory)
        }
    }

    fn unregister(&mut self, poll: &mut Poll<P, C, R>) -> LoopResult<()> {
        self.source.unregister(poll)
    }

    /// False: it isn't told of waits, whatever the inner source is.
    fn needs_extra_lifecycle_events() -> bool {
        false
    }

    fn max_synthetic() -> u16 {
        0
    }

    fn before_sleep(&mut self, _out: &mut Synthetic) -> LoopResult<()> {
        Ok(())
    }

    fn before_handle_events(&mut self, _events: EventIterator<'_>) {}

    ghost keeps = { movable_keeps T.EventSource.means T.EventSource.keeps };
}
