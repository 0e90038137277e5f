//! Choices of sources: what one loop can hold.
use super::callback::{Asking, Callback};
use super::dispatch::{Dispatch, Dispatcher, Role};
use super::source::{EventSource, PostAction};
use calloop_poll::sys::events::EventIterator;
use calloop_poll::sys::poll::Poll;
use calloop_poll::sys::synthetic::Synthetic;
use calloop_poll::sys::{Poller, Readiness};
use calloop_slots::error::{Error, Failed, Result as LoopResult};
use calloop_slots::token::{RegistrationToken, Token, TokenFactory};
use calloop_slots::wheel::Instant;
use std::marker::PhantomData;
use std::sync::Wait;

/// One of two kinds of source: a source with its callback, or another such choice. So a loop over three kinds is a loop over
/// `OneOf<A, OneOf<B, C>>`.
#[derive(Drop)]
pub enum OneOf<A, B> {
    First(A),
    Other(B),
}

impl<P: Poller, C, R: Wait + Drop, X, Q: Asking, A, B> Dispatch<P, C, R, X, Q> for OneOf<A, B>
where
    A: Dispatch<P, C, R, X, Q>,
    B: Dispatch<P, C, R, X, Q>,
{
    ghost use Rattle.calloop_sources.specs.sources.Meanings.{one_of};
    ghost use Rattle.calloop_sources.specs.sources.Lawful.{keeping_one_of, asking_one_of, failing_one_of};

    ghost means = { one_of A.means B.means };

    fn register(
        &mut self,
        poll: &mut Poll<P, C, R>,
        factory: &mut TokenFactory,
        failure: &mut Error,
    ) -> Result<(), Failed> {
        match self {
            OneOf::First(held) => held.register(poll, factory, failure),
            OneOf::Other(held) => held.register(poll, factory, failure),
        }
    }

    fn reregister(
        &mut self,
        poll: &mut Poll<P, C, R>,
        factory: &mut TokenFactory,
        failure: &mut Error,
    ) -> Result<(), Failed> {
        match self {
            OneOf::First(held) => held.reregister(poll, factory, failure),
            OneOf::Other(held) => held.reregister(poll, factory, failure),
        }
    }

    fn unregister(&mut self, poll: &mut Poll<P, C, R>, failure: &mut Error) -> Result<(), Failed> {
        match self {
            OneOf::First(held) => held.unregister(poll, failure),
            OneOf::Other(held) => held.unregister(poll, failure),
        }
    }

    fn process_events(
        &mut self,
        readiness: Readiness,
        token: Token,
        poll: &mut Poll<P, C, R>,
        data: &mut X,
        requests: &mut Q,
        failure: &mut Error,
    ) -> Result<PostAction, Failed> {
        match self {
            OneOf::First(held) => held.process_events(
                readiness, token, poll, data, requests, failure,
            ),
            OneOf::Other(held) => held.process_events(
                readiness, token, poll, data, requests, failure,
            ),
        }
    }

    fn needs_extra_lifecycle_events(&self) -> bool {
        match self {
            OneOf::First(held) => held.needs_extra_lifecycle_events(),
            OneOf::Other(held) => held.needs_extra_lifecycle_events(),
        }
    }

    fn synthetic_limit(&self) -> u16 {
        match self {
            OneOf::First(held) => held.synthetic_limit(),
            OneOf::Other(held) => held.synthetic_limit(),
        }
    }

    fn role(&self) -> Role {
        match self {
            OneOf::First(held) => held.role(),
            OneOf::Other(held) => held.role(),
        }
    }

    fn settle(
        &mut self,
        token: RegistrationToken,
        poll: &mut Poll<P, C, R>,
    ) -> Option<LoopResult<()>> {
        match self {
            OneOf::First(held) => held.settle(token, poll),
            OneOf::Other(held) => held.settle(token, poll),
        }
    }

    fn before_sleep(&mut self, out: &mut Synthetic) -> LoopResult<()> {
        match self {
            OneOf::First(held) => held.before_sleep(out),
            OneOf::Other(held) => held.before_sleep(out),
        }
    }

    fn before_handle_events(&mut self, events: EventIterator<'_>) {
        match self {
            OneOf::First(held) => held.before_handle_events(events),
            OneOf::Other(held) => held.before_handle_events(events),
        }
    }

    fn try_set_deadline(&mut self, deadline: Instant) -> bool {
        match self {
            OneOf::First(held) => held.try_set_deadline(deadline),
            OneOf::Other(held) => held.try_set_deadline(deadline),
        }
    }

    ghost keeps = { keeping_one_of A.means B.means A.keeps B.keeps };

    ghost asks = { asking_one_of Q.reaches A.means B.means A.asks B.asks };

    ghost fails = { failing_one_of A.means B.means A.fails B.fails };
}

/// The first place of a choice. Like `There`, it only says which place is meant, and there is no value of it to hand over.
pub struct Here;

/// A place after the first one: the place `N` of what comes after it.
pub struct There<N> {
    of: PhantomData<N>,
}

/// A choice that can hold a source `S` with a callback `F`, at position `N` (inferred if the two types have one position).
pub trait Choice<S, F, N>: Sized {
    ghost use Rattle.std.specs.Prelude.{◌≡◌};
    ghost use Rattle.calloop_sources.specs.declared.sources.dispatch.Dispatcher.{Dispatcher};

    ghost held: { Dispatcher S F → Self };

    fn hold(dispatcher: Dispatcher<S, F>) -> Self
        ensures { result ≡ held dispatcher };
}

impl<S, F> Choice<S, F, Here> for Dispatcher<S, F> {
    ghost use Rattle.std.specs.Prelude.{◌≡◌};

    ghost held = { λ d. d };

    fn hold(dispatcher: Dispatcher<S, F>) -> Dispatcher<S, F>
        ensures { result ≡ dispatcher }
    {
        dispatcher
    }
}

impl<S, F, B> Choice<S, F, Here> for OneOf<Dispatcher<S, F>, B> {
    ghost use Rattle.std.specs.Prelude.{◌≡◌};
    ghost use Rattle.calloop_sources.specs.declared.sources.choice.OneOf.TheVariants.{First};

    ghost held = { λ d. First d };

    fn hold(dispatcher: Dispatcher<S, F>) -> OneOf<Dispatcher<S, F>, B>
        ensures { result ≡ First dispatcher }
    {
        OneOf::First(dispatcher)
    }
}

impl<S, F, A, B, N> Choice<S, F, There<N>> for OneOf<A, B>
where
    B: Choice<S, F, N>,
{
    ghost use Rattle.std.specs.Prelude.{◌≡◌};
    ghost use Rattle.calloop_sources.specs.declared.sources.choice.OneOf.TheVariants.{Other};

    ghost held = { λ d. Other (B.held d) };

    fn hold(dispatcher: Dispatcher<S, F>) -> OneOf<A, B>
        ensures { result ≡ Other (B.held dispatcher) }
    {
        OneOf::Other(B::hold(dispatcher))
    }
}

/// A choice that can hold a source `S` with a callback `F` so that it means exactly what the source with its callback
/// means.
pub trait Hold<S, F, P: Poller, C, R: Wait + Drop, X, Q, N>: Dispatch<P, C, R, X, Q>
    + Choice<S, F, N>
where
    Q: Asking,
    S: EventSource<P, C, R>,
    F: Callback<S::Event, S::Metadata, S::Ret, X, Q>,
{
    ghost use Rattle.calloop_sources.specs.sources.Meanings.{IsHeld};

    ghost held_means: { IsHeld ⟦<Self as Choice<S, F, N>>⟧.held ⟦<Dispatcher<S, F> as Dispatch<P, C, R, X, Q>>⟧.means Self.means };
}

impl<S, F, P: Poller, C, R: Wait + Drop, X, Q: Asking> Hold<S, F, P, C, R, X, Q, Here>
    for Dispatcher<S, F>
where
    S: EventSource<P, C, R>,
    F: Callback<S::Event, S::Metadata, S::Ret, X, Q>,
{
    ghost use Rattle.calloop_sources.specs.sources.Lawful.{held_itself};

    ghost held_means = { held_itself ⟦<Dispatcher<S, F> as Dispatch<P, C, R, X, Q>>⟧.means };
}

impl<S, F, P: Poller, C, R: Wait + Drop, X, Q: Asking, B> Hold<S, F, P, C, R, X, Q, Here>
    for OneOf<Dispatcher<S, F>, B>
where
    S: EventSource<P, C, R>,
    F: Callback<S::Event, S::Metadata, S::Ret, X, Q>,
    B: Dispatch<P, C, R, X, Q>,
{
    ghost use Rattle.calloop_sources.specs.sources.Lawful.{held_first};

    ghost held_means = { held_first ⟦<Dispatcher<S, F> as Dispatch<P, C, R, X, Q>>⟧.means B.means };
}

impl<S, F, P: Poller, C, R: Wait + Drop, X, Q: Asking, A, B, N> Hold<S, F, P, C, R, X, Q, There<N>>
    for OneOf<A, B>
where
    S: EventSource<P, C, R>,
    F: Callback<S::Event, S::Metadata, S::Ret, X, Q>,
    A: Dispatch<P, C, R, X, Q>,
    B: Hold<S, F, P, C, R, X, Q, N>,
{
    ghost use Rattle.calloop_sources.specs.declared.sources.choice.OneOf.TheVariants.{Other};
    ghost use Rattle.calloop_sources.specs.sources.Meanings.{one_of};
    ghost use Rattle.calloop_sources.specs.sources.Lawful.{held_other, held_through};

    ghost held_means = { held_through ⟦<B as Choice<S, F, N>>⟧.held (λ b. Other b)
        ⟦<Dispatcher<S, F> as Dispatch<P, C, R, X, Q>>⟧.means
        ⟦<B as Dispatch<P, C, R, X, Q>>⟧.means
        (one_of A.means ⟦<B as Dispatch<P, C, R, X, Q>>⟧.means)
        B.held_means
        (held_other A.means ⟦<B as Dispatch<P, C, R, X, Q>>⟧.means) };
}

/// A choice that can hold a `T` that isn't a source with a callback, e.g. an adapter, at position `N`. The compiler infers `N`
/// if the two types have one position.
pub trait Place<T, N>: Sized {
    ghost use Rattle.std.specs.Prelude.{◌≡◌};

    ghost placed: { T → Self };

    fn place(thing: T) -> Self
        ensures { result ≡ placed thing };
}

impl<T, B> Place<T, Here> for OneOf<T, B> {
    ghost use Rattle.std.specs.Prelude.{◌≡◌};
    ghost use Rattle.calloop_sources.specs.declared.sources.choice.OneOf.TheVariants.{First};

    ghost placed = { λ thing. First thing };

    fn place(thing: T) -> OneOf<T, B>
        ensures { result ≡ First thing }
    {
        OneOf::First(thing)
    }
}

impl<T, A, B, N> Place<T, There<N>> for OneOf<A, B>
where
    B: Place<T, N>,
{
    ghost use Rattle.std.specs.Prelude.{◌≡◌};
    ghost use Rattle.calloop_sources.specs.declared.sources.choice.OneOf.TheVariants.{Other};

    ghost placed = { λ thing. Other (B.placed thing) };

    fn place(thing: T) -> OneOf<A, B>
        ensures { result ≡ Other (B.placed thing) }
    {
        OneOf::Other(B::place(thing))
    }
}

/// A choice that can hold a `T` so that it means exactly what the `T` means.
pub trait Keep<T, P: Poller, C, R: Wait + Drop, X, Q, N>: Dispatch<P, C, R, X, Q> + Place<T, N>
where
    Q: Asking,
    T: Dispatch<P, C, R, X, Q>,
{
    ghost use Rattle.calloop_sources.specs.sources.Meanings.{IsHeld};

    ghost placed_means: { IsHeld ⟦<Self as Place<T, N>>⟧.placed ⟦<T as Dispatch<P, C, R, X, Q>>⟧.means Self.means };
}

impl<T, P: Poller, C, R: Wait + Drop, X, Q: Asking, B> Keep<T, P, C, R, X, Q, Here> for OneOf<T, B>
where
    T: Dispatch<P, C, R, X, Q>,
    B: Dispatch<P, C, R, X, Q>,
{
    ghost use Rattle.calloop_sources.specs.sources.Lawful.{held_first};

    ghost placed_means = { held_first ⟦<T as Dispatch<P, C, R, X, Q>>⟧.means B.means };
}

impl<T, P: Poller, C, R: Wait + Drop, X, Q: Asking, A, B, N> Keep<T, P, C, R, X, Q, There<N>>
    for OneOf<A, B>
where
    T: Dispatch<P, C, R, X, Q>,
    A: Dispatch<P, C, R, X, Q>,
    B: Keep<T, P, C, R, X, Q, N>,
{
    ghost use Rattle.calloop_sources.specs.declared.sources.choice.OneOf.TheVariants.{Other};
    ghost use Rattle.calloop_sources.specs.sources.Meanings.{one_of};
    ghost use Rattle.calloop_sources.specs.sources.Lawful.{held_other, held_through};

    ghost placed_means = { held_through ⟦<B as Place<T, N>>⟧.placed (λ b. Other b)
        ⟦<T as Dispatch<P, C, R, X, Q>>⟧.means
        ⟦<B as Dispatch<P, C, R, X, Q>>⟧.means
        (one_of A.means ⟦<B as Dispatch<P, C, R, X, Q>>⟧.means)
        B.placed_means
        (held_other A.means ⟦<B as Dispatch<P, C, R, X, Q>>⟧.means) };
}
