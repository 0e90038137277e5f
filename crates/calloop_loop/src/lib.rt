//! The loop, and what it asks of the caller's sources.
#![tactic(auto)]

use calloop_poll::signal::OwnSignal;
use calloop_poll::sys::events::EventIterator;
use calloop_poll::sys::poll::Poll;
use calloop_poll::sys::synthetic::Synthetic;
use calloop_poll::sys::{Clock, Poller, Readiness};
use calloop_slots::error::{Error, Failed, InsertError, Result};
use calloop_slots::list::SourceList;
use calloop_slots::token::{RegistrationToken, Token, TokenFactory};
use calloop_slots::wheel::Instant;
use calloop_sources::callbacks::QuietDispatch;
use calloop_sources::idles::IdleCallback;
use calloop_sources::sources::{
    Asking, Callback, Choice, Dispatch, Dispatcher, EventSource, Hold, Keep, Place, PostAction,
    Role,
};
use lifecycle::Lifecycle;
use std::marker::PhantomData;
use std::sync::Wait;
use std::time::Duration;
use stops::StopNotes;
use warnings::Warnings;

mod adapting;
mod asks;
mod blocking;
mod bounds;
mod calls;
mod dispatch;
mod handle;
mod keepers;
mod lifecycle;
mod loops;
mod registering;
mod serving;
mod settling;
mod signal;
mod stops;
mod telling;
mod warnings;

pub use asks::{Answer, Idle, Requests, Ticket};
pub use bounds::{LoopHold, LoopKeep};
pub use calloop_poll::signal::LoopSignal;
pub use loops::{ScriptLoop, SystemLoop};

/// A loop over sources of one type `D` of the caller, a poller and a clock. It owns its sources. `R` is the runtime by
/// which it locks the board of posted keys.
#[derive(Drop)]
pub struct EventLoop<D: EventDispatcher<P, C, R>, P: Poller, C: Clock, R: Wait + Drop> {
    sources: SourceList<D>,
    poll: Poll<P, C, R>,
    lifecycle: Lifecycle,
    // The events lent to each source that is told of a wait.
    synthetic: Synthetic,
    // What the source in its turn asked for itself.
    pending: PostAction,
    requests: Requests<D, D::Idle>,
    warnings: Warnings,
    signal: OwnSignal,
    stops: StopNotes,
}

/// A handle for the calls on a loop that act at once, lent by the loop.
#[derive(Drop)]
pub struct LoopHandle<'l, D: EventDispatcher<P, C, R>, P: Poller, C: Clock, R: Wait + Drop> {
    inner: &'l mut EventLoop<D, P, C, R>,
}

/// A call on a loop, as a value. `Release` gives an adapter back, as `LoopHandle::into_inner` does. A run of the loop is made of
/// `ForgetStop`, `LookForStop` and dispatches.
#[derive(Drop)]
pub enum LoopCall<D, P, X, I = ()> {
    Insert(D),
    Enable(RegistrationToken),
    Update(RegistrationToken),
    Disable(RegistrationToken),
    Remove(RegistrationToken),
    Release(RegistrationToken),
    Exchange(RegistrationToken, D),
    Dispatch(Option<Duration>, X),
    InsertIdle(I),
    Cancel(Idle),
    Answer(Ticket),
    ForgetStop,
    LookForStop,
    Poller(P),
}

/// The answer of a call. A dispatch gives back its data, a change of the poller the old poller, and an exchange of a source the
/// replaced one, or the other one if the token names none.
#[derive(Drop)]
pub enum LoopAnswer<D, P, X, I = ()> {
    Inserted(std::result::Result<RegistrationToken, InsertError<D>>),
    Enabled(Result<()>),
    Updated(Result<()>),
    Disabled(Result<()>),
    Removed(Option<D>),
    Released(Result<()>),
    Exchanged(std::result::Result<D, D>),
    Dispatched(Result<()>, X),
    IdleInserted(std::result::Result<Idle, InsertError<I>>),
    Cancelled,
    Answered(Option<Answer<D>>),
    StopForgotten,
    Stopped(bool),
    Poller(P),
}

/// The content of a loop: a choice of sources with their callbacks, and the data that a dispatch lends. `Sources` is one.
pub trait EventDispatcher<P: Poller, C, R: Wait + Drop>: Dispatch<
    P,
    C,
    R,
    <Self as EventDispatcher<P, C, R>>::Data,
    Requests<Self, <Self as EventDispatcher<P, C, R>>::Idle>,
>
    + Drop
    + Sized {
    /// The data that a dispatch lends to each callback.
    type Data;

    /// The type of what the loop can be asked to do once.
    type Idle: IdleCallback<
        <Self as EventDispatcher<P, C, R>>::Data,
        Requests<Self, <Self as EventDispatcher<P, C, R>>::Idle>,
    >
        + Drop;
}

/// A choice of sources, each with its callback, for a loop whose dispatches lend an `X`. A loop over pings and timers is one over
/// `Sources<OneOf<Dispatcher<PingSource<R>, F>, Dispatcher<Timer, G>>, X>`. `I` is the type of what it can be asked to do once.
#[derive(Drop)]
pub struct Sources<A, X, I = ()> {
    pub held: A,
    of: PhantomData<X>,
    idles: PhantomData<I>,
}

impl<A, X, I> Sources<A, X, I> {
    ghost use Rattle.std.specs.Prelude.{◌≡◌};
    ghost use Rattle.calloop_loop.specs.Choices.{with_data};

    /// Makes a choice that holds this.
    pub fn new(held: A) -> Sources<A, X, I>
        ensures { result ≡ with_data held }
    {
        Sources {
            held,
            of: PhantomData,
            idles: PhantomData,
        }
    }
}

impl<P: Poller, C, R: Wait + Drop, A, X, I> Dispatch<P, C, R, X, Requests<Sources<A, X, I>, I>>
    for Sources<A, X, I>
where
    A: Dispatch<P, C, R, X, Requests<Sources<A, X, I>, I>>,
{
    ghost use Rattle.calloop_sources.specs.sources.Meanings.{seen_as};
    ghost use Rattle.calloop_sources.specs.sources.Lawful.{keeping_seen, asking_seen, failing_seen};

    ghost means = { seen_as (λ s. s.held) A.means };

    fn register(
        &mut self,
        poll: &mut Poll<P, C, R>,
        factory: &mut TokenFactory,
        failure: &mut Error,
    ) -> std::result::Result<(), Failed> {
        self.held.register(poll, factory, failure)
    }

    fn reregister(
        &mut self,
        poll: &mut Poll<P, C, R>,
        factory: &mut TokenFactory,
        failure: &mut Error,
    ) -> std::result::Result<(), Failed> {
        self.held.reregister(poll, factory, failure)
    }

    fn unregister(
        &mut self,
        poll: &mut Poll<P, C, R>,
        failure: &mut Error,
    ) -> std::result::Result<(), Failed> {
        self.held.unregister(poll, failure)
    }

    fn process_events(
        &mut self,
        readiness: Readiness,
        token: Token,
        poll: &mut Poll<P, C, R>,
        data: &mut X,
        requests: &mut Requests<Sources<A, X, I>, I>,
        failure: &mut Error,
    ) -> std::result::Result<PostAction, Failed> {
        self.held
            .process_events(readiness, token, poll, data, requests, failure)
    }

    fn needs_extra_lifecycle_events(&self) -> bool {
        self.held.needs_extra_lifecycle_events()
    }

    fn synthetic_limit(&self) -> u16 {
        self.held.synthetic_limit()
    }

    fn role(&self) -> Role {
        self.held.role()
    }

    fn settle(&mut self, token: RegistrationToken, poll: &mut Poll<P, C, R>) -> Option<Result<()>> {
        self.held.settle(token, poll)
    }

    fn before_sleep(&mut self, out: &mut Synthetic) -> Result<()> {
        self.held.before_sleep(out)
    }

    fn before_handle_events(&mut self, events: EventIterator<'_>) {
        self.held.before_handle_events(events);
    }

    fn try_set_deadline(&mut self, deadline: Instant) -> bool {
        self.held.try_set_deadline(deadline)
    }

    ghost keeps = { keeping_seen (λ s. s.held) A.means A.keeps };

    ghost asks = { asking_seen (λ s. s.held) ⟦<Requests<Sources<A, X, I>, I> as Asking>⟧.reaches A.means A.asks };

    ghost fails = { failing_seen (λ s. s.held) A.means A.fails };
}

impl<P: Poller, C, R: Wait + Drop, A, X, I> QuietDispatch<P, C, R, X, Requests<Sources<A, X, I>, I>>
    for Sources<A, X, I>
where
    A: QuietDispatch<P, C, R, X, Requests<Sources<A, X, I>, I>>,
{
    ghost use Rattle.calloop_sources.specs.sources.Quiet.{quiet_seen};

    ghost quiet = { quiet_seen (λ s. s.held) ⟦<A as Dispatch<P, C, R, X, Requests<Sources<A, X, I>, I>>>⟧.means A.quiet };
}

impl<P: Poller, C, R: Wait + Drop, A, X, I> EventDispatcher<P, C, R> for Sources<A, X, I>
where
    A: Dispatch<P, C, R, X, Requests<Sources<A, X, I>, I>> + Drop,
    I: IdleCallback<X, Requests<Sources<A, X, I>, I>> + Drop,
{
    type Data = X;

    type Idle = I;
}

impl<S, F, A, X, I, N> Choice<S, F, N> for Sources<A, X, I>
where
    A: Choice<S, F, N>,
{
    ghost use Rattle.std.specs.Prelude.{◌≡◌};
    ghost use Rattle.calloop_loop.specs.Choices.{with_data};

    ghost held = { λ d. with_data (A.held d) };

    fn hold(dispatcher: Dispatcher<S, F>) -> Sources<A, X, I>
        ensures { result ≡ with_data (A.held dispatcher) }
    {
        Sources::new(A::hold(dispatcher))
    }
}

impl<S, F, P: Poller, C, R: Wait + Drop, A, X, I, N> Hold<
    S,
    F,
    P,
    C,
    R,
    X,
    Requests<Sources<A, X, I>, I>,
    N,
> for Sources<A, X, I>
where
    S: EventSource<P, C, R>,
    F: Callback<S::Event, S::Metadata, S::Ret, X, Requests<Sources<A, X, I>, I>>,
    A: Hold<S, F, P, C, R, X, Requests<Sources<A, X, I>, I>, N>,
{
    ghost use Rattle.calloop_loop.specs.Choices.{held_with_data};

    ghost held_means = { held_with_data ⟦<A as Choice<S, F, N>>⟧.held
        ⟦<Dispatcher<S, F> as Dispatch<P, C, R, X, Requests<Sources<A, X, I>, I>>>⟧.means
        ⟦<A as Dispatch<P, C, R, X, Requests<Sources<A, X, I>, I>>>⟧.means
        A.held_means };
}

impl<T, A, X, I, N> Place<T, N> for Sources<A, X, I>
where
    A: Place<T, N>,
{
    ghost use Rattle.std.specs.Prelude.{◌≡◌};
    ghost use Rattle.calloop_loop.specs.Choices.{with_data};

    ghost placed = { λ thing. with_data (A.placed thing) };

    fn place(thing: T) -> Sources<A, X, I>
        ensures { result ≡ with_data (A.placed thing) }
    {
        Sources::new(A::place(thing))
    }
}

impl<T, P: Poller, C, R: Wait + Drop, A, X, I, N> Keep<
    T,
    P,
    C,
    R,
    X,
    Requests<Sources<A, X, I>, I>,
    N,
> for Sources<A, X, I>
where
    T: Dispatch<P, C, R, X, Requests<Sources<A, X, I>, I>>,
    A: Keep<T, P, C, R, X, Requests<Sources<A, X, I>, I>, N>,
{
    ghost use Rattle.calloop_loop.specs.Choices.{held_with_data};

    ghost placed_means = { held_with_data ⟦<A as Place<T, N>>⟧.placed
        ⟦<T as Dispatch<P, C, R, X, Requests<Sources<A, X, I>, I>>>⟧.means
        ⟦<A as Dispatch<P, C, R, X, Requests<Sources<A, X, I>, I>>>⟧.means
        A.placed_means };
}
