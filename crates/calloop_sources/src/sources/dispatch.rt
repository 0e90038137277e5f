//! What a loop calls: a source with its callback, or an entry of the loop's own.
ghost use Rattle.std.specs.Prelude.{◌≡◌};

use super::callback::{Asking, Callback};
use super::source::{EventSource, IntoError, PostAction};
use calloop_poll::sys::events::EventIterator;
use calloop_poll::sys::poll::Poll;
use calloop_poll::sys::synthetic::Synthetic;
use calloop_poll::sys::{Poller, Readiness};
use calloop_slots::error::{Error, Failed, Result as LoopResult, store_error};
use calloop_slots::token::{RegistrationToken, Token, TokenFactory};
use calloop_slots::wheel::Instant;
use std::sync::Wait;

/// Who owns a slot's entry: the caller, or the loop itself. The calls of a handle reach the caller's alone.
#[derive(Clone, Copy, Debug, PartialEq, Eq)]
pub enum Role {
    /// A source of the caller, with its callback.
    Caller,
    /// The socket behind an `Async`.
    Adapter,
    /// The timer of a `TimeoutFuture`.
    Timeout,
}

/// A source with its callback.
#[derive(Drop)]
pub struct Dispatcher<S, F> {
    pub source: S,
    pub callback: F,
}

impl<S, F> Dispatcher<S, F> {
    ghost use Rattle.std.specs.Prelude.{◌≡◌};
    ghost use Rattle.std.specs.Borrow.{Lends, sem};
    ghost use Rattle.calloop_sources.specs.Lending.{with_source};
    ghost use Rattle.calloop_sources.specs.contracts.sources.dispatch.Dispatcher.{the_row};

    /// Makes a dispatcher of a source and the callback for its events.
    pub fn new(source: S, callback: F) -> Dispatcher<S, F>
        ensures { result ≡ record { source = source; callback = callback } }
    {
        Dispatcher { source, callback }
    }

    /// The source, to be looked at.
    pub fn as_source_ref(&self) -> &S
        ensures { result.now ≡ self.now.source }
    {
        &self.source
    }

    /// The source, to be changed.
    pub fn as_source_mut(&mut self) -> &mut S
        ensures* writes_back { sem 𝓛 (Lends (the_row S.row F.row) S.row self.entry result
            (λ s. with_source s self.old)) }
        ensures value { result.now ≡ self.old.source }
    {
        &mut self.source
    }

    /// Returns the source, and drops its callback.
    pub fn into_source_inner(self) -> S
    where
        F: Drop,
        ensures { result ≡ self.source }
    {
        let Dispatcher {
            source,
            callback: _,
        } = self;
        source
    }
}

/// What a loop calls: a source with its callback, or a choice of such. `X` is the data that a dispatch lends, and `Q` takes
/// the requests of callbacks. If a call returns `Failed`, its error is in `failure`.
pub trait Dispatch<P: Poller, C, R: Wait + Drop, X, Q: Asking> {
    ghost use Rattle.std.specs.Prelude.{◌≡◌, ℕ, []};
    ghost use Rattle.calloop_poll.specs.sys.Polls.{PollView, IsReady, poll_view};
    ghost use Rattle.calloop_poll.specs.sys.Events.{events_left};
    ghost use Rattle.calloop_poll.specs.sys.Synthetics.{IsLent};
    ghost use Rattle.calloop_sources.specs.sources.Deeds.{Registered, Reregistered, Unregistered, Turned, Slept, Noticed, Lent, lend};
    ghost use Rattle.calloop_sources.specs.sources.Meanings.{Meaning, Does, Settles, IsKeeping, IsAsking, FailsAsSource};
    ghost use Rattle.calloop_sources.specs.sources.SetDeadlines.{SetsDeadline};
    ghost use Rattle.calloop_slots.specs.Failures.{with_error};

    ghost means: { Meaning Self P (Lent X Q) };

    /// Registers the source with tokens of the factory.
    fn register(
        &mut self,
        poll: &mut Poll<P, C, R>,
        factory: &mut TokenFactory,
        failure: &mut Error,
    ) -> Result<(), Failed>
        ensures { Does P.outside means self.old (poll_view poll.old)
            (Registered factory.old (with_error result failure.new) factory.new)
            self.new (poll_view poll.new) };

    /// Registers the source anew with tokens of the factory.
    fn reregister(
        &mut self,
        poll: &mut Poll<P, C, R>,
        factory: &mut TokenFactory,
        failure: &mut Error,
    ) -> Result<(), Failed>
        ensures { Does P.outside means self.old (poll_view poll.old)
            (Reregistered factory.old (with_error result failure.new) factory.new)
            self.new (poll_view poll.new) };

    /// Takes the source's registration back.
    fn unregister(&mut self, poll: &mut Poll<P, C, R>, failure: &mut Error) -> Result<(), Failed>
        ensures { Does P.outside means self.old (poll_view poll.old)
            (Unregistered (with_error result failure.new)) self.new (poll_view poll.new) };

    /// A turn of the source, for an event of this token.
    fn process_events(
        &mut self,
        readiness: Readiness,
        token: Token,
        poll: &mut Poll<P, C, R>,
        data: &mut X,
        requests: &mut Q,
        failure: &mut Error,
    ) -> Result<PostAction, Failed>
        ensures { Does P.outside means self.old (poll_view poll.old)
            (Turned readiness token
            (lend «data».old requests.old (with_error result failure.new) «data».new requests.new))
            self.new (poll_view poll.new) };

    /// True if the source is told of waits.
    fn needs_extra_lifecycle_events(&self) -> bool
        ensures { result ≡ means.needs self.now };

    /// The most events that the source may ask for before one wait.
    fn synthetic_limit(&self) -> u16
        ensures { result ≡ means.limit self.now };

    /// Who owns it.
    fn role(&self) -> Role
        ensures { result ≡ means.role self.now };

    /// Does what was asked of an adapter since, which is registered under this token. If it was dropped, returns the result of
    /// its unregistration, and else `None`. Does nothing for all others. The room that was reserved for a wait stays.
    fn settle(
        &mut self,
        token: RegistrationToken,
        poll: &mut Poll<P, C, R>,
    ) -> Option<LoopResult<()>>
        ensures settles { Settles (means.role self.old) P.outside means token result
            self.old (poll_view poll.old) self.new (poll_view poll.new) }
        ensures ready { (more : ℕ) → IsReady more poll.old → IsReady more poll.new };

    /// Tells the source of the coming wait; the source may ask for events.
    fn before_sleep(&mut self, out: &mut Synthetic) -> LoopResult<()>
        ensures lend { out.new ≡ record out.old { given = out.new.given } }
        ensures slept { (v : PollView P) → IsLent (means.limit self.old) out.old
            → means.does self.old v (Slept out.new.given result) [] self.new };

    /// Tells the source of the events that a wait brought for its registration.
    fn before_handle_events(&mut self, events: EventIterator<'_>)
        ensures { (v : PollView P)
            → means.does self.old v (Noticed (events_left events.entry)) [] self.new };

    /// Sets the source's deadline, which counts from its next registration on, and returns true. Returns false and does nothing
    /// if it is no timer, as by default.
    fn try_set_deadline(&mut self, deadline: Instant) -> bool
        ensures { SetsDeadline means deadline self.old result self.new }
    {
        let _unused = deadline;
        false
    }

    /// Three laws. It touches no timer counter of another source, and calls at most once for each arming of its own. It uses only
    /// keys of its own registration, from a registration that succeeded on. It asks for at most its limit of events, which stays.
    ghost keeps: { IsKeeping means };

    /// The requests after a turn are reached from those before it.
    ghost asks: { IsAsking Q.reaches means };

    /// A turn fails only with `OtherError` or `OutOfMemory`.
    ghost fails: { FailsAsSource means };
}

impl<P: Poller, C, R: Wait + Drop, X, Q: Asking, S, F> Dispatch<P, C, R, X, Q> for Dispatcher<S, F>
where
    S: EventSource<P, C, R>,
    F: Callback<S::Event, S::Metadata, S::Ret, X, Q>,
{
    ghost use Rattle.calloop_sources.specs.sources.Meanings.{with_callback};
    ghost use Rattle.calloop_sources.specs.sources.Lawful.{keeping_with_callback, asking_with_callback, failing_with_callback};

    ghost means = { with_callback S.means F.may Q.reaches S.Error.becomes };

    fn register(
        &mut self,
        poll: &mut Poll<P, C, R>,
        factory: &mut TokenFactory,
        failure: &mut Error,
    ) -> Result<(), Failed> {
        store_error(self.source.register(poll, factory), failure)
    }

    fn reregister(
        &mut self,
        poll: &mut Poll<P, C, R>,
        factory: &mut TokenFactory,
        failure: &mut Error,
    ) -> Result<(), Failed> {
        store_error(self.source.reregister(poll, factory), failure)
    }

    fn unregister(&mut self, poll: &mut Poll<P, C, R>, failure: &mut Error) -> Result<(), Failed> {
        store_error(self.source.unregister(poll), failure)
    }

    fn process_events(
        &mut self,
        readiness: Readiness,
        token: Token,
        poll: &mut Poll<P, C, R>,
        data: &mut X,
        requests: &mut Q,
        failure: &mut Error,
    ) -> Result<PostAction, Failed> {
        match self
            .source
            .process_events(readiness, token, poll, &mut self.callback, data, requests)
        {
            Ok(action) => Ok(action),
            Err(cause) => {
                *failure = cause.into_error();
                Err(Failed)
            }
        }
    }

    fn needs_extra_lifecycle_events(&self) -> bool {
        <S as EventSource<P, C, R>>::needs_extra_lifecycle_events()
    }

    fn synthetic_limit(&self) -> u16 {
        <S as EventSource<P, C, R>>::max_synthetic()
    }

    fn role(&self) -> Role {
        Role::Caller
    }

    fn settle(
        &mut self,
        _token: RegistrationToken,
        _poll: &mut Poll<P, C, R>,
    ) -> Option<LoopResult<()>> {
        None
    }

    fn before_sleep(&mut self, out: &mut Synthetic) -> LoopResult<()> {
        self.source.before_sleep(out)
    }

    fn before_handle_events(&mut self, events: EventIterator<'_>) {
        self.source.before_handle_events(events);
    }

    fn try_set_deadline(&mut self, deadline: Instant) -> bool {
        self.source.try_set_deadline(deadline)
    }

    ghost keeps = { keeping_with_callback S.means F.may Q.reaches S.Error.becomes S.keeps };

    ghost asks = { asking_with_callback S.means F.may Q.reaches S.Error.becomes Q.stays Q.goes_on };

    ghost fails = { failing_with_callback S.means F.may Q.reaches S.Error.becomes S.Error.of_source };
}
