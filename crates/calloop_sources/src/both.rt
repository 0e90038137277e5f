//! Two sources with their callbacks as one source.
ghost use Rattle.std.specs.Prelude.{◌≡◌, ◌<◌, List};
ghost use Rattle.calloop_slots.specs.Widths.{parts};
ghost use Rattle.calloop_poll.specs.sys.Polls.{PollStep, poll_view, AllStepped};
ghost use Rattle.calloop_sources.specs.Boths.{UnregistersBoth, RegistersBoth};
ghost use Rattle.calloop_sources.specs.sources.Deeds.{Reregistered};
ghost use Rattle.calloop_slots.specs.Failures.{with_error};

use crate::callbacks::QuietDispatch;
use crate::movable::Movable;
use crate::sources::{Asking, Dispatch, Dispatcher, PostAction, Role};
use calloop_poll::sys::events::EventIterator;
use calloop_poll::sys::poll::Poll;
use calloop_poll::sys::synthetic::Synthetic;
use calloop_poll::sys::{Poller, Readiness};
use calloop_slots::error::{Error, Failed, Result as LoopResult};
use calloop_slots::token::{RegistrationToken, Token, TokenFactory};
use std::sync::Wait;

/// A part of a `Both`: it knows whether it is registered, so that it can be taken back and registered again at any time.
/// `Movable::from` makes one of a source.
pub trait Part {}

impl<S, F> Part for Dispatcher<Movable<S>, F> {}

impl<A: Part, B: Part> Part for Both<A, B> {}

/// Two sources, each with its callback, as one source. They are registered together, with tokens of one factory, and each
/// event is for one of them. More than two are a `Both` of a `Both`. The user has nothing to prove.
///
/// `Disable` and `Remove` of a part affect that part alone, also if both return it: the part rests or is gone, and the whole
/// stays in the loop. calloop's users write such a source by hand.
#[derive(Drop)]
pub struct Both<A, B> {
    pub first: A,
    pub second: B,
}

// Shows that the count of a factory fits its width.
fn count_fits(factory: &TokenFactory)
    ensures { factory.now.given < parts }
{
    let _given = factory.tokens_given();
}

// Registers both anew, up to the first error.
fn come_again<P: Poller, C, R: Wait + Drop, X, Q: Asking, A, B>(
    both: &mut Both<A, B>,
    poll: &mut Poll<P, C, R>,
    factory: &mut TokenFactory,
    failure: &mut Error,
) -> Result<(), Failed>
where
    A: Dispatch<P, C, R, X, Q>,
    B: Dispatch<P, C, R, X, Q>,
    ensures { (steps : List (PollStep P))
        × RegistersBoth A.means B.means (λ f a g. Reregistered f a g) both.old (poll_view poll.old)
        factory.old (with_error result failure.new) factory.new steps both.new
        × AllStepped P.outside (poll_view poll.old) steps (poll_view poll.new) }
{
    let registration = factory.registration();
    match both.first.reregister(poll, factory, failure) {
        Ok(()) => {
            if factory.registration() != registration {
                *failure = Error::InvalidToken;
                return Err(Failed);
            }
            count_fits(factory);
            both.second.reregister(poll, factory, failure)
        }
        Err(failed) => Err(failed),
    }
}

// Unregisters both, up to the first error.
fn take_back<P: Poller, C, R: Wait + Drop, X, Q: Asking, A, B>(
    both: &mut Both<A, B>,
    poll: &mut Poll<P, C, R>,
    failure: &mut Error,
) -> Result<(), Failed>
where
    A: Dispatch<P, C, R, X, Q>,
    B: Dispatch<P, C, R, X, Q>,
    ensures { (steps : List (PollStep P))
        × UnregistersBoth A.means B.means both.old (poll_view poll.old)
        (with_error result failure.new) steps both.new
        × AllStepped P.outside (poll_view poll.old) steps (poll_view poll.new) }
{
    match both.first.unregister(poll, failure) {
        Ok(()) => both.second.unregister(poll, failure),
        Err(failed) => Err(failed),
    }
}

impl<P: Poller, C, R: Wait + Drop, X, Q: Asking, A, B> Dispatch<P, C, R, X, Q> for Both<A, B>
where
    A: Dispatch<P, C, R, X, Q> + Part,
    B: Dispatch<P, C, R, X, Q> + Part,
{
    ghost use Rattle.calloop_sources.specs.Boths.{both_meaning};
    ghost use Rattle.calloop_sources.specs.BothKeeping.{keeping_both, asking_both, failing_both};

    ghost means = { both_meaning A.Dispatch.means B.Dispatch.means };

    /// Registers the first part, and then the second one. Returns an error of the first one at once; what was registered until
    /// then stays so. Fails with `InvalidToken` if the first part leaves a factory of another registration.
    fn register(
        &mut self,
        poll: &mut Poll<P, C, R>,
        factory: &mut TokenFactory,
        failure: &mut Error,
    ) -> Result<(), Failed> {
        let registration = factory.registration();
        match self.first.register(poll, factory, failure) {
            Ok(()) => {
                if factory.registration() != registration {
                    *failure = Error::InvalidToken;
                    return Err(Failed);
                }
                count_fits(factory);
                self.second.register(poll, factory, failure)
            }
            Err(failed) => Err(failed),
        }
    }

    /// Unregisters both parts, and then registers both anew: so neither meets a key that the other still has. Returns the first
    /// error at once; what was done until then stays so, and the same call goes on from there.
    fn reregister(
        &mut self,
        poll: &mut Poll<P, C, R>,
        factory: &mut TokenFactory,
        failure: &mut Error,
    ) -> Result<(), Failed> {
        match take_back::<P, C, R, X, Q, A, B>(self, poll, failure) {
            Ok(()) => come_again::<P, C, R, X, Q, A, B>(self, poll, factory, failure),
            Err(failed) => Err(failed),
        }
    }

    /// Unregisters the first part, and then the second one. Returns an error of the first one at once.
    fn unregister(&mut self, poll: &mut Poll<P, C, R>, failure: &mut Error) -> Result<(), Failed> {
        take_back::<P, C, R, X, Q, A, B>(self, poll, failure)
    }

    /// A turn of the first part, and then of the second one; each ignores an event of another token. Returns `Continue` if both
    /// do, and else `Reregister`. Returns an error of the first one at once.
    fn process_events(
        &mut self,
        readiness: Readiness,
        token: Token,
        poll: &mut Poll<P, C, R>,
        data: &mut X,
        requests: &mut Q,
        failure: &mut Error,
    ) -> Result<PostAction, Failed> {
        match self
            .first
            .process_events(readiness, token, poll, data, requests, failure)
        {
            Ok(action) => match self
                .second
                .process_events(readiness, token, poll, data, requests, failure)
            {
                Ok(other) => Ok(action | other),
                Err(failed) => Err(failed),
            },
            Err(failed) => Err(failed),
        }
    }

    /// False: the parts aren't told of waits either.
    fn needs_extra_lifecycle_events(&self) -> bool {
        false
    }

    fn synthetic_limit(&self) -> u16 {
        0
    }

    fn role(&self) -> Role {
        Role::Caller
    }

    fn settle(
        &mut self,
        _token: RegistrationToken,
        _poll: &mut Poll<P, C, R>,
    ) -> Option<LoopResult<()>> {
        None
    }

    fn before_sleep(&mut self, _out: &mut Synthetic) -> LoopResult<()> {
        Ok(())
    }

    fn before_handle_events(&mut self, _events: EventIterator<'_>) {}

    ghost keeps = { keeping_both A.Dispatch.means B.Dispatch.means A.Dispatch.keeps B.Dispatch.keeps };

    ghost asks = { asking_both A.Dispatch.means B.Dispatch.means Q.reaches Q.goes_on A.Dispatch.asks B.Dispatch.asks };

    ghost fails = { failing_both A.Dispatch.means B.Dispatch.means A.Dispatch.fails B.Dispatch.fails };
}

impl<P: Poller, C, R: Wait + Drop, X, Q: Asking, A, B> QuietDispatch<P, C, R, X, Q> for Both<A, B>
where
    A: QuietDispatch<P, C, R, X, Q> + Part,
    B: QuietDispatch<P, C, R, X, Q> + Part,
{
    ghost use Rattle.calloop_sources.specs.BothKeeping.{quiet_both};

    ghost quiet = { quiet_both ⟦<A as Dispatch<P, C, R, X, Q>>⟧.means ⟦<B as Dispatch<P, C, R, X, Q>>⟧.means A.quiet B.quiet };
}
