//! The registration of a source that is out of its slot, with its entry among those that are told of waits.
ghost use Rattle.std.specs.Prelude.{◌≡◌, ◌<◌, OnOk, IfOk, IfErr};
ghost use Rattle.calloop_slots.specs.Widths.{most_slots};
ghost use Rattle.calloop_slots.specs.Failures.{with_error};
ghost use Rattle.calloop_slots.specs.Slots.{after_claim, next_registration, claim_error};
ghost use Rattle.calloop_sources.specs.sources.Deeds.{Unregistered};
ghost use Rattle.calloop_sources.specs.sources.Meanings.{Does};
ghost use Rattle.calloop_poll.specs.sys.Polls.{poll_view};
ghost use Rattle.calloop_loop.specs.Machine.{view_of};
ghost use Rattle.calloop_loop.specs.Held.{is_listed};
ghost use Rattle.calloop_loop.specs.Registering.{deed_of};
ghost use Rattle.calloop_loop.specs.Rooms.{HasRoom};
ghost use Rattle.calloop_loop.specs.Rules.{CannotInsert, ByOne, RearmedBy, RegisteredBy, listing_of, unlisting_of};

use super::{EventDispatcher, EventLoop};
use calloop_poll::sys::poll::Poll;
use calloop_poll::sys::{Clock, Poller};
use calloop_slots::error::{Error, Failed};
use calloop_slots::list::ClaimRefusal;
use calloop_slots::steps::Steps;
use calloop_slots::token::{RegistrationToken, TokenFactory};
use calloop_slots::wheel::Instant;
use std::sync::Wait;

// Says if a source is registered for the first time, or anew.
#[derive(Clone, Copy)]
pub(super) enum Registering {
    First,
    Anew,
}

// The calls that change the registration of a source in a slot.
#[derive(Clone, Copy)]
pub(super) enum RegistrationCall {
    Enable,
    Update,
    Disable,
}

impl<D: EventDispatcher<P, C, R>, P: Poller, C: Clock, R: Wait + Drop> EventLoop<D, P, C, R> {
    // Claims a slot, if there is room for the entry that is needed.
    pub(super) fn claim(&mut self, needed: bool) -> Result<RegistrationToken, ClaimRefusal>
        ensures ok { IfOk result (λ token. (token ≡ next_registration self.old.sources)
            × (token.slot < most_slots) × (self.new.sources ≡ after_claim self.old.sources)) }
        ensures room { OnOk result (HasRoom needed self.new.lifecycle) }
        ensures err { IfErr result (λ e. CannotInsert self.old.sources needed (claim_error e)
            × (self.new.sources ≡ self.old.sources)) }
        ensures others { (self.new.poll ≡ self.old.poll)
            × (self.new.lifecycle.tokens.items ≡ self.old.lifecycle.tokens.items)
            × (self.new.pending ≡ self.old.pending) × (self.new.requests ≡ self.old.requests)
            × (self.new.warnings ≡ self.old.warnings) × (self.new.signal ≡ self.old.signal)
            × (self.new.stops ≡ self.old.stops) }
    {
        self.lifecycle.reserve(needed)?;
        self.sources.vacant_entry(&mut Steps::new())
    }

    // Registers a source under this token, and enters it if it is to be told of waits.
    pub(super) fn register(
        &mut self,
        how: Registering,
        token: RegistrationToken,
        source: &mut D,
        failure: &mut Error,
    ) -> Result<(), Failed>
        ensures { ByOne P.outside
            (RegisteredBy D.means (deed_of how) token
            (is_listed token (view_of self.old).held.lifecycle) (view_of self.old).poll)
            (listing_of D.means token)
            source.old (with_error result failure.new) source.new
            (view_of self.old) (view_of self.new) }
    {
        let needed = source.needs_extra_lifecycle_events();
        if let Err(_) = self.lifecycle.reserve_for(needed, token) {
            *failure = Error::OutOfMemory;
            return Err(Failed);
        }
        let mut factory = TokenFactory::new(token);
        Self::register_source(how, source, &mut self.poll, &mut factory, failure)?;
        self.lifecycle.enter(needed, token);
        Ok(())
    }

    // Makes the call of the source itself.
    fn register_source(
        how: Registering,
        source: &mut D,
        poll: &mut Poll<P, C, R>,
        factory: &mut TokenFactory,
        failure: &mut Error,
    ) -> Result<(), Failed>
        ensures { Does P.outside D.means source.old (poll_view poll.old)
            (deed_of how factory.old (with_error result failure.new) factory.new)
            source.new (poll_view poll.new) }
    {
        match how {
            Registering::First => source.register(poll, factory, failure),
            Registering::Anew => source.reregister(poll, factory, failure),
        }
    }

    // Sets the deadline of a source that is out of its slot, and registers it anew. Fails with `InvalidToken` if it is no timer.
    pub(super) fn rearm_source(
        &mut self,
        token: RegistrationToken,
        deadline: Instant,
        source: &mut D,
        failure: &mut Error,
    ) -> Result<(), Failed>
        ensures { ByOne P.outside
            (RearmedBy D.means deadline token
            (is_listed token (view_of self.old).held.lifecycle) (view_of self.old).poll)
            (listing_of D.means token)
            source.old (with_error result failure.new) source.new
            (view_of self.old) (view_of self.new) }
    {
        if !source.try_set_deadline(deadline) {
            *failure = Error::InvalidToken;
            return Err(Failed);
        }
        self.register(Registering::Anew, token, source, failure)
    }

    // Takes the registration of a source back, and its entry out, even if that fails. No answer is kept for it any more.
    pub(super) fn unregister(
        &mut self,
        token: RegistrationToken,
        source: &mut D,
        failure: &mut Error,
    ) -> Result<(), Failed>
        ensures deed { ByOne P.outside
            (λ d answer steps e.
            D.means.does d (view_of self.old).poll (Unregistered answer) steps e)
            (unlisting_of token) source.old (with_error result failure.new) source.new
            (view_of self.old) (view_of self.new) }
        ensures slots { self.new.sources ≡ self.old.sources }
    {
        let answer = source.unregister(&mut self.poll, failure);
        self.lifecycle.leave(token);
        self.requests.keep_none_for(token);
        answer
    }
}
