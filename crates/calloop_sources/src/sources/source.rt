//! Sources of events.
ghost use Rattle.std.specs.Prelude.{◌≡◌};
ghost use Rattle.calloop_sources.specs.sources.Actions.{either};
ghost use Rattle.calloop_sources.specs.declared.sources.source.PostAction.{PostAction};
ghost use Rattle.calloop_sources.specs.declared.sources.source.PostAction.TheVariants.{Reregister};

use super::callback::{Asking, Callback};
use calloop_poll::sys::events::EventIterator;
use calloop_poll::sys::poll::Poll;
use calloop_poll::sys::synthetic::Synthetic;
use calloop_poll::sys::{Poller, Readiness};
use calloop_slots::error::{Error, Result as LoopResult};
use calloop_slots::token::{Token, TokenFactory};
use calloop_slots::wheel::Instant;
use std::ops::{BitOr, BitOrAssign};
use std::sync::Wait;

/// What becomes of a source after its turn.
#[derive(Clone, Copy, Debug, PartialEq, Eq)]
pub enum PostAction {
    /// It stays as it is.
    Continue,
    /// It is registered anew, with a factory that has made no token.
    Reregister,
    /// Its registration is taken back, and it stays in the loop.
    Disable,
    /// It leaves the loop.
    Remove,
}

impl BitOr for PostAction {
    ghost use Rattle.std.specs.Prelude.{◌≡◌};
    ghost use Rattle.calloop_sources.specs.sources.Actions.{either};

    type Output = PostAction;

    ghost bitor_gives = { λ left right both. both ≡ either left right };

    /// The action for a source made of two: the action that both ask for, else `Reregister`.
    fn bitor(self, other: PostAction) -> PostAction {
        if self == other {
            self
        } else {
            PostAction::Reregister
        }
    }
}

impl BitOrAssign for PostAction {
    ghost use Rattle.std.specs.Prelude.{◌≡◌};
    ghost use Rattle.calloop_sources.specs.sources.Actions.{either};

    ghost bitor_assign_gives = { λ left right both. both ≡ either left right };

    fn bitor_assign(&mut self, other: PostAction) {
        *self = *self | other;
    }
}

/// Joining post actions by `|` gives the same in any order, and however often; joining with `Reregister` gives that.
pub fn joining_has_no_order()
    ensures order { (a b : PostAction) → either a b ≡ either b a }
    ensures grouping { (a b c : PostAction) → either (either a b) c ≡ either a (either b c) }
    ensures repetition { (a : PostAction) → either a a ≡ a }
    ensures absorbed { (a : PostAction) → either a Reregister ≡ Reregister }
{}

/// The error of a source, as an error of the loop.
pub trait IntoError: Drop {
    ghost use Rattle.calloop_slots.specs.declared.error.Error.{Error};
    ghost use Rattle.calloop_sources.specs.sources.Calls.{IsOfSource};

    /// Which error a cause becomes.
    ghost becomes: { Self → Error → Type 0 };

    /// Only `OtherError` or `OutOfMemory`: all other errors are the loop's own.
    ghost of_source: { (cause : Self) (e : Error) → becomes cause e → IsOfSource e };

    fn into_error(self) -> Error
        ensures { becomes self result };
}

/// A source of events. `means` says what each call may do: the source before it, `Poll`, the call with its result, the steps that
/// it makes on `Poll`, and the source after it.
pub trait EventSource<P: Poller, C, R: Wait + Drop> {
    ghost use Rattle.std.specs.Prelude.{◌≡◌, List, []};
    ghost use Rattle.calloop_poll.specs.sys.Polls.{PollView, poll_view};
    ghost use Rattle.calloop_poll.specs.sys.Events.{events_left};
    ghost use Rattle.calloop_sources.specs.sources.Calls.{CallbackCall, Went};
    ghost use Rattle.calloop_poll.specs.sys.Synthetics.{IsLent};
    ghost use Rattle.calloop_sources.specs.sources.Deeds.{Registered, Reregistered, Unregistered, Turned, Slept, Noticed, Heard, new_heard};
    ghost use Rattle.calloop_sources.specs.sources.Meanings.{Meaning, Does, IsKeeping};
    ghost use Rattle.calloop_sources.specs.sources.SetDeadlines.{SetsDeadline};

    /// The argument of its callback.
    type Event;

    /// The value lent to its callback beside the event.
    type Metadata;

    /// The result of its callback.
    type Ret;

    /// The error of its turns.
    type Error: IntoError;

    ghost means: { Meaning Self P (Heard Self.Event Self.Metadata Self.Ret Self.Error) };

    /// Its turn, for an event of this token. It calls back for each event that it finds.
    fn process_events<F, X, Q>(
        &mut self,
        readiness: Readiness,
        token: Token,
        poll: &mut Poll<P, C, R>,
        callback: &mut F,
        data: &mut X,
        requests: &mut Q,
    ) -> Result<PostAction, Self::Error>
    where
        Q: Asking,
        F: Callback<Self::Event, Self::Metadata, Self::Ret, X, Q>,
        ensures { (calls : List (CallbackCall Self.Event Self.Metadata Self.Ret))
            × Does P.outside means self.old (poll_view poll.old)
            (Turned readiness token (new_heard calls result)) self.new (poll_view poll.new)
            × Went F.may Q.reaches callback.old «data».old requests.old calls
            callback.new «data».new requests.new };

    /// Registers it with tokens of the factory.
    fn register(&mut self, poll: &mut Poll<P, C, R>, factory: &mut TokenFactory) -> LoopResult<()>
        ensures { Does P.outside means self.old (poll_view poll.old)
            (Registered factory.old result factory.new) self.new (poll_view poll.new) };

    /// Registers it anew with tokens of the factory, as after a change of what it waits for.
    fn reregister(&mut self, poll: &mut Poll<P, C, R>, factory: &mut TokenFactory) -> LoopResult<()>
        ensures { Does P.outside means self.old (poll_view poll.old)
            (Reregistered factory.old result factory.new) self.new (poll_view poll.new) };

    /// Takes its registration back.
    fn unregister(&mut self, poll: &mut Poll<P, C, R>) -> LoopResult<()>
        ensures { Does P.outside means self.old (poll_view poll.old) (Unregistered result)
            self.new (poll_view poll.new) };

    /// True if it is told of waits: by `before_sleep` before each, and by `before_handle_events` after each. calloop has a
    /// constant of this name.
    fn needs_extra_lifecycle_events() -> bool
        ensures { (source : Self) → means.needs source ≡ result };

    /// The most events that it may ask for before one wait; 0 if it isn't told of waits.
    fn max_synthetic() -> u16
        ensures { (source : Self) → means.limit source ≡ result };

    /// Called before each wait. The events that it asks for join the batch in their order, and then the wait takes no time. Its
    /// error ends the dispatch; then none of this call's events joins, and what joined the batch before stays in it.
    fn before_sleep(&mut self, out: &mut Synthetic) -> LoopResult<()>
        ensures lent { out.new ≡ record out.old { given = out.new.given } }
        ensures slept { (v : PollView P) → IsLent (means.limit self.old) out.old
            → means.does self.old v (Slept out.new.given result) [] self.new };

    /// Called after each wait, before any turn, with the events that the wait brought for this source's registration.
    fn before_handle_events(&mut self, events: EventIterator<'_>)
        ensures { (v : PollView P)
            → means.does self.old v (Noticed (events_left events.entry)) [] self.new };

    /// Sets its deadline, which counts from its next registration on, and returns true. Returns false and does nothing if it is
    /// no timer, as by default. In calloop only `Timer` has this.
    fn try_set_deadline(&mut self, deadline: Instant) -> bool
        ensures { SetsDeadline means deadline self.old result self.new }
    {
        let _unused = deadline;
        false
    }

    /// Three laws. It touches no timer counter of another source, and calls at most once for each arming of its own. It uses only
    /// keys of its own registration, from a registration that succeeded on. It asks for at most its limit of events, which stays.
    ghost keeps: { IsKeeping means };
}
