//! A source that can come and go inside another one. From calloop's `sources/transient.rs`.
ghost use Rattle.std.specs.Prelude.{◌≡◌, ◌⊎◌, ◌≤◌, List, Bool, true, false, Ok};
ghost use Rattle.std.specs.Fn.{FnOnceReturnsAtMut};
ghost use Rattle.calloop_slots.specs.declared.token.Token.{Token};
ghost use Rattle.calloop_sources.specs.declared.sources.source.PostAction.{PostAction};
ghost use Rattle.calloop_sources.specs.declared.sources.source.PostAction.TheVariants.{Continue, Reregister};
ghost use Rattle.calloop_poll.specs.declared.sys.Readiness.{Readiness};
ghost use Rattle.calloop_sources.specs.declared.transient.State.{State};
ghost use Rattle.calloop_sources.specs.declared.transient.State.TheVariants.{Keep, Register, Disable, Remove, Replace};
ghost use Rattle.calloop_poll.specs.sys.Polls.{PollView, PollStep, poll_view};
ghost use Rattle.calloop_sources.specs.sources.Deeds.{Deed, Registered, Reregistered, Unregistered, Turned, Heard};
ghost use Rattle.calloop_sources.specs.sources.Meanings.{Does};
ghost use Rattle.calloop_sources.specs.Transients.{state_meaning, Moves, KeptBy, removed_from, replaced_by};
ghost use Rattle.calloop_sources.specs.Transients.{is_without_source, is_given_up, leaving, giving_way_to, handed_back_by, IsMappedBy};
ghost use Rattle.calloop_sources.specs.TransientMarks.{IsMarked, registered_within, IsRegisteredBy, Succeeds};

use crate::sources::{Asking, Callback, EventSource, PostAction};
use calloop_poll::sys::events::EventIterator;
use calloop_poll::sys::poll::Poll;
use calloop_poll::sys::synthetic::Synthetic;
use calloop_poll::sys::{Poller, Readiness};
use calloop_slots::error::Result as LoopResult;
use calloop_slots::token::{Token, TokenFactory};
use std::mem;
use std::sync::Wait;

// What becomes of the inner source, and whether it is registered.
#[derive(Debug, Drop)]
enum State<T> {
    // It stays.
    Keep { source: T, registered: bool },
    // It isn't registered, and comes with the next registration.
    Register(T),
    // It rests from the next `reregister` on.
    Disable { source: T, registered: bool },
    // It leaves with the next registration.
    Remove { source: T, registered: bool },
    // The old one leaves with the next registration, and the new one comes. The mark is the old one's.
    Replace { new: T, old: T, registered: bool },
    Empty,
}

/// A source that can be disabled, removed or replaced while the source that it is a part of stays in the loop. Its turns
/// return `Continue` or `Reregister` alone; the needed changes happen when the whole is registered anew.
///
/// It notes whether the inner source is registered, which calloop's doesn't: so nothing is unregistered that isn't registered,
/// and no registration is lost. An error of the inner source is handed on, and what it did before that stays:
/// the same call goes on from there. It isn't told of waits, whatever the inner source needs.
#[derive(Debug, Drop)]
pub struct TransientSource<T> {
    state: State<T>,
}

// The source leaves for good; if it is registered, it is unregistered first.
fn remove_state<P: Poller, C, R: Wait + Drop, T>(
    mut source: T,
    registered: bool,
    poll: &mut Poll<P, C, R>,
) -> (State<T>, LoopResult<()>)
where
    T: EventSource<P, C, R> + Drop,
    ensures { Does P.outside (state_meaning T.EventSource.means) (Remove source registered)
        (poll_view poll.old) (Unregistered result.1)
        result.0 (poll_view poll.new) }
{
    if !registered {
        return (State::Empty, Ok(()));
    }
    match source.unregister(poll) {
        Ok(()) => (State::Empty, Ok(())),
        Err(refusal) => (State::Remove { source, registered }, Err(refusal)),
    }
}

// The source is registered, and stays.
fn keep_state<T>(source: T) -> (State<T>, LoopResult<()>)
    ensures { result ≡ (Keep source true, Ok tt) }
{
    let state = State::Keep {
        source,
        registered: true,
    };
    (state, Ok(()))
}

// Registers the new source, when the old one isn't registered.
fn enter_state<P: Poller, C, R: Wait + Drop, T>(
    mut new: T,
    old: T,
    poll: &mut Poll<P, C, R>,
    factory: &mut TokenFactory,
) -> (State<T>, LoopResult<()>)
where
    T: EventSource<P, C, R> + Drop,
    ensures { Does P.outside (state_meaning T.EventSource.means) (Replace new old false)
        (poll_view poll.old) (Registered factory.old result.1 factory.new)
        result.0 (poll_view poll.new) }
{
    match new.register(poll, factory) {
        Ok(()) => keep_state(new),
        Err(refusal) => (
            State::Replace {
                new,
                old,
                registered: false,
            },
            Err(refusal),
        ),
    }
}

// Unregisters the old source, and then registers the new one.
fn replace_state<P: Poller, C, R: Wait + Drop, T>(
    new: T,
    mut old: T,
    poll: &mut Poll<P, C, R>,
    factory: &mut TokenFactory,
) -> (State<T>, LoopResult<()>)
where
    T: EventSource<P, C, R> + Drop,
    ensures { Does P.outside (state_meaning T.EventSource.means) (Replace new old true)
        (poll_view poll.old) (Registered factory.old result.1 factory.new)
        result.0 (poll_view poll.new) }
{
    match old.unregister(poll) {
        Ok(()) => enter_state(new, old, poll, factory),
        Err(refusal) => (
            State::Replace {
                new,
                old,
                registered: true,
            },
            Err(refusal),
        ),
    }
}

// `register` of the whole.
fn register_state<P: Poller, C, R: Wait + Drop, T>(
    state: State<T>,
    poll: &mut Poll<P, C, R>,
    factory: &mut TokenFactory,
) -> (State<T>, LoopResult<()>)
where
    T: EventSource<P, C, R> + Drop,
    ensures { Does P.outside (state_meaning T.EventSource.means) state (poll_view poll.old)
        (Registered factory.old result.1 factory.new) result.0 (poll_view poll.new) }
{
    match state {
        State::Keep {
            mut source,
            registered,
        } => match source.register(poll, factory) {
            Ok(()) => keep_state(source),
            Err(refusal) => (State::Keep { source, registered }, Err(refusal)),
        },
        State::Register(mut source) => match source.register(poll, factory) {
            Ok(()) => keep_state(source),
            Err(refusal) => (State::Register(source), Err(refusal)),
        },
        State::Disable {
            mut source,
            registered,
        } => match source.register(poll, factory) {
            Ok(()) => keep_state(source),
            Err(refusal) => (State::Disable { source, registered }, Err(refusal)),
        },
        State::Remove { source, registered } => remove_state(source, registered, poll),
        State::Replace {
            new,
            old,
            registered,
        } => {
            if registered {
                replace_state(new, old, poll, factory)
            } else {
                enter_state(new, old, poll, factory)
            }
        }
        State::Empty => (State::Empty, Ok(())),
    }
}

// `reregister` of the whole.
fn reregister_state<P: Poller, C, R: Wait + Drop, T>(
    state: State<T>,
    poll: &mut Poll<P, C, R>,
    factory: &mut TokenFactory,
) -> (State<T>, LoopResult<()>)
where
    T: EventSource<P, C, R> + Drop,
    ensures { Does P.outside (state_meaning T.EventSource.means) state (poll_view poll.old)
        (Reregistered factory.old result.1 factory.new) result.0 (poll_view poll.new) }
{
    match state {
        State::Keep {
            mut source,
            registered,
        } => match source.reregister(poll, factory) {
            Ok(()) => keep_state(source),
            Err(refusal) => (State::Keep { source, registered }, Err(refusal)),
        },
        State::Disable { source, registered } => disable_state(source, registered, poll),
        state => register_state(state, poll, factory),
    }
}

// The source rests.
fn disable_state<P: Poller, C, R: Wait + Drop, T>(
    mut source: T,
    registered: bool,
    poll: &mut Poll<P, C, R>,
) -> (State<T>, LoopResult<()>)
where
    T: EventSource<P, C, R> + Drop,
    ensures { Does P.outside (state_meaning T.EventSource.means) (Disable source registered)
        (poll_view poll.old) (Unregistered result.1)
        result.0 (poll_view poll.new) }
{
    if !registered {
        return (State::Disable { source, registered }, Ok(()));
    }
    match source.unregister(poll) {
        Ok(()) => (
            State::Disable {
                source,
                registered: false,
            },
            Ok(()),
        ),
        Err(refusal) => (State::Disable { source, registered }, Err(refusal)),
    }
}

// `unregister` of the whole.
fn unregister_state<P: Poller, C, R: Wait + Drop, T>(
    state: State<T>,
    poll: &mut Poll<P, C, R>,
) -> (State<T>, LoopResult<()>)
where
    T: EventSource<P, C, R> + Drop,
    ensures { Does P.outside (state_meaning T.EventSource.means) state (poll_view poll.old)
        (Unregistered result.1) result.0 (poll_view poll.new) }
{
    match state {
        State::Keep {
            mut source,
            registered: true,
        } => match source.unregister(poll) {
            Ok(()) => (
                State::Keep {
                    source,
                    registered: false,
                },
                Ok(()),
            ),
            Err(refusal) => (
                State::Keep {
                    source,
                    registered: true,
                },
                Err(refusal),
            ),
        },
        State::Disable { source, registered } => disable_state(source, registered, poll),
        State::Remove { source, registered } => remove_state(source, registered, poll),
        State::Replace {
            new,
            mut old,
            registered: true,
        } => match old.unregister(poll) {
            Ok(()) => (State::Register(new), Ok(())),
            Err(refusal) => (
                State::Replace {
                    new,
                    old,
                    registered: true,
                },
                Err(refusal),
            ),
        },
        State::Replace { new, .. } => (State::Register(new), Ok(())),
        state => (state, Ok(())),
    }
}

// The effect of the turn of a kept source.
fn kept_by<T, E>(
    told: Result<PostAction, E>,
    source: T,
    registered: bool,
) -> (State<T>, Result<PostAction, E>)
    ensures { KeptBy told source registered result.1 result.0 }
{
    match told {
        Ok(PostAction::Continue) => (State::Keep { source, registered }, Ok(PostAction::Continue)),
        Ok(PostAction::Reregister) => (
            State::Keep { source, registered },
            Ok(PostAction::Reregister),
        ),
        Ok(PostAction::Disable) => (
            State::Disable { source, registered },
            Ok(PostAction::Reregister),
        ),
        Ok(PostAction::Remove) => (
            State::Remove { source, registered },
            Ok(PostAction::Reregister),
        ),
        Err(cause) => (State::Keep { source, registered }, Err(cause)),
    }
}

impl<T> From<T> for TransientSource<T> {
    ghost use Rattle.std.specs.Prelude.{◌≡◌};
    ghost use Rattle.calloop_sources.specs.Transients.{coming};

    ghost from_gives = { λ source wrapped. wrapped ≡ coming source };

    /// Makes one whose source is registered by the first registration.
    fn from(source: T) -> TransientSource<T> {
        TransientSource {
            state: State::Register(source),
        }
    }
}

impl<T> Default for TransientSource<T> {
    ghost use Rattle.std.specs.Prelude.{◌≡◌};
    ghost use Rattle.calloop_sources.specs.Transients.{without_source};

    ghost is_default = { λ wrapped. wrapped ≡ without_source };

    /// Makes one without a source.
    fn default() -> TransientSource<T> {
        TransientSource {
            state: State::Empty,
        }
    }
}

impl<T> TransientSource<T> {
    /// True if there is no inner source.
    pub fn is_none(&self) -> bool
        ensures { result ≡ is_without_source self.now }
    {
        match &self.state {
            State::Empty => true,
            _ => false,
        }
    }

    /// True if the inner source is to stay, and isn't registered.
    pub fn is_given_up(&self) -> bool
        ensures { result ≡ is_given_up self.now.state }
    {
        matches!(
            &self.state,
            State::Keep {
                registered: false,
                ..
            }
        )
    }

    /// Returns what `f` makes of the inner source, or of the one that is to come in its place. Returns `None`, without a call, if
    /// it is to leave, or there is none.
    pub fn map<F, U>(&mut self, f: F) -> Option<U>
    where
        F: FnOnce(&mut T) -> U,
        requires { F.IsAlwaysCallable f }
        ensures { IsMappedBy (FnOnceReturnsAtMut F.FnOnce f) self.old result self.new }
    {
        match &mut self.state {
            State::Keep { source, .. } => Some(f(source)),
            State::Register(source) => Some(f(source)),
            State::Disable { source, .. } => Some(f(source)),
            State::Replace { new, .. } => Some(f(new)),
            State::Remove { .. } => None,
            State::Empty => None,
        }
    }
}

// The source is to leave.
fn state_leaving<T: Drop>(state: State<T>) -> State<T>
    ensures { result ≡ removed_from state }
{
    match state {
        State::Keep { source, registered } => State::Remove { source, registered },
        State::Register(source) => State::Remove {
            source,
            registered: false,
        },
        State::Disable { source, registered } => State::Remove { source, registered },
        State::Remove { source, registered } => State::Remove { source, registered },
        State::Replace {
            new: _,
            old,
            registered,
        } => State::Remove {
            source: old,
            registered,
        },
        State::Empty => State::Empty,
    }
}

// Another source is to come in place of this one, if there is one.
fn state_giving_way<T: Drop>(state: State<T>, new: T) -> State<T>
    ensures { result ≡ replaced_by new state }
{
    match state {
        State::Keep { source, registered } => State::Replace {
            new,
            old: source,
            registered,
        },
        State::Register(source) => State::Replace {
            new,
            old: source,
            registered: false,
        },
        State::Disable { source, registered } => State::Replace {
            new,
            old: source,
            registered,
        },
        State::Remove { source, registered } => State::Replace {
            new,
            old: source,
            registered,
        },
        State::Replace {
            new: _,
            old,
            registered,
        } => State::Replace {
            new,
            old,
            registered,
        },
        State::Empty => State::Empty,
    }
}

impl<T: Drop> TransientSource<T> {
    /// The inner source leaves when the whole is registered anew. One that was to come in its place is dropped.
    pub fn remove(&mut self)
        ensures { self.new ≡ leaving self.old }
    {
        let state = mem::replace(&mut self.state, State::Empty);
        self.state = state_leaving(state);
    }

    /// The new source takes the place of the inner one when the whole is registered anew. One that was to come before is dropped.
    /// If there is no inner source, the new one is handed back; calloop drops it.
    pub fn replace(&mut self, new: T) -> Option<T>
        ensures new { self.new ≡ giving_way_to new self.old }
        ensures back { result ≡ handed_back_by self.old new }
    {
        if self.is_none() {
            return Some(new);
        }
        let state = mem::replace(&mut self.state, State::Empty);
        self.state = state_giving_way(state, new);
        None
    }
}

impl<P: Poller, C, R: Wait + Drop, T> EventSource<P, C, R> for TransientSource<T>
where
    T: EventSource<P, C, R> + Drop,
{
    ghost use Rattle.calloop_sources.specs.Transients.{transient_meaning};
    ghost use Rattle.calloop_sources.specs.TransientKeeping.{transient_keeps};

    type Event = T::Event;

    type Metadata = T::Metadata;

    type Ret = T::Ret;

    type Error = T::Error;

    ghost means = { transient_meaning T.EventSource.means };

    /// The turn of the inner source, if it stays. After `Disable` it rests, and after `Remove` it leaves, when the whole is
    /// registered anew: this returns `Reregister`. After an error it stays. A source that rests, is to leave or to come isn't
    /// called, and this returns `Continue`.
    fn process_events<F, X, Q>(
        &mut self,
        readiness: Readiness,
        token: Token,
        poll: &mut Poll<P, C, R>,
        callback: &mut F,
        data: &mut X,
        requests: &mut Q,
    ) -> Result<PostAction, T::Error>
    where
        Q: Asking,
        F: Callback<T::Event, T::Metadata, T::Ret, X, Q>,
    {
        match mem::replace(&mut self.state, State::Empty) {
            State::Keep {
                mut source,
                registered,
            } => {
                let told = source.process_events(readiness, token, poll, callback, data, requests);
                let (state, answer) = kept_by(told, source, registered);
                self.state = state;
                answer
            }
            state => {
                self.state = state;
                Ok(PostAction::Continue)
            }
        }
    }

    /// Registers the inner source, also one that rests, or the one that is to come in its place, once the old one is
    /// unregistered. One that is to leave is unregistered, if it is registered.
    fn register(&mut self, poll: &mut Poll<P, C, R>, factory: &mut TokenFactory) -> LoopResult<()> {
        let state = mem::replace(&mut self.state, State::Empty);
        let (state, answer) = register_state(state, poll, factory);
        self.state = state;
        answer
    }

    /// Registers the inner source anew if it stays, and unregisters one that is to rest. All else is as in `register`.
    fn reregister(
        &mut self,
        poll: &mut Poll<P, C, R>,
        factory: &mut TokenFactory,
    ) -> LoopResult<()> {
        let state = mem::replace(&mut self.state, State::Empty);
        let (state, answer) = reregister_state(state, poll, factory);
        self.state = state;
        answer
    }

    /// Unregisters the inner source, if it is registered. One that is to leave is gone then, and one that is to come in its
    /// place is there.
    fn unregister(&mut self, poll: &mut Poll<P, C, R>) -> LoopResult<()> {
        let state = mem::replace(&mut self.state, State::Empty);
        let (state, answer) = unregister_state(state, poll);
        self.state = state;
        answer
    }

    /// False: it isn't told of waits, whatever the inner source is.
    fn needs_extra_lifecycle_events() -> bool {
        false
    }

    fn max_synthetic() -> u16 {
        0
    }

    fn before_sleep(&mut self, _out: &mut Synthetic) -> LoopResult<()> {
        Ok(())
    }

    fn before_handle_events(&mut self, _events: EventIterator<'_>) {}

    ghost keeps = { transient_keeps T.EventSource.means T.EventSource.keeps };
}

/// If nobody else registers the inner source, and its calls succeed, at most one inner source is registered after each
/// call, as the mark says; and a turn that succeeds returns `Continue` or `Reregister`. `registered` says of a source whether
/// it is registered: a registration that succeeds makes it so, an unregistration ends it, and turns leave it unchanged.
#[tactic(auto, using(crate::proofs::Marked::one_registered, crate::proofs::Marked::always_marked, crate::proofs::Marked::turned_answer, crate::proofs::Marked::removed_marked, crate::proofs::Marked::replaced_marked))]
pub fn at_most_one_is_registered<P: Poller, C, R: Wait + Drop, T>()
where
    T: EventSource<P, C, R>,
    ensures one { (registered : T → Bool) (state : State T) → IsMarked registered state
        → registered_within registered state ≤ 1 }
    ensures calls { (registered : T → Bool) → IsRegisteredBy T.means registered
        → (s t : State T) (v : PollView P) (deed : Deed (Heard T.Event T.Metadata T.Ret T.Error))
        (steps : List (PollStep P)) → IsMarked registered s → Succeeds deed
        → Moves T.means s v deed steps t → IsMarked registered t }
    ensures removed { (registered : T → Bool) (state : State T) → IsMarked registered state
        → IsMarked registered (removed_from state) }
    ensures replaced { (registered : T → Bool) (new : T) (state : State T) → registered new ≡ false
        → IsMarked registered state → IsMarked registered (replaced_by new state) }
    ensures answers { (s t : State T) (v : PollView P) (readiness : Readiness) (token : Token)
        (turn : Heard T.Event T.Metadata T.Ret T.Error)
        (steps : List (PollStep P)) (action : PostAction)
        → turn.answer ≡ Ok action → Moves T.means s v (Turned readiness token turn) steps t
        → (action ≡ Continue) ⊎ (action ≡ Reregister) }
{}

/// Marks that the law rules out, if a source is a word that says whether it is registered: an old one and a new one that
/// are both registered, a registration that was lost, and one that is no longer there.
pub fn wrong_marks_are_ruled_out()
    ensures both { ¬ IsMarked (λ source. source) (Replace true true true) }
    ensures two { registered_within (λ source. source) (Replace true true true) ≡ 2 }
    ensures lost { ¬ IsMarked (λ source. source) (Register true) }
    ensures gone { ¬ IsMarked (λ source. source) (Keep false true) }
{}
