//! The calls on a loop that act at once.
ghost use Rattle.std.specs.Prelude.{◌≡◌, ◌↔◌, None, Ok, Err, IfOk, IfErr, IsErr};
ghost use Rattle.calloop_slots.specs.declared.error.Error.TheVariants.{InvalidToken};
ghost use Rattle.calloop_slots.specs.declared.list.Content.TheVariants.{Source};
ghost use Rattle.calloop_slots.specs.declared.list.Content.TheVariants.{InTurn, Vacant};
ghost use Rattle.calloop_slots.specs.Slots.{content_at as named_by, source_of, with_change, with_content, next_registration};
ghost use Rattle.std.specs.Prelude.{is_some, if◌then◌else◌};
ghost use Rattle.calloop_loop.specs.Roles.{only, is_callers};
ghost use Rattle.std.specs.Borrow.{Lends, LendsIfOk, sem};
ghost use Rattle.std.specs.Prelude.{[]};
ghost use mir.Syntax.{named};
ghost use Rattle.calloop_loop.specs.contracts.LoopHandle.{the_row};
ghost use Rattle.calloop_loop.specs.Lending.{with_handle_poller, with_handle_source};
ghost use Rattle.calloop_loop.specs.declared.LoopCall.TheVariants.{Insert, Enable, Update, Disable, Remove, Exchange, InsertIdle, Cancel, Answer as AnswerOf, Poller as NewPoller};
ghost use Rattle.calloop_loop.specs.declared.LoopAnswer.TheVariants.{Inserted, Enabled, Updated, Disabled, Removed, Exchanged, IdleInserted, Cancelled, Answered, Poller as OldPoller};
ghost use Rattle.calloop_loop.specs.Machine.{view_of};
ghost use Rattle.calloop_loop.specs.Handles.{held_by, slots_by, poller_by, held_with_poller, held_with_source, HasTheSameLoop, IsCase, LeadsAsCase, NamesNone};
ghost use Rattle.calloop_loop.specs.Registering.{loop_answer_of, loop_call_of};
ghost use Rattle.calloop_loop.specs.Rules.{Case, Did, held_answer};

use super::asks::{Answer, Idle, Requests, Ticket};
use super::registering::{Registering, RegistrationCall};
use super::{EventDispatcher, EventLoop, LoopHandle};
use calloop_poll::sys::{Clock, Poller};
use calloop_slots::error::{Error, Failed, InsertError, Result, with_error};
use calloop_slots::list::SourceList;
use calloop_slots::token::{RegistrationToken, TokenFactory};
use calloop_sources::sources::{Callback, Dispatcher, EventSource, Hold, Role};
use std::sync::Wait;

impl<D: EventDispatcher<P, C, R>, P: Poller, C: Clock, R: Wait + Drop> EventLoop<D, P, C, R> {
    // True if the token names a source of the caller's.
    pub(super) fn is_callers(sources: &SourceList<D>, token: RegistrationToken) -> bool
        ensures { result
            ≡ is_some (source_of (only (is_callers D.means) (named_by sources.now token))) }
    {
        match sources.get(token) {
            Some(source) => source.role() == Role::Caller,
            None => false,
        }
    }

    // Takes out the caller's source that the token names, and leaves its slot in its turn.
    pub(super) fn take_out(sources: &mut SourceList<D>, token: RegistrationToken) -> Option<D>
        ensures value { result
            ≡ source_of (only (is_callers D.means) (named_by sources.old token)) }
        ensures list { sources.new ≡ (if is_some result
            then with_change (with_content InTurn) sources.old token.slot else sources.old) }
    {
        if !Self::is_callers(sources, token) {
            return None;
        }
        sources.begin_turn(token)
    }

    // Registers a source in the first vacant slot.
    fn insert_source<S, F, N>(
        &mut self,
        source: S,
        callback: F,
    ) -> std::result::Result<RegistrationToken, InsertError<S>>
    where
        D: Hold<S, F, P, C, R, D::Data, Requests<D, D::Idle>, N>,
        S: EventSource<P, C, R>,
        F: Callback<S::Event, S::Metadata, S::Ret, D::Data, Requests<D, D::Idle>> + Drop,
        ensures case { Did (Case D.means D.Idle.runs P.outside
            (Insert (D.held (record { source = source; callback = callback })))
            (Inserted (held_answer D.held callback result)))
            (view_of self.old) (view_of self.new) }
        ensures token { IfOk result (λ token. token ≡ next_registration self.old.sources) }
    {
        let mut source = source;
        let needed = <S as EventSource<P, C, R>>::needs_extra_lifecycle_events();
        let token = match self.claim(needed) {
            Ok(token) => token,
            Err(refusal) => {
                return Err(InsertError {
                    inserted: source,
                    error: Error::from(refusal),
                });
            }
        };
        let mut factory = TokenFactory::new(token);
        match source.register(&mut self.poll, &mut factory) {
            Ok(()) => {
                let held = D::hold(Dispatcher { source, callback });
                self.lifecycle.enter(needed, token);
                let _none = self.sources.end_turn(token, held);
                Ok(token)
            }
            Err(error) => {
                self.sources.vacate(token);
                Err(InsertError {
                    inserted: source,
                    error,
                })
            }
        }
    }

    // Registers a dispatcher in the first vacant slot.
    pub(super) fn insert(
        &mut self,
        dispatcher: D,
    ) -> std::result::Result<RegistrationToken, InsertError<D>>
        ensures case { Did (Case D.means D.Idle.runs P.outside (Insert dispatcher)
            (Inserted result)) (view_of self.old) (view_of self.new) }
        ensures token { IfOk result (λ token. token ≡ next_registration self.old.sources) }
    {
        let mut inserted = dispatcher;
        let needed = inserted.needs_extra_lifecycle_events();
        let token = match self.claim(needed) {
            Ok(token) => token,
            Err(refusal) => {
                return Err(InsertError {
                    inserted,
                    error: Error::from(refusal),
                });
            }
        };
        let mut factory = TokenFactory::new(token);
        let mut failure = Error::OutOfMemory;
        match inserted.register(&mut self.poll, &mut factory, &mut failure) {
            Ok(()) => {
                self.lifecycle.enter(needed, token);
                let _none = self.sources.end_turn(token, inserted);
                Ok(token)
            }
            Err(Failed) => {
                self.sources.vacate(token);
                Err(InsertError {
                    inserted,
                    error: failure,
                })
            }
        }
    }

    // Registers the source that the token names, registers it anew, or takes its registration back.
    pub(super) fn change_registration(
        &mut self,
        call: RegistrationCall,
        token: RegistrationToken,
    ) -> Result<()>
        ensures case { Did (Case D.means D.Idle.runs P.outside
            (loop_call_of call token) (loop_answer_of call result))
            (view_of self.old) (view_of self.new) }
        ensures refuses { source_of (only (is_callers D.means)
            (named_by self.old.sources token)) ≡ None → result ≡ Err InvalidToken }
    {
        let Some(mut source) = Self::take_out(&mut self.sources, token) else {
            return Err(Error::InvalidToken);
        };
        let mut failure = Error::OutOfMemory;
        let answer = match call {
            RegistrationCall::Enable => self.register(
                Registering::First,
                token,
                &mut source,
                &mut failure,
            ),
            RegistrationCall::Update => self.register(
                Registering::Anew,
                token,
                &mut source,
                &mut failure,
            ),
            RegistrationCall::Disable => self.unregister(token, &mut source, &mut failure),
        };
        let _none = self.sources.end_turn(token, source);
        with_error(answer, failure)
    }

    // Takes the source that the token names out of the loop. A failure of the unregistration is a warning.
    pub(super) fn remove(&mut self, token: RegistrationToken) -> Option<D>
        ensures case { Did (Case D.means D.Idle.runs P.outside (Remove token) (Removed result))
            (view_of self.old) (view_of self.new) }
        ensures none { (result ≡ None)
            ↔ (source_of (only (is_callers D.means) (named_by self.old.sources token)) ≡ None) }
        ensures slots { self.new.sources ≡ (if is_some result
            then with_change (with_content Vacant) self.old.sources token.slot
            else self.old.sources) }
    {
        let mut source = Self::take_out(&mut self.sources, token)?;
        self.sources.vacate(token);
        let mut failure = Error::OutOfMemory;
        let told = self.unregister(token, &mut source, &mut failure);
        self.warnings.note_failure(told, failure);
        Some(source)
    }

    // Puts an idle at the end.
    pub(super) fn insert_idle(
        &mut self,
        idle: D::Idle,
    ) -> std::result::Result<Idle, InsertError<D::Idle>>
        ensures { Did (Case D.means D.Idle.runs P.outside (InsertIdle idle) (IdleInserted result))
            (view_of self.old) (view_of self.new) }
    {
        self.requests.add_idle(idle)
    }
}

impl<D: EventDispatcher<P, C, R>, P: Poller, C: Clock, R: Wait + Drop> LoopHandle<'_, D, P, C, R> {
    /// Registers a source in the first vacant slot, with a callback for its events.
    ///
    /// On failure it hands the source back. With `TooManySources`, or without memory for a new slot, everything is unchanged; if
    /// the registration fails, the slot is vacant again, under its new version.
    pub fn insert_source<S, F, N>(
        &mut self,
        source: S,
        callback: F,
    ) -> std::result::Result<RegistrationToken, InsertError<S>>
    where
        D: Hold<S, F, P, C, R, D::Data, Requests<D, D::Idle>, N>,
        S: EventSource<P, C, R>,
        F: Callback<S::Event, S::Metadata, S::Ret, D::Data, Requests<D, D::Idle>> + Drop,
        ensures same { HasTheSameLoop self.old self.new }
        ensures token { IfOk result (λ token. token ≡ next_registration (slots_by self.old)) }
        ensures case { IsCase D.means D.Idle.runs P.outside
            (Insert (D.held (record { source = source; callback = callback })))
            (Inserted (held_answer D.held callback result)) self.old self.new }
        ensures machine { LeadsAsCase D.means D.Idle.runs P.outside
            (Insert (D.held (record { source = source; callback = callback })))
            (Inserted (held_answer D.held callback result)) self.old self.new }
    {
        self.inner.insert_source(source, callback)
    }

    /// Registers a dispatcher in the first vacant slot: a source with its callback, as the loop holds them. Fails as
    /// `insert_source` does.
    pub fn register_dispatcher(
        &mut self,
        dispatcher: D,
    ) -> std::result::Result<RegistrationToken, InsertError<D>>
        ensures same { HasTheSameLoop self.old self.new }
        ensures token { IfOk result (λ token. token ≡ next_registration (slots_by self.old)) }
        ensures case { IsCase D.means D.Idle.runs P.outside
            (Insert dispatcher) (Inserted result) self.old self.new }
        ensures machine { LeadsAsCase D.means D.Idle.runs P.outside
            (Insert dispatcher) (Inserted result) self.old self.new }
    {
        self.inner.insert(dispatcher)
    }

    /// The source that the token names, with its callback. Fails with `InvalidToken` if it names none.
    pub fn dispatcher(&self, token: &RegistrationToken) -> Result<&D>
        ensures ok { IfOk result
            (λ held. named_by (slots_by self.now) token.now ≡ Source held.now) }
        ensures refuses { IsErr result ↔ NamesNone D.means token.now self.now }
        ensures err { IfErr result (λ e. e ≡ InvalidToken) }
    {
        if !EventLoop::<D, P, C, R>::is_callers(&self.inner.sources, *token) {
            return Err(Error::InvalidToken);
        }
        self.inner.sources.get(*token).ok_or(Error::InvalidToken)
    }

    /// The source that the token names, with its callback, to be changed in its slot. Fails with `InvalidToken` if it names none.
    ///
    /// The loop learns of a change at the next `update`: a timer with a new deadline fires at the one that it was registered with
    /// before. Another source can be put in the place of this one. It then has that place with what it holds, and the one before
    /// isn't unregistered. Two promises, that no timer fires twice for one arming and that a source in a slot has keys of this
    /// slot alone, hold only of loops into which none is put with a timer's counter, or a key, which the one before didn't have.
    pub fn dispatcher_mut(&mut self, token: &RegistrationToken) -> Result<&mut D>
        ensures* writes_back { sem 𝓛 (LendsIfOk
            (the_row (record { mir = named 1; lft = [] })
            D.row P.row C.row R.row D.Data.row D.Idle.row)
            D.row self.entry result (λ w. with_handle_source token.now w self.old) self.old) }
        ensures ok { IfOk result
            (λ held. named_by (slots_by self.old) token.now ≡ Source held.now) }
        ensures machine { IfOk result (λ held. (written : D)
            → Did (Case D.means D.Idle.runs P.outside
            (Exchange token.now written) (Exchanged (Ok held.now)))
            (held_by self.old) (held_with_source token.now written self.old)) }
        ensures refuses { IsErr result ↔ NamesNone D.means token.now self.old }
        ensures err { IfErr result (λ e. e ≡ InvalidToken) }
    {
        if !EventLoop::<D, P, C, R>::is_callers(&self.inner.sources, *token) {
            return Err(Error::InvalidToken);
        }
        self.inner.sources.get_mut(*token)
    }

    /// Registers the source that the token names, with tokens of a new factory, as after `disable`.
    ///
    /// Fails with `InvalidToken` if the token names no source, and then nothing changes. Else returns the source's own answer;
    /// the source stays in its slot as that left it, even after a failure.
    pub fn enable(&mut self, token: &RegistrationToken) -> Result<()>
        ensures same { HasTheSameLoop self.old self.new }
        ensures refuses { NamesNone D.means token.now self.old → result ≡ Err InvalidToken }
        ensures case { IsCase D.means D.Idle.runs P.outside
            (Enable token.now) (Enabled result) self.old self.new }
        ensures machine { LeadsAsCase D.means D.Idle.runs P.outside
            (Enable token.now) (Enabled result) self.old self.new }
    {
        self.inner
            .change_registration(RegistrationCall::Enable, *token)
    }

    /// Registers the source that the token names anew, as after a change of what it waits for. The answer is as for `enable`.
    pub fn update(&mut self, token: &RegistrationToken) -> Result<()>
        ensures same { HasTheSameLoop self.old self.new }
        ensures refuses { NamesNone D.means token.now self.old → result ≡ Err InvalidToken }
        ensures case { IsCase D.means D.Idle.runs P.outside
            (Update token.now) (Updated result) self.old self.new }
        ensures machine { LeadsAsCase D.means D.Idle.runs P.outside
            (Update token.now) (Updated result) self.old self.new }
    {
        self.inner
            .change_registration(RegistrationCall::Update, *token)
    }

    /// Takes back the registration of the source that the token names. The source stays in its slot, and `enable` registers it
    /// again. The answer is as for `enable`.
    pub fn disable(&mut self, token: &RegistrationToken) -> Result<()>
        ensures same { HasTheSameLoop self.old self.new }
        ensures refuses { NamesNone D.means token.now self.old → result ≡ Err InvalidToken }
        ensures case { IsCase D.means D.Idle.runs P.outside
            (Disable token.now) (Disabled result) self.old self.new }
        ensures machine { LeadsAsCase D.means D.Idle.runs P.outside
            (Disable token.now) (Disabled result) self.old self.new }
    {
        self.inner
            .change_registration(RegistrationCall::Disable, *token)
    }

    /// Takes the source that the token names out of the loop, and hands it back unregistered. Its slot is vacant, and the token
    /// names nothing from then on. A failure of the unregistration is a warning.
    ///
    /// If the token names no source it returns `None`, and nothing changes.
    pub fn remove(&mut self, token: RegistrationToken) -> Option<D>
        ensures same { HasTheSameLoop self.old self.new }
        ensures none { (result ≡ None) ↔ NamesNone D.means token self.old }
        ensures slots { slots_by self.new ≡ (if is_some result
            then with_change (with_content Vacant) (slots_by self.old) token.slot
            else slots_by self.old) }
        ensures case { IsCase D.means D.Idle.runs P.outside
            (Remove token) (Removed result) self.old self.new }
        ensures machine { LeadsAsCase D.means D.Idle.runs P.outside
            (Remove token) (Removed result) self.old self.new }
    {
        self.inner.remove(token)
    }

    /// Asks for something to be done once, at the end of the next dispatch. On failure it hands the idle back: with
    /// `OutOfMemory`, or with `TooManyTickets` if 2^64 - 1 tickets were given.
    pub fn insert_idle(&mut self, idle: D::Idle) -> std::result::Result<Idle, InsertError<D::Idle>>
        ensures same { HasTheSameLoop self.old self.new }
        ensures case { IsCase D.means D.Idle.runs P.outside
            (InsertIdle idle) (IdleInserted result) self.old self.new }
        ensures machine { LeadsAsCase D.means D.Idle.runs P.outside
            (InsertIdle idle) (IdleInserted result) self.old self.new }
    {
        self.inner.insert_idle(idle)
    }

    /// Asks for an idle not to be run. An idle that has run is not undone. calloop has this as `Idle::cancel`.
    pub fn cancel(&mut self, idle: Idle)
        ensures same { HasTheSameLoop self.old self.new }
        ensures case { IsCase D.means D.Idle.runs P.outside
            (Cancel idle) Cancelled self.old self.new }
        ensures machine { LeadsAsCase D.means D.Idle.runs P.outside
            (Cancel idle) Cancelled self.old self.new }
    {
        self.inner.requests.take_out_idle(idle.ticket().number());
    }

    /// Hands out the answer to the request of this ticket once, if it was carried out. `Requests::answer` says how long it stays.
    pub fn answer(&mut self, ticket: Ticket) -> Option<Answer<D>>
        ensures same { HasTheSameLoop self.old self.new }
        ensures case { IsCase D.means D.Idle.runs P.outside
            (AnswerOf ticket) (Answered result) self.old self.new }
        ensures machine { LeadsAsCase D.means D.Idle.runs P.outside
            (AnswerOf ticket) (Answered result) self.old self.new }
    {
        self.inner.requests.answer(ticket)
    }

    /// Why sources that left the loop failed to take their registration back, since the last dispatch began: those that were
    /// removed, and those that left it at the end of their turn. If there was no memory for an error, it is missing.
    pub fn warnings(&self) -> &[Error]
        ensures { result.now ≡ (held_by self.now).held.warnings }
    {
        self.inner.warnings.as_slice()
    }

    /// The poller itself, as to give a scripted one its answers. Pings wake the poller that the loop was made with: another
    /// poller in its place hears of them only at its next wait.
    pub fn poller_mut(&mut self) -> &mut P
        ensures* writes_back { sem 𝓛 (Lends
            (the_row (record { mir = named 1; lft = [] })
            D.row P.row C.row R.row D.Data.row D.Idle.row)
            P.row self.entry result (λ w. with_handle_poller w self.old)) }
        ensures value { result.now ≡ poller_by self.old }
        ensures machine { (written : P)
            → Did (Case D.means D.Idle.runs P.outside (NewPoller written) (OldPoller result.now))
            (held_by self.old) (held_with_poller written self.old) }
    {
        self.inner.poll.poller_mut()
    }
}
