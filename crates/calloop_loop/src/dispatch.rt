//! A dispatch: the wait, the batch, and the turns of its events.
ghost use Rattle.std.specs.Prelude.{◌≡◌, ◌<◌, length, Ok, Err, IfOk, IfErr, true, false};
ghost use Rattle.calloop_slots.specs.declared.error.Error.TheVariants.{OutOfMemory};
ghost use Rattle.calloop_poll.specs.sys.Pollers.{nanos_of};
ghost use Rattle.calloop_loop.specs.DispatchErrors.{IsOfDispatch};
ghost use Rattle.calloop_loop.specs.Handles.{loop_by, lent_by};
ghost use Rattle.calloop_loop.specs.declared.LoopCall.TheVariants.{Dispatch};
ghost use Rattle.calloop_loop.specs.declared.LoopAnswer.TheVariants.{Dispatched};
ghost use Rattle.calloop_loop.specs.Machine.{BeginsAnew, view_of};
ghost use Rattle.calloop_loop.specs.Loops.{poller_of, clock_of};
ghost use Rattle.calloop_slots.specs.declared.error.Error.{Error};
ghost use Rattle.calloop_slots.specs.Failures.{with_error};
ghost use Rattle.calloop_slots.specs.Slots.{content_at, is_in_turn, with_change, with_content};
ghost use Rattle.calloop_slots.specs.declared.list.Content.TheVariants.{Source, InTurn};
ghost use Rattle.calloop_loop.specs.Rules.{Case, DispatchedBy, Did, Leads, Goes, Cutting, Serving, Ending, Returning, Idling, RunningIdles, Leaving, Outcome, action_of, after_batch, after_idle, after_turn, after_hand_out};

use super::asks::Requests;
use super::lifecycle::Lifecycle;
use super::registering::Registering;
use super::stops::StopNotes;
use super::warnings::Warnings;
use super::{EventDispatcher, EventLoop, LoopHandle};
use calloop_poll::signal::OwnSignal;
use calloop_poll::sys::poll::Poll;
use calloop_poll::sys::synthetic::Synthetic;
use calloop_poll::sys::{Clock, Poller};
use calloop_slots::error::{Error, Failed, Result as LoopResult};
use calloop_slots::list::SourceList;
use calloop_slots::token::RegistrationToken;
use calloop_sources::idles::IdleCallback;
use calloop_sources::sources::PostAction;
use std::alloc::Global;
use std::sync::Wait;
use std::time::Duration;

impl<D: EventDispatcher<P, C, R>, P: Poller, C: Clock, R: Wait + Drop> EventLoop<D, P, C, R> {
    /// Makes a loop over this poller and this clock, without sources. Fails with `OutOfMemory` if memory runs out.
    pub fn try_new(rt: &R, alloc: Global, poller: P, clock: C) -> LoopResult<EventLoop<D, P, C, R>>
    where
        R: Clone,
        ensures new { IfOk result BeginsAnew }
        ensures poller { IfOk result (λ made. poller_of made ≡ poller) }
        ensures clock { IfOk result (λ made. clock_of made ≡ clock) }
        ensures err { IfErr result (λ e. e ≡ OutOfMemory) }
    {
        let notifier = poller.notifier()?;
        Ok(EventLoop {
            sources: SourceList::new(alloc),
            poll: Poll::new(rt.clone()?, alloc, poller, clock)?,
            lifecycle: Lifecycle::new(alloc),
            synthetic: Synthetic::new(alloc),
            pending: PostAction::Continue,
            requests: Requests::numbered_from(0, alloc),
            warnings: Warnings::new(alloc),
            signal: OwnSignal::new(alloc, notifier)?,
            stops: StopNotes::none(),
        })
    }

    /// Lends the handle, whose calls act at once.
    pub fn handle(&mut self) -> LoopHandle<'_, D, P, C, R>
        ensures same { lent_by result ≡ self.entry.ghost_name }
        ensures value { loop_by result ≡ self.old }
    {
        LoopHandle { inner: self }
    }

    /// Waits for events and gives each source its turn. The wait lasts at most for `timeout`; without a timeout, until the first
    /// deadline, and for ever if there is none.
    ///
    /// Running out of memory for the batch changes nothing. An error of the wait is `IoError`, and leaves posted keys posted. The
    /// error of a turn ends the dispatch; the rest of the batch comes first in the next one. After its turn a source is
    /// registered anew, unregistered, or leaves its slot, as it answered. If one of the first two fails, that is an error of the
    /// turn. A source that left its slot is unregistered last; a failure of that is a warning.
    ///
    /// What callbacks ask for in a turn is carried out in order when the turn ends, before its answer is acted on. When the
    /// batch is empty, the idles that wait then run once each, in order, each followed by what it asks for; later ones wait
    /// for the next dispatch, and after an error none runs. Earlier warnings are cleared at the beginning, and so are
    /// answers to requests from before idles were last taken up, or from before the last dispatch if no later idle waits; not
    /// those to insertions that wait for the next turn of the source that asked.
    #[inline(always)]
    pub fn dispatch<Q: Wait>(
        &mut self,
        rt: &Q,
        timeout: Option<Duration>,
        data: &mut D::Data,
    ) -> LoopResult<()>
        ensures case { Did (Case D.means D.Idle.runs P.outside (Dispatch timeout «data».old)
            (Dispatched result «data».new)) (view_of self.old) (view_of self.new) }
        ensures machine { Leads (Case D.means D.Idle.runs P.outside (Dispatch timeout «data».old)
            (Dispatched result «data».new)) (view_of self.old) (view_of self.new) }
        ensures errors { IfErr result (IsOfDispatch D.means P.outside) }
    {
        let mut failure = Error::OutOfMemory;
        match self.dispatch_with(rt, timeout, data, &mut failure) {
            Ok(()) => Ok(()),
            Err(Failed) => Err(failure),
        }
    }

    // Runs the dispatch; its error is in `failure`, which is `OutOfMemory` before it.
    #[inline(never)]
    fn dispatch_with<Q: Wait>(
        &mut self,
        rt: &Q,
        timeout: Option<Duration>,
        data: &mut D::Data,
        failure: &mut Error,
    ) -> Result<(), Failed>
        requires { failure.old ≡ OutOfMemory }
        ensures { Did (DispatchedBy D.means D.Idle.runs P.outside (nanos_of timeout) «data».old
            (with_error result failure.new) «data».new) (view_of self.old) (view_of self.new) }
    {
        let Some(events) = self.limits() else {
            return Err(Failed);
        };
        self.synthetic.reserve(events)?;
        self.poll.reserve(events)?;
        self.requests.clear_answers();
        self.warnings.clear();
        self.settle_marked();
        self.tell_of_wait(failure)?;
        let from = self.poll.events_waiting();
        if let Err(cause) = self.poll.poll(rt, timeout) {
            *failure = Error::IoError(cause);
            return Err(Failed);
        }
        self.tell_of_events(from);
        self.hand_out_all(data, failure)?;
        self.run_idles(data);
        Ok(())
    }

    // Gives the first event of the batch to the source that its token names. False if there is no event. One loop calls it,
    // once an event: a call of its own costs an event some twenty instructions.
    #[inline(always)]
    fn hand_out(&mut self, data: &mut D::Data, failure: &mut Error) -> Result<bool, Failed>
        ensures machine { Goes D.means D.Idle.runs P.outside (Cutting «data».old)
            (after_hand_out (with_error result failure.new) «data».new)
            (view_of self.old) (view_of self.new) }
        ensures shorter { result ≡ Ok true
            → length self.new.poll.batch.events < length self.old.poll.batch.events }
    {
        let Some(event) = self.poll.next_event() else {
            return Ok(false);
        };
        let token = event.token.registration();
        let Ok(source) = self.sources.get_mut(token) else {
            self.poll.end_event();
            return Ok(true);
        };
        self.requests.enter_turn(token);
        let answer = source.process_events(
            event.readiness,
            event.token,
            &mut self.poll,
            data,
            &mut self.requests,
            failure,
        );
        self.poll.end_event();
        self.go_on(token, answer, failure)
    }

    // Ends a turn that a source had in its slot. The source stays there if nothing was asked for and nothing is to be done
    // with it.
    fn go_on(
        &mut self,
        token: RegistrationToken,
        answer: Result<PostAction, Failed>,
        failure: &mut Error,
    ) -> Result<bool, Failed>
        ensures machine { (d : D) (x : D.Data)
            → content_at self.old.sources token ≡ Source d
            → Goes D.means D.Idle.runs P.outside
            (Serving token d (with_error answer failure.old) x)
            (after_hand_out (with_error result failure.new) x)
            (record (view_of self.old) {
              slots = with_change (with_content InTurn) self.old.sources token.slot;
            }) (view_of self.new) }
        ensures batch { self.new.poll.batch.events ≡ self.old.poll.batch.events }
    {
        if self.requests.has_none() {
            if let Ok(PostAction::Continue) = action_of(answer, self.pending) {
                return Ok(true);
            }
        }
        self.take_out_and_end(token, answer, failure)
    }

    // Carries out what was asked for, and takes the post action, while the source is out of its slot. Kept out of line, so
    // that a turn whose source stays needs no room for a source.
    #[inline(never)]
    fn take_out_and_end(
        &mut self,
        token: RegistrationToken,
        answer: Result<PostAction, Failed>,
        failure: &mut Error,
    ) -> Result<bool, Failed>
        ensures machine { (d : D) (x : D.Data)
            → content_at self.old.sources token ≡ Source d
            → Goes D.means D.Idle.runs P.outside
            (Serving token d (with_error answer failure.old) x)
            (after_hand_out (with_error result failure.new) x)
            (record (view_of self.old) {
              slots = with_change (with_content InTurn) self.old.sources token.slot;
            }) (view_of self.new) }
        ensures batch { self.new.poll.batch.events ≡ self.old.poll.batch.events }
    {
        let Some(source) = self.sources.begin_turn(token) else {
            return Ok(true);
        };
        self.serve_all();
        self.end_turn(token, source, answer, failure)
    }

    // Ends the turn of a source: takes its post action, and puts the source back, if its slot is still in its turn.
    fn end_turn(
        &mut self,
        token: RegistrationToken,
        mut source: D,
        answer: Result<PostAction, Failed>,
        failure: &mut Error,
    ) -> Result<bool, Failed>
        ensures machine { (x : D.Data) → Goes D.means D.Idle.runs P.outside
            (Ending token source (with_error answer failure.old) x)
            (after_hand_out (with_error result failure.new) x)
            (view_of self.old) (view_of self.new) }
        ensures batch { self.new.poll.batch.events ≡ self.old.poll.batch.events }
    {
        let told = self.act(token, &mut source, answer, failure);
        self.give_back(token, source);
        match told {
            Ok(()) => Ok(true),
            Err(failed) => Err(failed),
        }
    }

    // Puts a source back into its slot. If its slot isn't in its turn any more, the source is unregistered, and handed back
    // if it asked for its own removal, else dropped; a failure of the unregistration is a warning.
    fn give_back(&mut self, token: RegistrationToken, source: D)
        ensures machine { (told : Outcome) (x : D.Data)
            → Goes D.means D.Idle.runs P.outside (Returning token source told x) (after_turn told x)
            (view_of self.old) (view_of self.new) }
        ensures batch { self.new.poll.batch.events ≡ self.old.poll.batch.events }
    {
        if let Some(left) = self.sources.end_turn(token, source) {
            self.unregister_left(token, left);
        }
    }

    // Unregisters a source that left its slot in its turn, and drops it or hands it back; a failure is a warning.
    fn unregister_left(&mut self, token: RegistrationToken, mut left: D)
        requires { is_in_turn (content_at (view_of self.old).slots token) ≡ false }
        ensures machine { (told : Outcome) (x : D.Data)
            → Goes D.means D.Idle.runs P.outside (Returning token left told x) (after_turn told x)
            (view_of self.old) (view_of self.new) }
        ensures batch { self.new.poll.batch.events ≡ self.old.poll.batch.events }
    {
        let mut failure = Error::OutOfMemory;
        let told = self.unregister(token, &mut left, &mut failure);
        self.warnings.note_failure(told, failure);
        self.requests.hand_back(left);
    }

    // Takes the post action of a turn; after an error there is none. `Remove` empties the source's slot.
    fn act(
        &mut self,
        token: RegistrationToken,
        source: &mut D,
        answer: Result<PostAction, Failed>,
        failure: &mut Error,
    ) -> Result<(), Failed>
        ensures machine { (x : D.Data) → Goes D.means D.Idle.runs P.outside
            (Ending token source.old (with_error answer failure.old) x)
            (Returning token source.new (with_error result failure.new) x)
            (view_of self.old) (view_of self.new) }
        ensures batch { self.new.poll.batch.events ≡ self.old.poll.batch.events }
    {
        let action = action_of(answer, self.pending);
        self.pending = PostAction::Continue;
        match action {
            Ok(PostAction::Continue) => Ok(()),
            Ok(PostAction::Reregister) => self.register(Registering::Anew, token, source, failure),
            Ok(PostAction::Disable) => self.unregister(token, source, failure),
            Ok(PostAction::Remove) => {
                self.sources.vacate(token);
                Ok(())
            }
            Err(failed) => Err(failed),
        }
    }

    fn hand_out_all(&mut self, data: &mut D::Data, failure: &mut Error) -> Result<(), Failed>
        ensures { Goes D.means D.Idle.runs P.outside (Cutting «data».old)
            (after_batch (with_error result failure.new) «data».new)
            (view_of self.old) (view_of self.new) }
    {
        'batch: while self.hand_out(data, failure)? {}
        Ok(())
    }

    // Runs the first of the idles that were taken, and carries out what it asked for. False if there is none.
    fn run_idle(&mut self, data: &mut D::Data) -> bool
        ensures machine { Goes D.means D.Idle.runs P.outside (RunningIdles «data».old)
            (after_idle result «data».new) (view_of self.old) (view_of self.new) }
        ensures fewer { result ≡ true
            → length self.new.requests.running < length self.old.requests.running }
    {
        let Some(idle) = self.requests.next_idle() else {
            return false;
        };
        idle.run(data, &mut self.requests);
        self.serve_all();
        true
    }

    fn run_idles(&mut self, data: &mut D::Data)
        ensures { Goes D.means D.Idle.runs P.outside (Idling «data».old)
            (Leaving (Ok tt) «data».new) (view_of self.old) (view_of self.new) }
    {
        self.requests.take_up_idles();
        'round: while self.run_idle(data) {}
    }
}

// The action at the end of a turn: what a source asked for about itself counts only if its turn answered `Continue`.
fn action_of(answer: Result<PostAction, Failed>, pending: PostAction) -> Result<PostAction, Failed>
    ensures { (failure : Error)
        → with_error result failure ≡ action_of (with_error answer failure) pending }
{
    match answer {
        Ok(PostAction::Continue) => Ok(pending),
        other => other,
    }
}
