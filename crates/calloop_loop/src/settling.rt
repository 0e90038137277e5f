//! The loop takes up what was asked of adapters since the last dispatch.
ghost use Rattle.std.specs.Prelude.{◌≡◌, ℕ, ◌<◌, ◌≤◌, ◌∷◌, List, slice_get, vec_len, Option, Some, is_some, length, if◌then◌else◌};
ghost use Rattle.calloop_slots.specs.declared.token.RegistrationToken.{RegistrationToken};
ghost use Rattle.calloop_slots.specs.declared.list.Content.TheVariants.{InTurn};
ghost use Rattle.calloop_slots.specs.Slots.{content_at as named_by, source_of, with_change, with_content};
ghost use Rattle.calloop_poll.specs.sys.Polls.{IsReady};
ghost use Rattle.calloop_loop.specs.Limits.{all_limits};
ghost use Rattle.calloop_loop.specs.Machine.{view_of, with_marks_taken};
ghost use Rattle.calloop_loop.specs.Roles.{only, is_adapter};
ghost use Rattle.calloop_poll.specs.sys.TakenMarks.{AreTaken};
ghost use Rattle.calloop_loop.specs.declared.LoopCall.TheVariants.{Release};
ghost use Rattle.calloop_loop.specs.declared.LoopAnswer.TheVariants.{Released};
ghost use Rattle.calloop_loop.specs.Rules.{Case, Did, Goes, Settling, Sleeping};

use super::{EventDispatcher, EventLoop};
use calloop_poll::sys::{Clock, Poller};
use calloop_slots::error::{Error, Failed, Result};
use calloop_slots::list::SourceList;
use calloop_slots::token::RegistrationToken;
use calloop_sources::sources::Role;
use std::sync::Wait;

// The mark at this position.
fn marked_at(marked: &[RegistrationToken], place: usize) -> RegistrationToken
    requires { place < length marked.now }
    ensures { slice_get marked.now place ≡ Some result }
{
    marked[place]
}

impl<D: EventDispatcher<P, C, R>, P: Poller, C: Clock, R: Wait + Drop> EventLoop<D, P, C, R> {
    // True if the token names an adapter.
    fn is_adapter(sources: &SourceList<D>, token: RegistrationToken) -> bool
        ensures { result
            ≡ is_some (source_of (only (is_adapter D.means) (named_by sources.now token))) }
    {
        match sources.get(token) {
            Some(source) => source.role() == Role::Adapter,
            None => false,
        }
    }

    // Takes out the adapter that the token names, and leaves its slot in its turn.
    fn take_out_adapter(sources: &mut SourceList<D>, token: RegistrationToken) -> Option<D>
        ensures value { result
            ≡ source_of (only (is_adapter D.means) (named_by sources.old token)) }
        ensures list { sources.new ≡ (if is_some result
            then with_change (with_content InTurn) sources.old token.slot else sources.old) }
    {
        if !Self::is_adapter(sources, token) {
            return None;
        }
        sources.begin_turn(token)
    }

    // Settles what is marked under this token, if it is an adapter. An adapter whose `Async` was dropped leaves its slot; a
    // failure of its unregistration is a warning.
    fn settle_one(&mut self, token: RegistrationToken)
        ensures machine { (timeout : Option ℕ) (later : List RegistrationToken) (x : D.Data)
            → Goes D.means D.Idle.runs P.outside (Settling timeout (token ∷ later) x)
            (Settling timeout later x) (view_of self.old) (view_of self.new) }
        ensures ready { (more : ℕ) → IsReady more self.old.poll → IsReady more self.new.poll }
        ensures limits { all_limits D.means self.new.sources self.new.lifecycle.tokens.items
            ≤ all_limits D.means self.old.sources self.old.lifecycle.tokens.items }
        ensures room { self.new.synthetic ≡ self.old.synthetic }
    {
        let Some(mut source) = Self::take_out_adapter(&mut self.sources, token) else {
            return;
        };
        match source.settle(token, &mut self.poll) {
            Some(told) => {
                self.sources.vacate(token);
                self.lifecycle.leave(token);
                self.requests.keep_none_for(token);
                self.warnings.note(told);
            }
            None => {
                let _none = self.sources.end_turn(token, source);
            }
        }
    }

    // Settles the marked ones in the order of the list.
    fn settle_all(&mut self, marked: &[RegistrationToken])
        ensures machine { (timeout : Option ℕ) (x : D.Data)
            → Goes D.means D.Idle.runs P.outside (Settling timeout marked.now x)
            (Sleeping timeout self.new.lifecycle.tokens.items x)
            (view_of self.old) (view_of self.new) }
        ensures ready { (more : ℕ) → IsReady more self.old.poll → IsReady more self.new.poll }
        ensures limits { all_limits D.means self.new.sources self.new.lifecycle.tokens.items
            ≤ all_limits D.means self.old.sources self.old.lifecycle.tokens.items }
        ensures room { self.new.synthetic ≡ self.old.synthetic }
    {
        for place in 0..marked.len() {
            let token = marked_at(marked, place);
            self.settle_one(token);
        }
    }

    // Takes the marks, and settles the adapters that are marked, in the order of their slots.
    pub(super) fn settle_marked(&mut self)
        ensures machine { (marked : List RegistrationToken) × (taken : List RegistrationToken)
            × AreTaken taken marked × ((timeout : Option ℕ) (x : D.Data)
            → Goes D.means D.Idle.runs P.outside (Settling timeout marked x)
            (Sleeping timeout self.new.lifecycle.tokens.items x)
            (with_marks_taken taken (view_of self.old)) (view_of self.new)) }
        ensures ready { (more : ℕ) → IsReady more self.old.poll → IsReady more self.new.poll }
        ensures limits { all_limits D.means self.new.sources self.new.lifecycle.tokens.items
            ≤ all_limits D.means self.old.sources self.old.lifecycle.tokens.items }
        ensures room { self.new.synthetic ≡ self.old.synthetic }
    {
        let Some(marked) = self.poll.take_marks() else {
            return;
        };
        self.settle_all(marked.as_slice());
        self.poll.give_marks_back(marked);
    }

    // Takes back the registration of the adapter that the token names, which leaves its slot. If that fails, it stays.
    pub(super) fn release(&mut self, token: RegistrationToken) -> Result<()>
        ensures { Did (Case D.means D.Idle.runs P.outside (Release token) (Released result))
            (view_of self.old) (view_of self.new) }
    {
        let Some(mut source) = Self::take_out_adapter(&mut self.sources, token) else {
            return Err(Error::InvalidToken);
        };
        let mut failure = Error::OutOfMemory;
        match self.unregister(token, &mut source, &mut failure) {
            Ok(()) => {
                self.sources.vacate(token);
                Ok(())
            }
            Err(Failed) => {
                let _none = self.sources.end_turn(token, source);
                Err(failure)
            }
        }
    }
}
