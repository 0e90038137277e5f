//! Each source that needs it is told of each wait before the wait, and after it, which of its events the wait brought.
ghost use Rattle.std.specs.Prelude.{◌≡◌, ℕ, ◌+◌, ◌≤◌, ◌^◌, [], ◌∷◌, List, Option, OnOk, IfSome, None, length, vec_len};
ghost use Rattle.calloop_slots.specs.declared.token.RegistrationToken.{RegistrationToken};
ghost use Rattle.calloop_poll.specs.sys.Polls.{IsReady};
ghost use Rattle.calloop_slots.specs.Failures.{with_error};
ghost use Rattle.calloop_slots.specs.Slots.{content_at};
ghost use Rattle.calloop_loop.specs.Limits.{limit_in, all_limits};
ghost use Rattle.calloop_loop.specs.Machine.{view_of};
ghost use Rattle.calloop_loop.specs.Rules.{Goes, Sleeping, Noticing, Cutting, after_telling, after_all_told};

use super::{EventDispatcher, EventLoop};
use calloop_poll::sys::{Clock, Poller};
use calloop_slots::error::{Error, Failed, store_error};
use calloop_slots::token::RegistrationToken;
use std::sync::Wait;

impl<D: EventDispatcher<P, C, R>, P: Poller, C: Clock, R: Wait + Drop> EventLoop<D, P, C, R> {
    // The number of events for which the source of this registration may ask.
    fn limit_of(&self, token: RegistrationToken) -> u16
        ensures { result ≡ limit_in D.means (content_at self.now.sources token) }
    {
        match self.sources.get(token) {
            Some(source) => source.synthetic_limit(),
            None => 0,
        }
    }

    // The number of events for which all sources that are told may ask together, or `None` if it doesn't fit in 64 bits.
    pub(super) fn limits(&self) -> Option<usize>
        ensures sum { IfSome result (λ sum. sum
            ≡ all_limits D.means self.now.sources self.now.lifecycle.tokens.items) }
        ensures none { result ≡ None
            → 2 ^ 64 ≤ all_limits D.means self.now.sources self.now.lifecycle.tokens.items }
    {
        let mut sum = 0usize;
        for place in 0..self.lifecycle.len() {
            let token = self.lifecycle.at(place);
            let limit = usize::from(self.limit_of(token));
            let Some(more) = sum.checked_add(limit) else {
                return None;
            };
            sum = more;
        }
        Some(sum)
    }

    // Tells the source of this registration of the wait, and puts the events for which it asks into the batch.
    fn tell_one_of_wait(
        &mut self,
        token: RegistrationToken,
        failure: &mut Error,
    ) -> Result<(), Failed>
        requires ready { IsReady (limit_in D.means (content_at self.old.sources token))
            self.old.poll }
        requires room { limit_in D.means (content_at self.old.sources token)
            ≤ self.old.synthetic.room }
        ensures machine { (timeout : Option ℕ) (later : List RegistrationToken) (x : D.Data)
            → Goes D.means D.Idle.runs P.outside (Sleeping timeout (token ∷ later) x)
            (after_telling timeout later (with_error result failure.new) x)
            (view_of self.old) (view_of self.new) }
        ensures ready { (more : ℕ)
            → IsReady (limit_in D.means (content_at self.old.sources token) + more) self.old.poll
            → IsReady more self.new.poll }
        ensures limits { (tokens : List RegistrationToken)
            → all_limits D.means self.new.sources tokens
            ≤ all_limits D.means self.old.sources tokens }
        ensures room { self.new.synthetic.room ≡ self.old.synthetic.room }
        ensures entries { self.new.lifecycle ≡ self.old.lifecycle }
    {
        let Some(mut source) = self.sources.begin_turn(token) else {
            return Ok(());
        };
        self.synthetic.lend(source.synthetic_limit());
        let answer = source.before_sleep(&mut self.synthetic);
        let _none = self.sources.end_turn(token, source);
        store_error(answer, failure)?;
        self.poll.join(self.synthetic.events());
        Ok(())
    }

    // Tells the sources of the wait, in the order of their entry. The first error ends the telling.
    pub(super) fn tell_of_wait(&mut self, failure: &mut Error) -> Result<(), Failed>
        requires ready { IsReady
            (all_limits D.means self.old.sources self.old.lifecycle.tokens.items) self.old.poll }
        requires room { all_limits D.means self.old.sources self.old.lifecycle.tokens.items
            ≤ self.old.synthetic.room }
        ensures machine { (timeout : Option ℕ) (x : D.Data)
            → Goes D.means D.Idle.runs P.outside
            (Sleeping timeout self.old.lifecycle.tokens.items x)
            (after_all_told timeout (with_error result failure.new) x)
            (view_of self.old) (view_of self.new) }
        ensures ready { OnOk result (IsReady 0 self.new.poll) }
        ensures entries { self.new.lifecycle ≡ self.old.lifecycle }
    {
        for place in 0..self.lifecycle.len() {
            let token = self.lifecycle.at(place);
            self.tell_one_of_wait(token, failure)?;
        }
        Ok(())
    }

    // Tells the source of this registration which of the registration's events were gathered.
    fn tell_one_of_events(&mut self, from: usize, token: RegistrationToken)
        ensures machine { (later : List RegistrationToken) (x : D.Data)
            → Goes D.means D.Idle.runs P.outside (Noticing from (token ∷ later) x)
            (Noticing from later x) (view_of self.old) (view_of self.new) }
        ensures entries { self.new.lifecycle ≡ self.old.lifecycle }
    {
        let Some(mut source) = self.sources.begin_turn(token) else {
            return;
        };
        source.before_handle_events(self.poll.events(from, token));
        let _none = self.sources.end_turn(token, source);
    }

    // Tells the sources, in the order of their entry, which of their events were gathered.
    pub(super) fn tell_of_events(&mut self, from: usize)
        ensures machine { (x : D.Data)
            → Goes D.means D.Idle.runs P.outside (Noticing from self.old.lifecycle.tokens.items x)
            (Cutting x) (view_of self.old) (view_of self.new) }
    {
        for place in 0..self.lifecycle.len() {
            let token = self.lifecycle.at(place);
            self.tell_one_of_events(from, token);
        }
    }
}
