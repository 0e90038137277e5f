//! The requests of callbacks are carried out.
ghost use Rattle.std.specs.Prelude.{◌≡◌, ◌≤◌, length};
ghost use Rattle.calloop_loop.specs.declared.asks.Request.TheVariants.{Remove, SetDeadline};
ghost use Rattle.calloop_loop.specs.Machine.{view_of};
ghost use Rattle.calloop_loop.specs.Registering.{request_for};
ghost use Rattle.calloop_loop.specs.Rules.{DeadlineSetBy, Did, Once, done_answer, inserted_answer};
ghost use Rattle.calloop_loop.specs.Serving.{AllServed, Serves, ServesAs, ServesFirst};

use super::asks::{Answer, Request};
use super::registering::RegistrationCall;
use super::{EventDispatcher, EventLoop};
use calloop_poll::sys::{Clock, Poller};
use calloop_slots::error::{Error, InsertError, Result, with_error};
use calloop_slots::token::RegistrationToken;
use calloop_slots::wheel::Instant;
use calloop_sources::sources::PostAction;
use std::sync::Wait;

impl<D: EventDispatcher<P, C, R>, P: Poller, C: Clock, R: Wait + Drop> EventLoop<D, P, C, R> {
    // Carries out all requests, in order.
    pub(super) fn serve_all(&mut self)
        ensures { Did (AllServed D.means P.outside) (view_of self.old) (view_of self.new) }
    {
        'requests: while self.serve_first() {}
    }

    // Carries out the first request. False if there is none.
    fn serve_first(&mut self) -> bool
        ensures { ServesFirst D.means P.outside self.old.requests.written result (view_of self.old)
            (view_of self.new) }
    {
        let Some(request) = self.requests.begin() else {
            return false;
        };
        self.serve(request);
        true
    }

    #[inline(never)]
    fn serve(&mut self, request: Request<D, D::Idle>)
        ensures { Serves D.means P.outside request (view_of self.old) (view_of self.new) }
    {
        match request {
            Request::Insert(dispatcher) => {
                let answer = self.insert(dispatcher);
                self.requests.put_answer(inserted_answer(answer));
            }
            Request::Enable(token) => self.serve_change(RegistrationCall::Enable, token),
            Request::Update(token) => self.serve_change(RegistrationCall::Update, token),
            Request::Disable(token) => self.serve_change(RegistrationCall::Disable, token),
            Request::SetDeadline(token, deadline) => {
                let answer = self.set_deadline(token, deadline);
                self.requests.put_answer(done_answer(answer));
            }
            Request::Remove(token) => self.serve_removal(token),
            Request::Idle(idle) => self.requests.put_idle(idle),
            Request::Cancel(ticket) => {
                self.requests.take_out_idle(ticket);
                self.requests.put_answer(Answer::Done);
            }
        }
    }

    fn serve_change(&mut self, call: RegistrationCall, token: RegistrationToken)
        ensures { Serves D.means P.outside (request_for call token) (view_of self.old)
            (view_of self.new) }
    {
        let answer = self.carry_out_change(call, token);
        self.requests.put_answer(done_answer(answer));
    }

    // Carries out a change of a registration. That of the source in its turn waits for the turn's end; enabling it fails.
    fn carry_out_change(&mut self, call: RegistrationCall, token: RegistrationToken) -> Result<()>
        ensures { ServesAs D.means P.outside (request_for call token) result (view_of self.old)
            (view_of self.new) }
    {
        if !self.sources.is_in_turn(token) {
            return self.change_registration(call, token);
        }
        self.pending = match call {
            RegistrationCall::Enable => return Err(Error::OwnTurn),
            RegistrationCall::Update => PostAction::Reregister,
            RegistrationCall::Disable => PostAction::Disable,
        };
        Ok(())
    }

    // Arms a timer for this deadline. That of the source in its turn fails.
    fn set_deadline(&mut self, token: RegistrationToken, deadline: Instant) -> Result<()>
        ensures { ServesAs D.means P.outside (SetDeadline token deadline) result (view_of self.old)
            (view_of self.new) }
    {
        if self.sources.is_in_turn(token) {
            return Err(Error::OwnTurn);
        }
        self.rearm(token, deadline)
    }

    // Arms the timer that the token names for this deadline.
    fn rearm(&mut self, token: RegistrationToken, deadline: Instant) -> Result<()>
        ensures { Did (Once P.outside (DeadlineSetBy D.means token deadline result))
            (view_of self.old) (view_of self.new) }
    {
        let Some(mut source) = Self::take_out(&mut self.sources, token) else {
            return Err(Error::InvalidToken);
        };
        let mut failure = Error::InvalidToken;
        let answer = self.rearm_source(token, deadline, &mut source, &mut failure);
        let _none = self.sources.end_turn(token, source);
        with_error(answer, failure)
    }

    // Carries out a removal. The source in its turn leaves its slot at once, and is answered when its turn is over.
    fn serve_removal(&mut self, token: RegistrationToken)
        ensures { Serves D.means P.outside (Remove token) (view_of self.old) (view_of self.new) }
    {
        if self.sources.is_in_turn(token) {
            self.sources.vacate(token);
            self.lifecycle.leave(token);
            self.requests.keep_none_for(token);
            self.requests.owe();
            return;
        }
        let answer = self.remove(token);
        self.requests.put_answer(Answer::Removed(answer));
    }
}

fn inserted_answer<D>(answer: std::result::Result<RegistrationToken, InsertError<D>>) -> Answer<D>
    ensures { result ≡ inserted_answer answer }
{
    match answer {
        Ok(token) => Answer::Inserted(token),
        Err(refused) => Answer::NotInserted(refused),
    }
}

fn done_answer<D>(answer: Result<()>) -> Answer<D>
    ensures { result ≡ done_answer answer }
{
    match answer {
        Ok(()) => Answer::Done,
        Err(error) => Answer::Refused(error),
    }
}
