//! Lists of calls, as values.
ghost use Rattle.std.specs.Prelude.{◌≡◌, IfOk, IfErr, OnErr};
ghost use Rattle.calloop_loop.specs.declared.LoopCall.TheVariants.{Exchange};
ghost use Rattle.calloop_loop.specs.declared.LoopAnswer.TheVariants.{Exchanged};
ghost use Rattle.calloop_loop.specs.Machine.{view_of};
ghost use Rattle.calloop_loop.specs.Rules.{Case, Did, RunLeads};

use super::registering::RegistrationCall;
use super::{EventDispatcher, EventLoop, LoopAnswer, LoopCall};
use calloop_poll::sys::{Clock, Poller};
use calloop_slots::token::RegistrationToken;
use std::alloc::Global;
use std::collections::VecDeque;
use std::mem;
use std::sync::Wait;

impl<D: EventDispatcher<P, C, R>, P: Poller, C: Clock, R: Wait + Drop> EventLoop<D, P, C, R> {
    /// Carries out one call.
    pub fn carry_out<Q: Wait>(
        &mut self,
        rt: &Q,
        call: LoopCall<D, P, D::Data, D::Idle>,
    ) -> LoopAnswer<D, P, D::Data, D::Idle>
        ensures { Did (Case D.means D.Idle.runs P.outside call result) (view_of self.old)
            (view_of self.new) }
    {
        match call {
            LoopCall::Insert(dispatcher) => LoopAnswer::Inserted(self.insert(dispatcher)),
            LoopCall::Enable(token) => {
                LoopAnswer::Enabled(self.change_registration(RegistrationCall::Enable, token))
            }
            LoopCall::Update(token) => {
                LoopAnswer::Updated(self.change_registration(RegistrationCall::Update, token))
            }
            LoopCall::Disable(token) => {
                LoopAnswer::Disabled(self.change_registration(RegistrationCall::Disable, token))
            }
            LoopCall::Remove(token) => LoopAnswer::Removed(self.remove(token)),
            LoopCall::Release(token) => LoopAnswer::Released(self.release(token)),
            LoopCall::Exchange(token, dispatcher) => {
                LoopAnswer::Exchanged(self.exchange(token, dispatcher))
            }
            LoopCall::Dispatch(timeout, data) => {
                let mut data = data;
                let answer = self.dispatch(rt, timeout, &mut data);
                LoopAnswer::Dispatched(answer, data)
            }
            LoopCall::InsertIdle(idle) => LoopAnswer::IdleInserted(self.insert_idle(idle)),
            LoopCall::Cancel(idle) => {
                self.requests.take_out_idle(idle.ticket().number());
                LoopAnswer::Cancelled
            }
            LoopCall::Answer(ticket) => LoopAnswer::Answered(self.requests.answer(ticket)),
            LoopCall::ForgetStop => {
                self.forget_stop();
                LoopAnswer::StopForgotten
            }
            LoopCall::LookForStop => LoopAnswer::Stopped(self.is_stopped()),
            LoopCall::Poller(poller) => {
                LoopAnswer::Poller(mem::replace(self.poll.poller_mut(), poller))
            }
        }
    }

    // Puts another source in the place of the one that the token names. If it names none, the other one is handed back.
    fn exchange(&mut self, token: RegistrationToken, dispatcher: D) -> Result<D, D>
        ensures { Did (Case D.means D.Idle.runs P.outside (Exchange token dispatcher)
            (Exchanged result)) (view_of self.old) (view_of self.new) }
    {
        if !Self::is_callers(&self.sources, token) {
            return Err(dispatcher);
        }
        match self.sources.get_mut(token) {
            Ok(held) => Ok(mem::replace(held, dispatcher)),
            Err(_) => Err(dispatcher),
        }
    }

    /// Carries out a list of calls in order. If there is no memory for the answers, the calls are handed back and none is carried
    /// out.
    pub fn carry_out_all<Q: Wait>(
        &mut self,
        rt: &Q,
        alloc: Global,
        calls: VecDeque<LoopCall<D, P, D::Data, D::Idle>>,
    ) -> Result<Vec<LoopAnswer<D, P, D::Data, D::Idle>>, VecDeque<LoopCall<D, P, D::Data, D::Idle>>>
    where
        D::Data: Drop,
        ensures run { IfOk result
            (λ answers. RunLeads D.means D.Idle.runs P.outside calls.items answers.items
            (view_of self.old) (view_of self.new)) }
        ensures err { IfErr result (λ back. (back.items ≡ calls.items) × (self.new ≡ self.old)) }
    {
        let Ok(mut answers) = Vec::with_capacity(alloc, calls.len()) else {
            return Err(calls);
        };
        let mut calls = calls;
        while let Some(call) = calls.pop_front() {
            let answer = self.carry_out(rt, call);
            answers.push_reserved(answer);
        }
        Ok(answers)
    }
}
