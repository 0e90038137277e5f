//! Runs of a loop, until a signal stops them. From calloop's `loop_logic.rs`.
ghost use Rattle.std.specs.Prelude.{◌≡◌, IfOk, IfErr};
ghost use Rattle.std.specs.Fn.{CalledAtMut};
ghost use Rattle.calloop_poll.specs.Signals.{AreOfOneLoop};
ghost use Rattle.calloop_slots.specs.declared.error.Error.TheVariants.{OutOfMemory};
ghost use Rattle.calloop_loop.specs.declared.LoopCall.TheVariants.{ForgetStop, LookForStop};
ghost use Rattle.calloop_loop.specs.declared.LoopAnswer.TheVariants.{StopForgotten, Stopped};
ghost use Rattle.calloop_loop.specs.Loops.{signal_of};
ghost use Rattle.calloop_loop.specs.Machine.{view_of};
ghost use Rattle.calloop_loop.specs.Rules.{Case, Did};
ghost use Rattle.calloop_loop.specs.Running.{RunsTo};

use super::stops::StopNote;
use super::{EventDispatcher, EventLoop};
use calloop_poll::signal::LoopSignal;
use calloop_poll::sys::{Clock, Poller};
use calloop_slots::error::Result;
use std::sync::Wait;
use std::time::Duration;

impl<D: EventDispatcher<P, C, R>, P: Poller, C: Clock, R: Wait + Drop> EventLoop<D, P, C, R> {
    /// Makes a signal of this loop, which stops its runs and ends its waits. Fails with `OutOfMemory` if there are 2^63 of them.
    pub fn get_signal(&self) -> Result<LoopSignal>
        ensures ok { IfOk result (AreOfOneLoop (signal_of self.now)) }
        ensures err { IfErr result (λ e. e ≡ OutOfMemory) }
    {
        Ok(self.signal.share()?)
    }
}

impl<D: EventDispatcher<P, C, R>, P: Poller, C: Clock, R: Wait + Drop> EventLoop<D, P, C, R> {
    // Forgets an earlier stop.
    pub(super) fn forget_stop(&mut self)
        ensures { Did (Case D.means D.Idle.runs P.outside ForgetStop StopForgotten)
            (view_of self.old) (view_of self.new) }
    {
        self.signal.forget_stop();
        self.stops.note(StopNote::Forgot);
    }

    // True if a signal has stopped the loop since it last forgot a stop.
    pub(super) fn is_stopped(&mut self) -> bool
        ensures { Did (Case D.means D.Idle.runs P.outside LookForStop (Stopped result))
            (view_of self.old) (view_of self.new) }
    {
        let stopped = self.signal.is_stopped();
        self.stops.note(StopNote::Looked(stopped));
        stopped
    }

    /// Dispatches, each time at most for `timeout`, and calls `callback` after each, until a signal of this loop stops the run.
    /// The stop may come in any dispatch or call, and from any thread; an earlier one is forgotten. How many dispatches there are
    /// is up to the holders of a signal, and without a stop the run goes on for ever.
    ///
    /// The first error of a dispatch ends the run, without another call.
    pub fn run<Q: Wait, F: FnMut(&mut D::Data)>(
        &mut self,
        rt: &Q,
        timeout: Option<Duration>,
        data: &mut D::Data,
        callback: F,
    ) -> Result<()>
        requires { F.IsAlwaysCallable callback }
        ensures { RunsTo D.means D.Idle.runs P.outside (CalledAtMut F.FnMut) timeout callback
            «data».old (view_of self.old) result «data».new (view_of self.new) }
    {
        let mut callback = callback;
        self.forget_stop();
        'rounds: for _ in rt.forever() {
            if self.is_stopped() {
                return Ok(());
            }
            self.dispatch(rt, timeout, data)?;
            callback(data);
        }
        unreachable!()
    }
}
