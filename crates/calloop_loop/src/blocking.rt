//! A loop that runs until a future is done. From calloop's `block_on` in `loop_logic.rs`.
ghost use Rattle.std.specs.Prelude.{◌≡◌, ◌⊎◌, Err, IfErr, IfSome, IfNone};
ghost use Rattle.std.specs.Fn.{CalledAtMut};
ghost use Rattle.calloop_slots.specs.declared.error.Error.TheVariants.{OutOfMemory};
ghost use Rattle.calloop_loop.specs.Machine.{view_of};
ghost use Rattle.calloop_loop.specs.Blocking.{BlocksTo, PolledOrNot};
ghost use Rattle.calloop_ends.specs.declared.futures.task.Poll.TheVariants.{Ready};

use super::{EventDispatcher, EventLoop};
use calloop_ends::futures::{Blocked, Context, Future, Poll, Waker};
use calloop_poll::sys::{Clock, Poller};
use calloop_slots::error::Result;
use std::alloc::Global;
use std::sync::{Arc, Wait};

// Polls a future that was woken, or not polled yet. Returns its output, if it is done.
fn poll_if_woken<Fut, R>(
    first: bool,
    future: &mut Fut,
    blocked: &Blocked,
    waker: &Waker<R>,
) -> Option<Fut::Output>
where
    R: Wait + Drop,
    Fut: Future<R>,
    ensures gives { IfSome result (Fut.gives future.old) }
    ensures same { IfNone result ((x : Fut.Output) → Fut.gives future.new x
        → Fut.gives future.old x) }
    ensures done { IfSome result (λ output. Fut.polls future.old (Ready output) future.new) }
    ensures pending { IfNone result (PolledOrNot first Fut.polls future.old future.new) }
{
    if !first && !blocked.is_woken() {
        return None;
    }
    match future.poll(&mut Context::from_waker(waker)) {
        Poll::Ready(output) => Some(output),
        Poll::Pending => None,
    }
}

impl<D: EventDispatcher<P, C, R>, P: Poller, C: Clock, R: Wait + Drop> EventLoop<D, P, C, R> {
    // A waker that ends this loop's wait, and the flag that it sets.
    fn new_waker(&self, alloc: Global) -> Result<(Arc<Blocked, Global>, Waker<R>)>
        ensures { IfErr result (λ e. e ≡ OutOfMemory) }
    {
        let blocked = Arc::new(alloc, Blocked::new(self.get_signal()?))?;
        let waker = Waker::of_blocked(Arc::try_clone(&blocked)?);
        Ok((blocked, waker))
    }

    // Forgets an earlier stop, and runs the rounds of `block_on` with this flag and this waker.
    fn block_rounds<Q: Wait, Fut: Future<R>, F: FnMut(&mut D::Data)>(
        &mut self,
        rt: &Q,
        future: Fut,
        woken: (Arc<Blocked, Global>, Waker<R>),
        data: &mut D::Data,
        callback: F,
    ) -> Result<Option<Fut::Output>>
        requires { F.IsAlwaysCallable callback }
        ensures { BlocksTo D.means D.Idle.runs P.outside (CalledAtMut F.FnMut) (Fut.gives future)
            Fut.polls future callback «data».old
            (view_of self.old) result «data».new (view_of self.new) }
    {
        let (blocked, waker) = woken;
        let mut future = future;
        let mut callback = callback;
        let mut first = true;
        self.forget_stop();
        'rounds: for _ in rt.forever() {
            if self.is_stopped() {
                return Ok(None);
            }
            if let Some(output) = poll_if_woken(first, &mut future, &blocked, &waker) {
                return Ok(Some(output));
            }
            first = false;
            self.dispatch(rt, None, data)?;
            callback(data);
        }
        unreachable!()
    }

    /// Dispatches, and calls `callback` after each dispatch, until the future is done or a signal of this loop stops the
    /// run. The future is polled before the first dispatch, and later once for each wake, or once for several since its last
    /// poll; a wake ends the loop's wait. Returns the output, or `None` if the loop is stopped. Earlier stops are forgotten.
    ///
    /// The first error of a dispatch ends the run, without another call of `callback`. Running out of memory before the run
    /// is `OutOfMemory`, and changes nothing.
    pub fn block_on<Q: Wait, Fut: Future<R>, F: FnMut(&mut D::Data)>(
        &mut self,
        rt: &Q,
        alloc: Global,
        future: Fut,
        data: &mut D::Data,
        callback: F,
    ) -> Result<Option<Fut::Output>>
        requires { F.IsAlwaysCallable callback }
        ensures { ((result ≡ Err OutOfMemory) × («data».new ≡ «data».old)
            × (view_of self.new ≡ view_of self.old))
            ⊎ BlocksTo D.means D.Idle.runs P.outside (CalledAtMut F.FnMut) (Fut.gives future)
            Fut.polls future callback «data».old
            (view_of self.old) result «data».new (view_of self.new) }
    {
        let woken = self.new_waker(alloc)?;
        self.block_rounds(rt, future, woken, data, callback)
    }
}
