//! A future that is ready once a moment of the loop's clock has come.
//!
//! From calloop's `TimeoutFuture` in `sources/timer.rs`. As there, it is a timer in a slot, and nobody else has the slot's
//! token; here, moreover, a token that somebody makes up names nothing.
ghost use Rattle.std.specs.Prelude.{◌≡◌, true, Some, IfOk, IfErr};
ghost use Rattle.calloop_slots.specs.declared.error.Error.TheVariants.{OutOfMemory};
ghost use Rattle.calloop_slots.specs.declared.wheel.Instant.{Instant};
ghost use Rattle.calloop_slots.specs.Deadlines.{moment_after};
ghost use Rattle.calloop_sources.specs.declared.timer.TimeoutAction.TheVariants.{Drop};
ghost use Rattle.calloop_loop.specs.Handles.{clock_by, HasTheSameLoop};
ghost use Rattle.calloop_ends.specs.futures.Polled.{IfReady, OnPending};
ghost use Rattle.calloop.specs.Timeouts.{HasCome, HasTimer, HasNoTimer, IsMade, IsOf, is_ready};

use calloop_ends::futures::{Context, Future, Poll, Waker};
use calloop_loop::{EventDispatcher, LoopHandle, Requests};
use calloop_poll::sys::events::EventIterator;
use calloop_poll::sys::poll::Poll as LoopPoll;
use calloop_poll::sys::synthetic::Synthetic;
use calloop_poll::sys::{Clock, Poller, Readiness};
use calloop_slots::error::{Error, Failed, Result};
use calloop_slots::token::{RegistrationToken, Token, TokenFactory};
use calloop_slots::wheel::Instant;
use calloop_sources::callbacks::{On, QuietDispatch};
use calloop_sources::sources::{
    Asking, Callback, Dispatch, Dispatcher, Here, Keep, Place, PostAction, Role,
};
use calloop_sources::timer::{TimeoutAction, Timer};
use calloop_wake::ghosts::Name;
use std::alloc::{AllocError, Global};
use std::mem;
use std::sync::{Arc, Mutex, Wait};
use std::time::Duration;

// The place for a pending future's waker, under a name, which contracts alone see.
#[derive(Drop)]
struct Parked<R: Wait + Drop> {
    rt: R,
    name: Name,
    waker: Mutex<Option<Waker<R>>>,
}

impl<R: Wait + Drop> Parked<R> {
    fn put(&self, waker: Waker<R>) {
        let before = mem::replace(&mut *self.waker.lock(&self.rt), Some(waker));
        drop(before);
    }

    fn take(&self) -> Option<Waker<R>> {
        let mut waker = self.waker.lock(&self.rt);
        // An empty place isn't moved out.
        if waker.is_none() {
            return None;
        }
        waker.take()
    }
}

/// Wakes the future of a timeout, once its moment has come: the callback of a `TimeoutFuture`'s timer.
#[derive(Drop)]
pub struct WakesTimeout<R: Wait + Drop> {
    parked: Arc<Parked<R>, Global>,
}

impl<R: Wait + Drop, X> On<Instant, X, TimeoutAction> for WakesTimeout<R> {
    /// Wakes the future, if it waits, and has the timer leave the loop.
    fn on(&mut self, _deadline: Instant, _data: &mut X) -> TimeoutAction
        ensures leaves { result ≡ Drop }
        ensures same { self.new ≡ self.old }
        ensures data { «_data».new ≡ «_data».old }
    {
        if let Some(waker) = self.parked.take() {
            waker.wake();
        }
        TimeoutAction::Drop
    }
}

type Wakes<R> = Dispatcher<Timer, WakesTimeout<R>>;

/// The timer of a `TimeoutFuture`, with its callback. A loop of timeouts has a place for it. It is the loop's own: for the calls
/// of a handle its token names no source.
#[derive(Drop)]
pub struct TimeoutTimer<R: Wait + Drop> {
    timer: Wakes<R>,
}

impl<P: Poller, C, R: Wait + Drop, X, Q: Asking> Dispatch<P, C, R, X, Q> for TimeoutTimer<R> {
    ghost use Rattle.calloop.specs.Timeouts.{timeout_meaning, timeout_keeps, timeout_asks, timeout_fails};

    ghost means = { timeout_meaning
        ⟦<WakesTimeout<R> as Callback<Instant, (), TimeoutAction, X, Q>>⟧.may Q.reaches };

    fn register(
        &mut self,
        poll: &mut LoopPoll<P, C, R>,
        factory: &mut TokenFactory,
        failure: &mut Error,
    ) -> std::result::Result<(), Failed> {
        <Wakes<R> as Dispatch<P, C, R, X, Q>>::register(&mut self.timer, poll, factory, failure)
    }

    fn reregister(
        &mut self,
        poll: &mut LoopPoll<P, C, R>,
        factory: &mut TokenFactory,
        failure: &mut Error,
    ) -> std::result::Result<(), Failed> {
        <Wakes<R> as Dispatch<P, C, R, X, Q>>::reregister(&mut self.timer, poll, factory, failure)
    }

    fn unregister(
        &mut self,
        poll: &mut LoopPoll<P, C, R>,
        failure: &mut Error,
    ) -> std::result::Result<(), Failed> {
        <Wakes<R> as Dispatch<P, C, R, X, Q>>::unregister(&mut self.timer, poll, failure)
    }

    fn process_events(
        &mut self,
        readiness: Readiness,
        token: Token,
        poll: &mut LoopPoll<P, C, R>,
        data: &mut X,
        requests: &mut Q,
        failure: &mut Error,
    ) -> std::result::Result<PostAction, Failed> {
        self.timer
            .process_events(readiness, token, poll, data, requests, failure)
    }

    fn needs_extra_lifecycle_events(&self) -> bool {
        false
    }

    fn synthetic_limit(&self) -> u16 {
        0
    }

    fn role(&self) -> Role {
        Role::Timeout
    }

    fn settle(
        &mut self,
        _token: RegistrationToken,
        _poll: &mut LoopPoll<P, C, R>,
    ) -> Option<Result<()>> {
        None
    }

    fn before_sleep(&mut self, out: &mut Synthetic) -> Result<()> {
        <Wakes<R> as Dispatch<P, C, R, X, Q>>::before_sleep(&mut self.timer, out)
    }

    fn before_handle_events(&mut self, events: EventIterator<'_>) {
        <Wakes<R> as Dispatch<P, C, R, X, Q>>::before_handle_events(&mut self.timer, events)
    }

    ghost keeps = { timeout_keeps
        ⟦<WakesTimeout<R> as Callback<Instant, (), TimeoutAction, X, Q>>⟧.may Q.reaches };

    ghost asks = { timeout_asks
        ⟦<WakesTimeout<R> as Callback<Instant, (), TimeoutAction, X, Q>>⟧.may
        Q.reaches Q.stays Q.goes_on };

    ghost fails = { timeout_fails
        ⟦<WakesTimeout<R> as Callback<Instant, (), TimeoutAction, X, Q>>⟧.may Q.reaches };
}

impl<P: Poller, C, R: Wait + Drop, X, Q: Asking> QuietDispatch<P, C, R, X, Q> for TimeoutTimer<R> {
    ghost use Rattle.calloop.specs.Timeouts.{timeout_quiet};

    ghost quiet = { timeout_quiet
        ⟦<WakesTimeout<R> as Callback<Instant, (), TimeoutAction, X, Q>>⟧.may Q.reaches
        (λ f g e m n x y q r t h. h.1) };
}

impl<R: Wait + Drop> Place<TimeoutTimer<R>, Here> for TimeoutTimer<R> {
    ghost use Rattle.std.specs.Prelude.{◌≡◌};

    ghost placed = { λ timer. timer };

    fn place(timer: TimeoutTimer<R>) -> TimeoutTimer<R>
        ensures { result ≡ timer }
    {
        timer
    }
}

impl<P: Poller, C, R: Wait + Drop, X, Q: Asking> Keep<TimeoutTimer<R>, P, C, R, X, Q, Here>
    for TimeoutTimer<R> {
    ghost use Rattle.calloop_sources.specs.sources.Lawful.{held_itself};

    ghost placed_means = { held_itself ⟦<TimeoutTimer<R> as Dispatch<P, C, R, X, Q>>⟧.means };
}

/// A future that is ready once a moment of the loop's clock has come. It is made outside of a dispatch, and its timer leaves
/// the loop when that moment has come, or with the loop. If the future is dropped, its timer stays in the loop until then.
#[derive(Drop)]
pub struct TimeoutFuture<C: Clock, R: Wait + Drop> {
    clock: C,
    // `None` if the moment is past 2^64 - 1 nanoseconds.
    deadline: Option<Instant>,
    parked: Arc<Parked<R>, Global>,
}

impl<C: Clock, R: Wait + Clone + Drop> TimeoutFuture<C, R> {
    // Makes a future of this moment, and the callback that wakes it.
    fn unarm(
        clock: &C,
        rt: &R,
        alloc: Global,
        deadline: Option<Instant>,
    ) -> std::result::Result<(TimeoutFuture<C, R>, WakesTimeout<R>), AllocError>
        ensures { IfOk result (λ made. (made.0.deadline ≡ deadline)
            × C.is_clone clock.now made.0.clock × IsOf made.0 made.1) }
    {
        let parked = Parked {
            rt: rt.clone()?,
            name: Name::fresh(),
            waker: Mutex::new(None),
        };
        let parked = Arc::new(alloc, parked)?;
        let wakes = WakesTimeout {
            parked: Arc::try_clone(&parked)?,
        };
        let future = TimeoutFuture {
            clock: clock.clone()?,
            deadline,
            parked,
        };
        Ok((future, wakes))
    }

    /// Makes a future that is ready at this moment, which may have come already. Its timer takes a slot of the loop.
    ///
    /// Fails as an insertion does. No timer stays then.
    pub fn from_deadline<D, P, N>(
        handle: &mut LoopHandle<'_, D, P, C, R>,
        rt: &R,
        alloc: Global,
        deadline: Instant,
    ) -> Result<TimeoutFuture<C, R>>
    where
        D: EventDispatcher<P, C, R>
            + Keep<TimeoutTimer<R>, P, C, R, D::Data, Requests<D, D::Idle>, N>,
        P: Poller,
        ensures same { HasTheSameLoop handle.old handle.new }
        ensures clock { IfOk result (λ made. C.is_clone (clock_by handle.old) made.clock) }
        ensures ok { IfOk result (λ made. (made.deadline ≡ Some deadline)
            × HasTimer D.means D.Idle.runs P.outside D.placed deadline made handle.old handle.new) }
        ensures err { IfErr result
            (λ e. HasNoTimer D.means D.Idle.runs P.outside D.placed
            deadline e handle.old handle.new) }
    {
        let (future, wakes) = TimeoutFuture::unarm(handle.clock(), rt, alloc, Some(deadline))?;
        let timer = TimeoutTimer {
            timer: Dispatcher::new(Timer::from_deadline(deadline), wakes),
        };
        handle.register_dispatcher(D::place(timer))?;
        Ok(future)
    }

    /// Makes a future that is ready this long after the loop's time now. Past 2^64 - 1 ns it has no slot and stays pending.
    ///
    /// Fails as an insertion does. No timer stays then.
    pub fn from_duration<D, P, N>(
        handle: &mut LoopHandle<'_, D, P, C, R>,
        rt: &R,
        alloc: Global,
        duration: Duration,
    ) -> Result<TimeoutFuture<C, R>>
    where
        D: EventDispatcher<P, C, R>
            + Keep<TimeoutTimer<R>, P, C, R, D::Data, Requests<D, D::Idle>, N>,
        P: Poller,
        ensures same { HasTheSameLoop handle.old handle.new }
        ensures clock { IfOk result (λ made. C.is_clone (clock_by handle.old) made.clock) }
        ensures made { (now : Instant) × C.shows (clock_by handle.old) now.nanos
            × IsMade D.means D.Idle.runs P.outside D.placed (moment_after now duration)
            result handle.old handle.new }
    {
        match handle.clock().now().checked_add(duration) {
            Some(deadline) => TimeoutFuture::from_deadline(handle, rt, alloc, deadline),
            None => {
                let (future, _wakes) = TimeoutFuture::unarm(handle.clock(), rt, alloc, None)?;
                Ok(future)
            }
        }
    }
}

impl<C: Clock, R: Wait + Drop> TimeoutFuture<C, R> {
    // True if its moment has come.
    fn has_come(&self) -> bool
        ensures { HasCome (C.shows self.now.clock) self.now.deadline result }
    {
        match self.deadline {
            Some(deadline) => self.clock.now() >= deadline,
            None => false,
        }
    }
}

impl<C: Clock, R: Wait + Clone + Drop> Future<R> for TimeoutFuture<C, R> {
    ghost use Rattle.std.specs.Prelude.{true};

    type Output = ();

    ghost gives = { λ future _. HasCome (C.shows future.clock) future.deadline true };

    /// It is ready if the clock shows at least its moment. Without memory for the waker, it asks for another poll at once.
    fn poll(&mut self, cx: &mut Context<'_, R>) -> Poll<()>
        ensures value { IfReady result
            (λ _. HasCome (C.shows self.old.clock) self.old.deadline true) }
        ensures same { OnPending result ((x : Unit {0})
            → HasCome (C.shows self.new.clock) self.new.deadline true
            → HasCome (C.shows self.old.clock) self.old.deadline true) }
        ensures ready { HasCome (C.shows self.old.clock) self.old.deadline (is_ready result) }
    {
        if !self.has_come() {
            match cx.waker().clone() {
                Ok(waker) => self.parked.put(waker),
                Err(_) => cx.waker().wake(),
            }
            // In another thread, the timer may have found no waker since.
            if !self.has_come() {
                return Poll::Pending;
            }
        }
        Poll::Ready(())
    }
}
