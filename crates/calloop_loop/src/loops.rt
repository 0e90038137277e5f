//! Loops whose poller and clock belong together.
ghost use Rattle.std.specs.Prelude.{◌≡◌, ◌⊎◌, IfOk, IfErr};
ghost use Rattle.std.specs.declared.io.Error.{Error as IoCause};
ghost use Rattle.calloop_slots.specs.declared.error.Error.TheVariants.{IoError, OutOfMemory};
ghost use Rattle.calloop_loop.specs.Machine.{BeginsAnew};
ghost use Rattle.calloop_loop.specs.Handles.{clock_by};
ghost use Rattle.calloop_loop.specs.Loops.{poller_of, clock_of, IsFaultless, CountFromOneReading, IsUnscripted};

use super::{EventDispatcher, EventLoop, LoopHandle};
use calloop_mio::{MioPoller, SystemClock};
use calloop_poll::sys::{Clock, Poller};
use calloop_script::{ScriptClock, ScriptPoller};
use calloop_slots::error::Result;
use std::alloc::Global;
use std::net::Net;
use std::sync::Wait;
use std::time::Clock as MachineClock;

/// A loop over the poller and the clock of the operating system.
pub type SystemLoop<D, R> = EventLoop<D, MioPoller<SystemClock<R>>, SystemClock<R>, R>;

/// A loop over a scripted poller and its clock, for tests and examples: only the time that waits ask for passes.
pub type ScriptLoop<D, R> = EventLoop<D, ScriptPoller, ScriptClock, R>;

impl<D: EventDispatcher<P, C, R>, P: Poller, C: Clock, R: Wait + Drop> EventLoop<D, P, C, R> {
    /// The loop's clock, for making timers that count from now.
    pub fn clock(&self) -> &C
        ensures { result.now ≡ clock_of self.now }
    {
        self.poll.clock()
    }
}

impl<D: EventDispatcher<P, C, R>, P: Poller, C: Clock, R: Wait + Drop> LoopHandle<'_, D, P, C, R> {
    /// The loop's clock.
    pub fn clock(&self) -> &C
        ensures { result.now ≡ clock_by self.now }
    {
        self.inner.clock()
    }
}

impl<D, R> EventLoop<D, MioPoller<SystemClock<R>>, SystemClock<R>, R>
where
    D: EventDispatcher<MioPoller<SystemClock<R>>, SystemClock<R>, R>,
    R: Net + MachineClock + Wait + Clone + Drop,
{
    /// Makes a loop over the poller and the clock of the operating system, without sources. The clock shows 0 now, and timers
    /// that are made with `clock` count from there.
    ///
    /// An OS error is `IoError`, and running out of memory is `OutOfMemory`.
    pub fn system(rt: &R, alloc: Global) -> Result<SystemLoop<D, R>>
        ensures new { IfOk result BeginsAnew }
        ensures poller { IfOk result (λ made. IsFaultless (poller_of made)) }
        ensures clock { IfOk result CountFromOneReading }
        ensures err { IfErr result (λ e. (e ≡ OutOfMemory)
            ⊎ ((cause : IoCause) × (e ≡ IoError cause))) }
    {
        let clock = SystemClock::new(rt)?;
        let poller = MioPoller::new(rt, alloc, clock.clone()?)?;
        EventLoop::try_new(rt, alloc, poller, clock)
    }
}

impl<D, R> EventLoop<D, ScriptPoller, ScriptClock, R>
where
    D: EventDispatcher<ScriptPoller, ScriptClock, R>,
    R: Wait + Clone + Drop,
{
    /// Makes a loop over a scripted poller and its clock, without sources. The clock shows 0, and nothing is scripted yet:
    /// `poller_mut` of the handle lends the poller. Fails with `OutOfMemory` if memory runs out.
    pub fn with_script(rt: &R, alloc: Global) -> Result<ScriptLoop<D, R>>
        ensures new { IfOk result BeginsAnew }
        ensures poller { IfOk result (λ made. IsUnscripted (poller_of made)) }
        ensures err { IfErr result (λ e. e ≡ OutOfMemory) }
    {
        let poller = ScriptPoller::new(alloc)?;
        let clock = poller.clock()?;
        EventLoop::try_new(rt, alloc, poller, clock)
    }
}
