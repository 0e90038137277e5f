//! Futures, the argument of their polls, and the wakers that wake them.
ghost use Rattle.std.specs.Prelude.{◌≡◌, ◌≢◌, ℕ, None, ⊤, IfOk, IfErr};
ghost use Rattle.calloop_wake.specs.Homes.{place_in};
ghost use Rattle.calloop_ends.specs.declared.futures.task.Poll.{Poll};
ghost use Rattle.calloop_ends.specs.declared.futures.task.Poll.TheVariants.{Ready, Pending};
ghost use Rattle.calloop_ends.specs.futures.Polled.{IfReady, OnPending};

use super::cell;
use crate::cell::SharedCell;
use crate::ping::Ping;
use calloop_poll::signal::LoopSignal;
use calloop_poll::sys::hub::share;
use calloop_wake::executor::ExecutorCore;
use calloop_wake::homes::{Homes, Place, PoppedTask, TakenFuture};
use calloop_wake::tasks::TaskKey;
use std::alloc::{AllocError, Global};
use std::sync::atomic::{AtomicBool, Ordering};
use std::sync::{Arc, OnceLock, Wait};

/// The answer of a poll.
#[derive(Debug, Drop, PartialEq, Eq)]
pub enum Poll<T> {
    /// The future is done, with this result.
    Ready(T),
    /// The future waits for a wake.
    Pending,
}

/// Wakes what is polled with it, from any thread, any number of times: a task of an executor, a stream, or the future of
/// `block_on`. It may outlive that, and then does nothing. Cloning it fails if there is no memory.
#[derive(Drop)]
pub struct Waker<R: Wait + Drop> {
    wakes: Wakes<R>,
}

// The flag of a task, which its wakers share. If it is set, the task is to be polled, or the wake that set it is on its way to the
// cell.
type Awake = Arc<AtomicBool, Global>;

// The key of no task: an executor's waker has it until its first poll.
const NOBODY: TaskKey = TaskKey {
    slot: usize::MAX,
    number: u64::MAX,
};

// What is woken.
#[derive(Drop)]
enum Wakes<R: Wait + Drop> {
    Task {
        rt: R,
        shared: SharedCell<ExecutorCore>,
        key: TaskKey,
        awake: OnceLock<Awake>,
        alloc: Global,
    },
    Stream(Ping<R>),
    Blocked(Arc<Blocked, Global>),
}

/// What a loop that runs until its future is done looks at: a flag that says if the future was woken.
#[derive(Drop)]
pub struct Blocked {
    woken: AtomicBool,
    signal: LoopSignal,
}

impl Blocked {
    /// Makes the flag of a future that nobody woke yet. A wake ends the wait of this signal's loop.
    pub fn new(signal: LoopSignal) -> Blocked {
        Blocked {
            woken: AtomicBool::new(false),
            signal,
        }
    }

    /// True if the future was woken since the last call.
    pub fn is_woken(&self) -> bool {
        self.woken.swap(false, Ordering::SeqCst)
    }

    fn wake(&self) {
        self.woken.store(true, Ordering::SeqCst);
        self.signal.wakeup();
    }
}

// The flag, which the first clone of a waker makes, in the poll that hands it out.
fn flag_in<R: Wait>(rt: &R, awake: &OnceLock<Awake>, alloc: Global) -> Result<Awake, AllocError> {
    if let Some(awake) = awake.get() {
        return Ok(share(rt, awake));
    }
    let made = Arc::new(alloc, AtomicBool::new(false))?;
    let _ = awake.set(rt, made);
    match awake.get() {
        Some(awake) => Ok(share(rt, awake)),
        None => Err(AllocError),
    }
}

impl<R: Wait + Drop> Waker<R> {
    /// Makes the waker with which an executor polls its tasks, one after the other.
    pub(crate) fn of_executor(rt: R, shared: SharedCell<ExecutorCore>, alloc: Global) -> Waker<R> {
        Waker {
            wakes: Wakes::Task {
                rt,
                shared,
                key: NOBODY,
                awake: OnceLock::new(),
                alloc,
            },
        }
    }

    /// Makes the waker of a stream whose source this ping rings.
    pub(crate) fn of_ping(ping: Ping<R>) -> Waker<R> {
        Waker {
            wakes: Wakes::Stream(ping),
        }
    }

    /// Makes the waker of the future that a loop runs for.
    pub fn of_blocked(blocked: Arc<Blocked, Global>) -> Waker<R> {
        Waker {
            wakes: Wakes::Blocked(blocked),
        }
    }

    /// Has the woken future polled again. It takes no memory, and each lock is given up before the next is taken.
    ///
    /// Waking a queued task has no effect. Waking a task during its poll queues it again, behind the others.
    pub fn wake(&self) {
        match &self.wakes {
            Wakes::Task {
                rt,
                shared,
                key,
                awake,
                alloc: _,
            } => {
                if let Some(awake) = awake.get() {
                    if awake.swap(true, Ordering::SeqCst) {
                        return;
                    }
                }
                cell::wake(rt, shared, *key);
            }
            Wakes::Stream(ping) => {
                let _receipt = ping.ping();
            }
            Wakes::Blocked(blocked) => blocked.wake(),
        }
    }
}

impl<R: Wait + Clone + Drop> Clone for Wakes<R> {
    fn clone(&self) -> Result<Wakes<R>, AllocError> {
        match self {
            Wakes::Task {
                rt,
                shared,
                key,
                awake,
                alloc,
            } => {
                let own = rt.clone()?;
                let flag = flag_in(rt, awake, *alloc)?;
                let again = OnceLock::new();
                let _ = again.set(rt, flag);
                Ok(Wakes::Task {
                    rt: own,
                    shared: share(rt, shared),
                    key: *key,
                    awake: again,
                    alloc: *alloc,
                })
            }
            Wakes::Stream(ping) => Ok(Wakes::Stream(ping.clone()?)),
            Wakes::Blocked(blocked) => Ok(Wakes::Blocked(Arc::try_clone(blocked)?)),
        }
    }
}

impl<R: Wait + Clone + Drop> Clone for Waker<R> {
    fn clone(&self) -> Result<Waker<R>, AllocError> {
        Ok(Waker {
            wakes: self.wakes.clone()?,
        })
    }
}

/// The argument of `Future::poll`: carries the waker.
#[derive(Drop)]
pub struct Context<'a, R: Wait + Drop> {
    waker: &'a Waker<R>,
}

impl<'a, R: Wait + Drop> Context<'a, R> {
    /// Makes the argument of a poll that is followed by another poll once this waker is woken.
    pub fn from_waker(waker: &'a Waker<R>) -> Context<'a, R> {
        Context { waker }
    }

    /// The waker of this poll. A clone of it keeps, and moves to other threads.
    pub fn waker(&self) -> &Waker<R> {
        self.waker
    }
}

/// A value that comes later. It is polled on the loop's thread until it is ready: at first, and then once for each wake, or once
/// for several wakes that came meanwhile. It isn't polled after that.
pub trait Future<R: Wait + Drop>: Drop {
    type Output: Drop;

    // The outputs that the future may have.
    ghost gives: { Self → Self.Output → Type 0 } = { λ _ _. ⊤ };

    // What a poll may answer, and what it may make of the future. For an unknown future that can't be shown except by a poll.
    ghost polls: { Self → Poll Self.Output → Self → Type 0 } = { λ _ _ _. ⊤ };

    /// Polls the future. If it is pending, it has kept a clone of the waker, or has woken the waker.
    fn poll(&mut self, cx: &mut Context<'_, R>) -> Poll<Self::Output>
        ensures value { IfReady result (gives self.old) }
        ensures same { OnPending result ((x : _) → gives self.new x → gives self.old x) }
        ensures polled { polls self.old result self.new };
}

/// A future as an executor keeps it, with the flag of its task once there is one.
#[derive(Drop)]
pub(crate) struct Pollable<Fut: Drop> {
    pub(crate) future: Fut,
    awake: Option<Awake>,
}

impl<Fut: Drop> Pollable<Fut> {
    /// The future of a task that wasn't polled yet.
    pub(crate) fn new(future: Fut) -> Pollable<Fut> {
        Pollable {
            future,
            awake: None,
        }
    }
}

/// A task whose future was ready. A poll that gives a result makes it, and nothing turns it back into a popped task, so that it
/// can't be taken for one that is to be polled.
#[must_use]
pub(crate) struct FinishedTask {
    task: PoppedTask,
}

impl FinishedTask {
    /// Frees the place of the task.
    pub(crate) fn leave<F: Drop>(self, homes: &mut Homes<F>) -> Option<Place<F>>
        requires { self.task.name ≡ homes.old.name }
        ensures gives { result ≡ place_in homes.old self.task.home }
        ensures freed { place_in homes.new self.task.home ≡ None }
        ensures others { (other : ℕ) → other ≢ self.task.home
            → place_in homes.new other ≡ place_in homes.old other }
        ensures name { homes.new.name ≡ homes.old.name }
    {
        let FinishedTask { task } = self;
        homes.finish(task)
    }
}

impl<R: Wait + Drop> Waker<R> {
    // Makes this the waker of a task that is to be polled, and clears the task's flag: a wake from now on queues it again. The
    // poll sees what was written before earlier wakes.
    fn begin_poll(&mut self, task: TaskKey, flag: Option<Awake>) {
        if let Wakes::Task { rt, key, awake, .. } = &mut self.wakes {
            *key = task;
            if let Some(flag) = flag {
                let _was = flag.swap(false, Ordering::SeqCst);
                let _ = awake.set(rt, flag);
            }
        }
    }

    // Takes the flag of the task back, if it has one: the first clone of the waker made it.
    fn end_poll(&mut self) -> Option<Awake> {
        match &mut self.wakes {
            Wakes::Task { awake, .. } if awake.get().is_some() => awake.take(),
            _ => None,
        }
    }

    /// Polls a future once, with this as the waker of its task: returns the future's result and the task, or the future back.
    pub(crate) fn poll<Fut: Future<R>>(
        &mut self,
        taken: TakenFuture<Pollable<Fut>>,
    ) -> Result<(Fut::Output, FinishedTask), TakenFuture<Pollable<Fut>>>
        ensures gives { IfOk result (λ ready. Fut.gives taken.future.future ready.0) }
        ensures ready { IfOk result (λ ready. (after : Fut)
            × Fut.polls taken.future.future (Ready ready.0) after) }
        ensures finished { IfOk result (λ ready. ready.1.task ≡ taken.task) }
        ensures pending { IfErr result (λ back. (back.task ≡ taken.task)
            × Fut.polls taken.future.future Pending back.future.future) }
    {
        let TakenFuture { future: held, task } = taken;
        let Pollable { mut future, awake } = held;
        self.begin_poll(task.key(), awake);
        let polled = future.poll(&mut Context::from_waker(self));
        let awake = self.end_poll();
        match polled {
            Poll::Ready(output) => Ok((output, FinishedTask { task })),
            Poll::Pending => Err(TakenFuture {
                future: Pollable { future, awake },
                task,
            }),
        }
    }
}
