//! Futures that run in the loop: an executor is a source, and the result of a future is an event.
//!
//! From calloop's `sources/futures.rs`. calloop's futures are those of the standard library; these are of this module, since a
//! wake is a step of the executor's own cell.
ghost use Rattle.std.specs.Prelude.{◌≡◌, None, IfOk, IfErr};
ghost use Rattle.calloop_wake.specs.Cells.{fresh_tally};
ghost use Rattle.calloop_slots.specs.declared.error.Error.TheVariants.{OutOfMemory};

use crate::cell::{ReceivingEnd, make_ends};
use calloop_poll::sys::hub::share;
use calloop_slots::error::Result as LoopResult;
use calloop_wake::executor::ExecutorCore;
use calloop_wake::homes::Homes;
use calloop_wake::locked::Locked;
use homes::SharedHomes;
use std::alloc::Global;
use std::marker::Model;
use std::sync::{Arc, Wait};

mod cell;
mod errors;
mod homes;
mod scheduler;
mod source;
mod task;

pub use errors::{ExecutorDestroyed, ExecutorError, ScheduleError};
pub use scheduler::Scheduler;
pub use task::{Blocked, Context, Future, Poll, Waker};

/// Runs futures in the loop, as a source. The result of a future is an event.
///
/// Its drop, as by the drop of the loop that it is registered with, takes its registration back and drops its futures.
///
/// In a clause it is its tally, as a `PingSource` is.
pub struct Executor<Fut: Drop, R: Wait + Drop> {
    end: ReceivingEnd<ExecutorCore, R>,
    homes: SharedHomes<Fut>,
    // The waker of the task that is polled: what it is made of isn't made anew for each. In a box, since a loop's slot has
    // room for its largest source.
    waker: Box<Waker<R>, Global>,
}

impl<Fut: Drop, R: Wait + Drop> Model for Executor<Fut, R> {
    ghost use Rattle.std.specs.Prelude.{◌≡◌};
    ghost use Rattle.std.specs.Arc.{arc_value};
    ghost use Rattle.calloop_wake.specs.declared.Tally.{Tally};

    ghost Value = { Tally };

    ghost view = { λ e. e.end.tally };

    ghost invariant = { λ e. (arc_value e.homes).tag ≡ e.end.tally.name };
}

/// Makes an executor, which isn't registered yet, and a scheduler that hands it futures. They lock what they share by the runtime
/// `rt`. In calloop its name is `executor`.
///
/// Fails with `OutOfMemory` if memory runs out.
pub fn make_executor<Fut: Future<R>, R: Wait + Clone + Drop>(
    rt: &R,
    alloc: Global,
) -> LoopResult<(Executor<Fut, R>, Scheduler<Fut, R>)>
    ensures ok { IfOk result (λ made. made.0 ≡ fresh_tally made.1) }
    ensures err { IfErr result (λ e. e ≡ OutOfMemory) }
{
    let (locked, right, keeping) = cell::new_locked(alloc)?;
    let (homes, of_homes) = Homes::new(alloc, keeping);
    let homes = Arc::new(alloc, Locked::new(alloc, homes, &of_homes)?)?;
    let of_executor = share(rt, &homes);
    let (sending, receiving) = make_ends(rt, alloc, locked, right)?;
    let waker = Waker::of_executor(rt.clone()?, share(rt, &receiving.shared), alloc);
    let waker = Box::new(alloc, waker)?;
    let executor = Executor {
        end: receiving,
        homes: of_executor,
        waker,
    };
    Ok((executor, Scheduler::of(sending, homes)))
}

impl<Fut: Drop, R: Wait + Drop> Drop for Executor<Fut, R> {
    fn drop(self) {
        let Executor {
            end,
            homes,
            waker: _,
        } = self;
        let rt = end.abandon();
        homes::close(&rt, &homes);
    }
}
