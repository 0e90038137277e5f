//! The sections of the lock that guards an executor's futures. This isn't the lock of its cell, which its wakers reach. Within it
//! no future is polled or dropped: what comes out of a place is dropped once the lock is given up.
ghost use Rattle.std.specs.Prelude.{◌≡◌, ◌+◌, IfOk, IfErr, IfSome, IfNone};

use super::task::{FinishedTask, Pollable};
use crate::cell::ReceivingEnd;
use calloop_wake::Receipt;
use calloop_wake::executor::{ExecutorCore, PutRefusal};
use calloop_wake::homes::{DueReceipt, Homes, MissedTask, PoppedTask, ReservedPlace, TakenFuture};
use calloop_wake::locked::Locked;
use std::alloc::Global;
use std::sync::{Arc, Wait};

/// The places of an executor's futures, under their lock. In a clause `tag` is the name of its cell.
pub(crate) type SharedHomes<Fut> = Arc<Locked<Homes<Pollable<Fut>>>, Global>;

/// Reserves a place for a future that is to come.
pub(crate) fn reserve<Fut: Drop, R: Wait>(
    rt: &R,
    homes: &Locked<Homes<Pollable<Fut>>>,
) -> Result<ReservedPlace, PutRefusal>
    ensures { IfOk result (λ place. place.name ≡ homes.now.tag) }
{
    let mut places = homes.lock(rt);
    let reserved = places.core().reserve();
    places.unlock();
    match reserved {
        Some(Ok(place)) => Ok(place),
        Some(Err(_)) => Err(PutRefusal::OutOfMemory),
        None => Err(PutRefusal::Gone),
    }
}

/// Keeps the future of a task that was put, which yields the task's receipt, or the task itself if a turn has looked for the
/// future before. If the executor is gone, the future is dropped.
pub(crate) fn keep<Fut: Drop, R: Wait>(
    rt: &R,
    homes: &Locked<Homes<Pollable<Fut>>>,
    due: DueReceipt,
    place: ReservedPlace,
    held: Pollable<Fut>,
) -> Result<Receipt, MissedTask>
    requires due { due.name ≡ homes.now.tag }
    requires place { (place.name ≡ due.name) × (place.home ≡ due.home) }
    ensures receipt { IfOk result (λ receipt. receipt.name ≡ homes.now.tag) }
    ensures missed { IfErr result (λ missed. missed.name ≡ homes.now.tag) }
{
    let mut places = homes.lock(rt);
    let (kept, _before) = places.core().keep(due, place, held);
    places.unlock();
    kept
}

impl<R: Wait + Drop> ReceivingEnd<ExecutorCore, R> {
    /// Takes the future of a popped task, for its poll, and frees the place of the task that was finished before. If the future is
    /// still to come, `keep` tells its scheduler so, and the tally counts that.
    pub(crate) fn take_future<Fut: Drop>(
        &mut self,
        homes: &Locked<Homes<Pollable<Fut>>>,
        popped: PoppedTask,
        finished: Option<FinishedTask>,
    ) -> Option<TakenFuture<Pollable<Fut>>>
        requires popped { popped.name ≡ homes.now.tag }
        requires finished { IfSome finished (λ done. done.task.name ≡ homes.now.tag) }
        requires tally { self.old.tally.name ≡ homes.now.tag }
        ensures tag { self.new.tag ≡ self.old.tag }
        ensures some { IfSome result
            (λ taken. (taken.task ≡ popped) × (self.new.tally ≡ self.old.tally)) }
        ensures none { IfNone result
            (self.new.tally ≡ record self.old.tally { misses = self.old.tally.misses + 1 }) }
    {
        let mut places = homes.lock(&self.rt);
        let core = places.core();
        let _before = match finished {
            Some(task) => task.leave(core),
            None => None,
        };
        let taken = core.take(popped, &mut self.tally);
        places.unlock();
        taken
    }
}

/// Puts back a future that is still pending after its poll.
pub(crate) fn put_back<Fut: Drop, R: Wait>(
    rt: &R,
    homes: &Locked<Homes<Pollable<Fut>>>,
    taken: TakenFuture<Pollable<Fut>>,
)
    requires { taken.task.name ≡ homes.now.tag }
{
    let mut places = homes.lock(rt);
    let _before = places.core().put_back(taken);
    places.unlock();
}

/// Frees the place of a finished task.
pub(crate) fn finish<Fut: Drop, R: Wait>(
    rt: &R,
    homes: &Locked<Homes<Pollable<Fut>>>,
    finished: FinishedTask,
)
    requires { finished.task.name ≡ homes.now.tag }
{
    let mut places = homes.lock(rt);
    let _before = finished.leave(places.core());
    places.unlock();
}

/// Frees a place that was reserved for a task which wasn't put.
pub(crate) fn free<Fut: Drop, R: Wait>(
    rt: &R,
    homes: &Locked<Homes<Pollable<Fut>>>,
    place: ReservedPlace,
)
    requires { place.name ≡ homes.now.tag }
{
    let mut places = homes.lock(rt);
    let _before = places.core().free(place);
    places.unlock();
}

/// Drops all futures, since the executor is gone.
pub(crate) fn close<Fut: Drop, R: Wait>(rt: &R, homes: &Locked<Homes<Pollable<Fut>>>) {
    let mut places = homes.lock(rt);
    let left = places.core().close();
    places.unlock();
    drop(left);
}
