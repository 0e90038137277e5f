//! The handle that hands futures to an executor.
ghost use Rattle.std.specs.Prelude.{◌≡◌, IfOk, IfErr};
ghost use Rattle.std.specs.Arc.{arc_value};
ghost use Rattle.calloop_ends.specs.futures.Polled.{IsRefusalOf, IsDestroyed};

use super::errors::{ExecutorDestroyed, ScheduleError};
use super::homes::{self, SharedHomes};
use super::task::{Future, Pollable};
use crate::cell::SendingEnd;
use calloop_wake::Receipt;
use calloop_wake::executor::{ExecutorCore, PutRefusal};
use std::alloc::AllocError;
use std::marker::Model;
use std::sync::{Arc, Wait};

/// Hands futures to its executor, from any thread. Clones hand them to the same executor. Dropping the last one closes nothing.
///
/// In a clause it is the name of its executor's cell.
#[derive(Drop)]
pub struct Scheduler<Fut: Drop, R: Wait + Drop> {
    end: SendingEnd<ExecutorCore, R>,
    homes: SharedHomes<Fut>,
}

impl<Fut: Drop, R: Wait + Drop> Model for Scheduler<Fut, R> {
    ghost use Rattle.std.specs.Prelude.{◌≡◌};
    ghost use Rattle.std.specs.Arc.{arc_value};
    ghost use Rattle.logbook.specs.Pages.{Book};

    ghost Value = { Book };

    ghost view = { λ s. s.end };

    ghost invariant = { λ s. (arc_value s.homes).tag ≡ s.end };
}

// Why a future isn't scheduled.
fn refusal<Fut>(future: Fut, why: PutRefusal) -> ScheduleError<Fut>
where
    Fut: Drop,
    ensures memory { why ≡ PutRefusal.OutOfMemory → result ≡ ScheduleError.OutOfMemory future }
    ensures gone { why ≡ PutRefusal.Gone → IsDestroyed result }
    ensures future { IsRefusalOf future result }
{
    match why {
        PutRefusal::OutOfMemory => ScheduleError::OutOfMemory(future),
        PutRefusal::Gone => ScheduleError::Destroyed(ExecutorDestroyed),
    }
}

impl<Fut: Drop, R: Wait + Drop> Scheduler<Fut, R> {
    pub(crate) fn of(end: SendingEnd<ExecutorCore, R>, homes: SharedHomes<Fut>) -> Scheduler<Fut, R>
        requires { (arc_value homes).tag ≡ end }
        ensures { result ≡ end }
    {
        Scheduler { end, homes }
    }
}

impl<Fut: Future<R>, R: Wait + Drop> Scheduler<Fut, R> {
    /// Hands a future over, to be polled in a later turn of the executor. The receipt is of a task of this very executor.
    ///
    /// If the executor is gone, it fails with `Destroyed`, and the future is dropped. Without memory it fails and hands the
    /// future back; later wakes of the task take no memory.
    pub fn schedule(&self, future: Fut) -> Result<Receipt, ScheduleError<Fut>>
        ensures ok { IfOk result (λ r. r.name ≡ self.now) }
        ensures err { IfErr result (IsRefusalOf future) }
    {
        let (end, homes) = (&self.end, &self.homes);
        let SendingEnd { rt, .. } = end;
        let place = match homes::reserve(rt, homes) {
            Ok(place) => place,
            Err(why) => return Err(refusal(future, why)),
        };
        match end.put(place.home()) {
            Ok(due) => match homes::keep(rt, homes, due, place, Pollable::new(future)) {
                Ok(receipt) => Ok(receipt),
                Err(missed) => Ok(end.wake_missed(missed)),
            },
            Err(why) => {
                homes::free(rt, homes, place);
                Err(refusal(future, why))
            }
        }
    }
}

impl<Fut: Drop, R: Wait + Clone + Drop> Clone for Scheduler<Fut, R> {
    ghost use Rattle.std.specs.Prelude.{◌≡◌};

    ghost is_clone = { λ scheduler again. again ≡ scheduler };

    fn clone(&self) -> Result<Scheduler<Fut, R>, AllocError> {
        let end = self.end.clone()?;
        let homes = Arc::try_clone(&self.homes)?;
        Ok(Scheduler { end, homes })
    }
}
