//! An executor as a source of the loop.
ghost use Rattle.std.specs.Prelude.{◌≡◌, ◌≤◌, ◌+◌, List, length, IfSome, is_some};
ghost use Rattle.calloop_wake.specs.Cells.{one};
ghost use Rattle.calloop_wake.specs.Executors.{at_start, most_tasks};
ghost use Rattle.calloop_sources.specs.sources.Calls.{Went};
ghost use Rattle.calloop_ends.specs.futures.Executors.{OfPop, gave, lacks, ComesOf, AllGiven, call_of, calls_of, results_of, misses_of};

use super::errors::ExecutorError;
use super::task::{FinishedTask, Future};
use super::{Executor, homes};
use crate::cell::ReceivingEnd;
use crate::cell::source::{CellSource, take_turn};
use calloop_poll::sys::events::EventIterator;
use calloop_poll::sys::poll::Poll;
use calloop_poll::sys::synthetic::Synthetic;
use calloop_poll::sys::{Poller, Readiness};
use calloop_slots::error::{Error, Result as LoopResult};
use calloop_slots::token::{Token, TokenFactory};
use calloop_sources::sources::{Asking, Callback, EventSource, IntoError, PostAction};
use calloop_wake::executor::TaskTurn;
use calloop_wake::homes::PoppedTask;
use calloop_wake::{TakenPass, Tally};
use std::sync::Wait;

impl IntoError for ExecutorError {
    ghost use Rattle.std.specs.Prelude.{◌≡◌};
    ghost use Rattle.calloop_slots.specs.declared.error.Error.TheVariants.{OutOfMemory};
    ghost use Rattle.calloop_sources.specs.sources.Lawful.{memory_of_source};

    ghost becomes = { λ _ e. e ≡ OutOfMemory };

    ghost of_source = { λ _ e is. memory_of_source e is };

    /// `OutOfMemory`.
    fn into_error(self) -> Error {
        Error::OutOfMemory
    }
}

impl<Fut: Future<R>, R: Wait + Drop> Executor<Fut, R> {
    // Polls a task outside of every lock, and calls back if its future is ready. Returns the task if it is: the poll of the next
    // one frees its place.
    fn poll_task<F, X, Q>(
        &mut self,
        popped: PoppedTask,
        finished: Option<FinishedTask>,
        callback: &mut F,
        data: &mut X,
        requests: &mut Q,
    ) -> Option<FinishedTask>
    where
        Q: Asking,
        F: Callback<Fut::Output, (), (), X, Q>,
        requires popped { popped.name ≡ self.old.name }
        requires finished { IfSome finished (λ done. done.task.name ≡ self.old.name) }
        ensures finished { IfSome result (λ done. done.task.name ≡ self.old.name) }
        ensures polled { (polled : OfPop Fut.Output) × (is_some result ≡ gave polled)
            × ComesOf Fut.gives Fut.polls polled
            × (self.new ≡ record self.old { misses = self.old.misses + one (lacks polled) })
            × Went F.may Q.reaches callback.old «data».old requests.old (call_of polled)
            callback.new «data».new requests.new }
    {
        let Some(taken) = self.end.take_future(&self.homes, popped, finished) else {
            return None;
        };
        let (output, task) = match self.waker.poll(taken) {
            Ok(ready) => ready,
            Err(pending) => {
                let ReceivingEnd { rt, .. } = &self.end;
                homes::put_back(rt, &self.homes, pending);
                return None;
            }
        };
        callback.call(output, &mut (), data, requests);
        Some(task)
    }

    // Frees the place of the task that was finished last, if there is one.
    fn free_place(&self, finished: Option<FinishedTask>)
        requires { IfSome finished (λ done. done.task.name ≡ self.now.name) }
    {
        if let Some(task) = finished {
            let ReceivingEnd { rt, .. } = &self.end;
            homes::finish(rt, &self.homes, task);
        }
    }

    // The pops of a turn, each with its poll, up to one that finds no task, or 1,024.
    fn run_tasks<F, X, Q>(
        &mut self,
        turn: TaskTurn,
        callback: &mut F,
        data: &mut X,
        requests: &mut Q,
    )
    where
        Q: Asking,
        F: Callback<Fut::Output, (), (), X, Q>,
        requires { turn ≡ record { name = self.old.name; progress = at_start } }
        ensures { (polled : List (OfPop Fut.Output)) × (length polled ≤ most_tasks)
            × (self.new ≡ record self.old {
              number = self.old.number + results_of polled;
              misses = self.old.misses + misses_of polled;
            })
            × AllGiven (ComesOf Fut.gives Fut.polls) polled
            × Went F.may Q.reaches callback.old «data».old requests.old (calls_of polled)
            callback.new «data».new requests.new }
    {
        let mut turn = turn;
        let mut finished = None;
        'pops: while turn.goes_on() {
            finished = match self.end.pop(&mut turn, finished.is_some()) {
                Some(popped) => self.poll_task(popped, finished, callback, data, requests),
                None => {
                    self.free_place(finished);
                    None
                }
            };
        }
        self.end.end_turn(turn, finished.is_some());
        self.free_place(finished);
    }
}

impl<Fut: Future<R>, R: Wait + Drop> CellSource for Executor<Fut, R> {
    ghost use Rattle.calloop_ends.specs.futures.Executors.{ComesOf, ExecutorOpens, executor_tally};

    type Event = Fut::Output;

    ghost tally_of = { executor_tally };

    ghost opens = { ExecutorOpens (ComesOf Fut.gives Fut.polls) };

    fn tally(&self) -> &Tally {
        self.end.tally()
    }

    /// Polls the tasks of the turn's pops, and calls back with each result.
    fn open_turn<F, X, Q>(
        &mut self,
        pass: TakenPass,
        callback: &mut F,
        data: &mut X,
        requests: &mut Q,
    ) -> Result<PostAction, TakenPass>
    where
        Q: Asking,
        F: Callback<Fut::Output, (), (), X, Q>,
    {
        let turn = self.end.open_turn(pass)?;
        self.run_tasks(turn, callback, data, requests);
        Ok(PostAction::Continue)
    }
}

impl<Fut: Future<R>, P: Poller, C, R: Wait + Drop> EventSource<P, C, R> for Executor<Fut, R> {
    ghost use Rattle.std.specs.Prelude.{◌≡◌};
    ghost use Rattle.calloop_ends.specs.futures.Executors.{ComesOf, executor_meaning};
    ghost use Rattle.calloop_ends.specs.futures.ExecutorKeeping.{executor_keeps};

    type Event = Fut::Output;

    type Metadata = ();

    type Ret = ();

    type Error = ExecutorError;

    ghost means = { executor_meaning (ComesOf Fut.gives Fut.polls) };

    /// The executor's turn: polls the queued tasks in order, at most 1,024, each outside of every lock, and calls back with each
    /// result. After 1,024 the executor is posted again. A task that is woken in its poll is queued once more, and one whose
    /// future was ready isn't polled again. An event of another token, or without a posted key behind it, polls nothing.
    fn process_events<F, X, Q>(
        &mut self,
        _readiness: Readiness,
        token: Token,
        poll: &mut Poll<P, C, R>,
        callback: &mut F,
        data: &mut X,
        requests: &mut Q,
    ) -> Result<PostAction, ExecutorError>
    where
        Q: Asking,
        F: Callback<Fut::Output, (), (), X, Q>,
    {
        take_turn(self, token, poll, callback, data, requests)
    }

    /// Registers the executor under the factory's next token. One with queued tasks is posted at once.
    ///
    /// Fails with `IoError` of kind `AlreadyExists` if the executor is registered already, with `TooManyTokens` if the factory
    /// has no token left, and with `OutOfMemory` if memory runs out. On failure the executor and the board are unchanged.
    fn register(&mut self, poll: &mut Poll<P, C, R>, factory: &mut TokenFactory) -> LoopResult<()> {
        self.end.register(poll, factory)
    }

    /// Moves the registration to the factory's next token; under the same key it does nothing. What is queued is posted under the
    /// new key.
    ///
    /// Fails with `IoError` of kind `NotFound` if the executor isn't registered, with `TooManyTokens` if the factory has no token
    /// left, with `IoError` of kind `AlreadyExists` if the place of the new key is open already, and with `OutOfMemory` if memory
    /// runs out. On failure the executor and the board are unchanged.
    fn reregister(
        &mut self,
        poll: &mut Poll<P, C, R>,
        factory: &mut TokenFactory,
    ) -> LoopResult<()> {
        self.end.reregister(poll, factory)
    }

    /// Takes the registration back. What is queued is polled after the next registration. Fails with `IoError` of kind `NotFound`
    /// if the executor isn't registered, and then nothing changes.
    fn unregister(&mut self, poll: &mut Poll<P, C, R>) -> LoopResult<()> {
        self.end.unregister(poll)
    }

    /// Returns false: an executor isn't told of waits.
    fn needs_extra_lifecycle_events() -> bool {
        false
    }

    fn max_synthetic() -> u16 {
        0
    }

    fn before_sleep(&mut self, _out: &mut Synthetic) -> LoopResult<()> {
        Ok(())
    }

    fn before_handle_events(&mut self, _events: EventIterator<'_>) {}

    ghost keeps = { executor_keeps (ComesOf Fut.gives Fut.polls) };
}
