//! The sections of the lock of an executor's cell that no other kind of cell has.
ghost use Rattle.std.specs.Prelude.{◌≡◌, ◌+◌, ◌<◌, ◌⊎◌, None, Some, true, false, IsSome, IfOk, IfErr, IfSome, IfNone};
ghost use Rattle.std.specs.Arc.{arc_value};
ghost use Rattle.std.specs.Option.{option_map};
ghost use Rattle.calloop_wake.specs.Locks.{HasOneSlot, IsTaken};
ghost use Rattle.calloop_wake.specs.Passes.{Keyed, on};
ghost use Rattle.calloop_wake.specs.Cells.{one};
ghost use Rattle.calloop_wake.specs.Executors.{at_start, most_tasks};
ghost use Rattle.calloop_slots.specs.declared.error.Error.TheVariants.{OutOfMemory};

use crate::cell::{Cell, ReceivingEnd, SendingEnd, post};
use calloop_slots::error::Result as LoopResult;
use calloop_wake::executor::{ExecutorCore, PutRefusal, PutTask, TaskTurn};
use calloop_wake::homes::{DueReceipt, KeepingRight, MissedTask, PoppedTask};
use calloop_wake::locked::{Held, Locked};
use calloop_wake::tasks::TaskKey;
use calloop_wake::{Receipt, ReceivingRight, TakenPass};
use std::alloc::Global;
use std::sync::Wait;

/// What an executor shares with its schedulers and its wakers.
pub type TaskCell = Cell<ExecutorCore>;

/// Makes a cell without tasks, under its lock, and the rights to its receiving end and to the places of its futures.
pub fn new_locked(alloc: Global) -> LoopResult<(Locked<TaskCell>, ReceivingRight, KeepingRight)>
    ensures right { IfOk result (λ made. made.1.name ≡ made.0.tag) }
    ensures keeping { IfOk result (λ made. made.2.name ≡ made.0.tag) }
    ensures err { IfErr result (λ e. e ≡ OutOfMemory) }
{
    let (core, name, right, keeping) = ExecutorCore::new(alloc)?;
    Ok((Cell::new_locked(alloc, core, &name)?, right, keeping))
}

impl<R: Wait + Drop> SendingEnd<ExecutorCore, R> {
    /// Makes a new task and queues it. Returns what makes its receipt once its future is kept.
    pub(crate) fn put(&self, home: usize) -> Result<DueReceipt, PutRefusal>
        ensures name { IfOk result (λ due. due.name ≡ self.now) }
        ensures home { IfOk result (λ due. due.home ≡ home) }
    {
        let mut held = self.shared.lock(&self.rt);
        let cell = held.core();
        match cell.core.put(home) {
            Ok(put) => {
                let PutTask { key: _, due, debt } = put;
                let owed = cell.with_hub(&self.rt, debt);
                held.unlock();
                post(&self.rt, owed);
                Ok(due)
            }
            Err(refusal) => {
                held.unlock();
                Err(refusal)
            }
        }
    }

    /// Wakes a task whose future came after a turn had looked for it, which yields its receipt.
    pub(crate) fn wake_missed(&self, missed: MissedTask) -> Receipt
        requires { missed.name ≡ self.now }
        ensures { result.name ≡ self.now }
    {
        let mut held = self.shared.lock(&self.rt);
        let cell = held.core();
        let (receipt, debt) = cell.core.wake_missed(missed);
        let owed = cell.with_hub(&self.rt, debt);
        held.unlock();
        post(&self.rt, owed);
        receipt
    }
}

/// Wakes a task. If the lock's hint says that it is awake already, a wake would change nothing, and the lock isn't taken.
pub fn wake<R: Wait>(rt: &R, shared: &Locked<TaskCell>, key: TaskKey) {
    if shared.has_hint(key.number) {
        return;
    }
    let mut held = shared.lock(rt);
    let cell = held.core();
    let debt = cell.core.wake(key);
    let owed = cell.with_hub(rt, debt);
    if cell.core.is_awake(key) {
        held.unlock_with_hint(key.number);
    } else {
        held.unlock();
    }
    post(rt, owed);
}

// Takes the lock, once the turn is the one open in the cell. That is so at once: only the holder of the turn moves it on.
fn lock_at<'a, R: Wait>(rt: &R, shared: &'a Locked<TaskCell>, turn: &TaskTurn) -> Held<'a, TaskCell>
    ensures lock { (result.shared.now.key ≡ shared.now.tag)
        × (result.seat.table_id ≡ result.shared.now.table_id)
        × HasOneSlot result.shared.now.table_id }
    ensures taken { IsTaken (λ cell. (cell.core.name ≡ shared.now.tag)
        × ((cell.core.draining ≡ true) × (turn.now.progress ≡ cell.core.progress))
        × ((place : Keyed) → on cell.core.board cell.core.key ≡ Some place
        → option_map arc_value cell.hub ≡ Some place.board))
        result.seat.me.1 }
{
    for _ in rt.forever() {
        let mut held = shared.lock(rt);
        if held.core().core.is_at(turn) {
            return held;
        }
        held.unlock();
    }
    unreachable!()
}

impl<R: Wait + Drop> ReceivingEnd<ExecutorCore, R> {
    /// Opens a turn of the cell with the pass, which comes back as refused if it opens none.
    pub(crate) fn open_turn(&mut self, pass: TakenPass) -> Result<TaskTurn, TakenPass>
        ensures tag { self.new.tag ≡ self.old.tag }
        ensures turn { IfOk result
            (λ turn. turn ≡ record { name = self.old.tally.name; progress = at_start }) }
        ensures ok { IfOk result
            (λ _. self.new.tally ≡ record self.old.tally { turns = self.old.tally.turns + 1 }) }
        ensures err { IfErr result
            (λ refused. (refused ≡ record pass { refused = Some self.old.tally.name })
            × (self.new.tally ≡ self.old.tally)) }
    {
        let mut held = self.shared.lock(&self.rt);
        let cell = held.core();
        let opened = cell.core.open_turn(pass, &mut self.tally);
        held.unlock();
        opened
    }

    /// A pop of the turn, which first ends the poll of the task that it popped before. Only the turn that is open in the cell
    /// pops there: any other turn would wait for ever.
    pub(crate) fn pop(&mut self, turn: &mut TaskTurn, finished: bool) -> Option<PoppedTask>
        requires name { turn.old.name ≡ self.old.tally.name }
        requires more { (turn.old.progress.dry ≡ false) × (turn.old.progress.pops < most_tasks) }
        requires finishes { finished ≡ true → IsSome turn.old.progress.polled }
        ensures tag { self.new.tag ≡ self.old.tag }
        ensures name { turn.new.name ≡ turn.old.name }
        ensures pops { turn.new.progress.pops ≡ turn.old.progress.pops + 1 }
        ensures some { IfSome result (λ popped. (turn.new.progress.polled ≡ Some popped.key)
            × (turn.new.progress.dry ≡ false)) }
        ensures popped { IfSome result (λ popped. popped.name ≡ self.old.tally.name) }
        ensures none { IfNone result (turn.new.progress.dry ≡ true) }
        ensures tally { self.new.tally
            ≡ record self.old.tally { number = self.old.tally.number + one finished } }
    {
        let mut held = lock_at(&self.rt, &self.shared, turn);
        let cell = held.core();
        let popped = cell.core.pop(turn, &mut self.tally, finished);
        held.unlock();
        popped
    }

    /// Ends a turn of the cell, whose last pop gave no task or was its 1,024th: it ends the poll of the task that was popped last.
    pub(crate) fn end_turn(&mut self, turn: TaskTurn, finished: bool)
        requires name { turn.name ≡ self.old.tally.name }
        requires over { (turn.progress.dry ≡ true) ⊎ (turn.progress.pops ≡ most_tasks) }
        requires finishes { finished ≡ true → IsSome turn.progress.polled }
        ensures tag { self.new.tag ≡ self.old.tag }
        ensures tally { self.new.tally
            ≡ record self.old.tally { number = self.old.tally.number + one finished } }
    {
        let mut held = lock_at(&self.rt, &self.shared, &turn);
        let cell = held.core();
        let debt = cell.core.end_turn(turn, &mut self.tally, finished);
        let owed = cell.with_hub(&self.rt, debt);
        held.unlock();
        post(&self.rt, owed);
    }
}
