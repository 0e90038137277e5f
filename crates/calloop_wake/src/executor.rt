//! The cell of an executor, shared by its schedulers and its wakers.
ghost use Rattle.std.specs.Prelude.{if◌then◌else◌, ◌≡◌, nat_lt, Err, ◌+◌, ◌-◌, ◌<◌, ◌≤◌, ◌^◌, ◌&&◌, ◌⊎◌, not, true, false, None, Some, IsSome, IfOk, IfErr, OnErr, IfSome, IfNone};
ghost use Rattle.calloop_wake.specs.Cells.{one};
ghost use Rattle.calloop_wake.specs.Passes.{on};
ghost use Rattle.calloop_wake.specs.Tasks.{no_tasks, task_at, phase_at, is_awake};
ghost use Rattle.calloop_wake.specs.Executors.{cell_of, at_start, debt_between, owed_at, after_put, after_wake, after_pop, after_end_turn, after_clear_key, after_poll, after_poll_of, after_take, after_end, in_turn, opens, most_tasks, IsAwake, IsKeepingTasks, IsBalanced};

use super::bell::Bell;
use super::cell::CellCore;
use super::ghosts::{Count, Name};
use super::homes::{DueReceipt, KeepingRight, MissedTask, PoppedTask};
use super::locked::Core;
use super::tasks::{TaskKey, Tasks};
use super::{
    ClosePermit, Debt, Last, OpenedPass, Receipt, ReceivingRight, Sender, TakenPass, Tally,
};
use counted_slot::Fits;
use std::alloc::{AllocError, Global};
use std::marker::Model;

/// The most pops of one turn.
pub const MOST_TASKS: u32 = 1024;

/// The progress of a turn.
#[derive(Clone, Copy, Debug, PartialEq, Eq)]
pub struct Progress {
    /// How many pops it made.
    pub pops: u32,
    /// Its last pop returned no task.
    pub dry: bool,
    /// The task that it popped last, until the poll of that is over.
    pub polled: Option<TaskKey>,
}

// A turn that has popped nothing yet.
const AT_START: Progress = Progress {
    pops: 0,
    dry: false,
    polled: None,
};

/// The state that an executor shares with its schedulers and its wakers. The futures are elsewhere.
///
/// With a queued task, or one that was woken during its poll, the cell is pinged, or a turn is open. Has no `Drop`: the lock
/// around a cell ends it at its last drop.
pub struct ExecutorCore {
    // `None` once the executor is gone.
    tasks: Option<Tasks>,
    next: u64,
    bell: Bell,
    progress: Progress,
    puts: Count,
    results: Count,
}

impl Model for ExecutorCore {
    ghost use Rattle.std.specs.Prelude.{◌≡◌, not, is_some, true, false, ◌+◌};
    ghost use Rattle.calloop_wake.specs.Tasks.{count};
    ghost use Rattle.calloop_wake.specs.Executors.{ExecutorView, IsKeepingTasks, table_of, inside_cell};

    ghost Value = { ExecutorView };

    ghost view = { λ c. record {
      table = table_of c.tasks;
      next = c.next;
      results = c.results;
      pinged = c.bell.cell.pinged;
      draining = c.bell.cell.draining;
      gone = not (is_some c.tasks);
      progress = c.progress;
      key = c.bell.cell.key;
      senders = c.bell.cell.senders;
      name = c.bell.name;
      board = c.bell.board;
    } };

    ghost invariant = { λ c.
        IsKeepingTasks (inside_cell c.tasks c.next c.results c.bell.cell.pinged c.bell.cell.draining c.progress c.bell.cell.key c.bell.cell.senders)
        × (not (is_some c.tasks) ≡ false → c.next ≡ c.results + count (table_of c.tasks))
        × (c.puts ≡ c.next) };
}

impl Fits for ExecutorCore {
    ghost use Rattle.std.specs.Prelude.{◌≡◌};

    type Tag = Name;

    ghost fits = { λ tag core. core.name ≡ tag };
}

impl Core for ExecutorCore {
    ghost use Rattle.calloop_wake.specs.Executors.{IsAwake, cell_of};

    // A hint is the number of a task whose wake changes nothing.
    ghost hints = { λ number core. IsAwake number (cell_of core) };

    fn dissolve(self, last: Last) {
        let Last { of_wake: _ } = last;
        let ExecutorCore {
            tasks: _,
            next: _,
            bell,
            progress: _,
            puts: _,
            results: _,
        } = self;
        bell.dissolve();
    }
}

/// An open turn of an executor's cell, and its progress. Has the name of the cell, so it can't be ended on another.
#[must_use]
pub struct TaskTurn {
    pub(crate) name: Name,
    pub(crate) progress: Progress,
}

impl TaskTurn {
    /// True if it may make another pop, and its last one returned a task.
    pub fn goes_on(&self) -> bool
        ensures { result ≡ (not self.now.progress.dry && nat_lt self.now.progress.pops most_tasks) }
    {
        !self.progress.dry && self.progress.pops < MOST_TASKS
    }
}

/// A task that was put.
pub struct PutTask {
    /// The key by which it is woken.
    pub key: TaskKey,
    /// Returns a receipt once its future is kept.
    pub due: DueReceipt,
    pub debt: Option<Debt>,
}

/// Why a task wasn't put.
#[derive(Clone, Copy, Debug, PartialEq, Eq)]
pub enum PutRefusal {
    /// The executor is gone.
    Gone,
    /// There is no memory for it, or no number is left.
    OutOfMemory,
}

impl ExecutorCore {
    /// A cell without tasks, without a key and without senders, its name, and the right to its receiving end.
    pub fn new(
        alloc: Global,
    ) -> Result<(ExecutorCore, Name, ReceivingRight, KeepingRight), AllocError>
        ensures core { IfOk result (λ made. made.0 ≡ record {
          table = no_tasks;
          next = 0;
          results = 0;
          pinged = false;
          draining = false;
          gone = false;
          progress = at_start;
          key = None;
          senders = 0;
          name = made.1;
          board = made.1;
        }) }
        ensures right { IfOk result (λ made. made.2.name ≡ made.1) }
        ensures keeping { IfOk result (λ made. made.3.name ≡ made.1) }
    {
        let tasks = Tasks::new(alloc)?;
        let (bell, name) = Bell::new();
        let core = ExecutorCore {
            tasks: Some(tasks),
            next: 0,
            bell,
            progress: AT_START,
            puts: Count::zero(),
            results: Count::zero(),
        };
        let right = ReceivingRight { name: name.again() };
        let keeping = KeepingRight { name: name.again() };
        Ok((core, name, right, keeping))
    }

    /// Shows what the cell keeps: no wake is lost; each task is idle, queued once, polled, or finished; and each that was ever
    /// put has returned its result or is there, until the executor is gone.
    pub fn stands(&self)
        ensures keeping { IsKeepingTasks (cell_of self.now) }
        ensures balanced { IsBalanced self.now }
    {
        let _ = &self.next;
    }

    /// Puts a new task, queued last. Returns what makes its receipt, and a debt if the cell has a key and wasn't pinged.
    ///
    /// Fails with `Gone` if the executor is, and otherwise with `OutOfMemory` if there is no memory for it or no number is left;
    /// then nothing changes.
    pub fn put(&mut self, home: usize) -> Result<PutTask, PutRefusal>
        ensures vacant { IfOk result (λ put. (self.old.gone ≡ false)
            × (task_at self.old.table put.key.slot ≡ None)) }
        ensures cell { IfOk result (λ put.
            cell_of self.new ≡ after_put put.key.slot home (cell_of self.old)) }
        ensures key { IfOk result (λ put. put.key.number ≡ self.old.next) }
        ensures due { IfOk result (λ put. put.due
            ≡ record { name = self.old.name; number = self.old.next; key = put.key; home = home }) }
        ensures gives { IfOk result (λ put.
            put.debt ≡ on self.old.board (debt_between (cell_of self.old) (cell_of self.new))) }
        ensures gone { self.old.gone ≡ true → result ≡ Err PutRefusal.Gone }
        ensures there { self.old.gone ≡ false → IfErr result (λ e. e ≡ PutRefusal.OutOfMemory) }
        ensures refused { OnErr result (cell_of self.new ≡ cell_of self.old) }
        ensures names { (self.new.name ≡ self.old.name) × (self.new.board ≡ self.old.board) }
    {
        let Some(tasks) = &mut self.tasks else {
            return Err(PutRefusal::Gone);
        };
        let number = self.next;
        let Some(next) = number.checked_add(1) else {
            return Err(PutRefusal::OutOfMemory);
        };
        let Ok(slot) = tasks.put(number, home) else {
            return Err(PutRefusal::OutOfMemory);
        };
        let key = TaskKey { slot, number };
        let due = DueReceipt {
            name: self.bell.name(),
            number: self.puts.again(),
            key,
            home,
        };
        self.next = next;
        self.puts = self.puts.next();
        Ok(PutTask {
            key,
            due,
            debt: self.bell.ping(),
        })
    }

    /// A wake: an idle task is queued, and a polled one is marked; others don't change. Takes no memory.
    ///
    /// Returns a debt if a task is queued, the cell has a key and wasn't pinged. In calloop a wake sends the task's runnable.
    pub fn wake(&mut self, key: TaskKey) -> Option<Debt>
        ensures cell { cell_of self.new ≡ after_wake key (cell_of self.old) }
        ensures names { (self.new.name ≡ self.old.name) × (self.new.board ≡ self.old.board) }
        ensures gives { result
            ≡ on self.old.board (debt_between (cell_of self.old) (cell_of self.new)) }
    {
        let Some(tasks) = &mut self.tasks else {
            return None;
        };
        if tasks.wake(key) {
            self.bell.ping()
        } else {
            None
        }
    }

    /// Wakes a task that a turn missed, which is its receipt from then on. Owes what `wake` owes.
    pub fn wake_missed(&mut self, missed: MissedTask) -> (Receipt, Option<Debt>)
        requires { missed.name ≡ self.old.name }
        ensures receipt { result.0 ≡ record { name = missed.name; number = missed.number } }
        ensures cell { cell_of self.new ≡ after_wake missed.key (cell_of self.old) }
        ensures names { (self.new.name ≡ self.old.name) × (self.new.board ≡ self.old.board) }
        ensures gives { result.1
            ≡ on self.old.board (debt_between (cell_of self.old) (cell_of self.new)) }
    {
        let MissedTask { name, number, key } = missed;
        let debt = self.wake(key);
        (Receipt { name, number }, debt)
    }

    /// True if the task of this key is queued, or was woken during its poll. Then a wake of it changes nothing.
    pub fn is_awake(&self, key: TaskKey) -> bool
        ensures value { result ≡ is_awake (phase_at key (task_at self.now.table)) }
        ensures hint { result ≡ true → IsAwake key.number (cell_of self.now) }
    {
        match &self.tasks {
            Some(tasks) => tasks.is_awake(key),
            None => false,
        }
    }

    /// True if the turn is the one that is open here, with the same progress.
    pub fn is_at(&self, turn: &TaskTurn) -> bool
        ensures { result ≡ true
            → (self.now.draining ≡ true) × (turn.now.progress ≡ self.now.progress) }
    {
        self.bell.is_draining() && self.progress == turn.progress
    }

    // The task that was popped last is finished, or idle, or queued last if it was woken meanwhile.
    fn end_poll(&mut self, finished: bool)
        requires { finished ≡ true → IsSome self.old.progress.polled }
        ensures cell { cell_of self.new ≡ after_poll finished (cell_of self.old) }
        ensures names { (self.new.name ≡ self.old.name) × (self.new.board ≡ self.old.board) }
    {
        match self.progress.polled {
            Some(key) if finished => self.finish(key),
            Some(key) => self.pend(key),
            None => {}
        }
    }

    fn finish(&mut self, key: TaskKey)
        requires { self.old.progress.polled ≡ Some key }
        ensures cell { cell_of self.new ≡ after_poll_of (Some key) true (cell_of self.old) }
        ensures names { (self.new.name ≡ self.old.name) × (self.new.board ≡ self.old.board) }
    {
        let Some(tasks) = &mut self.tasks else {
            unreachable!()
        };
        tasks.finish(key);
        self.results = self.results.next();
        self.progress.polled = None;
    }

    fn pend(&mut self, key: TaskKey)
        requires { self.old.progress.polled ≡ Some key }
        ensures cell { cell_of self.new ≡ after_poll_of (Some key) false (cell_of self.old) }
        ensures names { (self.new.name ≡ self.old.name) × (self.new.board ≡ self.old.board) }
    {
        let Some(tasks) = &mut self.tasks else {
            unreachable!()
        };
        tasks.pend(key);
        self.progress.polled = None;
    }

    // The first task of the queue enters its poll.
    fn take(&mut self) -> Option<(TaskKey, usize)>
        requires ended { self.old.progress.polled ≡ None }
        requires opened { self.old.draining ≡ true }
        requires more { self.old.progress.pops < most_tasks }
        ensures cell { cell_of self.new ≡ after_take (cell_of self.old) }
        ensures some { IfSome result (λ popped. (self.new.progress.polled ≡ Some popped.0)
            × (self.new.progress.dry ≡ false)) }
        ensures none { IfNone result (self.new.progress.dry ≡ true) }
        ensures names { (self.new.name ≡ self.old.name) × (self.new.board ≡ self.old.board) }
    {
        let pops = self.progress.pops + 1;
        let Some(tasks) = &mut self.tasks else {
            self.progress = Progress {
                pops,
                dry: true,
                polled: None,
            };
            return None;
        };
        let Some((key, home)) = tasks.take() else {
            self.progress = Progress {
                pops,
                dry: true,
                polled: None,
            };
            return None;
        };
        self.progress = Progress {
            pops,
            dry: false,
            polled: Some(key),
        };
        Some((key, home))
    }

    /// Opens a turn with a pass of the cell's own key; the tally counts it.
    ///
    /// Refuses a pass of another key, and any pass while a turn is open: the pass comes back marked as refused by this cell, and
    /// the cell is unchanged.
    pub fn open_turn(&mut self, pass: TakenPass, tally: &mut Tally) -> Result<TaskTurn, TakenPass>
        requires { tally.old.name ≡ self.old.name }
        ensures ok { IfOk result (λ turn.
            (turn ≡ record { name = self.old.name; progress = at_start })
            × (opens pass.key (cell_of self.old) ≡ true)
            × (cell_of self.new ≡ in_turn (cell_of self.old))
            × (tally.new ≡ record tally.old { turns = tally.old.turns + 1 })) }
        ensures err { IfErr result (λ refused.
            (refused ≡ record pass { refused = Some self.old.name })
            × (opens pass.key (cell_of self.old) ≡ false)
            × (self.new ≡ self.old)
            × (tally.new ≡ tally.old)) }
        ensures names { (self.new.name ≡ self.old.name) × (self.new.board ≡ self.old.board) }
    {
        let TakenPass {
            key,
            board,
            refused: _,
        } = pass;
        if !self.bell.opens(key) {
            let refused = Some(self.bell.name());
            return Err(TakenPass {
                key,
                board,
                refused,
            });
        }
        self.begin_turn(key);
        tally.turns = tally.turns.next();
        Ok(TaskTurn {
            name: self.bell.name(),
            progress: AT_START,
        })
    }

    fn begin_turn(&mut self, key: u64)
        requires { opens key (cell_of self.old) ≡ true }
        ensures cell { cell_of self.new ≡ in_turn (cell_of self.old) }
        ensures names { (self.new.name ≡ self.old.name) × (self.new.board ≡ self.old.board) }
    {
        let _ = key;
        self.bell.open();
        self.progress = AT_START;
    }

    /// A pop of the turn. It ends the poll of the task that was popped before: that task is finished if its poll returned the
    /// result, and otherwise idle, or queued last if it was woken meanwhile. Then the first task of the queue, if there is one,
    /// enters its poll, and is returned with the place of its future. The tally counts a result that was handed out.
    pub fn pop(
        &mut self,
        turn: &mut TaskTurn,
        tally: &mut Tally,
        finished: bool,
    ) -> Option<PoppedTask>
        requires names { (turn.old.name ≡ self.old.name) × (tally.old.name ≡ self.old.name) }
        requires at { (self.old.draining ≡ true) × (turn.old.progress ≡ self.old.progress) }
        requires more { (turn.old.progress.dry ≡ false) × (turn.old.progress.pops < most_tasks) }
        requires finishes { finished ≡ true → IsSome turn.old.progress.polled }
        ensures cell { cell_of self.new ≡ after_pop finished (cell_of self.old) }
        ensures turn { turn.new ≡ record turn.old { progress = self.new.progress } }
        ensures tally { tally.new ≡ record tally.old { number = tally.old.number + one finished } }
        ensures some { IfSome result (λ popped. (self.new.progress.polled ≡ Some popped.key)
            × (self.new.progress.dry ≡ false)) }
        ensures name { IfSome result (λ popped. popped.name ≡ self.old.name) }
        ensures none { IfNone result (self.new.progress.dry ≡ true) }
        ensures pops { self.new.progress.pops ≡ turn.old.progress.pops + 1 }
        ensures names { (self.new.name ≡ self.old.name) × (self.new.board ≡ self.old.board) }
    {
        self.end_poll(finished);
        tally.number = tally.number.and_one_if(finished);
        let popped = self.take();
        turn.progress = self.progress;
        let (key, home) = popped?;
        Some(PoppedTask {
            name: self.bell.name(),
            key,
            home,
        })
    }

    /// Ends the turn, whose last pop returned no task or was its 1,024th: the poll of the task that was popped last is over, and
    /// after 1,024 pops the cell pings itself.
    pub fn end_turn(&mut self, turn: TaskTurn, tally: &mut Tally, finished: bool) -> Option<Debt>
        requires names { (turn.name ≡ self.old.name) × (tally.old.name ≡ self.old.name) }
        requires at { (self.old.draining ≡ true) × (turn.progress ≡ self.old.progress) }
        requires over { (turn.progress.dry ≡ true) ⊎ (turn.progress.pops ≡ most_tasks) }
        requires finishes { finished ≡ true → IsSome turn.progress.polled }
        ensures cell { cell_of self.new ≡ after_end_turn finished (cell_of self.old) }
        ensures tally { tally.new ≡ record tally.old { number = tally.old.number + one finished } }
        ensures gives { result
            ≡ on self.old.board (debt_between (cell_of self.old) (cell_of self.new)) }
        ensures names { (self.new.name ≡ self.old.name) × (self.new.board ≡ self.old.board) }
    {
        let TaskTurn {
            name: _,
            progress: _,
        } = turn;
        self.end_poll(finished);
        tally.number = tally.number.and_one_if(finished);
        self.close_turn()
    }

    fn close_turn(&mut self) -> Option<Debt>
        requires { self.old.progress.polled ≡ None }
        ensures cell { cell_of self.new ≡ after_end (cell_of self.old) }
        ensures gives { result
            ≡ on self.old.board (debt_between (cell_of self.old) (cell_of self.new)) }
        ensures names { (self.new.name ≡ self.old.name) × (self.new.board ≡ self.old.board) }
    {
        let is_early = !self.progress.dry;
        self.progress = AT_START;
        self.bell.end(is_early)
    }
}

impl CellCore for ExecutorCore {
    ghost use Rattle.calloop_wake.specs.Passes.{on};

    ghost name_of = { λ c. c.name };

    ghost place_of = { λ c. on c.board c.key };

    ghost named_by = { λ tag. tag };

    fn receiver(&self, right: ReceivingRight) -> Tally {
        self.bell.receiver(right)
    }

    fn add_sender(&mut self) -> Result<Sender, AllocError>
        ensures ok { IfOk result (λ sender. (sender.name ≡ self.old.name)
            × (self.new ≡ record self.old { senders = self.old.senders + 1 })) }
        ensures err { IfErr result (λ _. (self.old.senders + 1 ≡ 2 ^ 64) × (self.new ≡ self.old)) }
    {
        self.bell.add_sender()
    }

    // The last scheduler closes nothing.
    fn drop_sender(&mut self, sender: Sender) -> Option<Debt>
        requires { sender.name ≡ self.old.name }
        ensures core { self.new ≡ record self.old { senders = self.old.senders - 1 } }
        ensures gives { result ≡ None }
    {
        self.bell.drop_without_close(sender);
        None
    }

    fn set_key(
        &mut self,
        pass: OpenedPass,
        tally: &mut Tally,
    ) -> (Option<Debt>, Option<ClosePermit>)
        requires { tally.old.name ≡ self.old.name }
        ensures tally { tally.new ≡ record tally.old { key = Some pass.key } }
        ensures core { self.new ≡ record self.old { key = Some pass.key; board = pass.board } }
        ensures owes { result.0 ≡ on pass.board (owed_at pass.key (cell_of self.old)) }
        ensures permit { result.1 ≡ on self.old.board self.old.key }
    {
        self.bell.set_key(pass, tally)
    }

    fn clear_key(&mut self, tally: &mut Tally) -> Option<ClosePermit>
        requires { tally.old.name ≡ self.old.name }
        ensures tally { tally.new ≡ record tally.old { key = None } }
        ensures core { self.new ≡ record self.old { key = None } }
        ensures permit { result ≡ on self.old.board self.old.key }
    {
        self.bell.clear_key(tally)
    }

    // Every task is finished, and nothing is queued. The futures are dropped after this section.
    fn abandon(&mut self, tally: Tally) -> Option<ClosePermit>
        requires { tally.name ≡ self.old.name }
        ensures cell { cell_of self.new ≡ after_clear_key true (cell_of self.old) }
        ensures name { self.new.name ≡ self.old.name }
        ensures permit { result ≡ on self.old.board self.old.key }
    {
        self.tasks = None;
        self.progress.polled = None;
        self.bell.abandon(tally)
    }

    ghost is_named = { λ tag core fits. fits };
}
