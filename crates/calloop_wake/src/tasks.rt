//! The tasks of an executor: each is idle, queued once, or in a poll, and a finished one is removed. Calloop has a slab of wakers and
//! a channel of runnables here.
ghost use Rattle.std.specs.Prelude.{◌≡◌, ◌≢◌, ℕ, ◌+◌, ◌<◌, ◌++◌, ◌∷◌, [], true, false, Some, None, option_map, IsSome, IsNone, IfSome, IfNone, IfOk, OnErr, is_some, count_by};
ghost use Rattle.slab.specs.Slab.{ContainsKey, Updates, get as value_at};
ghost use Rattle.futures.specs.LinkedLists.{list_of, list_count, key_limit, items, IsApart, IsIn};
ghost use Rattle.calloop_wake.specs.Tasks.{TaskTable, no_tasks, task_at, place_of, phase_at, is_idle, is_woken, is_awake, in_poll, woken_phase, phase_after_pending, with_phase, after_step, slot_if, count};
ghost use Rattle.calloop_wake.specs.Executors.{with_slot};
ghost use Rattle.calloop_wake.specs.declared.tasks.Task.{Task};

use futures::util::linked_list::LinkedLists;
use slab::Slab;
use std::alloc::{AllocError, Global};
use std::marker::Model;

/// The phase of a task.
#[derive(Clone, Copy, Debug, PartialEq, Eq)]
pub enum Phase {
    /// Waits for a wake.
    Idle,
    /// In the queue.
    Queued,
    /// Polled.
    Polling,
    /// Polled, and woken meanwhile.
    Woken,
}

/// A task that isn't finished.
#[derive(Clone, Copy, Debug, PartialEq, Eq)]
pub struct Task {
    /// Its number, which no other task of its executor ever has.
    pub number: u64,
    /// Its phase.
    pub phase: Phase,
    /// The place of its future.
    pub home: usize,
}

/// Names a task for good: its slot, which another task may have later, and its number, which none has.
#[derive(Clone, Copy, Debug, PartialEq, Eq)]
pub struct TaskKey {
    /// Its slot.
    pub slot: usize,
    /// Its number.
    pub number: u64,
}

/// The unfinished tasks, and the queue of those to be polled.
#[derive(Drop)]
pub struct Tasks {
    slab: Slab<Task>,
    queue: LinkedLists,
}

impl Model for Tasks {
    ghost use Rattle.std.specs.Prelude.{◌≡◌, ℕ, ◌<◌, Some};
    ghost use Rattle.slab.specs.Slab.{get};
    ghost use Rattle.futures.specs.LinkedLists.{list_of, list_count, key_limit, items};
    ghost use Rattle.calloop_wake.specs.Tasks.{TaskTable, place_of};
    ghost use Rattle.calloop_wake.specs.declared.tasks.Task.{Task};

    ghost Value = { TaskTable };

    ghost view = { λ t. record { slots = t.slab.slots; queue = items t.queue 0 } };

    // The queue has a task exactly if its phase is queued, and a wake takes no memory.
    ghost invariant = { λ t.
        ((slot : ℕ) → list_of t.queue slot ≡ place_of (get t.slab slot))
        × ((slot : ℕ) (task : Task) → get t.slab slot ≡ Some task → slot < key_limit t.queue)
        × (list_count t.queue ≡ 1) };
}

fn set_phase(slab: &mut Slab<Task>, slot: usize, phase: Phase)
    requires { ContainsKey slab.old slot }
    ensures changed { value_at slab.new slot
        ≡ option_map (with_phase phase) (value_at slab.old slot) }
    ensures others { (other : ℕ) → other ≢ slot
        → value_at slab.new other ≡ value_at slab.old other }
    ensures count { count_by is_some slab.new.slots ≡ count_by is_some slab.old.slots }
{
    if let Some(task) = slab.get_mut(slot) {
        task.phase = phase;
    }
}

impl Tasks {
    /// No tasks.
    pub fn new(alloc: Global) -> Result<Tasks, AllocError>
        ensures { IfOk result (λ table. table ≡ no_tasks) }
    {
        let slab = Slab::new(alloc);
        let queue = LinkedLists::new(alloc, 1)?;
        Ok(Tasks { slab, queue })
    }

    /// Shows that the queue holds each queued task once, and no other.
    pub fn queued_once(&self, slot: usize)
        ensures once { IsApart (self.now.queue) }
        ensures only { IsIn slot (self.now.queue) → place_of (task_at self.now slot) ≡ Some 0 }
    {
        let _front = self.queue.front(0);
        let _place = self.queue.list_of(slot);
    }

    // The phase of the task of this key, if it isn't finished.
    fn phase(&self, key: TaskKey) -> Option<Phase>
        ensures { result ≡ phase_at key (task_at self.now) }
    {
        let task = self.slab.get(key.slot)?;
        if task.number == key.number {
            Some(task.phase)
        } else {
            None
        }
    }

    /// True if the task of this key is queued, or was woken during its poll.
    pub fn is_awake(&self, key: TaskKey) -> bool
        ensures { result ≡ is_awake (phase_at key (task_at self.now)) }
    {
        matches!(self.phase(key), Some(Phase::Queued | Phase::Woken))
    }

    /// A wake: an idle task is queued, and one in a poll is marked. Takes no memory. Returns true if the task was queued by it.
    #[tactic(auto, using(crate::proofs::Written::written, crate::proofs::Written::unwritten))]
    pub fn wake(&mut self, key: TaskKey) -> bool
        ensures result { result ≡ is_idle (phase_at key (task_at self.old)) }
        ensures tasks { task_at self.new ≡ with_slot key.slot
            (after_step woken_phase key.number (task_at self.old key.slot)) (task_at self.old) }
        ensures line { self.new.queue ≡ self.old.queue ++ slot_if result key.slot }
        ensures count { count self.new ≡ count self.old }
    {
        match self.phase(key) {
            Some(Phase::Idle) => {
                set_phase(&mut self.slab, key.slot, Phase::Queued);
                self.queue.push_back(0, key.slot);
                true
            }
            Some(Phase::Polling) => {
                set_phase(&mut self.slab, key.slot, Phase::Woken);
                false
            }
            _ => false,
        }
    }

    /// Puts a new task, queued last. Without memory nothing changes.
    #[tactic(auto, using(crate::proofs::Written::written, crate::proofs::Written::unwritten))]
    pub fn put(&mut self, number: u64, home: usize) -> Result<usize, AllocError>
        ensures vacant { IfOk result (λ slot. task_at self.old slot ≡ None) }
        ensures tasks { IfOk result (λ slot. task_at self.new ≡ with_slot slot
            (Some (record { number = number; phase = Phase.Queued; home = home }))
            (task_at self.old)) }
        ensures last { IfOk result (λ slot. self.new.queue ≡ self.old.queue ++ slot ∷ []) }
        ensures count { IfOk result (λ _. count self.new ≡ count self.old + 1) }
        ensures kept { OnErr result (task_at self.new ≡ task_at self.old) }
        ensures same_line { OnErr result (self.new.queue ≡ self.old.queue) }
        ensures same_count { OnErr result (count self.new ≡ count self.old) }
    {
        self.slab.reserve(1)?;
        let slot = self.slab.vacant_key();
        self.queue.reserve_key(slot)?;
        self.slab.insert_reserved(Task {
            number,
            phase: Phase::Queued,
            home,
        });
        self.queue.push_back(0, slot);
        Ok(slot)
    }

    /// The end of a pending poll: the task is idle, or queued last if it was woken meanwhile. Takes no memory.
    #[tactic(auto, using(crate::proofs::Written::written, crate::proofs::Written::unwritten))]
    pub fn pend(&mut self, key: TaskKey)
        ensures tasks { task_at self.new ≡ with_slot key.slot
            (after_step phase_after_pending key.number (task_at self.old key.slot))
            (task_at self.old) }
        ensures line { self.new.queue
            ≡ self.old.queue ++ slot_if (is_woken (phase_at key (task_at self.old))) key.slot }
        ensures count { count self.new ≡ count self.old }
    {
        match self.phase(key) {
            Some(Phase::Polling) => set_phase(&mut self.slab, key.slot, Phase::Idle),
            Some(Phase::Woken) => {
                set_phase(&mut self.slab, key.slot, Phase::Queued);
                self.queue.push_back(0, key.slot);
            }
            _ => {}
        }
    }

    /// A polled task is finished.
    #[tactic(auto, using(crate::proofs::Written::written, crate::proofs::Written::unwritten))]
    pub fn finish(&mut self, key: TaskKey)
        requires { in_poll (phase_at key (task_at self.old)) ≡ true }
        ensures tasks { task_at self.new ≡ with_slot key.slot None (task_at self.old) }
        ensures line { self.new.queue ≡ self.old.queue }
        ensures count { count self.new + 1 ≡ count self.old }
    {
        self.slab.remove(key.slot);
    }

    /// The task that was queued first enters its poll. There has to be one.
    #[tactic(auto, using(crate::proofs::Written::written, crate::proofs::Written::unwritten))]
    pub fn take(&mut self) -> Option<(TaskKey, usize)>
        ensures first { IfSome result (λ (key, home). self.old.queue ≡ key.slot ∷ self.new.queue) }
        ensures was { IfSome result (λ (key, home). task_at self.old key.slot
            ≡ Some (record { number = key.number; home = home; phase = Phase.Queued })) }
        ensures tasks { IfSome result (λ (key, home). task_at self.new ≡ with_slot key.slot
            (Some (record { number = key.number; home = home; phase = Phase.Polling }))
            (task_at self.old)) }
        ensures empty { IfNone result (self.old.queue ≡ []) }
        ensures same { IfNone result (self.new ≡ self.old) }
        ensures count { count self.new ≡ count self.old }
    {
        let slot = self.queue.front(0)?;
        let task = *self.slab.get(slot)?;
        self.queue.unlink(slot);
        set_phase(&mut self.slab, slot, Phase::Polling);
        let number = task.number;
        Some((TaskKey { slot, number }, task.home))
    }
}
