//! The cell of an executor: its tasks, their wakes and its turns.
ghost use Rattle.std.specs.Prelude.{◌≡◌, ◌<◌, ◌-◌, ◌^◌, is_some, true, IfSome};
ghost use Rattle.std.specs.Arc.{arc_value};

use super::{Desk, SharedBoard, close, post};
use calloop_slots::steps::Steps;
use calloop_wake::Tally;
use calloop_wake::cell::CellCore;
use calloop_wake::executor::{ExecutorCore, PutRefusal, PutTask, TaskTurn};
use calloop_wake::ghosts::Name;
use calloop_wake::homes::{Homes, PoppedTask};
use calloop_wake::locked::Locked;
use calloop_wake::tasks::{TaskKey, Tasks};
use std::alloc::Global;
use std::process::Abort;
use std::sync::{Arc, Wait};

#[test]
fn tasks_are_popped_in_the_order_in_which_they_were_put(rt: HostRuntime) {
    let mut desk = Desk::new(&rt, rt.alloc());
    let mut crew = Crew::new(&rt, rt.alloc(), &desk);
    assert!(rt; crew.registers(&rt, 7));
    assert_eq!(rt; crew.put(&rt, 10).marked, Some(true));
    let second = crew.put(&rt, 11);
    assert_eq!(rt; second.marked, Some(false));
    crew.core.stands();
    assert!(rt;
        crew.serves(
            &rt,
            rt.alloc(),
            &mut desk,
            &[PENDING, PENDING],
            &[10, 11],
            false
        )
    );
    assert!(rt; desk.is_quiet(&rt));
    assert!(rt; crew.wake(&rt, second.key) && !crew.wake(&rt, second.key));
    assert!(rt; crew.serves(&rt, rt.alloc(), &mut desk, &[PENDING], &[11], false));
    crew.leave(&rt);
}

#[test]
fn a_task_that_is_woken_in_its_poll_is_queued_once_more_behind_the_others(rt: HostRuntime) {
    let mut desk = Desk::new(&rt, rt.alloc());
    let mut crew = Crew::new(&rt, rt.alloc(), &desk);
    assert!(rt; crew.registers(&rt, 7));
    let woken = crew.put(&rt, 10);
    let other = crew.put(&rt, 11);
    assert_eq!(rt; (woken.marked, other.marked), (Some(true), Some(false)));
    let polls = [WOKEN, PENDING, PENDING];
    assert!(rt; crew.serves(&rt, rt.alloc(), &mut desk, &polls, &[10, 11, 10], false));
    assert!(rt; desk.is_quiet(&rt));
    crew.leave(&rt);
}

#[test]
fn a_finished_task_is_not_queued_and_its_slot_is_anothers(rt: HostRuntime) {
    let mut desk = Desk::new(&rt, rt.alloc());
    let mut crew = Crew::new(&rt, rt.alloc(), &desk);
    assert!(rt; crew.registers(&rt, 7));
    let first = crew.put(&rt, 10);
    assert!(rt; crew.serves(&rt, rt.alloc(), &mut desk, &[DONE], &[10], false));
    assert!(rt; !crew.wake(&rt, first.key) && desk.is_quiet(&rt));
    let next = crew.put(&rt, 11);
    assert_eq!(rt; next.key.slot, first.key.slot);
    assert!(rt; next.key != first.key);
    assert!(rt; crew.serves(&rt, rt.alloc(), &mut desk, &[PENDING], &[11], false));
    assert!(rt; !crew.wake(&rt, first.key) && crew.wake(&rt, next.key));
    crew.leave(&rt);
}

#[test]
fn a_turn_makes_1024_pops_and_then_pings(rt: HostRuntime) {
    let mut desk = Desk::new(&rt, rt.alloc());
    let mut crew = Crew::new(&rt, rt.alloc(), &desk);
    assert!(rt; crew.registers(&rt, 7));
    assert!(rt; crew.puts(&rt, 1_030));
    assert_eq!(rt;
        crew.count_served(&rt, rt.alloc(), &mut desk),
        (1_024, true)
    );
    assert_eq!(rt; crew.count_served(&rt, rt.alloc(), &mut desk), (6, false));
    assert!(rt; desk.is_quiet(&rt));
    crew.leave(&rt);
}

#[test]
fn a_task_that_is_queued_without_a_key_is_posted_with_the_next_one(rt: HostRuntime) {
    let mut desk = Desk::new(&rt, rt.alloc());
    let mut crew = Crew::new(&rt, rt.alloc(), &desk);
    assert!(rt; crew.registers(&rt, 7) && crew.unregisters(&rt));
    assert_eq!(rt; crew.put(&rt, 10).marked, Some(false));
    assert!(rt; crew.closes(&rt) && crew.registers(&rt, 8));
    assert!(rt; crew.serves(&rt, rt.alloc(), &mut desk, &[DONE], &[10], false));
    crew.leave(&rt);
}

#[test]
fn an_executor_that_is_gone_takes_no_task_and_wakes_none(rt: HostRuntime) {
    let desk = Desk::new(&rt, rt.alloc());
    let mut crew = Crew::new(&rt, rt.alloc(), &desk);
    assert!(rt; crew.registers(&rt, 7));
    let task = crew.put(&rt, 10);
    assert!(rt; crew.goes(&rt, task.key));
    assert_eq!(rt; desk.places(&rt), 0);
}

#[test]
fn a_task_is_woken_if_its_future_is_kept_after_a_turn_looked_for_it(rt: HostRuntime) {
    let mut desk = Desk::new(&rt, rt.alloc());
    let mut crew = Crew::new(&rt, rt.alloc(), &desk);
    assert!(rt; crew.registers(&rt, 7));
    assert!(rt; crew.keeps_late(&rt, rt.alloc(), &mut desk));
    assert!(rt; crew.serves(&rt, rt.alloc(), &mut desk, &[PENDING], &[0], false));
    assert!(rt; desk.is_quiet(&rt));
    crew.leave(&rt);
}

#[test]
fn each_task_of_a_table_is_queued_once(rt: HostRuntime) {
    let mut tasks = Tasks::new(rt.alloc()).expect(&rt, "a table");
    let slot = tasks.put(0, 10).expect(&rt, "a slot");
    let key = TaskKey { slot, number: 0 };
    tasks.queued_once(slot);
    assert!(rt; !tasks.wake(key));
    assert_eq!(rt; tasks.take(), Some((key, 10)));
    assert!(rt; !tasks.wake(key));
    tasks.pend(key);
    assert_eq!(rt; tasks.take(), Some((key, 10)));
    tasks.pend(key);
    assert_eq!(rt; tasks.take(), None);
    assert!(rt; tasks.wake(key));
}

// What a poll does: it may wake its task, twice, and it may be done.
#[derive(Clone, Copy)]
struct Polled {
    woken: bool,
    done: bool,
}

const PENDING: Polled = Polled {
    woken: false,
    done: false,
};

const WOKEN: Polled = Polled {
    woken: true,
    done: false,
};

const DONE: Polled = Polled {
    woken: false,
    done: true,
};

// What came of a put: the task's key and whether it set a new mark, if it was put.
#[derive(Drop)]
struct Put {
    key: TaskKey,
    marked: Option<bool>,
}

// An executor's cell, its receiving end, and the board of its keys. It has to leave before the test ends.
struct Crew {
    core: ExecutorCore,
    tally: Tally,
    name: Name,
    board: SharedBoard,
    alloc: Global,
    homes: Homes<()>,
    ghost tied: { tally.name ≡ core.name },
    ghost named: { core.name ≡ name },
    ghost housed: { homes.name ≡ core.name },
    ghost own: { is_some core.key ≡ true → core.board ≡ (arc_value board).tag },
}

impl Crew {
    fn new<R: Abort>(rt: &R, alloc: Global, desk: &Desk) -> Crew {
        let board = Arc::try_clone(&desk.board).expect(rt, "a board");
        let (core, name, right, keeping) = ExecutorCore::new(alloc).expect(rt, "a cell");
        let (homes, _name) = Homes::new(alloc, keeping);
        let tally = core.receiver(right);
        Crew {
            core,
            tally,
            name,
            board,
            alloc,
            homes,
        }
    }

    // Puts a task, and posts what is owed.
    fn put<R: Wait>(&mut self, rt: &R, home: usize) -> Put
        ensures { self.new.core.name ≡ self.old.core.name }
    {
        match self.core.put(home) {
            Ok(put) => {
                let PutTask { key, due: _, debt } = put;
                let marked = Some(post(rt, &self.board, debt));
                Put { key, marked }
            }
            Err(_) => Put {
                key: TaskKey { slot: 0, number: 0 },
                marked: None,
            },
        }
    }

    // Puts a task of the first place, and keeps its future only once a turn has looked for it: whether that turn missed it, and the
    // wake which the task needs sets a mark.
    fn keeps_late<R: Wait + Abort>(&mut self, rt: &R, alloc: Global, desk: &mut Desk) -> bool {
        let Some(Ok(place)) = self.homes.reserve() else {
            return false;
        };
        let PutTask { key: _, due, debt } = match self.core.put(place.home()) {
            Ok(put) => put,
            Err(_) => {
                let _none = self.homes.free(place);
                return false;
            }
        };
        post(rt, &self.board, debt);
        let pops = self.serves(rt, alloc, desk, &[PENDING], &[0], false);
        let (kept, _missed) = self.homes.keep(due, place, ());
        match kept {
            Ok(_receipt) => false,
            Err(task) => {
                let (_receipt, debt) = self.core.wake_missed(task);
                post(rt, &self.board, debt) && pops
            }
        }
    }

    // Puts as many tasks: whether all were put.
    fn puts<R: Wait>(&mut self, rt: &R, count: usize) -> bool {
        let mut all = true;
        for home in 0..count {
            all = self.put(rt, home).marked.is_some() && all;
        }
        all
    }

    // Wakes a task, and posts what is owed: whether that set a mark anew.
    fn wake<R: Wait>(&mut self, rt: &R, key: TaskKey) -> bool
        ensures { self.new.core.name ≡ self.old.core.name }
    {
        let debt = self.core.wake(key);
        post(rt, &self.board, debt)
    }

    // Opens a place, and gives the cell its key: whether it got one.
    fn registers<R: Wait>(&mut self, rt: &R, key: u64) -> bool
        requires { key < 2 ^ 64 - 1 }
    {
        let mut held = self.board.lock(rt);
        let opened = held.core().open_place(key);
        held.unlock();
        match opened {
            Ok(pass) => {
                let (debt, permit) = self.core.set_key(pass, &mut self.tally);
                post(rt, &self.board, debt);
                close(rt, &self.board, permit);
                true
            }
            Err(_) => false,
        }
    }

    // Takes the cell's key back, and closes its place: whether it had one.
    fn unregisters<R: Wait>(&mut self, rt: &R) -> bool {
        let permit = self.core.clear_key(&mut self.tally);
        close(rt, &self.board, permit)
    }

    // Its only scheduler comes and goes: whether that sets no mark.
    fn closes<R: Wait>(&mut self, rt: &R) -> bool {
        match self.core.add_sender() {
            Ok(sender) => {
                let debt = self.core.drop_sender(sender);
                !post(rt, &self.board, debt)
            }
            Err(_) => false,
        }
    }

    // One poll of a popped task.
    fn poll<R: Wait>(&mut self, rt: &R, key: TaskKey, polled: Polled) -> bool
        ensures { self.new.core.name ≡ self.old.core.name }
    {
        if polled.woken {
            self.wake(rt, key);
            self.wake(rt, key);
        }
        polled.done
    }

    // Opens a turn with the first marked key.
    fn open<R: Wait>(&mut self, rt: &R, alloc: Global, desk: &mut Desk) -> Option<TaskTurn>
        ensures turn { IfSome result (λ turn. (turn.name ≡ self.new.core.name)
            × (turn.progress.pops ≡ 0)) }
        ensures name { self.new.core.name ≡ self.old.core.name }
    {
        let mut passes = desk.take_passes(rt, alloc, &mut Steps::new()).ok()?;
        let first = passes.pop_front();
        while let Some(pass) = passes.pop_front() {
            post(rt, &desk.board, Some(pass.back()));
        }
        passes.destroy_empty();
        match self.core.open_turn(first?, &mut self.tally) {
            Ok(turn) => Some(turn),
            Err(pass) => {
                post(rt, &desk.board, Some(pass.back()));
                None
            }
        }
    }

    // Looks for the future of a popped task, and puts it back.
    fn look(&mut self, popped: PoppedTask)
        requires { popped.name ≡ self.old.core.name }
        ensures { self.new.core ≡ self.old.core }
    {
        if let Some(taken) = self.homes.take(popped, &mut self.tally) {
            let _none = self.homes.put_back(taken);
        }
    }

    // Makes all the pops that the turn may make, and ends it: whether that set a mark anew. The poll of a pop beyond the list is
    // pending.
    fn pop_all<R: Wait + Abort>(
        &mut self,
        rt: &R,
        turn: TaskTurn,
        polls: &[Polled],
        homes: &mut Vec<usize>,
    ) -> bool
        requires { (turn.name ≡ self.old.core.name) × (turn.progress.pops ≡ 0) }
        ensures { self.new.core.name ≡ self.old.core.name }
    {
        let mut turn = turn;
        let mut finished = false;
        while turn.goes_on() {
            assert!(rt; self.core.is_at(&turn));
            finished = match self.core.pop(&mut turn, &mut self.tally, finished) {
                Some(popped) => {
                    let (key, home) = (popped.key(), popped.home());
                    self.look(popped);
                    let polled = polls.get(homes.len()).copied().unwrap_or(PENDING);
                    let _ = homes.push(home);
                    self.poll(rt, key, polled)
                }
                None => false,
            };
        }
        assert!(rt; self.core.is_at(&turn));
        let debt = self.core.end_turn(turn, &mut self.tally, finished);
        post(rt, &self.board, debt)
    }

    // What a turn pops, and whether its end sets a mark anew.
    fn serve<R: Wait + Abort>(
        &mut self,
        rt: &R,
        alloc: Global,
        desk: &mut Desk,
        polls: &[Polled],
    ) -> (Vec<usize>, bool)
        ensures { self.new.core.name ≡ self.old.core.name }
    {
        let mut homes = Vec::new(alloc);
        let posted = match self.open(rt, alloc, desk) {
            Some(turn) => self.pop_all(rt, turn, polls, &mut homes),
            None => false,
        };
        (homes, posted)
    }

    // Whether a turn pops just these, and its end sets a mark anew.
    fn serves<R: Wait + Abort>(
        &mut self,
        rt: &R,
        alloc: Global,
        desk: &mut Desk,
        polls: &[Polled],
        wanted: &[usize],
        marked: bool,
    ) -> bool
        ensures { self.new.core.name ≡ self.old.core.name }
    {
        let (homes, posted) = self.serve(rt, alloc, desk, polls);
        homes.as_slice() == wanted && posted == marked
    }

    // How many tasks a turn pops whose polls are all pending, and whether its end sets a mark anew.
    fn count_served<R: Wait + Abort>(
        &mut self,
        rt: &R,
        alloc: Global,
        desk: &mut Desk,
    ) -> (usize, bool) {
        let (homes, posted) = self.serve(rt, alloc, desk, &[]);
        (homes.len(), posted)
    }

    // The executor goes, and its place is closed: whether it takes no task then, and wakes none.
    fn goes<R: Wait>(self, rt: &R, key: TaskKey) -> bool {
        let Crew {
            mut core,
            tally,
            name,
            board,
            alloc,
            homes,
        } = self;
        close(rt, &board, core.abandon(tally));
        let woken = core.wake(key);
        let marked = post(rt, &board, woken);
        let refused = match core.put(1) {
            Ok(put) => {
                let PutTask {
                    key: _,
                    due: _,
                    debt,
                } = put;
                post(rt, &board, debt);
                false
            }
            Err(refusal) => refusal == PutRefusal::Gone,
        };
        drop(Locked::new(alloc, core, &name));
        drop(Locked::new(alloc, homes, &name));
        refused && !marked
    }

    fn leave<R: Wait>(self, rt: &R) {
        let Crew {
            mut core,
            tally,
            name,
            board,
            alloc,
            homes,
        } = self;
        close(rt, &board, core.abandon(tally));
        drop(Locked::new(alloc, core, &name));
        drop(Locked::new(alloc, homes, &name));
    }
}
