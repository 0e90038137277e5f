//! Random calls, and plain lists that say what is to come of them.
ghost use Rattle.std.specs.Prelude.{◌<◌, ◌-◌, ◌^◌};

use super::{Desk, Ends, arm_again, at, claims, post, registration};
use calloop_slots::list::SourceList;
use calloop_slots::steps::Steps;
use calloop_slots::token::Token;
use calloop_slots::wheel::{Entry, TimerWheel};
use std::alloc::{AllocError, Global};
use std::process::Abort;
use std::sync::Wait;
use std::test::Fail;

#[test]
fn random_calls_of_a_wheel_are_those_of_a_list(rt: HostRuntime) -> Result<(), Fail> {
    let mut draws = Draws { state: 1 };
    let mut wheel = TimerWheel::new(rt.alloc());
    let mut armed = Vec::new(rt.alloc());
    for i in 0..400 {
        assert!(rt;
            makes_one_call(&mut wheel, &mut armed, &mut draws),
            "call {i}"
        );
        let counter = draws.below(100);
        assert_eq!(rt;
            wheel.is_armed(counter),
            armed.iter().any(|pair| pair.1 == counter)
        );
        assert_eq!(rt; wheel.len(), armed.len());
    }
    Ok(())
}

#[test]
fn random_claims_of_slots_are_those_of_a_search(rt: HostRuntime) {
    let mut draws = Draws { state: 3 };
    let mut list = SourceList::new(rt.alloc());
    let mut slots = Vec::new(rt.alloc());
    for i in 0..4_500 {
        assert!(rt; claims_the_first(&mut list, &mut slots), "slot {i}");
    }
    for i in 0..3_000 {
        assert!(rt;
            claims_or_vacates(&mut list, &mut slots, &mut draws),
            "call {i}"
        );
    }
}

#[test]
fn of_many_pings_the_rung_ones_come_in_order(rt: HostRuntime) {
    let mut desk = Desk::new(&rt, rt.alloc());
    let cells = many_cells(&rt, rt.alloc(), &desk, 100);
    for key in [90, 5, 40] {
        assert!(rt; rings(&rt, &cells, key), "{key}");
    }
    assert!(rt; gives(&rt, rt.alloc(), &mut desk, &[5, 40, 90]));
    leave_all(&rt, cells);
}

#[test]
fn random_calls_of_a_board_are_those_of_a_list(rt: HostRuntime) -> Result<(), Fail> {
    // All keys in one slot, three in each slot, and each in its own.
    for in_a_slot in [100, 3, 1] {
        calls_a_board(&rt, rt.alloc(), in_a_slot)?;
    }
    Ok(())
}

fn calls_a_board<R: Wait + Abort>(rt: &R, alloc: Global, in_a_slot: u64) -> Result<(), Fail>
    requires { 0 < in_a_slot }
{
    let mut draws = Draws { state: 2 };
    let mut states = many_states(alloc)?;
    let mut desk = Desk::new(rt, alloc);
    let mut cells = many_cells(rt, alloc, &desk, in_a_slot);
    for i in 0..200 {
        let cell = draws.below(12);
        let which = draws.below(3);
        assert!(rt;
            calls_a_cell(rt, &mut cells, &mut states, cell, in_a_slot, which),
            "call {i}"
        );
        assert!(rt;
            gives_the_posted(rt, alloc, &mut desk, &states, in_a_slot),
            "call {i}"
        );
    }
    leave_all(rt, cells);
    Ok(())
}

// The key of one of a hundred cells, if so many have keys in one slot.
fn key_of_cell(cell: u64, in_a_slot: u64) -> u64
    requires cell { cell < 100 }
    requires slot { 0 < in_a_slot }
    ensures { result < 2 ^ 64 - 1 }
{
    let slot = cell / in_a_slot;
    slot * 0x100_0000_0000 + cell % in_a_slot
}

// What a cell came to.
#[derive(Clone, Copy, Drop)]
struct State {
    open: bool,
    rung: bool,
}

// A hundred that are open, and weren't rung.
fn many_states(alloc: Global) -> Result<Vec<State>, AllocError> {
    let mut states = Vec::new(alloc);
    for _ in 0..100 {
        states.push(State {
            open: true,
            rung: false,
        })?;
    }
    Ok(states)
}

// Rings this cell, takes its key, or gives that back: whether that went right.
fn calls_a_cell<R: Wait>(
    rt: &R,
    cells: &mut [Ends],
    states: &mut [State],
    of: u64,
    in_a_slot: u64,
    which: u64,
) -> bool
    requires of { of < 12 }
    requires slot { 0 < in_a_slot }
{
    let (Some(cell), Some(state)) = (cells.get_mut(of as usize), states.get_mut(of as usize)) else {
        return false;
    };
    match which {
        0 => {
            let sets_a_mark = cell.ring(rt);
            let is_first = !state.rung;
            state.rung = true;
            sets_a_mark == (is_first && state.open)
        }
        1 => {
            let was_open = state.open;
            state.open = false;
            cell.unregister(rt) == was_open
        }
        _ => {
            let was_open = state.open;
            state.open = true;
            was_open || cell.registers(rt, key_of_cell(of, in_a_slot))
        }
    }
}

// Whether just the keys of the cells that are open and were rung are taken.
fn gives_the_posted<R: Wait>(
    rt: &R,
    alloc: Global,
    desk: &mut Desk,
    states: &[State],
    in_a_slot: u64,
) -> bool
    requires { 0 < in_a_slot }
{
    let mut posted = Vec::new(alloc);
    for (cell, state) in states.iter().enumerate() {
        let key = key_of_cell(cell as u64 % 100, in_a_slot);
        if state.open && state.rung && posted.push(key).is_err() {
            return false;
        }
    }
    desk.is_quiet(rt) == posted.is_empty() && gives(rt, alloc, desk, &posted)
}

fn leave_all<R: Wait>(rt: &R, cells: Vec<Ends>) {
    let mut cells = cells;
    while let Some(cell) = cells.pop() {
        cell.leave(rt);
    }
    cells.destroy_empty();
}

// A hundred cells, so many of which have keys in one slot.
fn many_cells<R: Wait + Abort>(rt: &R, alloc: Global, desk: &Desk, in_a_slot: u64) -> Vec<Ends>
    requires { 0 < in_a_slot }
{
    let mut cells = Vec::new(alloc);
    for i in 0..100u64 {
        let mut cell = Ends::new(rt, alloc, desk);
        assert!(rt; cell.registers(rt, key_of_cell(i, in_a_slot)));
        if let Err(failed) = cells.push(cell) {
            failed.value.leave(rt);
        }
    }
    cells
}

// Rings the cell of this key: whether that set a mark.
fn rings<R: Wait>(rt: &R, cells: &[Ends], key: usize) -> bool {
    match cells.get(key) {
        Some(cell) => cell.ring(rt),
        None => false,
    }
}

// Whether just these keys are taken, in this order and by one look-up each. They are posted again.
fn gives<R: Wait>(rt: &R, alloc: Global, desk: &mut Desk, wanted: &[u64]) -> bool {
    let mut steps = Steps::new();
    let Ok(mut passes) = desk.take_passes(rt, alloc, &mut steps) else {
        return false;
    };
    let mut found = 0;
    let mut is_wanted = true;
    while let Some(pass) = passes.pop_front() {
        is_wanted = is_wanted && wanted.get(found) == Some(&pass.key());
        found = found.saturating_add(1);
        post(rt, &desk.board, Some(pass.back()));
    }
    passes.destroy_empty();
    is_wanted && found == wanted.len() && steps.count() == found as u64
}

// A linear congruential generator, with the numbers of Knuth's MMIX.
#[derive(Drop)]
struct Draws {
    state: u64,
}

impl Draws {
    // The next draw, less than this.
    fn below(&mut self, limit: u64) -> u64
        requires { 0 < limit }
        ensures { result < limit }
    {
        self.state = self
            .state
            .wrapping_mul(6_364_136_223_846_793_005)
            .wrapping_add(1_442_695_040_888_963_407);
        (self.state >> 33) % limit
    }
}

// Makes a call of the wheel that is drawn, and the same of the list of deadlines and counters. Whether they agree.
fn makes_one_call(wheel: &mut TimerWheel, armed: &mut Vec<(u64, u64)>, draws: &mut Draws) -> bool {
    let deadline = draws.below(8);
    let counter = draws.below(100);
    match draws.below(5) {
        0 | 1 => match wheel.insert(at(deadline), Token::from_key(0)) {
            Ok(given) => armed.push((deadline, given)).is_ok(),
            Err(_) => false,
        },
        2 => {
            let is_new = !wheel.is_armed(counter) && arm_again(wheel, counter, deadline).is_ok();
            !is_new || armed.push((deadline, counter)).is_ok()
        }
        3 => {
            wheel.cancel(counter);
            armed.retain(|pair| pair.1 != counter);
            true
        }
        _ => gives_the_first(wheel, armed, deadline),
    }
}

// True if the wheel returns the least of the list when that is due by now; both lose it.
fn gives_the_first(wheel: &mut TimerWheel, armed: &mut Vec<(u64, u64)>, now: u64) -> bool {
    let first = armed.iter().min().copied();
    let is_known = wheel.next_deadline() == first.map(|pair| at(pair.0));
    let due = first.filter(|pair| pair.0 <= now);
    let given = wheel.next_expired(at(now));
    if let Some(pair) = due {
        armed.retain(|other| *other != pair);
    }
    is_known && given.map(|entry: Entry| (entry.deadline.nanos, entry.counter)) == due
}

// A slot of the list that is searched.
#[derive(Clone, Copy, Drop)]
struct PlainSlot {
    version: u32,
    vacant: bool,
}

// Claims the first vacant slot that a search finds, or a new one. Whether the list gives the same.
fn claims_the_first(list: &mut SourceList<u8>, slots: &mut Vec<PlainSlot>) -> bool {
    let place = slots.iter().take_while(|slot| !slot.vacant).count();
    let mut version = 0;
    if let Some(slot) = slots.get_mut(place) {
        slot.vacant = false;
        slot.version = slot.version.wrapping_add(1);
        version = slot.version;
    } else {
        let vacant = false;
        if slots.push(PlainSlot { version, vacant }).is_err() {
            return false;
        }
    }
    match u32::try_from(place) {
        Ok(place) => claims(list, registration(place, version)),
        Err(_) => false,
    }
}

// Claims a slot, or more often vacates one that is drawn. Whether the list does as the one that is searched.
fn claims_or_vacates(
    list: &mut SourceList<u8>,
    slots: &mut Vec<PlainSlot>,
    draws: &mut Draws,
) -> bool {
    if draws.below(3) == 0 {
        return claims_the_first(list, slots);
    }
    let place = draws.below(4_500);
    let Some(slot) = slots.get_mut(place as usize) else {
        return false;
    };
    slot.vacant = true;
    list.vacate(registration(place as u32, slot.version));
    true
}
