ghost use Rattle.std.specs.Prelude.{◌≡◌, ◌<◌, ◌-◌, ◌^◌, None, IfOk, IfErr, IfSome};
ghost use Rattle.std.specs.Arc.{arc_value};
ghost use Rattle.calloop_wake.specs.Passes.{AreOf};

use calloop_slots::error::{Error, InsertError};
use calloop_slots::list::SourceList;
use calloop_slots::steps::Steps;
use calloop_slots::token::{
    RegistrationToken, Token, TokenFactory, factory_tokens_differ, keys_differ, slot_of_key,
};
use calloop_slots::wheel::{ArmRefusal, Instant, TimerWheel};
use calloop_slots::widths::{MOST_SLOTS, VERSIONS};
use calloop_wake::board::{Board, OpenRefusal};
use calloop_wake::cell::CellCore;
use calloop_wake::ghosts::Name;
use calloop_wake::locked::{Core, Locked};
use calloop_wake::ping::{OpenedTurn, PingCore};
use calloop_wake::watch::Watch;
use calloop_wake::{
    ClosePermit, Debt, Last, Notify, OpenedPass, PingTurn, Sender, TakenPass, Tally,
};
use counted_slot::Fits;
use std::alloc::{AllocError, Global};
use std::collections::VecDeque;
use std::fmt::Display;
use std::process::Abort;
use std::sync::atomic::{AtomicBool, Ordering};
use std::sync::{Arc, Wait};
use std::test::Fail;
use std::{io, thread};

mod channels;
mod executors;
mod locks;
mod plain;

#[test]
fn a_refusal_shows_its_text_and_so_does_its_io_error(rt: HostRuntime) {
    let refusals = [
        (
            Error::InvalidToken,
            "invalid token provided to internal function",
        ),
        (Error::OutOfMemory, "out of memory"),
        (Error::TooManySources, "too many event sources"),
        (Error::TooManyTokens, "too many tokens for one event source"),
        (Error::TooManyTimers, "too many timers"),
        (Error::TooManyTickets, "too many requests"),
        (Error::OwnTurn, "the source is in its turn"),
        (Error::NoRendezvous, "a channel of bound 0 is not supported"),
    ];
    for (refusal, text) in refusals {
        assert!(rt; shows(rt.alloc(), &refusal, text));
        assert!(rt;
            shows(rt.alloc(), &io::Error::from(refusal), text),
            "{text}"
        );
    }
}

#[test]
fn a_refusal_has_the_kind_of_its_io_error(rt: HostRuntime) {
    let kinds = [
        (Error::InvalidToken, io::ErrorKind::InvalidInput),
        (Error::OutOfMemory, io::ErrorKind::Other),
        (Error::TooManySources, io::ErrorKind::Other),
        (Error::TooManyTokens, io::ErrorKind::Other),
        (Error::TooManyTimers, io::ErrorKind::Other),
        (Error::TooManyTickets, io::ErrorKind::Other),
        (Error::OwnTurn, io::ErrorKind::Other),
        (Error::NoRendezvous, io::ErrorKind::Other),
    ];
    for (refusal, kind) in kinds {
        assert_eq!(rt; io::Error::from(refusal).kind(), kind);
    }
}

#[test]
fn a_cause_is_shown_after_what_it_refused(rt: HostRuntime) {
    let cause = not_found();
    assert!(rt; shows(rt.alloc(), &cause, "underlying IO error: gone"));
    let refused = InsertError {
        inserted: 5u8,
        error: cause,
    };
    let text = "error inserting event source: underlying IO error: gone";
    assert!(rt; shows(rt.alloc(), &refused, text));
}

#[test]
fn a_refused_insertion_keeps_the_kind_of_its_cause(rt: HostRuntime) {
    let refused = InsertError {
        inserted: 5u8,
        error: not_found(),
    };
    let made = io::Error::from(Error::from(refused));
    assert_eq!(rt; made.kind(), io::ErrorKind::NotFound);
}

#[test]
fn a_refused_insertion_is_debugged_as_its_refusal(rt: HostRuntime) -> Result<(), Fail> {
    let bare = InsertError {
        inserted: 5u8,
        error: Error::OutOfMemory,
    };
    assert_eq!(rt; format!(in rt.alloc(); "{bare:?}")?.as_str(), "OutOfMemory");
    Ok(())
}

#[test]
fn a_key_holds_slot_version_and_sub_id(rt: HostRuntime) {
    let table = [
        (1_099_511_758_851, 1, 2),
        (65_536, 0, 1),
        (18_446_744_073_709_551_614, 16_777_215, 16_777_215),
        (4_295_098_371, 0, 65_538),
    ];
    for (key, slot, version) in table {
        let token = Token::from_key(key);
        assert_eq!(rt; token.key(), key);
        assert_eq!(rt; token.registration(), registration(slot, version));
        assert_eq!(rt; slot_of_key(key), slot as usize);
    }
}

#[test]
fn the_last_token_of_a_factory_has_its_key(rt: HostRuntime) {
    let table = [
        (1, 2, 4, 1_099_511_758_851),
        (0, 1, 1, 65_536),
        (16_777_215, 16_777_215, 65_535, 18_446_744_073_709_551_614),
        (0, 65_538, 4, 4_295_098_371),
    ];
    for (slot, version, count, key) in table {
        let mut factory = TokenFactory::new(registration(slot, version));
        let mut last = None;
        for _ in 0..count {
            last = factory.token().ok();
        }
        assert_eq!(rt; last.map(|token: Token| token.key()), Some(key));
    }
}

#[test]
fn a_factory_that_gave_65535_tokens_refuses(rt: HostRuntime) {
    let mut factory = TokenFactory::new(RegistrationToken::new(1, 2));
    let mut last = None;
    for _ in 0..65_535 {
        last = factory.token().ok();
        assert!(rt; last.is_some());
    }
    assert_eq!(rt; last, Some(Token::from_key(1_099_511_824_382)));
    for _ in 0..2 {
        assert!(rt; matches!(factory.token(), Err(Error::TooManyTokens)));
    }
}

#[test]
fn two_tokens_of_a_factory_differ(rt: HostRuntime) {
    keys_differ();
    factory_tokens_differ();
    let mut factory = TokenFactory::new(RegistrationToken::new(1, 2));
    assert_eq!(rt; factory.registration(), RegistrationToken::new(1, 2));
    let first = factory.token().expect(&rt, "a token");
    let second = factory.token().expect(&rt, "another token");
    assert_eq!(rt; factory.tokens_given(), 2);
    assert!(rt; first != second);
    assert_eq!(rt;
        (first.key(), second.key()),
        (1_099_511_758_848, 1_099_511_758_849)
    );
}

#[test]
fn claimed_slots_count_up(rt: HostRuntime) {
    let mut list = SourceList::<u8>::new(rt.alloc());
    for slot in 0..3 {
        assert!(rt; claims(&mut list, registration(slot, 0)), "{slot}");
    }
}

#[test]
fn a_source_in_its_slot_can_be_changed(rt: HostRuntime) {
    let mut list = SourceList::new(rt.alloc());
    let token = list.vacant_entry(&mut Steps::new()).expect(&rt, "a slot");
    assert_eq!(rt; list.end_turn(token, 5u8), None);
    if let Ok(source) = list.get_mut(token) {
        *source = 6;
    }
    assert!(rt; matches!(list.get(token), Some(6)));
    assert!(rt; is_no_token(&list, RegistrationToken::new(0, 1)));
}

#[test]
fn a_source_in_its_turn_is_not_found(rt: HostRuntime) {
    let mut list = SourceList::new(rt.alloc());
    let token = list.vacant_entry(&mut Steps::new()).expect(&rt, "a slot");
    assert_eq!(rt; list.end_turn(token, 6u8), None);
    assert_eq!(rt; list.begin_turn(token), Some(6));
    assert_eq!(rt; list.begin_turn(token), None);
    assert!(rt; is_no_token(&list, token));
}

#[test]
fn a_vacated_slot_hands_its_source_back(rt: HostRuntime) {
    let mut list = SourceList::new(rt.alloc());
    let token = list.vacant_entry(&mut Steps::new()).expect(&rt, "a slot");
    list.vacate(token);
    assert_eq!(rt; list.end_turn(token, 6u8), Some(6));
    assert!(rt; is_no_token(&list, token));
}

#[test]
fn vacated_slots_are_claimed_from_the_front(rt: HostRuntime) {
    let mut list = SourceList::new(rt.alloc());
    for slot in 0..70 {
        assert!(rt; claims(&mut list, registration(slot, 0)), "{slot}");
    }
    for slot in [65, 3, 69] {
        list.vacate(registration(slot, 0));
    }
    for (slot, version) in [(3, 1), (65, 1), (69, 1), (70, 0)] {
        let token = registration(slot, version);
        assert!(rt; claims(&mut list, token), "{slot}");
    }
}

#[test]
fn a_slot_that_is_used_65536_times_again_has_no_source_for_its_first_token(rt: HostRuntime) {
    let first = RegistrationToken::new(0, 0);
    let mut list = SourceList::new(rt.alloc());
    let mut token = list.vacant_entry(&mut Steps::new()).expect(&rt, "a slot");
    assert_eq!(rt; token, first);
    for version in 1..65_537 {
        list.vacate(token);
        token = registration(0, version);
        assert!(rt; claims(&mut list, token), "{version}");
    }
    assert_eq!(rt; list.end_turn(token, 7u8), None);
    assert!(rt; is_no_token(&list, first));
    assert!(rt; matches!(list.get(token), Some(7)));
}

#[test]
fn two_rings_before_a_turn_are_told_once(rt: HostRuntime) {
    let mut desk = Desk::new(&rt, rt.alloc());
    let mut cell = Ends::new(&rt, rt.alloc(), &desk);
    assert!(rt; cell.registers(&rt, 7) && desk.is_quiet(&rt));
    assert!(rt; cell.ring(&rt));
    assert!(rt; !cell.ring(&rt));
    assert!(rt; !desk.is_quiet(&rt));
    assert!(rt; cell.serves(&rt, rt.alloc(), &mut desk, &[RUNG]));
    assert!(rt; desk.is_quiet(&rt));
    cell.leave(&rt);
}

#[test]
fn a_second_place_for_a_key_is_refused(rt: HostRuntime) {
    let mut desk = Desk::new(&rt, rt.alloc());
    let mut cell = Ends::new(&rt, rt.alloc(), &desk);
    let mut other = Ends::new(&rt, rt.alloc(), &desk);
    assert!(rt; cell.registers(&rt, 7));
    assert_eq!(rt; other.register(&rt, 7), Err(OpenRefusal::AlreadyExists));
    assert!(rt; other.registers(&rt, 5));
    assert_eq!(rt; desk.places(&rt), 2);
    cell.leave(&rt);
    other.leave(&rt);
}

#[test]
fn a_pass_that_another_cell_refuses_goes_back(rt: HostRuntime) {
    let mut desk = Desk::new(&rt, rt.alloc());
    let mut cell = Ends::new(&rt, rt.alloc(), &desk);
    let mut other = Ends::new(&rt, rt.alloc(), &desk);
    assert!(rt; cell.registers(&rt, 7) && other.registers(&rt, 5));
    assert!(rt; cell.ring(&rt));
    assert!(rt; other.serves(&rt, rt.alloc(), &mut desk, &[REFUSED]));
    assert!(rt; !desk.is_quiet(&rt));
    assert!(rt; cell.serves(&rt, rt.alloc(), &mut desk, &[RUNG]));
    cell.leave(&rt);
    other.leave(&rt);
}

#[test]
fn a_ring_goes_with_its_cell_to_another_key(rt: HostRuntime) {
    let mut desk = Desk::new(&rt, rt.alloc());
    let mut cell = Ends::new(&rt, rt.alloc(), &desk);
    assert!(rt; cell.registers(&rt, 7));
    assert!(rt; cell.ring(&rt));
    assert!(rt; cell.registers(&rt, 6));
    assert_eq!(rt; desk.places(&rt), 1);
    assert!(rt; cell.serves(&rt, rt.alloc(), &mut desk, &[RUNG]));
    cell.leave(&rt);
}

#[test]
fn a_cell_stands_before_a_ring_and_after_it(rt: HostRuntime) {
    let mut desk = Desk::new(&rt, rt.alloc());
    let mut cell = Ends::new(&rt, rt.alloc(), &desk);
    cell.stands(&rt);
    assert!(rt; !cell.ring(&rt));
    cell.stands(&rt);
    assert!(rt; cell.registers(&rt, 7));
    assert!(rt; !desk.is_quiet(&rt));
    cell.stands(&rt);
    cell.leave(&rt);
}

#[test]
fn a_late_debt_marks_the_next_cell_of_its_key(rt: HostRuntime) {
    let mut desk = Desk::new(&rt, rt.alloc());
    let mut cell = Ends::new(&rt, rt.alloc(), &desk);
    let mut other = Ends::new(&rt, rt.alloc(), &desk);
    assert!(rt; cell.registers(&rt, 7));
    let of_seven = ring(&rt, &cell.lock);
    assert!(rt; cell.registers(&rt, 8) && other.registers(&rt, 7));
    let again = ring(&rt, &other.lock);
    assert!(rt; post(&rt, &cell.board, of_seven));
    assert!(rt; !post(&rt, &other.board, again));
    cell.leave(&rt);
    other.leave(&rt);
}

#[test]
fn a_late_debt_of_a_closed_place_wakes_nobody(rt: HostRuntime) {
    let mut desk = Desk::new(&rt, rt.alloc());
    let mut cell = Ends::new(&rt, rt.alloc(), &desk);
    assert!(rt; cell.registers(&rt, 5));
    let of_five = ring(&rt, &cell.lock);
    assert!(rt; cell.registers(&rt, 6));
    assert!(rt; !post(&rt, &cell.board, of_five));
    cell.leave(&rt);
}

#[test]
fn a_ring_without_a_key_is_posted_with_the_next_one(rt: HostRuntime) {
    let mut desk = Desk::new(&rt, rt.alloc());
    let mut cell = Ends::new(&rt, rt.alloc(), &desk);
    assert!(rt; cell.registers(&rt, 7));
    assert!(rt; cell.unregister(&rt));
    assert!(rt; !cell.unregister(&rt));
    assert_eq!(rt; desk.places(&rt), 0);
    assert!(rt; !cell.ring(&rt));
    assert!(rt; cell.registers(&rt, 7));
    assert!(rt; !desk.is_quiet(&rt));
    cell.leave(&rt);
}

#[test]
fn an_end_that_is_gone_leaves_no_place(rt: HostRuntime) {
    let mut desk = Desk::new(&rt, rt.alloc());
    let mut cell = Ends::new(&rt, rt.alloc(), &desk);
    assert_eq!(rt; cell.tally.key(), None);
    assert!(rt; cell.registers(&rt, 7));
    assert_eq!(rt; cell.tally.key(), Some(7));
    let (had_key, rings) = cell.abandon(&rt);
    assert!(rt; had_key && !rings);
    assert_eq!(rt; desk.places(&rt), 0);
}

#[test]
fn the_last_sender_closes_and_the_one_before_does_not(rt: HostRuntime) {
    let mut desk = Desk::new(&rt, rt.alloc());
    let mut cell = Ends::new(&rt, rt.alloc(), &desk);
    assert!(rt; cell.registers(&rt, 7));
    let first = cell.add_sender(&rt).expect(&rt, "a sender");
    let second = cell.add_sender(&rt).expect(&rt, "a sender");
    assert!(rt; !cell.drop_sender(&rt, first));
    assert!(rt; cell.drop_sender(&rt, second));
    cell.stands(&rt);
    assert!(rt; cell.serves(&rt, rt.alloc(), &mut desk, &[TOLD]));
    cell.leave(&rt);
}

#[test]
fn a_close_is_told_once(rt: HostRuntime) {
    let mut desk = Desk::new(&rt, rt.alloc());
    let mut cell = Ends::new(&rt, rt.alloc(), &desk);
    assert!(rt; cell.registers(&rt, 7) && cell.close(&rt));
    assert!(rt; cell.serves(&rt, rt.alloc(), &mut desk, &[TOLD]));
    assert!(rt; desk.is_quiet(&rt));
    assert!(rt; cell.ring(&rt));
    assert!(rt; cell.serves(&rt, rt.alloc(), &mut desk, &[RUNG]));
    cell.leave(&rt);
}

#[test]
fn a_close_after_a_ring_is_told_with_it(rt: HostRuntime) {
    let mut desk = Desk::new(&rt, rt.alloc());
    let mut cell = Ends::new(&rt, rt.alloc(), &desk);
    assert!(rt; cell.registers(&rt, 7) && cell.ring(&rt));
    assert!(rt; !cell.close(&rt));
    assert!(rt; cell.serves(&rt, rt.alloc(), &mut desk, &[RUNG_AND_TOLD]));
    cell.leave(&rt);
}

#[test]
fn a_close_without_a_key_is_told_with_the_next_one(rt: HostRuntime) {
    let mut desk = Desk::new(&rt, rt.alloc());
    let mut cell = Ends::new(&rt, rt.alloc(), &desk);
    assert!(rt; !cell.close(&rt));
    assert!(rt; desk.is_quiet(&rt));
    assert!(rt; cell.registers(&rt, 8));
    assert!(rt; cell.serves(&rt, rt.alloc(), &mut desk, &[TOLD]));
    cell.leave(&rt);
}

#[test]
fn a_turn_within_a_turn_is_refused(rt: HostRuntime) {
    let mut desk = Desk::new(&rt, rt.alloc());
    let mut cell = Ends::new(&rt, rt.alloc(), &desk);
    assert!(rt; cell.registers(&rt, 7) && cell.ring(&rt));
    assert!(rt; cell.serves_within(&rt, rt.alloc(), &mut desk, &[REFUSED]));
    assert!(rt; cell.serves(&rt, rt.alloc(), &mut desk, &[RUNG]));
    cell.leave(&rt);
}

#[test]
fn a_ring_of_a_second_thread_is_seen(rt: HostRuntime) {
    let its_rt = rt.clone().expect(&rt, "a runtime");
    let mut desk = Desk::new(&rt, rt.alloc());
    let mut cell = Ends::new(&rt, rt.alloc(), &desk);
    let button = cell.button(&rt);
    let child = thread::spawn(&rt, move || button.press(&its_rt)).expect(&rt, "a thread");
    assert!(rt; !child.join(&rt));
    assert!(rt; cell.registers(&rt, 7));
    assert!(rt; !desk.is_quiet(&rt));
    cell.leave(&rt);
}

#[test]
fn deadlines_come_due_in_order(rt: HostRuntime) {
    let mut wheel = wheel_of(&rt, rt.alloc(), &[30, 10, 20, 10]);
    wheel.keeps_order();
    assert_eq!(rt; wheel.len(), 4);
    assert_eq!(rt; wheel.next_deadline(), Some(at(10)));
    assert!(rt; has_due(&mut wheel, 9, &[]));
    assert!(rt; has_due(&mut wheel, 29, &[(10, 1), (10, 3), (20, 2)]));
    assert!(rt; has_due(&mut wheel, 30, &[(30, 0)]));
    assert_eq!(rt; wheel.next_deadline(), None);
}

#[test]
fn a_cancelled_counter_can_be_armed_again(rt: HostRuntime) {
    let mut wheel = wheel_of(&rt, rt.alloc(), &[20, 20, 30]);
    wheel.cancel(1);
    assert!(rt; wheel.is_armed(0) && !wheel.is_armed(1) && wheel.is_armed(2));
    assert!(rt; arm_again(&mut wheel, 1, 10).is_ok());
    assert_eq!(rt; wheel.len(), 3);
    assert!(rt; has_due(&mut wheel, 20, &[(10, 1), (20, 0)]));
}

#[test]
fn a_counter_that_was_never_given_is_refused(rt: HostRuntime) {
    let mut wheel = wheel_of(&rt, rt.alloc(), &[20, 20, 30]);
    assert!(rt;
        matches!(
            arm_again(&mut wheel, 3, 10),
            Err(ArmRefusal::UnknownCounter)
        )
    );
    assert_eq!(rt; wheel.len(), 3);
    assert_eq!(rt; wheel.insert(at(40), Token::from_key(0)).ok(), Some(3));
}

#[test]
fn a_moment_past_the_last_is_none(rt: HostRuntime) {
    assert_eq!(rt; at(5).checked_add(std::time::Duration::MAX), None);
}

// Whether this is what is shown of it.
fn shows<T: Display>(alloc: Global, shown: &T, text: &str) -> bool {
    match format!(in alloc; "{shown}") {
        Ok(found) => found.as_str() == text,
        Err(_) => false,
    }
}

// A refusal by the system.
fn not_found() -> Error {
    Error::from(io::Error::new(io::ErrorKind::NotFound, "gone"))
}

// The registration of these numbers, modulo how many there are.
fn registration(slot: u32, version: u32) -> RegistrationToken {
    RegistrationToken::new(slot % MOST_SLOTS as u32, version % VERSIONS as u32)
}

// Whether the next claim gives this token, and reads four words at most.
fn claims(list: &mut SourceList<u8>, token: RegistrationToken) -> bool {
    let mut steps = Steps::new();
    let claimed = list.vacant_entry(&mut steps);
    matches!(claimed, Ok(given) if given == token) && steps.count() <= 4
}

fn is_no_token(list: &SourceList<u8>, token: RegistrationToken) -> bool {
    list.get(token).is_none()
}

// A board under its lock, and the loop's watch of it.
#[derive(Drop)]
struct Desk {
    board: SharedBoard,
    name: Name,
    watch: Watch,
    ghost tied: { watch.name ≡ (arc_value board).tag },
    ghost named: { name ≡ (arc_value board).tag },
}

type SharedBoard = Arc<Locked<Board>, Global>;

// The names of a cell, and of the board of its keys.
#[derive(Drop)]
struct Names {
    cell: Name,
    board: Name,
}

// A cell all of whose keys are of one board.
struct OneBoard {
    core: PingCore,
}

impl Fits for OneBoard {
    ghost use Rattle.std.specs.Prelude.{◌≡◌, is_some, true};

    type Tag = Names;

    ghost fits = { λ tag cell. (cell.core.name ≡ tag.cell) × (is_some cell.core.cell.key ≡ true → cell.core.board ≡ tag.board) };
}

impl Core for OneBoard {
    fn dissolve(self, last: Last) {
        let OneBoard { core } = self;
        core.dissolve(last);
    }
}

// A ping's cell under its lock, its receiving end, and the board of its keys. It has to leave before the test ends.
struct Ends {
    lock: SharedLock,
    tally: Tally,
    board: SharedBoard,
    ghost tied: { tally.name ≡ (arc_value lock).tag.cell },
    ghost own: { (arc_value lock).tag.board ≡ (arc_value board).tag },
}

type SharedLock = Arc<Locked<OneBoard>, Global>;

// The sending end of such a cell.
#[derive(Drop)]
struct Button {
    lock: SharedLock,
    board: SharedBoard,
    ghost own: { (arc_value lock).tag.board ≡ (arc_value board).tag },
}

// What came of a pass.
#[derive(Clone, Copy, Debug, PartialEq, Eq)]
enum Turn {
    Opened { rung: bool, told: bool },
    Refused { marked: bool },
}

const RUNG: Turn = Turn::Opened {
    rung: true,
    told: false,
};

const TOLD: Turn = Turn::Opened {
    rung: false,
    told: true,
};

const RUNG_AND_TOLD: Turn = Turn::Opened {
    rung: true,
    told: true,
};

const REFUSED: Turn = Turn::Refused { marked: true };

impl Desk {
    fn new<R: Abort>(rt: &R, alloc: Global) -> Desk {
        let (board, watch, name, _marks) = Board::new(alloc);
        let board = Arc::new(alloc, Locked::new(alloc, board, &name).expect(rt, "a lock")).expect(
            rt, "a board",
        );
        Desk { board, name, watch }
    }

    fn places<R: Wait>(&self, rt: &R) -> usize {
        let mut held = self.board.lock(rt);
        let board = held.core();
        let places = board.places();
        held.unlock();
        places.number()
    }

    // Whether the loop may sleep.
    fn is_quiet<R: Wait>(&mut self, rt: &R) -> bool {
        let mut held = self.board.lock(rt);
        let board = held.core();
        let permit = board.look(&mut self.watch);
        held.unlock();
        match permit {
            Some(permit) => {
                permit.spend();
                true
            }
            None => false,
        }
    }

    // Takes the marked keys.
    fn take_passes<R: Wait>(
        &mut self,
        rt: &R,
        alloc: Global,
        steps: &mut Steps,
    ) -> Result<VecDeque<TakenPass>, AllocError>
        requires { steps.old ≡ 0 }
        ensures same { (arc_value self.new.board).tag ≡ (arc_value self.old.board).tag }
        ensures own { IfOk result (λ passes. AreOf (arc_value self.old.board).tag passes.items) }
    {
        let places = self.places(rt);
        let mut passes = VecDeque::with_capacity(alloc, places)?;
        let mut held = self.board.lock(rt);
        let board = held.core();
        board.unpost(places, &mut self.watch, &mut passes, steps);
        held.unlock();
        Ok(passes)
    }
}

impl Ends {
    fn new<R: Wait + Abort>(rt: &R, alloc: Global, desk: &Desk) -> Ends {
        let board = Arc::try_clone(&desk.board).expect(rt, "a board");
        let (core, name, right) = PingCore::new();
        let names = Names {
            cell: name,
            board: desk.name.again(),
        };
        let lock = Arc::new(
            alloc,
            Locked::new(alloc, OneBoard { core }, &names).expect(rt, "a lock"),
        )
        .expect(rt, "a cell");
        let mut held = lock.lock(rt);
        let cell = held.core();
        let tally = cell.core.receiver(right);
        held.unlock();
        Ends { lock, tally, board }
    }

    // One that rings, for another thread.
    fn button<R: Abort>(&self, rt: &R) -> Button {
        Button {
            lock: Arc::try_clone(&self.lock).expect(rt, "a cell"),
            board: Arc::try_clone(&self.board).expect(rt, "a board"),
        }
    }

    fn stands<R: Wait>(&self, rt: &R) {
        let mut held = self.lock.lock(rt);
        let cell = held.core();
        cell.core.stands();
        held.unlock();
    }

    // Rings, and posts what is owed: whether that set a mark anew.
    fn ring<R: Wait>(&self, rt: &R) -> bool {
        post(rt, &self.board, ring(rt, &self.lock))
    }

    fn add_sender<R: Wait>(&self, rt: &R) -> Result<Sender, AllocError>
        ensures { IfOk result (λ sender. sender.name ≡ (arc_value self.now.lock).tag.cell) }
    {
        let mut held = self.lock.lock(rt);
        let cell = held.core();
        let added = cell.core.add_sender();
        held.unlock();
        added
    }

    fn drop_sender<R: Wait>(&self, rt: &R, sender: Sender) -> bool
        requires { sender.name ≡ (arc_value self.now.lock).tag.cell }
    {
        post(rt, &self.board, drop_sender(rt, &self.lock, sender))
    }

    // Opens a place, and gives the cell its key.
    fn register<R: Wait>(&mut self, rt: &R, key: u64) -> Result<(), OpenRefusal>
        requires { key < 2 ^ 64 - 1 }
        ensures { self.new.lock ≡ self.old.lock }
    {
        let mut held = self.board.lock(rt);
        let board = held.core();
        let opened = board.open_place(key);
        held.unlock();
        let pass = opened?;
        let (debt, permit) = set_key(rt, &self.lock, &mut self.tally, pass);
        post(rt, &self.board, debt);
        close(rt, &self.board, permit);
        Ok(())
    }

    // Takes the cell's key back, and closes its place: whether it had one.
    fn unregister<R: Wait>(&mut self, rt: &R) -> bool {
        let permit = clear_key(rt, &self.lock, &mut self.tally);
        close(rt, &self.board, permit)
    }

    // Its only sender comes and goes: whether that set a mark anew.
    fn close<R: Wait>(&self, rt: &R) -> bool {
        match self.add_sender(rt) {
            Ok(sender) => self.drop_sender(rt, sender),
            Err(_) => false,
        }
    }

    fn registers<R: Wait>(&mut self, rt: &R, key: u64) -> bool
        requires { key < 2 ^ 64 - 1 }
        ensures { self.new.lock ≡ self.old.lock }
    {
        self.register(rt, key).is_ok()
    }

    // The receiving end goes, and its place is closed: whether it had one, and whether a ring after it sets a mark.
    fn abandon<R: Wait>(self, rt: &R) -> (bool, bool) {
        let Ends { lock, tally, board } = self;
        let had_key = close(rt, &board, abandon(rt, &lock, tally));
        (had_key, post(rt, &board, ring(rt, &lock)))
    }

    fn leave<R: Wait>(self, rt: &R) {
        let Ends { lock, tally, board } = self;
        close(rt, &board, abandon(rt, &lock, tally));
    }

    // Whether this comes of the marked keys.
    fn serves<R: Wait>(&mut self, rt: &R, alloc: Global, desk: &mut Desk, wanted: &[Turn]) -> bool {
        is_all(
            serve_all(rt, alloc, desk, &self.lock, &mut self.tally),
            wanted,
        )
    }

    // Whether this comes of a ring within a turn.
    fn serves_within<R: Wait>(
        &mut self,
        rt: &R,
        alloc: Global,
        desk: &mut Desk,
        wanted: &[Turn],
    ) -> bool {
        is_all(
            serve_within(rt, alloc, desk, &self.board, &self.lock, &mut self.tally),
            wanted,
        )
    }
}

impl Button {
    // Rings, and posts what is owed: whether that set a mark anew.
    fn press<R: Wait>(&self, rt: &R) -> bool {
        post(rt, &self.board, ring(rt, &self.lock))
    }
}

fn is_all(turns: Result<Vec<Turn>, AllocError>, wanted: &[Turn]) -> bool {
    match turns {
        Ok(turns) => turns.as_slice() == wanted,
        Err(_) => false,
    }
}

// Rings, and drops the receipt: what is owed.
fn ring<R: Wait>(rt: &R, lock: &Locked<OneBoard>) -> Option<Debt>
    ensures { IfSome result (λ debt. debt.board ≡ lock.now.tag.board) }
{
    let mut held = lock.lock(rt);
    let cell = held.core();
    let (_receipt, debt) = cell.core.ring();
    held.unlock();
    debt
}

fn drop_sender<R: Wait>(rt: &R, lock: &Locked<OneBoard>, sender: Sender) -> Option<Debt>
    requires { sender.name ≡ lock.now.tag.cell }
    ensures { IfSome result (λ debt. debt.board ≡ lock.now.tag.board) }
{
    let mut held = lock.lock(rt);
    let cell = held.core();
    let debt = cell.core.drop_sender(sender);
    held.unlock();
    debt
}

fn set_key<R: Wait>(
    rt: &R,
    lock: &Locked<OneBoard>,
    tally: &mut Tally,
    pass: OpenedPass,
) -> (Option<Debt>, Option<ClosePermit>)
    requires tally { tally.old.name ≡ lock.now.tag.cell }
    requires board { pass.board ≡ lock.now.tag.board }
    ensures tally { tally.new.name ≡ lock.now.tag.cell }
    ensures debt { IfSome result.0 (λ debt. debt.board ≡ lock.now.tag.board) }
    ensures permit { IfSome result.1 (λ permit. permit.board ≡ lock.now.tag.board) }
{
    let mut held = lock.lock(rt);
    let cell = held.core();
    let (debt, permit) = cell.core.set_key(pass, tally);
    held.unlock();
    (debt, permit)
}

fn clear_key<R: Wait>(rt: &R, lock: &Locked<OneBoard>, tally: &mut Tally) -> Option<ClosePermit>
    requires { tally.old.name ≡ lock.now.tag.cell }
    ensures tally { tally.new.name ≡ lock.now.tag.cell }
    ensures permit { IfSome result (λ permit. permit.board ≡ lock.now.tag.board) }
{
    let mut held = lock.lock(rt);
    let cell = held.core();
    let permit = cell.core.clear_key(tally);
    held.unlock();
    permit
}

fn abandon<R: Wait>(rt: &R, lock: &Locked<OneBoard>, tally: Tally) -> Option<ClosePermit>
    requires { tally.name ≡ lock.now.tag.cell }
    ensures { IfSome result (λ permit. permit.board ≡ lock.now.tag.board) }
{
    let mut held = lock.lock(rt);
    let cell = held.core();
    let permit = cell.core.abandon(tally);
    held.unlock();
    permit
}

// Closes the place of a key that was taken back: whether there was one.
fn close<R: Wait>(rt: &R, board: &Locked<Board>, permit: Option<ClosePermit>) -> bool
    requires { IfSome permit (λ permit. permit.board ≡ board.now.tag) }
{
    let Some(permit) = permit else {
        return false;
    };
    let mut held = board.lock(rt);
    let at = held.core();
    at.close_place(permit);
    held.unlock();
    true
}

// A loop that was told to wake.
#[derive(Drop)]
struct Signal {
    raised: AtomicBool,
}

impl Notify for Signal {
    fn notify(&self) {
        self.raised.store(true, Ordering::SeqCst);
    }
}

// Posts what is owed, and says whether that set a mark anew.
fn post<R: Wait>(rt: &R, board: &Locked<Board>, debt: Option<Debt>) -> bool
    requires { IfSome debt (λ debt. debt.board ≡ board.now.tag) }
{
    let Some(debt) = debt else {
        return false;
    };
    let signal = Signal {
        raised: AtomicBool::new(false),
    };
    let mut held = board.lock(rt);
    let at = held.core();
    let wakeup = at.post(debt);
    held.unlock();
    if let Some(wakeup) = wakeup {
        wakeup.spend(&signal);
    }
    signal.raised.load(Ordering::SeqCst)
}

fn open<R: Wait>(
    rt: &R,
    lock: &Locked<OneBoard>,
    tally: &mut Tally,
    pass: TakenPass,
) -> Result<OpenedTurn, TakenPass>
    requires { tally.old.name ≡ lock.now.tag.cell }
    ensures name { tally.new.name ≡ lock.now.tag.cell }
    ensures turn { IfOk result (λ o. o.turn.name ≡ lock.now.tag.cell) }
    ensures refused { IfErr result (λ refused. refused.board ≡ pass.board) }
{
    let mut held = lock.lock(rt);
    let cell = held.core();
    let opened = cell.core.open_turn(pass, tally);
    held.unlock();
    opened
}

// Ends a turn, after which nothing is owed.
fn end<R: Wait>(rt: &R, lock: &Locked<OneBoard>, turn: PingTurn) -> Option<Debt>
    requires { turn.name ≡ lock.now.tag.cell }
    ensures { result ≡ None }
{
    let mut held = lock.lock(rt);
    let cell = held.core();
    let debt = cell.core.end_turn(turn);
    held.unlock();
    debt
}

// One turn with this pass.
fn serve<R: Wait>(
    rt: &R,
    board: &Locked<Board>,
    lock: &Locked<OneBoard>,
    tally: &mut Tally,
    pass: TakenPass,
) -> Turn
    requires tally { tally.old.name ≡ lock.now.tag.cell }
    requires pass { pass.board ≡ board.now.tag }
    ensures { tally.new.name ≡ lock.now.tag.cell }
{
    match open(rt, lock, tally, pass) {
        Ok(OpenedTurn { turn, rung, told }) => {
            post(rt, board, end(rt, lock, turn));
            Turn::Opened { rung, told }
        }
        Err(pass) => {
            let marked = pass.is_refused();
            post(rt, board, Some(pass.back()));
            Turn::Refused { marked }
        }
    }
}

// Takes the marked keys, and has the cell serve each.
fn serve_all<R: Wait>(
    rt: &R,
    alloc: Global,
    desk: &mut Desk,
    lock: &Locked<OneBoard>,
    tally: &mut Tally,
) -> Result<Vec<Turn>, AllocError>
    requires { tally.old.name ≡ lock.now.tag.cell }
    ensures tally { tally.new.name ≡ lock.now.tag.cell }
    ensures desk { (arc_value desk.new.board).tag ≡ (arc_value desk.old.board).tag }
{
    let mut turns = Vec::with_capacity(alloc, desk.places(rt))?;
    let mut passes = desk.take_passes(rt, alloc, &mut Steps::new())?;
    let board = &desk.board;
    while let Some(pass) = passes.pop_front() {
        let turn = serve(rt, board, lock, tally, pass);
        let _ = turns.push(turn);
    }
    passes.destroy_empty();
    Ok(turns)
}

// Takes the marked keys, and opens a turn for each; while it stands open it rings, and serves what that marked: the
// last turns within a turn.
fn serve_within<R: Wait>(
    rt: &R,
    alloc: Global,
    desk: &mut Desk,
    board: &Locked<Board>,
    lock: &Locked<OneBoard>,
    tally: &mut Tally,
) -> Result<Vec<Turn>, AllocError>
    requires tally { tally.old.name ≡ lock.now.tag.cell }
    requires board { lock.now.tag.board ≡ board.now.tag }
    ensures { tally.new.name ≡ lock.now.tag.cell }
{
    let mut within = Ok(Vec::new(alloc));
    let mut passes = desk.take_passes(rt, alloc, &mut Steps::new())?;
    while let Some(pass) = passes.pop_front() {
        match open(rt, lock, tally, pass) {
            Ok(
                OpenedTurn {
                    turn,
                    rung: _,
                    told: _,
                },
            ) => {
                post(rt, board, ring(rt, lock));
                within = serve_all(rt, alloc, desk, lock, tally);
                post(rt, board, end(rt, lock, turn));
            }
            Err(pass) => {
                post(rt, &desk.board, Some(pass.back()));
            }
        }
    }
    passes.destroy_empty();
    within
}

fn at(nanos: u64) -> Instant {
    Instant { nanos }
}

// A wheel with these deadlines, under the counters from 0 on.
fn wheel_of<R: Abort>(rt: &R, alloc: Global, deadlines: &[u64]) -> TimerWheel {
    let mut wheel = TimerWheel::new(alloc);
    for deadline in deadlines {
        let armed = wheel.insert(at(*deadline), Token::from_key(0));
        assert!(rt; armed.is_ok());
    }
    wheel
}

// Whether just these deadlines, with their counters, are due by now: it takes them out.
fn has_due(wheel: &mut TimerWheel, now: u64, wanted: &[(u64, u64)]) -> bool {
    for (deadline, counter) in wanted {
        match wheel.next_expired(at(now)) {
            Some(entry) if entry.deadline.nanos == *deadline && entry.counter == *counter => {}
            _ => return false,
        }
    }
    wheel.next_expired(at(now)).is_none()
}

// Arms the counter again, if it isn't armed.
fn arm_again(wheel: &mut TimerWheel, counter: u64, deadline: u64) -> Result<(), ArmRefusal> {
    if wheel.is_armed(counter) {
        return Ok(());
    }
    wheel.insert_reuse(counter, at(deadline), Token::from_key(0))
}
