//! The cell of a channel: its messages, its bound, its close and its turns.
ghost use Rattle.std.specs.Prelude.{◌≡◌, ◌<◌, ◌-◌, ◌^◌, is_some, true, None, IfSome};
ghost use Rattle.std.specs.Arc.{arc_value};

use super::{Desk, SharedBoard, close, post};
use calloop_slots::steps::Steps;
use calloop_wake::board::Board;
use calloop_wake::cell::CellCore;
use calloop_wake::channel::{ChannelCore, Label, Popped, PutError};
use calloop_wake::locked::{Awaited, Core, Locked};
use calloop_wake::{ChannelTurn, Debt, Last, TakenPass, Tally};
use counted_slot::Fits;
use std::alloc::Global;
use std::ops::Range;
use std::process::Abort;
use std::sync::{Arc, Wait};
use std::test::Fail;
use std::thread;

#[test]
fn messages_come_in_the_order_in_which_they_were_put(rt: HostRuntime) {
    let mut desk = Desk::new(&rt, rt.alloc());
    let mut mail = Mail::new(&rt, rt.alloc(), &desk, None);
    assert!(rt; mail.registers(&rt, 7));
    assert_eq!(rt; mail.put(&rt, 5), Put::Marked);
    assert_eq!(rt; mail.put(&rt, 6), Put::Taken);
    mail.core.stands();
    let wanted = [Got::Message(5), Got::Message(6), Got::Nothing];
    assert!(rt; mail.serves(&rt, rt.alloc(), &mut desk, &wanted));
    assert!(rt; desk.is_quiet(&rt));
    mail.leave(&rt);
}

#[test]
fn a_full_channel_hands_the_message_back(rt: HostRuntime) {
    let mut desk = Desk::new(&rt, rt.alloc());
    let mut mail = Mail::new(&rt, rt.alloc(), &desk, Some(1));
    assert!(rt; mail.registers(&rt, 7));
    assert_eq!(rt; mail.put(&rt, 5), Put::Marked);
    assert_eq!(rt; mail.put(&rt, 6), Put::Full(6));
    assert!(rt; !mail.ring(&rt));
    let wanted = [Got::Message(5), Got::Nothing];
    assert!(rt; mail.serves(&rt, rt.alloc(), &mut desk, &wanted));
    assert_eq!(rt; mail.put(&rt, 6), Put::Marked);
    mail.leave(&rt);
}

#[test]
fn a_full_channel_is_rung_within_a_turn(rt: HostRuntime) {
    let mut desk = Desk::new(&rt, rt.alloc());
    let mut mail = Mail::new(&rt, rt.alloc(), &desk, Some(1));
    assert!(rt; mail.registers(&rt, 7));
    assert_eq!(rt; mail.put(&rt, 5), Put::Marked);
    let wanted = [
        Got::Put(Put::Full(6)),
        Got::Rung(true),
        Got::Refused { marked: true },
        Got::Message(5),
        Got::Nothing,
    ];
    assert!(rt; mail.serves_within(&rt, rt.alloc(), &mut desk, 6, &wanted));
    assert!(rt; mail.serves(&rt, rt.alloc(), &mut desk, &[Got::Nothing]));
    mail.leave(&rt);
}

#[test]
fn a_turn_of_a_refused_pass_goes_on(rt: HostRuntime) {
    let mut desk = Desk::new(&rt, rt.alloc());
    let mut mail = Mail::new(&rt, rt.alloc(), &desk, None);
    assert!(rt; mail.registers(&rt, 7) && mail.ring(&rt));
    let wanted = [
        Got::Put(Put::Marked),
        Got::Rung(false),
        Got::Refused { marked: true },
        Got::Message(6),
        Got::Nothing,
    ];
    assert!(rt; mail.serves_within(&rt, rt.alloc(), &mut desk, 6, &wanted));
    assert!(rt; mail.serves(&rt, rt.alloc(), &mut desk, &[Got::Nothing]));
    mail.leave(&rt);
}

#[test]
fn a_turn_of_a_channel_of_bound_one_makes_two_pops(rt: HostRuntime) {
    let mut desk = Desk::new(&rt, rt.alloc());
    let mut mail = Mail::new(&rt, rt.alloc(), &desk, Some(1));
    assert!(rt; mail.registers(&rt, 7));
    assert_eq!(rt; mail.put(&rt, 5), Put::Marked);
    let wanted = [Got::Message(5), Got::Put(Put::Marked), Got::Message(6)];
    assert!(rt; mail.is_refilled(&rt, rt.alloc(), &mut desk, 6, &wanted));
    assert!(rt; mail.serves(&rt, rt.alloc(), &mut desk, &[Got::Nothing]));
    mail.leave(&rt);
}

#[test]
fn a_channel_without_a_bound_gives_1024_messages_a_turn(rt: HostRuntime) {
    let mut desk = Desk::new(&rt, rt.alloc());
    let mut mail = Mail::new(&rt, rt.alloc(), &desk, None);
    assert!(rt; mail.registers(&rt, 7));
    for message in 0..1_030 {
        let wanted = if message == 0 {
            Put::Marked
        } else {
            Put::Taken
        };
        assert_eq!(rt; mail.put(&rt, message), wanted, "{message}");
    }
    assert!(rt; mail.serves_numbers(&rt, rt.alloc(), &mut desk, 0..1_024, Got::Posted));
    assert!(rt; mail.serves_numbers(&rt, rt.alloc(), &mut desk, 1_024..1_030, Got::Nothing));
    assert!(rt; desk.is_quiet(&rt));
    mail.leave(&rt);
}

#[test]
fn a_channel_that_nobody_receives_hands_the_message_back(rt: HostRuntime) {
    let desk = Desk::new(&rt, rt.alloc());
    let mut mail = Mail::new(&rt, rt.alloc(), &desk, Some(1));
    assert!(rt; mail.registers(&rt, 7));
    assert_eq!(rt; mail.put(&rt, 5), Put::Marked);
    assert_eq!(rt; mail.put_when_gone(&rt, 6), Put::Gone(6));
    assert_eq!(rt; desk.places(&rt), 0);
}

#[test]
fn a_close_of_a_channel_is_told_once_and_after_the_last_message(rt: HostRuntime) {
    let mut desk = Desk::new(&rt, rt.alloc());
    let mut mail = Mail::new(&rt, rt.alloc(), &desk, None);
    assert!(rt; mail.registers(&rt, 7));
    assert_eq!(rt; mail.put(&rt, 5), Put::Marked);
    assert!(rt; !mail.core.is_closed() && !mail.close(&rt) && mail.core.is_closed());
    let wanted = [Got::Message(5), Got::Closed];
    assert!(rt; mail.serves(&rt, rt.alloc(), &mut desk, &wanted));
    assert!(rt; mail.ring(&rt));
    assert!(rt; mail.serves(&rt, rt.alloc(), &mut desk, &[Got::Nothing]));
    mail.leave(&rt);
}

#[test]
fn a_message_that_is_taken_outside_of_a_turn_tells_no_close(rt: HostRuntime) {
    let mut desk = Desk::new(&rt, rt.alloc());
    let mut mail = Mail::new(&rt, rt.alloc(), &desk, None);
    assert_eq!(rt; mail.put(&rt, 5), Put::Taken);
    assert!(rt; !mail.close(&rt));
    assert_eq!(rt; mail.take(), Some(5));
    assert_eq!(rt; mail.take(), None);
    assert!(rt; mail.registers(&rt, 7));
    assert!(rt; mail.serves(&rt, rt.alloc(), &mut desk, &[Got::Closed]));
    mail.leave(&rt);
}

#[test]
fn a_channel_without_a_key_is_posted_with_the_next_one(rt: HostRuntime) {
    let mut desk = Desk::new(&rt, rt.alloc());
    let mut mail = Mail::new(&rt, rt.alloc(), &desk, Some(2));
    assert!(rt; mail.registers(&rt, 7) && mail.unregisters(&rt));
    assert_eq!(rt; mail.put(&rt, 5), Put::Taken);
    assert!(rt; mail.registers(&rt, 8));
    let wanted = [Got::Message(5), Got::Nothing];
    assert!(rt; mail.serves(&rt, rt.alloc(), &mut desk, &wanted));
    mail.leave(&rt);
}

#[test]
fn a_text_is_a_message_too(rt: HostRuntime) -> Result<(), Fail> {
    let desk = Desk::new(&rt, rt.alloc());
    let text = format!(in rt.alloc(); "hello")?;
    let taken = hand_on(&rt, rt.alloc(), &desk, text);
    assert_eq!(rt; taken.as_deref(), Some("hello"));
    Ok(())
}

#[test]
fn a_thread_waits_for_the_messages_of_another(rt: HostRuntime) {
    let its_rt = rt.clone().expect(&rt, "a runtime");
    let desk = Desk::new(&rt, rt.alloc());
    let (mut inbox, slit) = Inbox::new(&rt, rt.alloc(), &desk);
    let child = thread::spawn(&rt, move || slit.put_all(&its_rt, 100)).expect(&rt, "a thread");
    for message in 0..100 {
        assert_eq!(rt; inbox.receive(&rt), message);
    }
    assert!(rt; child.join(&rt));
    inbox.leave(&rt);
}

// What came of a put.
#[derive(Clone, Copy, Debug, PartialEq, Eq)]
enum Put {
    // It set a mark anew.
    Marked,
    Taken,
    Full(u64),
    Gone(u64),
    NoMemory,
}

// What came of a turn, one step after the other.
#[derive(Clone, Copy, Debug, PartialEq, Eq)]
enum Got {
    Message(u64),
    Nothing,
    Closed,
    // The end of the turn set a mark anew.
    Posted,
    Refused { marked: bool },
    Put(Put),
    Rung(bool),
}

// A channel's cell, its receiving end, and the board of its keys. It has to leave before the test ends.
struct Mail {
    core: ChannelCore<u64>,
    tally: Tally,
    label: Label,
    board: SharedBoard,
    alloc: Global,
    ghost tied: { tally.name ≡ core.name },
    ghost named: { core.name ≡ label.name },
    ghost bounded: { core.state.bound ≡ label.bound },
    ghost own: { is_some core.state.cell.key ≡ true → core.board ≡ (arc_value board).tag },
}

impl Mail {
    fn new<R: Abort>(rt: &R, alloc: Global, desk: &Desk, bound: Option<usize>) -> Mail {
        let board = Arc::try_clone(&desk.board).expect(rt, "a board");
        let (core, label, right) = ChannelCore::<u64>::new(alloc, bound).expect(rt, "a cell");
        let tally = core.receiver(right);
        Mail {
            core,
            tally,
            label,
            board,
            alloc,
        }
    }

    // Puts a message, and posts what is owed.
    fn put<R: Wait>(&mut self, rt: &R, message: u64) -> Put
        ensures { self.new.core.name ≡ self.old.core.name }
    {
        match self.core.put(message) {
            Ok((_receipt, debt)) => {
                if post(rt, &self.board, debt) {
                    Put::Marked
                } else {
                    Put::Taken
                }
            }
            Err(refused) => refusal(refused),
        }
    }

    // Takes a message outside of a turn.
    fn take(&mut self) -> Option<u64> {
        self.core.take(&mut self.tally)
    }

    // Rings, and posts what is owed: whether that set a mark anew.
    fn ring<R: Wait>(&mut self, rt: &R) -> bool
        ensures { self.new.core.name ≡ self.old.core.name }
    {
        let debt = self.core.ring();
        post(rt, &self.board, debt)
    }

    // Opens a place, and gives the cell its key: whether it got one.
    fn registers<R: Wait>(&mut self, rt: &R, key: u64) -> bool
        requires { key < 2 ^ 64 - 1 }
    {
        let mut held = self.board.lock(rt);
        let board = held.core();
        let opened = board.open_place(key);
        held.unlock();
        match opened {
            Ok(pass) => {
                let (debt, permit) = self.core.set_key(pass, &mut self.tally);
                post(rt, &self.board, debt);
                close(rt, &self.board, permit);
                true
            }
            Err(_) => false,
        }
    }

    // Takes the cell's key back, and closes its place: whether it had one.
    fn unregisters<R: Wait>(&mut self, rt: &R) -> bool {
        let permit = self.core.clear_key(&mut self.tally);
        close(rt, &self.board, permit)
    }

    // Its only sender comes and goes: whether that set a mark anew.
    fn close<R: Wait>(&mut self, rt: &R) -> bool {
        match self.core.add_sender() {
            Ok(sender) => {
                let debt = self.core.drop_sender(sender);
                post(rt, &self.board, debt)
            }
            Err(_) => false,
        }
    }

    fn pop(&mut self, turn: &mut ChannelTurn) -> Got
        requires left { 0 < turn.old.left }
        requires turn { turn.old.name ≡ self.old.core.name }
        ensures left { turn.new.left < turn.old.left }
        ensures turn { turn.new.name ≡ self.new.core.name }
        ensures same { self.new.core.name ≡ self.old.core.name }
    {
        match self.core.pop(turn, &mut self.tally) {
            Popped::Item(message) => Got::Message(message),
            Popped::Empty => Got::Nothing,
            Popped::Closed => Got::Closed,
        }
    }

    // Makes all the pops that the turn may make, and ends it.
    fn pop_all<R: Wait>(&mut self, rt: &R, turn: ChannelTurn, got: &mut Vec<Got>)
        requires { turn.name ≡ self.old.core.name }
        ensures { self.new.core.name ≡ self.old.core.name }
    {
        let mut turn = turn;
        while turn.goes_on() {
            let popped = self.pop(&mut turn);
            let _ = got.push(popped);
        }
        let debt = self.core.end_turn(turn);
        if post(rt, &self.board, debt) {
            let _ = got.push(Got::Posted);
        }
    }

    // What comes of a pass: one turn, or its refusal.
    fn serve<R: Wait>(&mut self, rt: &R, at: &Locked<Board>, pass: TakenPass, got: &mut Vec<Got>)
        requires { pass.board ≡ at.now.tag }
        ensures { self.new.core.name ≡ self.old.core.name }
    {
        match self.core.open_turn(pass, &mut self.tally) {
            Ok(turn) => self.pop_all(rt, turn, got),
            Err(pass) => put_back(rt, at, pass, got),
        }
    }

    // The same of each marked key.
    fn serve_all<R: Wait>(&mut self, rt: &R, alloc: Global, desk: &mut Desk, got: &mut Vec<Got>)
        ensures { self.new.core.name ≡ self.old.core.name }
    {
        if let Ok(mut passes) = desk.take_passes(rt, alloc, &mut Steps::new()) {
            while let Some(pass) = passes.pop_front() {
                self.serve(rt, &desk.board, pass, got);
            }
            passes.destroy_empty();
        }
    }

    // Whether this comes of the marked keys.
    fn serves<R: Wait>(&mut self, rt: &R, alloc: Global, desk: &mut Desk, wanted: &[Got]) -> bool {
        let mut got = Vec::new(alloc);
        self.serve_all(rt, alloc, desk, &mut got);
        got.as_slice() == wanted
    }

    // Whether the marked keys bring these messages in order, and then this.
    fn serves_numbers<R: Wait>(
        &mut self,
        rt: &R,
        alloc: Global,
        desk: &mut Desk,
        messages: Range<u64>,
        last: Got,
    ) -> bool {
        let mut got = Vec::new(alloc);
        self.serve_all(rt, alloc, desk, &mut got);
        let mut wanted = Vec::new(alloc);
        for message in messages {
            if wanted.push(Got::Message(message)).is_err() {
                return false;
            }
        }
        wanted.push(last).is_ok() && got == wanted
    }

    // Whether this comes of a put and a ring within a turn, of the keys that these mark, and of the turn.
    fn serves_within<R: Wait>(
        &mut self,
        rt: &R,
        alloc: Global,
        desk: &mut Desk,
        message: u64,
        wanted: &[Got],
    ) -> bool {
        let mut got = Vec::new(alloc);
        match self.open(rt, alloc, desk) {
            Some(turn) => {
                let put = self.put(rt, message);
                let _ = got.push(Got::Put(put));
                let rung = self.ring(rt);
                let _ = got.push(Got::Rung(rung));
                self.serve_all(rt, alloc, desk, &mut got);
                self.pop_all(rt, turn, &mut got);
                got.as_slice() == wanted
            }
            None => false,
        }
    }

    // Whether this comes of a turn that has its first message back in its place.
    fn is_refilled<R: Wait>(
        &mut self,
        rt: &R,
        alloc: Global,
        desk: &mut Desk,
        message: u64,
        wanted: &[Got],
    ) -> bool {
        let mut got = Vec::new(alloc);
        match self.open(rt, alloc, desk) {
            Some(mut turn) => {
                if turn.goes_on() {
                    let popped = self.pop(&mut turn);
                    let _ = got.push(popped);
                }
                let put = self.put(rt, message);
                let _ = got.push(Got::Put(put));
                self.pop_all(rt, turn, &mut got);
                got.as_slice() == wanted
            }
            None => false,
        }
    }

    // Opens a turn with the first marked key.
    fn open<R: Wait>(&mut self, rt: &R, alloc: Global, desk: &mut Desk) -> Option<ChannelTurn>
        ensures { IfSome result (λ turn. turn.name ≡ self.new.core.name) }
    {
        let mut passes = desk.take_passes(rt, alloc, &mut Steps::new()).ok()?;
        let first = passes.pop_front();
        while let Some(pass) = passes.pop_front() {
            post(rt, &desk.board, Some(pass.back()));
        }
        passes.destroy_empty();
        match self.core.open_turn(first?, &mut self.tally) {
            Ok(turn) => Some(turn),
            Err(pass) => {
                post(rt, &desk.board, Some(pass.back()));
                None
            }
        }
    }

    // The receiving end goes, and its place is closed: what comes of a put after it.
    fn put_when_gone<R: Wait>(self, rt: &R, message: u64) -> Put {
        let Mail {
            mut core,
            tally,
            label,
            board,
            alloc,
        } = self;
        close(rt, &board, core.abandon(tally));
        let put = match core.put(message) {
            Ok((_receipt, debt)) => {
                post(rt, &board, debt);
                Put::Taken
            }
            Err(refused) => refusal(refused),
        };
        drop(Locked::new(alloc, core, &label));
        put
    }

    fn leave<R: Wait>(self, rt: &R) {
        let Mail {
            mut core,
            tally,
            label,
            board,
            alloc,
        } = self;
        close(rt, &board, core.abandon(tally));
        drop(Locked::new(alloc, core, &label));
    }
}

fn refusal(refused: PutError<u64>) -> Put {
    match refused {
        PutError::Full(message) => Put::Full(message),
        PutError::Gone(message) => Put::Gone(message),
        PutError::OutOfMemory(_) => Put::NoMemory,
    }
}

// Gives a refused pass back to its board.
fn put_back<R: Wait>(rt: &R, at: &Locked<Board>, pass: TakenPass, got: &mut Vec<Got>)
    requires { pass.board ≡ at.now.tag }
{
    let marked = pass.is_refused();
    let _ = got.push(Got::Refused { marked });
    post(rt, at, Some(pass.back()));
}

// What a channel of texts hands on of this one.
fn hand_on<R: Wait + Abort>(rt: &R, alloc: Global, desk: &Desk, text: String) -> Option<String> {
    let (mut core, label, right) = ChannelCore::<String>::new(alloc, Some(1)).expect(rt, "a cell");
    let mut tally = core.receiver(right);
    if let Ok((_receipt, debt)) = core.put(text) {
        post(rt, &desk.board, debt);
    }
    let taken = core.take(&mut tally);
    close(rt, &desk.board, core.abandon(tally));
    drop(Locked::new(alloc, core, &label));
    taken
}

// A channel's cell that has no key.
struct Keyless {
    core: ChannelCore<u64>,
}

impl Fits for Keyless {
    ghost use Rattle.std.specs.Prelude.{◌≡◌, None};

    type Tag = Label;

    ghost fits = { λ tag cell. (cell.core.name ≡ tag.name) × (cell.core.state.cell.key ≡ None) };
}

impl Core for Keyless {
    fn dissolve(self, last: Last) {
        let Keyless { core } = self;
        core.dissolve(last);
    }
}

type SharedLock = Arc<Locked<Keyless>, Global>;

// The receiving end of a channel without a key.
struct Inbox {
    lock: SharedLock,
    tally: Tally,
    board: SharedBoard,
    ghost tied: { tally.name ≡ (arc_value lock).tag.name },
}

// The sending end.
#[derive(Drop)]
struct Slit {
    lock: SharedLock,
    board: SharedBoard,
}

impl Inbox {
    fn new<R: Abort>(rt: &R, alloc: Global, desk: &Desk) -> (Inbox, Slit) {
        let (core, label, right) = ChannelCore::<u64>::new(alloc, Some(2)).expect(rt, "a cell");
        let tally = core.receiver(right);
        let lock = Arc::new(
            alloc,
            Locked::new(alloc, Keyless { core }, &label).expect(rt, "a lock"),
        )
        .expect(rt, "a lock");
        let slit = Slit {
            lock: Arc::try_clone(&lock).expect(rt, "a lock"),
            board: Arc::try_clone(&desk.board).expect(rt, "a board"),
        };
        let board = Arc::try_clone(&desk.board).expect(rt, "a board");
        (Inbox { lock, tally, board }, slit)
    }

    // Waits for the next message.
    fn receive<R: Wait>(&mut self, rt: &R) -> u64 {
        receive(rt, &self.lock, &mut self.tally)
    }

    fn leave<R: Wait>(self, rt: &R) {
        let Inbox { lock, tally, board } = self;
        let mut held = lock.lock(rt);
        let cell = held.core();
        let permit = cell.core.abandon(tally);
        held.unlock();
        close(rt, &board, permit);
    }
}

// Waits for the next message, and tells that it is gone.
fn receive<R: Wait>(rt: &R, lock: &Locked<Keyless>, tally: &mut Tally) -> u64
    requires { tally.old.name ≡ lock.now.tag.name }
    ensures { tally.new.name ≡ lock.now.tag.name }
{
    let mut held = lock.lock(rt);
    for _ in rt.forever() {
        if let Some(message) = held.core().core.take(tally) {
            held.unlock();
            lock.notify_one(Awaited::Room);
            return message;
        }
        held = held.wait(rt, Awaited::Content);
    }
    held.unlock();
    unreachable!()
}

// Puts a message, and tells of it. It waits while no room is there.
fn put_message<R: Wait>(rt: &R, lock: &Locked<Keyless>, message: u64) -> Option<Debt>
    ensures { result ≡ None }
{
    let mut held = lock.lock(rt);
    for _ in rt.forever() {
        if let Ok((_receipt, debt)) = held.core().core.put(message) {
            held.unlock();
            lock.notify_all(Awaited::Content);
            return debt;
        }
        held = held.wait(rt, Awaited::Room);
    }
    held.unlock();
    unreachable!()
}

impl Slit {
    // Puts the numbers below this: whether none of them set a mark.
    fn put_all<R: Wait>(&self, rt: &R, count: u64) -> bool {
        let mut is_quiet = true;
        for message in 0..count {
            let debt = put_message(rt, &self.lock, message);
            is_quiet = !post(rt, &self.board, debt) && is_quiet;
        }
        is_quiet
    }
}
