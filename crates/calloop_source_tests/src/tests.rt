ghost use Rattle.std.specs.Prelude.{◌≡◌, ◌≢◌, ◌-◌, ◌^◌, None, IfOk, IfErr, IfSome, is_some, true};
ghost use Rattle.std.specs.Arc.{arc_value};
ghost use Rattle.calloop_slots.specs.Tokens.{key_of};

use calloop_poll::sys::hub::{Hub, SharedHub, share};
use calloop_poll::sys::notifier::Notifier;
use calloop_poll::sys::poll::Poll;
use calloop_poll::sys::{Clock, Poller, Readiness, Watched};
use calloop_script::{ScriptAnswer, ScriptClock, ScriptEnd, ScriptEvents, ScriptPoller};
use calloop_slots::error::Error;
use calloop_slots::token::{RegistrationToken, Token, TokenFactory};
use calloop_slots::wheel::Instant;
use calloop_slots::widths::MOST_SLOTS;
use calloop_sources::callbacks::On;
use calloop_sources::sources::{Asking, Callback, Dispatch, Dispatcher, EventSource, PostAction};
use calloop_sources::timer::{TimeoutAction, Timer};
use calloop_wake::cell::CellCore;
use calloop_wake::ghosts::Name;
use calloop_wake::locked::{Core, Locked};
use calloop_wake::ping::{OpenedTurn, PingCore};
use calloop_wake::{Debt, Last, OpenedPass, PingTurn, ReceivingRight, TakenPass, Tally};
use counted_slot::Fits;
use std::alloc::{AllocError, Global};
use std::os::fd::RawFd;
use std::process::Abort;
use std::sync::atomic::AtomicBool;
use std::sync::{Arc, Wait};
use std::time::Duration;
use std::{io, mem};

mod callbacks;
mod conversions;
mod marks;
mod streams;
mod system;
mod table;

#[test]
fn a_script_answers_in_its_order_and_then_by_the_timeout(rt: HostRuntime) {
    let mut poller = ScriptPoller::new(rt.alloc()).expect(&rt, "a poller");
    assert_eq!(rt; poller.now().nanos, 0);
    assert!(rt; scripts(&mut poller, rt.alloc(), 30, &[4, 2]));
    assert!(rt; scripts(&mut poller, rt.alloc(), 20, &[9]));
    let table: [(Option<Duration>, &[u64], u64); 5] = [
        (nanos(5), &[4, 2], 30),
        (None, &[9], 20),
        (nanos(7), &[], 27),
        (None, &[], 27),
        (nanos(u64::MAX), &[], u64::MAX),
    ];
    for (timeout, keys, now) in table {
        assert!(rt; waits(&mut poller, rt.alloc(), timeout, keys));
        assert_eq!(rt; poller.now().nanos, now);
    }
}

#[test]
fn waits_are_noted_as_far_as_room_was_made(rt: HostRuntime) {
    let mut poller = ScriptPoller::new(rt.alloc()).expect(&rt, "a poller");
    assert!(rt; waits(&mut poller, rt.alloc(), nanos(1), &[]) && poller.waits().is_empty());
    assert!(rt; poller.keep_waits(2).is_ok());
    for timeout in [nanos(5), None, nanos(6)] {
        assert!(rt; waits(&mut poller, rt.alloc(), timeout, &[]));
    }
    assert_eq!(rt; poller.waits(), [nanos(5), None].as_slice());
}

#[test]
fn room_that_is_made_anew_forgets_the_noted_waits(rt: HostRuntime) {
    let mut poller = ScriptPoller::new(rt.alloc()).expect(&rt, "a poller");
    assert!(rt; poller.keep_waits(2).is_ok());
    assert!(rt; waits(&mut poller, rt.alloc(), nanos(5), &[]));
    assert!(rt; poller.keep_waits(1).is_ok() && poller.waits().is_empty());
    assert!(rt; waits(&mut poller, rt.alloc(), nanos(8), &[]));
    assert_eq!(rt; poller.waits(), [nanos(8)].as_slice());
}

#[test]
fn an_answer_takes_no_more_than_1024_events(rt: HostRuntime) {
    let mut events = ScriptEvents::new(rt.alloc());
    for key in 0..1024 {
        assert!(rt; events.push(key, Readiness::EMPTY).is_ok());
    }
    match events.push(1024, WRITABLE) {
        Ok(()) => assert!(rt; false),
        Err((key, readiness)) => assert!(rt; key == 1024 && readiness.writable),
    }
}

#[test]
fn a_clock_follows_its_poller(rt: HostRuntime) {
    let mut poll = new_poll(&rt, rt.alloc());
    assert!(rt; shows(&poll, 0));
    assert!(rt; polls(&rt, &mut poll, nanos(4)));
    assert!(rt; shows(&poll, 4));
    poll.poller_mut().set_clock(Instant { nanos: 3 });
    assert!(rt; shows(&poll, 3));
    assert_eq!(rt; poll.poller_mut().now().nanos, 3);
}

#[test]
fn posted_events_come_first_and_in_the_order_of_their_keys(rt: HostRuntime) {
    let mut desk = Desk::new(&rt, rt.alloc());
    ring(&rt, &desk.other);
    ring(&rt, &desk.cell);
    assert!(rt;
        scripts(
            desk.poll.poller_mut(),
            rt.alloc(),
            1,
            &[FREE, u64::MAX, OTHER]
        )
    );
    assert!(rt; polls(&rt, &mut desk.poll, None));
    assert!(rt;
        gives(
            &mut desk.poll,
            &[
                posted_event(CELL),
                posted_event(OTHER),
                polled_event(FREE),
                polled_event(OTHER)
            ]
        )
    );
}

#[test]
fn a_pass_opens_one_turn(rt: HostRuntime) {
    let mut desk = Desk::new(&rt, rt.alloc());
    ring(&rt, &desk.cell);
    assert!(rt; polls(&rt, &mut desk.poll, None));
    assert_eq!(rt; next(&mut desk.poll), Some(posted_event(CELL)));
    assert_eq!(rt; turn(&rt, &mut desk.poll, &mut desk.cell), Some(true));
    assert_eq!(rt; turn(&rt, &mut desk.poll, &mut desk.cell), None);
    desk.poll.end_event();
    assert!(rt; polls(&rt, &mut desk.poll, None));
    assert!(rt; gives(&mut desk.poll, &[]));
}

#[test]
fn a_pass_that_another_cell_refuses_comes_again(rt: HostRuntime) {
    let mut desk = Desk::new(&rt, rt.alloc());
    ring(&rt, &desk.other);
    assert!(rt; polls(&rt, &mut desk.poll, None));
    assert_eq!(rt; next(&mut desk.poll), Some(posted_event(OTHER)));
    assert_eq!(rt; turn(&rt, &mut desk.poll, &mut desk.cell), None);
    desk.poll.end_event();
    assert!(rt; polls(&rt, &mut desk.poll, None));
    assert_eq!(rt; next(&mut desk.poll), Some(posted_event(OTHER)));
    assert_eq!(rt; turn(&rt, &mut desk.poll, &mut desk.other), Some(true));
}

#[test]
fn a_polled_event_has_no_pass(rt: HostRuntime) {
    let mut desk = Desk::new(&rt, rt.alloc());
    assert!(rt; scripts(desk.poll.poller_mut(), rt.alloc(), 1, &[CELL]));
    assert!(rt; polls(&rt, &mut desk.poll, None));
    assert_eq!(rt; next(&mut desk.poll), Some(polled_event(CELL)));
    assert_eq!(rt; turn(&rt, &mut desk.poll, &mut desk.cell), None);
}

#[test]
fn a_wait_beside_a_mark_is_asked_as_0(rt: HostRuntime) {
    let mut desk = Desk::new(&rt, rt.alloc());
    ring(&rt, &desk.cell);
    assert!(rt; polls(&rt, &mut desk.poll, None));
    assert_eq!(rt; next(&mut desk.poll), Some(posted_event(CELL)));
    assert_eq!(rt; turn(&rt, &mut desk.poll, &mut desk.cell), Some(true));
    assert!(rt; polls(&rt, &mut desk.poll, nanos(9)));
    assert!(rt; was_asked(&mut desk.poll, &[nanos(0), nanos(9)]));
}

#[test]
fn passes_that_are_unspent_come_again(rt: HostRuntime) {
    let mut desk = Desk::new(&rt, rt.alloc());
    ring(&rt, &desk.cell);
    ring(&rt, &desk.other);
    for _ in 0..2 {
        assert!(rt; polls(&rt, &mut desk.poll, None));
        assert!(rt; gives(&mut desk.poll, &[posted_event(CELL), posted_event(OTHER)]));
        desk.poll.end_event();
    }
    assert!(rt; polls(&rt, &mut desk.poll, None));
    assert_eq!(rt; next(&mut desk.poll), Some(posted_event(CELL)));
    assert_eq!(rt; turn(&rt, &mut desk.poll, &mut desk.cell), Some(true));
}

#[test]
fn left_over_events_come_before_a_new_batch(rt: HostRuntime) {
    let mut desk = Desk::new(&rt, rt.alloc());
    assert!(rt; scripts(desk.poll.poller_mut(), rt.alloc(), 1, &[FREE, OTHER]));
    assert!(rt; scripts(desk.poll.poller_mut(), rt.alloc(), 1, &[OTHER, u64::MAX]));
    assert!(rt; polls(&rt, &mut desk.poll, None));
    assert_eq!(rt; next(&mut desk.poll), Some(polled_event(FREE)));
    ring(&rt, &desk.cell);
    assert!(rt; polls(&rt, &mut desk.poll, None));
    assert!(rt;
        gives(
            &mut desk.poll,
            &[polled_event(OTHER), posted_event(CELL), polled_event(OTHER)]
        )
    );
}

#[test]
fn a_wait_beside_a_left_over_event_is_asked_as_0(rt: HostRuntime) {
    let mut poll = new_poll(&rt, rt.alloc());
    assert!(rt; scripts(poll.poller_mut(), rt.alloc(), 1, &[FREE, OTHER]));
    assert!(rt; polls(&rt, &mut poll, None));
    assert_eq!(rt; next(&mut poll), Some(polled_event(FREE)));
    assert!(rt; polls(&rt, &mut poll, None));
    assert!(rt; gives(&mut poll, &[polled_event(OTHER)]));
    assert!(rt; polls(&rt, &mut poll, nanos(9)));
    assert!(rt; was_asked(&mut poll, &[None, nanos(0), nanos(9)]));
}

#[test]
fn a_post_wakes_the_poller(rt: HostRuntime) {
    let mut desk = Desk::new(&rt, rt.alloc());
    assert!(rt; !desk.poll.poller_mut().is_woken());
    ring(&rt, &desk.cell);
    assert!(rt; desk.poll.poller_mut().is_woken());
    assert!(rt; polls(&rt, &mut desk.poll, None));
    assert!(rt; !desk.poll.poller_mut().is_woken());
}

#[test]
fn a_pass_that_is_unspent_wakes_the_poller(rt: HostRuntime) {
    let mut desk = Desk::new(&rt, rt.alloc());
    ring(&rt, &desk.cell);
    assert!(rt; polls(&rt, &mut desk.poll, None));
    assert_eq!(rt; next(&mut desk.poll), Some(posted_event(CELL)));
    assert!(rt; !desk.poll.poller_mut().is_woken());
    desk.poll.end_event();
    assert!(rt; desk.poll.poller_mut().is_woken());
}

#[test]
fn a_key_with_a_place_is_refused(rt: HostRuntime) {
    let mut desk = Desk::new(&rt, rt.alloc());
    let refused = register(&rt, &mut desk.other, token(2));
    assert_eq!(rt; kind_of(refused), Some(io::ErrorKind::AlreadyExists));
}

#[test]
fn a_cell_that_moves_leaves_its_key_to_another(rt: HostRuntime) {
    let mut desk = Desk::new(&rt, rt.alloc());
    ring(&rt, &desk.cell);
    assert!(rt; register(&rt, &mut desk.cell, token(0)).is_ok());
    assert!(rt; register(&rt, &mut desk.other, token(2)).is_ok());
    assert!(rt; polls(&rt, &mut desk.poll, None));
    assert_eq!(rt; next(&mut desk.poll), Some(posted_event(FREE)));
    assert_eq!(rt; turn(&rt, &mut desk.poll, &mut desk.cell), Some(true));
    assert!(rt; gives(&mut desk.poll, &[]));
}

#[test]
fn a_poll_that_fails_gathers_nothing(rt: HostRuntime) {
    let signal = Arc::new(rt.alloc(), AtomicBool::new(false)).expect(&rt, "a signal");
    let poller = FailsFirst { waits: 0, signal };
    let mut poll = Poll::new(clone_of(&rt), rt.alloc(), poller, ()).expect(&rt, "a poll");
    let mut cell = Bell::new(&rt, rt.alloc(), &poll).expect(&rt, "a cell");
    assert!(rt; register(&rt, &mut cell, token(2)).is_ok());
    ring(&rt, &cell);
    let refused = poll_once(&rt, &mut poll, None);
    assert_eq!(rt; kind_of(refused), Some(io::ErrorKind::PermissionDenied));
    assert!(rt; gives(&mut poll, &[]));
    assert!(rt; polls(&rt, &mut poll, None));
    assert!(rt; gives(&mut poll, &[posted_event(CELL)]));
}

#[test]
fn a_callback_is_given_its_event_and_its_sources_metadata(rt: HostRuntime) {
    let mut held = Dispatcher {
        source: 4,
        callback: Adder,
    };
    let mut data = 10;
    let count = held.callback.call(5, &mut held.source, &mut data, &mut ());
    assert_eq!(rt; (count, held.source, data), (5, 5, 15));
}

#[test]
fn a_wait_that_is_interrupted_goes_on_with_what_is_left(rt: HostRuntime) {
    let table: [(&[u64], &[u64]); 4] = [
        (&[40, 70], &[100, 60, 30]),
        (&[0, 0, 0], &[100, 100, 100, 100]),
        (&[40, 30], &[100, 60, 70]),
        (&[100], &[100]),
    ];
    for (moments, wanted) in table {
        let mut poll = new_interrupted(&rt, rt.alloc(), moments);
        assert!(rt; has_asked(&mut poll, wanted));
        assert!(rt; gives(&mut poll, &[]));
    }
}

#[test]
fn timers_come_due_in_the_order_of_their_deadlines(rt: HostRuntime) {
    let mut poll = new_poll(&rt, rt.alloc());
    for (slot, deadline) in [(0, 30), (1, 10), (2, 20), (3, 10)] {
        assert!(rt; poll.insert_timer(at(deadline), token(slot)).is_ok());
    }
    poll.poller_mut().set_clock(at(50));
    assert!(rt; polls(&rt, &mut poll, None));
    assert!(rt; has_asked(&mut poll, &[0]));
    assert!(rt; gives(&mut poll, &[due(1), due(3), due(2), due(0)]));
}

#[test]
fn a_fault_of_the_script_keeps_left_over_event_mark_and_timer(rt: HostRuntime) {
    let mut desk = Desk::new(&rt, rt.alloc());
    assert!(rt; desk.poll.insert_timer(at(5), token(1)).is_ok());
    assert!(rt; scripts(desk.poll.poller_mut(), rt.alloc(), 0, &[FREE, OTHER]));
    assert!(rt; ends_so(&mut desk.poll, 10, ScriptEnd::Fault));
    assert!(rt; polls(&rt, &mut desk.poll, None));
    assert_eq!(rt; next(&mut desk.poll), Some(polled_event(FREE)));
    ring(&rt, &desk.cell);
    let refused = poll_once(&rt, &mut desk.poll, None);
    assert_eq!(rt; kind_of(refused), Some(io::ErrorKind::Other));
    assert!(rt; gives(&mut desk.poll, &[polled_event(OTHER)]));
    assert!(rt; polls(&rt, &mut desk.poll, None));
    assert!(rt; gives(&mut desk.poll, &[posted_event(CELL), due(1)]));
}

#[test]
fn a_batch_is_posted_then_polled_then_due_events(rt: HostRuntime) {
    let mut desk = Desk::new(&rt, rt.alloc());
    ring(&rt, &desk.other);
    assert!(rt; desk.poll.insert_timer(at(5), token(0)).is_ok());
    assert!(rt; scripts(desk.poll.poller_mut(), rt.alloc(), 5_000_000, &[CELL]));
    assert!(rt; polls(&rt, &mut desk.poll, None));
    assert!(rt;
        gives(
            &mut desk.poll,
            &[posted_event(OTHER), polled_event(CELL), due(0)]
        )
    );
}

#[test]
fn deadlines_count_from_what_the_clock_shows(rt: HostRuntime) {
    let mut poll = new_poll(&rt, rt.alloc());
    poll.poller_mut().set_clock(Instant { nanos: 7 });
    let clock = poll.clock();
    let mut timer = Timer::immediate(clock);
    assert_eq!(rt; timer.current_deadline(), Some(Instant { nanos: 7 }));
    timer.set_duration(clock, Duration::from_nanos(5));
    assert_eq!(rt; timer.current_deadline(), Some(Instant { nanos: 12 }));
    let other = Timer::from_duration(clock, Duration::from_nanos(3));
    assert_eq!(rt; other.current_deadline(), Some(Instant { nanos: 10 }));
}

#[test]
fn a_timer_without_a_deadline_takes_no_token_and_shortens_no_wait(rt: HostRuntime) {
    let mut poll = new_poll(&rt, rt.alloc());
    let mut timer = Timer::from_duration(poll.clock(), Duration::MAX);
    assert_eq!(rt; timer.current_deadline(), None);
    let mut factory = TokenFactory::new(RegistrationToken::new(0, 0));
    assert!(rt; timer.register(&mut poll, &mut factory).is_ok());
    assert_eq!(rt; factory.token().ok(), Some(token(0)));
    assert!(rt; polls(&rt, &mut poll, millis(510)));
    assert!(rt; has_asked(&mut poll, &[510]) && gives(&mut poll, &[]));
}

#[test]
fn a_deadline_that_is_set_while_armed_comes_with_the_next_arming(rt: HostRuntime) {
    let mut poll = new_poll(&rt, rt.alloc());
    let mut moments = Vec::new(rt.alloc());
    let mut alarm = alarm(Timer::from_deadline(at(100)), TimeoutAction::Drop);
    assert!(rt; arms(&mut poll, &mut alarm));
    alarm.source.set_deadline(at(300));
    assert!(rt; polls(&rt, &mut poll, millis(200)));
    assert!(rt; has_asked(&mut poll, &[100]));
    let answer = serve(&mut poll, &mut alarm, &mut moments);
    assert!(rt; answer == Some(PostAction::Remove) && moments.as_slice() == [at(100)].as_slice());
    assert_eq!(rt; alarm.source.current_deadline(), Some(at(300)));
}

#[test]
fn a_polled_event_calls_a_due_timer_for_its_own(rt: HostRuntime) {
    for (action, answer) in [
        (TimeoutAction::Drop, PostAction::Remove),
        (TimeoutAction::ToInstant(at(70)), PostAction::Continue),
    ] {
        let mut poll = new_poll(&rt, rt.alloc());
        let mut moments = Vec::new(rt.alloc());
        let mut alarm = alarm(Timer::from_deadline(at(10)), action);
        assert!(rt; arms(&mut poll, &mut alarm));
        assert!(rt; scripts(poll.poller_mut(), rt.alloc(), 50_000_000, &[FREE]));
        assert!(rt; polls(&rt, &mut poll, None));
        for wanted in [Some(answer), Some(PostAction::Continue), None] {
            assert_eq!(rt; serve(&mut poll, &mut alarm, &mut moments), wanted);
        }
        assert_eq!(rt; moments.as_slice(), [at(10)].as_slice());
    }
}

const WRITABLE: Readiness = Readiness {
    readable: false,
    writable: true,
    error: false,
};

// The keys of the slots 0, 2 and 3.
const FREE: u64 = 0;

const CELL: u64 = 0x200_0000_0000;

const OTHER: u64 = 0x300_0000_0000;

// What is seen of an event: its key, whether it is ready to be read, and whether it was posted.
type Seen = (u64, bool, bool);

fn posted_event(key: u64) -> Seen {
    (key, true, true)
}

// One that the scripted poller gave.
fn polled_event(key: u64) -> Seen {
    (key, false, false)
}

// One of the timer of this slot.
fn due(slot: u32) -> Seen {
    (token(slot).key(), true, false)
}

fn nanos(nanos: u64) -> Option<Duration> {
    Some(Duration::from_nanos(nanos))
}

fn millis(millis: u64) -> Option<Duration> {
    Some(Duration::from_millis(millis))
}

fn at(millis: u64) -> Instant {
    Instant {
        nanos: millis.saturating_mul(1_000_000),
    }
}

// The key of the slot is 1,099,511,627,776 times the slot.
fn token(slot: u32) -> Token
    ensures { key_of result ≢ 2 ^ 64 - 1 }
{
    match TokenFactory::new(RegistrationToken::new(slot % MOST_SLOTS as u32, 0)).token() {
        Ok(token) => token,
        Err(_) => unreachable!(),
    }
}

fn clone_of<R: Clone + Abort>(rt: &R) -> R {
    rt.clone().expect(rt, "a runtime")
}

// Has the next wait end at this moment, in nanoseconds, with events of these keys: whether there is memory for them.
fn scripts(poller: &mut ScriptPoller, alloc: Global, moment: u64, keys: &[u64]) -> bool {
    let mut events = ScriptEvents::new(alloc);
    for key in keys {
        if events.push(*key, WRITABLE).is_err() {
            return false;
        }
    }
    let answer = ScriptAnswer {
        moment: Instant { nanos: moment },
        end: ScriptEnd::Events(events),
    };
    poller.script(answer).is_ok()
}

// Whether a wait gives events of just these keys, all writable.
fn waits(
    poller: &mut ScriptPoller,
    alloc: Global,
    timeout: Option<Duration>,
    keys: &[u64],
) -> bool {
    let Ok(mut events) = Vec::with_capacity(alloc, 1024) else {
        return false;
    };
    poller.wait(timeout, 0, &mut events).is_ok()
        && events.len() == keys.len()
        && events.iter().zip(keys).all(|(event, key)| event.0 == *key
            && event.1.writable
            && !event.1.readable)
}

type Scripted<R> = Poll<ScriptPoller, ScriptClock, R>;

// Over a script, whose first eight waits are noted.
fn new_poll<R: Wait + Clone + Drop + Abort>(rt: &R, alloc: Global) -> Scripted<R> {
    let mut poller = ScriptPoller::new(alloc).expect(rt, "a poller");
    assert!(rt; poller.keep_waits(8).is_ok());
    let clock = poller.clock().expect(rt, "a clock");
    Poll::new(clone_of(rt), alloc, poller, clock).expect(rt, "a poll")
}

// Whether its clock shows this moment, and a clone of that too.
fn shows<R: Wait + Drop>(poll: &Scripted<R>, nanos: u64) -> bool {
    match poll.clock().clone() {
        Ok(clone) => poll.clock().now().nanos == nanos && clone.now().nanos == nanos,
        Err(_) => false,
    }
}

// Whether just these waits were asked.
fn was_asked<R: Wait + Drop>(poll: &mut Scripted<R>, wanted: &[Option<Duration>]) -> bool {
    poll.poller_mut().waits() == wanted
}

// The same, in milliseconds.
fn has_asked<R: Wait + Drop>(poll: &mut Scripted<R>, wanted: &[u64]) -> bool {
    let waits = poll.poller_mut().waits();
    waits.len() == wanted.len()
        && waits
            .iter()
            .zip(wanted)
            .all(|(asked, wanted)| *asked == millis(*wanted))
}

// Has the next wait end so.
fn ends_so<R: Wait + Drop>(poll: &mut Scripted<R>, millis: u64, end: ScriptEnd) -> bool {
    let answer = ScriptAnswer {
        moment: at(millis),
        end,
    };
    poll.poller_mut().script(answer).is_ok()
}

// A wait of 100 ms that is interrupted at these moments.
fn new_interrupted<R: Wait + Clone + Drop + Abort>(
    rt: &R,
    alloc: Global,
    moments: &[u64],
) -> Scripted<R> {
    let mut poll = new_poll(rt, alloc);
    for moment in moments {
        assert!(rt; ends_so(&mut poll, *moment, ScriptEnd::Interrupted));
    }
    assert!(rt; polls(rt, &mut poll, millis(100)));
    poll
}

// A cell with the hub of its key.
struct BellCell {
    core: PingCore,
    hub: SharedHub,
    ghost keyed: { is_some core.cell.key ≡ true → core.board ≡ arc_value hub },
}

impl Fits for BellCell {
    ghost use Rattle.std.specs.Prelude.{◌≡◌};

    type Tag = Name;

    ghost fits = { λ tag cell. cell.core.name ≡ tag };
}

impl Core for BellCell {
    fn dissolve(self, last: Last) {
        let BellCell { core, hub: _ } = self;
        core.dissolve(last);
    }
}

// A cell of a ping under its lock, with its receiving end and the board of its loop.
struct Bell<R: Wait + Drop> {
    rt: R,
    hub: SharedHub,
    lock: Locked<BellCell>,
    tally: Tally,
    ghost tied: { tally.name ≡ lock.tag },
}

impl<R: Wait + Clone + Drop> Bell<R> {
    fn new<P: Poller, C>(
        rt: &R,
        alloc: Global,
        poll: &Poll<P, C, R>,
    ) -> Result<Bell<R>, AllocError> {
        let its_rt = rt.clone()?;
        let (core, name, right) = PingCore::new();
        let hub = share(rt, poll.hub());
        let cell = BellCell {
            core,
            hub: share(rt, &hub),
        };
        let lock = Locked::new(alloc, cell, &name)?;
        let tally = receiver(rt, &lock, right);
        Ok(Bell {
            rt: its_rt,
            hub,
            lock,
            tally,
        })
    }
}

impl<R: Wait + Drop> Drop for Bell<R> {
    fn drop(self) {
        let Bell {
            rt,
            hub: _,
            lock,
            tally,
        } = self;
        abandon(&rt, &lock, tally);
    }
}

fn receiver<Q: Wait>(rt: &Q, lock: &Locked<BellCell>, right: ReceivingRight) -> Tally
    requires { right.name ≡ lock.now.tag }
    ensures { result.name ≡ lock.now.tag }
{
    let mut held = lock.lock(rt);
    let tally = held.core().core.receiver(right);
    held.unlock();
    tally
}

fn abandon<Q: Wait>(rt: &Q, lock: &Locked<BellCell>, tally: Tally)
    requires { tally.name ≡ lock.now.tag }
{
    let mut held = lock.lock(rt);
    let cell = held.core();
    let permit = cell.core.abandon(tally);
    let hub = share(rt, &cell.hub);
    held.unlock();
    if let Some(permit) = permit {
        hub.close_place(rt, permit);
    }
}

// A poll with two cells, in the slots 2 and 3.
#[derive(Drop)]
struct Desk<R: Wait + Drop> {
    poll: Scripted<R>,
    cell: Bell<R>,
    other: Bell<R>,
}

impl<R: Wait + Clone + Drop + Abort> Desk<R> {
    fn new(rt: &R, alloc: Global) -> Desk<R> {
        let poll = new_poll(rt, alloc);
        let mut cell = Bell::new(rt, alloc, &poll).expect(rt, "a cell");
        assert!(rt; register(rt, &mut cell, token(2)).is_ok());
        let mut other = Bell::new(rt, alloc, &poll).expect(rt, "a cell");
        assert!(rt; register(rt, &mut other, token(3)).is_ok());
        Desk { poll, cell, other }
    }
}

// Posts what is owed.
fn post<Q: Wait>(rt: &Q, hub: &Hub, debt: Option<Debt>)
    requires { IfSome debt (λ debt. debt.board ≡ hub.now) }
{
    if let Some(debt) = debt {
        hub.post(rt, debt);
    }
}

fn set_key<Q: Wait>(
    rt: &Q,
    lock: &Locked<BellCell>,
    tally: &mut Tally,
    hub: &SharedHub,
    pass: OpenedPass,
)
    requires tally { tally.old.name ≡ lock.now.tag }
    requires board { pass.board ≡ arc_value hub.now }
    ensures { tally.new.name ≡ lock.now.tag }
{
    let mine = share(rt, hub);
    let mut held = lock.lock(rt);
    let cell = held.core();
    let old = mem::replace(&mut cell.hub, mine);
    let (debt, permit) = cell.core.set_key(pass, tally);
    held.unlock();
    post(rt, hub, debt);
    if let Some(permit) = permit {
        old.close_place(rt, permit);
    }
}

// Opens the token's place, and gives the cell its key.
fn register<Q: Wait, R: Wait + Drop>(rt: &Q, bell: &mut Bell<R>, token: Token) -> Result<(), Error>
    requires { key_of token ≢ 2 ^ 64 - 1 }
{
    let pass = bell.hub.open_place(rt, token)?;
    set_key(rt, &bell.lock, &mut bell.tally, &bell.hub, pass);
    Ok(())
}

// Rings the cell, and posts its key if that is owed.
fn ring<Q: Wait, R: Wait + Drop>(rt: &Q, bell: &Bell<R>) {
    let mut held = bell.lock.lock(rt);
    let cell = held.core();
    let (_receipt, debt) = cell.core.ring();
    let hub = share(rt, &cell.hub);
    held.unlock();
    post(rt, &hub, debt);
}

fn open_turn<Q: Wait>(
    rt: &Q,
    lock: &Locked<BellCell>,
    tally: &mut Tally,
    pass: TakenPass,
) -> Result<OpenedTurn, TakenPass>
    requires { tally.old.name ≡ lock.now.tag }
    ensures name { tally.new.name ≡ lock.now.tag }
    ensures turn { IfOk result (λ o. o.turn.name ≡ lock.now.tag) }
    ensures refused { IfErr result (λ refused. refused.board ≡ pass.board) }
{
    let mut held = lock.lock(rt);
    let cell = held.core();
    let opened = cell.core.open_turn(pass, tally);
    held.unlock();
    opened
}

// Ends a turn, after which nothing is owed.
fn end_turn<Q: Wait>(rt: &Q, lock: &Locked<BellCell>, turn: PingTurn) -> Option<Debt>
    requires { turn.name ≡ lock.now.tag }
    ensures { result ≡ None }
{
    let mut held = lock.lock(rt);
    let cell = held.core();
    let debt = cell.core.end_turn(turn);
    held.unlock();
    debt
}

fn poll_once<Q: Wait, P: Poller, C, R: Wait + Drop>(
    rt: &Q,
    poll: &mut Poll<P, C, R>,
    timeout: Option<Duration>,
) -> Result<(), Error> {
    poll.reserve(0)?;
    poll.poll(rt, timeout)?;
    Ok(())
}

fn polls<Q: Wait, P: Poller, C, R: Wait + Drop>(
    rt: &Q,
    poll: &mut Poll<P, C, R>,
    timeout: Option<Duration>,
) -> bool {
    poll_once(rt, poll, timeout).is_ok()
}

// What is seen of the next event.
fn next<P: Poller, C, R: Wait + Drop>(poll: &mut Poll<P, C, R>) -> Option<Seen> {
    let event = poll.next_event()?;
    Some((event.token.key(), event.readiness.readable, event.posted))
}

// Whether just these events are left, which it takes.
fn gives<P: Poller, C, R: Wait + Drop>(poll: &mut Poll<P, C, R>, wanted: &[Seen]) -> bool {
    for seen in wanted {
        if next(poll) != Some(*seen) {
            return false;
        }
    }
    next(poll).is_none()
}

// A turn of the cell with the pass that lies behind the event: whether somebody rang, if it opens.
fn turn<Q: Wait, P: Poller, C, R: Wait + Drop>(
    rt: &Q,
    poll: &mut Poll<P, C, R>,
    bell: &mut Bell<R>,
) -> Option<bool> {
    let pass = poll.take_pass()?;
    match open_turn(rt, &bell.lock, &mut bell.tally, pass) {
        Ok(
            OpenedTurn {
                turn,
                rung,
                told: _,
            },
        ) => {
            post(rt, poll.hub(), end_turn(rt, &bell.lock, turn));
            Some(rung)
        }
        Err(pass) => {
            poll.put_back(pass);
            None
        }
    }
}

// The kind of the system's error that a refusal holds.
fn kind_of(answer: Result<(), Error>) -> Option<io::ErrorKind> {
    match answer {
        Err(Error::IoError(cause)) => Some(cause.kind()),
        _ => None,
    }
}

// Its first wait gives an event and fails, and later ones give none. It counts faults alone.
#[derive(Drop)]
struct FailsFirst {
    waits: u8,
    signal: Arc<AtomicBool, Global>,
}

impl Poller for FailsFirst {
    ghost outside = { record { reads = λ _ _ _. Unit {0}; waits = λ _ _ _ _ _. Unit {0}; calls = λ _ _ _ _. Unit {0}; faults = λ p. p.waits } };

    ghost sockets = { λ _ _ _ _ _. Unit {0} };

    fn add(&mut self, _fd: RawFd, _key: u64, _watched: Watched) -> io::Result<()> {
        Ok(())
    }

    fn modify(&mut self, _fd: RawFd, _key: u64, _watched: Watched) -> io::Result<()> {
        Ok(())
    }

    fn delete(&mut self, _fd: RawFd) -> io::Result<()> {
        Ok(())
    }

    fn now(&mut self) -> Instant {
        Instant { nanos: 0 }
    }

    fn wait(
        &mut self,
        _timeout: Option<Duration>,
        _left: usize,
        events: &mut Vec<(u64, Readiness)>,
    ) -> io::Result<()> {
        if self.waits > 0 {
            return Ok(());
        }
        self.waits = 1;
        events.push_reserved((7, WRITABLE));
        Err(io::Error::from(io::ErrorKind::PermissionDenied))
    }

    fn notifier(&self) -> Result<Notifier, Error> {
        Ok(Notifier::Script(Arc::try_clone(&self.signal)?))
    }
}

// Adds the event to the data, counts its calls in the metadata, and answers with the count.
#[derive(Drop)]
struct Adder;

impl<Q: Asking> Callback<u8, u8, u8, u8, Q> for Adder {
    ghost may = { λ _ _ _ _ _ _ _ _ _ _. Unit {0} };

    fn call(&mut self, event: u8, metadata: &mut u8, data: &mut u8, _requests: &mut Q) -> u8 {
        *data = data.saturating_add(event);
        *metadata = metadata.saturating_add(1);
        *metadata
    }
}

// Notes the moments that it is called with, and answers with this action.
#[derive(Drop)]
struct Noting {
    action: TimeoutAction,
}

impl On<Instant, Vec<Instant>, TimeoutAction> for Noting {
    fn on(&mut self, event: Instant, data: &mut Vec<Instant>) -> TimeoutAction {
        let _ = data.push(event);
        self.action
    }
}

type Alarm = Dispatcher<Timer, Noting>;

fn alarm(source: Timer, action: TimeoutAction) -> Alarm {
    Dispatcher {
        source,
        callback: Noting { action },
    }
}

// Registers it in the slot 0.
fn arms<R: Wait + Drop>(poll: &mut Scripted<R>, alarm: &mut Alarm) -> bool {
    let mut factory = TokenFactory::new(RegistrationToken::new(0, 0));
    Dispatch::<ScriptPoller, ScriptClock, R, Vec<Instant>, ()>::register(
        alarm,
        poll,
        &mut factory,
        &mut Error::OutOfMemory,
    ).is_ok()
}

// Gives the next event to the alarm.
fn serve<R: Wait + Drop>(
    poll: &mut Scripted<R>,
    alarm: &mut Alarm,
    moments: &mut Vec<Instant>,
) -> Option<PostAction> {
    let event = poll.next_event()?;
    let answer = alarm.process_events(
        event.readiness,
        event.token,
        poll,
        moments,
        &mut (),
        &mut Error::OutOfMemory,
    );
    poll.end_event();
    answer.ok()
}
