//! Which adapters are to be settled, and what wakes the machine's poller.
ghost use Rattle.std.specs.Prelude.{◌≡◌};

use super::{Scripted, new_poll};
use calloop_poll::sys::hub::Hub;
use calloop_poll::sys::notifier::{LazyWaker, Notifier};
use calloop_slots::token::RegistrationToken;
use calloop_slots::widths::MOST_SLOTS;
use calloop_wake::watch::Watch;
use mio::{Poll, Token, Waker};
use std::alloc::{AllocGlobal, Global};
use std::io;
use std::net::Net;
use std::process::Abort;
use std::sync::atomic::{AtomicBool, Ordering};
use std::sync::{Arc, Wait};

#[test]
fn both_of_two_marks_are_taken_once_and_in_the_order_of_their_slots(rt: HostRuntime) {
    let mut desk = Desk::new(&rt);
    assert!(rt; desk.takes_none());
    assert!(rt; desk.marks_as(2) && desk.marks_as(1));
    assert!(rt; desk.takes(&[1, 2]));
    assert!(rt; desk.takes_none());
}

#[test]
fn what_was_settled_does_not_come_again(rt: HostRuntime) {
    let mut desk = Desk::new(&rt);
    assert!(rt; desk.marks_as(1) && desk.marks_as(2));
    assert!(rt; desk.takes(&[1, 2]));
    assert!(rt; desk.marks_as(3));
    assert!(rt; desk.takes(&[3]));
    assert!(rt; desk.marks_as(4));
    assert!(rt; desk.takes(&[4]));
    assert!(rt; desk.takes_none());
}

#[test]
fn each_mark_wakes_the_loop(rt: HostRuntime) {
    let mut bell = Bell::new(&rt);
    assert!(rt; !bell.is_woken());
    assert!(rt; bell.marks_as(1) && bell.is_woken());
    assert!(rt; bell.marks_as(2) && bell.is_woken());
    assert!(rt; bell.takes(&[1, 2]) && !bell.is_woken());
    assert!(rt; bell.marks_as(1) && bell.is_woken());
}

#[test]
fn who_was_notified_does_not_sleep_before_its_wait_has_ended(rt: HostRuntime) {
    let (_poll, waker) = lazy(&rt);
    assert!(rt; waker.fall_asleep());
    waker.end_wait(&Ok(()));
    waker.wake();
    assert!(rt; !waker.fall_asleep());
    assert!(rt; !waker.fall_asleep());
    waker.end_wait(&Ok(()));
    assert!(rt; waker.fall_asleep());
}

#[test]
fn a_wait_that_failed_keeps_a_notification(rt: HostRuntime) {
    let (_poll, waker) = lazy(&rt);
    assert!(rt; waker.fall_asleep());
    waker.wake();
    waker.end_wait(&failed());
    assert!(rt; !waker.fall_asleep());
    waker.end_wait(&failed());
    assert!(rt; !waker.fall_asleep());
}

#[test]
fn a_wait_that_failed_lets_the_next_one_sleep(rt: HostRuntime) {
    let (_poll, waker) = lazy(&rt);
    assert!(rt; waker.fall_asleep());
    waker.end_wait(&failed());
    assert!(rt; waker.fall_asleep());
    waker.end_wait(&failed());
    assert!(rt; waker.fall_asleep());
}

fn failed() -> io::Result<()> {
    Err(io::Error::from(io::ErrorKind::Interrupted))
}

// A loop's `Poll` with room for four marks.
#[derive(Drop)]
struct Desk<R: Wait + Drop> {
    rt: R,
    poll: Scripted<R>,
}

impl<R: AllocGlobal + Wait + Clone + Drop + Abort> Desk<R> {
    fn new(rt: &R) -> Desk<R> {
        let poll = new_poll(rt, rt.alloc());
        for _ in 0..4u32 {
            poll.hub().open_mark(rt).expect(rt, "room");
        }
        Desk {
            rt: rt.clone().expect(rt, "a runtime"),
            poll,
        }
    }
}

impl<R: Wait + Drop> Desk<R> {
    // Marks the adapter of this slot.
    fn marks_as(&self, slot: u32) -> bool {
        self.poll.hub().mark(&self.rt, registration(slot)).is_ok()
    }

    // Whether those of these slots are marked. They are settled then.
    fn takes(&mut self, slots: &[u32]) -> bool {
        let Some(marked) = self.poll.take_marks() else {
            return false;
        };
        let are_these = are_of(&marked, slots);
        self.poll.give_marks_back(marked);
        are_these
    }

    fn takes_none(&mut self) -> bool {
        self.poll.take_marks().is_none()
    }
}

// A hub with room for four marks, whose wakeups are noted.
#[derive(Drop)]
struct Bell<R: Wait + Drop> {
    rt: R,
    hub: Hub,
    watch: Watch,
    woken: Arc<AtomicBool, Global>,
    ghost own: { watch.name ≡ hub },
}

impl<R: AllocGlobal + Wait + Clone + Drop + Abort> Bell<R> {
    fn new(rt: &R) -> Bell<R> {
        let woken = Arc::new(rt.alloc(), AtomicBool::new(false)).expect(rt, "a signal");
        let again = Arc::try_clone(&woken).expect(rt, "a signal");
        let (hub, watch) = Hub::new(rt.alloc(), Notifier::Script(again)).expect(rt, "a hub");
        for _ in 0..4u32 {
            hub.open_mark(rt).expect(rt, "room");
        }
        Bell {
            rt: rt.clone().expect(rt, "a runtime"),
            hub,
            watch,
            woken,
        }
    }
}

impl<R: Wait + Drop> Bell<R> {
    // Marks the adapter of this slot.
    fn marks_as(&self, slot: u32) -> bool {
        self.hub.mark(&self.rt, registration(slot)).is_ok()
    }

    // Whether those of these slots were marked, in this order. They are settled then.
    fn takes(&mut self, slots: &[u32]) -> bool {
        let Some(marked) = self.hub.take_marks(&self.rt, &mut self.watch) else {
            return false;
        };
        let are_these = are_of(&marked, slots);
        self.hub.give_marks_back(&self.rt, marked);
        are_these
    }

    // Whether the loop was woken since this was asked before.
    fn is_woken(&self) -> bool {
        self.woken.swap(false, Ordering::SeqCst)
    }
}

// The first registration of a slot, modulo how many there are.
fn registration(slot: u32) -> RegistrationToken {
    RegistrationToken::new(slot % MOST_SLOTS as u32, 0)
}

fn are_of(marked: &[RegistrationToken], slots: &[u32]) -> bool {
    marked.len() == slots.len()
        && marked.iter().zip(slots).all(|(token, slot)| *token
            == RegistrationToken::new(*slot % MOST_SLOTS as u32, 0))
}

// The waker of a poller of the machine that is awake.
fn lazy<R: Net + Abort>(rt: &R) -> (Poll, LazyWaker) {
    let poll = Poll::new(rt).expect(rt, "a poller");
    let waker = Waker::new(poll.registry(), Token(usize::MAX)).expect(rt, "a waker");
    (poll, LazyWaker::new(waker))
}
