//! The lock that the ends of a cell share, taken and read by several threads.
use calloop_wake::Last;
use calloop_wake::ghosts::Name;
use calloop_wake::locked::{Awaited, Core, Locked};
use calloop_wake::ping::PingCore;
use counted_slot::Fits;
use std::alloc::Global;
use std::process::Abort;
use std::sync::{Arc, Wait};
use std::thread;
use std::time::Duration;

#[test]
fn a_lock_lets_one_thread_in_at_a_time(rt: HostRuntime) {
    let its_rt = rt.clone().expect(&rt, "a runtime");
    let lock = new_tally(&rt, rt.alloc());
    let theirs = Arc::try_clone(&lock).expect(&rt, "a lock");
    let child = thread::spawn(&rt, move || add(&its_rt, &theirs, 50_000)).expect(&rt, "a thread");
    add(&rt, &lock, 50_000);
    child.join(&rt);
    assert_eq!(rt; count(&rt, &lock), 100_000);
}

#[test]
fn a_lock_is_read_while_another_thread_takes_it(rt: HostRuntime) {
    let its_rt = rt.clone().expect(&rt, "a runtime");
    let lock = new_tally(&rt, rt.alloc());
    let theirs = Arc::try_clone(&lock).expect(&rt, "a lock");
    let child = thread::spawn(&rt, move || add(&its_rt, &theirs, 50_000)).expect(&rt, "a thread");
    assert!(rt; only_grows(&rt, &lock, 50_000));
    child.join(&rt);
    assert_eq!(rt; count(&rt, &lock), 50_000);
}

#[test]
fn a_wait_loses_no_wake(rt: HostRuntime) {
    let its_rt = rt.clone().expect(&rt, "a runtime");
    let lock = new_tally(&rt, rt.alloc());
    let theirs = Arc::try_clone(&lock).expect(&rt, "a lock");
    let child = thread::spawn(&rt, move || take_turns(&its_rt, &theirs, 1)).expect(&rt, "a thread");
    take_turns(&rt, &lock, 0);
    child.join(&rt);
    assert_eq!(rt; count(&rt, &lock), 40_000);
}

#[test]
fn a_hint_stands_until_the_lock_is_taken_again(rt: HostRuntime) {
    let lock = new_tally(&rt, rt.alloc());
    assert!(rt; !lock.has_hint(0));
    leave_hint(&rt, &lock, 7);
    assert!(rt; lock.has_hint(7) && lock.has_hint(7));
    assert!(rt; !lock.has_hint(6) && !lock.has_hint(8));
    let mut held = lock.lock(&rt);
    let left = held.core().count;
    let is_hidden = !lock.has_hint(7);
    held.unlock();
    assert!(rt; is_hidden && left == 7);
    assert!(rt; !lock.has_hint(7));
}

#[test]
fn the_highest_two_numbers_are_no_hints(rt: HostRuntime) {
    let lock = new_tally(&rt, rt.alloc());
    leave_hint(&rt, &lock, u64::MAX - 2);
    assert!(rt; lock.has_hint(u64::MAX - 2));
    leave_hint(&rt, &lock, u64::MAX - 1);
    assert!(rt; !lock.has_hint(u64::MAX - 1) && !lock.has_hint(u64::MAX - 2));
    leave_hint(&rt, &lock, u64::MAX);
    assert!(rt; !lock.has_hint(u64::MAX));
}

// It hangs if who gives the lock up wakes nobody.
#[test]
fn who_sleeps_for_a_lock_has_it_once_it_is_given_up(rt: HostRuntime) {
    for leaves_hint in [false, true] {
        let its_rt = rt.clone().expect(&rt, "a runtime");
        let lock = new_tally(&rt, rt.alloc());
        let theirs = Arc::try_clone(&lock).expect(&rt, "a lock");
        let mut held = lock.lock(&rt);
        held.core().count = 7;
        let spawned = thread::spawn(&rt, move || add(&its_rt, &theirs, 1));
        thread::sleep(&rt, Duration::from_millis(30));
        if leaves_hint {
            held.unlock_with_hint(7);
        } else {
            held.unlock();
        }
        spawned.expect(&rt, "a thread").join(&rt);
        assert_eq!(rt; count(&rt, &lock), 8);
    }
}

// How often somebody had the lock, beside a cell, which alone can end what lies under one.
struct Tally {
    core: PingCore,
    count: u64,
}

impl Fits for Tally {
    ghost use Rattle.std.specs.Prelude.{◌≡◌};

    type Tag = Name;

    ghost fits = { λ tag tally. tally.core.name ≡ tag };
}

impl Core for Tally {
    ghost use Rattle.std.specs.Prelude.{◌≡◌};

    // A hint is the count.
    ghost hints = { λ number tally. tally.count ≡ number };

    fn dissolve(self, last: Last) {
        let Tally { core, count: _ } = self;
        core.dissolve(last);
    }
}

fn new_tally<R: Abort>(rt: &R, alloc: Global) -> Arc<Locked<Tally>, Global> {
    let (core, name, _right) = PingCore::new();
    Arc::new(
        alloc,
        Locked::new(alloc, Tally { core, count: 0 }, &name).expect(rt, "a lock"),
    )
    .expect(rt, "a lock")
}

// Takes the lock so often, and counts each time.
fn add<R: Wait>(rt: &R, lock: &Locked<Tally>, times: u64) {
    for _ in 0..times {
        let mut held = lock.lock(rt);
        let tally = held.core();
        tally.count = tally.count.wrapping_add(1);
        held.unlock();
    }
}

// Sets the count, and leaves it as a hint.
fn leave_hint<R: Wait>(rt: &R, lock: &Locked<Tally>, count: u64) {
    let mut held = lock.lock(rt);
    held.core().count = count;
    held.unlock_with_hint(count);
}

// Waits until the count is odd, or even, and counts once.
fn take_turn<R: Wait>(rt: &R, lock: &Locked<Tally>, odd: u64) {
    let mut held = lock.lock(rt);
    for _ in rt.forever() {
        let tally = held.core();
        if tally.count % 2 == odd {
            tally.count = tally.count.wrapping_add(1);
            held.unlock();
            lock.notify_all(Awaited::Content);
            return;
        }
        held = held.wait(rt, Awaited::Content);
    }
    held.unlock();
    unreachable!()
}

fn take_turns<R: Wait>(rt: &R, lock: &Locked<Tally>, odd: u64) {
    for _ in 0..20_000 {
        take_turn(rt, lock, odd);
    }
}

fn count<R: Wait>(rt: &R, lock: &Locked<Tally>) -> u64 {
    let mut held = lock.lock(rt);
    let count = held.core().count;
    held.unlock();
    count
}

// Reads the count so often: whether it never went back.
fn only_grows<R: Wait>(rt: &R, lock: &Locked<Tally>, times: u64) -> bool {
    let mut last = 0;
    let mut grows = true;
    for _ in 0..times {
        let now = count(rt, lock);
        grows = grows && last <= now;
        last = now;
    }
    grows
}
