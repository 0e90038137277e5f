//! Threads that sleep until something happens.
use std::sync::Wait;
use std::sync::atomic::{AtomicU64, Ordering};

/// The threads that wait for an event, and the number of calls because it happened. A thread that waits joins them, reads that
/// number, looks whether it has to wait, and sleeps unless there was a call since. So no thread sleeps through what happens after
/// it joined, and a caller looks at one word if nobody waits.
#[derive(Drop)]
pub(crate) struct Sleepers {
    joined: AtomicU64,
    calls: AtomicU64,
}

impl Sleepers {
    /// No threads.
    pub(crate) fn none() -> Sleepers {
        Sleepers {
            joined: AtomicU64::new(0),
            calls: AtomicU64::new(0),
        }
    }

    /// Another thread waits.
    pub(crate) fn join(&self) {
        self.joined.fetch_add(1, Ordering::SeqCst);
    }

    /// A thread has waited.
    pub(crate) fn leave(&self) {
        self.joined.fetch_sub(1, Ordering::SeqCst);
    }

    /// The number of calls up to now.
    pub(crate) fn calls(&self) -> u64 {
        self.calls.load(Ordering::SeqCst)
    }

    /// Sleeps, unless there were more calls than this. Can return for no reason.
    pub(crate) fn sleep<R: Wait>(&self, rt: &R, calls: u64) {
        self.calls.park(rt, (calls & 0xffff_ffff) as u32);
    }

    /// Wakes one of them.
    pub(crate) fn notify_one(&self) {
        if self.count() {
            self.calls.wake_one();
        }
    }

    /// Wakes all of them.
    pub(crate) fn notify_all(&self) {
        if self.count() {
            self.calls.wake_all();
        }
    }

    // Counts a call, if any thread waits.
    fn count(&self) -> bool {
        let some = self.joined.load(Ordering::SeqCst) != 0;
        if some {
            self.calls.fetch_add(1, Ordering::SeqCst);
        }
        some
    }
}
