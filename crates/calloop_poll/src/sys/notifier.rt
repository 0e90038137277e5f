//! Wakers of a waiting poller.
use calloop_wake::Notify;
use mio::Waker;
use std::alloc::Global;
use std::io;
use std::sync::Arc;
use std::sync::atomic::{AtomicBool, AtomicU64, Ordering};

// What a `LazyWaker` knows of its poller: it doesn't wait, it may wait now, or somebody notified it since its last wait.
const AWAKE: u64 = 0;

const ASLEEP: u64 = 1;

const NOTIFIED: u64 = 2;

/// The waker of the OS poller. It writes only if that may be asleep, since a poller that is awake looks here before it sleeps:
/// so notifying a busy loop costs no system call. calloop writes to an eventfd each time.
#[derive(Drop)]
pub struct LazyWaker {
    waker: Waker,
    state: AtomicU64,
}

impl LazyWaker {
    /// Makes the waker of a poller that is awake.
    pub fn new(waker: Waker) -> LazyWaker {
        LazyWaker {
            waker,
            state: AtomicU64::new(AWAKE),
        }
    }

    /// Ends the current wait, or makes the next one return at once. OS errors are ignored: the wait ends by its timeout then.
    pub fn wake(&self) {
        if self.state.swap(NOTIFIED, Ordering::SeqCst) == ASLEEP {
            let _failed = self.waker.wake();
        }
    }

    /// True if a wait that begins now may sleep: nobody notified since the last one.
    pub fn fall_asleep(&self) -> bool {
        self.state
            .compare_exchange(AWAKE, ASLEEP, Ordering::SeqCst, Ordering::SeqCst)
            .is_ok()
    }

    /// Notes that a wait has ended with this result. A successful wait answers all notifications until now; after a failed one a
    /// notification stays for the next wait, which then doesn't sleep.
    pub fn end_wait(&self, answer: &io::Result<()>) {
        if answer.is_ok() {
            self.get_up();
        } else {
            self.stir();
        }
    }

    fn get_up(&self) {
        if self.state.load(Ordering::SeqCst) != AWAKE {
            self.state.store(AWAKE, Ordering::SeqCst);
        }
    }

    fn stir(&self) {
        let _found = self
            .state
            .compare_exchange(ASLEEP, AWAKE, Ordering::SeqCst, Ordering::SeqCst);
    }
}

/// Wakes its poller, from any thread: a wait of the OS poller ends, or else its next one returns at once. A scripted one only
/// notes it, as `ScriptPoller::is_woken` shows.
#[derive(Drop)]
pub enum Notifier {
    /// The scripted poller's: its signal.
    Script(Arc<AtomicBool, Global>),
    /// The OS poller's.
    Mio(Arc<LazyWaker, Global>),
}

impl Notify for Notifier {
    /// OS errors are ignored: the wait ends by its timeout then.
    fn notify(&self) {
        match self {
            Notifier::Script(signal) => signal.store(true, Ordering::SeqCst),
            Notifier::Mio(waker) => waker.wake(),
        }
    }
}
