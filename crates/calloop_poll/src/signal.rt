//! Signals that end a loop's waits and its runs, from any thread. From calloop's `loop_logic.rs`.
ghost use Rattle.std.specs.Prelude.{◌≡◌, IfOk};
ghost use Rattle.std.specs.Arc.{arc_value};
ghost use Rattle.calloop_poll.specs.Signals.{AreOfOneLoop};

use crate::sys::notifier::Notifier;
use calloop_wake::Notify;
use calloop_wake::ghosts::Name;
use std::alloc::{AllocError, Global};
use std::marker::Model;
use std::sync::Arc;
use std::sync::atomic::{AtomicBool, Ordering};

// The name, seen by contracts alone, that a loop and its signals share.
#[derive(Drop)]
struct Shared {
    name: Name,
    stopped: AtomicBool,
    notifier: Notifier,
}

/// Stops the runs of its loop and ends the loop's waits, from any thread. It may outlive the loop, and then does nothing.
#[derive(Drop)]
pub struct LoopSignal {
    shared: Arc<Shared, Global>,
}

impl LoopSignal {
    /// Lets the current run end after its dispatch, and begin no other one. It is one store: it takes no lock and no memory, and
    /// ends no wait. A run that begins later forgets it.
    pub fn stop(&self) {
        self.shared.stopped.store(true, Ordering::SeqCst);
    }

    /// Ends the current wait, or else the next one, of the poller that the loop was made with.
    pub fn wakeup(&self) {
        self.shared.notifier.notify();
    }
}

impl Clone for LoopSignal {
    ghost use Rattle.calloop_poll.specs.Signals.{AreOfOneLoop};

    ghost is_clone = { AreOfOneLoop };

    /// Returns another signal of the same loop. Fails if there are 2^63 of them.
    fn clone(&self) -> Result<LoopSignal, AllocError> {
        Ok(LoopSignal {
            shared: Arc::try_clone(&self.shared)?,
        })
    }
}

/// A loop's own signal. Only the loop has it, so only the loop looks for a stop, and forgets one. In a clause it is that signal.
#[derive(Drop)]
pub struct OwnSignal {
    signal: LoopSignal,
}

impl Model for OwnSignal {
    ghost use Rattle.calloop_poll.specs.declared.signal.LoopSignal.{LoopSignal};

    ghost Value = { LoopSignal };

    ghost view = { λ own. own.signal };
}

impl OwnSignal {
    /// Makes the signal of a loop over this notifier's poller. Nobody has stopped the loop yet.
    pub fn new(alloc: Global, notifier: Notifier) -> Result<OwnSignal, AllocError>
        ensures { IfOk result (λ own. (arc_value own.shared).notifier ≡ notifier) }
    {
        let shared = Shared {
            name: Name::fresh(),
            stopped: AtomicBool::new(false),
            notifier,
        };
        Ok(OwnSignal {
            signal: LoopSignal {
                shared: Arc::new(alloc, shared)?,
            },
        })
    }

    /// Returns a signal of this loop for others. Fails if there are 2^63 of them.
    pub fn share(&self) -> Result<LoopSignal, AllocError>
        ensures { IfOk result (AreOfOneLoop self.now) }
    {
        self.signal.clone()
    }

    /// True if a signal of this loop stopped it since the last `forget_stop`.
    pub fn is_stopped(&self) -> bool {
        self.signal.shared.stopped.load(Ordering::SeqCst)
    }

    /// Forgets earlier stops, as when a run begins.
    pub fn forget_stop(&self) {
        self.signal.shared.stopped.store(false, Ordering::SeqCst);
    }
}
