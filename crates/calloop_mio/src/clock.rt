//! The OS clock.
ghost use Rattle.std.specs.Prelude.{◌≡◌};
ghost use Rattle.calloop_mio.specs.Clocks.{nanos_between};

use calloop_poll::sys::Clock;
use calloop_slots::wheel::Instant;
use std::alloc::AllocError;
use std::thread;
use std::time::{Clock as MachineClock, Duration, Instant as Reading};

/// Shows the nanoseconds since it was made, at most 2^64 - 1, and 0 if the OS clock can't be read. Its clones count from
/// the same moment. It keeps a clone of the runtime, to read the OS clock.
#[derive(Drop)]
pub struct SystemClock<R> {
    rt: R,
    start: Option<Reading>,
}

impl<R: MachineClock + Clone + Drop> SystemClock<R> {
    /// Makes a clock that shows 0 now. If the OS clock can't be read now, it shows 0 for good.
    pub fn new(rt: &R) -> Result<SystemClock<R>, AllocError> {
        Ok(SystemClock {
            rt: rt.clone()?,
            start: Reading::now(rt).ok(),
        })
    }
}

impl<R: MachineClock + Clone + Drop> Clone for SystemClock<R> {
    ghost is_clone = { λ clock again. again.start ≡ clock.start };

    fn clone(&self) -> Result<SystemClock<R>, AllocError> {
        Ok(SystemClock {
            rt: self.rt.clone()?,
            start: self.start,
        })
    }
}

impl<R: MachineClock + Clone + Drop> Clock for SystemClock<R> {
    ghost use Rattle.std.specs.Prelude.{◌≡◌, Option};
    ghost use Rattle.std.specs.declared.time.Instant.{Instant};
    ghost use Rattle.calloop_mio.specs.Clocks.{nanos_between};

    // What is read is up to the OS.
    ghost shows = { λ clock now. (read : Option Instant) × (now ≡ nanos_between clock.start read) };

    fn now(&self) -> Instant {
        between(self.start, Reading::now(&self.rt).ok())
    }

    fn sleep(&self, time: Duration) {
        thread::sleep(&self.rt, time)
    }
}

// The time from one reading to another.
fn between(start: Option<Reading>, read: Option<Reading>) -> Instant
    ensures { result.nanos ≡ nanos_between start read }
{
    let beginning = Instant { nanos: 0 };
    match (start, read) {
        (Some(start), Some(read)) => beginning.after(read.duration_since(start)),
        _ => beginning,
    }
}
