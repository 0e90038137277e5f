//! How a wait of the OS poller is cut into portions, so that it ends when its time is over: `mio` waits for whole milliseconds,
//! and rounds them up.
ghost use Rattle.std.specs.Prelude.{◌≡◌, ◌-◌, ◌%◌, ◌^◌, min};
ghost use Rattle.std.specs.Duration.{as_nanos};
ghost use Rattle.calloop_poll.specs.sys.Pollers.{nanos_of};
ghost use Rattle.calloop_mio.specs.Portions.{IsPortion, IsPortionOf};

use std::time::Duration;

// In nanoseconds: at least this much is left after a wait of whole milliseconds, which ends at most this late.
const MARGIN: u64 = 150_000;

// In nanoseconds: for less than this the OS is asked again and again, since a sleep may end this late.
const SPIN: u64 = 80_000;

// In nanoseconds: the longest sleep, in which no event is seen.
const NAP: u64 = 100_000;

const MILLISECOND: u32 = 1_000_000;

/// How exactly a wait ends by its timeout, e.g. a wait for the next timer.
#[derive(Clone, Copy, Debug, PartialEq, Eq)]
pub enum Precision {
    /// Up to a millisecond late. An event ends the wait at once.
    Milliseconds,
    /// Some microseconds late. In the last 1.15 milliseconds it sleeps for 0.1 at a time, so an event can wait so long. In
    /// the last 0.08 it asks the OS again and again, and also for 0.1 after each event that was served, so traffic isn't delayed.
    Microseconds,
}

/// A portion of a wait: a sleep, and then a wait for events.
#[derive(Clone, Copy)]
pub(super) struct Portion {
    pub(super) asleep: Duration,
    pub(super) waiting: Option<Duration>,
}

impl Precision {
    /// The next portion of a wait for this timeout.
    pub(super) fn portion(self, timeout: Option<Duration>) -> Portion
        ensures { IsPortion (nanos_of timeout) result }
    {
        match (self, timeout) {
            (Precision::Microseconds, Some(timeout)) => short_of(timeout),
            (Precision::Milliseconds, _) | (_, None) => Portion {
                asleep: Duration::ZERO,
                waiting: timeout,
            },
        }
    }
}

// A portion that ends before so much time is over, or shortly after it.
fn short_of(time: Duration) -> Portion
    ensures { IsPortionOf (as_nanos time) result }
{
    let whole = whole_millis(time.saturating_sub(Duration::from_nanos(MARGIN)));
    if !whole.is_zero() {
        return Portion {
            asleep: Duration::ZERO,
            waiting: Some(whole),
        };
    }
    Portion {
        asleep: lesser(
            Duration::from_nanos(NAP),
            time.saturating_sub(Duration::from_nanos(SPIN)),
        ),
        waiting: Some(Duration::ZERO),
    }
}

fn lesser(a: Duration, b: Duration) -> Duration
    ensures { as_nanos result ≡ min (as_nanos a) (as_nanos b) }
{
    if a < b { a } else { b }
}

// The whole milliseconds of a time.
fn whole_millis(time: Duration) -> Duration
    ensures { as_nanos result ≡ as_nanos time - as_nanos time % 10 ^ 6 }
{
    time.saturating_sub(Duration::from_nanos(u64::from(time.subsec_nanos() % MILLISECOND)))
}
