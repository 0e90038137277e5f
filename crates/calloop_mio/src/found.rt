//! The events of a wait of the OS.
ghost use Rattle.std.specs.Prelude.{◌≡◌, ◌+◌, ◌≤◌, ◌++◌, true, [], Some, length, vec_len, vec_capacity, OnErr};
ghost use Rattle.std.specs.IoError.{error_kind};
ghost use Rattle.std.specs.declared.io.ErrorKind.TheVariants.{Interrupted};
ghost use Rattle.mio.specs.Events.{items, capacity as events_capacity};
ghost use Rattle.calloop_poll.specs.sys.Pollers.{events_per_wait, failure_of};
ghost use Rattle.calloop_mio.specs.SystemEvents.{readiness_of, told_events};

use super::OWN_KEY;
use calloop_poll::sys::{EVENTS_PER_WAIT, Readiness};
use calloop_slots::wheel::Instant;
use mio::event::Event;
use mio::{Events, Poll};
use std::alloc::{AllocError, Global};
use std::io;
use std::time::Duration;

// In nanoseconds: how long after events were served the wait for further ones doesn't sleep.
const BUSY: u64 = 100_000;

/// What the OS found in the last wait, at most 1,024 events; or how that wait failed.
#[derive(Drop)]
pub struct Found {
    events: Events,
    // The kind of the last wait's error.
    failed: Option<io::ErrorKind>,
    // When the events found last were served.
    served: Option<Instant>,
    ghost room: { events_capacity events ≤ events_per_wait },
    ghost few: { length (items events) ≤ events_per_wait },
}

impl Found {
    /// Makes an empty one. All its memory is taken now.
    pub fn new(alloc: Global) -> Result<Found, AllocError> {
        Ok(Found {
            events: Events::with_capacity(alloc, EVENTS_PER_WAIT)?,
            failed: None,
            served: None,
        })
    }

    /// Notes that the next wait begins now: the events of the last one, if there were any, were served until now.
    pub fn note_served(&mut self, now: Instant)
        ensures { self.new ≡ record self.old { served = self.new.served } }
    {
        if !self.is_empty() {
            self.served = Some(now);
        }
    }

    /// True if events were served so recently that further ones are likely to come at once.
    pub fn is_busy(&self, now: Instant) -> bool {
        match self.served {
            Some(served) => now < served.after(Duration::from_nanos(BUSY)),
            None => false,
        }
    }

    /// Waits. If that fails, nothing was found, and the kind of the error is kept.
    pub fn wait(&mut self, poll: &mut Poll, timeout: Option<Duration>) -> io::Result<()>
        ensures events { OnErr result (items self.new.events ≡ []) }
        ensures failed { failure_of result ≡ self.new.failed }
    {
        let answer = poll.poll(&mut self.events, timeout);
        self.failed = match &answer {
            Ok(()) => None,
            Err(cause) => Some(cause.kind()),
        };
        answer
    }

    /// Forgets the events, as after a wait that found none.
    pub fn clear(&mut self)
        ensures events { items self.new.events ≡ [] }
        ensures failed { self.new.failed ≡ None }
    {
        self.events.clear();
        self.failed = None;
    }

    /// True if the last wait found nothing and wasn't ended by the poller's own waker.
    pub fn is_empty(&self) -> bool
        ensures { result ≡ true → items self.now.events ≡ [] }
    {
        self.events.is_empty()
    }

    /// Takes a wait that found nothing as interrupted: returns its error, whose kind is kept.
    pub fn interruption(&mut self) -> io::Error
        ensures kind { error_kind result ≡ Interrupted }
        ensures failed { self.new ≡ record self.old { failed = Some Interrupted } }
    {
        self.failed = Some(io::ErrorKind::Interrupted);
        io::Error::from(io::ErrorKind::Interrupted)
    }

    /// Appends the events that the loop is told of.
    pub fn append_to(&self, events: &mut Vec<(u64, Readiness)>)
        requires { vec_len events.old + events_per_wait ≤ vec_capacity events.old }
        ensures items { events.new.items ≡ events.old.items ++ told_events (items self.now.events) }
        ensures few { length (told_events (items self.now.events)) ≤ events_per_wait }
        ensures room { vec_capacity events.new ≡ vec_capacity events.old }
    {
        append(self.events.iter().as_slice(), events);
    }
}

fn readiness_of(event: &Event) -> Readiness
    ensures { result ≡ readiness_of event.now }
{
    Readiness {
        readable: event.is_readable() || event.is_read_closed() || event.is_error(),
        writable: event.is_writable() || event.is_write_closed() || event.is_error(),
        error: event.is_error(),
    }
}

// Appends the events that the loop is told of, of those found.
fn append(found: &[Event], events: &mut Vec<(u64, Readiness)>)
    requires { vec_len events.old + length found.now ≤ vec_capacity events.old }
    ensures items { events.new.items ≡ events.old.items ++ told_events found.now }
    ensures room { vec_capacity events.new ≡ vec_capacity events.old }
{
    for event in found {
        let token = event.token();
        if token != OWN_KEY {
            events.push_reserved((token.0 as u64, readiness_of(event)));
        }
    }
}
