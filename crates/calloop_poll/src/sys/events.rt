//! The events that a wait brought for one registration.
ghost use Rattle.std.specs.Prelude.{◌≡◌, drop};
ghost use Rattle.calloop_poll.specs.sys.Events.{events_left, events_of};

use super::Readiness;
use super::poll::Pending;
use calloop_slots::token::{RegistrationToken, Token};
use std::collections::VecDeque;

/// Yields the events of one registration in the order in which the loop hands them out: posted keys, the poller's events, and
/// due timers. Events that were left over before the wait, or came of `before_sleep`, aren't among them.
#[derive(Clone, Copy)]
pub struct EventIterator<'a> {
    batch: &'a VecDeque<Pending>,
    at: usize,
    // The registration by its numbers: a token's content isn't copied when the token is handed on.
    slot: u32,
    version: u32,
}

impl<'a> EventIterator<'a> {
    // Only the events from this place on.
    pub(crate) fn new(
        batch: &'a VecDeque<Pending>,
        from: usize,
        registration: RegistrationToken,
    ) -> EventIterator<'a>
        ensures { events_left result ≡ events_of registration (drop from batch.now.items) }
    {
        EventIterator {
            batch,
            at: from,
            slot: registration.slot(),
            version: registration.version(),
        }
    }
}

impl Iterator for EventIterator<'_> {
    ghost use Rattle.calloop_poll.specs.sys.Events.{events_left};
    ghost use Rattle.std.specs.Iterator.{YieldsFirst, item_count};

    type Item = (Readiness, Token);

    ghost next_gives = { YieldsFirst events_left };

    ghost remaining = { item_count events_left };

    fn next(&mut self) -> Option<(Readiness, Token)> {
        while self.at < self.batch.len() {
            let event = self.batch[self.at];
            self.at += 1;
            let named = event.token.registration();
            if named.slot() == self.slot && named.version() == self.version {
                return Some((event.readiness, event.token));
            }
        }
        None
    }
}
