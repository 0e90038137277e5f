//! The events that a source asks for before a wait.
ghost use Rattle.std.specs.Prelude.{◌≡◌, ◌≤◌, [], OnOk, length};
ghost use Rattle.calloop_poll.specs.sys.Synthetics.{Pushed};

use super::Readiness;
use calloop_slots::token::Token;
use std::alloc::{AllocError, Global};
use std::marker::Model;

/// The argument of `before_sleep`: it takes as many events as the source may ask for before one wait. They are handed out in
/// their order, before anything that the wait brings. calloop's `before_sleep` returns one event instead.
#[derive(Debug, Drop)]
pub struct Synthetic {
    given: Vec<(Readiness, Token)>,
    limit: usize,
}

impl Model for Synthetic {
    ghost use Rattle.std.specs.Prelude.{◌≤◌, vec_len, vec_capacity};
    ghost use Rattle.calloop_poll.specs.sys.Synthetics.{SyntheticView};

    ghost Value = { SyntheticView };

    ghost view = { λ s. record { given = s.given.items; limit = s.limit; room = vec_capacity s.given } };

    ghost invariant = { λ s. (vec_len s.given ≤ s.limit) × (s.limit ≤ vec_capacity s.given) };
}

impl Synthetic {
    /// Makes one that takes no event, and has room for none.
    pub fn new(alloc: Global) -> Synthetic
        ensures { result ≡ record { given = []; limit = 0; room = result.room } }
    {
        Synthetic {
            given: Vec::new(alloc),
            limit: 0,
        }
    }

    /// Makes room for so many events, but takes none yet. Running out of memory leaves the room unchanged.
    pub fn reserve(&mut self, events: usize) -> Result<(), AllocError>
        ensures ok { OnOk result (events ≤ self.new.room) }
        ensures others { self.new ≡ record { given = []; limit = 0; room = self.new.room } }
    {
        self.given.clear();
        self.limit = 0;
        self.given.reserve(events)
    }

    /// Takes up to `limit` events from now on; none is asked for yet.
    pub fn lend(&mut self, limit: u16)
        requires { limit ≤ self.old.room }
        ensures { self.new ≡ record self.old { given = []; limit = limit } }
    {
        self.given.clear();
        self.limit = usize::from(limit);
    }

    /// Asks for an event of this token, behind those that were asked for before. It takes no memory. If the limit of the source
    /// is reached, both are handed back.
    pub fn push(&mut self, readiness: Readiness, token: Token) -> Result<(), (Readiness, Token)>
        ensures pushed { Pushed self.old (readiness, token) result self.new }
        ensures lent { self.new ≡ record self.old { given = self.new.given } }
        ensures within { length self.new.given ≤ self.new.limit }
    {
        if self.given.len() == self.limit {
            return Err((readiness, token));
        }
        self.given.push_reserved((readiness, token));
        Ok(())
    }

    /// Returns the events asked for, in order.
    pub fn events(&self) -> &[(Readiness, Token)]
        ensures { result.now ≡ self.now.given }
    {
        self.given.as_slice()
    }
}
