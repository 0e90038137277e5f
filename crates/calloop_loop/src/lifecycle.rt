//! The registrations whose sources are told of waits.
ghost use Rattle.std.specs.Prelude.{◌≡◌, ◌<◌, ◌&&◌, not, [], true, false, Some, OnErr, OnOk, filter, slice_get, vec_len, if◌then◌else◌};
ghost use Rattle.calloop_loop.specs.Held.{is_another, is_listed, with_listing};
ghost use Rattle.calloop_loop.specs.Rooms.{HasRoom};

use calloop_slots::token::RegistrationToken;
use std::alloc::{AllocError, Global};

/// The registrations in the order of their entry, each once.
#[derive(Drop)]
pub(super) struct Lifecycle {
    tokens: Vec<RegistrationToken>,
}

impl Lifecycle {
    pub(super) fn new(alloc: Global) -> Lifecycle
        ensures { result.tokens.items ≡ [] }
    {
        Lifecycle {
            tokens: Vec::new(alloc),
        }
    }

    pub(super) fn len(&self) -> usize
        ensures { result ≡ vec_len self.now.tokens }
    {
        self.tokens.len()
    }

    // The registration at this place.
    pub(super) fn at(&self, place: usize) -> RegistrationToken
        requires { place < vec_len self.now.tokens }
        ensures { slice_get self.now.tokens.items place ≡ Some result }
    {
        self.tokens[place]
    }

    // Makes room for another registration, if needed.
    pub(super) fn reserve(&mut self, needed: bool) -> Result<(), AllocError>
        ensures room { OnOk result (HasRoom needed self.new) }
        ensures err { OnErr result (needed ≡ true) }
        ensures same { self.new.tokens.items ≡ self.old.tokens.items }
    {
        if needed {
            self.tokens.reserve(1)?;
        }
        Ok(())
    }

    // Makes room for this registration, if it is needed and isn't listed.
    pub(super) fn reserve_for(
        &mut self,
        needed: bool,
        token: RegistrationToken,
    ) -> Result<(), AllocError>
        ensures room { OnOk result
            (HasRoom (needed && not (is_listed token self.new.tokens.items)) self.new) }
        ensures err { OnErr result ((needed ≡ true)
            × (is_listed token self.old.tokens.items ≡ false)) }
        ensures same { self.new.tokens.items ≡ self.old.tokens.items }
    {
        let is_new = needed && !self.contains(token);
        self.reserve(is_new)
    }

    // Enters a registration at the end, if it is needed and isn't listed.
    pub(super) fn enter(&mut self, needed: bool, token: RegistrationToken)
        requires { HasRoom (needed && not (is_listed token self.old.tokens.items)) self.old }
        ensures { self.new.tokens.items
            ≡ (if needed then with_listing token self.old.tokens.items else self.old.tokens.items) }
    {
        if needed && !self.contains(token) {
            self.tokens.push_reserved(token);
        }
    }

    // Takes a registration out.
    pub(super) fn leave(&mut self, token: RegistrationToken)
        ensures { self.new.tokens.items ≡ filter (is_another token) self.old.tokens.items }
    {
        self.tokens.retain(|other| *other != token);
    }

    fn contains(&self, token: RegistrationToken) -> bool
        ensures { result ≡ is_listed token self.now.tokens.items }
    {
        for other in &self.tokens {
            if *other == token {
                return true;
            }
        }
        false
    }
}
