//! The names of registrations and of their parts. From calloop's `token.rs`, and its `TokenFactory`.
ghost use Rattle.std.specs.Prelude.{◌≡◌, ◌≢◌, ◌↔◌, ℕ, ◌-◌, ◌^◌, ◌<◌, IfOk, IfErr, IsErr};
ghost use Rattle.calloop_slots.specs.Widths.{most_slots, versions};
ghost use Rattle.calloop_slots.specs.Tokens.{IsToken, key_of, token_of, slot_of_key, registration_of, next_token, after_token, most_tokens};
ghost use Rattle.calloop_slots.specs.declared.error.Error.TheVariants.{TooManyTokens};
ghost use Rattle.calloop_slots.specs.declared.token.Token.{Token};
ghost use Rattle.calloop_slots.specs.declared.token.TokenFactory.{TokenFactory};

use crate::error::{Error, Result};
use crate::widths::{PARTS, VERSIONS};
use std::marker::Model;

// One less than the number of sub-ids, so that no token has the poller's own key.
const MOST_TOKENS: u16 = (PARTS - 1) as u16;

// The distance in a key between two neighbouring slots.
const PER_SLOT: u64 = VERSIONS * PARTS;

/// The slot of the token of a word.
pub fn slot_of_key(key: u64) -> usize
    ensures { result ≡ slot_of_key key }
{
    (key / PER_SLOT) as usize
}

/// Names the registration that an event is for, and the part of its source.
#[derive(Clone, Copy, Debug, PartialEq, Eq)]
pub struct Token {
    slot: u32,
    version: u32,
    sub_id: u16,
}

impl Model for Token {
    ghost use Rattle.std.specs.Prelude.{◌<◌};
    ghost use Rattle.calloop_slots.specs.Widths.{most_slots, versions};
    ghost use Rattle.calloop_slots.specs.TokenViews.{TokenView};

    ghost Value = { TokenView };

    ghost view = { λ t. record { slot = t.slot; version = t.version; sub_id = t.sub_id } };

    ghost inverse = { λ t. record { slot = t.slot; version = t.version; sub_id = t.sub_id } };

    ghost invariant = { λ t. (t.slot < most_slots) × (t.version < versions) };
}

impl Token {
    /// The token as one word, the poller's name for it: the bits of the slot, of the version and of the sub-id.
    pub fn key(self) -> u64
        ensures { result ≡ key_of self }
    {
        self.slot as u64 * PER_SLOT + self.version as u64 * PARTS + self.sub_id as u64
    }

    /// The token of a word. The greatest word is the poller's own key, which no token has.
    pub fn from_key(key: u64) -> Token
        requires { key ≢ 2 ^ 64 - 1 }
        ensures value { result ≡ token_of key }
        ensures token { IsToken result }
        ensures key { key_of result ≡ key }
    {
        Token {
            slot: (key / PER_SLOT) as u32,
            version: (key / PARTS % VERSIONS) as u32,
            sub_id: (key % PARTS) as u16,
        }
    }

    /// The registration that the token belongs to.
    pub fn registration(self) -> RegistrationToken
        ensures { result ≡ registration_of self }
    {
        RegistrationToken {
            slot: self.slot,
            version: self.version,
        }
    }
}

/// A use of a slot: names one source, and nothing once that source is gone. Ordered by slot, then by version.
#[derive(Clone, Copy, Debug, PartialEq, Eq, PartialOrd, Ord)]
pub struct RegistrationToken {
    slot: u32,
    version: u32,
}

impl Model for RegistrationToken {
    ghost use Rattle.std.specs.Prelude.{◌<◌};
    ghost use Rattle.calloop_slots.specs.Widths.{most_slots, versions};
    ghost use Rattle.calloop_slots.specs.TokenViews.{RegistrationView};

    ghost Value = { RegistrationView };

    ghost view = { λ t. record { slot = t.slot; version = t.version } };

    ghost inverse = { λ t. record { slot = t.slot; version = t.version } };

    ghost invariant = { λ t. (t.slot < most_slots) × (t.version < versions) };
}

impl RegistrationToken {
    /// The registration of this slot and version, which are below `MOST_SLOTS` and `VERSIONS`.
    pub fn new(slot: u32, version: u32) -> RegistrationToken
        requires slot { slot < most_slots }
        requires version { version < versions }
        ensures { result ≡ record { slot = slot; version = version } }
    {
        RegistrationToken { slot, version }
    }

    /// The number of the slot.
    pub fn slot(self) -> u32
        ensures { result ≡ self.slot }
    {
        self.slot
    }

    /// How many times the slot was used again, modulo `VERSIONS`.
    pub fn version(self) -> u32
        ensures { result ≡ self.version }
    {
        self.version
    }
}

/// Gives a source the tokens of its registration, each once: a factory can't be copied.
#[derive(Debug, Drop)]
pub struct TokenFactory {
    registration: RegistrationToken,
    given: u16,
}

impl TokenFactory {
    /// A factory that has given out no token yet.
    pub fn new(registration: RegistrationToken) -> TokenFactory
        ensures { result ≡ record { registration = registration; given = 0 } }
    {
        TokenFactory {
            registration,
            given: 0,
        }
    }

    /// The registration of its tokens.
    pub fn registration(&self) -> RegistrationToken
        ensures { result ≡ self.now.registration }
    {
        self.registration
    }

    /// How many tokens it has given out, at most 65,535.
    pub fn tokens_given(&self) -> u16
        ensures { result ≡ self.now.given }
    {
        self.given
    }

    /// The next token: sub-ids 0 to 65,534 in order.
    ///
    /// After these it fails with `TooManyTokens` every time, and stays unchanged. Calloop panics there.
    pub fn token(&mut self) -> Result<Token>
        ensures ok { IfOk result (λ t. (t ≡ next_token self.old)
            × (self.new ≡ after_token self.old)) }
        ensures refuses { IsErr result ↔ (self.old.given ≡ most_tokens) }
        ensures err { IfErr result (λ e. (e ≡ TooManyTokens) × (self.new ≡ self.old)) }
        ensures not_the_poller { IfOk result (λ t. key_of t ≢ 2 ^ 64 - 1) }
    {
        if self.given == MOST_TOKENS {
            return Err(Error::TooManyTokens);
        }
        let token = Token {
            slot: self.registration.slot,
            version: self.registration.version,
            sub_id: self.given,
        };
        self.given += 1;
        Ok(token)
    }
}

/// Different tokens have different keys.
pub fn keys_differ()
    ensures { (a b : Token) → IsToken a → IsToken b → key_of a ≡ key_of b → a ≡ b }
{}

/// Tokens that factories of one registration give out at different counts differ, and so do their keys.
pub fn factory_tokens_differ()
    ensures { (f g : TokenFactory) → f.registration ≡ g.registration
        → f.given < most_tokens → g.given < most_tokens → f.given ≢ g.given
        → (next_token f ≢ next_token g) × (key_of (next_token f) ≢ key_of (next_token g)) }
{}
