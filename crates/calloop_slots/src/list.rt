//! The slots of the loop's sources, told apart by their versions. From calloop's `list.rs`.
ghost use Rattle.std.specs.Prelude.{◌≡◌, ◌↔◌, ◌+◌, ◌<◌, ◌≤◌, List, [], length, slice_get, is_some, if◌then◌else◌, Some, None, IfOk, IfErr, IsErr, IsErrOf, IsNone, IfSome, OnSome};
ghost use Rattle.calloop_slots.specs.Slots.{content_at, with_change, with_content, source_of, is_in_turn, first_vacant, next_registration, after_claim, after_turn, claim_error, CannotClaim};
ghost use Rattle.calloop_slots.specs.Vacancies.{TellVacant};
ghost use Rattle.calloop_slots.specs.Widths.{most_slots, level_count};
ghost use Rattle.std.specs.Borrow.{sem};
ghost use Rattle.calloop_slots.specs.Lendings.{LendsSource, LendsNamed};
ghost use Rattle.calloop_slots.specs.declared.error.Error.TheVariants.{InvalidToken};
ghost use Rattle.calloop_slots.specs.declared.list.ClaimRefusal.TheVariants.{TooManySources};
ghost use Rattle.calloop_slots.specs.declared.list.Content.TheVariants.{Vacant, Source, InTurn};
ghost use Rattle.calloop_slots.specs.declared.list.Slot.{Slot};

use crate::error::{Error, Result};
use crate::steps::Steps;
use crate::token::RegistrationToken;
use crate::vacancies::Vacancies;
use crate::widths::{MOST_SLOTS, VERSIONS};
use std::alloc::{AllocError, Global};
use std::marker::Model;
use std::mem;

/// The content of a slot.
#[derive(Drop)]
pub enum Content<S> {
    /// Nothing, so the slot can be used again.
    Vacant,
    /// A source.
    Source(S),
    /// A source that is taken out, for its turn or while it is registered.
    InTurn,
}

/// A slot of the list.
#[derive(Drop)]
pub struct Slot<S> {
    /// How many times the slot was used again, modulo `VERSIONS`.
    pub version: u32,
    /// The content.
    pub content: Content<S>,
}

/// Why no slot could be claimed.
#[derive(Clone, Copy, Debug, PartialEq, Eq)]
pub enum ClaimRefusal {
    /// There are `MOST_SLOTS` slots, all full.
    TooManySources,
    /// There was no memory left for a new slot.
    OutOfMemory,
}

impl From<AllocError> for ClaimRefusal {
    ghost use Rattle.std.specs.Prelude.{◌≡◌};
    ghost use Rattle.calloop_slots.specs.declared.list.ClaimRefusal.TheVariants.{OutOfMemory};

    ghost from_gives = { λ _ made. made ≡ OutOfMemory };

    /// Always `OutOfMemory`.
    fn from(_cause: AllocError) -> ClaimRefusal {
        ClaimRefusal::OutOfMemory
    }
}

impl From<ClaimRefusal> for Error {
    ghost use Rattle.std.specs.Prelude.{◌≡◌};
    ghost use Rattle.calloop_slots.specs.Slots.{claim_error};

    ghost from_gives = { λ refusal made. made ≡ claim_error refusal };

    /// The error of the same name.
    fn from(refusal: ClaimRefusal) -> Error {
        match refusal {
            ClaimRefusal::TooManySources => Error::TooManySources,
            ClaimRefusal::OutOfMemory => Error::OutOfMemory,
        }
    }
}

/// The slots of the loop's sources. Never shrinks, as in calloop.
#[derive(Drop)]
pub struct SourceList<S> {
    slots: Vec<Slot<S>>,
    // The vacant ones among them.
    vacancies: Vacancies,
}

impl<S> Model for SourceList<S> {
    ghost use Rattle.std.specs.Prelude.{List};
    ghost use Rattle.calloop_slots.specs.declared.list.Slot.{Slot};

    ghost Value = { List (Slot S) };

    ghost view = { λ l. l.slots.items };

    ghost use Rattle.calloop_slots.specs.Vacancies.{TellVacant};

    ghost invariant = { λ l. TellVacant l.slots.items l.vacancies };
}

// True if the token names a source that isn't in its turn.
fn has_source<S>(slots: &[Slot<S>], token: RegistrationToken) -> bool
    ensures { result ≡ is_some (source_of (content_at slots.now token)) }
{
    match slots.get(token.slot() as usize) {
        Some(slot) => slot.version == token.version() && matches!(slot.content, Content::Source(_)),
        None => false,
    }
}

// True if the source of the slot that the token names is taken out.
fn is_in_turn<S>(slots: &[Slot<S>], token: RegistrationToken) -> bool
    ensures { result ≡ is_in_turn (content_at slots.now token) }
{
    match slots.get(token.slot() as usize) {
        Some(slot) => slot.version == token.version() && matches!(slot.content, Content::InTurn),
        None => false,
    }
}

// Takes the first vacant slot, which has this index.
fn take_up<S: Drop>(slots: &mut Vec<Slot<S>>, place: usize) -> RegistrationToken
    requires first { place ≡ first_vacant slots.old.items }
    requires within { (place < length slots.old.items) × (place < most_slots) }
    ensures value { result ≡ next_registration slots.old.items }
    ensures slots { slots.new.items ≡ after_claim slots.old.items }
{
    let slot = &mut slots[place];
    slot.version = ((slot.version as u64 + 1) % VERSIONS) as u32;
    slot.content = Content::InTurn;
    RegistrationToken::new(place as u32, slot.version)
}

// Adds a slot if none is vacant. All memory is taken first.
fn add<S: Drop>(
    slots: &mut Vec<Slot<S>>,
    vacancies: &mut Vacancies,
) -> std::result::Result<RegistrationToken, ClaimRefusal>
    requires full { first_vacant slots.old.items ≡ length slots.old.items }
    requires told { TellVacant slots.old.items vacancies.old }
    ensures ok { IfOk result (λ t. (t ≡ next_registration slots.old.items)
        × (slots.new.items ≡ after_claim slots.old.items)) }
    ensures within { IfOk result (λ t. (t.slot < length slots.new.items) × (t.slot < most_slots)) }
    ensures full { IsErrOf result TooManySources ↔ (most_slots ≤ first_vacant slots.old.items) }
    ensures err { IfErr result (λ e. (slots.new.items ≡ slots.old.items)
        × (vacancies.new ≡ vacancies.old)
        × CannotClaim slots.old.items (claim_error e)) }
    ensures told { TellVacant slots.new.items vacancies.new }
{
    let place = slots.len();
    if place as u64 >= MOST_SLOTS {
        return Err(ClaimRefusal::TooManySources);
    }
    slots.reserve(1)?;
    vacancies.grow(place)?;
    let slot = Slot {
        version: 0,
        content: Content::InTurn,
    };
    match slots.push(slot) {
        Ok(()) => Ok(RegistrationToken::new(place as u32, 0)),
        Err(_) => unreachable!(),
    }
}

// Claims a slot of the list.
fn claim<S: Drop>(
    slots: &mut Vec<Slot<S>>,
    vacancies: &mut Vacancies,
    steps: &mut Steps,
) -> std::result::Result<RegistrationToken, ClaimRefusal>
    requires fresh { steps.old ≡ 0 }
    requires told { TellVacant slots.old.items vacancies.old }
    ensures ok { IfOk result (λ t. (t ≡ next_registration slots.old.items)
        × (slots.new.items ≡ after_claim slots.old.items)) }
    ensures within { IfOk result (λ t. (t.slot < length slots.new.items) × (t.slot < most_slots)) }
    ensures full { IsErrOf result TooManySources ↔ (most_slots ≤ first_vacant slots.old.items) }
    ensures err { IfErr result (λ e. (slots.new.items ≡ slots.old.items)
        × (vacancies.new ≡ vacancies.old)
        × CannotClaim slots.old.items (claim_error e)) }
    ensures told { TellVacant slots.new.items vacancies.new }
    ensures steps { steps.new ≤ steps.old + level_count }
{
    match vacancies.take_first(steps) {
        Some(place) => Ok(take_up(slots, place)),
        None => add(slots, vacancies),
    }
}

// Puts this into the slot, and returns the content before.
fn put<S>(slots: &mut Vec<Slot<S>>, place: usize, content: Content<S>) -> Content<S>
    requires { place < length slots.old.items }
    ensures items { slots.new.items ≡ with_change (with_content content) slots.old.items place }
    ensures value { (s : Slot S) → slice_get slots.old.items place ≡ Some s → result ≡ s.content }
{
    let slot = &mut slots[place];
    mem::replace(&mut slot.content, content)
}

// The source in a slot's content.
fn source<S>(content: &Content<S>) -> Option<&S>
    ensures some { IfSome result (λ s. content.now ≡ Source s.now) }
    ensures none { IsNone result ↔ (source_of content.now ≡ None) }
{
    match content {
        Content::Source(s) => Some(s),
        _ => None,
    }
}

// The source in a slot's content.
fn source_mut<S>(content: &mut Content<S>) -> Result<&mut S>
    ensures* writes_back { sem 𝓛 (LendsSource S.row content.entry result) }
    ensures ok { IfOk result (λ s. content.old ≡ Source s.now) }
    ensures refuses { IsErr result ↔ (source_of content.old ≡ None) }
    ensures err { IfErr result (λ e. e ≡ InvalidToken) }
{
    match content {
        Content::Source(s) => Ok(s),
        _ => Err(Error::InvalidToken),
    }
}

impl<S: Drop> SourceList<S> {
    /// A list with no slot. Allocates nothing yet.
    pub fn new(alloc: Global) -> SourceList<S>
        ensures { result ≡ [] }
    {
        SourceList {
            slots: Vec::new(alloc),
            vacancies: Vacancies::new(alloc),
        }
    }

    /// The source that the token names; `None` if it was removed or is in its turn.
    pub fn get(&self, token: RegistrationToken) -> Option<&S>
        ensures some { IfSome result (λ s. content_at self.now token ≡ Source s.now) }
        ensures none { IsNone result ↔ (source_of (content_at self.now token) ≡ None) }
    {
        match self.slots.get(token.slot() as usize) {
            Some(slot) if slot.version == token.version() => source(&slot.content),
            _ => None,
        }
    }

    /// The source that the token names, to be changed.
    ///
    /// Fails with `InvalidToken` exactly if `get` returns `None`; the list is then unchanged.
    pub fn get_mut(&mut self, token: RegistrationToken) -> Result<&mut S>
        ensures* writes_back { sem 𝓛 (LendsNamed S.row self.entry token result) }
        ensures ok { IfOk result (λ s. content_at self.old token ≡ Source s.now) }
        ensures refuses { IsErr result ↔ (source_of (content_at self.old token) ≡ None) }
        ensures err { IfErr result (λ e. e ≡ InvalidToken) }
    {
        if !has_source(&self.slots, token) {
            return Err(Error::InvalidToken);
        }
        let slot = &mut self.slots[token.slot() as usize];
        source_mut(&mut slot.content)
    }

    /// Claims the first vacant slot, or a new one, under its next version, and returns its name. The slot counts as full, as
    /// during a turn of its source, until `end_turn` puts the source there or `vacate` frees it.
    ///
    /// Fails with `TooManySources` exactly if there are `MOST_SLOTS` slots, all full, and with `OutOfMemory` only if a new
    /// slot has to be added. On failure the list is unchanged. Calloop panics or aborts there.
    ///
    /// Reads at most one word of each level to find the slot, however many there are. Calloop walks its slots.
    pub fn vacant_entry(
        &mut self,
        steps: &mut Steps,
    ) -> std::result::Result<RegistrationToken, ClaimRefusal>
        requires { steps.old ≡ 0 }
        ensures ok { IfOk result (λ t. (t ≡ next_registration self.old)
            × (self.new ≡ after_claim self.old)) }
        ensures within { IfOk result (λ t. (t.slot < length self.new) × (t.slot < most_slots)) }
        ensures full { IsErrOf result TooManySources ↔ (most_slots ≤ first_vacant self.old) }
        ensures err { IfErr result (λ e. (self.new ≡ self.old)
            × CannotClaim self.old (claim_error e)) }
        ensures steps { steps.new ≤ steps.old + level_count }
    {
        claim(&mut self.slots, &mut self.vacancies, steps)
    }

    /// Takes out the source that the token names, for its turn, and marks the slot as in its turn.
    ///
    /// Returns `None`, and leaves the list unchanged, if the token names none or the source is in its turn.
    pub fn begin_turn(&mut self, token: RegistrationToken) -> Option<S>
        ensures value { result ≡ source_of (content_at self.old token) }
        ensures list { self.new ≡ (if is_some result
            then with_change (with_content InTurn) self.old token.slot else self.old) }
        ensures within { OnSome result (token.slot < length self.new) }
    {
        if !has_source(&self.slots, token) {
            return None;
        }
        match put(&mut self.slots, token.slot() as usize, Content::InTurn) {
            Content::Source(s) => Some(s),
            _ => unreachable!(),
        }
    }

    /// Puts a source that was taken out into its slot.
    ///
    /// If the slot isn't in its turn under this version, returns the source and leaves the list unchanged.
    pub fn end_turn(&mut self, token: RegistrationToken, source: S) -> Option<S>
        ensures value { result ≡ (if is_in_turn (content_at self.old token)
            then None else Some source) }
        ensures list { self.new ≡ after_turn (Source source) token self.old }
    {
        if !is_in_turn(&self.slots, token) {
            return Some(source);
        }
        let _taken_out = put(
            &mut self.slots,
            token.slot() as usize,
            Content::Source(source),
        );
        None
    }

    /// True if the source of the slot that the token names is taken out, for its turn.
    pub fn is_in_turn(&self, token: RegistrationToken) -> bool
        ensures { result ≡ is_in_turn (content_at self.now token) }
    {
        is_in_turn(&self.slots, token)
    }

    /// Frees the slot of a source that was taken out: the slot is vacant, under the same version.
    ///
    /// If the slot isn't in its turn under this version, the list is unchanged.
    pub fn vacate(&mut self, token: RegistrationToken)
        ensures { self.new ≡ after_turn Vacant token self.old }
    {
        if !is_in_turn(&self.slots, token) {
            return;
        }
        let place = token.slot() as usize;
        let _taken_out = put(&mut self.slots, place, Content::Vacant);
        self.vacancies.insert(place);
    }
}
