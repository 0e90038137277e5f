//! The number of bits in each part of a token, and what follows from it. No other code has a number of these.
ghost use Rattle.std.specs.Prelude.{◌≡◌};
ghost use Rattle.calloop_slots.specs.Widths.{most_slots, versions, parts, level_count};

/// The bits of a slot's number.
pub const SLOT_BITS: u32 = 24;

/// The bits of a version.
pub const VERSION_BITS: u32 = 24;

/// The bits of a sub-id.
pub const PART_BITS: u32 = 16;

/// The maximum number of slots in a list: each slot's number is less.
pub const MOST_SLOTS: u64 = 1 << SLOT_BITS;

/// After this many further uses a slot has the same version again: each version is less.
pub const VERSIONS: u64 = 1 << VERSION_BITS;

/// The number of sub-ids: each is less.
pub const PARTS: u64 = 1 << PART_BITS;

/// How many levels of words of 64 bits lead from one word to the bits of all slots.
pub(crate) const LEVEL_COUNT: usize = (SLOT_BITS as usize + 5) / 6;

/// These are the numbers that contracts use.
pub fn widths_are_the_contracts() -> (u64, u64, u64, usize)
    ensures { result ≡ (most_slots, versions, parts, level_count) }
{
    (MOST_SLOTS, VERSIONS, PARTS, LEVEL_COUNT)
}
