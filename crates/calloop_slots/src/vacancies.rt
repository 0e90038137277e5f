//! The set of vacant slots. Finds the lowest one without a walk.
ghost use Rattle.std.specs.Prelude.{ℕ, Bool, ◌≡◌, ◌+◌, ◌-◌, ◌*◌, ◌/◌, ◌%◌, ◌^◌, ◌<◌, ◌≤◌, List, [], ◌∷◌, ◌++◌, map, length, not, true, false, nat_lt, None, OnOk, OnErr, IfOk, IfSome, IfNone};
ghost use Rattle.calloop_slots.specs.Vacancies.{word_at, is_set, is_filled, bit_above, place, AreLevels, HasBits, Takes, with_slot, with_place, grown, IsFirst, AreEnough, no_words};
ghost use Rattle.calloop_slots.specs.Widths.{most_slots, most_words, level_count};
ghost use Rattle.std.proofs.Math.ListN.{set};

use crate::steps::Steps;
use crate::widths::LEVEL_COUNT;
use std::alloc::{AllocError, Global};
use std::marker::Model;

/// Words of 64 bits, at most as many as the bits of all slots need. Only the call that tests a word ticks the counter.
#[derive(Drop)]
struct Words {
    words: Vec<u64>,
}

impl Model for Words {
    ghost use Rattle.std.specs.Prelude.{ℕ, List, length, ◌≤◌};
    ghost use Rattle.calloop_slots.specs.Widths.{most_words};

    ghost Value = { List ℕ };

    ghost view = { λ w. w.words.items };

    ghost invariant = { λ w. length w.words.items ≤ most_words };
}

impl Words {
    fn new(alloc: Global) -> Words
        ensures { result ≡ [] }
    {
        Words {
            words: Vec::new(alloc),
        }
    }

    // The word at this index; 0 past the last.
    fn read(&self, place: usize, steps: &mut Steps) -> u64
        requires { steps.old < 2 ^ 64 - 1 }
        ensures value { result ≡ word_at self.now place }
        ensures within { 0 < result → (place < length self.now) × (place < most_words) }
        ensures steps { steps.new ≡ steps.old + 1 }
    {
        steps.tick();
        match self.words.get(place) {
            Some(word) => *word,
            None => 0,
        }
    }

    // True if there is a word at this index.
    fn has(&self, place: usize) -> bool
        ensures { result ≡ nat_lt place (length self.now) }
    {
        place < self.words.len()
    }

    // Writes a word.
    fn write(&mut self, place: usize, word: u64)
        requires { place < length self.old }
        ensures { self.new ≡ set self.old place word }
    {
        self.words[place] = word;
    }

    // Appends a 0 if the words end at this index or before. True if it did.
    fn extend(&mut self, place: usize) -> Result<bool, AllocError>
        requires { place < most_words }
        ensures ok { IfOk result (λ b. (b ≡ not (nat_lt place (length self.old)))
            × (self.new ≡ with_place place self.old)) }
        ensures err { OnErr result (self.new ≡ self.old) }
    {
        if place < self.words.len() {
            return Ok(false);
        }
        self.words.push(0)?;
        Ok(true)
    }

    // Takes out the last word.
    fn shorten(&mut self)
        ensures { (words : List ℕ) (word : ℕ) → self.old ≡ words ++ word ∷ [] → self.new ≡ words }
    {
        self.words.pop();
    }

    // Sets a bit.
    fn set(&mut self, bit: usize)
        requires { bit / 64 < length self.old }
        ensures bits { (i : ℕ) → is_set self.new i ≡ with_slot bit true (is_set self.old) i }
        ensures words { (i : ℕ)
            → is_filled self.new i ≡ with_slot (bit / 64) true (is_filled self.old) i }
        ensures len { length self.new ≡ length self.old }
    {
        self.words[bit / 64] |= 1 << (bit % 64);
    }
}

// The slot that was taken out below a word.
#[derive(Drop)]
struct Taken {
    slot: usize,
    // True if the word has become 0.
    emptied: bool,
}

// Takes out the first vacant slot below the word at this index. The highest level comes first.
fn take(levels: &mut [Words], place: usize, steps: &mut Steps) -> Option<Taken>
    requires { steps.old + length levels.old < 2 ^ 64 }
    ensures none { IfNone result ((levels.new ≡ levels.old)
        × ((vacant : ℕ → Bool) → AreLevels vacant levels.old
        → bit_above vacant levels.old place ≡ false)) }
    ensures some { IfSome result (λ t. (vacant : ℕ → Bool) → AreLevels vacant levels.old
        → Takes vacant place t levels.old levels.new) }
    ensures len { map length levels.new ≡ map length levels.old }
    ensures steps { steps.new ≤ steps.old + length levels.old }
{
    let Some((level, below)) = levels.split_first_mut() else {
        return Some(Taken {
            slot: place,
            emptied: true,
        });
    };
    let word = level.read(place, steps);
    if word == 0 {
        return None;
    }
    let bit = word.trailing_zeros();
    let Some(taken) = take(below, place * 64 + bit as usize, steps) else {
        return None;
    };
    if !taken.emptied {
        return Some(Taken {
            slot: taken.slot,
            emptied: false,
        });
    }
    let rest = word & !(1 << bit);
    level.write(place, rest);
    Some(Taken {
        slot: taken.slot,
        emptied: rest == 0,
    })
}

// Sets the bits over a slot on all levels.
fn mark(levels: &mut [Words], slot: usize)
    requires few { length levels.old ≤ level_count }
    requires bits { HasBits levels.old slot }
    ensures levels { (vacant : ℕ → Bool) → AreLevels vacant levels.old
        → AreLevels (with_slot slot true vacant) levels.new }
    ensures above { (vacant : ℕ → Bool) (q : ℕ)
        → bit_above (with_slot slot true vacant) levels.new q
        ≡ with_slot (place levels.old slot) true (bit_above vacant levels.old) q }
    ensures len { map length levels.new ≡ map length levels.old }
{
    if let Some((level, below)) = levels.split_first_mut() {
        level.set(slot >> (6 * below.len()));
        mark(below, slot);
    }
}

// Adds the word over a slot to each level that lacks it. Without memory for one, all are unchanged.
fn grow(levels: &mut [Words], slot: usize) -> Result<(), AllocError>
    requires few { length levels.old ≤ level_count }
    requires small { slot < most_slots }
    ensures ok { OnOk result (levels.new ≡ grown slot levels.old) }
    ensures err { OnErr result (levels.new ≡ levels.old) }
{
    let Some((level, below)) = levels.split_first_mut() else {
        return Ok(());
    };
    let longer = level.extend(slot >> (6 * (below.len() + 1)))?;
    let grew = grow(below, slot);
    if longer && grew.is_err() {
        level.shorten();
    }
    grew
}

/// The vacant slots: levels of words, the highest first, as many as all slots need. Bit i of the lowest is set if slot i is
/// vacant, and bit i of another if word i of the level below isn't 0.
#[derive(Drop)]
pub(crate) struct Vacancies {
    levels: [Words; LEVEL_COUNT],
}

impl Model for Vacancies {
    ghost use Rattle.std.specs.Prelude.{ℕ, List};
    ghost use Rattle.calloop_slots.specs.Vacancies.{AreEnough};

    ghost Value = { List (List ℕ) };

    ghost view = { λ v. v.levels };

    ghost invariant = { λ v. AreEnough v.levels };
}

impl Vacancies {
    /// No vacant slot, and bits for none. Allocates nothing yet.
    pub(crate) fn new(alloc: Global) -> Vacancies
        ensures { result ≡ no_words level_count }
    {
        Vacancies {
            levels: [
                Words::new(alloc),
                Words::new(alloc),
                Words::new(alloc),
                Words::new(alloc),
            ],
        }
    }

    /// Takes out the first vacant slot, if there is one. Reads at most one word of each level.
    pub(crate) fn take_first(&mut self, steps: &mut Steps) -> Option<usize>
        requires { steps.old ≡ 0 }
        ensures none { IfNone result ((self.new ≡ self.old)
            × ((vacant : ℕ → Bool) → AreLevels vacant self.old → (i : ℕ) → vacant i ≡ false)) }
        ensures first { IfSome result (λ slot. (vacant : ℕ → Bool) → AreLevels vacant self.old
            → IsFirst vacant slot) }
        ensures levels { IfSome result (λ slot. (vacant : ℕ → Bool) → AreLevels vacant self.old
            → AreLevels (with_slot slot false vacant) self.new) }
        ensures bits { (i : ℕ) → HasBits self.old i → HasBits self.new i }
        ensures steps { steps.new ≤ steps.old + level_count }
    {
        let Some(taken) = take(&mut self.levels, 0, steps) else {
            return None;
        };
        Some(taken.slot)
    }

    /// Makes a slot vacant. Tests no word, and takes no memory.
    pub(crate) fn insert(&mut self, slot: usize)
        requires { HasBits self.old slot }
        ensures levels { (vacant : ℕ → Bool) → AreLevels vacant self.old
            → AreLevels (with_slot slot true vacant) self.new }
        ensures bits { (i : ℕ) → HasBits self.old i → HasBits self.new i }
    {
        mark(&mut self.levels, slot);
    }

    /// Adds the bits of a slot, which isn't vacant yet. Without memory for them, the set is unchanged.
    pub(crate) fn grow(&mut self, slot: usize) -> Result<(), AllocError>
        requires { slot < most_slots }
        ensures ok { OnOk result (self.new ≡ grown slot self.old) }
        ensures err { OnErr result (self.new ≡ self.old) }
    {
        // If the lowest level has the word over the slot, each does.
        if self.levels[LEVEL_COUNT - 1].has(slot / 64) {
            return Ok(());
        }
        grow(&mut self.levels, slot)
    }
}
