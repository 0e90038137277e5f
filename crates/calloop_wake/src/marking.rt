//! The marks of a loop's adapters: those that ask to be settled. They are under a lock that has the name of the loop's board, so
//! their watch notes each taking of them.
ghost use Rattle.std.specs.Prelude.{◌≡◌, ◌+◌, ◌-◌, ◌++◌, ◌∷◌, [], OnOk, OnErr, if◌then◌else◌, true};
ghost use Rattle.calloop_wake.specs.Watches.{with_note};
ghost use Rattle.calloop_wake.specs.declared.notes.Note.TheVariants.{Marked};

use super::ghosts::Name;
use super::locked::Core;
use super::notes::LentBoardNote;
use super::watch::Watch;
use super::{Last, Wakeup};
use calloop_slots::token::RegistrationToken;
use counted_slot::Fits;
use std::alloc::{AllocError, Global};
use std::marker::Model;
use std::mem;

/// The right to the marks of the board of this name. One is made with each board, and it can't be cloned.
#[derive(Drop)]
pub struct MarkingRight {
    pub(crate) name: Name,
}

/// The marked adapters, and an empty list that replaces theirs while they are settled. Has no `Drop`: it is under a lock.
pub struct Marks {
    alloc: Global,
    adapters: usize,
    marked: Vec<RegistrationToken>,
    spare: Vec<RegistrationToken>,
    name: Name,
}

impl Model for Marks {
    ghost use Rattle.std.specs.Prelude.{◌≡◌, []};
    ghost use Rattle.calloop_wake.specs.Marks.{MarksView};

    ghost Value = { MarksView };

    ghost view = { λ m. record {
      marked = m.marked.items;
      adapters = m.adapters;
      name = m.name;
    } };

    ghost invariant = { λ m. m.spare.items ≡ [] };
}

impl Fits for Marks {
    ghost use Rattle.std.specs.Prelude.{◌≡◌};

    type Tag = Name;

    ghost fits = { λ tag marks. marks.name ≡ tag };
}

impl Core for Marks {
    fn dissolve(self, last: Last) {
        last.end();
        let Marks {
            alloc: _,
            adapters: _,
            marked: _,
            spare: _,
            name: _,
        } = self;
    }
}

impl Marks {
    /// No marks, of the board of this name. Allocates nothing yet.
    pub fn new(alloc: Global, right: MarkingRight) -> (Marks, Name)
        ensures marks { result.0 ≡ record {
          marked = [];
          adapters = 0;
          name = right.name;
        } }
        ensures name { result.1 ≡ right.name }
    {
        let MarkingRight { name } = right;
        let marks = Marks {
            alloc,
            adapters: 0,
            marked: Vec::new(alloc),
            spare: Vec::new(alloc),
            name: name.again(),
        };
        (marks, name)
    }

    /// Makes room for the mark of another adapter. Without memory the marks are unchanged.
    pub fn open(&mut self) -> Result<(), AllocError>
        ensures ok { OnOk result
            (self.new ≡ record self.old { adapters = self.old.adapters + 1 }) }
        ensures err { OnErr result (self.new ≡ self.old) }
    {
        let adapters = self.adapters.checked_add(1).ok_or(AllocError)?;
        let marked = self.marked.len();
        self.marked.reserve(adapters.saturating_sub(marked))?;
        self.spare.reserve(adapters)?;
        self.adapters = adapters;
        Ok(())
    }

    /// Frees the room of an adapter, if there is any: the adapter is gone, or it was refused.
    pub fn close(&mut self)
        ensures { self.new ≡ record self.old { adapters = self.old.adapters - 1 } }
    {
        self.adapters = self.adapters.saturating_sub(1);
    }

    /// Marks an adapter, behind those that are marked, and returns a wakeup. There is room if each adapter is marked once until its
    /// mark is taken; otherwise memory can run out, and nothing is marked.
    pub fn mark(&mut self, token: RegistrationToken) -> Result<Wakeup, AllocError>
        ensures ok { OnOk result
            (self.new ≡ record self.old { marked = self.old.marked ++ token ∷ [] }) }
        ensures err { OnErr result (self.new ≡ self.old) }
    {
        match self.marked.push(token) {
            Ok(()) => Ok(Wakeup { of_wake: () }),
            Err(_) => Err(AllocError),
        }
    }

    /// If nothing is marked, has the watch note that nothing was taken. Otherwise changes nothing.
    pub fn take_none(&self, watch: &mut Watch) -> bool
        requires { watch.old.name ≡ self.now.name }
        ensures none { result ≡ true → self.now.marked ≡ [] }
        ensures watch { watch.new
            ≡ (if result then with_note (Marked self.now.marked) watch.old else watch.old) }
    {
        let none = self.marked.is_empty();
        if none {
            watch.notes = watch.notes.and(LentBoardNote::Marked(&self.marked));
        }
        none
    }

    /// Takes all marks, in the order in which they were set, and has the watch note them.
    pub fn take(&mut self, watch: &mut Watch) -> Vec<RegistrationToken>
        requires { watch.old.name ≡ self.old.name }
        ensures gives { result.items ≡ self.old.marked }
        ensures marks { self.new ≡ record self.old { marked = [] } }
        ensures watch { watch.new ≡ with_note (Marked self.old.marked) watch.old }
    {
        watch.notes = watch.notes.and(LentBoardNote::Marked(&self.marked));
        let spare = mem::replace(&mut self.spare, Vec::new(self.alloc));
        mem::replace(&mut self.marked, spare)
    }

    /// Takes a list back after it was settled, to reuse its room.
    pub fn give_back(&mut self, settled: Vec<RegistrationToken>)
        ensures { self.new ≡ self.old }
    {
        let mut settled = settled;
        settled.clear();
        self.spare = settled;
    }
}
