//! Errors of calls that couldn't answer them: a source that left the loop failed to take its registration back.
ghost use Rattle.std.specs.Prelude.{◌≡◌, [], Bool};
ghost use Rattle.calloop_slots.specs.Failures.{with_error};
ghost use Rattle.calloop_loop.specs.Held.{with_warning};

use calloop_slots::error::{Error, Failed, Result};
use std::alloc::Global;

/// The errors in the order in which they came. Each is kept if there is memory for it.
#[derive(Drop)]
pub(super) struct Warnings {
    errors: Vec<Error>,
}

impl Warnings {
    pub(super) fn new(alloc: Global) -> Warnings
        ensures { result.errors.items ≡ [] }
    {
        Warnings {
            errors: Vec::new(alloc),
        }
    }

    // Keeps the error of this answer, if it failed.
    pub(super) fn note(&mut self, told: Result<()>)
        ensures { (kept : Bool)
            × (self.new.errors.items ≡ with_warning kept told self.old.errors.items) }
    {
        if let Err(failure) = told {
            let _ = self.errors.push(failure);
        }
    }

    // Keeps this failure, if the call failed. Else no answer is made that has room for one.
    pub(super) fn note_failure(&mut self, told: std::result::Result<(), Failed>, failure: Error)
        ensures { (kept : Bool) × (self.new.errors.items
            ≡ with_warning kept (with_error told failure) self.old.errors.items) }
    {
        if let Err(Failed) = told {
            self.note(Err(failure));
        }
    }

    pub(super) fn clear(&mut self)
        ensures { self.new.errors.items ≡ [] }
    {
        self.errors.clear();
    }

    pub(super) fn as_slice(&self) -> &[Error]
        ensures { result.now ≡ self.now.errors.items }
    {
        self.errors.as_slice()
    }
}
