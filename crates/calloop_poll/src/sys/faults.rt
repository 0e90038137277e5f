//! A number that contracts alone see.
ghost use Rattle.std.specs.Prelude.{◌≡◌, ℕ, ◌+◌};
ghost use Rattle.std.specs.Borrow.{ftrue};

use std::marker::Model;

/// A ghost counter of a poller's faults: zero-sized and without a limit.
#[derive(Drop)]
pub struct FaultCount {
    pub ghost count: { ℕ },
}

impl Model for FaultCount {
    ghost also_owns = { λ _. ftrue };
}

impl FaultCount {
    /// No fault yet.
    pub fn new() -> FaultCount
        ensures { result.count ≡ 0 }
    {
        FaultCount {}
    }

    /// One more than `_before`.
    pub fn after(_before: &FaultCount) -> FaultCount
        ensures { result.count ≡ _before.now.count + 1 }
    {
        FaultCount {}
    }
}
