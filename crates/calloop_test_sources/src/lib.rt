//! Sources and callbacks of a caller's own, for the tests of loops.
#![tactic(auto)]

pub mod attendant;
pub mod batch;
pub mod greedy;
pub mod guarded;
pub mod noting;
pub mod numbered;
pub mod several;
pub mod shifting;
pub mod source;
pub mod trio;
pub mod visitor;
