//! The poller's side of a loop: what a poller and a clock are, `Poll`, with which sources register, and what ends a wait.
#![tactic(auto)]

pub mod signal;
pub mod sys;
