//! Tests of `looptrace`, over what it shows to other crates, and scripts that its law of timers rules out.
#![tactic(auto)]

pub mod scripts;
#[cfg(test)]
mod tests;
