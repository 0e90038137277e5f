//! Tests of `calloop_wake`, over what it shows to other crates.
#![tactic(auto)]

#[cfg(test)]
mod tests;
