//! Tests of sources made of sources, in loops and without one.
#![tactic(auto)]

#[cfg(test)]
mod tests;
