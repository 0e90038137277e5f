//! Tests of loops whose callbacks ask for something.
#![tactic(auto)]

#[cfg(test)]
mod tests;
