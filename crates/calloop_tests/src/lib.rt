//! Tests of loops over sources of a caller.
#![tactic(auto)]

#[cfg(test)]
mod tests;
