//! Tests of the laws: each can be called, of a loop that there is.
#![tactic(auto)]

#[cfg(test)]
mod tests;
