//! Callers of what only the tests of `tests/` name besides, which run without proofs: here a proof shows that it can be called.
#![tactic(auto)]

#[cfg(test)]
mod tests;
