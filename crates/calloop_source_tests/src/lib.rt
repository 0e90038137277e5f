//! Tests of `calloop_poll`, `calloop_script`, `calloop_mio` and `calloop_sources`, over what these show to other crates.
#![tactic(auto)]

#[cfg(test)]
mod tests;
