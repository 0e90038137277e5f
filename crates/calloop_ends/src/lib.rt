//! The ends of pings, channels, executors and streams: sources that are woken from any thread.
#![tactic(auto)]

mod cell;
pub mod channel;
pub mod futures;
pub mod ping;
pub mod stream;
