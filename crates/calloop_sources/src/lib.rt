//! What a source and its callback are, and sources that need no cell: timers, descriptors, and sources made of others.
#![tactic(auto)]

pub mod both;
pub mod callbacks;
mod errors;
pub mod forwarding;
pub mod generic;
pub mod idles;
pub mod macros;
pub mod movable;
pub mod sources;
pub mod timer;
pub mod transient;
