//! Runs a loop from a script: reads commands, one on each line, and writes what the loop does.
#![tactic(auto)]

pub mod command;
pub mod driver;
pub mod laws;
pub mod lines;
pub mod name;
pub mod named;
pub mod runner;
pub mod source;
pub mod streams;
pub mod text;
pub mod trace;
pub mod warnings;
