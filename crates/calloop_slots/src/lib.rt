//! Tokens, the slots that they name, deadlines in order, and the loop's errors.
#![tactic(auto)]

pub mod error;
pub mod list;
pub mod steps;
pub mod token;
mod vacancies;
pub mod wheel;
pub mod widths;

pub use error::{Error, InsertError, Result};
