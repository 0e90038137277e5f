//! The warnings of the loop go to the log.

use calloop::Error;
use log::{Log, warn};

/// Logs the warnings of a loop, each at the level `Warn`, in order, except so many of the first. This changes neither a run nor
/// its output.
pub fn log_warnings<L: Log>(log: &L, warnings: &[Error], but: usize) {
    for warning in warnings.iter().skip(but) {
        warn!(log; "a source left the loop, but stays registered: {}", warning);
    }
}
