//! The traits of a poller and of a clock, and the ones that there are. From calloop's `sys.rs`.
pub use calloop_mio as system;
pub use calloop_poll::sys::{
    Clock, EVENTS_PER_WAIT, Interest, Mode, Poller, Readiness, Watched, events, faults, hub,
    notifier, poll, synthetic,
};
pub use calloop_script as script;
