//! Sources of events, and what a user hands to the loop beside a source: a callback for its events.
mod callback;
mod choice;
mod dispatch;
mod source;

pub use callback::{Asking, Callback};
pub use choice::{Choice, Here, Hold, Keep, OneOf, Place, There};
pub use dispatch::{Dispatch, Dispatcher, Role};
pub use source::{EventSource, IntoError, PostAction, joining_has_no_order};
