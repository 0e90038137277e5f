//! A callback event loop, after the Rust crate calloop: every call of the loop is proved a case of a small machine.
//!
//! A loop holds sources, each with a callback. A dispatch waits until one has something, and calls back with it, lending the data that
//! it was lent itself. Here a timer says a line, once:
//!
//! ```
//! struct Says;
//!
//! impl On<Instant, String, TimeoutAction> for Says {
//!     fn on(&mut self, _deadline: Instant, said: &mut String) -> TimeoutAction {
//!         let _failed = said.push_str("five milliseconds\n");
//!         TimeoutAction::Drop
//!     }
//! }
//!
//! let mut event_loop: SystemLoop<Sources<Dispatcher<Timer, Says>, String>, R> =
//!     SystemLoop::system(rt, alloc)?;
//! let timer = Timer::from_deadline(Instant::from_millis(5));
//! event_loop.handle().insert_source(timer, Says)?;
//! event_loop.dispatch(rt, None, said)?;
//! ```
//!
//! - Sources: pings (`ping`), timers (`timer`), channels (`channel`), sockets (`generic`, `io`), futures (`futures`, `timeout`), streams
//!   (`stream`), one's own (`EventSource`), and two as one (`Both`). A loop's type lists those that it can hold, as `OneOf`.
//! - A callback asks its loop for things by the `Requests` that it is lent. The owner of the loop has a `LoopHandle`;
//!   a `LoopSignal` and a `Ping` go to other threads.
#![tactic(auto)]

pub mod sys;
pub mod timeout;

pub use calloop_ends::ping::{Ping, PingError, PingSource, make_ping};
pub use calloop_ends::{channel, futures, ping, stream};
pub use calloop_io as io;
pub use calloop_io::{Adapter, Async, Readable, Writable};
pub use calloop_loop as loop_logic;
pub use calloop_loop::{
    Answer, EventDispatcher, EventLoop, Idle, LoopHandle, LoopHold, LoopKeep, LoopSignal, Requests,
    ScriptLoop, Sources, SystemLoop, Ticket,
};
pub use calloop_mio::{MioIo, MioPoller, Precision, SystemClock};
pub use calloop_poll::sys::events::EventIterator;
pub use calloop_poll::sys::poll::Poll;
pub use calloop_poll::sys::synthetic::Synthetic;
pub use calloop_poll::sys::{Clock, Interest, Mode, Poller, Readiness};
pub use calloop_slots::error;
pub use calloop_slots::error::{Error, InsertError, Result};
pub use calloop_slots::token::{RegistrationToken, Token, TokenFactory};
pub use calloop_slots::wheel::Instant;
pub use calloop_slots::widths::{MOST_SLOTS, VERSIONS};
pub use calloop_sources::both::{Both, Part};
pub use calloop_sources::callbacks::{On, OnWith, QuietCallback, QuietDispatch};
pub use calloop_sources::forwarding::Forward;
pub use calloop_sources::generic::{Generic, NoIoDrop};
pub use calloop_sources::idles::{IdleCallback, QuietIdle};
pub use calloop_sources::movable::Movable;
pub use calloop_sources::sources::{
    Asking, Callback, Choice, Dispatch, Dispatcher, EventSource, Here, Hold, IntoError, Keep,
    OneOf, Place, PostAction, Role, There,
};
pub use calloop_sources::timer::{TimeoutAction, Timer, TimerError};
pub use calloop_sources::{
    batch_register, batch_reregister, batch_unregister, generic, timer, transient,
};
pub use calloop_wake::Receipt;
pub use timeout::{TimeoutFuture, TimeoutTimer, WakesTimeout};
