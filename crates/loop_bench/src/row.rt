//! The rows.
ghost use Rattle.std.specs.Prelude.{◌≡◌, ◌<◌, IfSome};
ghost use Rattle.std.specs.List.{find};
ghost use Rattle.std.specs.Int.NonZero.{non_zero_u32_get};
ghost use Rattle.loop_bench.specs.Rows.{name_of, is_named, operations_of, calls_of};

use std::num::NonZeroU32;

// The most events of one wait.
const EVENTS_PER_WAIT: u64 = 1024;

/// The kinds of rows, by what they measure.
#[derive(Clone, Copy, Debug, PartialEq, Eq)]
pub enum Kind {
    /// Rings one of the pings in turn, and dispatches.
    RingAndDispatch,
    /// Arms timers, and dispatches until all have fired.
    TimersFired,
    /// Inserts a timer beside others, and removes it.
    TimersCancelled,
    /// Inserts a ping beside others, and removes it.
    InsertAndRemove,
    /// Dispatches while no timer is due.
    IdleDispatch,
    /// Dispatches while no ping is rung.
    IdleBesidePings,
    /// Inserts pings, rings each, and dispatches until all are called.
    PingsServed,
    /// Rings all pings that are in the loop, and dispatches until all are called.
    PingsRung,
    /// Dispatches while sockets are readable.
    ReadableSockets,
    /// Dispatches until a byte that came to each socket was read, if each change is told of once.
    EdgeSockets,
    /// The same, if a socket is told of as long as it is readable.
    LevelSockets,
    /// Sends messages to a channel, and dispatches until all are handed out.
    MessagesServed,
    /// The same with a channel with a bound.
    BoundedMessagesServed,
    /// Dispatches, each with a wait, until all messages of another thread are handed out.
    ThreadMessagesServed,
    /// The same with a channel with a bound, whose sender waits for room.
    BoundedThreadMessagesServed,
    /// Schedules futures that are ready, and dispatches until the results of all are handed out.
    ReadyFutures,
    /// Dispatches, each with a wait, until a future has seen all wakes of another thread.
    ThreadWoken,
    /// Schedules futures that are ready at a moment, and dispatches until the results of all are handed out.
    TimeoutsReady,
    /// Dispatches, each with a wait, until a timer that is a few microseconds ahead has fired: how late that is.
    TimerNear,
    /// Dispatches, each with a wait, until all messages of threads that wait for the one place of a channel are handed out.
    WaitingSenders,
}

impl Kind {
    /// Each kind once, in the order in which they are printed.
    pub const ALL: [Kind; 20] = [
        Kind::RingAndDispatch,
        Kind::TimersFired,
        Kind::TimersCancelled,
        Kind::InsertAndRemove,
        Kind::IdleDispatch,
        Kind::IdleBesidePings,
        Kind::PingsServed,
        Kind::PingsRung,
        Kind::ReadableSockets,
        Kind::EdgeSockets,
        Kind::LevelSockets,
        Kind::MessagesServed,
        Kind::BoundedMessagesServed,
        Kind::ThreadMessagesServed,
        Kind::BoundedThreadMessagesServed,
        Kind::ReadyFutures,
        Kind::ThreadWoken,
        Kind::TimeoutsReady,
        Kind::TimerNear,
        Kind::WaitingSenders,
    ];

    /// The kind's name among the arguments, and in what is printed.
    pub fn name(self) -> &'static str
        ensures { result.now ≡ name_of self }
    {
        match self {
            Kind::RingAndDispatch => "ring_and_dispatch",
            Kind::TimersFired => "timers_fired",
            Kind::TimersCancelled => "timers_cancelled",
            Kind::InsertAndRemove => "insert_and_remove",
            Kind::IdleDispatch => "idle_dispatch",
            Kind::IdleBesidePings => "idle_beside_pings",
            Kind::PingsServed => "pings_served",
            Kind::PingsRung => "pings_rung",
            Kind::ReadableSockets => "readable_sockets",
            Kind::EdgeSockets => "edge_sockets",
            Kind::LevelSockets => "level_sockets",
            Kind::MessagesServed => "messages_served",
            Kind::BoundedMessagesServed => "bounded_messages_served",
            Kind::ThreadMessagesServed => "thread_messages_served",
            Kind::BoundedThreadMessagesServed => "bounded_thread_messages_served",
            Kind::ReadyFutures => "ready_futures",
            Kind::ThreadWoken => "thread_woken",
            Kind::TimeoutsReady => "timeouts_ready",
            Kind::TimerNear => "timer_near",
            Kind::WaitingSenders => "waiting_senders",
        }
    }

    /// The kind of this name.
    pub fn from_name(name: &str) -> Option<Kind>
        ensures first { result ≡ find (is_named name.now) Self.ALL }
        ensures named { IfSome result (λ kind. name_of kind ≡ name.now) }
    {
        Kind::ALL.iter().copied().find(|kind| kind.name() == name)
    }
}

/// A row: what is measured, how often, and with how many sources.
#[derive(Clone, Copy, Debug)]
pub struct Row {
    pub kind: Kind,
    pub count: NonZeroU32,
    pub size: NonZeroU32,
}

impl Row {
    /// The number of steps by which the row's time is divided: each timer that fires is one, each ping that is inserted and
    /// served, each socket that is read, each message, each future that is ready, and each wake.
    pub fn operations(&self) -> u64
        ensures value { result ≡ operations_of self.now.kind
            (non_zero_u32_get self.now.count) (non_zero_u32_get self.now.size) }
        ensures nonzero { 0 < result }
    {
        let count = u64::from(self.count.get());
        match self.kind {
            Kind::TimersFired
            | Kind::PingsServed
            | Kind::EdgeSockets
            | Kind::LevelSockets
            | Kind::MessagesServed
            | Kind::BoundedMessagesServed
            | Kind::ThreadMessagesServed
            | Kind::BoundedThreadMessagesServed
            | Kind::ReadyFutures
            | Kind::ThreadWoken
            | Kind::TimeoutsReady
            | Kind::PingsRung
            | Kind::WaitingSenders => count * u64::from(self.size.get()),
            _ => count,
        }
    }

    /// The number of callbacks that the row has to call.
    pub fn calls(&self) -> u64
        ensures { result ≡ calls_of self.now.kind
            (non_zero_u32_get self.now.count) (non_zero_u32_get self.now.size) }
    {
        match self.kind {
            Kind::RingAndDispatch
            | Kind::PingsRung
            | Kind::TimerNear
            | Kind::WaitingSenders
            | Kind::TimersFired
            | Kind::PingsServed
            | Kind::EdgeSockets
            | Kind::LevelSockets
            | Kind::MessagesServed
            | Kind::BoundedMessagesServed
            | Kind::ThreadMessagesServed
            | Kind::BoundedThreadMessagesServed
            | Kind::ReadyFutures
            | Kind::TimeoutsReady => self.operations(),
            Kind::ThreadWoken => u64::from(self.count.get()),
            Kind::ReadableSockets => {
                u64::from(self.count.get()) * u64::from(self.size.get()).min(EVENTS_PER_WAIT)
            }
            Kind::TimersCancelled
            | Kind::InsertAndRemove
            | Kind::IdleDispatch
            | Kind::IdleBesidePings => 0,
        }
    }
}
