//! Laws from a posted key to the turn that it leads to. They hold of every dispatch that returns `Ok` and, as in
//! `what_is_posted_is_served`, of every history of its board from the start.
//!
//! A cell is at rest if no turn of it is open and no pass of its key is held. If it is at rest when the dispatch takes keys,
//! the event of its key is handed out to its source, as `what_is_posted_is_served` says of a posted key, and nobody changed
//! the registration since, the cell opens the source's turn.
//!
//! The contract of the cell's `open_turn` and the cell's lock give that the turn is a step of the history, and that the
//! source's tally counts the turn if the cell opens it. Here that is a premise, as for the notes of the watch.
ghost use Rattle.std.specs.Prelude.{◌≡◌, ℕ, [], ◌∷◌, Ok, None};
ghost use Rattle.logbook.specs.Pages.{Book};
ghost use Rattle.calloop_poll.specs.sys.Polls.{posted_event};
ghost use Rattle.calloop_ends.specs.channel.Channels.{ChannelOpens, channel_tally};
ghost use Rattle.calloop_ends.specs.futures.Executors.{ComesOf, ExecutorOpens, executor_tally};
ghost use Rattle.calloop_ends.specs.ping.Pings.{PingOpens, ping_tally};
ghost use Rattle.calloop_ends.specs.stream.Streams.{StreamOpens, stream_tally};
ghost use Rattle.calloop_loop.specs.Rules.{DispatchedBy};
ghost use Rattle.calloop_laws.specs.ExampleRun.{quiet_poller};
ghost use Rattle.calloop_laws.specs.Handed.{OverEachDispatch, IsHandedOut};
ghost use Rattle.calloop_laws.specs.Called.{world_behind_it, OpensEachTurn, IsOpened, CallsEachRing, IsCalledBack};
ghost use Rattle.calloop_laws.specs.Examples.{SmallHistory};
ghost use Rattle.calloop_laws.specs.Histories.{IsHistory};
ghost use Rattle.calloop_laws.specs.Sent.{WhatWasSentIsGiven, FindsNoMessage, IsBeginningOf, history_of_a_message};
ghost use Rattle.calloop_laws.specs.Tied.{Taking};
ghost use Rattle.calloop_laws.specs.Queued.{WhatWasQueuedIsPopped, FindsNoTask, popped_in, history_of_a_task};
ghost use Rattle.calloop_wake_laws.specs.Lost.{of_channels, of_executors};
ghost use Rattle.calloop_wake_laws.specs.Kinds.{Born, every_kind, new_cell};
ghost use Rattle.calloop_wake_laws.specs.Wakes.{start};
ghost use Rattle.calloop_laws.specs.Rung.{ringing, unknown, no_idles, calls_anything, is_never_called, opens_none, asks_anything, itself, ping_before, with_a_ping, of_a_call};

use calloop::channel::{Channel, Event};
use calloop::futures::{Executor, Future};
use calloop::stream::{Stream, StreamSource};
use calloop::{Asking, Callback, EventDispatcher, LoopHold, PingSource, Requests};
use calloop_poll::sys::{Clock, Poller};
use std::sync::Wait;

/// If a ping is rung when the dispatch takes keys, its callback is called in the turn that its cell opens, once.
pub fn a_rung_ping_is_called<D, F, N, P: Poller, C: Clock, R: Wait + Drop>()
where
    D: LoopHold<PingSource<R>, F, P, C, R, N>,
    F: Callback<
        (),
        (),
        (),
        <D as EventDispatcher<P, C, R>>::Data,
        Requests<D, <D as EventDispatcher<P, C, R>>::Idle>,
    >,
    ensures { OverEachDispatch D.means D.Idle.runs P.outside (CallsEachRing F.may
        ⟦<Requests<D, <D as EventDispatcher<P, C, R>>::Idle> as Asking>⟧.reaches D.held D.means) }
{}

/// A channel's turn is opened: it calls the callback with the messages that it pops, in order, until a pop finds none, or
/// until it popped as many as a turn may pop.
pub fn a_posted_channel_opens_its_turn<D, T: Drop, F, N, P: Poller, C: Clock, R: Wait + Drop>()
where
    D: LoopHold<Channel<T, R>, F, P, C, R, N>,
    F: Callback<
        Event<T>,
        (),
        (),
        <D as EventDispatcher<P, C, R>>::Data,
        Requests<D, <D as EventDispatcher<P, C, R>>::Idle>,
    >,
    ensures { OverEachDispatch D.means D.Idle.runs P.outside
        (OpensEachTurn channel_tally ChannelOpens F.may
        ⟦<Requests<D, <D as EventDispatcher<P, C, R>>::Idle> as Asking>⟧.reaches D.held D.means) }
{}

/// In every history of a board: when a pop of a channel finds no message, all that was put into it before keys were taken
/// earlier was handed out, in order. That a turn's pops are steps of the history is given by each pop's contract and the
/// lock, not by a law. A history meets this; ruled out are a message that isn't handed out, and two in another order.
pub fn what_was_sent_is_given()
    ensures given { (born : ℕ → Born) (hs : SmallHistory)
        → IsHistory every_kind (start (λ n. new_cell (born n))) hs
        → WhatWasSentIsGiven born hs }
    ensures history { IsHistory every_kind of_channels history_of_a_message }
    ensures met { (t : Taking [] history_of_a_message)
        × (pop : FindsNoMessage
        (world_behind_it every_kind of_channels history_of_a_message t) t.behind 0)
        × (pop.channel.given ≡ 3 ∷ []) }
    ensures left_out { ¬ IsBeginningOf (3 ∷ []) [] }
    ensures backwards { ¬ IsBeginningOf (3 ∷ 4 ∷ []) (4 ∷ 3 ∷ []) }
{}

/// An executor's turn is opened: it polls at most 1,024 tasks, and its callback is called with their futures' results.
pub fn a_posted_executor_opens_its_turn<
    D,
    Fut: Future<R>,
    F,
    N,
    P: Poller,
    C: Clock,
    R: Wait + Drop,
>()
where
    D: LoopHold<Executor<Fut, R>, F, P, C, R, N>,
    F: Callback<
        Fut::Output,
        (),
        (),
        <D as EventDispatcher<P, C, R>>::Data,
        Requests<D, <D as EventDispatcher<P, C, R>>::Idle>,
    >,
    ensures { OverEachDispatch D.means D.Idle.runs P.outside
        (OpensEachTurn executor_tally (ExecutorOpens (ComesOf Fut.gives Fut.polls)) F.may
        ⟦<Requests<D, <D as EventDispatcher<P, C, R>>::Idle> as Asking>⟧.reaches D.held D.means) }
{}

/// In every history of a board: when a pop of an executor finds no task, each task that was queued when keys were taken
/// earlier was popped, in order, if nobody changed the executor's registration. Here too no law says that a turn's pops are
/// steps of the history. One history meets this.
pub fn what_was_queued_is_popped()
    ensures popped { (born : ℕ → Born) (hs : SmallHistory)
        → IsHistory every_kind (start (λ n. new_cell (born n))) hs
        → WhatWasQueuedIsPopped born hs }
    ensures history { IsHistory every_kind of_executors history_of_a_task }
    ensures met { (t : Taking [] history_of_a_task)
        × (pop : FindsNoTask
        (world_behind_it every_kind of_executors history_of_a_task t) t.behind 0)
        × (popped_in 0 (world_behind_it every_kind of_executors history_of_a_task t) pop.earlier
        ≡ 2 ∷ []) }
{}

/// The turn of a stream's source is opened: it reads the stream if the source's ping was rung.
pub fn a_posted_stream_opens_its_turn<D, S: Stream<R>, F, N, P: Poller, C: Clock, R: Wait + Drop>()
where
    D: LoopHold<StreamSource<S, R>, F, P, C, R, N>,
    F: Callback<
        Option<S::Item>,
        (),
        (),
        <D as EventDispatcher<P, C, R>>::Data,
        Requests<D, <D as EventDispatcher<P, C, R>>::Idle>,
    >,
    ensures { OverEachDispatch D.means D.Idle.runs P.outside
        (OpensEachTurn stream_tally (StreamOpens S.polls) F.may
        ⟦<Requests<D, <D as EventDispatcher<P, C, R>>::Idle> as Asking>⟧.reaches D.held D.means) }
{}

/// A possible dispatch of a loop of pings. With the history of `dispatch_of_a_ring_that_there_is` it meets the premises of
/// `a_rung_ping_is_called`, so that it calls the callback, and those of the laws of turns. The laws rule out the same
/// dispatch with a callback that is never called, and with a source whose turns no cell opens.
pub fn call_of_a_ring_that_there_is()
    ensures dispatch { (name : Book) → DispatchedBy ringing no_idles quiet_poller
        None tt (Ok tt) tt (with_a_ping name) (of_a_call name) }
    ensures called { (name : Book) → OverEachDispatch ringing no_idles quiet_poller
        (CallsEachRing calls_anything asks_anything itself ringing)
        → (h : IsHandedOut ringing (with_a_ping name) (of_a_call name) (posted_event 0))
        × IsCalledBack calls_anything asks_anything itself ringing (with_a_ping name)
        (of_a_call name) (posted_event 0) h (ping_before name) }
    ensures opened { (name : Book) → OverEachDispatch ringing no_idles quiet_poller
        (OpensEachTurn ping_tally PingOpens calls_anything asks_anything itself ringing)
        → (h : IsHandedOut ringing (with_a_ping name) (of_a_call name) (posted_event 0))
        × IsOpened PingOpens calls_anything asks_anything itself ringing (with_a_ping name)
        (of_a_call name) (posted_event 0) h (ping_before name) }
    ensures unopened { (name : Book) → ¬ OpensEachTurn ping_tally opens_none calls_anything
        asks_anything itself unknown (with_a_ping name) (of_a_call name) }
    ensures silent { (name : Book) → ¬ CallsEachRing is_never_called asks_anything itself unknown
        (with_a_ping name) (of_a_call name) }
{}
