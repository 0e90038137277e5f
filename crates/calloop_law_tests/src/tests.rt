use calloop::channel::Channel;
use calloop::futures::{Context, Executor, Future, Poll};
use calloop::stream::{Stream, StreamSource};
use calloop::{Dispatcher, Here, Instant, On, PingSource, Sources, TimeoutAction, Timer};
use calloop_laws::{
    a_posted_channel_opens_its_turn, a_posted_executor_opens_its_turn,
    a_posted_stream_opens_its_turn, a_rung_ping_is_called, busy_runs_that_there_are,
    call_of_a_ring_that_there_is, dispatch_of_a_ring_that_there_is, each_dispatch_serves_all,
    histories_are_schedules, once, once_where_nothing_is_asked, run_that_there_is,
    runs_that_go_wrong_late, unserved_dispatches_are_ruled_out, unserved_keys_are_ruled_out,
    what_is_posted_is_served, what_was_queued_is_popped, what_was_sent_is_given,
    wrong_histories_are_ruled_out, wrong_runs_are_ruled_out,
};
use calloop_script::{ScriptClock, ScriptPoller};
use calloop_wake_laws::{
    can_be_delivered, lost_is_not_covered, nothing_is_lost, out_of_reach,
    schedules_of_one_board_that_there_are, schedules_of_queues_that_there_are,
    schedules_that_there_are, schedules_that_there_are_not, steps_are_the_machines,
    steps_that_are_not_the_machines, turns_that_end_at_their_bound,
};
use std::sync::Wait;

// Counts its calls.
#[derive(Drop)]
struct Counts;

impl On<Instant, u64, TimeoutAction> for Counts {
    fn on(&mut self, _deadline: Instant, calls: &mut u64) -> TimeoutAction {
        *calls = calls.saturating_add(1);
        TimeoutAction::Drop
    }
}

// Counts every event.
#[derive(Drop)]
struct CountsEach;

impl<E: Drop> On<E, u64, ()> for CountsEach {
    fn on(&mut self, _event: E, calls: &mut u64) {
        *calls = calls.saturating_add(1);
    }
}

// A future or a stream that is never ready.
#[derive(Drop)]
struct Never;

impl<R: Wait + Drop> Future<R> for Never {
    type Output = u64;

    fn poll(&mut self, _cx: &mut Context<'_, R>) -> Poll<u64> {
        Poll::Pending
    }
}

impl<R: Wait + Drop> Stream<R> for Never {
    type Item = u64;

    fn poll_next(&mut self, _cx: &mut Context<'_, R>) -> Poll<Option<u64>> {
        Poll::Pending
    }
}

type Source = Sources<Dispatcher<Timer, Counts>, u64>;

type OfPings<R> = Sources<Dispatcher<PingSource<R>, CountsEach>, u64>;

type OfChannels<R> = Sources<Dispatcher<Channel<u64, R>, CountsEach>, u64>;

type OfExecutors<R> = Sources<Dispatcher<Executor<Never, R>, CountsEach>, u64>;

type OfStreams<R> = Sources<Dispatcher<StreamSource<Never, R>, CountsEach>, u64>;

#[test]
fn the_law_of_all_schedules_rules_some_states_out(_rt: HostRuntime) {
    nothing_is_lost();
    lost_is_not_covered();
    schedules_that_there_are();
    schedules_of_queues_that_there_are();
    schedules_of_one_board_that_there_are();
    turns_that_end_at_their_bound();
    schedules_that_there_are_not();
    steps_are_the_machines();
    steps_that_are_not_the_machines();
}

#[test]
fn the_law_of_delivery_rules_what_is_out_of_reach_out(_rt: HostRuntime) {
    can_be_delivered();
    out_of_reach();
}

#[test]
fn the_law_of_all_runs_rules_wrong_runs_out(_rt: HostRuntime) {
    once::<Source, ScriptPoller, ScriptClock, HostRuntime>();
    once_where_nothing_is_asked::<Source, ScriptPoller, ScriptClock, HostRuntime>();
    run_that_there_is();
    busy_runs_that_there_are();
    wrong_runs_are_ruled_out();
    runs_that_go_wrong_late();
}

#[test]
fn the_law_of_what_a_dispatch_has_done_rules_wrong_dispatches_out(_rt: HostRuntime) {
    each_dispatch_serves_all::<Source, ScriptPoller, ScriptClock, HostRuntime>();
    unserved_dispatches_are_ruled_out();
}

#[test]
fn the_law_of_what_was_posted_rules_wrong_histories_out(_rt: HostRuntime) {
    what_is_posted_is_served::<Source, ScriptPoller, ScriptClock, HostRuntime>();
    histories_are_schedules();
    wrong_histories_are_ruled_out();
    unserved_keys_are_ruled_out();
    dispatch_of_a_ring_that_there_is();
}

#[test]
fn the_laws_of_turns_rule_a_silent_callback_out(_rt: HostRuntime) {
    a_rung_ping_is_called::<
        OfPings<HostRuntime>,
        CountsEach,
        Here,
        ScriptPoller,
        ScriptClock,
        HostRuntime,
    >();
    a_posted_channel_opens_its_turn::<
        OfChannels<HostRuntime>,
        u64,
        CountsEach,
        Here,
        ScriptPoller,
        ScriptClock,
        HostRuntime,
    >();
    a_posted_executor_opens_its_turn::<
        OfExecutors<HostRuntime>,
        Never,
        CountsEach,
        Here,
        ScriptPoller,
        ScriptClock,
        HostRuntime,
    >();
    a_posted_stream_opens_its_turn::<
        OfStreams<HostRuntime>,
        Never,
        CountsEach,
        Here,
        ScriptPoller,
        ScriptClock,
        HostRuntime,
    >();
    what_was_sent_is_given();
    what_was_queued_is_popped();
    call_of_a_ring_that_there_is();
}
