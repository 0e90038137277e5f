use calloop::{Instant, PostAction};
use desk::{Act, Call, plays};
use std::io::ErrorKind;

mod actions;
mod borrowed;
mod channels;
mod desk;
mod exchanges;
mod guards;
mod machine;
mod own_pings;
mod pings;
mod places;
mod scripted;
mod several;
mod stage;
mod timers;
mod trios;
mod waits;

// What a test does at a new desk, and what is to come of it.
const CASES: &[(&str, &[Act<'static>])] = &[
    (
        "an_empty_loop_waits_as_it_is_asked",
        &[Act::Says(Some(0), &[]), Act::Asked(&[Some(0)])],
    ),
    (
        "three_kinds_of_source_are_called_in_the_order_of_a_batch",
        &[
            Act::Ping(7),
            Act::Counter(1, Some(PostAction::Continue)),
            Act::Alarm(3),
            Act::Ring(0),
            Act::Script(4, &[FIRST_OF_SLOT_1]),
            Act::Says(None, &[7, 1, 5]),
            Act::Asked(&[Some(0)]),
        ],
    ),
    (
        "a_ring_is_one_call",
        &[
            Act::Ping(7),
            Act::IsAt(0, 0, 0),
            Act::Ring(0),
            Act::Says(Some(0), &[7]),
            Act::Says(Some(0), &[]),
        ],
    ),
    (
        "a_ping_whose_dispatcher_is_registered_is_called",
        &[
            Act::PingsDispatcher(7),
            Act::IsAt(0, 0, 0),
            Act::Ring(0),
            Act::Says(Some(0), &[7]),
            Act::Remove(0),
            Act::TookPing(7),
            Act::LetGo,
        ],
    ),
    (
        "rung_pings_are_called_in_the_order_of_their_slots",
        &[
            Act::Ping(1),
            Act::Ping(2),
            Act::Ping(3),
            Act::Ring(2),
            Act::Ring(0),
            Act::Ring(1),
            Act::Ring(0),
            Act::Says(Some(0), &[1, 2, 3]),
            Act::Ring(1),
            Act::Says(Some(0), &[2]),
        ],
    ),
    (
        "a_wait_beside_a_ring_is_asked_as_0",
        &[
            Act::Ping(1),
            Act::Ring(0),
            Act::Says(None, &[1]),
            Act::Says(None, &[]),
            Act::Says(Some(10), &[]),
            Act::Asked(&[Some(0), None, Some(10)]),
        ],
    ),
    (
        "a_polled_key_of_a_ping_calls_nothing",
        &[
            Act::Ping(1),
            Act::Script(0, &[0, FIRST_OF_SLOT_1, OWN_KEY]),
            Act::Says(Some(0), &[]),
            Act::Ring(0),
            Act::Says(Some(0), &[1]),
        ],
    ),
    (
        "an_insertion_that_its_source_refuses_is_handed_back",
        &[
            Act::HandsCounterBack,
            Act::Ping(1),
            Act::IsAt(0, 0, 1),
            Act::Ring(0),
            Act::Says(Some(0), &[1]),
        ],
    ),
    (
        "an_error_of_a_turn_keeps_the_rest_of_the_batch",
        &[
            Act::Ping(1),
            Act::Counter(1, None),
            Act::Script(0, &[FIRST_OF_SLOT_1, FIRST_OF_SLOT_1]),
            Act::Ring(0),
            Act::Fails(None, &[1, 1], None),
            Act::Fails(None, &[2], None),
            Act::Says(None, &[]),
            Act::Asked(&[Some(0), Some(0), None]),
        ],
    ),
    (
        "a_source_that_asks_to_be_disabled_is_unregistered",
        &[
            Act::Counter(1, Some(PostAction::Disable)),
            Act::Script(0, &[0]),
            Act::Says(None, &[1]),
            Act::Remove(0),
            Act::TookCounter(1, 2),
        ],
    ),
    (
        "a_refused_registration_after_a_turn_is_an_error_of_the_dispatch",
        &[
            Act::Ping(9),
            Act::Counter(2, Some(PostAction::Reregister)),
            Act::Script(0, &[FIRST_OF_SLOT_1, FIRST_OF_SLOT_1, 0]),
            Act::Fails(None, &[1, 2], Some(ErrorKind::NotFound)),
            Act::Ring(0),
            Act::Says(None, &[9]),
            Act::Remove(1),
            Act::TookCounter(2, 1),
        ],
    ),
    (
        "a_source_that_asks_to_leave_is_gone_for_the_next_event",
        &[
            Act::Counter(1, Some(PostAction::Remove)),
            Act::Script(0, &[0, 0]),
            Act::Says(None, &[1]),
            Act::IsGone(0),
        ],
    ),
    (
        "a_list_of_calls_is_answered_in_order",
        &[Act::Answers(
            &[
                Call::Insert(2),
                Call::Update(0),
                Call::Dispatch,
                Call::Poller,
            ],
            &[
                ("inserted", true),
                ("updated", true),
                ("dispatched", true),
                ("poller", true),
            ],
        )],
    ),
    (
        "registrations_as_values_are_answered_in_order",
        &[
            Act::Ping(1),
            Act::Answers(
                &[
                    Call::Update(0),
                    Call::Disable(0),
                    Call::Enable(0),
                    Call::Remove(0),
                    Call::Enable(0),
                ],
                &[
                    ("updated", true),
                    ("disabled", true),
                    ("enabled", true),
                    ("removed", true),
                    ("enabled", false),
                ],
            ),
        ],
    ),
    (
        "a_timer_that_is_armed_again_shortens_each_wait",
        &[
            Act::AlarmEach(500, 500),
            Act::Says(Some(250), &[]),
            Act::Says(Some(510), &[5]),
            Act::Says(Some(510), &[5]),
            Act::Says(Some(510), &[5]),
            Act::Asked(&[Some(250), Some(250), Some(500), Some(500)]),
        ],
    ),
    (
        "an_error_of_a_turn_keeps_a_due_timer",
        &[
            Act::Alarm(0),
            Act::Counter(1, None),
            Act::Script(0, &[FIRST_OF_SLOT_1]),
            Act::Fails(None, &[1], None),
            Act::Says(None, &[5]),
        ],
    ),
    (
        "a_due_timer_that_is_updated_after_an_error_is_called_once",
        &[
            Act::AlarmAgain(0, 1000),
            Act::Counter(1, None),
            Act::Script(0, &[FIRST_OF_SLOT_1]),
            Act::Fails(None, &[1], None),
            Act::Update(0),
            Act::Says(Some(100), &[5]),
            Act::Says(Some(100), &[]),
            Act::Asked(&[Some(0), Some(0), Some(100)]),
        ],
    ),
    (
        "a_due_timer_that_is_disabled_after_an_error_is_called_once_enabled",
        &[
            Act::Alarm(0),
            Act::Counter(1, None),
            Act::Script(0, &[FIRST_OF_SLOT_1]),
            Act::Fails(None, &[1], None),
            Act::Disable(0),
            Act::Says(Some(100), &[]),
            Act::Enable(0),
            Act::Says(Some(100), &[5]),
            Act::Asked(&[Some(0), Some(0), Some(0)]),
        ],
    ),
    (
        "a_timer_that_leaves_vacates_its_slot",
        &[
            Act::Alarm(10),
            Act::IsAt(0, 0, 0),
            Act::Says(None, &[5]),
            Act::Ping(1),
            Act::IsAt(1, 0, 1),
            Act::IsGone(0),
            Act::Ring(0),
            Act::Says(None, &[1]),
        ],
    ),
    (
        "a_ping_that_is_rung_while_disabled_is_called_once_enabled",
        &[
            Act::Ping(1),
            Act::Disable(0),
            Act::Ring(0),
            Act::Enable(0),
            Act::Says(Some(100), &[1]),
            Act::Asked(&[Some(0)]),
        ],
    ),
    (
        "an_enabled_source_cannot_be_enabled",
        &[
            Act::Ping(1),
            Act::NotEnabled(0, ErrorKind::AlreadyExists),
            Act::Update(0),
        ],
    ),
    (
        "a_disabled_source_cannot_be_disabled_or_updated",
        &[
            Act::Ping(1),
            Act::Disable(0),
            Act::NotDisabled(0, ErrorKind::NotFound),
            Act::NotUpdated(0, ErrorKind::NotFound),
        ],
    ),
    (
        "a_source_that_is_removed_is_handed_back_once",
        &[
            Act::Ping(7),
            Act::Remove(0),
            Act::TookPing(7),
            Act::LetGo,
            Act::RemovesNone(0),
            Act::IsGone(0),
            Act::Ping(8),
            Act::IsAt(1, 0, 1),
        ],
    ),
    (
        "a_timer_that_is_updated_is_called_once",
        &[
            Act::AlarmAgain(10, 1000),
            Act::Says(Some(4), &[]),
            Act::Update(0),
            Act::Says(Some(100), &[5]),
            Act::Says(Some(100), &[]),
            Act::Asked(&[Some(4), Some(6), Some(100)]),
        ],
    ),
    (
        "a_disabled_timer_is_called_once_enabled",
        &[
            Act::Alarm(10),
            Act::Disable(0),
            Act::Script(4, &[]),
            Act::Says(Some(100), &[]),
            Act::Enable(0),
            Act::Says(Some(100), &[5]),
            Act::Asked(&[Some(100), Some(6)]),
        ],
    ),
    (
        "a_timer_that_stays_disabled_shortens_no_wait",
        &[
            Act::Alarm(10),
            Act::Disable(0),
            Act::Says(Some(100), &[]),
            Act::Says(Some(100), &[]),
            Act::Asked(&[Some(100), Some(100)]),
        ],
    ),
    (
        "a_rung_ping_that_is_removed_is_not_called",
        &[
            Act::Ping(1),
            Act::Ping(2),
            Act::Ring(0),
            Act::Ring(1),
            Act::Remove(1),
            Act::TookPing(2),
            Act::LetGo,
            Act::Says(Some(100), &[1]),
            Act::Says(Some(100), &[]),
            Act::Asked(&[Some(0), Some(100)]),
        ],
    ),
    (
        "a_ping_that_is_dropped_before_its_source_is_inserted_leaves_at_once",
        &[
            Act::ClosedPing,
            Act::Says(Some(0), &[]),
            Act::IsGone(0),
            Act::Says(Some(100), &[]),
            Act::Asked(&[Some(0), Some(100)]),
        ],
    ),
    (
        "the_last_ping_of_a_source_closes_after_its_ring",
        &[
            Act::Ping(1),
            Act::Clone(0),
            Act::Drop(0),
            Act::Says(Some(0), &[]),
            Act::Ring(1),
            Act::Drop(1),
            Act::Says(Some(0), &[1]),
            Act::IsGone(0),
        ],
    ),
    (
        "a_ping_that_is_dropped_while_its_source_is_disabled_leaves_once_enabled",
        &[
            Act::Ping(1),
            Act::Disable(0),
            Act::Drop(0),
            Act::Says(Some(10), &[]),
            Act::Enable(0),
            Act::Says(Some(10), &[]),
            Act::IsGone(0),
            Act::Asked(&[Some(10), Some(0)]),
        ],
    ),
];

#[test]
fn each_case_goes_as_it_is_to(rt: HostRuntime) {
    for (name, acts) in CASES {
        assert_eq!(rt; plays(&rt, rt.alloc(), acts), None, "{name}");
    }
}

const OWN_KEY: u64 = u64::MAX;

const FIRST_OF_SLOT_1: u64 = 1099511627776;

fn at(millis: u64) -> Instant {
    Instant {
        nanos: millis.saturating_mul(1_000_000),
    }
}
