use asker::Wish;
use calloop::{Error, PostAction, RegistrationToken, Requests};
use stand::{Act, plays};

mod asker;
mod stand;

// What a test does at a new stand, and what is to come of it.
const CASES: &[(&str, &[Act<'static>])] = &[
    (
        "requests_with_a_dead_token_are_refused_and_the_rest_is_carried_out",
        &[
            Act::Ping(
                7,
                &[
                    Wish::Enable((1, 0)),
                    Wish::Remove((1, 0)),
                    Wish::Insert(1, PostAction::Continue),
                ],
            ),
            Act::Timer(9, 8, &[]),
            Act::Remove((1, 0)),
            Act::Ring(0),
            Act::Says(Some(0), &[7]),
            Act::Told(
                0,
                &[
                    ("invalid token", None),
                    ("none", None),
                    ("inserted", Some((1, 1))),
                ],
            ),
            Act::Untold(0),
            Act::Untold(2),
        ],
    ),
    (
        "an_idle_finds_the_answer_that_it_waits_for",
        &[
            Act::Ping(
                1,
                &[Wish::Insert(1, PostAction::Continue), Wish::Reads(50, 0)],
            ),
            Act::Ring(0),
            Act::Says(Some(100), &[1, 50, 1]),
            Act::Untold(0),
        ],
    ),
    (
        "an_idle_finds_the_answer_that_it_waits_for_though_another_turn_fails_before_it",
        &[
            Act::Ping(
                1,
                &[Wish::Insert(1, PostAction::Continue), Wish::Reads(50, 0)],
            ),
            Act::Counter(None, 2, &[]),
            Act::Ring(0),
            Act::Script(1, &[1_099_511_627_776]),
            Act::Fails(&[1, 2]),
            Act::Says(Some(0), &[50, 1]),
        ],
    ),
    (
        "an_answer_outlasts_a_dispatch_that_fails_and_goes_with_the_next_one_behind_its_idles",
        &[
            Act::Ping(1, &[Wish::Enable((9, 0))]),
            Act::Counter(None, 2, &[]),
            Act::Ring(0),
            Act::Script(1, &[1_099_511_627_776]),
            Act::Fails(&[1, 2]),
            Act::Says(Some(0), &[]),
            Act::Says(Some(0), &[]),
            Act::Untold(0),
        ],
    ),
    (
        "an_answer_is_there_behind_the_next_dispatch_though_both_fail",
        &[
            Act::Ping(1, &[Wish::Enable((9, 0))]),
            Act::Counter(None, 2, &[]),
            Act::Ring(0),
            Act::Script(1, &[1_099_511_627_776]),
            Act::Fails(&[1, 2]),
            Act::Script(1, &[1_099_511_627_776]),
            Act::Fails(&[2]),
            Act::Told(0, &[("invalid token", None)]),
        ],
    ),
    (
        "an_answer_is_gone_behind_the_second_dispatch_though_each_fails",
        &[
            Act::Ping(1, &[Wish::Enable((9, 0))]),
            Act::Counter(None, 2, &[]),
            Act::Ring(0),
            Act::Script(1, &[1_099_511_627_776]),
            Act::Fails(&[1, 2]),
            Act::Script(1, &[1_099_511_627_776]),
            Act::Fails(&[2]),
            Act::Script(1, &[1_099_511_627_776]),
            Act::Fails(&[2]),
            Act::Untold(0),
        ],
    ),
    (
        "an_idle_that_waits_finds_its_answer_behind_three_dispatches_that_fail",
        &[
            Act::Ping(
                1,
                &[Wish::Insert(1, PostAction::Continue), Wish::Reads(50, 0)],
            ),
            Act::Counter(None, 2, &[]),
            Act::Ring(0),
            Act::Script(1, &[1_099_511_627_776]),
            Act::Fails(&[1, 2]),
            Act::Script(1, &[1_099_511_627_776]),
            Act::Fails(&[2]),
            Act::Script(1, &[1_099_511_627_776]),
            Act::Fails(&[2]),
            Act::Says(Some(0), &[50, 1]),
        ],
    ),
    (
        "a_callback_is_told_its_own_token_and_an_idle_none",
        &[
            Act::Ping(1, &[Wish::Own]),
            Act::Counter(Some(PostAction::Continue), 3, &[Wish::Own]),
            Act::Remove((0, 0)),
            Act::Ping(4, &[Wish::Own, Wish::Idle(6, None)]),
            Act::Ring(1),
            Act::Script(0, &[1_099_511_627_776]),
            Act::Says(Some(0), &[4, 0, 1, 3, 1, 0, 6]),
        ],
    ),
    (
        "a_timer_that_an_earlier_callback_disables_is_called_once_it_is_enabled",
        &[
            Act::Ping(1, &[Wish::Disable((1, 0))]),
            Act::Timer(0, 2, &[]),
            Act::Ring(0),
            Act::Says(Some(100), &[1]),
            Act::Says(Some(100), &[]),
            Act::Enable((1, 0)),
            Act::Says(Some(100), &[2]),
            Act::Says(Some(100), &[]),
            Act::Asked(&[Some(0), Some(100), Some(0), Some(100)]),
        ],
    ),
    (
        "a_source_that_a_callback_removes_is_not_called_behind_it",
        &[
            Act::Ping(1, &[Wish::Remove((1, 0))]),
            Act::Ping(2, &[]),
            Act::Ring(0),
            Act::Ring(1),
            Act::Says(Some(100), &[1]),
            Act::Told(0, &[("removed", None)]),
            Act::Says(Some(100), &[]),
            Act::Asked(&[Some(0), Some(100)]),
        ],
    ),
    (
        "a_timer_that_is_updated_in_the_batch_is_called_in_the_next_one",
        &[
            Act::Timer(0, 1, &[Wish::Update((1, 0))]),
            Act::Timer(0, 2, &[]),
            Act::Says(Some(100), &[1]),
            Act::Says(Some(100), &[2]),
            Act::Says(Some(100), &[]),
            Act::Asked(&[Some(0), Some(0), Some(100)]),
        ],
    ),
    (
        "a_callback_that_replaces_its_source_gets_the_next_version_of_the_slot",
        &[
            Act::Counter(
                Some(PostAction::Continue),
                1,
                &[Wish::Remove((0, 0)), Wish::Insert(1, PostAction::Continue)],
            ),
            Act::Script(0, &[0, 65536, 0]),
            Act::Says(Some(0), &[1, 9]),
            Act::Told(0, &[("removed", None), ("inserted", Some((0, 1)))]),
            Act::Names((0, 0), false),
            Act::Names((0, 1), true),
        ],
    ),
    (
        "a_pending_update_does_not_count_beside_disable",
        &[
            Act::Counter(
                Some(PostAction::Disable),
                1,
                &[Wish::Update((0, 0)), Wish::Enable((0, 0))],
            ),
            Act::Script(0, &[0]),
            Act::Says(Some(0), &[1]),
            Act::Told(0, &[("done", None), ("own turn", None)]),
            Act::Counts((0, 0), 1, 1),
        ],
    ),
    (
        "the_last_of_two_pending_actions_counts_beside_continue",
        &[
            Act::Counter(
                Some(PostAction::Continue),
                1,
                &[Wish::Update((0, 0)), Wish::Disable((0, 0))],
            ),
            Act::Script(0, &[0]),
            Act::Says(Some(0), &[1]),
            Act::Counts((0, 0), 1, 1),
        ],
    ),
    (
        "the_last_of_two_pending_actions_counts_beside_continue_and_the_other_way_round",
        &[
            Act::Counter(
                Some(PostAction::Continue),
                2,
                &[Wish::Disable((0, 0)), Wish::Update((0, 0))],
            ),
            Act::Script(0, &[0]),
            Act::Says(Some(0), &[2]),
            Act::Counts((0, 0), 2, 0),
        ],
    ),
    (
        "two_requests_that_change_one_slot_are_carried_out_in_order",
        &[
            Act::Ping(
                7,
                &[
                    Wish::Disable((1, 0)),
                    Wish::Enable((1, 0)),
                    Wish::Remove((1, 0)),
                    Wish::Register(0),
                    Wish::Register(1),
                ],
            ),
            Act::Counter(Some(PostAction::Continue), 1, &[]),
            Act::Ring(0),
            Act::Says(Some(0), &[7]),
            Act::Told(
                0,
                &[
                    ("done", None),
                    ("done", None),
                    ("removed", None),
                    ("not inserted", None),
                    ("inserted", Some((1, 2))),
                ],
            ),
        ],
    ),
    (
        "a_ping_whose_callback_registers_a_dispatcher_is_called",
        &[
            Act::Ping(7, &[Wish::Register(1)]),
            Act::Ring(0),
            Act::Says(Some(0), &[7]),
            Act::Told(0, &[("inserted", Some((1, 0)))]),
        ],
    ),
    (
        "an_idle_cancels_another_and_the_idle_that_it_asks_for_waits",
        &[
            Act::Idle(1, Some(1)),
            Act::Idle(2, None),
            Act::Says(Some(0), &[1]),
            Act::Told(0, &[("done", None), ("done", None)]),
            Act::Says(Some(0), &[101]),
            Act::Says(Some(0), &[]),
        ],
    ),
    (
        "idles_run_once_in_their_order_behind_the_batch",
        &[
            Act::Ping(
                1,
                &[Wish::Idle(5, None), Wish::Idle(6, None), Wish::Cancel(1)],
            ),
            Act::Idle(4, None),
            Act::Idle(3, None),
            Act::Cancel(1),
            Act::Ring(0),
            Act::Says(Some(0), &[1, 4, 6]),
            Act::Says(Some(0), &[]),
        ],
    ),
    (
        "a_cancel_of_an_idle_that_ran_does_nothing",
        &[
            Act::Idle(1, None),
            Act::Idle(2, None),
            Act::Says(Some(0), &[1, 2]),
            Act::Cancel(0),
            Act::Cancel(0),
            Act::Says(Some(0), &[]),
        ],
    ),
    (
        "no_idle_runs_behind_an_error",
        &[
            Act::Counter(None, 1, &[Wish::Idle(5, None)]),
            Act::Script(0, &[0]),
            Act::Fails(&[1]),
            Act::Says(Some(0), &[5]),
        ],
    ),
    (
        "answers_are_gone_when_the_next_dispatch_has_begun",
        &[
            Act::Ping(7, &[Wish::Enable((9, 0))]),
            Act::Ring(0),
            Act::Says(Some(0), &[7]),
            Act::Says(Some(0), &[]),
            Act::Untold(0),
            Act::Ring(0),
            Act::Says(Some(0), &[7]),
            Act::Untold(0),
            Act::Told(1, &[("invalid token", None)]),
        ],
    ),
    (
        "calls_as_values_queue_and_cancel_idles_and_hand_out_answers_once",
        &[
            Act::Ping(7, &[Wish::Register(1)]),
            Act::Queues(3, false),
            Act::Queues(4, true),
            Act::Ring(0),
            Act::Says(Some(0), &[7, 3]),
            Act::Answers(0, ("inserted", Some((1, 0)))),
            Act::Untold(0),
        ],
    ),
];

// Cases of deadlines that are set by request.
const DEADLINES: &[(&str, &[Act<'static>])] = &[
    (
        "a_timer_whose_deadline_another_callback_sets_is_called_then",
        &[
            Act::Ping(1, &[Wish::SetDeadline((1, 0), 50)]),
            Act::Timer(10, 2, &[]),
            Act::Ring(0),
            Act::Says(Some(100), &[1]),
            Act::Says(Some(100), &[2]),
            Act::Says(Some(100), &[]),
            Act::Asked(&[Some(0), Some(50), Some(100)]),
        ],
    ),
    (
        "a_timer_whose_deadline_is_set_to_an_earlier_moment_is_called_then",
        &[
            Act::Ping(1, &[Wish::SetDeadline((1, 0), 20)]),
            Act::Timer(70, 2, &[]),
            Act::Ring(0),
            Act::Says(Some(100), &[1]),
            Act::Told(0, &[("done", None)]),
            Act::Says(Some(100), &[2]),
            Act::Asked(&[Some(0), Some(20)]),
        ],
    ),
    (
        "a_timer_whose_deadline_is_set_in_the_batch_is_called_at_the_new_one_alone",
        &[
            Act::Timer(0, 1, &[Wish::SetDeadline((1, 0), 30)]),
            Act::Timer(0, 2, &[]),
            Act::Says(Some(100), &[1]),
            Act::Says(Some(100), &[2]),
            Act::Says(Some(100), &[]),
            Act::Asked(&[Some(0), Some(30), Some(100)]),
        ],
    ),
    (
        "a_disabled_timer_whose_deadline_is_set_is_called",
        &[
            Act::Ping(1, &[Wish::Disable((1, 0)), Wish::SetDeadline((1, 0), 20)]),
            Act::Timer(10, 2, &[]),
            Act::Ring(0),
            Act::Says(Some(100), &[1]),
            Act::Told(0, &[("done", None), ("done", None)]),
            Act::Says(Some(100), &[2]),
            Act::Asked(&[Some(0), Some(20)]),
        ],
    ),
    (
        "a_deadline_is_set_of_a_timer_alone_that_is_not_in_its_turn",
        &[
            Act::Ping(
                1,
                &[
                    Wish::SetDeadline((0, 0), 5),
                    Wish::SetDeadline((1, 0), 5),
                    Wish::SetDeadline((2, 0), 5),
                ],
            ),
            Act::Counter(Some(PostAction::Continue), 3, &[]),
            Act::Ring(0),
            Act::Says(Some(100), &[1]),
            Act::Told(
                0,
                &[
                    ("own turn", None),
                    ("invalid token", None),
                    ("invalid token", None),
                ],
            ),
            Act::Counts((1, 0), 1, 0),
            Act::Says(Some(100), &[]),
            Act::Asked(&[Some(0), Some(100)]),
        ],
    ),
];

// Cases of answers that wait for the next turn of who asked.
const WAITING_ANSWERS: &[(&str, &[Act<'static>])] = &[
    (
        "a_source_finds_the_token_that_it_asked_for_in_its_next_turn_and_has_its_source_removed",
        &[
            Act::Ping(7, &[Wish::Takes(0), Wish::Insert(1, PostAction::Continue)]),
            Act::Ring(0),
            Act::Says(Some(0), &[7]),
            Act::Says(Some(0), &[]),
            Act::Says(Some(0), &[]),
            Act::Names((1, 0), true),
            Act::Ring(0),
            Act::Says(Some(0), &[7, 1, 0]),
            Act::Names((1, 0), false),
            Act::Told(1, &[("removed", None), ("inserted", Some((1, 1)))]),
        ],
    ),
    (
        "an_answer_that_a_source_leaves_in_its_next_turn_is_gone_in_the_turn_after",
        &[
            Act::Ping(7, &[Wish::Register(1)]),
            Act::Ring(0),
            Act::Says(Some(0), &[7]),
            Act::Ring(0),
            Act::Says(Some(0), &[7]),
            Act::Ring(0),
            Act::Says(Some(0), &[7]),
            Act::Untold(0),
            Act::Told(1, &[("inserted", Some((2, 0)))]),
        ],
    ),
    (
        "a_refused_insertion_is_answered_in_the_next_turn_too_and_a_refusal_of_another_request_is_not",
        &[
            Act::Ping(7, &[Wish::Register(0), Wish::Enable((9, 0))]),
            Act::Ring(0),
            Act::Says(Some(0), &[7]),
            Act::Says(Some(0), &[]),
            Act::Untold(1),
            Act::Told(0, &[("not inserted", None)]),
        ],
    ),
    (
        "the_turn_of_another_source_lets_no_answer_go",
        &[
            Act::Ping(7, &[Wish::Register(1)]),
            Act::Ping(8, &[]),
            Act::Ring(0),
            Act::Says(Some(0), &[7]),
            Act::Ring(1),
            Act::Says(Some(0), &[8]),
            Act::Says(Some(0), &[]),
            Act::Told(0, &[("inserted", Some((2, 0)))]),
        ],
    ),
    (
        "a_timer_that_inserts_and_is_dropped_leaves_no_answer",
        &[
            Act::Timer(0, 8, &[Wish::Register(1)]),
            Act::Says(Some(0), &[8]),
            Act::Says(Some(0), &[]),
            Act::Untold(0),
        ],
    ),
    (
        "a_source_that_inserts_behind_its_own_removal_leaves_no_answer",
        &[
            Act::Ping(7, &[Wish::Remove((0, 0)), Wish::Register(1)]),
            Act::Ring(0),
            Act::Says(Some(0), &[7]),
            Act::Says(Some(0), &[]),
            Act::Untold(0),
            Act::Untold(1),
            Act::Names((0, 1), true),
        ],
    ),
    (
        "a_source_that_is_removed_or_disabled_leaves_no_answer",
        &[
            Act::Ping(7, &[Wish::Register(1)]),
            Act::Ping(8, &[Wish::Register(1)]),
            Act::Ping(9, &[Wish::Disable((1, 0))]),
            Act::Ring(0),
            Act::Ring(1),
            Act::Says(Some(0), &[7, 8]),
            Act::Says(Some(0), &[]),
            Act::Remove((0, 0)),
            Act::Ring(2),
            Act::Says(Some(0), &[9]),
            Act::Says(Some(0), &[]),
            Act::Untold(0),
            Act::Untold(1),
        ],
    ),
];

#[test]
fn each_case_goes_as_it_is_to(rt: HostRuntime) {
    for (name, acts) in CASES {
        assert_eq!(rt; plays(&rt, rt.alloc(), acts), None, "{name}");
    }
}

#[test]
fn each_deadline_is_set_as_it_is_to(rt: HostRuntime) {
    for (name, acts) in DEADLINES {
        assert_eq!(rt; plays(&rt, rt.alloc(), acts), None, "{name}");
    }
}

#[test]
fn each_answer_waits_as_long_as_it_is_to(rt: HostRuntime) {
    for (name, acts) in WAITING_ANSWERS {
        assert_eq!(rt; plays(&rt, rt.alloc(), acts), None, "{name}");
    }
}

#[test]
fn the_last_ticket_is_given_and_none_behind_it(rt: HostRuntime) {
    let token = RegistrationToken::new(0, 0);
    let mut requests: Requests<(), ()> = Requests::numbered_from(u64::MAX - 1, rt.alloc());
    assert!(rt; requests.update(&token).is_ok());
    assert!(rt; matches!(requests.disable(&token), Err(Error::TooManyTickets)));
    match requests.insert_idle(()) {
        Ok(_) => assert!(rt; false),
        Err(refused) => assert!(rt; matches!(refused.error, Error::TooManyTickets)),
    }
}
