//! Sources that are told of waits.
use super::FIRST_OF_SLOT_1;
use super::desk::{Act, plays};

// What a test does at a new desk, and what is to come of it.
const CASES: &[(&str, &[Act<'static>])] = &[
    (
        "an_event_that_is_asked_for_comes_before_a_ring_and_ends_the_wait",
        &[
            Act::Ping(7),
            Act::Attendant(1),
            Act::Ring(0),
            Act::Says(None, &[1, 7]),
            Act::Says(None, &[]),
            Act::Asked(&[Some(0), None]),
        ],
    ),
    (
        "a_source_that_is_updated_twice_is_told_once",
        &[
            Act::Attendant(0),
            Act::Update(0),
            Act::Update(0),
            Act::Says(None, &[]),
            Act::WaitsOf(0, 1),
            Act::Disable(0),
            Act::Says(None, &[]),
            Act::WaitsOf(0, 1),
        ],
    ),
    (
        "a_source_that_was_disabled_is_told_again_once_enabled",
        &[
            Act::Attendant(0),
            Act::Disable(0),
            Act::Says(None, &[]),
            Act::WaitsOf(0, 0),
            Act::Enable(0),
            Act::Says(None, &[]),
            Act::WaitsOf(0, 1),
        ],
    ),
    (
        "a_source_that_was_refused_is_not_told",
        &[
            Act::HandsAttendantBack,
            Act::Says(None, &[]),
            Act::Attendant(0),
            Act::IsAt(0, 0, 1),
            Act::Says(None, &[]),
            Act::WaitsOf(0, 1),
        ],
    ),
    (
        "a_failure_before_a_wait_keeps_what_was_asked_for",
        &[
            Act::Attendant(1),
            Act::FailingAttendant,
            Act::Fails(None, &[], None),
            Act::Says(None, &[2]),
            Act::Asked(&[Some(0)]),
        ],
    ),
    (
        "a_source_that_left_is_not_told",
        &[
            Act::LeavingAttendant,
            Act::Says(None, &[1]),
            Act::Says(None, &[]),
            Act::LendsNone(0),
            Act::Asked(&[Some(0), None]),
        ],
    ),
    (
        "a_source_is_told_of_its_own_events_that_a_wait_brought",
        &[
            Act::Ping(7),
            Act::Attendant(1),
            Act::Ring(0),
            Act::Script(0, &[FIRST_OF_SLOT_1, 0, FIRST_OF_SLOT_1]),
            Act::Says(None, &[1, 7, 1, 1]),
            Act::Remove(1),
            Act::TookAttendant(2),
        ],
    ),
    (
        "a_dispatcher_is_registered_as_its_source_is",
        &[
            Act::AttendantsDispatcher,
            Act::IsAt(0, 0, 0),
            Act::Says(None, &[]),
            Act::WaitsOf(0, 1),
        ],
    ),
];

#[test]
fn each_case_of_waits_goes_as_it_is_to(rt: HostRuntime) {
    for (name, acts) in CASES {
        assert_eq!(rt; plays(&rt, rt.alloc(), acts), None, "{name}");
    }
}
