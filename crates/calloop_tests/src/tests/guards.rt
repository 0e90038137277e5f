//! A source that fails before its ping is asked.
use super::desk::{Act, plays};
use std::io::ErrorKind;

// What a test does at a new desk, and what is to come of it.
const CASES: &[(&str, &[Act<'static>])] = &[
    (
        "a_ring_outlasts_a_turn_that_fails_before_it",
        &[
            Act::Guarded(1, false),
            Act::Ring(0),
            Act::Fails(Some(100), &[], None),
            Act::Says(Some(100), &[1]),
            Act::Says(Some(100), &[]),
            Act::Asked(&[Some(0), Some(0), Some(100)]),
        ],
    ),
    (
        "a_ping_that_is_updated_after_anothers_error_is_called_once",
        &[
            Act::Guarded(1, false),
            Act::Ping(2),
            Act::Ring(0),
            Act::Ring(1),
            Act::Fails(Some(100), &[], None),
            Act::Update(1),
            Act::Says(Some(100), &[2, 1]),
            Act::Says(Some(100), &[]),
            Act::Asked(&[Some(0), Some(0), Some(100)]),
        ],
    ),
    (
        "a_ping_whose_source_could_not_be_unregistered_ends_no_wait_once_dropped",
        &[
            Act::Guarded(0, true),
            Act::Remove(0),
            Act::Warns(&[ErrorKind::Other]),
            Act::LetGo,
            Act::Ring(0),
            Act::Says(Some(100), &[]),
            Act::Asked(&[Some(100)]),
        ],
    ),
    (
        "a_ping_whose_source_could_not_be_unregistered_ends_waits_until_it_is_dropped",
        &[
            Act::Guarded(0, true),
            Act::Remove(0),
            Act::Ring(0),
            Act::Says(Some(100), &[]),
            Act::LetGo,
            Act::Says(Some(100), &[]),
            Act::Asked(&[Some(0), Some(100)]),
        ],
    ),
];

#[test]
fn each_case_of_guards_goes_as_it_is_to(rt: HostRuntime) {
    for (name, acts) in CASES {
        assert_eq!(rt; plays(&rt, rt.alloc(), acts), None, "{name}");
    }
}
