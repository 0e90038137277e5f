//! Pings that are dropped, cloned and disabled.
use super::desk::{Act, plays};

// What a test does at a new desk, and what is to come of it.
const CASES: &[(&str, &[Act<'static>])] = &[
    (
        "a_ping_that_is_dropped_takes_its_source_out_without_a_call",
        &[
            Act::Ping(1),
            Act::Drop(0),
            Act::Says(Some(100), &[]),
            Act::IsGone(0),
            Act::Asked(&[Some(0)]),
        ],
    ),
    (
        "a_source_is_called_for_each_of_its_pings_and_leaves_with_the_last",
        &[
            Act::Ping(1),
            Act::Clone(0),
            Act::Clone(1),
            Act::Ring(0),
            Act::Drop(0),
            Act::Says(Some(0), &[1]),
            Act::Ring(1),
            Act::Says(Some(0), &[1]),
            Act::Drop(1),
            Act::Drop(2),
            Act::Says(Some(0), &[]),
            Act::IsGone(0),
        ],
    ),
    (
        "a_ping_that_is_rung_before_it_is_disabled_is_called_once_enabled",
        &[
            Act::Ping(1),
            Act::Ring(0),
            Act::Says(Some(0), &[1]),
            Act::Ring(0),
            Act::Disable(0),
            Act::Says(Some(100), &[]),
            Act::Enable(0),
            Act::Says(Some(100), &[1]),
            Act::Asked(&[Some(0), Some(100), Some(0)]),
        ],
    ),
    (
        "of_a_hundred_pings_those_that_are_rung_are_called_by_slot",
        &[
            Act::Pings(100),
            Act::Ring(90),
            Act::Ring(5),
            Act::Ring(40),
            Act::Says(Some(0), &[5, 40, 90]),
            Act::Says(Some(0), &[]),
        ],
    ),
];

#[test]
fn each_case_of_pings_goes_as_it_is_to(rt: HostRuntime) {
    for (name, acts) in CASES {
        assert_eq!(rt; plays(&rt, rt.alloc(), acts), None, "{name}");
    }
}
