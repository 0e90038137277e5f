//! Timers that count from what the loop's clock shows.
use super::desk::{Act, plays};

// What a test does at a new desk, and what is to come of it.
const CASES: &[(&str, &[Act<'static>])] = &[
    (
        "a_timer_is_called_once_its_time_has_come",
        &[
            Act::AlarmIn(100),
            Act::Says(Some(0), &[]),
            Act::Says(Some(150), &[5]),
            Act::AlarmIn(100),
            Act::Says(Some(150), &[5]),
            Act::Asked(&[Some(0), Some(100), Some(100)]),
        ],
    ),
    (
        "a_timer_that_is_due_at_once_is_called_without_a_wait",
        &[
            Act::Says(Some(7), &[]),
            Act::AlarmNow,
            Act::Says(Some(0), &[5]),
            Act::Asked(&[Some(7), Some(0)]),
        ],
    ),
    (
        "a_timer_waits_for_parts_of_a_millisecond",
        &[
            Act::AlarmIn(100),
            Act::SaysInMicros(0, &[]),
            Act::SaysInMicros(10_200, &[]),
            Act::SaysInMicros(100_000, &[5]),
            Act::AskedMicros(&[0, 10_200, 89_800]),
        ],
    ),
    (
        "a_timer_that_is_removed_is_not_called",
        &[
            Act::AlarmIn(100),
            Act::Says(Some(0), &[]),
            Act::Remove(0),
            Act::LetGo,
            Act::Says(Some(150), &[]),
            Act::Asked(&[Some(0), Some(150)]),
        ],
    ),
    (
        "a_timer_past_the_last_moment_is_never_called",
        &[
            Act::AlarmIn(500),
            Act::AlarmNever,
            Act::Says(Some(250), &[]),
            Act::Says(Some(510), &[5]),
            Act::Says(Some(510), &[]),
            Act::Asked(&[Some(250), Some(250), Some(510)]),
        ],
    ),
];

#[test]
fn each_case_of_timers_goes_as_it_is_to(rt: HostRuntime) {
    for (name, acts) in CASES {
        assert_eq!(rt; plays(&rt, rt.alloc(), acts), None, "{name}");
    }
}
