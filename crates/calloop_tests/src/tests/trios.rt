//! A source that is made of a ping and two timers.
use super::desk::{Act, plays};

// What a test does at a new desk, and what is to come of it.
const CASES: &[(&str, &[Act<'static>])] = &[
    (
        "each_part_of_a_source_is_called_for_its_own_event",
        &[
            Act::Trio,
            Act::Ring(0),
            Act::Says(None, &[1]),
            Act::Says(None, &[3]),
            Act::Says(None, &[2]),
            Act::Says(Some(100), &[]),
            Act::Asked(&[Some(0), Some(10), Some(10), Some(100)]),
        ],
    ),
    (
        "the_parts_of_a_source_are_called_in_the_order_of_a_batch",
        &[
            Act::Trio,
            Act::Ring(0),
            Act::Script(50, &[]),
            Act::Says(None, &[1, 3, 2]),
            Act::Update(0),
            Act::Ring(0),
            Act::Says(None, &[1, 3, 2]),
            Act::Remove(0),
            Act::LetGo,
            Act::Ring(0),
            Act::Says(Some(100), &[]),
            Act::Asked(&[Some(0), Some(0), Some(100)]),
        ],
    ),
];

#[test]
fn each_case_of_trios_goes_as_it_is_to(rt: HostRuntime) {
    for (name, acts) in CASES {
        assert_eq!(rt; plays(&rt, rt.alloc(), acts), None, "{name}");
    }
}
