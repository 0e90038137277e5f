//! Sources that are changed or exchanged within the loop, and warnings.
use super::at;
use super::desk::{Act, Call, plays};
use super::stage::{Table, time};
use calloop::{
    Choice, Dispatcher, EventDispatcher, Here, Instant, On, Sources, TimeoutAction, Timer,
};
use calloop_script::{ScriptClock, ScriptPoller};
use std::alloc::Global;
use std::io::ErrorKind;
use std::sync::Wait;

// What a test does at a new desk, and what is to come of it.
const CASES: &[(&str, &[Act<'static>])] = &[
    (
        "a_deadline_that_is_set_counts_from_the_next_update",
        &[
            Act::Alarm(100),
            Act::Alarm(400),
            Act::Postpone(0, 300),
            Act::Postpone(1, 600),
            Act::Update(1),
            Act::Says(Some(200), &[5]),
            Act::Says(Some(900), &[5]),
            Act::Asked(&[Some(100), Some(500)]),
        ],
    ),
    (
        "a_dead_token_lends_no_source",
        &[
            Act::Alarm(100),
            Act::Remove(0),
            Act::LetGo,
            Act::LendsNone(0),
        ],
    ),
    (
        "a_source_is_exchanged_for_the_one_before",
        &[
            Act::Counter(1, None),
            Act::Answers(
                &[Call::Exchange(0, 9), Call::Exchange(1, 9)],
                &[("exchanged", true), ("exchanged", false)],
            ),
            Act::Remove(0),
            Act::TookCounter(0, 1),
        ],
    ),
    (
        "a_source_that_fails_as_it_leaves_is_a_warning_until_the_next_dispatch",
        &[
            Act::Ping(7),
            Act::Disable(0),
            Act::Warns(&[]),
            Act::Remove(0),
            Act::TookPing(7),
            Act::LetGo,
            Act::Warns(&[ErrorKind::NotFound]),
            Act::Says(Some(0), &[]),
            Act::Warns(&[]),
        ],
    ),
];

#[test]
fn each_case_of_exchanges_goes_as_it_is_to(rt: HostRuntime) {
    for (name, acts) in CASES {
        assert_eq!(rt; plays(&rt, rt.alloc(), acts), None, "{name}");
    }
}

#[test]
fn a_deadline_that_is_set_without_an_update_is_not_handed_out(rt: HostRuntime) {
    let said = says_the_first::<Held, HostRuntime>(&rt, rt.alloc());
    assert_eq!(rt; said, Some(true));
}

// Says the deadline in milliseconds, and leaves.
#[derive(Drop)]
struct Herald;

impl On<Instant, Vec<u32>, TimeoutAction> for Herald {
    fn on(&mut self, deadline: Instant, said: &mut Vec<u32>) -> TimeoutAction {
        if let Ok(millis) = u32::try_from(deadline.nanos / 1_000_000) {
            let _failed = said.push(millis);
        }
        TimeoutAction::Drop
    }
}

type Held = Sources<Dispatcher<Timer, Herald>, Vec<u32>>;

// Whether a timer of 100 milliseconds whose deadline is set to 300, without an update, is called after 100, and told that.
fn says_the_first<D, R>(rt: &R, alloc: Global) -> Option<bool>
where
    D: EventDispatcher<ScriptPoller, ScriptClock, R, Data = Vec<u32>> + Postpones,
    D: Choice<Timer, Herald, Here>,
    R: Wait + Clone + Drop,
{
    let mut table: Table<D, R> = Table::new(rt, alloc)?;
    let held = D::hold(Dispatcher::new(Timer::from_deadline(at(100)), Herald));
    let token = table.event_loop.handle().register_dispatcher(held).ok()?;
    match table.event_loop.handle().dispatcher_mut(&token) {
        Ok(held) => held.postpones(),
        Err(_) => return None,
    }
    Some(table.says(time(Some(200)), &[100]) && table.was_asked(&[Some(100)]))
}

// A timer whose deadline is set to 300 milliseconds.
trait Postpones {
    fn postpones(&mut self);
}

impl Postpones for Held {
    fn postpones(&mut self) {
        self.held.as_source_mut().set_deadline(at(300));
    }
}
