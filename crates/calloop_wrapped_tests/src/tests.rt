use bench::{Bench, Call, Shape, differs};
use calloop::{
    EventSource, Instant, Poll, PostAction, RegistrationToken, TimeoutAction, TokenFactory,
};
use calloop_script::ScriptPoller;
use calloop_test_sources::batch::Batch;
use calloop_test_sources::noting::{Asked, Notebook};
use calloop_test_sources::numbered::Ending;
use desk::Act;
use held::{
    CLOSED, boxed_ping, boxed_timer, closed_channel, deadlines_that_are_set, forwarded_ping,
    laws_of_wrapped_pings, nested_ping, numbered_ping, ping_and_timer, plain_ping, quiet_pings,
    three_pings, wrapped_ping,
};
use pair::Row;
use std::alloc::Global;
use std::sync::Wait;
use std::test::Fail;

mod bench;
mod desk;
mod held;
mod memory;
mod pair;

type Rows<'a> = [(Shape, &'a [(u32, Asked)], Shape); 10];

#[test]
fn a_registration_goes_by_the_table(rt: HostRuntime) {
    const ROWS: Rows<'static> = [
        (
            Shape::Kept(true),
            &[(1, Asked::Register)],
            Shape::Kept(true),
        ),
        (
            Shape::Kept(false),
            &[(1, Asked::Register)],
            Shape::Kept(true),
        ),
        (Shape::Coming, &[(1, Asked::Register)], Shape::Kept(true)),
        (
            Shape::Resting(true),
            &[(1, Asked::Register)],
            Shape::Kept(true),
        ),
        (
            Shape::Resting(false),
            &[(1, Asked::Register)],
            Shape::Kept(true),
        ),
        (
            Shape::Leaving(true),
            &[(1, Asked::Unregister)],
            Shape::Empty,
        ),
        (Shape::Leaving(false), &[], Shape::Empty),
        (
            Shape::GivingWay(true),
            &[(1, Asked::Unregister), (2, Asked::Register)],
            Shape::Kept(true),
        ),
        (
            Shape::GivingWay(false),
            &[(2, Asked::Register)],
            Shape::Kept(true),
        ),
        (Shape::Empty, &[], Shape::Empty),
    ];
    assert_eq!(rt; differs(&rt, rt.alloc(), Call::Register, &ROWS), None);
}

#[test]
fn a_registration_anew_goes_by_the_table(rt: HostRuntime) {
    const ROWS: Rows<'static> = [
        (
            Shape::Kept(true),
            &[(1, Asked::Reregister)],
            Shape::Kept(true),
        ),
        (
            Shape::Kept(false),
            &[(1, Asked::Reregister)],
            Shape::Kept(true),
        ),
        (Shape::Coming, &[(1, Asked::Register)], Shape::Kept(true)),
        (
            Shape::Resting(true),
            &[(1, Asked::Unregister)],
            Shape::Resting(false),
        ),
        (Shape::Resting(false), &[], Shape::Resting(false)),
        (
            Shape::Leaving(true),
            &[(1, Asked::Unregister)],
            Shape::Empty,
        ),
        (Shape::Leaving(false), &[], Shape::Empty),
        (
            Shape::GivingWay(true),
            &[(1, Asked::Unregister), (2, Asked::Register)],
            Shape::Kept(true),
        ),
        (
            Shape::GivingWay(false),
            &[(2, Asked::Register)],
            Shape::Kept(true),
        ),
        (Shape::Empty, &[], Shape::Empty),
    ];
    assert_eq!(rt; differs(&rt, rt.alloc(), Call::Reregister, &ROWS), None);
}

#[test]
fn an_unregistration_goes_by_the_table(rt: HostRuntime) {
    const ROWS: Rows<'static> = [
        (
            Shape::Kept(true),
            &[(1, Asked::Unregister)],
            Shape::Kept(false),
        ),
        (Shape::Kept(false), &[], Shape::Kept(false)),
        (Shape::Coming, &[], Shape::Coming),
        (
            Shape::Resting(true),
            &[(1, Asked::Unregister)],
            Shape::Resting(false),
        ),
        (Shape::Resting(false), &[], Shape::Resting(false)),
        (
            Shape::Leaving(true),
            &[(1, Asked::Unregister)],
            Shape::Empty,
        ),
        (Shape::Leaving(false), &[], Shape::Empty),
        (
            Shape::GivingWay(true),
            &[(1, Asked::Unregister)],
            Shape::Coming,
        ),
        (Shape::GivingWay(false), &[], Shape::Coming),
        (Shape::Empty, &[], Shape::Empty),
    ];
    assert_eq!(rt; differs(&rt, rt.alloc(), Call::Unregister, &ROWS), None);
}

#[test]
fn a_removal_goes_by_the_table(rt: HostRuntime) {
    const ROWS: Rows<'static> = [
        (Shape::Kept(true), &[], Shape::Leaving(true)),
        (Shape::Kept(false), &[], Shape::Leaving(false)),
        (Shape::Coming, &[], Shape::Leaving(false)),
        (Shape::Resting(true), &[], Shape::Leaving(true)),
        (Shape::Resting(false), &[], Shape::Leaving(false)),
        (Shape::Leaving(true), &[], Shape::Leaving(true)),
        (Shape::Leaving(false), &[], Shape::Leaving(false)),
        (Shape::GivingWay(true), &[], Shape::Leaving(true)),
        (Shape::GivingWay(false), &[], Shape::Leaving(false)),
        (Shape::Empty, &[], Shape::Empty),
    ];
    assert_eq!(rt; differs(&rt, rt.alloc(), Call::Remove, &ROWS), None);
}

#[test]
fn a_replacement_goes_by_the_table(rt: HostRuntime) {
    const ROWS: [(Shape, &[(u32, Asked)], Shape); 9] = [
        (Shape::Kept(true), &[], Shape::GivingWay(true)),
        (Shape::Kept(false), &[], Shape::GivingWay(false)),
        (Shape::Coming, &[], Shape::GivingWay(false)),
        (Shape::Resting(true), &[], Shape::GivingWay(true)),
        (Shape::Resting(false), &[], Shape::GivingWay(false)),
        (Shape::Leaving(true), &[], Shape::GivingWay(true)),
        (Shape::Leaving(false), &[], Shape::GivingWay(false)),
        (Shape::GivingWay(true), &[], Shape::GivingWay(true)),
        (Shape::GivingWay(false), &[], Shape::GivingWay(false)),
    ];
    let call = Call::Replace(2, None);
    assert_eq!(rt; differs(&rt, rt.alloc(), call, &ROWS), None);
    const HANDED_BACK: [(Shape, &[(u32, Asked)], Shape); 1] = [(Shape::Empty, &[], Shape::Empty)];
    let call = Call::Replace(2, Some(2));
    assert_eq!(rt; differs(&rt, rt.alloc(), call, &HANDED_BACK), None);
}

#[test]
fn a_map_reaches_the_source_that_stays_or_comes(rt: HostRuntime) {
    for shape in bench::SHAPES {
        let wanted = match shape {
            Shape::Leaving(_) | Shape::Empty => None,
            Shape::GivingWay(_) => Some(2),
            _ => Some(1),
        };
        let rows: [(Shape, &[(u32, Asked)], Shape); 1] = [(shape, &[], shape)];
        assert_eq!(rt; differs(&rt, rt.alloc(), Call::Map(wanted), &rows), None);
    }
}

#[test]
fn a_turn_of_a_kept_source_goes_by_the_table(rt: HostRuntime) {
    const TABLE: [(PostAction, PostAction, Shape); 4] = [
        (
            PostAction::Continue,
            PostAction::Continue,
            Shape::Kept(true),
        ),
        (
            PostAction::Reregister,
            PostAction::Reregister,
            Shape::Kept(true),
        ),
        (
            PostAction::Disable,
            PostAction::Reregister,
            Shape::Resting(true),
        ),
        (
            PostAction::Remove,
            PostAction::Reregister,
            Shape::Leaving(true),
        ),
    ];
    for (end, answer, after) in TABLE {
        let rows: [(Shape, &[(u32, Asked)], Shape); 1] = [(
            Shape::Kept(true),
            &[(1, Asked::Turn)],
            after,
        )];
        let call = Call::Turn(end, answer);
        assert_eq!(rt; differs(&rt, rt.alloc(), call, &rows), None);
    }
}

#[test]
fn no_other_source_has_a_turn(rt: HostRuntime) {
    for shape in bench::SHAPES {
        if let Shape::Kept(_) = shape {
            continue;
        }
        let rows: [(Shape, &[(u32, Asked)], Shape); 1] = [(shape, &[], shape)];
        let call = Call::Turn(PostAction::Remove, PostAction::Continue);
        assert_eq!(rt; differs(&rt, rt.alloc(), call, &rows), None);
    }
}

#[test]
fn what_is_refused_stands_as_far_as_it_came(rt: HostRuntime) {
    const TABLE: [(Shape, (u32, Asked), Call, Shape); 8] = [
        (
            Shape::Kept(true),
            (1, Asked::Register),
            Call::Register,
            Shape::Kept(true),
        ),
        (
            Shape::Kept(false),
            (1, Asked::Reregister),
            Call::Reregister,
            Shape::Kept(false),
        ),
        (
            Shape::Coming,
            (1, Asked::Register),
            Call::Reregister,
            Shape::Coming,
        ),
        (
            Shape::Resting(true),
            (1, Asked::Unregister),
            Call::Reregister,
            Shape::Resting(true),
        ),
        (
            Shape::Leaving(true),
            (1, Asked::Unregister),
            Call::Unregister,
            Shape::Leaving(true),
        ),
        (
            Shape::GivingWay(true),
            (1, Asked::Unregister),
            Call::Reregister,
            Shape::GivingWay(true),
        ),
        (
            Shape::GivingWay(true),
            (2, Asked::Register),
            Call::Reregister,
            Shape::GivingWay(false),
        ),
        (
            Shape::GivingWay(false),
            (2, Asked::Register),
            Call::Register,
            Shape::GivingWay(false),
        ),
    ];
    for (before, (number, asked), call, after) in TABLE {
        let refused = shape_after_refusal(&rt, rt.alloc(), before, (number, asked), call);
        assert_eq!(rt; refused, Some(after));
    }
}

// The state after a call that a source refuses. `None` if it succeeds.
fn shape_after_refusal<R: Wait + Clone + Drop>(
    rt: &R,
    alloc: Global,
    before: Shape,
    refused: (u32, Asked),
    call: Call,
) -> Option<Shape> {
    let mut bench = Bench::new(rt, alloc, before)?;
    bench.refuses(refused);
    match bench.asks(call) {
        Some(()) => None,
        None => bench.shape(),
    }
}

#[test]
fn the_last_replacement_counts(rt: HostRuntime) {
    assert_eq!(rt; replaced_twice(&rt, rt.alloc()), Some(Shape::Kept(true)));
}

// The state after two replacements and a registration anew, if what is asked then is as it has to be.
fn replaced_twice<R: Wait + Clone + Drop>(rt: &R, alloc: Global) -> Option<Shape> {
    let mut bench = Bench::new(rt, alloc, Shape::Kept(true))?;
    bench.asks(Call::Replace(2, None))?;
    bench.asks(Call::Replace(3, None))?;
    if bench.sources() != 2 {
        return None;
    }
    bench.asks(Call::Reregister)?;
    let asked = bench.was_asked(&[(1, Asked::Unregister), (3, Asked::Register)]);
    if !asked || bench.sources() != 1 {
        return None;
    }
    bench.shape()
}

const AS_A_PING: [Act<'_>; 13] = [
    Act::Ring,
    Act::Says(0, &[1]),
    Act::Update,
    Act::Ring,
    Act::Says(0, &[1]),
    Act::Says(0, &[]),
    Act::Disable,
    Act::Ring,
    Act::Says(0, &[]),
    Act::Enable,
    Act::Says(0, &[1]),
    Act::Drop,
    Act::Says(0, &[]),
];

#[test]
fn a_boxed_ping_is_as_a_ping(rt: HostRuntime) {
    assert_eq!(rt; plain_ping(&rt, rt.alloc(), &AS_A_PING), Some(13));
    assert_eq!(rt; boxed_ping(&rt, rt.alloc(), &AS_A_PING), Some(13));
}

#[test]
fn a_ping_that_is_lent_is_as_a_ping(rt: HostRuntime) {
    assert_eq!(rt; forwarded_ping(&rt, rt.alloc(), &AS_A_PING), Some(13));
}

#[test]
fn sources_within_each_other_are_as_a_ping(rt: HostRuntime) {
    assert_eq!(rt; nested_ping(&rt, rt.alloc(), &AS_A_PING), Some(13));
}

#[test]
fn a_wrapped_ping_that_is_closed_is_gone_and_its_wrapper_stays(rt: HostRuntime) {
    assert_eq!(rt; wrapped_ping(&rt, rt.alloc(), &AS_A_PING), Some((13, true)));
    const ACTS: &[Act<'static>] = &[
        Act::Ring,
        Act::Drop,
        Act::Says(0, &[1]),
        Act::Says(0, &[]),
        Act::Names(true),
    ];
    assert_eq!(rt; wrapped_ping(&rt, rt.alloc(), ACTS), Some((5, true)));
}

#[test]
fn a_source_that_disables_itself_rests_until_it_is_enabled(rt: HostRuntime) {
    const ACTS: &[Act<'static>] = &[
        Act::Ring,
        Act::Says(0, &[1]),
        Act::Ring,
        Act::Says(0, &[]),
        Act::Enable,
        Act::Ring,
        Act::Says(0, &[3]),
    ];
    let played = numbered_ping(&rt, rt.alloc(), Ending::Disable, ACTS);
    assert_eq!(rt; played, Some((7, Some(4))));
}

#[test]
fn a_source_that_removes_itself_is_gone(rt: HostRuntime) {
    const ACTS: &[Act<'static>] = &[
        Act::Ring,
        Act::Says(0, &[1]),
        Act::Ring,
        Act::Says(0, &[2]),
        Act::Ring,
        Act::Says(0, &[3]),
        Act::Ring,
        Act::Says(0, &[]),
    ];
    let played = numbered_ping(&rt, rt.alloc(), Ending::RemoveAbove(2), ACTS);
    assert_eq!(rt; played, Some((8, None)));
}

#[test]
fn a_wrapped_channel_hands_all_out_in_one_dispatch(rt: HostRuntime) {
    const ACTS: &[Act<'static>] = &[
        Act::Says(0, &[0, 1, 2, 3, CLOSED]),
        Act::Says(0, &[]),
        Act::Names(true),
    ];
    let played = closed_channel(&rt, rt.alloc(), &[0, 1, 2, 3], ACTS);
    assert_eq!(rt; played, Some((3, true)));
}

#[test]
fn three_pings_are_one_source(rt: HostRuntime) {
    const ACTS: &[Act<'static>] = &[
        Act::Ring,
        Act::Says(0, &[1, 2, 3]),
        Act::Update,
        Act::Ring,
        Act::Says(0, &[1, 2, 3]),
        Act::Disable,
        Act::Ring,
        Act::Says(0, &[]),
        Act::Enable,
        Act::Says(0, &[1, 2, 3]),
        Act::Drop,
        Act::Says(0, &[]),
        Act::Names(true),
    ];
    assert_eq!(rt; three_pings(&rt, rt.alloc(), ACTS), Some(13));
}

#[test]
fn a_ping_and_a_timer_are_one_source(rt: HostRuntime) {
    const ACTS: &[Act<'static>] = &[
        Act::Ring,
        Act::Says(5, &[1]),
        Act::Update,
        Act::Says(20, &[5]),
        Act::Ring,
        Act::Says(5, &[1]),
        Act::Drop,
        Act::Says(20, &[]),
        Act::Names(true),
    ];
    let leaves = ping_and_timer(&rt, rt.alloc(), TimeoutAction::Drop, ACTS);
    assert_eq!(rt; leaves, Some(9));
    let later = TimeoutAction::ToInstant(Instant { nanos: 30_000_000 });
    const AGAIN: &[Act<'static>] = &[
        Act::Says(10, &[5]),
        Act::Ring,
        Act::Says(10, &[1]),
        Act::Disable,
        Act::Says(10, &[]),
        Act::Enable,
        Act::Says(10, &[5]),
    ];
    assert_eq!(rt; ping_and_timer(&rt, rt.alloc(), later, AGAIN), Some(7));
}

#[test]
fn a_boxed_timer_stands_beside_two_pings_as_one(rt: HostRuntime) {
    const ACTS: &[Act<'static>] = &[Act::Says(5, &[]), Act::Says(5, &[5]), Act::Names(false)];
    assert_eq!(rt; boxed_timer(&rt, rt.alloc(), ACTS), Some(3));
}

#[test]
fn both_parts_are_asked_in_order_up_to_the_first_error(rt: HostRuntime) {
    let rows = [
        row(
            Asked::Register,
            Some((1, Asked::Register)),
            &[(1, Asked::Register)],
            false,
        ),
        row(
            Asked::Register,
            None,
            &[(1, Asked::Register), (2, Asked::Register)],
            true,
        ),
        row(
            Asked::Reregister,
            None,
            &[
                (1, Asked::Unregister),
                (2, Asked::Unregister),
                (1, Asked::Register),
                (2, Asked::Register),
            ],
            true,
        ),
        row(
            Asked::Turn,
            None,
            &[(1, Asked::Turn), (2, Asked::Turn)],
            true,
        ),
        row(
            Asked::Turn,
            Some((1, Asked::Turn)),
            &[(1, Asked::Turn)],
            false,
        ),
        row(
            Asked::Unregister,
            Some((2, Asked::Unregister)),
            &[(1, Asked::Unregister), (2, Asked::Unregister)],
            false,
        ),
        row(Asked::Unregister, None, &[(2, Asked::Unregister)], true),
    ];
    assert_eq!(rt; pair::plays(&rt, rt.alloc(), &rows), Some(7));
}

fn row(
    call: Asked,
    refused: Option<(u32, Asked)>,
    asked: &[(u32, Asked)],
    succeeds: bool,
) -> Row<'_> {
    Row {
        call,
        refused,
        ends: PostAction::Continue,
        asked,
        answer: succeeds.then_some(PostAction::Continue),
    }
}

#[test]
fn a_source_whose_parts_both_leave_is_registered_anew(rt: HostRuntime) {
    let turn = [(1, Asked::Turn), (2, Asked::Turn)];
    let rows = [
        row(
            Asked::Register,
            None,
            &[(1, Asked::Register), (2, Asked::Register)],
            true,
        ),
        Row {
            ends: PostAction::Remove,
            answer: Some(PostAction::Reregister),
            ..row(Asked::Turn, None, &turn, true)
        },
        row(Asked::Turn, None, &[], true),
        row(
            Asked::Reregister,
            None,
            &[(1, Asked::Unregister), (2, Asked::Unregister)],
            true,
        ),
    ];
    assert_eq!(rt; pair::plays(&rt, rt.alloc(), &rows), Some(4));
}

#[test]
fn wrapped_pings_keep_the_laws(rt: HostRuntime) {
    laws_of_wrapped_pings(&rt);
    assert_eq!(rt; quiet_pings(&rt, rt.alloc()), Some(true));
}

#[test]
fn a_deadline_is_set_through_a_box_and_a_loan_and_a_ping_has_none(rt: HostRuntime) {
    let set = Some(Instant::from_millis(7));
    let deadlines = deadlines_that_are_set(&rt, rt.alloc());
    assert_eq!(rt; deadlines, Some(([true, true, false], [set, set])));
}

#[test]
fn a_batch_goes_in_its_order_up_to_the_first_error(rt: HostRuntime) {
    for asked in [Asked::Register, Asked::Reregister, Asked::Unregister] {
        let all = [(1, asked), (2, asked), (3, asked)];
        let none = run_batch(&rt, rt.alloc(), asked, None, &all);
        assert_eq!(rt; none, Some(true));
        let two = [(1, asked), (2, asked)];
        let second = run_batch(&rt, rt.alloc(), asked, Some((2, asked)), &two);
        assert_eq!(rt; second, Some(false));
    }
}

// True if a batch of three of which this is refused answers `Ok`, and just this was asked.
fn run_batch<R: Wait + Clone + Drop>(
    rt: &R,
    alloc: Global,
    call: Asked,
    refused: Option<(u32, Asked)>,
    wanted: &[(u32, Asked)],
) -> Option<bool> {
    let poller = ScriptPoller::new(alloc).ok()?;
    let clock = poller.clock().ok()?;
    let mut poll = Poll::new(rt.clone().ok()?, alloc, poller, clock).ok()?;
    let mut factory = TokenFactory::new(RegistrationToken::new(0, 0));
    let notebook = Notebook::new(alloc).ok()?;
    let mut batch = Batch::new(&notebook).ok()?;
    notebook.refuses(refused);
    let answer = match call {
        Asked::Register => batch.register(&mut poll, &mut factory),
        Asked::Reregister => batch.reregister(&mut poll, &mut factory),
        _ => batch.unregister(&mut poll),
    };
    notebook.was_asked(wanted).then_some(answer.is_ok())
}
