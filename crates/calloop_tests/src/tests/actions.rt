//! What becomes of a source that is made of two.
use calloop::PostAction;
use calloop::PostAction::{Continue, Disable, Remove, Reregister};
use calloop_sources::sources::joining_has_no_order;

#[test]
fn what_two_parts_ask_for_is_joined(rt: HostRuntime) {
    joining_has_no_order();
    for (one, wanted) in [
        (Continue, [Continue, Reregister, Reregister, Reregister]),
        (Reregister, [Reregister, Reregister, Reregister, Reregister]),
        (Disable, [Reregister, Reregister, Disable, Reregister]),
        (Remove, [Reregister, Reregister, Reregister, Remove]),
    ] {
        assert!(rt; joins(one, wanted));
    }
}

// Whether these come of the action with each action, in their order.
fn joins(one: PostAction, wanted: [PostAction; 4]) -> bool {
    [Continue, Reregister, Disable, Remove]
        .into_iter()
        .zip(wanted)
        .all(|(other, wanted)| {
            let mut joined = one;
            joined |= other;
            one | other == wanted && joined == wanted
        })
}
