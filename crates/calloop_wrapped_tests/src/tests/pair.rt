//! Two noting sources as one, without a loop.
use super::bench::Silent;
use calloop::{
    Both, Dispatch, Dispatcher, Error, Movable, Poll, PostAction, Readiness, RegistrationToken,
    TokenFactory,
};
use calloop_script::{ScriptClock, ScriptPoller};
use calloop_test_sources::noting::{Asked, Notebook, Noting};
use std::alloc::Global;
use std::sync::Wait;

type Scripted<R> = Poll<ScriptPoller, ScriptClock, R>;

/// What a source of sources 1 and 2 is asked, and what is asked of these and answered.
#[derive(Clone, Copy)]
pub struct Row<'a> {
    pub call: Asked,
    /// What is refused, if anything.
    pub refused: Option<(u32, Asked)>,
    /// How turns of the parts end.
    pub ends: PostAction,
    pub asked: &'a [(u32, Asked)],
    /// The answer of a turn, and `Continue` if another call succeeds.
    pub answer: Option<PostAction>,
}

/// How many calls are as the rows have them, one after the other.
pub fn plays<R>(rt: &R, alloc: Global, rows: &[Row<'_>]) -> Option<usize>
where
    R: Wait + Clone + Drop,
{
    let poller = ScriptPoller::new(alloc).ok()?;
    let clock = poller.clock().ok()?;
    let mut poll = Poll::new(rt.clone().ok()?, alloc, poller, clock).ok()?;
    let notebook = Notebook::new(alloc).ok()?;
    let mut both = Both {
        first: part(&notebook, 1)?,
        second: part(&notebook, 2)?,
    };
    for (place, row) in rows.iter().enumerate() {
        notebook.refuses(row.refused);
        notebook.ends(row.ends);
        let answer = answer(&mut both, &mut poll, row.call);
        if answer != row.answer || !notebook.was_asked(row.asked) {
            return Some(place);
        }
    }
    Some(rows.len())
}

fn part(notebook: &Notebook, number: u32) -> Option<Dispatcher<Movable<Noting>, Silent>> {
    let source = Movable::from(notebook.source(number).ok()?);
    Some(Dispatcher::new(source, Silent))
}

// The answer to this call. `None` if that fails.
fn answer<D, R>(both: &mut D, poll: &mut Scripted<R>, call: Asked) -> Option<PostAction>
where
    D: Dispatch<ScriptPoller, ScriptClock, R, (), ()>,
    R: Wait + Drop,
{
    let mut factory = TokenFactory::new(RegistrationToken::new(0, 0));
    let mut failure = Error::OutOfMemory;
    let answer = match call {
        Asked::Register => both.register(poll, &mut factory, &mut failure),
        Asked::Reregister => both.reregister(poll, &mut factory, &mut failure),
        Asked::Unregister => both.unregister(poll, &mut failure),
        Asked::Turn => {
            let token = factory.token().ok()?;
            return both
                .process_events(
                    Readiness::EMPTY,
                    token,
                    poll,
                    &mut (),
                    &mut (),
                    &mut failure,
                )
                .ok();
        }
    };
    answer.ok()?;
    Some(PostAction::Continue)
}
