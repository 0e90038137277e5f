//! A wrapper of a noting source, without a loop, and what a test asks of it.
use calloop::transient::TransientSource;
use calloop::{EventSource, On, Poll, PostAction, Readiness, RegistrationToken, TokenFactory};
use calloop_script::{ScriptClock, ScriptPoller};
use calloop_test_sources::noting::{Asked, Notebook, Noting};
use std::alloc::Global;
use std::sync::Wait;

/// A state of a wrapper, and whether its source is registered, or the one that is to give way.
#[derive(Clone, Copy, Debug, PartialEq, Eq)]
pub enum Shape {
    Kept(bool),
    Coming,
    Resting(bool),
    Leaving(bool),
    GivingWay(bool),
    Empty,
}

/// Each state.
pub const SHAPES: [Shape; 10] = [
    Shape::Kept(true),
    Shape::Kept(false),
    Shape::Coming,
    Shape::Resting(true),
    Shape::Resting(false),
    Shape::Leaving(true),
    Shape::Leaving(false),
    Shape::GivingWay(true),
    Shape::GivingWay(false),
    Shape::Empty,
];

/// What a wrapper is asked, and what it answers: a turn by its source's end and its own; a replacement by the number of the new
/// source and of the one that is handed back; a map by the number of the source that it reaches.
#[derive(Clone, Copy)]
pub enum Call {
    Register,
    Reregister,
    Unregister,
    Turn(PostAction, PostAction),
    Remove,
    Replace(u32, Option<u32>),
    Map(Option<u32>),
}

/// A wrapper whose source is number 1; one that is to come in its place is number 2.
#[derive(Drop)]
pub struct Bench<R: Wait + Drop> {
    poll: Poll<ScriptPoller, ScriptClock, R>,
    wrapped: TransientSource<Noting>,
    notebook: Notebook,
}

/// Says nothing.
#[derive(Drop)]
pub struct Silent;

impl On<u32, (), ()> for Silent {
    fn on(&mut self, _number: u32, _data: &mut ()) {}
}

impl<R: Wait + Clone + Drop> Bench<R> {
    /// In this state, with nothing noted.
    pub fn new(rt: &R, alloc: Global, shape: Shape) -> Option<Bench<R>> {
        let poller = ScriptPoller::new(alloc).ok()?;
        let clock = poller.clock().ok()?;
        let notebook = Notebook::new(alloc).ok()?;
        let wrapped = TransientSource::from(notebook.source(1).ok()?);
        let mut bench = Bench {
            poll: Poll::new(rt.clone().ok()?, alloc, poller, clock).ok()?,
            wrapped,
            notebook,
        };
        bench.brings(shape)?;
        let _known = bench.notebook.was_asked(&[]);
        Some(bench)
    }

    fn brings(&mut self, shape: Shape) -> Option<()> {
        match shape {
            Shape::Kept(registered) => self.register(registered),
            Shape::Coming => Some(()),
            Shape::Resting(registered) => {
                self.register(true)?;
                self.asks(Call::Turn(PostAction::Disable, PostAction::Reregister))?;
                self.leave(registered)
            }
            Shape::Leaving(registered) => {
                self.register(registered)?;
                self.asks(Call::Remove)
            }
            Shape::GivingWay(registered) => {
                self.register(registered)?;
                self.asks(Call::Replace(2, None))
            }
            Shape::Empty => {
                self.wrapped = TransientSource::default();
                Some(())
            }
        }
    }

    // It is registered, and then, maybe, unregistered.
    fn register(&mut self, stays: bool) -> Option<()> {
        self.asks(Call::Register)?;
        self.leave(stays)
    }

    fn leave(&mut self, stays: bool) -> Option<()> {
        if stays {
            return Some(());
        }
        self.asks(Call::Unregister)
    }

    /// Makes a call, which succeeds and answers so.
    pub fn asks(&mut self, call: Call) -> Option<()> {
        let mut factory = TokenFactory::new(RegistrationToken::new(0, 0));
        let answers = match call {
            Call::Register => self.wrapped.register(&mut self.poll, &mut factory).is_ok(),
            Call::Reregister => self
                .wrapped
                .reregister(&mut self.poll, &mut factory)
                .is_ok(),
            Call::Unregister => self.wrapped.unregister(&mut self.poll).is_ok(),
            Call::Turn(end, wanted) => self.turn(end) == Some(wanted),
            Call::Remove => {
                self.wrapped.remove();
                true
            }
            Call::Replace(number, wanted) => {
                let new = self.notebook.source(number).ok()?;
                self.wrapped.replace(new).map(|back| back.number) == wanted
            }
            Call::Map(wanted) => self.wrapped.map(|source| source.number) == wanted,
        };
        answers.then_some(())
    }

    // Its turn if its source ends so. `None` if it fails.
    fn turn(&mut self, end: PostAction) -> Option<PostAction> {
        self.notebook.ends(end);
        let mut factory = TokenFactory::new(RegistrationToken::new(0, 0));
        let token = factory.token().ok()?;
        let turn = self.wrapped.process_events(
            Readiness::EMPTY,
            token,
            &mut self.poll,
            &mut Silent,
            &mut (),
            &mut (),
        );
        turn.ok()
    }

    /// Whether this was asked of its sources, in this order, since this was called last.
    pub fn was_asked(&mut self, wanted: &[(u32, Asked)]) -> bool {
        self.notebook.was_asked(wanted)
    }

    /// From now on this is refused.
    pub fn refuses(&mut self, refused: (u32, Asked)) {
        self.notebook.refuses(Some(refused));
    }

    /// How many sources there are within.
    pub fn sources(&self) -> usize {
        self.notebook.sources()
    }

    /// Its state, of which it shows by what it asks of its sources.
    pub fn shape(mut self) -> Option<Shape> {
        self.notebook.refuses(None);
        if self.wrapped.is_none() {
            return Some(Shape::Empty);
        }
        let sources = self.sources();
        let mapped = self.wrapped.map(|source| source.number);
        let _known = self.notebook.was_asked(&[]);
        let _turn = self.turn(PostAction::Continue);
        if !self.notebook.was_asked(&[]) {
            return self.kept_shape();
        }
        self.asks(Call::Reregister)?;
        match (mapped, self.notebook.first(), sources) {
            (Some(_), Some(Asked::Register), 1) => Some(Shape::Coming),
            (Some(_), Some(Asked::Unregister), 1) => Some(Shape::Resting(true)),
            (Some(_), None, 1) => Some(Shape::Resting(false)),
            (None, Some(Asked::Unregister), 1) => Some(Shape::Leaving(true)),
            (None, None, 1) => Some(Shape::Leaving(false)),
            (Some(2), Some(Asked::Unregister), 2) => Some(Shape::GivingWay(true)),
            (Some(2), Some(Asked::Register), 2) => Some(Shape::GivingWay(false)),
            _ => None,
        }
    }

    // The state of one that stays: it is unregistered if it is registered.
    fn kept_shape(mut self) -> Option<Shape> {
        self.asks(Call::Unregister)?;
        match (self.notebook.first(), self.sources()) {
            (Some(Asked::Unregister), 1) => Some(Shape::Kept(true)),
            (None, 1) => Some(Shape::Kept(false)),
            _ => None,
        }
    }
}

/// The first state from which the call isn't as the table has it: what is asked of the sources, and the state after it.
pub fn differs<R: Wait + Clone + Drop>(
    rt: &R,
    alloc: Global,
    call: Call,
    rows: &[(Shape, &[(u32, Asked)], Shape)],
) -> Option<Shape> {
    for (before, asked, after) in rows.iter() {
        if is_as(rt, alloc, *before, call, *asked, *after) != Some(true) {
            return Some(*before);
        }
    }
    None
}

fn is_as<R: Wait + Clone + Drop>(
    rt: &R,
    alloc: Global,
    before: Shape,
    call: Call,
    asked: &[(u32, Asked)],
    after: Shape,
) -> Option<bool> {
    let mut bench = Bench::new(rt, alloc, before)?;
    bench.asks(call)?;
    let same = bench.was_asked(asked);
    Some(same && bench.shape() == Some(after))
}
