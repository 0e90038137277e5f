//! A source that notes its calls, in order, beside others.
use crate::source::Broken;
use calloop::{
    Asking, Callback, Error, EventIterator, EventSource, Poll, Poller, PostAction, Readiness,
    Result, Synthetic, Token, TokenFactory,
};
use std::alloc::{AllocError, Global};
use std::cell::{Cell, RefCell};
use std::rc::Rc;
use std::sync::Wait;

/// The calls of a source.
#[derive(Clone, Copy, Debug, PartialEq, Eq)]
pub enum Asked {
    Register,
    Reregister,
    Unregister,
    Turn,
}

/// Which calls of which source were made, and what they return.
#[derive(Drop)]
struct Notes {
    asked: RefCell<Vec<(u32, Asked)>>,
    ends: Cell<PostAction>,
    refused: Cell<Option<(u32, Asked)>>,
}

/// The notes that some sources share with their test.
#[derive(Drop)]
pub struct Notebook {
    notes: Rc<Notes>,
}

/// A source that notes its calls. Its turns hand out its number.
#[derive(Drop)]
pub struct Noting {
    pub number: u32,
    notes: Rc<Notes>,
}

impl Notebook {
    /// Makes an empty notebook. Turns end with `Continue`, and no call fails.
    pub fn new(alloc: Global) -> std::result::Result<Notebook, AllocError> {
        let notes = Notes {
            asked: RefCell::new(Vec::new(alloc)),
            ends: Cell::new(PostAction::Continue),
            refused: Cell::new(None),
        };
        Ok(Notebook {
            notes: Rc::new(alloc, notes)?,
        })
    }

    /// Makes a source of this number.
    pub fn source(&self, number: u32) -> std::result::Result<Noting, AllocError> {
        Ok(Noting {
            number,
            notes: self.notes.clone()?,
        })
    }

    /// From now on turns end with this action.
    pub fn ends(&self, action: PostAction) {
        self.notes.ends.set(action);
    }

    /// From now on this call fails, if there is one here.
    pub fn refuses(&self, refused: Option<(u32, Asked)>) {
        self.notes.refused.set(refused);
    }

    /// True if these calls were made, in this order, since this was called last.
    pub fn was_asked(&self, wanted: &[(u32, Asked)]) -> bool {
        match self.notes.asked.try_borrow_mut() {
            Ok(mut asked) => {
                let same = asked.as_slice() == wanted;
                asked.clear();
                same
            }
            Err(_) => false,
        }
    }

    /// Returns the first call since `was_asked` was called last.
    pub fn first(&self) -> Option<Asked> {
        let asked = self.notes.asked.try_borrow().ok()?;
        let (_, first) = asked.first()?;
        Some(*first)
    }

    /// Returns how many sources note here.
    pub fn sources(&self) -> usize {
        Rc::strong_count(&self.notes).saturating_sub(1)
    }
}

impl Noting {
    // Notes the call. True if it is to fail.
    fn note(&self, asked: Asked) -> bool {
        if let Ok(mut list) = self.notes.asked.try_borrow_mut() {
            let _failed = list.push((self.number, asked));
        }
        self.notes.refused.get() == Some((self.number, asked))
    }

    fn answer(&self, asked: Asked) -> Result<()> {
        if self.note(asked) {
            return Err(Error::InvalidToken);
        }
        Ok(())
    }
}

impl<P: Poller, C, R: Wait + Drop> EventSource<P, C, R> for Noting {
    ghost use Rattle.calloop_sources.specs.sources.Meanings.{still};
    ghost use Rattle.calloop_sources.specs.sources.Lawful.{keeping_still};
    ghost use Rattle.calloop_test_sources.specs.Sources.{HandsOut};

    type Event = u32;

    type Metadata = ();

    type Ret = ();

    type Error = Broken;

    ghost means = { still HandsOut };

    fn process_events<F, X, Q>(
        &mut self,
        _readiness: Readiness,
        _token: Token,
        _poll: &mut Poll<P, C, R>,
        callback: &mut F,
        data: &mut X,
        requests: &mut Q,
    ) -> std::result::Result<PostAction, Broken>
    where
        Q: Asking,
        F: Callback<u32, (), (), X, Q>,
    {
        callback.call(self.number, &mut (), data, requests);
        if self.note(Asked::Turn) {
            return Err(Broken);
        }
        Ok(self.notes.ends.get())
    }

    fn register(&mut self, _poll: &mut Poll<P, C, R>, _factory: &mut TokenFactory) -> Result<()> {
        self.answer(Asked::Register)
    }

    fn reregister(&mut self, _poll: &mut Poll<P, C, R>, _factory: &mut TokenFactory) -> Result<()> {
        self.answer(Asked::Reregister)
    }

    fn unregister(&mut self, _poll: &mut Poll<P, C, R>) -> Result<()> {
        self.answer(Asked::Unregister)
    }

    fn needs_extra_lifecycle_events() -> bool {
        false
    }

    fn max_synthetic() -> u16 {
        0
    }

    fn before_sleep(&mut self, _out: &mut Synthetic) -> Result<()> {
        Ok(())
    }

    fn before_handle_events(&mut self, _events: EventIterator<'_>) {}

    ghost keeps = { keeping_still HandsOut };
}
