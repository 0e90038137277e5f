//! Three sources that are registered one after another by the batch macros.
use crate::noting::{Notebook, Noting};
use crate::source::Broken;
use calloop::{
    Asking, Callback, EventIterator, EventSource, Poll, Poller, PostAction, Readiness, Result,
    Synthetic, Token, TokenFactory,
};
use calloop_sources::{batch_register, batch_reregister, batch_unregister};
use std::alloc::AllocError;
use std::sync::Wait;

/// Three sources that note their calls. Its own turns do nothing.
#[derive(Drop)]
pub struct Batch {
    first: Noting,
    second: Noting,
    third: Noting,
}

impl Batch {
    /// Makes one of sources 1, 2 and 3.
    pub fn new(notebook: &Notebook) -> std::result::Result<Batch, AllocError> {
        Ok(Batch {
            first: notebook.source(1)?,
            second: notebook.source(2)?,
            third: notebook.source(3)?,
        })
    }
}

impl<P: Poller, C, R: Wait + Drop> EventSource<P, C, R> for Batch {
    ghost use Rattle.calloop_sources.specs.sources.Meanings.{still};
    ghost use Rattle.calloop_sources.specs.sources.Lawful.{keeping_still};
    ghost use Rattle.calloop_test_sources.specs.Sources.{Anything};

    type Event = u32;

    type Metadata = ();

    type Ret = ();

    type Error = Broken;

    ghost means = { still Anything };

    fn process_events<F, X, Q>(
        &mut self,
        _readiness: Readiness,
        _token: Token,
        _poll: &mut Poll<P, C, R>,
        _callback: &mut F,
        _data: &mut X,
        _requests: &mut Q,
    ) -> std::result::Result<PostAction, Broken>
    where
        Q: Asking,
        F: Callback<u32, (), (), X, Q>,
    {
        Ok(PostAction::Continue)
    }

    fn register(&mut self, poll: &mut Poll<P, C, R>, factory: &mut TokenFactory) -> Result<()> {
        batch_register!(poll, factory, self.first, self.second, self.third)
    }

    fn reregister(&mut self, poll: &mut Poll<P, C, R>, factory: &mut TokenFactory) -> Result<()> {
        batch_reregister!(poll, factory, self.first, self.second, self.third)
    }

    fn unregister(&mut self, poll: &mut Poll<P, C, R>) -> Result<()> {
        batch_unregister!(poll, self.first, self.second, self.third)
    }

    fn needs_extra_lifecycle_events() -> bool {
        false
    }

    fn max_synthetic() -> u16 {
        0
    }

    fn before_sleep(&mut self, _out: &mut Synthetic) -> Result<()> {
        Ok(())
    }

    fn before_handle_events(&mut self, _events: EventIterator<'_>) {}

    ghost keeps = { keeping_still Anything };
}
