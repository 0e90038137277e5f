//! Callbacks that ask the loop for nothing, and the choices of sources with such callbacks.
use crate::sources::{Asking, Callback, Dispatch, Dispatcher, EventSource, OneOf};
use calloop_poll::sys::Poller;
use std::sync::Wait;

/// A callback that neither asks the loop for anything nor looks at what its source lends beside the event. This makes it a
/// `Callback`, with nothing to prove. `E` is the event, `X` the data that a dispatch lends, and `T` the result for the source.
pub trait On<E, X, T> {
    /// Called with an event.
    fn on(&mut self, event: E, data: &mut X) -> T;
}

/// A callback that asks the loop for nothing, and gets what its source lends beside the event, as a `Generic` its socket. This
/// makes it a `Callback`, with nothing to prove. Each `On` is one. `E` is the event, `M` the metadata, `X` the data that a
/// dispatch lends, and `T` the result for the source.
pub trait OnWith<E, M, X, T> {
    /// What the metadata may be after a call. A callback without a relation of its own may do anything to it.
    ghost changes: { M → M → Type 0 } = { λ _ _. Unit {0} };

    /// Called with an event.
    fn on_with(&mut self, event: E, metadata: &mut M, data: &mut X) -> T
        ensures { changes metadata.old metadata.new };
}

impl<E, M: Drop, T, X, F: On<E, X, T>> OnWith<E, M, X, T> for F {
    ghost use Rattle.std.specs.Prelude.{◌≡◌};

    ghost changes = { λ m n. n ≡ m };

    fn on_with(&mut self, event: E, _metadata: &mut M, data: &mut X) -> T {
        self.on(event, data)
    }
}

impl<E, M: Drop, T, X, Q: Asking, F: OnWith<E, M, X, T>> Callback<E, M, T, X, Q> for F {
    ghost use Rattle.std.specs.Prelude.{◌≡◌};

    ghost may = { λ f e m x q t g n y r. F.changes m n × (r ≡ q) };

    fn call(&mut self, event: E, metadata: &mut M, data: &mut X, _requests: &mut Q) -> T {
        self.on_with(event, metadata, data)
    }
}

/// A callback whose relation says that it asks the loop for nothing. Each `On` is one.
pub trait QuietCallback<E, M, T, X, Q: Asking>: Callback<E, M, T, X, Q> {
    ghost use Rattle.calloop_sources.specs.sources.Quiet.{IsQuietCall};

    ghost quiet: { IsQuietCall Self.may };
}

impl<E, M: Drop, T, X, Q: Asking, F: OnWith<E, M, X, T>> QuietCallback<E, M, T, X, Q> for F {
    ghost quiet = { λ f g e m n x y q r t h. h.1 };
}

/// A choice of sources whose callbacks ask the loop for nothing, so that no turn of the choice does.
pub trait QuietDispatch<P: Poller, C, R: Wait + Drop, X, Q: Asking>: Dispatch<P, C, R, X, Q> {
    ghost use Rattle.calloop_sources.specs.sources.Quiet.{IsQuiet};

    ghost quiet: { IsQuiet Self.means };
}

impl<P: Poller, C, R: Wait + Drop, X, Q: Asking, S, F> QuietDispatch<P, C, R, X, Q>
    for Dispatcher<S, F>
where
    S: EventSource<P, C, R>,
    F: QuietCallback<S::Event, S::Metadata, S::Ret, X, Q>,
{
    ghost use Rattle.calloop_sources.specs.sources.Quiet.{quiet_dispatcher};

    ghost quiet = { quiet_dispatcher S.means ⟦<F as Callback<S::Event, S::Metadata, S::Ret, X, Q>>⟧.may Q.reaches S.Error.becomes F.quiet };
}

impl<P: Poller, C, R: Wait + Drop, X, Q: Asking, A, B> QuietDispatch<P, C, R, X, Q> for OneOf<A, B>
where
    A: QuietDispatch<P, C, R, X, Q>,
    B: QuietDispatch<P, C, R, X, Q>,
{
    ghost use Rattle.calloop_sources.specs.sources.Quiet.{quiet_one_of};

    ghost quiet = { quiet_one_of ⟦<A as Dispatch<P, C, R, X, Q>>⟧.means ⟦<B as Dispatch<P, C, R, X, Q>>⟧.means A.quiet B.quiet };
}
