//! Idle callbacks: run once, when nothing else is left to do.
ghost use Rattle.std.specs.Prelude.{◌≡◌};

use crate::sources::Asking;

/// Called once, with the data that a dispatch lends. `Q` takes its requests. calloop takes a closure.
pub trait IdleCallback<X, Q: Asking> {
    /// The callback, the data and the requests before the call, and the latter two after it. A callback without a relation of its
    /// own may do anything.
    ghost runs: { Self → X → Q → X → Q → Type 0 } = { λ _ _ _ _ _. Unit {0} };

    /// Runs the callback, which is spent.
    fn run(self, data: &mut X, requests: &mut Q)
        ensures runs { runs self «data».old requests.old «data».new requests.new }
        ensures asks { Q.reaches requests.old requests.new };
}

/// An idle callback whose relation says that it asks the loop for nothing.
pub trait QuietIdle<X, Q: Asking>: IdleCallback<X, Q> {
    ghost use Rattle.calloop_sources.specs.sources.Quiet.{IsQuietRun};

    ghost quiet: { IsQuietRun Self.runs };
}

impl<X, Q: Asking> QuietIdle<X, Q> for () {
    ghost quiet = { λ i x y q r h. h.1 };
}

/// Does nothing: for a loop without idle callbacks.
impl<X, Q: Asking> IdleCallback<X, Q> for () {
    ghost use Rattle.std.specs.Prelude.{◌≡◌};

    ghost runs = { λ _ x q y r. (y ≡ x) × (r ≡ q) };

    fn run(self, _data: &mut X, _requests: &mut Q) {}
}
