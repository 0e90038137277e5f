//! Callbacks, and the requests that they make.
/// A callback's requests to the loop. A callback can add requests, and never take one back (`reaches`).
pub trait Asking {
    /// What the requests can become when further ones are added.
    ghost reaches: { Self → Self → Type 0 };

    ghost stays: { (q : Self) → reaches q q };

    ghost goes_on: { (q r s : Self) → reaches q r → reaches r s → reaches q s };
}

/// No requests.
impl Asking for () {
    ghost reaches = { λ q r. Unit {0} };

    ghost stays = { λ q. tt };

    ghost goes_on = { λ q r s h k. tt };
}

/// Called with the events of a source, as calloop's closures are: a value of a named type, whose clauses say what a call
/// may do. `E` is the event, `M` the metadata, `T` the result for the source, `X` the data that a dispatch lends, and `Q`
/// takes the requests. A callback that asks the loop for nothing is simpler as an `On`.
pub trait Callback<E, M, T, X, Q: Asking> {
    /// The callback, the event, the metadata, the data and the requests before a call, its result, and all but the event
    /// after it. A callback without a relation of its own may do anything.
    ghost may: { Self → E → M → X → Q → T → Self → M → X → Q → Type 0 } = { λ _ _ _ _ _ _ _ _ _ _. Unit {0} };

    fn call(&mut self, event: E, metadata: &mut M, data: &mut X, requests: &mut Q) -> T
        ensures may { may self.old event metadata.old «data».old requests.old result
            self.new metadata.new «data».new requests.new }
        ensures asks { Q.reaches requests.old requests.new };
}
