//! For which sources answers are kept, so that the turn of most others looks at none of them.
ghost use Rattle.std.specs.Prelude.{◌≡◌, ◌<◌, ◌≤◌, ◌&&◌, nat_le, nat_lt, IfSome};

use calloop_slots::token::RegistrationToken;

// Their slots are from `first` to before `end`.
#[derive(Clone, Copy)]
pub(super) struct Keepers {
    pub(super) first: u64,
    pub(super) end: u64,
}

impl Keepers {
    pub(super) fn none() -> Keepers {
        Keepers {
            first: u64::MAX,
            end: 0,
        }
    }

    // With this source too, if there is one.
    pub(super) fn with(self, keeper: Option<RegistrationToken>) -> Keepers
        ensures wider { (result.first ≤ self.first) × (self.end ≤ result.end) }
        ensures has { IfSome keeper (λ t. (result.first ≤ t.slot) × (t.slot < result.end)) }
    {
        let Some(token) = keeper else {
            return self;
        };
        let slot = u64::from(token.slot());
        Keepers {
            first: self.first.min(slot),
            end: self.end.max(slot + 1),
        }
    }

    // True if an answer may be kept for this source: if false, none is.
    pub(super) fn may_have(self, token: RegistrationToken) -> bool
        ensures { result ≡ (nat_le self.first token.slot && nat_lt token.slot self.end) }
    {
        let slot = u64::from(token.slot());
        self.first <= slot && slot < self.end
    }
}
