ghost use Rattle.std.specs.Prelude.{◌≡◌, ℕ, List, IfOk, Some, refl, nat_eq};
ghost use Rattle.std.specs.Ordering.{nat_cmp};
ghost use Rattle.std.specs.Cmp.{partial_equiv_from_equiv};
ghost use Rattle.std.specs.Cmp.Lexicographic.{pointwise, slice_cmp};
ghost use Rattle.std.specs.Cmp.Lexicographic.{nat_list_eq_equiv, nat_list_cmp_total, texts_po, texts_ties};

use std::alloc::{AllocError, Global};
use std::cmp::Ordering;
use std::marker::Model;

/// The name of a source: owned bytes, which are compared as bytes.
#[derive(Drop)]
pub struct SourceName {
    bytes: Vec<u8>,
}

impl Model for SourceName {
    ghost Value = { List ℕ };

    ghost view = { λ name. name.bytes.items };
}

impl SourceName {
    /// Copies these bytes. An `Err` says that memory ran out.
    pub fn new(alloc: Global, bytes: &[u8]) -> Result<SourceName, AllocError>
        ensures { IfOk result (λ name. name ≡ bytes.now) }
    {
        let mut copy = Vec::new(alloc);
        copy.extend_from_slice(bytes)?;
        Ok(SourceName { bytes: copy })
    }

    /// The bytes of the name.
    pub fn as_slice(&self) -> &[u8]
        ensures { result.now ≡ self.now }
    {
        self.bytes.as_slice()
    }
}

impl PartialEq for SourceName {
    ghost eq = { pointwise nat_eq };

    ghost laws = { partial_equiv_from_equiv nat_list_eq_equiv };

    fn eq(&self, other: &SourceName) -> bool {
        self.bytes == other.bytes
    }
}

impl Eq for SourceName {
    ghost laws = { nat_list_eq_equiv };
}

impl PartialOrd for SourceName {
    ghost partial_cmp = { λ a b. Some (slice_cmp nat_cmp a b) };

    ghost laws = { texts_po };

    fn partial_cmp(&self, other: &SourceName) -> Option<Ordering> {
        Some(self.cmp(other))
    }
}

impl Ord for SourceName {
    ghost cmp = { slice_cmp nat_cmp };

    ghost total = { nat_list_cmp_total };

    ghost matches_partial_cmp = { λ a b. refl };

    ghost matches_eq = { texts_ties };

    fn cmp(&self, other: &SourceName) -> Ordering {
        self.bytes.cmp(&other.bytes)
    }
}
