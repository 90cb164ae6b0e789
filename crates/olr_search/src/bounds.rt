//! Which nodes a search may label: every node, or those that distance bounds let it.
ghost use Rattle.std.specs.Prelude.{ℕ, IsTrue, ⊤, ◌↔◌};
ghost use Rattle.olr_search.specs.Bounds.{IsUnder};

use crate::frontier::{Frontier, GREATEST_LIMIT};

/// What lets a search label a node at a length.
pub trait Admits {
    /// Whether it does, by the node's slot.
    ghost lets: { Self → ℕ → ℕ → Type 0 };

    /// Whether a search may label the node in this slot at a length in decimetres.
    fn admits(&self, slot: u32, length: u32) -> bool
        ensures { IsTrue result ↔ lets self.now slot length };
}

/// Every node may be labelled.
#[derive(Clone, Copy)]
pub struct Anywhere;

impl Admits for Anywhere {
    ghost lets = { λ _ _ _. ⊤ };

    fn admits(&self, _slot: u32, _length: u32) -> bool {
        true
    }
}

/// A bound by slot, in decimetres: a label. A node is labelled if the sum of its bound and the length is at most
/// `GREATEST_LIMIT`, and gets no label if it has no bound.
impl Admits for Frontier {
    ghost lets = { λ bounds slot d. IsUnder bounds slot d };

    fn admits(&self, slot: u32, length: u32) -> bool {
        let bound = self.label(slot);
        bound <= GREATEST_LIMIT && length <= GREATEST_LIMIT - bound
    }
}
