//! Sets of nodes.
ghost use Rattle.std.specs.Prelude.{◌≡◌, ◌↔◌, ◌⊎◌, ℕ, List, Contains, IsTrue, IfOk, OnOk, OnErr, [], ◌≤◌, length, true};
ghost use Rattle.std.specs.List.Sorted.{IsStrictlyIncreasing};
ghost use Rattle.std.specs.Ordering.{nat_cmp};
ghost use Rattle.std.specs.Set.{sorted_merge};

use crate::ids::NodeId;
use std::alloc::{AllocError, Global};
use std::marker::Model;

/// A set of node numbers, stored and returned in ascending order.
#[derive(Drop)]
pub struct Footprint {
    nodes: Vec<NodeId>,
}

impl Model for Footprint {
    ghost Value = { List ℕ };

    ghost view = { λ a. a.nodes.items };

    ghost invariant = { λ a. IsStrictlyIncreasing a.nodes.items };
}

impl Footprint {
    /// The empty set. Does not allocate.
    pub fn new(alloc: Global) -> Footprint
        ensures { result ≡ [] }
    {
        Footprint {
            nodes: Vec::new(alloc),
        }
    }

    /// The nodes in ascending order.
    pub fn as_slice(&self) -> &[NodeId]
        ensures same { result.now ≡ self.now }
        ensures ascending { IsStrictlyIncreasing self.now }
    {
        self.nodes.as_slice()
    }

    /// Whether a node is in the set, by binary search.
    pub fn has(&self, node: NodeId) -> bool
        ensures { IsTrue result ↔ (Contains self.now node) }
    {
        self.nodes.binary_search(&node).is_ok()
    }

    /// Adds one node. If an allocation fails, the set is unchanged.
    pub fn note(&mut self, node: NodeId) -> Result<(), AllocError>
        ensures ok { OnOk result
            ((n : ℕ) → (Contains self.new n) ↔ ((Contains self.old n) ⊎ (n ≡ node))) }
        ensures err { OnErr result (self.new ≡ self.old) }
    {
        if let Err(place) = self.nodes.binary_search(&node) {
            self.nodes.insert(place, node)?;
        }
        Ok(())
    }

    /// Adds all these nodes by one merge into capacity that is allocated at once. If that fails, the set is unchanged.
    pub fn note_all(&mut self, ascending: &[NodeId]) -> Result<(), AllocError>
        requires ascending { IsStrictlyIncreasing ascending.now }
        ensures ok { OnOk result
            ((n : ℕ) → (Contains self.new n) ↔ ((Contains self.old n) ⊎ (Contains ascending.now n))) }
        ensures grows { OnOk result (length self.old ≤ length self.new) }
        ensures err { OnErr result (self.new ≡ self.old) }
    {
        let alloc = *self.nodes.allocator();
        self.nodes = merge(alloc, &self.nodes, ascending)?;
        Ok(())
    }
}

/// The numbers of both lists, in ascending order without duplicates.
fn merge(alloc: Global, left: &[NodeId], right: &[NodeId]) -> Result<Vec<NodeId>, AllocError>
    ensures { IfOk result (λ v. v.items ≡ sorted_merge nat_cmp true left.now right.now) }
{
    let mut both = Vec::with_capacity(alloc, left.len() + right.len())?;
    let mut i = 0;
    let mut j = 0;
    while i < left.len() && j < right.len() {
        let (next_left, next_right) = (left[i], right[j]);
        both.push_reserved(next_left.min(next_right));
        i += usize::from(next_left <= next_right);
        j += usize::from(next_right <= next_left);
    }
    both.extend_from_slice(&left[i..])?;
    both.extend_from_slice(&right[j..])?;
    Ok(both)
}
