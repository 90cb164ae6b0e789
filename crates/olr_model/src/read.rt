//! The read interface of a map, independent of how the map is stored.
ghost use Rattle.std.specs.Prelude.{◌≡◌, ◌↔◌, ℕ, Some, IsTrue, SomeIff};
ghost use Rattle.std.specs.Option.{option_copied};
ghost use Rattle.std.specs.FinMap.{get};
ghost use Rattle.olr_spec.specs.Map.{Map, IsMap, has_node, lines_in, lines_out};
ghost use Rattle.olr_model.specs.Ends.{ends_in, ends_out, AreLinesAt, HaveSlotsApart};

use crate::ids::{LineId, NodeId};
use crate::line::Line;
use olr_coords::Coord;

/// A line as seen from one of its ends.
#[derive(Clone, Copy, Default, PartialEq, Eq)]
pub struct LineEnd {
    /// The slot of the node at the line's other end, see `MapRead::slot_of` and `node_at`.
    pub slot: u32,
    /// The line's length, in decimetres.
    pub len: u32,
}

/// The lines that leave a node, or those that enter it: their numbers in ascending order, and beside each the line as
/// seen from the node.
#[derive(Clone, Copy)]
pub struct NodeLines<'a> {
    /// The numbers.
    pub lines: &'a [LineId],
    /// The other end of each line, in the same order.
    pub ends: &'a [LineEnd],
}

/// A map that can be read. No call allocates.
pub trait MapRead {
    /// The nodes and the lines.
    ghost map: { Self → Map };

    /// The slot of each node of the map.
    ghost node_slot: { Self → ℕ → ℕ };

    /// The number of slots, free ones included.
    ghost count: { Self → ℕ };

    /// The coordinate of a node. None if the node is not on the map.
    fn node(&self, id: NodeId) -> Option<Coord>
        ensures { result ≡ get (map self.now).nodes id };

    /// The record of a line. None if the line is not on the map.
    fn line(&self, id: LineId) -> Option<&Line>
        ensures { option_copied result ≡ get (map self.now).lines id };

    /// The numbers of the lines that leave a node, in ascending order. Empty for an absent node.
    fn out_lines(&self, id: NodeId) -> &[LineId]
        ensures { result.now ≡ lines_out (map self.now) id };

    /// The numbers of the lines that enter a node, in ascending order. Empty for an absent node.
    fn in_lines(&self, id: NodeId) -> &[LineId]
        ensures { result.now ≡ lines_in (map self.now) id };

    /// The number of slots. Each node's slot is less than it.
    fn slot_count(&self) -> usize
        ensures { result ≡ count self.now };

    /// The node's slot in the map, from 0, by which a table beside the map can be indexed. An edit may change it. None
    /// if the node is not on the map.
    fn slot_of(&self, id: NodeId) -> Option<u32>
        ensures { SomeIff result (IsTrue (has_node (map self.now) id)) (node_slot self.now id) };

    /// The node in this slot. None if the slot is free, or if there is no such slot.
    fn node_at(&self, slot: u32) -> Option<NodeId>
        ensures { (v : ℕ) → (result ≡ Some v)
            ↔ (IsTrue (has_node (map self.now) v) × (node_slot self.now v ≡ slot)) };

    /// The lines that leave the node in this slot, those of `out_lines`, with their far ends.
    fn out_lines_at(&self, slot: u32) -> NodeLines<'_>
        requires { (v : ℕ) × IsTrue (has_node (map self.now) v) × (node_slot self.now v ≡ slot) }
        ensures { AreLinesAt (map self.now) (node_slot self.now) slot lines_out ends_out result.lines.now result.ends.now };

    /// The lines that enter the node in this slot, those of `in_lines`, with their far ends.
    fn in_lines_at(&self, slot: u32) -> NodeLines<'_>
        requires { (v : ℕ) × IsTrue (has_node (map self.now) v) × (node_slot self.now v ≡ slot) }
        ensures { AreLinesAt (map self.now) (node_slot self.now) slot lines_in ends_in result.lines.now result.ends.now };

    /// Every line is good, both its nodes are on the map, and every coordinate is in range.
    ghost sound: { (m : Self) → IsMap (map m) };

    /// No two nodes share a slot, and each slot is below the count, which is at most 2^32.
    ghost placed: { (m : Self) → HaveSlotsApart (map m) (node_slot m) (count m) };
}
