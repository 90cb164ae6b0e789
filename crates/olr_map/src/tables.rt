//! The numbers of a road map, and the changes of its tables.
ghost use Rattle.std.specs.Prelude.{◌≡◌, ◌+◌, IfOk};

use crate::change::TableChange;
use crate::links::{EmptyLinks, Links};
use crate::road_map::RoadMap;
use crate::slots::{NodeEntry, Side};
use olr_coords::Coord;
use olr_model::{Line, LineEnd, LineId, MapRead, NodeId};
use std::alloc::{AllocError, Global};

/// The nodes of a map in their slots, in two columns of the same length.
#[derive(Clone, Copy)]
pub struct NodePlaces<'a> {
    /// The number of each node. None in a free slot.
    pub ids: &'a [Option<NodeId>],
    /// Beside it the node's coordinate.
    pub places: &'a [Coord],
}

impl RoadMap {
    ghost use Rattle.std.specs.Prelude.{◌<◌, ◌≤◌, ℕ, length, OnOk, IsTrue, Some, flat_map, ◌↔◌};
    ghost use Rattle.olr_map.specs.RoadMaps.{map_of, slot_of};
    ghost use Rattle.std.specs.Prelude.{map as list_map, slice_get};
    ghost use Rattle.std.specs.FinMap.{entries, get};
    ghost use Rattle.olr_spec.specs.Coordinates.{Coord as Place};
    ghost use Rattle.olr_spec.specs.Map.{has_node, has_line, start, end, lines_out};
    ghost use Rattle.olr_map.specs.SlotIndexes.{slot_by, spare_of};
    ghost use Rattle.olr_map.specs.NumberTables.{spare_numbers};
    ghost use Rattle.olr_map.specs.Tables.{lines_at};
    ghost use Rattle.olr_map.specs.Changes.{tables_map, room_of, room_at, node_puts, line_puts, IsReserved};
    ghost use Rattle.olr_map.specs.Changes.{HasNumbers, CanMake, IsChangeMade};
    ghost use Rattle.olr_map.specs.declared.change.TableChange.TheVariants.{PutNode, MoveNode, TakeNode};
    ghost use Rattle.olr_map.specs.declared.change.TableChange.TheVariants.{PutLine, SetLine, TakeLine};

    /// The numbers of the nodes, in ascending order. An error means that an allocation failed.
    pub fn node_ids(&self, alloc: Global) -> Result<Vec<NodeId>, AllocError>
        ensures { IfOk result (λ ids. ids.items ≡ list_map (λ e. e.0) (entries (map_of self.now).nodes)) }
    {
        let mut ids = self.nodes.ids(alloc)?;
        ids.sort_unstable();
        Ok(ids)
    }

    /// The nodes in their slots, with their coordinates.
    pub fn node_places(&self) -> NodePlaces<'_>
        ensures beside { length result.ids.now ≡ length result.places.now }
        ensures nodes { (v : ℕ) (c : Place) → (get (map_of self.now).nodes v ≡ Some c)
            ↔ ((k : ℕ) × (slice_get result.ids.now k ≡ Some (Some v)) × (slice_get result.places.now k ≡ Some c)) }
    {
        let ids = self.nodes.ids.entries.as_slice();
        let places = self.nodes.places.as_slice();
        NodePlaces { ids, places }
    }

    /// The numbers of the lines, in ascending order. An error means that an allocation failed.
    pub fn line_ids(&self, alloc: Global) -> Result<Vec<LineId>, AllocError>
        ensures { IfOk result (λ ids. ids.items ≡ list_map (λ e. e.0) (entries (map_of self.now).lines)) }
    {
        let nodes = self.nodes.ids(alloc)?;
        let mut ids = self.lines_from(alloc, &nodes)?;
        ids.sort_unstable();
        Ok(ids)
    }

    /// The numbers of the lines that leave these nodes, node by node.
    fn lines_from(&self, alloc: Global, nodes: &[NodeId]) -> Result<Vec<LineId>, AllocError>
        ensures { IfOk result (λ ids. ids.items ≡ flat_map (lines_out (tables_map self.now)) nodes.now) }
    {
        let mut ids = Vec::with_capacity(alloc, self.lines.len())?;
        for node in nodes {
            ids.extend_from_slice(self.out_lines(*node))?;
        }
        Ok(ids)
    }

    /// The slot of a node of the map.
    #[tactic(auto, using(crate::proofs::Reading::slot_is))]
    pub(crate) fn slot(&self, id: NodeId) -> u32
        requires { IsTrue (has_node (tables_map self.now) id) }
        ensures { slot_by self.now.index id ≡ Some result }
    {
        self.slot_of(id).unwrap()
    }

    /// The slots where a line of the map begins and ends.
    #[tactic(auto, using(crate::proofs::LineRecords::line_starts, crate::proofs::LineRecords::line_ends, crate::proofs::Reading::line_read, crate::proofs::LineRecords::record_of))]
    pub(crate) fn end_slots(&self, id: LineId) -> (u32, u32)
        requires { IsTrue (has_line (tables_map self.now) id) }
        ensures from { slot_by self.now.index (start (tables_map self.now) id) ≡ Some result.0 }
        ensures to { slot_by self.now.index (end (tables_map self.now) id) ≡ Some result.1 }
    {
        let line = self.lines.get(id.number()).unwrap();
        (self.slot(line.from), self.slot(line.to))
    }

    /// Reserves capacity for one more node number, in addition to `owed` numbers that undo records may put back.
    pub(crate) fn reserve_nodes(&mut self, owed: usize) -> Result<(), AllocError>
        ensures same { IsReserved self.old self.new }
        ensures room { OnOk result (owed + 1 ≤ spare_of self.new.index) }
    {
        let count = owed.checked_add(1).ok_or(AllocError)?;
        self.index.reserve(count)
    }

    /// Reserves capacity for one more line, in addition to `owed` lines that undo records may put back.
    pub(crate) fn reserve_lines(&mut self, owed: usize) -> Result<(), AllocError>
        ensures same { IsReserved self.old self.new }
        ensures room { OnOk result (owed + 1 ≤ spare_numbers self.new.lines) }
    {
        let count = owed.checked_add(1).ok_or(AllocError)?;
        self.lines.reserve(count)
    }

    /// Reserves capacity for one more node's entry.
    pub(crate) fn reserve_slot(&mut self) -> Result<(), AllocError>
        ensures same { IsReserved self.old self.new }
        ensures room { OnOk result (0 < (room_of self.new).nodes) }
    {
        self.nodes.reserve(1)
    }

    /// Reserves capacity for one more line on one side of the node in a slot.
    #[tactic(auto, using(crate::proofs::Reading::filled_in))]
    pub(crate) fn reserve_link(&mut self, side: Side, slot: u32) -> Result<(), AllocError>
        requires { (v : ℕ) × (slot_by self.old.index v ≡ Some slot) }
        ensures same { IsReserved self.old self.new }
        ensures room { OnOk result ((v : ℕ) → slot_by self.old.index v ≡ Some slot
            → length (lines_at side (tables_map self.new) v) < room_at side self.new v) }
    {
        self.nodes.reserve_link(side, slot)
    }

    /// Inserts a node without lines, with the memory for its lines.
    pub(crate) fn put_node(&mut self, id: NodeId, place: Coord, outs: EmptyLinks, ins: EmptyLinks)
        requires can { CanMake (tables_map self.old) (room_of self.old) (PutNode id place outs ins) }
        requires numbers { HasNumbers self.old 1 0 }
        ensures { IsChangeMade self.old self.new (PutNode id place outs ins) (TakeNode id) }
    {
        let outs = Links::in_empty(outs);
        let ins = Links::in_empty(ins);
        let slot = self.nodes.put(id, place, outs, ins);
        self.index.put(id.number(), slot);
    }

    /// Removes a node, and returns the change that puts it back.
    #[tactic(auto, using(crate::proofs::Reading::filled_in))]
    pub(crate) fn take_node(&mut self, id: NodeId) -> TableChange
        requires { CanMake (tables_map self.old) (room_of self.old) (TakeNode id) }
        ensures made { IsChangeMade self.old self.new (TakeNode id) result }
        ensures nodes { node_puts result ≡ 1 }
        ensures lines { line_puts result ≡ 0 }
    {
        let slot = self.index.take(id.number());
        let entry = self.nodes.take(slot);
        let NodeEntry {
            id: _,
            place,
            outs,
            ins,
        } = entry;
        TableChange::PutNode(id, place, outs.into_empty(), ins.into_empty())
    }

    /// Moves the node in this slot to another coordinate, and returns the previous one.
    #[tactic(auto, using(crate::proofs::Reading::filled_in))]
    pub(crate) fn move_node(&mut self, id: NodeId, place: Coord, slot: u32) -> Coord
        requires can { CanMake (tables_map self.old) (room_of self.old) (MoveNode id place) }
        requires here { slot_by self.old.index id ≡ Some slot }
        ensures { IsChangeMade self.old self.new (MoveNode id place) (MoveNode id result) }
    {
        self.nodes.move_node(slot, place)
    }

    /// Inserts a line, and its number into the lists of its ends, which are in these slots.
    pub(crate) fn put_line(&mut self, id: LineId, line: Line, from: u32, to: u32)
        requires can { CanMake (tables_map self.old) (room_of self.old) (PutLine id line) }
        requires numbers { HasNumbers self.old 0 1 }
        requires begin { slot_by self.old.index line.from ≡ Some from }
        requires end { slot_by self.old.index line.to ≡ Some to }
        ensures { IsChangeMade self.old self.new (PutLine id line) (TakeLine id) }
    {
        self.nodes
            .put_end(Side::Out, from, id, Some(far_end(&line, to)));
        self.nodes
            .put_end(Side::In, to, id, Some(far_end(&line, from)));
        self.lines.put(id.number(), line);
    }

    /// Removes a line, and its number from the lists of its ends, which are in these slots.
    pub(crate) fn take_line(&mut self, id: LineId, from: u32, to: u32) -> Line
        requires can { CanMake (tables_map self.old) (room_of self.old) (TakeLine id) }
        requires begin { slot_by self.old.index (start (tables_map self.old) id) ≡ Some from }
        requires end { slot_by self.old.index (end (tables_map self.old) id) ≡ Some to }
        ensures { IsChangeMade self.old self.new (TakeLine id) (PutLine id result) }
    {
        self.nodes.put_end(Side::Out, from, id, None);
        self.nodes.put_end(Side::In, to, id, None);
        self.lines.take(id.number())
    }

    /// Replaces a line by another one with the same ends, which are in these slots, and returns the previous line.
    pub(crate) fn set_line(&mut self, id: LineId, line: Line, from: u32, to: u32) -> Line
        requires can { CanMake (tables_map self.old) (room_of self.old) (SetLine id line) }
        requires begin { slot_by self.old.index (start (tables_map self.old) id) ≡ Some from }
        requires end { slot_by self.old.index (end (tables_map self.old) id) ≡ Some to }
        ensures { IsChangeMade self.old self.new (SetLine id line) (SetLine id result) }
    {
        self.nodes
            .put_end(Side::Out, from, id, Some(far_end(&line, to)));
        self.nodes
            .put_end(Side::In, to, id, Some(far_end(&line, from)));
        self.lines.replace(id.number(), line)
    }
}

/// A line as seen from one of its ends, with the other one in this slot.
fn far_end(line: &Line, slot: u32) -> LineEnd
    ensures { result ≡ record { slot = slot; len = line.now.len } }
{
    LineEnd {
        slot,
        len: line.len,
    }
}
