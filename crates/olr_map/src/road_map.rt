//! The road map: nodes and lines are found by hash.
ghost use Rattle.std.specs.Prelude.{◌≡◌};
ghost use Rattle.olr_map.specs.NumberTables.{all_held};
ghost use Rattle.olr_map.specs.Columns.{node_slots};
ghost use Rattle.olr_map.specs.Tables.{AreTables, AreTables-prop};

use crate::number_table::NumberTable;
use crate::slot_index::SlotIndex;
use crate::slots::{NodeSlots, Side};
use crate::undo::{Undo, UndoLog};
use olr_coords::Coord;
use olr_model::{Line, LineId, MapRead, NodeId, NodeLines};
use std::alloc::Global;

/// A road map. The time of a read or an edit depends neither on the order of node and line numbers nor on gaps in them.
/// It has the slots of the nodes by number, the nodes' entries by slot, and the lines by number.
pub struct RoadMap {
    pub(crate) index: SlotIndex,
    pub(crate) nodes: NodeSlots,
    pub(crate) lines: NumberTable<Line>,
    pub ghost kept: { AreTables index (node_slots nodes) (all_held lines) } by { AreTables-prop index (node_slots nodes) (all_held lines) },
}

// Written out: a derived drop is proved again in each crate that ends a map.
impl Drop for RoadMap {
    fn drop(self) {
        let RoadMap {
            index,
            nodes,
            lines,
        } = self;
        drop(index);
        drop(nodes);
        drop(lines);
    }
}

impl MapRead for RoadMap {
    ghost use Rattle.std.specs.Prelude.{length};
    ghost use Rattle.olr_map.specs.RoadMaps.{map_of, slot_of};
    ghost use Rattle.olr_map.specs.Columns.{node_slots};

    ghost map = { map_of };

    ghost node_slot = { slot_of };

    ghost count = { λ m. length (node_slots m.nodes) };

    #[tactic(auto, using(crate::proofs::Reading::slot_filled, crate::proofs::Reading::slot_is, crate::proofs::Reading::entry_at, crate::proofs::Reading::node_read))]
    fn node(&self, id: NodeId) -> Option<Coord> {
        let slot = self.slot_of(id)?;
        Some(self.nodes.place(slot))
    }

    #[tactic(auto, using(crate::proofs::Reading::got_line))]
    fn line(&self, id: LineId) -> Option<&Line> {
        self.lines.get(id.number())
    }

    fn out_lines(&self, id: NodeId) -> &[LineId] {
        self.side_lines(Side::Out, id)
    }

    fn in_lines(&self, id: NodeId) -> &[LineId] {
        self.side_lines(Side::In, id)
    }

    #[tactic(auto, using(crate::proofs::ColumnLemmas::slot_count))]
    fn slot_count(&self) -> usize {
        self.nodes.ids.entries.len()
    }

    #[tactic(auto, using(crate::proofs::Reading::place_found))]
    fn slot_of(&self, id: NodeId) -> Option<u32> {
        self.index.get(id.number())
    }

    #[tactic(auto, using(crate::proofs::Reading::id_has, crate::proofs::Reading::has_id))]
    fn node_at(&self, slot: u32) -> Option<NodeId> {
        self.nodes.id_at(slot)
    }

    fn out_lines_at(&self, slot: u32) -> NodeLines<'_> {
        self.side_at(Side::Out, slot)
    }

    fn in_lines_at(&self, slot: u32) -> NodeLines<'_> {
        self.side_at(Side::In, slot)
    }

    ghost sound = { λ m. m.kept.sound };

    ghost placed = { λ m. m.kept.placed };
}

impl RoadMap {
    ghost use Rattle.std.specs.Prelude.{ℕ, map, IsTrue};
    ghost use Rattle.olr_spec.specs.Map.{empty_map, has_node};
    ghost use Rattle.olr_map.specs.RoadMaps.{map_of, slot_of};
    ghost use Rattle.olr_map.specs.Tables.{lines_at, end_at};

    /// A map without nodes and lines. Does not allocate.
    pub fn new(alloc: Global) -> RoadMap
        ensures { map_of result ≡ empty_map }
    {
        RoadMap {
            index: SlotIndex::new(alloc),
            nodes: NodeSlots::new(alloc),
            lines: NumberTable::new(alloc),
        }
    }

    /// The lines on one side of the node in a slot, with their far ends.
    #[tactic(auto, using(crate::proofs::Reading::slot_filled, crate::proofs::Reading::slot_lines))]
    fn side_at(&self, side: Side, slot: u32) -> NodeLines<'_>
        requires { (v : ℕ) × IsTrue (has_node (map_of self.now) v) × (slot_of self.now v ≡ slot) }
        ensures lines { (v : ℕ) → IsTrue (has_node (map_of self.now) v) → slot_of self.now v ≡ slot
            → result.lines.now ≡ lines_at side (map_of self.now) v }
        ensures ends { (v : ℕ) → IsTrue (has_node (map_of self.now) v) → slot_of self.now v ≡ slot
            → result.ends.now ≡ map (end_at side (map_of self.now) (slot_of self.now)) (lines_at side (map_of self.now) v) }
    {
        self.nodes.links(side, slot).as_slices()
    }

    /// The numbers of the lines on one side of a node. Empty for an absent node.
    #[tactic(auto, using(crate::proofs::Reading::no_lines))]
    fn side_lines(&self, side: Side, id: NodeId) -> &[LineId]
        ensures { result.now ≡ lines_at side (map_of self.now) id }
    {
        match self.slot_of(id) {
            Some(slot) => self.side_at(side, slot).lines,
            None => &[],
        }
    }

    /// Makes an edit permanent, and frees what it removed. Does not allocate.
    pub fn keep(&mut self, undo: Undo)
        ensures { self.new ≡ self.old }
    {
        let Undo { change } = undo;
        drop(change);
    }
}
