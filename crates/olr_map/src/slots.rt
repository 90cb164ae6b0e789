//! The nodes in their slots, in columns: their numbers, their coordinates, the lines that leave them, and those that
//! enter them.
ghost use Rattle.std.specs.Prelude.{◌≡◌, ◌+◌, ◌<◌, ◌≤◌, ◌++◌, ◌∷◌, [], length, set, vec_len, cond, nat_lt, Some};
ghost use Rattle.std.specs.Prelude.{IsSome, IfOk, OnOk, map, option_map};
ghost use Rattle.olr_map.specs.Slotted.{present, at};
ghost use Rattle.std.specs.Vec.{vec_capacity};

use crate::links::Links;
use crate::slab::Slab;
use olr_coords::Coord;
use olr_model::{LineEnd, LineId, NodeId};
use std::alloc::{AllocError, Global};
use std::mem;

/// A node, with the lines that leave it and those that enter it.
#[derive(Drop)]
pub struct NodeEntry {
    pub outs: Links,
    pub ins: Links,
    pub id: NodeId,
    pub place: Coord,
}

/// Appends the number of the node in a slot, if it is not free.
fn push_id(ids: &mut Vec<NodeId>, slot: Option<NodeId>) -> Result<(), AllocError>
    ensures { OnOk result (ids.new.items ≡ ids.old.items ++ present (slot ∷ [])) }
{
    if let Some(id) = slot {
        ids.push(id)?;
    }
    Ok(())
}

/// Which of a node's lines: those that leave it, or those that enter it.
#[derive(Clone, Copy)]
pub enum Side {
    Out,
    In,
}

/// The nodes' numbers by slot, and in three further columns their coordinates, the lines that leave each node and those
/// that enter it, so that a search reads the lines of one side and nothing else.
#[derive(Drop)]
pub struct NodeSlots {
    pub ids: Slab<NodeId>,
    pub places: Vec<Coord>,
    pub outs: Vec<Links>,
    pub ins: Vec<Links>,
    pub ghost places_beside: { length places.items ≡ length ids.entries.items },
    pub ghost outs_beside: { length outs.items ≡ length ids.entries.items },
    pub ghost ins_beside: { length ins.items ≡ length ids.entries.items },
}

impl NodeSlots {
    ghost use Rattle.olr_map.specs.Slotted.{IsInserted, IsRemoved, IsReplaced};
    ghost use Rattle.olr_map.specs.Columns.{node_slots, node_room};
    ghost use Rattle.olr_map.specs.Slabs.{slots_of};
    ghost use Rattle.olr_map.specs.NodeLinks.{links_at, CanPutEnd, IsRelinked};
    ghost use Rattle.olr_map.specs.Linked.{lines_on, links_room, IsPut, IsRoomier};
    ghost use Rattle.olr_map.specs.declared.slots.NodeEntry.{NodeEntry as Entry};

    /// No slots. Does not allocate.
    pub fn new(alloc: Global) -> NodeSlots
        ensures { node_slots result ≡ [] }
    {
        NodeSlots {
            ids: Slab::new(alloc),
            places: Vec::new(alloc),
            outs: Vec::new(alloc),
            ins: Vec::new(alloc),
        }
    }

    /// The numbers of all nodes, in the order of their slots.
    pub fn ids(&self, alloc: Global) -> Result<Vec<NodeId>, AllocError>
        ensures { IfOk result (λ ids. ids.items ≡ present (slots_of self.now.ids)) }
    {
        let mut ids = Vec::with_capacity(alloc, self.ids.entries.len())?;
        for slot in &self.ids.entries {
            push_id(&mut ids, *slot)?;
        }
        Ok(ids)
    }

    /// The number of the node in a slot. None if the slot is free, or if there is no such slot.
    #[tactic(auto, using(crate::proofs::AllIds::id_of_row))]
    pub fn id_at(&self, slot: u32) -> Option<NodeId>
        ensures { result ≡ option_map (λ e. e.id) (at (node_slots self.now) slot) }
    {
        *self.ids.entries.get(slot as usize)?
    }

    /// The coordinate of the node in a slot.
    #[tactic(auto, using(crate::proofs::ColumnLemmas::inside_places, crate::proofs::ColumnLemmas::place_at))]
    pub fn place(&self, slot: u32) -> Coord
        requires { IsSome (at (node_slots self.now) slot) }
        ensures { (e : Entry) → at (node_slots self.now) slot ≡ Some e → result ≡ e.place }
    {
        self.places[slot as usize]
    }

    /// The lines on one side of the node in a slot.
    #[tactic(auto, using(crate::proofs::ColumnLemmas::inside_outs, crate::proofs::ColumnLemmas::inside_ins, crate::proofs::ColumnLemmas::outs_at, crate::proofs::ColumnLemmas::ins_at))]
    pub fn links(&self, side: Side, slot: u32) -> &Links
        requires { IsSome (at (node_slots self.now) slot) }
        ensures { (e : Entry) → at (node_slots self.now) slot ≡ Some e → result.now ≡ links_at side e }
    {
        match side {
            Side::Out => &self.outs[slot as usize],
            Side::In => &self.ins[slot as usize],
        }
    }

    /// Reserves capacity for `additional` more nodes.
    pub fn reserve(&mut self, additional: usize) -> Result<(), AllocError>
        ensures same { node_slots self.new ≡ node_slots self.old }
        ensures more { node_room self.old ≤ node_room self.new }
        ensures room { OnOk result (additional ≤ node_room self.new) }
    {
        let added = additional.saturating_sub(self.ids.free.len());
        self.places.reserve(added)?;
        self.outs.reserve(added)?;
        self.ins.reserve(added)?;
        self.ids.reserve(additional)
    }

    /// Stores a node in a free slot, and returns the slot.
    pub fn put(&mut self, id: NodeId, place: Coord, outs: Links, ins: Links) -> u32
        requires { 0 < node_room self.old }
        ensures inserts { IsInserted (node_slots self.old) (node_slots self.new) result
            (record { id = id; place = place; outs = outs; ins = ins }) }
        ensures room { node_room self.old ≤ node_room self.new + 1 }
    {
        let slot = self.ids.put(id);
        put_beside(&mut self.places, slot, place);
        put_beside(&mut self.outs, slot, outs);
        put_beside(&mut self.ins, slot, ins);
        slot
    }

    /// Removes the node in a slot, with its lines. The slot is then free.
    #[tactic(auto, using(crate::proofs::ColumnLemmas::id_there, crate::proofs::ColumnLemmas::inside_places, crate::proofs::ColumnLemmas::inside_outs, crate::proofs::ColumnLemmas::inside_ins))]
    pub fn take(&mut self, slot: u32) -> NodeEntry
        requires { IsSome (at (node_slots self.old) slot) }
        ensures removes { IsRemoved (node_slots self.old) (node_slots self.new) slot result }
        ensures room { node_room self.old + 1 ≤ node_room self.new }
    {
        let id = self.ids.take(slot);
        let place = self.places[slot as usize];
        let outs = mem::replace(&mut self.outs[slot as usize], Links::in_empty(None));
        let ins = mem::replace(&mut self.ins[slot as usize], Links::in_empty(None));
        NodeEntry {
            outs,
            ins,
            id,
            place,
        }
    }

    /// Moves the node in a slot to another coordinate, and returns the previous one.
    #[tactic(auto, using(crate::proofs::ColumnLemmas::inside_places))]
    pub fn move_node(&mut self, slot: u32, place: Coord) -> Coord
        requires { IsSome (at (node_slots self.old) slot) }
        ensures turns { (e : Entry) × (e.place ≡ result)
            × IsReplaced (node_slots self.old) (node_slots self.new) slot e
            (record { id = e.id; place = place; outs = e.outs; ins = e.ins }) }
        ensures room { node_room self.new ≡ node_room self.old }
    {
        mem::replace(&mut self.places[slot as usize], place)
    }

    /// Reserves capacity for one more line on one side of the node in a slot.
    #[tactic(auto, using(crate::proofs::ColumnLemmas::inside_outs, crate::proofs::ColumnLemmas::inside_ins))]
    pub fn reserve_link(&mut self, side: Side, slot: u32) -> Result<(), AllocError>
        requires { IsSome (at (node_slots self.old) slot) }
        ensures turns { IsRelinked (node_slots self.old) (node_slots self.new) side slot
            (λ o n. IsRoomier o n × OnOk result (length (lines_on n) < links_room n)) }
        ensures room { node_room self.new ≡ node_room self.old }
    {
        let alloc = *self.outs.allocator();
        match side {
            Side::Out => self.outs[slot as usize].reserve(alloc),
            Side::In => self.ins[slot as usize].reserve(alloc),
        }
    }

    /// Sets the far end of a line on one side of the node in a slot, or removes the line, see `Links::put`.
    #[tactic(auto, using(crate::proofs::ColumnLemmas::outs_at, crate::proofs::ColumnLemmas::ins_at))]
    pub fn put_end(&mut self, side: Side, slot: u32, id: LineId, end: Option<LineEnd>)
        requires { CanPutEnd (node_slots self.old) side slot id }
        ensures turns { IsRelinked (node_slots self.old) (node_slots self.new) side slot (λ o n. IsPut o n id end) }
        ensures room { node_room self.new ≡ node_room self.old }
    {
        match side {
            Side::Out => self.outs[slot as usize].put(id, end),
            Side::In => self.ins[slot as usize].put(id, end),
        }
    }
}

/// Writes a value to a slot of a column, or appends it to the column. Capacity for that is reserved.
fn put_beside<T: Drop>(column: &mut Vec<T>, slot: u32, value: T)
    requires within { slot ≤ length column.old.items }
    requires room { slot ≡ length column.old.items → vec_len column.old < vec_capacity column.old }
    ensures items { column.new.items ≡ cond (nat_lt slot (length column.old.items)) (set column.old.items slot value)
        (column.old.items ++ value ∷ []) }
    ensures capacity { vec_capacity column.old ≤ vec_capacity column.new }
{
    let at = slot as usize;
    if at < column.len() {
        column[at] = value;
        return;
    }
    column.push_reserved(value);
}
