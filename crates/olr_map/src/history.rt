//! Edits of a road map, and their undo records.

use crate::change::TableChange;
use crate::judging::{EditPlan, judge};
use crate::road_map::RoadMap;
use crate::slots::Side;
use crate::undo::{Undo, UndoLog};
use olr_model::{Edit, EditFault, Line, NodeId};
use std::alloc::AllocError;

impl RoadMap {
    ghost use Rattle.std.specs.Prelude.{◌≡◌, ◌↔◌, ◌+◌, IsOk, IfOk, OnOk, OnErr, Ok, Err, IsTrue};
    ghost use Rattle.olr_spec.specs.Map.{MapFault, edited};
    ghost use Rattle.olr_map.specs.RoadMaps.{map_of, slot_of, CanUndo, map_undone, CanUndoAll, map_before};
    ghost use Rattle.olr_map.specs.EditPlans.{IsEditPlan, AreEnds, AreSlots};
    ghost use Rattle.olr_model.specs.Edits.{edit_of, edit_fault_of, allocates};
    ghost use Rattle.olr_map.specs.Changes.{tables_map, room_of, change_edit, node_puts, line_puts, node_numbers};
    ghost use Rattle.olr_map.specs.Changes.{line_numbers, HasRoomFor, HasNumbers, IsWhole, CanMake, IsReserved};
    ghost use Rattle.olr_map.specs.Changes.{IsChanged, IsChangeMade, KeepsSlots, AddsNoNode};
    ghost use Rattle.olr_map.specs.RoadMaps.{log_changes, dropped_nodes};

    /// The slots of the nodes that a change touches and that exist before it.
    fn slots_for(&self, change: &TableChange) -> (u32, u32)
        requires { IsOk (edited (tables_map self.now) (change_edit change.now)) }
        ensures { AreSlots self.now.index (tables_map self.now) result (change_edit change.now) }
    {
        match change {
            TableChange::MoveNode(id, _) => {
                let slot = self.slot(*id);
                (slot, slot)
            }
            TableChange::PutLine(_, line) => (self.slot(line.from), self.slot(line.to)),
            TableChange::SetLine(id, _) | TableChange::TakeLine(id) => self.end_slots(*id),
            TableChange::PutNode(..) | TableChange::TakeNode(_) => (0, 0),
        }
    }

    /// Makes a change at these slots, and returns the change that undoes it. Inlined, so that the change of an edit is taken
    /// apart where it is made.
    #[inline(always)]
    fn make_change(&mut self, change: TableChange, slots: (u32, u32)) -> TableChange
        requires can { CanMake (tables_map self.old) (room_of self.old) change }
        requires slots { AreSlots self.old.index (tables_map self.old) slots (change_edit change) }
        requires numbers { HasNumbers self.old (node_puts change) (line_puts change) }
        ensures made { IsChangeMade self.old self.new change result }
        ensures nodes { node_puts change + node_puts result ≡ node_numbers (change_edit change) }
        ensures lines { line_puts change + line_puts result ≡ line_numbers (change_edit change) }
    {
        match change {
            TableChange::PutNode(id, place, outs, ins) => {
                self.put_node(id, place, outs, ins);
                TableChange::TakeNode(id)
            }
            TableChange::MoveNode(id, place) => {
                TableChange::MoveNode(id, self.move_node(id, place, slots.0))
            }
            TableChange::TakeNode(id) => self.take_node(id),
            TableChange::PutLine(id, line) => {
                self.put_line(id, line, slots.0, slots.1);
                TableChange::TakeLine(id)
            }
            TableChange::SetLine(id, line) => {
                TableChange::SetLine(id, self.set_line(id, line, slots.0, slots.1))
            }
            TableChange::TakeLine(id) => TableChange::PutLine(
                id,
                self.take_line(id, slots.0, slots.1),
            ),
        }
    }

    /// Makes a change at these slots that is never undone, and frees what it removes. Inlined, as `make_change` is.
    #[inline(always)]
    fn make_for_good(&mut self, change: TableChange, slots: (u32, u32))
        requires can { CanMake (tables_map self.old) (room_of self.old) change }
        requires slots { AreSlots self.old.index (tables_map self.old) slots (change_edit change) }
        requires numbers { HasNumbers self.old (node_puts change) (line_puts change) }
        ensures { IsChanged self.old self.new change }
    {
        match change {
            TableChange::PutNode(id, place, outs, ins) => self.put_node(id, place, outs, ins),
            TableChange::MoveNode(id, place) => {
                self.move_node(id, place, slots.0);
            }
            TableChange::TakeNode(id) => drop(self.take_node(id)),
            TableChange::PutLine(id, line) => self.put_line(id, line, slots.0, slots.1),
            TableChange::SetLine(id, line) => drop(self.set_line(id, line, slots.0, slots.1)),
            TableChange::TakeLine(id) => drop(self.take_line(id, slots.0, slots.1)),
        }
    }

    /// Makes a change that undoes an edit, and frees what the edit added.
    fn take_back(&mut self, change: TableChange)
        requires can { CanMake (tables_map self.old) (room_of self.old) change }
        requires numbers { HasNumbers self.old (node_puts change) (line_puts change) }
        ensures { IsChanged self.old self.new change }
    {
        let slots = self.slots_for(&change);
        self.make_for_good(change, slots);
    }

    /// Reserves capacity for what an edit adds at these slots and for its undo, in addition to the numbers of nodes and
    /// of lines that other undo records may put back.
    #[tactic(auto, using(crate::proofs::Capacity::reserved_trans))]
    fn make_room(
        &mut self,
        edit: &Edit,
        slots: (u32, u32),
        nodes: usize,
        lines: usize,
    ) -> Result<(), AllocError>
        requires slots { AreSlots self.old.index (tables_map self.old) slots (edit_of edit.now) }
        requires numbers { HasNumbers self.old nodes lines }
        ensures same { IsReserved self.old self.new }
        ensures room { OnOk result (HasRoomFor (tables_map self.new) (room_of self.new) (edit_of edit.now)) }
        ensures numbers { OnOk result (HasNumbers self.new (nodes + node_numbers (edit_of edit.now))
            (lines + line_numbers (edit_of edit.now))) }
        ensures lacks { OnErr result (IsTrue (allocates (edit_of edit.now))) }
    {
        match edit {
            Edit::AddNode(..) => {
                self.reserve_nodes(nodes)?;
                self.reserve_slot()
            }
            Edit::DropNode(_) => self.reserve_nodes(nodes),
            Edit::AddLine(..) => {
                self.reserve_lines(lines)?;
                self.reserve_link(Side::Out, slots.0)?;
                self.reserve_link(Side::In, slots.1)
            }
            Edit::DropLine(_) => self.reserve_lines(lines),
            Edit::MoveNode(..) | Edit::SetLine { .. } => Ok(()),
        }
    }

    /// The change for an edit of a node, or of a line between these nodes.
    fn change_for(&self, edit: Edit, nodes: (NodeId, NodeId)) -> TableChange
        requires { AreEnds (tables_map self.now) nodes (edit_of edit) }
        ensures same { change_edit result ≡ edit_of edit }
        ensures whole { IsWhole (tables_map self.now) result }
    {
        match edit {
            Edit::AddNode(id, place) => TableChange::PutNode(id, place, None, None),
            Edit::MoveNode(id, place) => TableChange::MoveNode(id, place),
            Edit::DropNode(id) => TableChange::TakeNode(id),
            Edit::AddLine(id, line) => TableChange::PutLine(id, line),
            Edit::SetLine {
                id,
                frc,
                fow,
                len,
                shape,
            } => {
                let (from, to) = nodes;
                let line = Line {
                    from,
                    to,
                    frc,
                    fow,
                    len,
                    shape,
                };
                TableChange::SetLine(id, line)
            }
            Edit::DropLine(id) => TableChange::TakeLine(id),
        }
    }

    /// Makes an edit. Any fault leaves the map as it was. `Memory` has the last place among the faults, and is
    /// reported only for an edit that adds or removes a node or a line. What it returns must be spent by `undo` or by
    /// `keep`.
    pub fn apply(&mut self, edit: Edit) -> Result<Undo, EditFault>
        ensures refused { (f : MapFault) → (result ≡ Err (edit_fault_of f))
            ↔ (edited (map_of self.old) (edit_of edit) ≡ Err f) }
        ensures done { OnOk result (edited (map_of self.old) (edit_of edit) ≡ Ok (map_of self.new)) }
        ensures same { OnErr result (map_of self.new ≡ map_of self.old) }
        ensures can_undo { IfOk result (CanUndo self.new) }
        ensures before { IfOk result (λ undo. map_undone self.new undo ≡ map_of self.old) }
        ensures lacks { result ≡ Err EditFault.Memory → IsTrue (allocates (edit_of edit)) }
    {
        match judge(self, &edit) {
            Ok(plan) => self.make(edit, &plan).map_err(|_| EditFault::Memory),
            Err(fault) => Err(fault),
        }
    }

    /// Makes an edit that was judged on this map. An error leaves the map as it was, and is returned only for an edit
    /// that adds or removes a node or a line. What it returns must be spent by `undo` or by `keep`.
    pub fn make(&mut self, edit: Edit, plan: &EditPlan) -> Result<Undo, AllocError>
        requires { IsEditPlan (map_of self.old) (slot_of self.old) (edit_of edit) plan.now }
        ensures done { OnOk result (edited (map_of self.old) (edit_of edit) ≡ Ok (map_of self.new)) }
        ensures same { OnErr result (map_of self.new ≡ map_of self.old) }
        ensures slots { KeepsSlots self.old self.new }
        ensures can_undo { IfOk result (CanUndo self.new) }
        ensures before { IfOk result (λ undo. map_undone self.new undo ≡ map_of self.old) }
        ensures lacks { OnErr result (IsTrue (allocates (edit_of edit))) }
    {
        self.make_room(&edit, plan.slots, 0, 0)?;
        let change = self.change_for(edit, plan.nodes);
        Ok(Undo {
            change: self.make_change(change, plan.slots),
        })
    }

    /// Makes an edit that was judged on this map and is never undone. An error leaves the map as it was, and is returned
    /// only for an edit that adds or removes a node or a line.
    #[inline(always)]
    #[tactic(auto, using(crate::proofs::Verdicts::plan_slots, crate::proofs::Verdicts::slots_reserved, crate::proofs::Making::made_ok))]
    pub fn make_kept(&mut self, edit: Edit, plan: &EditPlan) -> Result<(), AllocError>
        requires { IsEditPlan (map_of self.old) (slot_of self.old) (edit_of edit) plan.now }
        ensures done { OnOk result (edited (map_of self.old) (edit_of edit) ≡ Ok (map_of self.new)) }
        ensures same { OnErr result (map_of self.new ≡ map_of self.old) }
        ensures slots { KeepsSlots self.old self.new }
        ensures lacks { OnErr result (IsTrue (allocates (edit_of edit))) }
    {
        self.make_room(&edit, plan.slots, 0, 0)?;
        let change = self.change_for(edit, plan.nodes);
        self.make_for_good(change, plan.slots);
        Ok(())
    }

    /// Undoes an edit: the map is as it was before. Does not allocate.
    pub fn undo(&mut self, undo: Undo)
        requires { CanUndo self.old undo }
        ensures { map_of self.new ≡ map_undone self.old undo }
    {
        let Undo { change } = undo;
        self.take_back(change);
    }

    /// Makes an edit that `judge` accepted on this map, and appends its undo record to a log. If an allocation fails,
    /// map and log are unchanged.
    pub fn make_into(
        &mut self,
        edit: Edit,
        plan: &EditPlan,
        log: &mut UndoLog,
    ) -> Result<(), AllocError>
        requires plan { IsEditPlan (map_of self.old) (slot_of self.old) (edit_of edit) plan.now }
        requires log { CanUndoAll self.old log.old }
        ensures done { OnOk result (edited (map_of self.old) (edit_of edit) ≡ Ok (map_of self.new)) }
        ensures same { OnErr result (map_of self.new ≡ map_of self.old) }
        ensures slots { KeepsSlots self.old self.new }
        ensures same_log { OnErr result (log_changes log.new ≡ log_changes log.old) }
        ensures can_undo { CanUndoAll self.new log.new }
        ensures before { map_before self.new log.new ≡ map_before self.old log.old }
    {
        log.reserve()?;
        self.make_room(&edit, plan.slots, log.nodes, log.lines)?;
        let change = self.change_for(edit, plan.nodes);
        let back = self.make_change(change, plan.slots);
        log.push(back);
        Ok(())
    }

    /// Undoes all edits of a log, the last one first: the map is as it was before the first. If no edit of the log dropped
    /// a node, each node has the slot that it had before the call. Does not allocate.
    #[tactic(auto, using(crate::proofs::Log::last_of, std::proofs::lemmas::Grind::common_steps))]
    pub fn undo_all(&mut self, log: UndoLog)
        requires { CanUndoAll self.old log }
        ensures map { map_of self.new ≡ map_before self.old log }
        ensures slots { dropped_nodes log ≡ 0 → AddsNoNode self.old self.new }
    {
        let UndoLog { mut changes, .. } = log;
        while let Some(change) = changes.pop() {
            self.take_back(change);
        }
    }
}
