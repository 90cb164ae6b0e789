//! Why a map rejects an edit, or what the edit touches, for every `MapRead`.
ghost use Rattle.std.specs.Prelude.{◌≡◌, Some, None, Err, IsOk, IfOk, MatchResult};
ghost use Rattle.std.specs.FinMap.{get};
ghost use Rattle.olr_spec.specs.Map.{edited, Drop_node, Add_line};
ghost use Rattle.olr_model.specs.Edits.{edit_of, edit_fault_of};
ghost use Rattle.olr_map.specs.EditPlans.{IsEditPlan};

use olr_model::{Edit, EditFault, Line, LineId, MapRead, NodeId, has_good_fields};

/// What an edit touches on a map that accepts it.
#[derive(Clone, Copy)]
pub struct EditPlan {
    /// The nodes: both ends of the line, or one node twice.
    pub nodes: (NodeId, NodeId),
    /// Their slots in the map, see `MapRead::slot_of`; 0 for a node that is added.
    pub slots: (u32, u32),
    /// The line. None if only a node is touched.
    pub line: Option<LineId>,
    /// The lesser of the line's lengths before and after the edit, in decimetres; the only one if the line is added or
    /// removed. None if the edit changes no route: it is of a node, or leaves the line as long as it was.
    pub changed: Option<u32>,
}

/// The first fault of the edit on this map, or what the edit touches. Out of memory is not tested.
pub fn judge<M: MapRead>(map: &M, edit: &Edit) -> Result<EditPlan, EditFault>
    ensures fault { MatchResult (edited (M.map map.now) (edit_of edit.now))
        (λ _. IsOk result) (λ f. result ≡ Err (edit_fault_of f)) }
    ensures plan { IfOk result (IsEditPlan (M.map map.now) (M.node_slot map.now) (edit_of edit.now)) }
{
    match edit {
        Edit::AddNode(id, place) => {
            if map.slot_of(*id).is_some() {
                return Err(EditFault::NodeExists);
            }
            // Only for the proof, here and below: the coordinate is in range, as every `Coord` is.
            let _latitude = place.lat();
            Ok(node_plan(*id, 0))
        }
        Edit::MoveNode(id, place) => {
            let Some(at) = map.slot_of(*id) else {
                return Err(EditFault::NoNode);
            };
            let _latitude = place.lat();
            Ok(node_plan(*id, at))
        }
        Edit::DropNode(id) => judge_node_dropped(map, *id),
        Edit::AddLine(id, line) => judge_line_added(map, *id, line),
        Edit::SetLine {
            id,
            frc,
            fow,
            len,
            shape,
        } => {
            let Some(was) = map.line(*id) else {
                return Err(EditFault::NoLine);
            };
            if !has_good_fields(*frc, *fow, *len, shape) {
                return Err(EditFault::BadShape);
            }
            let changed = (was.len != *len).then_some(was.len.min(*len));
            Ok(line_plan(map, *id, was, changed))
        }
        Edit::DropLine(id) => {
            let Some(was) = map.line(*id) else {
                return Err(EditFault::NoLine);
            };
            Ok(line_plan(map, *id, was, Some(was.len)))
        }
    }
}

/// A node can be removed only if it is on the map and no line uses it.
fn judge_node_dropped<M: MapRead>(map: &M, id: NodeId) -> Result<EditPlan, EditFault>
    ensures fault { MatchResult (edited (M.map map.now) (Drop_node id))
        (λ _. IsOk result) (λ f. result ≡ Err (edit_fault_of f)) }
    ensures plan { IfOk result (IsEditPlan (M.map map.now) (M.node_slot map.now) (Drop_node id)) }
{
    let Some(at) = map.slot_of(id) else {
        return Err(EditFault::NoNode);
    };
    if !map.out_lines_at(at).lines.is_empty() || !map.in_lines_at(at).lines.is_empty() {
        return Err(EditFault::NodeInUse);
    }
    Ok(node_plan(id, at))
}

/// A line can be added only if it is not on the map, its ends are, and it is good.
fn judge_line_added<M: MapRead>(map: &M, id: LineId, line: &Line) -> Result<EditPlan, EditFault>
    ensures fault { MatchResult (edited (M.map map.now) (Add_line id line.now))
        (λ _. IsOk result) (λ f. result ≡ Err (edit_fault_of f)) }
    ensures plan { IfOk result (IsEditPlan (M.map map.now) (M.node_slot map.now) (Add_line id line.now)) }
{
    if map.line(id).is_some() {
        return Err(EditFault::LineExists);
    }
    let Some(from) = map.slot_of(line.from) else {
        return Err(EditFault::NoNode);
    };
    let Some(to) = map.slot_of(line.to) else {
        return Err(EditFault::NoNode);
    };
    if !line.is_good() {
        return Err(EditFault::BadShape);
    }
    Ok(EditPlan {
        nodes: (line.from, line.to),
        slots: (from, to),
        line: Some(id),
        changed: Some(line.len),
    })
}

/// What an edit touches that adds, moves or removes a node.
fn node_plan(id: NodeId, slot: u32) -> EditPlan
    ensures { result ≡ record { nodes = (id, id); slots = (slot, slot); line = None; changed = None } }
{
    EditPlan {
        nodes: (id, id),
        slots: (slot, slot),
        line: None,
        changed: None,
    }
}

/// What an edit touches that sets or removes this line of the map, with its length if it changes routes.
fn line_plan<M: MapRead>(map: &M, id: LineId, was: &Line, changed: Option<u32>) -> EditPlan
    requires { get (M.map map.now).lines id ≡ Some was.now }
    ensures nodes { result.nodes ≡ (was.now.from, was.now.to) }
    ensures begin { M.node_slot map.now was.now.from ≡ result.slots.0 }
    ensures end { M.node_slot map.now was.now.to ≡ result.slots.1 }
    ensures line { result.line ≡ Some id }
    ensures changed { result.changed ≡ changed }
{
    let from = map.slot_of(was.from).unwrap();
    let to = map.slot_of(was.to).unwrap();
    EditPlan {
        nodes: (was.from, was.to),
        slots: (from, to),
        line: Some(id),
        changed,
    }
}
