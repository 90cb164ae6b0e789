//! Dumps: the records that build the register from an empty one.
ghost use Rattle.std.specs.List.{list_all, concat};
ghost use Rattle.std.specs.Prelude.{◌≡◌, ◌++◌, ℕ, map, flat_map, length, All, IsTrue, IsFalse, IfOk, OnOk, Some};
ghost use Rattle.olr_commands.specs.Dump.{node_change, line_change, path_change, margin_changes, dump_lines};
ghost use Rattle.olr_commands.specs.RecordText.{record_line};
ghost use Rattle.olr_commands.specs.State.{is_recordable, Dump as Dumps};
ghost use Rattle.olr_map.specs.RoadMaps.{map_of, slot_of};
ghost use Rattle.olr_paths.specs.Items.{items, all_named};
ghost use Rattle.olr_spec.specs.Map.{has_node, has_line, coord_at, line_at};
ghost use Rattle.olr_spec.specs.Margins.{no_margin};
ghost use Rattle.olr_commands.specs.Recordable as recordable;
ghost use Rattle.olr_register.specs.Contents.{content_on};
ghost use Rattle.olr_register.specs.Recordables as numbered;

use crate::records::push_node;
use crate::register::Register;
use olr_commands::{
    CommandFault, Dump, Reply, is_name, is_recordable_coord, is_recordable_line, push_line_record,
    push_margin_record, push_path_record,
};
use olr_map::{LineId, MapRead, NodeId, RoadMap};
use olr_paths::PathList;
use olr_refs::Margin;
use std::alloc::{AllocError, Global};

/// Whether a record can have this line.
fn is_recordable_line_at(roads: &RoadMap, id: LineId) -> bool
    ensures { result ≡ numbered.is_recordable_line_at (map_of roads.now) id }
{
    match roads.line(id) {
        Some(line) => is_recordable_line(line),
        None => true,
    }
}

/// Whether records can have each of these lines.
fn are_recordable_lines(roads: &RoadMap, ids: &[LineId]) -> bool
    ensures { result ≡ list_all (numbered.is_recordable_line_at (map_of roads.now)) ids.now }
{
    ids.iter().all(|id| is_recordable_line_at(roads, *id))
}

/// Whether a record can have this node.
pub(crate) fn is_recordable_place(roads: &RoadMap, id: NodeId) -> bool
    ensures { result ≡ recordable.is_recordable_coord (coord_at (map_of roads.now) id) }
{
    match roads.node(id) {
        Some(coord) => is_recordable_coord(coord),
        None => true,
    }
}

/// Whether records can have the node in a slot, and the lines that leave it.
fn is_recordable_slot(roads: &RoadMap, slot: u32) -> bool
    ensures all { (v : ℕ) → IsTrue (has_node (map_of roads.now) v) → slot_of roads.now v ≡ slot →
        result ≡ numbered.is_recordable_node_at (map_of roads.now) v }
    ensures one { IsFalse result → (v : ℕ) × IsFalse (numbered.is_recordable_node_at (map_of roads.now) v) }
{
    let Some(id) = roads.node_at(slot) else {
        return true;
    };
    is_recordable_place(roads, id) && are_recordable_lines(roads, roads.out_lines(id))
}

/// Whether records can have each node and each line of the map.
fn is_recordable_map(roads: &RoadMap) -> bool
    ensures { result ≡ recordable.is_recordable_map (map_of roads.now) }
{
    for slot in 0..roads.slot_count() {
        if !is_recordable_slot(roads, slot as u32) {
            return false;
        }
    }
    true
}

/// Whether records can have the name of each path.
fn are_recordable_names(paths: &PathList) -> bool
    ensures { result ≡ list_all (λ p. recordable.is_name p.name) (all_named (items paths.now)) }
{
    for k in 0..paths.len() {
        let Some((name, _)) = paths.path_at(k) else {
            unreachable!()
        };
        if !is_name(name.as_bytes()) {
            return false;
        }
    }
    true
}

/// Whether records can have the whole map and each name.
fn is_recordable(roads: &RoadMap, paths: &PathList) -> bool
    ensures { result ≡ is_recordable (content_on no_margin (map_of roads.now) (items paths.now)) }
{
    is_recordable_map(roads) && are_recordable_names(paths)
}

/// Appends the record of the margin, if it adds something. Returns the number of records.
fn push_margin(text: &mut Vec<u8>, margin: Margin) -> Result<usize, AllocError>
    ensures { IfOk result (λ n. (n ≡ length (margin_changes margin))
        × (text.new.items ≡ text.old.items ++ concat (map record_line (margin_changes margin)))) }
{
    if margin.routes() == 0 && margin.classes() == 0 {
        return Ok(0);
    }
    push_margin_record(text, margin)?;
    Ok(1)
}

/// Appends the records of these nodes.
fn push_nodes(text: &mut Vec<u8>, roads: &RoadMap, ids: &[NodeId]) -> Result<(), AllocError>
    requires there { All (λ v. IsTrue (has_node (map_of roads.now) v)) ids.now }
    requires recordable { IsTrue (recordable.is_recordable_map (map_of roads.now)) }
    ensures { OnOk result (text.new.items ≡ text.old.items
        ++ flat_map (λ v. record_line (node_change (v, coord_at (map_of roads.now) v))) ids.now) }
{
    for id in ids {
        push_node(text, roads, *id)?;
    }
    Ok(())
}

/// Appends the records of these lines.
fn push_lines(text: &mut Vec<u8>, roads: &RoadMap, ids: &[LineId]) -> Result<(), AllocError>
    requires there { All (λ x. IsTrue (has_line (map_of roads.now) x)) ids.now }
    requires recordable { IsTrue (recordable.is_recordable_map (map_of roads.now)) }
    ensures { OnOk result (text.new.items ≡ text.old.items
        ++ flat_map (λ x. record_line (line_change (x, line_at (map_of roads.now) x))) ids.now) }
{
    for id in ids {
        let Some(line) = roads.line(*id) else {
            unreachable!()
        };
        push_line_record(text, *id, line)?;
    }
    Ok(())
}

/// Appends the records of all paths, in their order.
fn push_paths(text: &mut Vec<u8>, paths: &PathList) -> Result<(), AllocError>
    ensures { OnOk result (text.new.items ≡ text.old.items
        ++ flat_map (λ p. record_line (path_change p)) (all_named (items paths.now))) }
{
    for k in 0..paths.len() {
        let Some((name, path)) = paths.path_at(k) else {
            unreachable!()
        };
        push_path_record(text, name.as_bytes(), path)?;
    }
    Ok(())
}

/// The records of a margin, of a map and of paths.
fn dump_of(
    alloc: Global,
    margin: Margin,
    roads: &RoadMap,
    paths: &PathList,
) -> Result<Dump, AllocError>
    requires recordable { IsTrue (recordable.is_recordable_map (map_of roads.now)) }
    ensures { IfOk result (λ d.
        (d.count ≡ length (dump_lines (content_on margin (map_of roads.now) (items paths.now))))
        × (d.text.items ≡ concat (dump_lines (content_on margin (map_of roads.now) (items paths.now))))) }
{
    let mut text = Vec::new(alloc);
    let margins = push_margin(&mut text, margin)?;
    let nodes = roads.node_ids(alloc)?;
    let node_count = nodes.len();
    push_nodes(&mut text, roads, &nodes)?;
    // The numbers of the nodes aren't in memory beside those of the lines and their text.
    drop(nodes);
    let lines = roads.line_ids(alloc)?;
    push_lines(&mut text, roads, &lines)?;
    push_paths(&mut text, paths)?;
    Ok(Dump {
        count: margins + node_count + lines.len() + paths.len(),
        text,
    })
}

impl Register {
    ghost use Rattle.olr_register.specs.Answered.{Answered};

    /// The records that build the register from an empty one: its margin, if it has one, its nodes and its lines, each in
    /// ascending order of their numbers, and its paths in their order. The faults are `BatchOpen`, `NotARecord` and `Memory`, in this order of
    /// precedence.
    #[inline(never)]
    pub fn dump(&self) -> Result<Reply, CommandFault>
        ensures { Answered self.now Dumps result self.now }
    {
        if self.batch.is_some() {
            return Err(CommandFault::BatchOpen);
        }
        if !is_recordable(&self.roads, &self.paths) {
            return Err(CommandFault::NotARecord);
        }
        Ok(Reply::Dump(dump_of(self.alloc, self.margin, &self.roads, &self.paths)?))
    }
}
