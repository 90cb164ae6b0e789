//! The record of a node, and those of a line and its ends.
ghost use Rattle.std.specs.FinMap.{get};
ghost use Rattle.std.specs.List.{concat};
ghost use Rattle.std.specs.Prelude.{◌≡◌, ◌++◌, map, length, Some, IsTrue, IfOk, OnOk};
ghost use Rattle.olr_commands.specs.Dump.{node_change, line_changes};
ghost use Rattle.olr_commands.specs.RecordText.{record_line};
ghost use Rattle.olr_map.specs.RoadMaps.{map_of};
ghost use Rattle.olr_spec.specs.Map.{has_node, coord_at};
ghost use Rattle.olr_commands.specs.Recordable as recordable;

use crate::dumps::is_recordable_place;
use crate::register::Register;
use olr_commands::{
    CommandFault, Dump, Reply, is_recordable_line, push_line_record, push_node_record,
};
use olr_map::{EditFault, Line, LineId, MapRead, NodeId, RoadMap};
use std::alloc::{AllocError, Global};

/// Appends the record of a node of the map.
pub(crate) fn push_node(text: &mut Vec<u8>, roads: &RoadMap, id: NodeId) -> Result<(), AllocError>
    requires there { IsTrue (has_node (map_of roads.now) id) }
    requires recordable { IsTrue (recordable.has_node_record (map_of roads.now) id) }
    ensures { OnOk result (text.new.items
        ≡ text.old.items ++ record_line (node_change (id, coord_at (map_of roads.now) id))) }
{
    push_node_record(text, id, roads.node(id).unwrap())
}

/// The records of the ends of a line of the map, each once, and of the line.
fn line_records(alloc: Global, roads: &RoadMap, id: LineId, line: &Line) -> Result<Dump, AllocError>
    requires line { get (map_of roads.now).lines id ≡ Some line.now }
    requires recordable { IsTrue (recordable.has_line_records (map_of roads.now) id) }
    ensures { IfOk result (λ d. (d.count ≡ length (line_changes (map_of roads.now) id))
        × (d.text.items ≡ concat (map record_line (line_changes (map_of roads.now) id)))) }
{
    let mut text = Vec::new(alloc);
    push_node(&mut text, roads, line.from)?;
    if line.from == line.to {
        push_line_record(&mut text, id, line)?;
        return Ok(Dump { count: 2, text });
    }
    push_node(&mut text, roads, line.to)?;
    push_line_record(&mut text, id, line)?;
    Ok(Dump { count: 3, text })
}

/// Whether records can have this line of the map and its ends.
fn has_line_records(roads: &RoadMap, id: LineId, line: &Line) -> bool
    requires { get (map_of roads.now).lines id ≡ Some line.now }
    ensures { result ≡ recordable.has_line_records (map_of roads.now) id }
{
    is_recordable_place(roads, line.from)
        && is_recordable_place(roads, line.to)
        && is_recordable_line(line)
}

impl Register {
    ghost use Rattle.olr_commands.specs.State.{Show_node, Show_line};
    ghost use Rattle.olr_register.specs.Answered.{Answered};

    /// The record of a node, as a dump has it. The faults are `BatchOpen`, `NoNode`, `NotARecord` and `Memory`, in this
    /// order of precedence.
    #[inline(never)]
    pub fn show_node(&self, id: NodeId) -> Result<Reply, CommandFault>
        ensures { Answered self.now (Show_node id) result self.now }
    {
        if self.batch.is_some() {
            return Err(CommandFault::BatchOpen);
        }
        if self.roads.node(id).is_none() {
            return Err(CommandFault::Map(EditFault::NoNode));
        }
        if !is_recordable_place(&self.roads, id) {
            return Err(CommandFault::NotARecord);
        }
        let mut text = Vec::new(self.alloc);
        push_node(&mut text, &self.roads, id)?;
        Ok(Reply::Records(Dump { count: 1, text }))
    }

    /// The record of a line, as a dump has it, after those of the nodes where it begins and ends; one of these if they are
    /// the same. The faults are `BatchOpen`, `NoLine`, `NotARecord` and `Memory`, in this order of precedence.
    #[inline(never)]
    pub fn show_line(&self, id: LineId) -> Result<Reply, CommandFault>
        ensures { Answered self.now (Show_line id) result self.now }
    {
        if self.batch.is_some() {
            return Err(CommandFault::BatchOpen);
        }
        let Some(line) = self.roads.line(id) else {
            return Err(CommandFault::Map(EditFault::NoLine));
        };
        if !has_line_records(&self.roads, id, line) {
            return Err(CommandFault::NotARecord);
        }
        Ok(Reply::Records(line_records(self.alloc, &self.roads, id, line)?))
    }
}
