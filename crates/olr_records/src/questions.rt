//! Records of questions about the map, and about the strings of paths.
ghost use Rattle.std.specs.Prelude.{drop, Err, ⊤};
ghost use Rattle.csv.specs.Records.{fields_of};
ghost use Rattle.olr_commands.specs.State.{Show_node, Show_line};
ghost use Rattle.olr_records.specs.Records as records;
ghost use Rattle.olr_records.specs.Records.{◌⊛◌, Out_of_range};
ghost use Rattle.olr_records.specs.Words.{Gathers, IsRead};

use crate::faults::ReadFault;
use crate::fields::{line_id, name, node_id, only_field};
use crate::lists::items_from;
use csv::ByteRecord;
use olr_commands::Command;
use olr_input::field;
use olr_model::NodeId;
use std::alloc::Global;

/// The greatest number of nodes in a question.
const MOST_NODES: usize = 10_000;

/// `show-node,NODE`
pub(crate) fn show_node(fields: &ByteRecord) -> Result<Command, ReadFault>
    ensures { IsRead (records.one Show_node records.number (drop 1 (fields_of fields.now))) result }
{
    let id = node_id(only_field(fields)?)?;
    Ok(Command::ShowNode(id))
}

/// `show-line,LINE`
pub(crate) fn show_line(fields: &ByteRecord) -> Result<Command, ReadFault>
    ensures { IsRead (records.one Show_line records.number (drop 1 (fields_of fields.now))) result }
{
    let id = line_id(only_field(fields)?)?;
    Ok(Command::ShowLine(id))
}

/// The node numbers from the second field on.
fn node_ids(alloc: Global, fields: &ByteRecord) -> Result<Vec<NodeId>, ReadFault>
    ensures { Gathers (λ _. ⊤) (λ v. v.items) (records.numbers (drop 1 (fields_of fields.now))) result }
{
    items_from(alloc, fields, 1, node_id)
}

/// The fault of more nodes than a question may have.
fn too_many(fields: &ByteRecord) -> Result<Command, ReadFault>
    ensures { IsRead (Err Out_of_range ⊛ records.numbers (drop 1 (fields_of fields.now))) result }
{
    for k in 1..fields.len() {
        if let Err(ReadFault::Syntax) = node_id(field(fields, k)) {
            return Err(ReadFault::Syntax);
        }
    }
    Err(ReadFault::Range)
}

/// `depends,NODE[,NODE]*`
pub(crate) fn depends(alloc: Global, fields: &ByteRecord) -> Result<Command, ReadFault>
    ensures { IsRead (records.depends_record (drop 1 (fields_of fields.now))) result }
{
    if fields.len() < 2 {
        return Err(ReadFault::Syntax);
    }
    if fields.len() - 1 > MOST_NODES {
        return too_many(fields);
    }
    let nodes = node_ids(alloc, fields)?;
    Ok(Command::Depends(nodes))
}

/// `ambiguous[,NAME]`
pub(crate) fn ambiguous(alloc: Global, fields: &ByteRecord) -> Result<Command, ReadFault>
    ensures { IsRead (records.ambiguous_record (drop 1 (fields_of fields.now))) result }
{
    if fields.len() > 2 {
        return Err(ReadFault::Syntax);
    }
    if fields.len() < 2 {
        return Ok(Command::Ambiguous(None));
    }
    let name = name(alloc, field(fields, 1))?;
    Ok(Command::Ambiguous(Some(name)))
}
