//! Records of edits of the map.
ghost use Rattle.std.specs.Prelude.{drop};
ghost use Rattle.csv.specs.Records.{fields_of};
ghost use Rattle.olr_spec.specs.Map.{Add_node, Move_node, Drop_node, Drop_line};
ghost use Rattle.olr_records.specs.Records as records;
ghost use Rattle.olr_records.specs.Words.{IsRead, Reads};

use crate::attributes::attributes_at;
use crate::faults::ReadFault;
use crate::fields::{coord, line_id, node_id, only_field};
use crate::parts::both;
use csv::ByteRecord;
use olr_commands::Command;
use olr_coords::Coord;
use olr_input::field;
use olr_model::{Edit, Line, NodeId};
use std::alloc::Global;

/// A node and its coordinate: all fields after the first.
#[inline(always)]
#[tactic(auto, using(crate::proofs::FormLemmas::node_at))]
fn node(fields: &ByteRecord) -> Result<(NodeId, Coord), ReadFault>
    ensures { Reads (λ p. (p.0, p.1)) (records.node_fields (drop 1 (fields_of fields.now))) result }
{
    if fields.len() != 4 {
        return Err(ReadFault::Syntax);
    }
    let place = coord(field(fields, 2), field(fields, 3));
    let (id, place) = both(node_id(field(fields, 1)), place)?;
    Ok((id, place))
}

/// `node,NODE,LON,LAT`
pub(crate) fn add_node(fields: &ByteRecord) -> Result<Command, ReadFault>
    ensures { IsRead (records.edit (records.node_record Add_node (drop 1 (fields_of fields.now)))) result }
{
    let (id, place) = node(fields)?;
    Ok(Command::Edit(Edit::AddNode(id, place)))
}

/// `move,NODE,LON,LAT`
pub(crate) fn move_node(fields: &ByteRecord) -> Result<Command, ReadFault>
    ensures { IsRead (records.edit (records.node_record Move_node (drop 1 (fields_of fields.now)))) result }
{
    let (id, place) = node(fields)?;
    Ok(Command::Edit(Edit::MoveNode(id, place)))
}

/// `drop-node,NODE`
pub(crate) fn drop_node(fields: &ByteRecord) -> Result<Command, ReadFault>
    ensures { IsRead (records.edit (records.one Drop_node records.number (drop 1 (fields_of fields.now)))) result }
{
    let id = node_id(only_field(fields)?)?;
    Ok(Command::Edit(Edit::DropNode(id)))
}

/// `line,LINE,FROM,TO,FRC,FOW,LEN[,AT,LON,LAT]*`
pub(crate) fn add_line(alloc: Global, fields: &ByteRecord) -> Result<Command, ReadFault>
    ensures { IsRead (records.edit (records.line_record (drop 1 (fields_of fields.now)))) result }
{
    if fields.len() < 7 {
        return Err(ReadFault::Syntax);
    }
    let ends = both(node_id(field(fields, 2)), node_id(field(fields, 3)));
    let line = both(ends, attributes_at(alloc, fields, 4));
    let (id, ((from, to), attributes)) = both(line_id(field(fields, 1)), line)?;
    let line = Line {
        from,
        to,
        frc: attributes.frc,
        fow: attributes.fow,
        len: attributes.len,
        shape: attributes.shape,
    };
    Ok(Command::Edit(Edit::AddLine(id, line)))
}

/// `set-line,LINE,FRC,FOW,LEN[,AT,LON,LAT]*`
pub(crate) fn set_line(alloc: Global, fields: &ByteRecord) -> Result<Command, ReadFault>
    ensures { IsRead (records.edit (records.set_line_record (drop 1 (fields_of fields.now)))) result }
{
    if fields.len() < 5 {
        return Err(ReadFault::Syntax);
    }
    let (id, attributes) = both(line_id(field(fields, 1)), attributes_at(alloc, fields, 2))?;
    Ok(Command::Edit(Edit::SetLine {
        id,
        frc: attributes.frc,
        fow: attributes.fow,
        len: attributes.len,
        shape: attributes.shape,
    }))
}

/// `drop-line,LINE`
pub(crate) fn drop_line(fields: &ByteRecord) -> Result<Command, ReadFault>
    ensures { IsRead (records.edit (records.one Drop_line records.number (drop 1 (fields_of fields.now)))) result }
{
    let id = line_id(only_field(fields)?)?;
    Ok(Command::Edit(Edit::DropLine(id)))
}
