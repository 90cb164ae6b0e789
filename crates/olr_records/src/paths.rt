//! Records of named paths, and of the margin with which they are encoded.
ghost use Rattle.std.specs.Prelude.{drop, string_bytes, ⊤};
ghost use Rattle.csv.specs.Records.{fields_of};
ghost use Rattle.olr_commands.specs.State.{Make, Add_path, Set_path, Drop_path, Show};
ghost use Rattle.olr_commands.specs.Words.{path_along};
ghost use Rattle.olr_records.specs.Records as records;
ghost use Rattle.olr_records.specs.Words.{Gathers, IsRead};

use crate::faults::ReadFault;
use crate::fields::{amount, class, line_id, name, number, only_field};
use crate::lists::items_from;
use crate::parts::both;
use csv::ByteRecord;
use olr_answers::Margin;
use olr_commands::Command;
use olr_input::field;
use olr_model::LineId;
use std::alloc::Global;

/// The greatest part by which own lines count longer, in thousandths of their length.
const GREATEST_ROUTES: u32 = 1000;

/// A path: all fields after the first. Returns its name, its lines, and its positive and negative offset in decimetres.
#[inline(never)]
fn path(alloc: Global, fields: &ByteRecord) -> Result<(String, Vec<LineId>, u32, u32), ReadFault>
    ensures { Gathers (λ _. ⊤) (λ p. (string_bytes p.0, path_along p.1.items p.2 p.3))
        (records.path_fields (drop 1 (fields_of fields.now)))
        result }
{
    if fields.len() < 4 {
        return Err(ReadFault::Syntax);
    }
    let started = both(name(alloc, field(fields, 1)), amount(field(fields, 2)));
    let offset = both(started, amount(field(fields, 3)));
    let (((name, pos), neg), lines) = both(offset, line_ids(alloc, fields))?;
    Ok((name, lines, pos, neg))
}

/// The line numbers from the fifth field on.
fn line_ids(alloc: Global, fields: &ByteRecord) -> Result<Vec<LineId>, ReadFault>
    ensures { Gathers (λ _. ⊤) (λ v. v.items) (records.numbers (drop 4 (fields_of fields.now))) result }
{
    items_from(alloc, fields, 4, line_id)
}

/// `path,NAME,POS,NEG[,LINE]*`
pub(crate) fn add_path(alloc: Global, fields: &ByteRecord) -> Result<Command, ReadFault>
    ensures { IsRead (records.path_record Add_path (drop 1 (fields_of fields.now))) result }
{
    let (name, lines, pos, neg) = path(alloc, fields)?;
    Ok(Command::AddPath(name, lines, pos, neg))
}

/// `repath,NAME,POS,NEG[,LINE]*`
pub(crate) fn set_path(alloc: Global, fields: &ByteRecord) -> Result<Command, ReadFault>
    ensures { IsRead (records.path_record Set_path (drop 1 (fields_of fields.now))) result }
{
    let (name, lines, pos, neg) = path(alloc, fields)?;
    Ok(Command::SetPath(name, lines, pos, neg))
}

/// `drop-path,NAME`
pub(crate) fn drop_path(alloc: Global, fields: &ByteRecord) -> Result<Command, ReadFault>
    ensures { IsRead
        (records.one (λ n. Make (Drop_path n)) records.name (drop 1 (fields_of fields.now)))
        result }
{
    let name = name(alloc, only_field(fields)?)?;
    Ok(Command::DropPath(name))
}

/// `show,NAME`
pub(crate) fn show(alloc: Global, fields: &ByteRecord) -> Result<Command, ReadFault>
    ensures { IsRead (records.one Show records.name (drop 1 (fields_of fields.now))) result }
{
    let name = name(alloc, only_field(fields)?)?;
    Ok(Command::Show(name))
}

/// `margin,ROUTES,CLASSES`
pub(crate) fn margin(fields: &ByteRecord) -> Result<Command, ReadFault>
    ensures { IsRead (records.margin_record (drop 1 (fields_of fields.now))) result }
{
    if fields.len() != 3 {
        return Err(ReadFault::Syntax);
    }
    let routes = number(field(fields, 1), 0, GREATEST_ROUTES);
    let (routes, classes) = both(routes, class(field(fields, 2)))?;
    let margin = Margin::new(routes, classes).ok_or(ReadFault::Range)?;
    Ok(Command::SetMargin(margin))
}
