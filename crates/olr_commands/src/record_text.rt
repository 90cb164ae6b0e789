//! Records as text.
ghost use Rattle.std.specs.Prelude.{◌≡◌, ◌++◌, ◌∷◌, map, decimal, IsTrue, OnOk};
ghost use Rattle.olr_spec.specs.Map.{Add_node, Add_line};
ghost use Rattle.olr_commands.specs.Recordable.{is_recordable_coord, is_recordable_shape};
ghost use Rattle.olr_commands.specs.RecordText.{after_commas, fields_of_coord, fields_of_shape, record_line};
ghost use Rattle.olr_commands.specs.RecordText.{fields_of_attributes};
ghost use Rattle.olr_coords.specs.DegreesText.{degrees_text, has_degrees_text};
ghost use Rattle.olr_commands.specs.State.{On_map, Add_path, Set_margin};

use itoa::{Buffer, Integer};
use olr_answers::{Margin, Path};
use olr_coords::{Coord, push_degrees};
use olr_model::{Line, LineId, NodeId, Shape};
use std::alloc::AllocError;

/// Appends a comma and a field.
pub fn push_field(text: &mut Vec<u8>, field: &[u8]) -> Result<(), AllocError>
    ensures { OnOk result (text.new.items ≡ text.old.items ++ 44 ∷ field.now) }
{
    text.push(b',')?;
    text.extend_from_slice(field)
}

/// Appends a comma and a number in plain decimal.
pub fn push_number<I: Integer>(text: &mut Vec<u8>, number: I) -> Result<(), AllocError>
    ensures { OnOk result (text.new.items ≡ text.old.items ++ 44 ∷ I.text number) }
{
    push_field(text, Buffer::new().format(number).as_bytes())
}

/// Appends the record that adds a node.
pub fn push_node_record(text: &mut Vec<u8>, id: NodeId, coord: Coord) -> Result<(), AllocError>
    requires { IsTrue (is_recordable_coord coord) }
    ensures { OnOk result (text.new.items ≡ text.old.items ++ record_line (On_map (Add_node id coord))) }
{
    text.extend_from_slice(b"node")?;
    push_number(text, id.number())?;
    push_coord(text, coord)?;
    text.extend_from_slice(b"\n")
}

/// Appends the record that adds a line.
pub fn push_line_record(text: &mut Vec<u8>, id: LineId, line: &Line) -> Result<(), AllocError>
    requires { IsTrue (is_recordable_shape line.now.shape) }
    ensures { OnOk result (text.new.items ≡ text.old.items ++ record_line (On_map (Add_line id line.now))) }
{
    text.extend_from_slice(b"line")?;
    push_number(text, id.number())?;
    push_number(text, line.from.number())?;
    push_number(text, line.to.number())?;
    push_attributes(text, line)?;
    text.extend_from_slice(b"\n")
}

/// Appends the attributes of a line and its shape points.
#[tactic(auto, using(crate::proofs::RecordLemmas::commas_three))]
fn push_attributes(text: &mut Vec<u8>, line: &Line) -> Result<(), AllocError>
    requires { IsTrue (is_recordable_shape line.now.shape) }
    ensures { OnOk result (text.new.items ≡ text.old.items
        ++ after_commas (fields_of_attributes line.now.frc line.now.fow line.now.len line.now.shape)) }
{
    push_number(text, line.frc)?;
    push_number(text, line.fow)?;
    push_number(text, line.len)?;
    push_shape(text, &line.shape)
}

/// Appends the record that adds a path.
#[tactic(auto, using(crate::proofs::RecordLemmas::line_of_three))]
pub fn push_path_record(text: &mut Vec<u8>, name: &[u8], path: &Path) -> Result<(), AllocError>
    ensures { OnOk result (text.new.items ≡ text.old.items ++ record_line (Add_path name.now path.now)) }
{
    text.extend_from_slice(b"path")?;
    push_field(text, name)?;
    push_number(text, path.pos())?;
    push_number(text, path.neg())?;
    push_lines(text, path.lines())?;
    text.extend_from_slice(b"\n")
}

/// Appends the record that sets the margin.
#[tactic(auto, using(crate::proofs::RecordLemmas::line_of_two))]
pub fn push_margin_record(text: &mut Vec<u8>, margin: Margin) -> Result<(), AllocError>
    ensures { OnOk result (text.new.items ≡ text.old.items ++ record_line (Set_margin margin)) }
{
    text.extend_from_slice(b"margin")?;
    push_number(text, margin.routes())?;
    push_number(text, margin.classes())?;
    text.extend_from_slice(b"\n")
}

/// Appends a comma and a longitude or a latitude in degrees.
#[tactic(auto, using(std::proofs::lemmas::List::append_assoc))]
fn push_units(text: &mut Vec<u8>, units: i64) -> Result<(), AllocError>
    requires { IsTrue (has_degrees_text units) }
    ensures { OnOk result (text.new.items ≡ text.old.items ++ 44 ∷ degrees_text units) }
{
    text.push(b',')?;
    push_degrees(text, units)
}

/// Appends the longitude and the latitude of a coordinate.
fn push_coord(text: &mut Vec<u8>, coord: Coord) -> Result<(), AllocError>
    requires { IsTrue (is_recordable_coord coord) }
    ensures { OnOk result (text.new.items ≡ text.old.items ++ after_commas (fields_of_coord coord)) }
{
    push_units(text, coord.lon())?;
    push_units(text, coord.lat())
}

/// Appends the distance and the coordinate of each shape point.
#[tactic(auto, using(std::proofs::lemmas::Grind::common_steps))]
fn push_shape(text: &mut Vec<u8>, shape: &[Shape]) -> Result<(), AllocError>
    requires { IsTrue (is_recordable_shape shape.now) }
    ensures { OnOk result (text.new.items ≡ text.old.items ++ after_commas (fields_of_shape shape.now)) }
{
    for point in shape {
        push_number(text, point.at)?;
        push_coord(text, point.place)?;
    }
    Ok(())
}

/// Appends the number of each line.
#[tactic(auto, using(crate::proofs::RecordLemmas::numbers_more))]
fn push_lines(text: &mut Vec<u8>, lines: &[LineId]) -> Result<(), AllocError>
    ensures { OnOk result (text.new.items ≡ text.old.items ++ after_commas (map decimal lines.now)) }
{
    for line in lines {
        push_number(text, line.number())?;
    }
    Ok(())
}
