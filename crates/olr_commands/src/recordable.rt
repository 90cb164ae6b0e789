//! What records can encode.
ghost use Rattle.std.specs.Prelude.{◌≡◌};
ghost use Rattle.std.specs.List.{list_all};
ghost use Rattle.olr_commands.specs.Recordable as recordable;

use olr_coords::{Coord, has_degrees_text};
use olr_model::Line;

/// The greatest length of a name in a record, in bytes.
const LONGEST_NAME: usize = 64;

/// Whether a record can have this name: 1 to 64 ASCII letters, digits, `-`, `_` and `.`.
pub fn is_name(field: &[u8]) -> bool
    ensures { result ≡ recordable.is_name field.now }
{
    !field.is_empty() && field.len() <= LONGEST_NAME && has_only_name_bytes(field)
}

/// Whether each byte is allowed in a name.
fn has_only_name_bytes(field: &[u8]) -> bool
    ensures { result ≡ list_all recordable.is_name_byte field.now }
{
    field.iter().all(|byte| is_name_byte(*byte))
}

/// Whether a byte is allowed in a name.
fn is_name_byte(byte: u8) -> bool
    ensures { result ≡ recordable.is_name_byte byte }
{
    byte.is_ascii_alphanumeric() || byte == b'-' || byte == b'_' || byte == b'.'
}

/// Whether a record can have this coordinate: its longitude and its latitude are whole numbers of 10^-7 degrees.
pub fn is_recordable_coord(coord: Coord) -> bool
    ensures { result ≡ recordable.is_recordable_coord coord }
{
    has_degrees_text(coord.lon()) && has_degrees_text(coord.lat())
}

/// Whether a record can have each shape point of this line.
pub fn is_recordable_line(line: &Line) -> bool
    ensures { result ≡ recordable.is_recordable_shape line.now.shape }
{
    line.shape
        .iter()
        .all(|point| is_recordable_coord(point.place))
}
