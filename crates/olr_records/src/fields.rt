//! The fields of a record, each checked for its form and then for its range.
ghost use Rattle.std.specs.Prelude.{◌≡◌, ◌≤◌, ◌^◌, [], IsTrue, IfOk, IfSome, is_some, length, min, slice_index_or};
ghost use Rattle.std.specs.Prelude.{◌∷◌, ◌≢◌, drop, string_bytes, IfErr, OnErr, Some, ⊤};
ghost use Rattle.csv.specs.Records.{fields_of};
ghost use Rattle.olr_spec.specs.Degrees.{are_digits, digits_value};
ghost use Rattle.olr_spec.specs.Degrees as text_of;
ghost use Rattle.olr_records.specs.Records as records;
ghost use Rattle.olr_records.specs.Words.{Gathers, Reads};
ghost use Rattle.olr_records.specs.declared.faults.ReadFault.TheVariants.{Syntax};

use crate::faults::ReadFault;
use crate::parts::both;
use csv::ByteRecord;
use olr_commands::is_name;
use olr_coords::{Coord, CoordFault, read_degrees, read_digits};
use olr_input::field;
use olr_model::{LineId, NodeId, Shape};
use std::alloc::Global;

/// The greatest functional road class (FRC), and the greatest form of way (FOW).
const GREATEST_CLASS: u32 = 7;
/// The greatest distance of a shape point from the start of the line, in decimetres.
const GREATEST_DISTANCE: u32 = 999_999;
/// 2^32, which is more than any number of 32 bits.
const TOO_GREAT: u64 = 1 << 32;
/// A number of digits whose value fits 64 bits.
const FEW_DIGITS: usize = 18;

/// The only field after the first.
pub(crate) fn only_field(fields: &ByteRecord) -> Result<&[u8], ReadFault>
    ensures ok { IfOk result (λ field. drop 1 (fields_of fields.now) ≡ field.now ∷ []) }
    ensures err { IfErr result (λ fault. (fault ≡ Syntax) × (length (fields_of fields.now) ≢ 2)) }
{
    if fields.len() != 2 {
        return Err(ReadFault::Syntax);
    }
    Ok(field(fields, 1))
}

/// The value of one or more digits, or 2^32 instead of a greater value. None if there are no digits, or another byte.
fn value(field: &[u8]) -> Option<u64>
    ensures form { is_some result ≡ are_digits field.now }
    ensures same { IfSome result (λ n. n ≡ min (digits_value field.now) (2 ^ 32)) }
{
    if field.len() <= FEW_DIGITS {
        return read_digits(field, FEW_DIGITS).map(|value| TOO_GREAT.min(value));
    }
    let mut value: u64 = 0;
    for byte in field {
        if !byte.is_ascii_digit() {
            return None;
        }
        value = TOO_GREAT.min(10 * value + u64::from(*byte - b'0'));
    }
    Some(value)
}

/// One or more digits with a value from `low` to `high`. Leading zeros are accepted.
pub(crate) fn number(field: &[u8], low: u32, high: u32) -> Result<u32, ReadFault>
    ensures reads { Reads (λ n. n) (records.digits low high field.now) result }
    ensures within { IfOk result (λ n. (low ≤ n) × (n ≤ high)) }
{
    let value = value(field).ok_or(ReadFault::Syntax)?;
    if u64::from(low) <= value && value <= u64::from(high) {
        Ok(value as u32)
    } else {
        Err(ReadFault::Range)
    }
}

/// The number of a node.
pub(crate) fn node_id(field: &[u8]) -> Result<NodeId, ReadFault>
    ensures { Reads (λ n. n) (records.number field.now) result }
{
    NodeId::new(number(field, 1, u32::MAX)?).ok_or(ReadFault::Range)
}

/// The number of a line.
pub(crate) fn line_id(field: &[u8]) -> Result<LineId, ReadFault>
    ensures { Reads (λ n. n) (records.number field.now) result }
{
    LineId::new(number(field, 1, u32::MAX)?).ok_or(ReadFault::Range)
}

/// An offset in decimetres, or a count: any number of 32 bits.
pub(crate) fn amount(field: &[u8]) -> Result<u32, ReadFault>
    ensures { Reads (λ n. n) (records.amount field.now) result }
{
    number(field, 0, u32::MAX)
}

/// A functional road class or a form of way, from 0 to 7.
pub(crate) fn class(field: &[u8]) -> Result<u8, ReadFault>
    ensures { Reads (λ n. n) (records.class field.now) result }
{
    Ok(number(field, 0, GREATEST_CLASS)? as u8)
}

/// Degrees in units, from -180 to 180 degrees. The ranges of longitudes and of latitudes are narrower.
fn degrees(field: &[u8]) -> Result<i64, ReadFault>
    ensures ok { IfOk result (λ z. text_of.degrees field.now ≡ Some z) }
    ensures lon { OnErr result (Reads (λ z. z) (records.longitude field.now) result) }
    ensures lat { OnErr result (Reads (λ z. z) (records.latitude field.now) result) }
{
    match read_degrees(field) {
        Ok(units) => Ok(units),
        Err(CoordFault::Text) => Err(ReadFault::Syntax),
        Err(CoordFault::Range) => Err(ReadFault::Range),
    }
}

/// A coordinate, by its longitude and its latitude.
pub(crate) fn coord(lon: &[u8], lat: &[u8]) -> Result<Coord, ReadFault>
    ensures { Reads (λ c. c) (records.place lon.now lat.now) result }
{
    let (lon, lat) = both(degrees(lon), degrees(lat))?;
    Coord::new(lon, lat).ok_or(ReadFault::Range)
}

/// A shape point of a line, with its distance from the start of the line, from 1 to 999,999 dm.
pub(crate) fn shape_point(at: &[u8], lon: &[u8], lat: &[u8]) -> Result<Shape, ReadFault>
    ensures { Reads (λ p. p) (records.point at.now lon.now lat.now) result }
{
    let (at, place) = both(number(at, 1, GREATEST_DISTANCE), coord(lon, lat))?;
    Ok(Shape { at, place })
}

/// The name of a path: 1 to 64 ASCII letters, digits, `-`, `_` and `.`.
#[tactic(auto, using(crate::proofs::FieldLemmas::name_text))]
pub(crate) fn name(alloc: Global, field: &[u8]) -> Result<String, ReadFault>
    ensures { Gathers (λ _. ⊤) string_bytes (records.name field.now) result }
{
    if !is_name(field) {
        return Err(ReadFault::Syntax);
    }
    // The bytes of a name are ASCII.
    let text = unsafe { std::str::from_utf8_unchecked(field) };
    String::from_str(alloc, text).or(Err(ReadFault::Memory))
}
