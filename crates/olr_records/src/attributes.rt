//! The fields of a line.
ghost use Rattle.std.specs.Prelude.{ℕ, ◌+◌, ◌<◌, ◌≤◌, [], drop, length, slice_index_or};
ghost use Rattle.csv.specs.Records.{fields_of};
ghost use Rattle.olr_records.specs.Records as records;
ghost use Rattle.olr_records.specs.Records.{Field};
ghost use Rattle.olr_records.specs.Words.{Gathers};

use crate::faults::ReadFault;
use crate::fields::{class, number, shape_point};
use crate::parts::{both, room, with_item};
use csv::ByteRecord;
use olr_input::field;
use olr_model::Shape;
use std::alloc::Global;

/// The greatest length of a line, in decimetres.
const GREATEST_LENGTH: u32 = 1_000_000;

/// The attributes of a line in a record: all but its number and its ends.
#[derive(Drop)]
pub(crate) struct LineAttributes {
    /// The functional road class.
    pub frc: u8,
    /// The form of way.
    pub fow: u8,
    /// The length, in decimetres.
    pub len: u32,
    /// The shape points between the two ends, in order.
    pub shape: Vec<Shape>,
}

/// The attributes of a line, from the field at index `k` on. Inlined, so that they are put straight into the line.
#[inline(always)]
pub(crate) fn attributes_at(
    alloc: Global,
    fields: &ByteRecord,
    k: usize,
) -> Result<LineAttributes, ReadFault>
    requires near { k ≤ 4 }
    requires within { k + 3 ≤ length (fields_of fields.now) }
    ensures { let f : ℕ → Field = λ n. slice_index_or (fields_of fields.now) n [] in
        Gathers (λ p. 0 < length p.3) (λ c. (c.frc, c.fow, c.len, c.shape.items))
        (records.attributes (f k) (f (k + 1)) (f (k + 2)) (drop (k + 3) (fields_of fields.now)))
        result }
{
    let classes = both(class(field(fields, k)), class(field(fields, k + 1)));
    let len = number(field(fields, k + 2), 1, GREATEST_LENGTH);
    let measured = both(classes, len);
    let (((frc, fow), len), shape) = both(measured, shape(alloc, fields, k + 3))?;
    Ok(LineAttributes {
        frc,
        fow,
        len,
        shape,
    })
}

/// The shape points from the field at index `start` on, three fields each.
fn shape(alloc: Global, fields: &ByteRecord, start: usize) -> Result<Vec<Shape>, ReadFault>
    requires { start ≤ length (fields_of fields.now) }
    ensures { Gathers (λ ps. 0 < length ps) (λ v. v.items)
        (records.shape (drop start (fields_of fields.now))) result }
{
    if fields.len() == start {
        return Ok(Vec::new(alloc));
    }
    let mut points = room(alloc, (fields.len() - start) / 3);
    let mut k = start;
    while fields.len() - k >= 3 {
        let point = shape_point(field(fields, k), field(fields, k + 1), field(fields, k + 2));
        points = with_item(points, point);
        k += 3;
    }
    if k < fields.len() {
        return Err(ReadFault::Syntax);
    }
    points
}
