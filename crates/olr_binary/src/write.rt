//! Encoding in version 3.
ghost use Rattle.std.specs.Prelude.{◌≡◌, ◌∷◌, ◌++◌, IfOk, OnOk};
ghost use Rattle.std.specs.List.{AllByRecursion, flat_map};
ghost use Rattle.olr_spec.specs.Bytes.{IsFirst, IsMiddle, IsLast, AreAttrs, HasBytes, attr_bytes, first_bytes};
ghost use Rattle.olr_spec.specs.Bytes.{middle_bytes, last_bytes, offset_bytes, status_byte};

use crate::bits::{attribute1, attribute4, signed24};
use crate::fields::{Attrs, First, Last, Middle, Reference};
use std::alloc::{AllocError, Global};

/// The status byte: version 3, with attributes.
pub(crate) const STATUS: u8 = 0x0b;
/// The number of bytes of a reference with two LRPs and two offsets.
const TWO_POINTS: usize = 18;
/// The number of bytes of an LRP between the first and the last.
pub(crate) const POINT: usize = 7;

/// Attribute byte 1; attribute byte 2, with the lowest FRC to the next point (LFRCNP) in bits 7 to 5 and the bearing in
/// bits 4 to 0; and the distance to the next point (DNP).
fn attr_bytes(attrs: Attrs) -> [u8; 3]
    requires { AreAttrs attrs }
    ensures { result ≡ attr_bytes attrs }
{
    [
        attribute1(attrs.frc, attrs.fow),
        (attrs.lfrc << 5) | attrs.bearing,
        attrs.dnp,
    ]
}

/// The status byte and the bytes of the first LRP.
fn start_bytes(point: First) -> [u8; 10]
    requires { IsFirst point }
    ensures { result ≡ status_byte ∷ first_bytes point }
{
    let [lon_high, lon_middle, lon_low] = signed24(point.lon);
    let [lat_high, lat_middle, lat_low] = signed24(point.lat);
    let [one, two, dnp] = attr_bytes(point.attrs);
    [
        STATUS, lon_high, lon_middle, lon_low, lat_high, lat_middle, lat_low, one, two, dnp,
    ]
}

/// The bytes of an LRP between the first and the last.
fn middle_bytes(point: Middle) -> [u8; 7]
    requires { IsMiddle point }
    ensures { result ≡ middle_bytes point }
{
    let [lon_high, lon_low] = point.dlon.to_be_bytes();
    let [lat_high, lat_low] = point.dlat.to_be_bytes();
    let [one, two, dnp] = attr_bytes(point.attrs);
    [lon_high, lon_low, lat_high, lat_low, one, two, dnp]
}

/// The bytes of the last LRP, without the offset bytes.
fn last_bytes(point: Last, pos: Option<u8>, neg: Option<u8>) -> [u8; 6]
    requires { IsLast point }
    ensures { result ++ offset_bytes pos ++ offset_bytes neg ≡ last_bytes point pos neg }
{
    let [lon_high, lon_low] = point.dlon.to_be_bytes();
    let [lat_high, lat_low] = point.dlat.to_be_bytes();
    let one = attribute1(point.frc, point.fow);
    let four = attribute4(pos, neg, point.bearing);
    [lon_high, lon_low, lat_high, lat_low, one, four]
}

/// Appends the offset byte, if there is an offset.
fn push_offset(bytes: &mut Vec<u8>, offset: Option<u8>) -> Result<(), AllocError>
    ensures { OnOk result (bytes.new.items ≡ bytes.old.items ++ offset_bytes offset) }
{
    if let Some(byte) = offset {
        bytes.push(byte)?;
    }
    Ok(())
}

/// Appends the LRPs between the first and the last.
#[tactic(auto, using(std::proofs::lemmas::Grind::common_steps))]
fn push_middle(bytes: &mut Vec<u8>, points: &[Middle]) -> Result<(), AllocError>
    requires { AllByRecursion IsMiddle points.now }
    ensures { OnOk result (bytes.new.items ≡ bytes.old.items ++ flat_map middle_bytes points.now) }
{
    for point in points {
        bytes.extend_from_slice(&middle_bytes(*point))?;
    }
    Ok(())
}

/// The bytes that a reference encodes as in version 3, for any number of LRPs. Each reference has exactly one encoding.
/// Fails if an allocation fails.
pub fn write_v3(alloc: Global, reference: &Reference) -> Result<Vec<u8>, AllocError>
    ensures { IfOk result (λ bytes. HasBytes reference.now bytes.items) }
{
    let points = reference.middle.as_slice();
    let mut bytes = Vec::with_capacity(alloc, TWO_POINTS + POINT * points.len())?;
    bytes.extend_from_slice(&start_bytes(reference.first))?;
    push_middle(&mut bytes, points)?;
    bytes.extend_from_slice(&last_bytes(reference.last, reference.pos, reference.neg))?;
    push_offset(&mut bytes, reference.pos)?;
    push_offset(&mut bytes, reference.neg)?;
    Ok(bytes)
}
