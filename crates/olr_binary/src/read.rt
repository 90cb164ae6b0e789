//! Decoding version 3.
ghost use Rattle.std.specs.Prelude.{◌≡◌, ◌+◌, ◌*◌, ◌<◌, ◌≤◌, [], ◌∷◌, ◌++◌, length, slice_index, slice_range, IsSome};
ghost use Rattle.std.specs.Prelude.{IfOk, IfErr, OnOk};
ghost use Rattle.std.specs.List.{AllByRecursion, flat_map};
ghost use Rattle.olr_spec.specs.Reference.{Reference as Fields};
ghost use Rattle.olr_spec.specs.Bytes.{AreAttrs, IsFirst, IsMiddle, IsLast, HasBytes, attr_bytes, bit};
ghost use Rattle.olr_spec.specs.Bytes.{first_bytes, flag, has_reserved, last_bytes, middle_bytes, offset_bytes, v3_fault};
ghost use Rattle.olr_binary.specs.Faults.{bytes_fault_of};
ghost use Rattle.olr_binary.specs.Layout.{IsLayout};

use crate::bits::{NEGATIVE, POSITIVE, has_flag, read_attribute1, read_signed16, read_signed24};
use crate::faults::V3Fault;
use crate::fields::{Attrs, First, Last, Middle, Reference};
use crate::write::{POINT, STATUS};
use std::alloc::{AllocError, Global};

/// The number of bytes of a reference with two LRPs and no offset.
const LEAST: usize = 16;
/// The index of the first LRP.
const FIRST: usize = 1;
/// The index of the LRP after it.
const MIDDLE: usize = 10;
/// The number of bytes of the last LRP, without the offset bytes.
const LAST: usize = 6;
/// The index of attribute byte 1 of the first LRP. That of each later LRP is `POINT` bytes later.
const ATTRIBUTE_1: usize = 7;
/// Attribute byte 1 is less than this if its reserved bits are 0.
const ATTRIBUTE_1_END: u8 = 1 << 6;
/// Attribute byte 4 is less than this if its reserved bit is 0.
const ATTRIBUTE_4_END: u8 = 1 << 7;

/// Attributes, from their three bytes.
fn read_attrs(one: u8, two: u8, dnp: u8) -> Attrs
    requires { one < 64 }
    ensures encoded { attr_bytes result ≡ one ∷ two ∷ dnp ∷ [] }
    ensures fits { AreAttrs result }
{
    let (frc, fow) = read_attribute1(one);
    Attrs {
        frc,
        fow,
        lfrc: two >> 5,
        bearing: two & 0b1_1111,
        dnp,
    }
}

/// So many bytes, from an index on.
fn bytes_at<const N: usize>(bytes: &[u8], at: usize) -> [u8; N]
    requires { at + N ≤ length bytes.now }
    ensures { result ≡ slice_range bytes.now at (at + N) }
{
    let mut part = [0; N];
    part.copy_from_slice(&bytes[at..at + N]);
    part
}

/// The first LRP, from its nine bytes.
fn read_first(bytes: [u8; 9]) -> First
    requires reserved { slice_index bytes 6 < 64 }
    ensures encoded { first_bytes result ≡ bytes }
    ensures fits { IsFirst result }
{
    First {
        lon: read_signed24([bytes[0], bytes[1], bytes[2]]),
        lat: read_signed24([bytes[3], bytes[4], bytes[5]]),
        attrs: read_attrs(bytes[6], bytes[7], bytes[8]),
    }
}

/// An LRP between the first and the last, from its seven bytes.
fn read_middle(bytes: [u8; POINT]) -> Middle
    requires reserved { slice_index bytes 4 < 64 }
    ensures encoded { middle_bytes result ≡ bytes }
    ensures fits { IsMiddle result }
{
    Middle {
        dlon: read_signed16([bytes[0], bytes[1]]),
        dlat: read_signed16([bytes[2], bytes[3]]),
        attrs: read_attrs(bytes[4], bytes[5], bytes[6]),
    }
}

/// The offsets that attribute byte 4 flags, from their bytes.
fn read_offsets(four: u8, bytes: &[u8]) -> (Option<u8>, Option<u8>)
    requires { length bytes.now ≡ bit 6 four + bit 5 four }
    ensures encoded { offset_bytes result.0 ++ offset_bytes result.1 ≡ bytes.now }
    ensures positive { flag result.0 ≡ bit 6 four }
    ensures negative { flag result.1 ≡ bit 5 four }
{
    let pos = has_flag(four, POSITIVE).then(|| bytes[0]);
    let neg = has_flag(four, NEGATIVE).then(|| bytes[bytes.len() - 1]);
    (pos, neg)
}

/// The last LRP and the offsets, from the six bytes of the LRP and the offset bytes.
#[tactic(auto, using(std::proofs::lemmas::Grind::common_steps))]
fn read_last(point: [u8; LAST], offsets: &[u8]) -> (Last, Option<u8>, Option<u8>)
    requires size { let four = slice_index point 5 in length offsets.now ≡ bit 6 four + bit 5 four }
    requires reserved_1 { slice_index point 4 < 64 }
    requires reserved_4 { slice_index point 5 < 128 }
    ensures encoded { last_bytes result.0 result.1 result.2 ≡ point ++ offsets.now }
    ensures fits { IsLast result.0 }
{
    let [lon_high, lon_low, lat_high, lat_low, one, four] = point;
    let (frc, fow) = read_attribute1(one);
    let (pos, neg) = read_offsets(four, offsets);
    let last = Last {
        dlon: read_signed16([lon_high, lon_low]),
        dlat: read_signed16([lat_high, lat_low]),
        frc,
        fow,
        bearing: four & 0b1_1111,
    };
    (last, pos, neg)
}

/// What bytes of a valid length hold.
#[derive(Clone, Copy)]
struct Layout {
    /// The number of LRPs between the first and the last.
    middle: usize,
    /// The number of offset bytes.
    offsets: usize,
}

/// Whether a reserved bit is set.
#[tactic(auto, using(crate::proofs::LayoutLemmas::some_reserved_more, crate::proofs::LayoutLemmas::some_reserved_none, crate::proofs::LayoutLemmas::has_reserved_is))]
fn has_reserved(bytes: &[u8], layout: Layout) -> bool
    requires { IsLayout bytes.now layout.middle layout.offsets }
    ensures { result ≡ has_reserved bytes.now }
{
    for i in 0..layout.middle + 2 {
        if bytes[ATTRIBUTE_1 + POINT * i] >= ATTRIBUTE_1_END {
            return true;
        }
    }
    bytes[bytes.len() - 1 - layout.offsets] >= ATTRIBUTE_4_END
}

/// The layout of bytes that decode to a reference, or else their first fault.
#[tactic(auto, using(crate::proofs::LayoutLemmas::extra_is))]
fn check(bytes: &[u8]) -> Result<Layout, V3Fault>
    ensures ok { IfOk result (λ l. IsLayout bytes.now l.middle l.offsets) }
    ensures sound { OnOk result (v3_fault bytes.now ≡ None) }
    ensures fault { IfErr result (λ fault. v3_fault bytes.now ≡ bytes_fault_of fault) }
    ensures no_memory { IfErr result (λ fault. IsSome (bytes_fault_of fault)) }
{
    let beyond = bytes.len().checked_sub(LEAST).ok_or(V3Fault::Length)?;
    let layout = Layout {
        middle: beyond / POINT,
        offsets: beyond % POINT,
    };
    if layout.offsets > 2 {
        return Err(V3Fault::Length);
    }
    if bytes[0] != STATUS {
        return Err(V3Fault::Status);
    }
    let four = bytes[bytes.len() - 1 - layout.offsets];
    let flags = usize::from(has_flag(four, POSITIVE)) + usize::from(has_flag(four, NEGATIVE));
    if flags != layout.offsets {
        return Err(V3Fault::Flags);
    }
    if has_reserved(bytes, layout) {
        return Err(V3Fault::Reserved);
    }
    Ok(layout)
}

/// The LRPs between the first and the last.
fn read_points(alloc: Global, bytes: &[u8], layout: Layout) -> Result<Vec<Middle>, AllocError>
    requires layout { IsLayout bytes.now layout.middle layout.offsets }
    requires sound { v3_fault bytes.now ≡ None }
    ensures encoded { IfOk result (λ v.
        flat_map middle_bytes v.items ≡ slice_range bytes.now 10 (10 + 7 * layout.middle)) }
    ensures fits { IfOk result (λ v. AllByRecursion IsMiddle v.items) }
{
    let mut points = Vec::with_capacity(alloc, layout.middle)?;
    for i in 0..layout.middle {
        points.push(read_middle(bytes_at(bytes, MIDDLE + POINT * i)))?;
    }
    Ok(points)
}

/// The reference that bytes in version 3 decode to, or else their first fault. `Memory`, for a failed allocation, is
/// returned only for bytes without a fault. All bytes without a fault are accepted, including those with coordinates
/// beyond the poles and with offset bytes of 0.
pub fn read_v3(alloc: Global, bytes: &[u8]) -> Result<Reference, V3Fault>
    ensures ok { IfOk result (λ r. HasBytes r bytes.now) }
    ensures fault { IfErr result (λ fault. v3_fault bytes.now ≡ bytes_fault_of fault) }
    ensures unspelled { IfErr result (λ fault.
        IsSome (bytes_fault_of fault) → (r : Fields) → ¬ HasBytes r bytes.now) }
{
    let layout = check(bytes)?;
    let middle = read_points(alloc, bytes, layout).map_err(|_| V3Fault::Memory)?;
    let first = read_first(bytes_at(bytes, FIRST));
    let place = MIDDLE + POINT * layout.middle;
    let (last, pos, neg) = read_last(bytes_at(bytes, place), &bytes[place + LAST..]);
    Ok(Reference {
        first,
        middle,
        last,
        pos,
        neg,
    })
}
