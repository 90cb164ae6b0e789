//! The coordinates of the LRPs of a reference, decoded from its fields.
ghost use Rattle.std.specs.Prelude.{◌≡◌, ◌+◌, ◌*◌, ◌^◌, ◌≤◌, ◌+ℤ◌, length, map, nat_abs, IfSome};
ghost use Rattle.olr_spec.specs.Coordinates.{from_abs24, from_rel16};
ghost use Rattle.olr_spec.specs.Bytes.{IsFirst};
ghost use Rattle.olr_spec.specs.Decoded.{decoded, steps_sum};

use crate::fields::{First, Middle, Reference};
use olr_coords::{from_abs24, from_rel16};

/// A coordinate, in units, plus relative steps.
fn after_steps(coordinate: i128, steps: i16) -> i128
    requires { nat_abs coordinate ≤ 2 ^ 120 }
    ensures value { result ≡ coordinate +ℤ from_rel16 steps }
    ensures bound { nat_abs result ≤ nat_abs coordinate + 2 ^ 37 }
{
    coordinate + i128::from(from_rel16(steps))
}

/// The longitude and the latitude, in units, of the first LRP plus the relative steps of the LRPs between.
fn way(first: First, points: &[Middle]) -> (i128, i128)
    requires { IsFirst first }
    ensures lon { result.0 ≡ from_abs24 first.lon +ℤ steps_sum (map (λ m. m.dlon) points.now) }
    ensures lat { result.1 ≡ from_abs24 first.lat +ℤ steps_sum (map (λ m. m.dlat) points.now) }
    ensures lon_bound { nat_abs result.0 ≤ 2 ^ 63 + length points.now * 2 ^ 37 }
    ensures lat_bound { nat_abs result.1 ≤ 2 ^ 63 + length points.now * 2 ^ 37 }
{
    let mut lon = i128::from(from_abs24(first.lon));
    let mut lat = i128::from(from_abs24(first.lat));
    for point in points {
        lon = after_steps(lon, point.dlon);
        lat = after_steps(lat, point.dlat);
    }
    (lon, lat)
}

/// The longitude and the latitude, in units, of LRP `k` of a reference, counted from 0: the first LRP by its 24-bit
/// steps, each later one by adding its relative steps (White Paper, binary format). None exactly after the last LRP.
#[tactic(auto, using(crate::proofs::PlaceLemmas::decoded_laws))]
pub fn decoded(reference: &Reference, k: usize) -> Option<(i128, i128)>
    ensures value { result ≡ decoded reference.now k }
    ensures bound { IfSome result (λ p. (nat_abs p.0 ≤ 2 ^ 102) × (nat_abs p.1 ≤ 2 ^ 102)) }
{
    let between = reference.middle.len();
    if k > between + 1 {
        return None;
    }
    let (lon, lat) = way(reference.first, &reference.middle[..k.min(between)]);
    if k <= between {
        return Some((lon, lat));
    }
    let last = reference.last;
    Some((after_steps(lon, last.dlon), after_steps(lat, last.dlat)))
}
