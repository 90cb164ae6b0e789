//! The bearings at a line's two ends.
ghost use Rattle.std.specs.Prelude.{◌≡◌, ◌*◌, ◌<◌, ◌≤◌, pos, ◌+ℤ◌, ◌-ℤ◌, ◌*ℤ◌, IsTrue};
ghost use Rattle.olr_spec.specs.Map.{is_good};
ghost use Rattle.olr_spec.specs.Bearings.{bearing_back, bearing_out, direction, direction_back, direction_out, sector};
ghost use Rattle.olr_spec.specs.Bearings.{Vector, thousandths};
ghost use Rattle.olr_bearing.specs.Legs.{leg_between};
ghost use Rattle.olr_bearing.specs.Ranges.{HasParts, IsFactor, IsInRange, IsPart, IsWithin, degree_units};

use crate::places::{Ends, Scaled, place};
use crate::sectors::sector;
use olr_coords::Coord;
use olr_model::Line;
use std::marker::Model;

/// BEARDIST, the length of a line over which its bearing is taken, in decimetres.
const BEARING_DISTANCE: u32 = 200;
/// A thousandth of a degree, in units.
const THOUSANDTH: i64 = 327_680_000;

/// A direction, by its parts to the east and to the north, which are at most 10^31 either way.
#[derive(Clone, Copy)]
pub struct Direction {
    /// The part to the east; less than 0 to the west.
    pub east: i128,
    /// The part to the north; less than 0 to the south.
    pub north: i128,
}

impl Model for Direction {
    ghost Value = { Vector };

    ghost view = { λ v. record { east = v.east; north = v.north } };

    ghost inverse = { λ v. record { east = v.east; north = v.north } };
}

/// The direction of a good line at its start: from there to the coordinate 200 dm along it, or to its end if it is
/// shorter (White Paper, bearing attribute).
pub fn direction_out(line: &Line, ends: Ends) -> Direction
    requires { IsTrue (is_good line.now) }
    ensures value { result ≡ direction_out (leg_between line.now ends) }
    ensures in_range { HasParts result }
{
    let at = BEARING_DISTANCE.min(line.len);
    direction_to(ends.from, place(line, ends, at))
}

/// The direction of a good line at its end, backwards: from there to the coordinate 200 dm before it, or to its start if
/// it is shorter (White Paper, bearing attribute).
pub fn direction_back(line: &Line, ends: Ends) -> Direction
    requires { IsTrue (is_good line.now) }
    ensures value { result ≡ direction_back (leg_between line.now ends) }
    ensures in_range { HasParts result }
{
    let at = line.len.saturating_sub(BEARING_DISTANCE);
    direction_to(ends.to, place(line, ends, at))
}

/// The bearing at a location reference point (LRP) that a good line leaves: the sector, 0 to 31, of its direction there
/// (White Paper, bearing attribute).
pub fn bearing_out(line: &Line, ends: Ends) -> u8
    requires { IsTrue (is_good line.now) }
    ensures value { result ≡ bearing_out (leg_between line.now ends) }
    ensures below { result < 32 }
{
    sector_of(direction_out(line, ends))
}

/// The bearing at the last LRP, which a good line enters: the sector, 0 to 31, of its direction there, backwards (White
/// Paper, bearing attribute).
pub fn bearing_back(line: &Line, ends: Ends) -> u8
    requires { IsTrue (is_good line.now) }
    ensures value { result ≡ bearing_back (leg_between line.now ends) }
    ensures below { result < 32 }
{
    sector_of(direction_back(line, ends))
}

/// The sector of a direction, 0 to 31.
fn sector_of(direction: Direction) -> u8
    requires { HasParts direction }
    ensures value { result ≡ sector direction.east direction.north }
    ensures below { result < 32 }
{
    sector(direction.east, direction.north)
}

/// The direction from `origin` to `place`. The part to the east is multiplied by the cosine of the origin's latitude.
fn direction_to(origin: Coord, place: Scaled) -> Direction
    requires short { place.width ≤ 1000000 }
    requires in_range { IsInRange place }
    ensures value { result ≡ direction origin place }
    ensures in_range { HasParts result }
{
    let Scaled { lon, lat, width } = place;
    let (numerator, denominator) = cosine_at(origin);
    let east = part(numerator, lon, width, origin.lon());
    let north = part(denominator, lat, width, origin.lat());
    Direction { east, north }
}

/// A part of a direction: a coordinate scaled by `width`, minus `width` times `origin`, times a factor of the cosine.
fn part(factor: i128, scaled: i128, width: u32, origin: i64) -> i128
    requires factor { IsFactor factor }
    requires short { width ≤ 1000000 }
    requires place { IsWithin (width * degree_units 180) scaled }
    requires origin { IsWithin (degree_units 180) origin }
    ensures value { result ≡ factor *ℤ (scaled -ℤ pos width *ℤ origin) }
    ensures in_range { IsPart result }
{
    factor * (scaled - i128::from(width) * i128::from(origin))
}

/// The numerator and the denominator of the cosine of a coordinate's latitude, which is greater than 0, approximated
/// (profile): for `x` degrees Bhaskara's `4 (8100 - x^2) / (32400 + x^2)`, with `x` in whole thousandths, rounded toward
/// zero.
fn cosine_at(place: Coord) -> (i128, i128)
    ensures numerator { let m = thousandths place.lat in result.0 ≡ pos 4 *ℤ (pos 8100000000 -ℤ m *ℤ m) }
    ensures denominator { let m = thousandths place.lat in result.1 ≡ pos 32400000000 +ℤ m *ℤ m }
    ensures in_range { IsFactor result.0 × IsFactor result.1 }
{
    let thousandths = i128::from(place.lat() / THOUSANDTH);
    let square = thousandths * thousandths;
    (4 * (8_100_000_000 - square), 32_400_000_000 + square)
}
