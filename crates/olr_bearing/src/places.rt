//! Coordinates along a line.
ghost use Rattle.std.specs.Prelude.{◌≡◌, ◌<◌, ◌≤◌, IsTrue, pos, ◌+ℤ◌, ◌-ℤ◌, ◌*ℤ◌};
ghost use Rattle.olr_spec.specs.Map.{is_good};
ghost use Rattle.olr_spec.specs.Bearings.{Scaled as Record, scaled_coord, scaled_between};
ghost use Rattle.olr_bearing.specs.Ranges.{IsInRange};
ghost use Rattle.olr_bearing.specs.Legs.{leg_between};

use olr_coords::Coord;
use olr_model::{Line, Shape};
use std::marker::Model;

/// The coordinates of a line's two ends.
#[derive(Clone, Copy)]
pub struct Ends {
    /// Where the line starts.
    pub from: Coord,
    /// Where it ends.
    pub to: Coord,
}

/// A coordinate times a width, so that a coordinate between two shape points is whole.
#[derive(Clone, Copy)]
pub struct Scaled {
    /// The longitude in units of 1/327,680,000,000 degree, times the width.
    pub lon: i128,
    /// The latitude in the same units, times the width.
    pub lat: i128,
    /// The width of the interval between the two shape points, in decimetres.
    pub width: u32,
}

impl Model for Scaled {
    ghost Value = { Record };

    ghost view = { λ s. record { lon = s.lon; lat = s.lat; width = s.width } };

    ghost inverse = { λ s. record { lon = s.lon; lat = s.lat; width = s.width } };
}

/// The coordinate `at` decimetres along a good line, at most the line's length. Between neighbouring shape points the
/// line is straight. At a shape point the interval is the one that ends there.
pub fn place(line: &Line, ends: Ends, at: u32) -> Scaled
    requires good { IsTrue (is_good line.now) }
    requires on_line { at ≤ line.now.len }
    ensures value { result ≡ scaled_coord (leg_between line.now ends) at }
    ensures positive { 0 < result.width }
    ensures short { result.width ≤ line.now.len }
    ensures in_range { IsInRange result }
{
    let mut from = Shape {
        at: 0,
        place: ends.from,
    };
    for to in &line.shape {
        if at <= to.at {
            return place_between(from, *to, at);
        }
        from = *to;
    }
    let end = Shape {
        at: line.len,
        place: ends.to,
    };
    place_between(from, end, at)
}

/// The coordinate `at` decimetres along a line, on the straight line between two neighbouring shape points.
fn place_between(from: Shape, to: Shape, at: u32) -> Scaled
    requires wide { from.at < to.at }
    requires low { from.at ≤ at }
    requires high { at ≤ to.at }
    ensures value { result ≡ scaled_between from to at }
    ensures in_range { IsInRange result }
{
    let width = to.at - from.at;
    let done = at - from.at;
    Scaled {
        lon: along(from.place.lon(), to.place.lon(), done, width),
        lat: along(from.place.lat(), to.place.lat(), done, width),
        width,
    }
}

/// The longitude or latitude at `done` of `width` decimetres from `from` to `to`, times `width`.
fn along(from: i64, to: i64, done: u32, width: u32) -> i128
    ensures { result ≡ pos width *ℤ from +ℤ pos done *ℤ (to -ℤ from) }
{
    let from = i128::from(from);
    let to = i128::from(to);
    let done = i128::from(done);
    i128::from(width) * from + done * (to - from)
}
