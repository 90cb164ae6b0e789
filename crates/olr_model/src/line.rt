//! Lines of the road map and their shapes.
ghost use Rattle.std.specs.Prelude.{◌≡◌, IsTrue};
ghost use Rattle.std.specs.Bool.{OnTrue};
ghost use Rattle.olr_spec.specs.Map.{Line as Record, ShapePoint, is_good, are_coords, ascends_between};

use crate::ids::NodeId;
use olr_coords::Coord;
use std::marker::Model;

/// The greatest functional road class, and the greatest form of way.
pub const GREATEST_CLASS: u8 = 7;
/// The greatest length of a line, in decimetres.
pub const GREATEST_LEN: u32 = 1_000_000;
/// The greatest number of shape points of a line.
pub const MOST_SHAPE_POINTS: usize = 1000;

/// A shape point: a coordinate of a line between its two ends.
#[derive(Clone, Copy, PartialEq, Eq)]
pub struct Shape {
    /// The distance from the start of the line, along the line, in decimetres.
    pub at: u32,
    /// Its coordinate.
    pub place: Coord,
}

impl Model for Shape {
    ghost Value = { ShapePoint };

    ghost view = { λ s. record { at = s.at; place = s.place } };

    ghost inverse = { λ p. record { at = p.at; place = p.place } };
}

/// A directed line from a node to a node. A road that is used both ways is two lines.
#[derive(Drop)]
pub struct Line {
    /// The node where the line begins.
    pub from: NodeId,
    /// The node where it ends.
    pub to: NodeId,
    /// The functional road class; 0 is the most important.
    pub frc: u8,
    /// The form of way.
    pub fow: u8,
    /// The length, in decimetres.
    pub len: u32,
    /// The shape points between the two ends, in order.
    pub shape: Vec<Shape>,
}

impl Model for Line {
    ghost Value = { Record };

    ghost view = { λ l. record {
      from = l.from;
      to = l.to;
      frc = l.frc;
      fow = l.fow;
      len = l.len;
      shape = l.shape.items;
    } };
}

impl Line {
    /// Whether both classes are at most 7, the length is 1 to 1,000,000 dm, and there are at most 1,000 shape points,
    /// whose distances are strictly increasing and strictly between 0 and the length.
    pub fn is_good(&self) -> bool
        ensures good { result ≡ is_good self.now }
        ensures placed { OnTrue result (IsTrue (are_coords self.now.shape)) }
    {
        has_good_fields(self.frc, self.fow, self.len, &self.shape)
    }
}

/// Whether a line with these fields is good, see `Line::is_good`. `len` is in decimetres.
pub fn has_good_fields(frc: u8, fow: u8, len: u32, shape: &[Shape]) -> bool
    ensures good { result
        ≡ is_good (record { from = 0; to = 0; frc = frc; fow = fow; len = len; shape = shape.now }) }
    ensures placed { OnTrue result (IsTrue (are_coords shape.now)) }
{
    frc <= GREATEST_CLASS
        && fow <= GREATEST_CLASS
        && len >= 1
        && len <= GREATEST_LEN
        && shape.len() <= MOST_SHAPE_POINTS
        && is_ascending(shape, len)
}

/// Whether the distances are strictly increasing and strictly between 0 and `len`.
#[tactic(auto, using(std::proofs::lemmas::Grind::common_steps))]
fn is_ascending(shape: &[Shape], len: u32) -> bool
    ensures ascends { result ≡ ascends_between 0 shape.now len }
    ensures placed { OnTrue result (IsTrue (are_coords shape.now)) }
{
    let mut low = 0;
    for point in shape {
        if point.at <= low || point.at >= len {
            return false;
        }
        // Only for the proof: the coordinate is in range, as every `Coord` is.
        let _latitude = point.place.lat();
        low = point.at;
    }
    true
}
