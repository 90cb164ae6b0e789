//! Sectors with a margin of a quarter of a sector on both sides.
ghost use Rattle.std.specs.Prelude.{◌≡◌, ◌<◌, slice_index_or};
ghost use Rattle.olr_spec.specs.Bearings.{beyond, quarter_turn, vector};
ghost use Rattle.olr_spec.specs.Directions.{first_after, first_before, is_beyond, is_direction};
ghost use Rattle.olr_bearing.specs.Ranges.{HasBoundaryParts, HasParts};
ghost use Rattle.olr_bearing.specs.Turned.{nowhere, turned};

use crate::bearings::Direction;

/// Whether a direction is one: (0, 0) is none, as of a line that leads back to its start.
pub fn is_direction(direction: Direction) -> bool
    ensures { result ≡ is_direction direction }
{
    direction.east != 0 || direction.north != 0
}

/// Whether a direction is neither in the sector, 0 to 31, nor in the margin of a quarter of a sector on both its sides.
/// (0, 0) is not.
pub fn is_beyond(sector: u8, direction: Direction) -> bool
    requires below { sector < 32 }
    requires in_range { HasParts direction }
    ensures { result ≡ is_beyond sector direction }
{
    let next = (sector + 1) % 32;
    let start = beyond(turned(first_start(sector % 8), sector / 8), direction);
    let end = beyond(turned(first_end(next % 8), next / 8), direction);
    is_direction(direction) && !(start >= 0 && end < 0)
}

/// Greater than 0 if the direction is clockwise of the boundary, by less than a half turn.
fn beyond(boundary: Direction, direction: Direction) -> i128
    requires boundary { HasBoundaryParts boundary }
    requires in_range { HasParts direction }
    ensures { result ≡ beyond boundary direction }
{
    direction.east * boundary.north - direction.north * boundary.east
}

/// A direction by its parts.
fn at(east: i128, north: i128) -> Direction
    ensures { result ≡ vector east north }
{
    Direction { east, north }
}

/// 2.8125 degrees before the boundary 0 to 7 of the sectors.
fn first_start(k: u8) -> Direction
    requires { k < 8 }
    ensures value { result ≡ slice_index_or first_before k nowhere }
    ensures in_range { HasBoundaryParts result }
{
    match k {
        0 => at(-49_127, 1_000_000),
        1 => at(148_336, 1_000_000),
        2 => at(357_806, 1_000_000),
        3 => at(599_377, 1_000_000),
        4 => at(906_347, 1_000_000),
        5 => at(1_000_000, 741_651),
        6 => at(1_000_000, 472_965),
        _ => at(1_000_000, 250_487),
    }
}

/// 2.8125 degrees after it.
fn first_end(k: u8) -> Direction
    requires { k < 8 }
    ensures value { result ≡ slice_index_or first_after k nowhere }
    ensures in_range { HasBoundaryParts result }
{
    match k {
        0 => at(49_127, 1_000_000),
        1 => at(250_487, 1_000_000),
        2 => at(472_965, 1_000_000),
        3 => at(741_651, 1_000_000),
        4 => at(1_000_000, 906_347),
        5 => at(1_000_000, 599_377),
        6 => at(1_000_000, 357_806),
        _ => at(1_000_000, 148_336),
    }
}

/// A direction after this number of quarter turns to the right, 0 to 3.
fn turned(direction: Direction, quarters: u8) -> Direction
    requires few { quarters < 4 }
    requires in_range { HasBoundaryParts direction }
    ensures value { result ≡ turned quarters direction }
    ensures in_range { HasBoundaryParts result }
{
    match quarters {
        0 => direction,
        1 => quarter_turn(direction),
        2 => quarter_turn(quarter_turn(direction)),
        _ => quarter_turn(quarter_turn(quarter_turn(direction))),
    }
}

/// A direction after a quarter turn to the right.
fn quarter_turn(direction: Direction) -> Direction
    requires { HasBoundaryParts direction }
    ensures value { result ≡ quarter_turn direction }
    ensures in_range { HasBoundaryParts result }
{
    let Direction { east, north } = direction;
    at(north, -east)
}
