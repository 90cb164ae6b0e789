//! The fields of a reference: of the location reference points (LRPs) of an extended path, and of its offsets (White
//! Paper, location reference points and their attributes).
ghost use Rattle.std.specs.Prelude.{◌≡◌, ◌<◌, IsTrue, IfOk, fold, map, max};
ghost use Rattle.olr_spec.specs.Coordinates.{relative};
ghost use Rattle.olr_spec.specs.Map.{has_node, coord_at};
ghost use Rattle.olr_spec.specs.Points.{fit16, CandidateWith};
ghost use Rattle.olr_spec.specs.Reference.{attrs_with, dm_between, first_point_with, last_point, legs, middle_point_with, offset};
ghost use Rattle.olr_refs.specs.KeptPoints.{AreKept, middle_points_of};

use crate::along::{ResolvedPath, coord_of};
use olr_bearing::{Ends, bearing_back, bearing_out};
use olr_binary::{Attrs, First, Last, Middle};
use olr_coords::{Coord, abs24, rel16};
use olr_model::{Line, MapRead};
use olr_search::ResolvedLine;
use std::alloc::{AllocError, Global};

/// One step of the distance to the next point (DNP), in decimetres: 58.6 m.
const DISTANCE_STEP: u128 = 586;
/// The number of parts of a leg in which an offset is counted.
const OFFSET_PARTS: u128 = 256;

/// The coordinates of the ends of a line.
fn ends_of<M: MapRead>(map: &M, line: &Line) -> Ends
    requires from { IsTrue (has_node (M.map map.now) line.now.from) }
    requires to { IsTrue (has_node (M.map map.now) line.now.to) }
    ensures from { result.from ≡ coord_at (M.map map.now) line.now.from }
    ensures to { result.to ≡ coord_at (M.map map.now) line.now.to }
{
    Ends {
        from: coord_of(map, line.from),
        to: coord_of(map, line.to),
    }
}

/// The differences of longitude and latitude from one coordinate to another, in relative steps. They fit 16 bits.
fn differences(from: Coord, to: Coord) -> (i16, i16)
    requires { IsTrue (fit16 from to) }
    ensures lon { result.0 ≡ relative from.lon to.lon }
    ensures lat { result.1 ≡ relative from.lat to.lat }
{
    let lon = rel16(from.lon(), to.lon()).unwrap();
    let lat = rel16(from.lat(), to.lat()).unwrap();
    (lon, lat)
}

/// The lowest functional road class of some lines, which is the greatest number.
fn lowest_class(records: &[ResolvedLine]) -> u8
    ensures { result ≡ fold max 0 (map (λ r. r.frc) records.now) }
{
    records
        .iter()
        .map(|record| record.frc)
        .fold(0, |lowest, class| lowest.max(class))
}

/// The attributes of the LRP at position `i`, where the next one is at position `j`.
fn attrs<M: MapRead>(resolved: &ResolvedPath<M>, i: usize, j: usize) -> Attrs
    requires candidate { CandidateWith resolved.now.margin (M.map resolved.now.map.now) resolved.now.lines.now i j }
    ensures { result ≡ attrs_with resolved.now.margin (legs (M.map resolved.now.map.now) resolved.now.lines.now) i j }
{
    let line = resolved.line(i);
    Attrs {
        frc: line.frc,
        fow: line.fow,
        lfrc: resolved
            .margin
            .allowed(lowest_class(&resolved.records[i..j])),
        bearing: bearing_out(line, ends_of(resolved.map, line)),
        dnp: (resolved.between(i, j) / DISTANCE_STEP) as u8,
    }
}

/// The first LRP, at position `i`, where the next one is at position `j`.
pub fn first_point<M: MapRead>(resolved: &ResolvedPath<M>, i: usize, j: usize) -> First
    requires candidate { CandidateWith resolved.now.margin (M.map resolved.now.map.now) resolved.now.lines.now i j }
    ensures { result ≡ first_point_with resolved.now.margin (legs (M.map resolved.now.map.now) resolved.now.lines.now) i j }
{
    let place = resolved.place(i);
    First {
        lon: abs24(place.lon()),
        lat: abs24(place.lat()),
        attrs: attrs(resolved, i, j),
    }
}

/// The LRP at position `i`, between those at positions `h` and `j`.
fn middle_point<M: MapRead>(resolved: &ResolvedPath<M>, h: usize, i: usize, j: usize) -> Middle
    requires candidate { CandidateWith resolved.now.margin (M.map resolved.now.map.now) resolved.now.lines.now h i }
    requires next { CandidateWith resolved.now.margin (M.map resolved.now.map.now) resolved.now.lines.now i j }
    ensures { result ≡ middle_point_with resolved.now.margin (legs (M.map resolved.now.map.now) resolved.now.lines.now) h i j }
{
    let (dlon, dlat) = differences(resolved.place(h), resolved.place(i));
    Middle {
        dlon,
        dlat,
        attrs: attrs(resolved, i, j),
    }
}

/// The last LRP, at position `i`, after the one at position `h`.
pub fn last_point<M: MapRead>(resolved: &ResolvedPath<M>, h: usize, i: usize) -> Last
    requires candidate { CandidateWith resolved.now.margin (M.map resolved.now.map.now) resolved.now.lines.now h i }
    ensures { result ≡ last_point (legs (M.map resolved.now.map.now) resolved.now.lines.now) h i }
{
    let (dlon, dlat) = differences(resolved.place(h), resolved.place(i));
    let line = resolved.line(i - 1);
    Last {
        dlon,
        dlat,
        frc: line.frc,
        fow: line.fow,
        bearing: bearing_back(line, ends_of(resolved.map, line)),
    }
}

/// The LRPs between the first and the last of `points`.
pub fn middle_points<M: MapRead>(
    alloc: Global,
    resolved: &ResolvedPath<M>,
    points: &[usize],
) -> Result<Vec<Middle>, AllocError>
    requires { AreKept resolved.now.margin (M.map resolved.now.map.now) resolved.now.lines.now points.now }
    ensures { IfOk result (λ middle. middle.items ≡ middle_points_of resolved.now.margin
        (legs (M.map resolved.now.map.now) resolved.now.lines.now) points.now) }
{
    let mut middle = Vec::with_capacity(alloc, points.len() - 2)?;
    for k in 1..points.len() - 1 {
        let point = middle_point(resolved, points[k - 1], points[k], points[k + 1]);
        middle.push(point)?;
    }
    Ok(middle)
}

/// The remainder of an offset, in decimetres, in 256ths of the leg from position `i` to position `j`, rounded down. None
/// if the remainder is 0 (White Paper, binary format; rounding: profile).
pub fn offset<M: MapRead>(resolved: &ResolvedPath<M>, left: u128, i: usize, j: usize) -> Option<u8>
    requires candidate { CandidateWith resolved.now.margin (M.map resolved.now.map.now) resolved.now.lines.now i j }
    requires within { left < dm_between (legs (M.map resolved.now.map.now) resolved.now.lines.now) i j }
    ensures { result ≡ offset left (dm_between (legs (M.map resolved.now.map.now) resolved.now.lines.now) i j) }
{
    let leg = resolved.between(i, j);
    if left == 0 {
        None
    } else {
        Some((OFFSET_PARTS * left / leg) as u8)
    }
}
