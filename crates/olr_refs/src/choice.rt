//! The choice of the next location reference point (LRP) after a position.
ghost use Rattle.std.specs.Prelude.{◌≡◌, ◌<◌, MatchOption, length};
ghost use Rattle.olr_spec.specs.Points.{fit16, NextWith, NoNextWith};
ghost use Rattle.olr_refs.specs.Along.{IsLastNear, IsReach};

use crate::along::ResolvedPath;
use olr_coords::{Coord, rel16};
use olr_model::MapRead;
use olr_search::LEG_LIMIT;

/// The last position of a path, from `i` on, that is at most 150,000 dm from position `i`.
pub fn last_within_limit<M: MapRead>(resolved: &ResolvedPath<M>, i: usize) -> usize
    requires { i < length resolved.now.lines.now }
    ensures { IsLastNear (M.map resolved.now.map.now) resolved.now.lines.now i result }
{
    for k in i + 1..resolved.distances.len() {
        if resolved.between(i, k) > u128::from(LEG_LIMIT) {
            return k - 1;
        }
    }
    resolved.lines.len()
}

/// Whether the differences of longitude and latitude from one coordinate to another fit 16 bits.
fn is_fit(from: Coord, to: Coord) -> bool
    ensures { result ≡ fit16 from to }
{
    rel16(from.lon(), to.lon()).is_some() && rel16(from.lat(), to.lat()).is_some()
}

/// The position of the next LRP after `i`, where the positions up to `reach` are covered and within the limit: the end
/// if it is one of them and fits; else the last at a valid node that fits; else the last that fits. None if none fits.
pub fn next_of<M: MapRead>(resolved: &ResolvedPath<M>, i: usize, reach: usize) -> Option<usize>
    requires some { i < length resolved.now.lines.now }
    requires reach { IsReach resolved.now.margin (M.map resolved.now.map.now) resolved.now.lines.now i reach }
    ensures { MatchOption result (NoNextWith resolved.now.margin (M.map resolved.now.map.now) resolved.now.lines.now i)
        (NextWith resolved.now.margin (M.map resolved.now.map.now) resolved.now.lines.now i) }
{
    let here = resolved.place(i);
    if reach == resolved.lines.len() && is_fit(here, resolved.place(reach)) {
        return Some(reach);
    }
    let mut last = None;
    for k in (i + 1..reach + 1).rev() {
        if is_fit(here, resolved.place(k)) {
            if !resolved.is_passing(k) {
                return Some(k);
            }
            last = last.or(Some(k));
        }
    }
    last
}
