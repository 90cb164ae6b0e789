//! Other nodes near the decoded coordinate of an LRP.
ghost use Rattle.std.specs.Prelude.{◌≡◌, not, filter, IfOk, OnOk, IsTrue};
ghost use Rattle.std.specs.List.{All, list_any};
ghost use Rattle.olr_spec.specs.Map.{coord_at, has_line, has_node};
ghost use Rattle.olr_spec.specs.Reference.{leg};
ghost use Rattle.olr_spec.specs.Ambiguity.{all_nodes, is_outdone_for_all, is_rival};
ghost use Rattle.olr_ambiguity.specs.Grids.{AreAdded, ArePlaced, HasRivals, IsWindow};
ghost use Rattle.olr_ambiguity.specs.OwnLines.{IsOwnLine, side_of};
ghost use Rattle.olr_ambiguity.specs.Places.{IsPlaced, place_of};

use crate::grid::{Grid, LOWEST_LAT, LOWEST_LON, Placed, around, cell_at, cells_from};
use crate::measures::{DecodedPlace, ONE, SLACK, cosine_up_to, is_farther, lat_apart, lon_apart};
use crate::own_line::{OwnLine, is_outdone, lines_on};
use olr_coords::Coord;
use olr_model::{Footprint, LineId, MapRead, NodeId};
use std::alloc::{AllocError, Global};

/// A part of the map, by its least and greatest latitude and longitude.
#[derive(Clone, Copy)]
pub(crate) struct Window {
    pub lat: (i64, i64),
    pub lon: (i64, i64),
}

/// The part of the map in which each node is that isn't farther than the own one by more than the slack.
pub(crate) fn window_of(place: DecodedPlace, here: Coord) -> Window
    requires { IsPlaced place }
    ensures { IsWindow (place_of place) here result }
{
    // The own node's distance along both axes, and the slack, in units; in longitude farther, by the least cosine.
    let reach = lon_apart(place, here) + lat_apart(place, here) + SLACK;
    let cosine = cosine_up_to(place.lat.unsigned_abs() + reach);
    let lat = around(LOWEST_LAT, place.lat, reach);
    let lon = if cosine == 0 {
        (LOWEST_LON, -LOWEST_LON)
    } else {
        around(LOWEST_LON, place.lon, ONE * reach / cosine)
    };
    Window { lat, lon }
}

/// Whether one of these candidates isn't outdone by the own line.
#[tactic(auto, using(std::proofs::lemmas::Grind::common_steps))]
fn has_rival<M: MapRead>(map: &M, own: &OwnLine, lines: &[LineId]) -> bool
    requires own { IsOwnLine (M.map map.now) own.now }
    requires known { All (λ y. IsTrue (has_line (M.map map.now) y)) lines.now }
    ensures { result ≡ list_any (λ y. not (is_outdone_for_all (side_of own.now.side) (place_of own.now.place)
        (leg (M.map map.now) own.now.id) (leg (M.map map.now) y))) lines.now }
{
    for line in lines {
        if !is_outdone(map, own, *line) {
            return true;
        }
    }
    false
}

/// Whether a node of the map, with its coordinate, is another one with a candidate that isn't outdone by the own line.
fn is_rival<M: MapRead>(map: &M, own: &OwnLine, node: NodeId, place: Coord) -> bool
    requires own { IsOwnLine (M.map map.now) own.now }
    requires node { IsTrue (has_node (M.map map.now) node) }
    requires place { place ≡ coord_at (M.map map.now) node }
    ensures { result ≡ is_rival (M.map map.now) (side_of own.now.side) (place_of own.now.place) own.now.id node }
{
    if node == own.node || is_farther(SLACK, own.place, own.here, place) {
        return false;
    }
    has_rival(map, own, lines_on(map, own.side, node))
}

/// Adds those of these nodes that are rivals.
fn add_rivals<M: MapRead>(
    map: &M,
    own: &OwnLine,
    nodes: &[Placed],
    found: &mut Footprint,
) -> Result<(), AllocError>
    requires own { IsOwnLine (M.map map.now) own.now }
    requires right { ArePlaced (M.map map.now) nodes.now }
    ensures { OnOk result (AreAdded (is_rival (M.map map.now) (side_of own.now.side) (place_of own.now.place) own.now.id)
        nodes.now found.old found.new) }
{
    for near in nodes {
        if is_rival(map, own, near.node, near.place) {
            found.note(near.node)?;
        }
    }
    Ok(())
}

/// Other nodes with a candidate that isn't outdone by the path's own line, in ascending order.
pub(crate) fn rivals<M: MapRead>(
    alloc: Global,
    map: &M,
    grid: &Grid,
    own: &OwnLine,
) -> Result<Footprint, AllocError>
    requires own { IsOwnLine (M.map map.now) own.now }
    requires grid { HasRivals (M.map map.now) (side_of own.now.side) (place_of own.now.place) own.now.id grid.now.nodes.items }
    ensures { IfOk result (λ found. found ≡ filter (is_rival (M.map map.now) (side_of own.now.side) (place_of own.now.place)
        own.now.id) (all_nodes (M.map map.now))) }
{
    let mut found = Footprint::new(alloc);
    let window = window_of(own.place, own.here);
    let first = cells_from(LOWEST_LON, window.lon.0);
    let last = cells_from(LOWEST_LON, window.lon.1);
    for row in cells_from(LOWEST_LAT, window.lat.0)..cells_from(LOWEST_LAT, window.lat.1) + 1 {
        let nodes = grid.within(cell_at(row, first), cell_at(row, last) + 1);
        add_rivals(map, own, nodes, &mut found)?;
    }
    // For the proof alone: the nodes ascend.
    let _ascending = found.as_slice();
    Ok(found)
}
