//! The path's own line at an LRP, and the candidates beside it.
ghost use Rattle.std.specs.Prelude.{◌≡◌, ◌+◌, ◌<◌, All, IsTrue, Some, length, slice_get};
ghost use Rattle.olr_spec.specs.Map.{coord_at, has_line, has_node, is_good, line_at};
ghost use Rattle.olr_spec.specs.Reference.{leg};
ghost use Rattle.olr_spec.specs.Receiver.{are_twins, coordinate_on, decoded_coord, last_number, node_on, sector_on};
ghost use Rattle.olr_spec.specs.Directions.{direction_on, is_beyond};
ghost use Rattle.olr_spec.specs.Ambiguity.{is_outdone_for_all, is_twin_of, is_unclear, lines_on, side_at};
ghost use Rattle.olr_bearing.specs.Legs.{leg_between};
ghost use Rattle.olr_bearing.specs.Ranges.{IsPart};
ghost use Rattle.olr_ambiguity.specs.OwnLines.{IsOwnLine, side_of};
ghost use Rattle.olr_ambiguity.specs.Places.{place_of};

use crate::measures::{DecodedPlace, SLACK, is_farther};
use olr_bearing::{
    Direction, Ends, bearing_back, bearing_out, direction_back, direction_out, is_beyond,
    is_direction,
};
use olr_binary::{Reference, decoded};
use olr_coords::Coord;
use olr_model::{Line, LineId, MapRead, NodeId};

/// Which lines are the candidates of an LRP.
#[derive(Clone, Copy, PartialEq, Eq)]
pub enum Side {
    /// Those that leave their node.
    Outgoing,
    /// Those that enter it: at the last LRP.
    Incoming,
}

/// The path's own line at an LRP, by what decides beside other candidates.
#[derive(Clone, Copy)]
pub(crate) struct OwnLine {
    /// Where the LRP is decoded.
    pub place: DecodedPlace,
    /// Which lines are candidates.
    pub side: Side,
    /// The line's number.
    pub id: LineId,
    /// Its node.
    pub node: NodeId,
    /// The node's coordinate.
    pub here: Coord,
    /// Its functional road class.
    pub frc: u8,
    /// Its form of way.
    pub fow: u8,
    /// Its bearing at the node.
    pub sector: u8,
}

/// A line of the map.
fn line_of<M: MapRead>(map: &M, id: LineId) -> &Line
    requires { IsTrue (has_line (M.map map.now) id) }
    ensures value { result.now ≡ line_at (M.map map.now) id }
    ensures good { IsTrue (is_good result.now) }
    ensures from { IsTrue (has_node (M.map map.now) result.now.from) }
    ensures to { IsTrue (has_node (M.map map.now) result.now.to) }
{
    map.line(id).unwrap()
}

/// The coordinate of a node of the map.
pub(crate) fn coord_of<M: MapRead>(map: &M, node: NodeId) -> Coord
    requires { IsTrue (has_node (M.map map.now) node) }
    ensures { result ≡ coord_at (M.map map.now) node }
{
    map.node(node).unwrap()
}

/// The coordinates of the ends of a line of the map.
fn ends_of<M: MapRead>(map: &M, id: LineId) -> Ends
    requires { IsTrue (has_line (M.map map.now) id) }
    ensures { leg_between (line_at (M.map map.now) id) result ≡ leg (M.map map.now) id }
{
    let line = line_of(map, id);
    Ends {
        from: coord_of(map, line.from),
        to: coord_of(map, line.to),
    }
}

/// The node of a candidate.
fn node_on<M: MapRead>(map: &M, side: Side, id: LineId) -> NodeId
    requires { IsTrue (has_line (M.map map.now) id) }
    ensures value { result ≡ node_on (side_of side) (leg (M.map map.now) id) }
    ensures known { IsTrue (has_node (M.map map.now) result) }
{
    let line = line_of(map, id);
    match side {
        Side::Outgoing => line.from,
        Side::Incoming => line.to,
    }
}

/// The coordinate of a candidate's node.
#[tactic(auto, using(crate::proofs::Lists::place_there))]
pub(crate) fn coordinate_on<M: MapRead>(map: &M, side: Side, id: LineId) -> Coord
    requires { IsTrue (has_line (M.map map.now) id) }
    ensures { result ≡ coordinate_on (side_of side) (leg (M.map map.now) id) }
{
    coord_of(map, node_on(map, side, id))
}

/// The direction of a candidate at its node.
fn direction_on<M: MapRead>(map: &M, side: Side, id: LineId) -> Direction
    requires { IsTrue (has_line (M.map map.now) id) }
    ensures value { result ≡ direction_on (side_of side) (leg (M.map map.now) id) }
    ensures in_range { IsPart result.east × IsPart result.north }
{
    let line = line_of(map, id);
    let ends = ends_of(map, id);
    match side {
        Side::Outgoing => direction_out(line, ends),
        Side::Incoming => direction_back(line, ends),
    }
}

/// The bearing of a candidate.
fn sector_on<M: MapRead>(map: &M, side: Side, id: LineId) -> u8
    requires { IsTrue (has_line (M.map map.now) id) }
    ensures value { result ≡ sector_on (side_of side) (leg (M.map map.now) id) }
    ensures below { result < 32 }
{
    let line = line_of(map, id);
    let ends = ends_of(map, id);
    match side {
        Side::Outgoing => bearing_out(line, ends),
        Side::Incoming => bearing_back(line, ends),
    }
}

/// The candidates at a node, in ascending order.
pub(crate) fn lines_on<M: MapRead>(map: &M, side: Side, node: NodeId) -> &[LineId]
    ensures value { result.now ≡ lines_on (side_of side) (M.map map.now) node }
    ensures known { All (λ y. IsTrue (has_line (M.map map.now) y)) result.now }
{
    match side {
        Side::Outgoing => map.out_lines(node),
        Side::Incoming => map.in_lines(node),
    }
}

/// A path's own line at LRP k of a reference, counted from 0; `own` are those at all LRPs.
pub(crate) fn own_line<M: MapRead>(
    map: &M,
    reference: &Reference,
    own: &[LineId],
    k: usize,
) -> OwnLine
    requires known { All (λ x. IsTrue (has_line (M.map map.now) x)) own.now }
    requires count { length own.now ≡ last_number reference.now + 1 }
    requires within { k < length own.now }
    ensures own { IsOwnLine (M.map map.now) result }
    ensures id { slice_get own.now k ≡ Some result.id }
    ensures side { side_of result.side ≡ side_at reference.now k }
    ensures place { place_of result.place ≡ decoded_coord reference.now k }
{
    let (lon, lat) = decoded(reference, k).unwrap();
    let id = own[k];
    let line = line_of(map, id);
    let side = if k + 1 < own.len() {
        Side::Outgoing
    } else {
        Side::Incoming
    };
    OwnLine {
        place: DecodedPlace { lon, lat },
        side,
        id,
        node: node_on(map, side, id),
        here: coordinate_on(map, side, id),
        frc: line.frc,
        fow: line.fow,
        sector: sector_on(map, side, id),
    }
}

/// Whether a candidate has the node, class, form and sector of the own line.
fn are_twins<M: MapRead>(map: &M, own: &OwnLine, id: LineId) -> bool
    requires own { IsOwnLine (M.map map.now) own.now }
    requires known { IsTrue (has_line (M.map map.now) id) }
    ensures { result ≡ are_twins (side_of own.now.side) (leg (M.map map.now) own.now.id) (leg (M.map map.now) id) }
{
    let line = line_of(map, id);
    own.node == node_on(map, own.side, id)
        && own.frc == line.frc
        && own.fow == line.fow
        && own.sector == sector_on(map, own.side, id)
}

/// Whether a line is another one at the own line's node, with the same class, form and sector.
pub(crate) fn is_twin_of<M: MapRead>(map: &M, own: &OwnLine, id: LineId) -> bool
    requires own { IsOwnLine (M.map map.now) own.now }
    requires known { IsTrue (has_line (M.map map.now) id) }
    ensures { result ≡ is_twin_of (M.map map.now) (side_of own.now.side) own.now.id id }
{
    id != own.id && are_twins(map, own, id)
}

/// Whether the direction of a candidate is outside of the own line's sector and its margin.
fn is_aside<M: MapRead>(map: &M, own: &OwnLine, id: LineId) -> bool
    requires own { IsOwnLine (M.map map.now) own.now }
    requires known { IsTrue (has_line (M.map map.now) id) }
    ensures { result ≡ is_beyond (sector_on (side_of own.now.side) (leg (M.map map.now) own.now.id))
        (direction_on (side_of own.now.side) (leg (M.map map.now) id)) }
{
    is_beyond(own.sector, direction_on(map, own.side, id))
}

/// Whether a line is another one at the own line's node that is no twin, and whose direction isn't outside of the
/// sector and its margin; or whether it is the own line, which has no direction.
pub(crate) fn is_unclear<M: MapRead>(map: &M, own: &OwnLine, id: LineId) -> bool
    requires own { IsOwnLine (M.map map.now) own.now }
    requires known { IsTrue (has_line (M.map map.now) id) }
    ensures { result ≡ is_unclear (M.map map.now) (side_of own.now.side) own.now.id id }
{
    if id == own.id {
        return !is_direction(direction_on(map, own.side, id));
    }
    !are_twins(map, own, id) && !is_aside(map, own, id)
}

/// Whether a candidate elsewhere is outdone by the own line, for every receiver.
pub(crate) fn is_outdone<M: MapRead>(map: &M, own: &OwnLine, id: LineId) -> bool
    requires own { IsOwnLine (M.map map.now) own.now }
    requires known { IsTrue (has_line (M.map map.now) id) }
    ensures { result ≡ is_outdone_for_all (side_of own.now.side) (place_of own.now.place)
        (leg (M.map map.now) own.now.id) (leg (M.map map.now) id) }
{
    let there = coordinate_on(map, own.side, id);
    is_farther(SLACK, own.place, own.here, there)
        || is_farther(0, own.place, own.here, there) && is_aside(map, own, id)
}
