//! The ambiguities of a string.
ghost use Rattle.std.specs.Prelude.{◌≡◌, ◌<◌, ◌++◌, ◌+◌, ℕ, Some, map as list_map, filter, length, slice_get, IfOk, OnOk, IsTrue};
ghost use Rattle.std.specs.List.{All};
ghost use Rattle.olr_spec.specs.Map.{has_line};
ghost use Rattle.olr_spec.specs.Receiver.{decoded_coord, last_number};
ghost use Rattle.olr_spec.specs.Ambiguity.{obstacles, obstacles_at, side_at};
ghost use Rattle.olr_answers.specs.Ambiguities.{found_of};
ghost use Rattle.olr_ambiguity.specs.Causes.{applies, named};
ghost use Rattle.olr_ambiguity.specs.Grids.{AreNodes, HasRivals};
ghost use Rattle.olr_ambiguity.specs.OwnLines.{IsOwnLine, side_of};
ghost use Rattle.olr_ambiguity.specs.Places.{place_of};

use crate::grid::Grid;
use crate::near::{nodes_in, windows};
use crate::own_line::{OwnLine, is_twin_of, is_unclear, lines_on, own_line};
use crate::rivals::rivals;
use olr_answers::{Found, Obstacle};
use olr_binary::Reference;
use olr_coords::Coord;
use olr_model::{LineId, MapRead, NodeId};
use std::alloc::{AllocError, Global};

/// Why a candidate at the node of the path's own line is an ambiguity.
#[derive(Clone, Copy)]
pub(crate) enum Cause {
    /// It is a twin of the own line.
    Twin,
    /// It is unclear by its direction.
    Unclear,
}

/// Appends the candidates among these that are ambiguities for this cause.
#[tactic(auto, using(std::proofs::lemmas::Grind::common_steps))]
fn push_lines<M: MapRead>(
    found: &mut Vec<Found>,
    map: &M,
    own: &OwnLine,
    lrp: usize,
    lines: &[LineId],
    cause: Cause,
) -> Result<(), AllocError>
    requires own { IsOwnLine (M.map map.now) own.now }
    requires known { All (λ y. IsTrue (has_line (M.map map.now) y)) lines.now }
    ensures { OnOk result (list_map found_of found.new.items ≡ list_map found_of found.old.items ++ list_map (λ o. (lrp, o))
        (list_map (named cause) (filter (applies cause (M.map map.now) (side_of own.now.side) own.now.id) lines.now))) }
{
    for line in lines {
        let (applies, obstacle) = match cause {
            Cause::Twin => (is_twin_of(map, own, *line), Obstacle::SameSector(*line)),
            Cause::Unclear => (is_unclear(map, own, *line), Obstacle::OtherBearing(*line)),
        };
        if applies {
            found.push(Found { lrp, obstacle })?;
        }
    }
    Ok(())
}

/// Appends the ambiguities of a path's own line at an LRP.
fn push_at<M: MapRead>(
    alloc: Global,
    found: &mut Vec<Found>,
    map: &M,
    grid: &Grid,
    own: &OwnLine,
    lrp: usize,
) -> Result<(), AllocError>
    requires own { IsOwnLine (M.map map.now) own.now }
    requires grid { HasRivals (M.map map.now) (side_of own.now.side) (place_of own.now.place) own.now.id grid.now.nodes.items }
    ensures { OnOk result (list_map found_of found.new.items ≡ list_map found_of found.old.items
        ++ list_map (λ o. (lrp, o)) (obstacles_at (M.map map.now) (side_of own.now.side) (place_of own.now.place) own.now.id)) }
{
    let lines = lines_on(map, own.side, own.node);
    push_lines(found, map, own, lrp, lines, Cause::Twin)?;
    push_lines(found, map, own, lrp, lines, Cause::Unclear)?;
    let nodes = rivals(alloc, map, grid, own)?;
    for node in nodes.as_slice() {
        let obstacle = Obstacle::OtherNode(*node);
        found.push(Found { lrp, obstacle })?;
    }
    Ok(())
}

/// The ambiguities of a reference, LRP by LRP: at each first twins, then other lines that
/// are unclear by their directions, then other nodes, each in ascending order. `own` are the path's own lines at the LRPs,
/// and `grid` is that of the map, or of nodes among which each rival is.
pub fn obstacles<M: MapRead>(
    alloc: Global,
    map: &M,
    grid: &Grid,
    reference: &Reference,
    own: &[LineId],
) -> Result<Vec<Found>, AllocError>
    requires grid { (k x : ℕ) → slice_get own.now k ≡ Some x
        → HasRivals (M.map map.now) (side_at reference.now k) (decoded_coord reference.now k) x grid.now.nodes.items }
    requires own { All (λ x. IsTrue (has_line (M.map map.now) x)) own.now }
    requires count { length own.now ≡ last_number reference.now + 1 }
    ensures { IfOk result (λ found. list_map found_of found.items ≡ obstacles (M.map map.now) reference.now own.now) }
{
    let mut found = Vec::new(alloc);
    for k in 0..own.len() {
        let own = own_line(map, reference, own, k);
        push_at(alloc, &mut found, map, grid, &own, k)?;
    }
    Ok(found)
}

/// The same without a grid of the map: its nodes are passed over once. `ids` are the nodes in their slots, none in a free
/// one, and `places` are beside each its coordinate.
pub fn obstacles_near<M: MapRead>(
    alloc: Global,
    map: &M,
    ids: &[Option<NodeId>],
    places: &[Coord],
    reference: &Reference,
    own: &[LineId],
) -> Result<Vec<Found>, AllocError>
    requires beside { length ids.now ≡ length places.now }
    requires nodes { AreNodes (M.map map.now) ids.now places.now }
    requires own { All (λ x. IsTrue (has_line (M.map map.now) x)) own.now }
    requires count { length own.now ≡ last_number reference.now + 1 }
    ensures { IfOk result (λ found. list_map found_of found.items ≡ obstacles (M.map map.now) reference.now own.now) }
{
    let windows = windows(alloc, map, reference, own)?;
    let nodes = nodes_in(alloc, ids, places, &windows)?;
    let grid = Grid::of(alloc, map, &nodes)?;
    obstacles(alloc, map, &grid, reference, own)
}
