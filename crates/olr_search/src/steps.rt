//! The steps of a search that can be continued: a node's label, the lines from a node, and all queued nodes up to a
//! length.
ghost use Rattle.std.specs.Prelude.{◌≡◌, ◌≤◌, ◌<◌, ◌+◌, ◌⊎◌, ℕ, List, OnOk, IsTrue};
ghost use Rattle.olr_spec.specs.Map.{Map, has_node};
ghost use Rattle.olr_search.specs.Distances.{Leads, ends_at, lines_at};
ghost use Rattle.olr_search.specs.Frontiers.{Moves, IsQueued, IsAhead, label_of, frontier_len};
ghost use Rattle.olr_search.specs.Searches.{CoversSlots, IsLabelled, IsUnderWay, CutAt, IsCut, StaysWithin};
ghost use Rattle.olr_search.specs.Lengths.{AreFit, IsSeenAs, IsSearchedAs};

use crate::bounds::Admits;
use crate::distances::Direction;
use crate::frontier::{Frontier, GREATEST_LIMIT};
use crate::lengths::Lengths;
use olr_model::{LineEnd, MapRead, NodeLines};
use std::alloc::AllocError;

/// Lowers a node's label to a length in decimetres. No effect if the label is no greater, or the node may not have this
/// length as its label.
pub fn label_node<M: MapRead, A: Admits>(
    map: &M,
    direction: Direction,
    admits: &A,
    slot: u32,
    length: u32,
    frontier: &mut Frontier,
) -> Result<(), AllocError>
    requires there { (v : ℕ) × IsTrue (has_node (M.map map.now) v) × (M.node_slot map.now v ≡ slot) }
    requires room { slot < frontier_len frontier.old }
    ensures moves { OnOk result (Moves frontier.old frontier.new) }
    ensures labelled { OnOk result ((N : Map) (node_slot : ℕ → ℕ) (way : _) (from : List (ℕ × ℕ)) (v : ℕ)
        → IsTrue (has_node N v) → node_slot v ≡ slot → Leads N way from v length
        → IsLabelled N node_slot way from frontier.old → IsLabelled N node_slot way from frontier.new) }
    ensures low { OnOk result (A.lets admits.now slot length → label_of frontier.new slot ≤ length) }
    ensures only { OnOk result ((p : ℕ) → (label_of frontier.new p ≡ label_of frontier.old p)
        ⊎ ((label_of frontier.new p ≡ length) × (p ≡ slot))) }
    ensures ahead { OnOk result ((next : ℕ) → next ≤ length → IsAhead frontier.old next
        → IsAhead frontier.new next) }
{
    if length < frontier.label(slot) && admits.admits(slot, length) {
        let ahead = ends_from(map, direction, slot).len();
        frontier.relax(slot, length, ahead)
    } else {
        Ok(())
    }
}

/// The lines that are entered in this direction at the node in this slot, with their far ends.
pub fn lines_from<M: MapRead>(map: &M, direction: Direction, slot: u32) -> NodeLines<'_>
    requires { (v : ℕ) × IsTrue (has_node (M.map map.now) v) × (M.node_slot map.now v ≡ slot) }
    ensures lines { (v : ℕ) → IsTrue (has_node (M.map map.now) v) → M.node_slot map.now v ≡ slot
        → result.lines.now ≡ lines_at (M.map map.now) direction v }
    ensures ends { (v : ℕ) → IsTrue (has_node (M.map map.now) v) → M.node_slot map.now v ≡ slot
        → result.ends.now ≡ ends_at (M.map map.now) (M.node_slot map.now) direction v }
{
    match direction {
        Direction::Along => map.out_lines_at(slot),
        Direction::Against => map.in_lines_at(slot),
    }
}

/// The far ends of these lines, with their lengths.
pub fn ends_from<M: MapRead>(map: &M, direction: Direction, slot: u32) -> &[LineEnd]
    requires { (v : ℕ) × IsTrue (has_node (M.map map.now) v) × (M.node_slot map.now v ≡ slot) }
    ensures { (v : ℕ) → IsTrue (has_node (M.map map.now) v) → M.node_slot map.now v ≡ slot
        → result.now ≡ ends_at (M.map map.now) (M.node_slot map.now) direction v }
{
    lines_from(map, direction, slot).ends
}

/// Follows the lines from the node in this slot, at the distance `dist` in decimetres: labels those of their far ends
/// that may be labelled.
fn follow<M: MapRead, A: Admits, L: Lengths>(
    map: &M,
    direction: Direction,
    dist: u32,
    slot: u32,
    admits: &A,
    lengths: &L,
    frontier: &mut Frontier,
) -> Result<(), AllocError>
    requires node { (v : ℕ) × IsTrue (has_node (M.map map.now) v) × (M.node_slot map.now v ≡ slot) }
    requires within { dist ≤ GREATEST_LIMIT }
    requires label { label_of frontier.old slot ≤ dist }
    requires room { CoversSlots (M.map map.now) (M.node_slot map.now) frontier.old }
    requires fit { AreFit (L.counts lengths.now) }
    ensures moves { OnOk result (Moves frontier.old frontier.new) }
    ensures labelled { OnOk result ((N : Map) (v : ℕ) (from : List (ℕ × ℕ))
        → IsSeenAs (M.map map.now) N (M.node_slot map.now) direction (L.counts lengths.now) slot
        → IsTrue (has_node N v) → M.node_slot map.now v ≡ slot → Leads N direction from v dist
        → IsLabelled N (M.node_slot map.now) direction from frontier.old
        → IsLabelled N (M.node_slot map.now) direction from frontier.new) }
    ensures closed { OnOk result ((N : Map) (v : ℕ)
        → IsSeenAs (M.map map.now) N (M.node_slot map.now) direction (L.counts lengths.now) slot
        → IsTrue (has_node N v) → M.node_slot map.now v ≡ slot
        → CutAt N (M.node_slot map.now) direction (A.lets admits.now) frontier.new v dist) }
    ensures near { OnOk result ((N : Map)
        → IsSeenAs (M.map map.now) N (M.node_slot map.now) direction (L.counts lengths.now) slot
        → StaysWithin N (M.node_slot map.now) direction dist (label_of frontier.old) (label_of frontier.new)) }
    ensures ahead { OnOk result ((next : ℕ) → next ≤ dist → IsAhead frontier.old next
        → IsAhead frontier.new next) }
{
    let NodeLines { lines, ends } = lines_from(map, direction, slot);
    for (index, end) in ends.iter().enumerate() {
        let length = lengths.counted(lines[index], end.len);
        label_node(map, direction, admits, end.slot, dist + length, frontier)?;
    }
    Ok(())
}

/// Continues a search until nothing is queued at a length of at most `limit` decimetres. Only nodes that may be labelled
/// get labels.
pub fn settle<M: MapRead, A: Admits, L: Lengths>(
    map: &M,
    direction: Direction,
    limit: u32,
    admits: &A,
    lengths: &L,
    frontier: &mut Frontier,
) -> Result<(), AllocError>
    requires small { limit ≤ GREATEST_LIMIT }
    requires begun { (N : Map) × (from : List (ℕ × ℕ)) × (next : ℕ)
        × IsSearchedAs (M.map map.now) N (M.node_slot map.now) direction (L.counts lengths.now) frontier.old next
        × IsUnderWay N (M.node_slot map.now) direction from frontier.old
        × IsAhead frontier.old next }
    requires fit { AreFit (L.counts lengths.now) }
    ensures cut { OnOk result ((N : Map) (from : List (ℕ × ℕ)) (next : ℕ) → IsAhead frontier.old next
        → IsSearchedAs (M.map map.now) N (M.node_slot map.now) direction (L.counts lengths.now) frontier.old next
        → IsUnderWay N (M.node_slot map.now) direction from frontier.old
        → IsCut N (M.node_slot map.now) direction from (A.lets admits.now) frontier.new) }
    ensures better { OnOk result ((p : ℕ) → label_of frontier.new p ≤ label_of frontier.old p) }
    ensures far { OnOk result ((d p : ℕ) → IsQueued frontier.new d p → limit < d) }
    ensures near { OnOk result ((N : Map) (next : ℕ) → IsAhead frontier.old next
        → IsSearchedAs (M.map map.now) N (M.node_slot map.now) direction (L.counts lengths.now) frontier.old next
        → StaysWithin N (M.node_slot map.now) direction limit (label_of frontier.old) (label_of frontier.new)) }
    ensures ahead { OnOk result ((next : ℕ) → IsAhead frontier.old next → IsAhead frontier.new next) }
{
    while let Some(next) = frontier.pop_within(limit) {
        let (dist, slot) = next;
        if frontier.label(slot) == dist {
            follow(map, direction, dist, slot, admits, lengths, frontier)?;
        }
    }
    Ok(())
}
