//! Positions along the lines of a path: position `k` below the number of lines is the start of line `k`, and the last
//! position is the end of the last line.
ghost use Rattle.std.specs.Prelude.{◌≡◌, ◌<◌, ◌≤◌, ℕ, List, IsTrue, IfOk, length, slice_index};
ghost use Rattle.olr_spec.specs.Map.{Map, has_node, end, is_good, line_at, coord_at};
ghost use Rattle.olr_spec.specs.Routes.{dm_of};
ghost use Rattle.olr_spec.specs.Points.{node_at, stretch};
ghost use Rattle.olr_spec.specs.Reference.{legs, dm_between, position};
ghost use Rattle.olr_refs.specs.Along.{AreJoined-prop, DistancesTo};
ghost use Rattle.olr_spec.specs.Extension.{AreJoined, passing};
ghost use Rattle.olr_search.specs.ResolvedLines.{IsResolved, record_of};
ghost use Rattle.olr_refs.specs.ResolvedLines.{records_of};

use crate::nodes::passing_at;
use olr_answers::Margin;
use olr_coords::Coord;
use olr_model::{Line, LineId, MapRead, NodeId};
use olr_search::ResolvedLine;
use std::alloc::{AllocError, Global};

/// Joined lines of a map, each of which ends where the next begins, as the map has them, with the distances of their
/// positions: the lines along which a path is encoded.
#[derive(Drop)]
pub struct ResolvedPath<'a, M: MapRead> {
    /// The map.
    pub map: &'a M,
    /// The lines, in the order of travel.
    pub lines: &'a [LineId],
    /// What an encoding needs of each of them.
    pub records: &'a [ResolvedLine],
    /// The margin with which it is encoded.
    pub margin: Margin,
    /// The distance of each position from the start, in decimetres.
    pub distances: &'a [u128],
    ghost joined: { AreJoined (M.map map.now) lines.now } by { AreJoined-prop (M.map map.now) lines.now },
    ghost resolved: { records.now ≡ records_of (M.map map.now) (M.node_slot map.now) lines.now },
    ghost measured: { DistancesTo (M.map map.now) lines.now (length lines.now) distances.now },
}

impl<M: MapRead> ResolvedPath<'_, M> {
    /// The record of line `k`.
    #[tactic(auto, using(crate::proofs::Joined::known_get))]
    pub(crate) fn line(&self, k: usize) -> &Line
        requires { k < length self.now.lines.now }
        ensures value { result.now ≡ line_at (M.map self.now.map.now) (slice_index self.now.lines.now k) }
        ensures good { IsTrue (is_good result.now) }
        ensures from { IsTrue (has_node (M.map self.now.map.now) result.now.from) }
        ensures to { IsTrue (has_node (M.map self.now.map.now) result.now.to) }
    {
        self.map.line(self.lines[k]).unwrap()
    }

    /// What the path has of line `k`.
    #[tactic(auto, using(crate::proofs::Resolving::records_length))]
    pub(crate) fn resolved_line(&self, k: usize) -> ResolvedLine
        requires { k < length self.now.lines.now }
        ensures value { result
            ≡ record_of (M.map self.now.map.now) (M.node_slot self.now.map.now) (slice_index self.now.lines.now k) }
        ensures resolved { IsResolved (M.map self.now.map.now) (M.node_slot self.now.map.now) result }
        ensures from { IsTrue (has_node (M.map self.now.map.now) result.from) }
        ensures to { IsTrue (has_node (M.map self.now.map.now) result.to) }
    {
        self.records[k]
    }

    /// The node at position `k`, and its slot.
    #[tactic(auto, using(olr_spec::proofs::ListLemmas::last_index))]
    pub(crate) fn node_and_slot(&self, k: usize) -> (NodeId, u32)
        requires some { 0 < length self.now.lines.now }
        requires within { k ≤ length self.now.lines.now }
        ensures node { result.0 ≡ node_at (M.map self.now.map.now) self.now.lines.now k }
        ensures slot { result.1
            ≡ M.node_slot self.now.map.now (node_at (M.map self.now.map.now) self.now.lines.now k) }
        ensures known { IsTrue (has_node (M.map self.now.map.now) result.0) }
    {
        if k < self.lines.len() {
            let line = self.resolved_line(k);
            (line.from, line.from_slot)
        } else {
            let line = self.resolved_line(self.lines.len() - 1);
            (line.to, line.to_slot)
        }
    }

    /// The node at position `k`.
    pub(crate) fn node(&self, k: usize) -> NodeId
        requires some { 0 < length self.now.lines.now }
        requires within { k ≤ length self.now.lines.now }
        ensures value { result ≡ node_at (M.map self.now.map.now) self.now.lines.now k }
        ensures known { IsTrue (has_node (M.map self.now.map.now) result) }
    {
        self.node_and_slot(k).0
    }

    /// The node where line `k` ends.
    pub(crate) fn end(&self, k: usize) -> NodeId
        requires { k < length self.now.lines.now }
        ensures value { result ≡ end (M.map self.now.map.now) (slice_index self.now.lines.now k) }
        ensures known { IsTrue (has_node (M.map self.now.map.now) result) }
    {
        self.resolved_line(k).to
    }

    /// Whether the node at position `k` is a degree-two node.
    pub(crate) fn is_passing(&self, k: usize) -> bool
        requires some { 0 < length self.now.lines.now }
        requires within { k ≤ length self.now.lines.now }
        ensures { result ≡ passing (M.map self.now.map.now) (node_at (M.map self.now.map.now) self.now.lines.now k) }
    {
        let (node, slot) = self.node_and_slot(k);
        passing_at(self.map, node, slot)
    }

    /// The coordinate of position `k`.
    pub(crate) fn place(&self, k: usize) -> Coord
        requires some { 0 < length self.now.lines.now }
        requires within { k ≤ length self.now.lines.now }
        ensures at { result ≡ coord_at (M.map self.now.map.now)
            (node_at (M.map self.now.map.now) self.now.lines.now k) }
        ensures position { result ≡ position (legs (M.map self.now.map.now) self.now.lines.now) k }
    {
        coord_of(self.map, self.node(k))
    }

    /// The distance from position `i` on to position `j`, in decimetres.
    pub(crate) fn between(&self, i: usize, j: usize) -> u128
        requires order { i ≤ j }
        requires within { j ≤ length self.now.lines.now }
        ensures value { result ≡ dm_of (M.map self.now.map.now) (stretch self.now.lines.now i j) }
        ensures legs { result ≡ dm_between (legs (M.map self.now.map.now) self.now.lines.now) i j }
    {
        self.distances[j] - self.distances[i]
    }
}

/// The coordinate of a node of the map.
pub fn coord_of<M: MapRead>(map: &M, node: NodeId) -> Coord
    requires { IsTrue (has_node (M.map map.now) node) }
    ensures { result ≡ coord_at (M.map map.now) node }
{
    map.node(node).unwrap()
}

/// The distance of each position from the start, in decimetres. 128 bits suffice for any list of lines.
pub fn distances(alloc: Global, records: &[ResolvedLine]) -> Result<Vec<u128>, AllocError>
    ensures { IfOk result (λ distances. (M : Map) (slot : ℕ → ℕ) (ls : List ℕ) → records.now ≡ records_of M slot ls
        → DistancesTo M ls (length ls) distances.items) }
{
    let mut distances = Vec::with_capacity(alloc, records.len() + 1)?;
    let mut along: u128 = 0;
    distances.push(along)?;
    for record in records {
        along += u128::from(record.len);
        distances.push(along)?;
    }
    Ok(distances)
}
