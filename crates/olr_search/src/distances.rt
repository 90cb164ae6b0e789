//! A Dijkstra search that can be continued: distances only, from one node or from several, along the lines or against
//! them.
ghost use Rattle.std.specs.Prelude.{◌≡◌, ◌==◌, ◌≢◌, ◌↔◌, ◌≤◌, ◌+◌, ℕ, List, [], ◌∷◌, ◌++◌, Some, Contains, OnOk, IfOk};
ghost use Rattle.std.specs.Prelude.{IsTrue, length, max};
ghost use Rattle.std.specs.List.{IsDistinct};
ghost use Rattle.std.specs.List.Sorted.{IsStrictlyIncreasing};
ghost use Rattle.olr_spec.specs.Map.{Map, has_node, has_line, start as start_node, end, dm, lines_in};
ghost use Rattle.olr_spec.specs.Margins.{Margin, counted};
ghost use Rattle.olr_model.specs.Ends.{ends_in};
ghost use Rattle.olr_spec.specs.Routes.{UniqueShortest, dm_of};
ghost use Rattle.olr_search.specs.Distances.{IsDistance, Leads};
ghost use Rattle.olr_search.specs.Frontiers.{label_of};
ghost use Rattle.olr_search.specs.Lengths.{AreFit, IsSearchedAs, MayCount};
ghost use Rattle.olr_search.specs.Searches.{IsSearch, LiesWithin, StaysWithin};
ghost use Rattle.olr_search.specs.Searches.{IsOnlyPredecessor, limit_of};
ghost use Rattle.olr_search.specs.Bounds.{AreBounds, AreLengths, IsUnder, label_at};
ghost use Rattle.olr_search.specs.declared.distances.Direction.TheVariants.{Along};

use crate::bounds::Anywhere;
use crate::frontier::{Frontier, GREATEST_LIMIT};
use crate::lengths::{AsOnMap, Lengths};
use crate::resolved::ResolvedLine;
use crate::steps::{label_node, settle};
use olr_model::{LineEnd, LineId, MapRead, NodeId};
use std::alloc::{AllocError, Global};

/// Along the lines, or against them.
#[derive(Clone, Copy, PartialEq, Eq)]
pub enum Direction {
    /// From where a line begins to where it ends.
    Along,
    /// From where a line ends to where it begins.
    Against,
}

/// Shortest distances from some nodes, each with a start value. One search can be begun again any number of times: its
/// table is allocated once, as long as the map needs, and only its labelled entries are reset.
///
/// All calls between one `begin` and the next must be given the same map. After an error the search must be begun again
/// before it is used.
#[derive(Drop)]
pub struct Dijkstra {
    direction: Direction,
    limit: u32,
    frontier: Frontier,
}

impl Dijkstra {
    /// A search that has not begun. Does not allocate.
    pub fn new(alloc: Global) -> Dijkstra
        ensures { limit_of result ≡ 0 }
    {
        Dijkstra {
            direction: Direction::Along,
            limit: 0,
            frontier: Frontier::new(alloc),
        }
    }

    /// Discards the previous search, begins one at these nodes, each with a start value in decimetres, and settles it to
    /// the limit 0. Nodes that are not on the map are skipped. Takes time proportional to the number of these nodes, of
    /// the lines from those with the start value 0, and of the previous search's labels.
    pub fn begin<M: MapRead>(
        &mut self,
        map: &M,
        direction: Direction,
        from: &[(NodeId, u32)],
    ) -> Result<(), AllocError>
        ensures search { OnOk result (IsSearch (M.map map.now) (M.node_slot map.now) direction from.now self.new) }
        ensures limit { OnOk result (limit_of self.new ≡ 0) }
    {
        self.frontier.clear();
        self.direction = direction;
        self.limit = 0;
        self.frontier.make_room(map.slot_count())?;
        for begin in from {
            let (node, length) = *begin;
            if let Some(slot) = map.slot_of(node) {
                label_node(map, direction, &Anywhere, slot, length, &mut self.frontier)?;
            }
        }
        settle(map, direction, 0, &Anywhere, &AsOnMap, &mut self.frontier)?;
        Ok(())
    }

    /// Continues the search to a limit in decimetres. Its labels are then those of a search within this limit, or
    /// within a greater one to which it was settled before. It goes no farther: lines are followed only from nodes within
    /// the limit.
    #[tactic(auto, using(crate::proofs::MarkLemmas::plain))]
    pub fn settle_to<M: MapRead>(&mut self, map: &M, limit: u32) -> Result<(), AllocError>
        requires small { limit ≤ GREATEST_LIMIT }
        requires begun { (direction : _) × (from : List (ℕ × ℕ))
            × IsSearch (M.map map.now) (M.node_slot map.now) direction from self.old }
        ensures search { OnOk result ((direction : _) (from : List (ℕ × ℕ))
            → IsSearch (M.map map.now) (M.node_slot map.now) direction from self.old
            → IsSearch (M.map map.now) (M.node_slot map.now) direction from self.new) }
        ensures limit { OnOk result (limit_of self.new ≡ max (limit_of self.old) limit) }
        ensures near { OnOk result ((direction : _) (from : List (ℕ × ℕ))
            → IsSearch (M.map map.now) (M.node_slot map.now) direction from self.old
            → StaysWithin (M.map map.now) (M.node_slot map.now) direction limit (label_at self.old)
            (label_at self.new)) }
    {
        self.settle_by(map, &AsOnMap, limit)
    }

    /// Continues the search along the lines, as `settle_to` does, on the map as it counts for one line more: `own`, whose
    /// record has the length that it counts, in decimetres, in place of that on the map. Its start must not be settled
    /// yet, and the starts of those that count already must be (profile, margin).
    pub fn settle_counting<M: MapRead>(
        &mut self,
        map: &M,
        own: &ResolvedLine,
        limit: u32,
    ) -> Result<(), AllocError>
        requires small { limit ≤ GREATEST_LIMIT }
        requires begun { (g : Margin) × (xs : List ℕ) × (from : List (ℕ × ℕ))
            × MayCount (M.map map.now) (M.node_slot map.now) g xs own.now self.old
            × IsSearch (counted g (M.map map.now) xs) (M.node_slot map.now) Along from self.old }
        ensures search { OnOk result ((g : Margin) (xs : List ℕ) (from : List (ℕ × ℕ))
            → MayCount (M.map map.now) (M.node_slot map.now) g xs own.now self.old
            → IsSearch (counted g (M.map map.now) xs) (M.node_slot map.now) Along from self.old
            → IsSearch (counted g (M.map map.now) (xs ++ own.now.id ∷ [])) (M.node_slot map.now) Along from self.new) }
        ensures limit { OnOk result (limit_of self.new ≡ max (limit_of self.old) limit) }
    {
        self.settle_by(map, own, limit)
    }

    /// Continues the search to a limit in decimetres, where lines have these lengths.
    fn settle_by<M: MapRead, L: Lengths>(
        &mut self,
        map: &M,
        lengths: &L,
        limit: u32,
    ) -> Result<(), AllocError>
        requires small { limit ≤ GREATEST_LIMIT }
        requires begun { (N : Map) × (direction : _) × (from : List (ℕ × ℕ))
            × IsSearchedAs (M.map map.now) N (M.node_slot map.now) direction (L.counts lengths.now) self.old.frontier
            (limit_of self.old + 1)
            × IsSearch N (M.node_slot map.now) direction from self.old }
        requires fit { AreFit (L.counts lengths.now) }
        ensures search { OnOk result ((N : Map) (direction : _) (from : List (ℕ × ℕ))
            → IsSearchedAs (M.map map.now) N (M.node_slot map.now) direction (L.counts lengths.now) self.old.frontier
            (limit_of self.old + 1)
            → IsSearch N (M.node_slot map.now) direction from self.old
            → IsSearch N (M.node_slot map.now) direction from self.new) }
        ensures limit { OnOk result (limit_of self.new ≡ max (limit_of self.old) limit) }
        ensures near { OnOk result ((N : Map) (direction : _) (from : List (ℕ × ℕ))
            → IsSearchedAs (M.map map.now) N (M.node_slot map.now) direction (L.counts lengths.now) self.old.frontier
            (limit_of self.old + 1)
            → IsSearch N (M.node_slot map.now) direction from self.old
            → StaysWithin N (M.node_slot map.now) direction limit (label_at self.old) (label_at self.new)) }
    {
        settle(
            map,
            self.direction,
            limit,
            &Anywhere,
            lengths,
            &mut self.frontier,
        )?;
        self.limit = self.limit.max(limit);
        Ok(())
    }

    /// Settles on as far as bounds let it: a node is labelled only if the sum of its bound (the label of its slot in
    /// `bounds`) and its label is at most `GREATEST_LIMIT`. If each line that is followed to a node with a bound begins at
    /// one whose bound is at most that and the line's length together, a label is the least length wherever that sum is
    /// within the limit. Afterwards only `is_within` and `labelled_slots` may be called, until the search is begun again.
    pub fn settle_under<M: MapRead>(&mut self, map: &M, bounds: &Frontier) -> Result<(), AllocError>
        requires begun { (direction : _) × (from : List (ℕ × ℕ))
            × IsSearch (M.map map.now) (M.node_slot map.now) direction from self.old }
        ensures labelled { OnOk result ((direction : _) (from : List (ℕ × ℕ))
            → IsSearch (M.map map.now) (M.node_slot map.now) direction from self.old
            → AreLengths (M.map map.now) (M.node_slot map.now) direction from self.new) }
        ensures settled { OnOk result ((direction : _) (from : List (ℕ × ℕ))
            → IsSearch (M.map map.now) (M.node_slot map.now) direction from self.old
            → AreBounds (M.map map.now) (M.node_slot map.now) direction bounds.now
            → (v d : ℕ) → IsTrue (has_node (M.map map.now) v) → IsUnder bounds.now (M.node_slot map.now v) d
            → Leads (M.map map.now) direction from v d → label_at self.new (M.node_slot map.now v) ≤ d) }
    {
        settle(
            map,
            self.direction,
            GREATEST_LIMIT,
            bounds,
            &AsOnMap,
            &mut self.frontier,
        )?;
        Ok(())
    }

    /// Whether the node in this slot of the map has a label of at most a length in decimetres.
    pub fn is_within(&self, slot: u32, length: u32) -> bool
        ensures { IsTrue result ↔ (label_at self.now slot ≤ length) }
    {
        self.frontier.label(slot) <= length
    }

    /// The distance of a node in decimetres. None where it is beyond the limit that the search has been settled to.
    pub fn dist<M: MapRead>(&self, map: &M, node: NodeId) -> Option<u32>
        ensures { (direction : _) (from : List (ℕ × ℕ)) (d : ℕ)
            → IsSearch (M.map map.now) (M.node_slot map.now) direction from self.now
            → ((result ≡ Some d) ↔ (IsDistance (M.map map.now) direction from node d × (d ≤ limit_of self.now))) }
    {
        let slot = map.slot_of(node)?;
        self.dist_at(slot)
    }

    /// The distance, as in `dist`, of the node in this slot of the map.
    pub fn dist_at(&self, slot: u32) -> Option<u32>
        ensures { (M : Map) (node_slot : ℕ → ℕ) (direction : _) (from : List (ℕ × ℕ)) (v d : ℕ)
            → IsSearch M node_slot direction from self.now → IsTrue (has_node M v) → node_slot v ≡ slot
            → ((result ≡ Some d) ↔ (IsDistance M direction from v d × (d ≤ limit_of self.now))) }
    {
        let label = self.frontier.label(slot);
        if label <= self.limit {
            Some(label)
        } else {
            None
        }
    }

    /// The limit to which the search has been settled since it began, in decimetres.
    pub fn limit(&self) -> u32
        ensures { result ≡ limit_of self.now }
    {
        self.limit
    }

    /// The slots of the nodes that the search has labelled, each once: those within the limit to which it is settled,
    /// and some beyond it, up to `GREATEST_LIMIT`. In no particular order.
    pub fn labelled_slots(&self) -> &[u32]
        ensures near { (M : Map) (node_slot : ℕ → ℕ) (direction : _) (from : List (ℕ × ℕ)) (v : ℕ)
            → IsSearch M node_slot direction from self.now → LiesWithin M direction from (limit_of self.now) v
            → Contains result.now (node_slot v) }
        ensures labelled { (M : Map) (node_slot : ℕ → ℕ) (direction : _) (from : List (ℕ × ℕ)) (v : ℕ)
            → AreLengths M node_slot direction from self.now → IsTrue (has_node M v)
            → label_at self.now (node_slot v) ≤ GREATEST_LIMIT → Contains result.now (node_slot v) }
        ensures once { (M : Map) (node_slot : ℕ → ℕ) (direction : _) (from : List (ℕ × ℕ))
            → IsSearch M node_slot direction from self.now → IsDistinct ◌==◌ result.now }
        ensures reached { (M : Map) (node_slot : ℕ → ℕ) (direction : _) (from : List (ℕ × ℕ)) (p : ℕ)
            → IsSearch M node_slot direction from self.now → Contains result.now p
            → (v : ℕ) × ((d : ℕ) × Leads M direction from v d × (d ≤ GREATEST_LIMIT)) × (node_slot v ≡ p) }
        ensures exactly { (M : Map) (node_slot : ℕ → ℕ) (direction : _) (from : List (ℕ × ℕ)) (v : ℕ)
            → IsSearch M node_slot direction from self.now → limit_of self.now ≡ GREATEST_LIMIT
            → IsTrue (has_node M v) → Contains result.now (node_slot v)
            → LiesWithin M direction from GREATEST_LIMIT v }
    {
        self.frontier.labelled_slots()
    }

    /// The nodes within the limit to which the search is settled, in ascending order.
    pub fn nodes<M: MapRead>(&self, alloc: Global, map: &M) -> Result<Vec<NodeId>, AllocError>
        ensures ascending { IfOk result (λ nodes. (direction : _) (from : List (ℕ × ℕ))
            → IsSearch (M.map map.now) (M.node_slot map.now) direction from self.now
            → IsStrictlyIncreasing nodes.items) }
        ensures nodes { IfOk result (λ nodes. (direction : _) (from : List (ℕ × ℕ)) (v : ℕ)
            → IsSearch (M.map map.now) (M.node_slot map.now) direction from self.now →
            (Contains nodes.items v ↔ LiesWithin (M.map map.now) direction from (limit_of self.now) v)) }
    {
        let mut nodes = self.frontier.nodes_within(alloc, map, self.limit)?;
        nodes.sort_unstable();
        Ok(nodes)
    }

    /// Whether none of the lines that enter a node but this one leads there within a length in decimetres.
    fn is_only_predecessor(
        &self,
        line: LineId,
        lines: &[LineId],
        ends: &[LineEnd],
        within: u32,
    ) -> bool
        requires { length ends.now ≤ length lines.now }
        ensures { (M : Map) (node_slot : ℕ → ℕ) (v : ℕ) → lines.now ≡ lines_in M v → ends.now ≡ ends_in M node_slot v
            → (IsTrue result ↔ IsOnlyPredecessor M node_slot self.now.frontier line v within) }
    {
        for (index, end) in ends.iter().enumerate() {
            if lines[index] != line
                && end.len <= within
                && self.frontier.label(end.slot) <= within - end.len
            {
                return false;
            }
        }
        true
    }

    /// Whether a line extends the unique shortest path to its start to the unique shortest path to its end, on the map as
    /// it counts for these lines and this one, whose record has the length that it counts. Unspecified if there is no
    /// unique shortest path to its start, or if the extended one is longer than the limit to which the search is settled
    /// and one decimetre.
    pub fn extends_unique_shortest<M: MapRead>(&self, map: &M, line: ResolvedLine) -> bool
        requires known { IsTrue (has_line (M.map map.now) line.id) }
        requires from { line.from_slot ≡ M.node_slot map.now (start_node (M.map map.now) line.id) }
        requires to { line.to_slot ≡ M.node_slot map.now (end (M.map map.now) line.id) }
        ensures { (g : Margin) (s b : ℕ) (route : List ℕ)
            → IsSearch (counted g (M.map map.now) (route ++ line.id ∷ [])) (M.node_slot map.now) Along ((s, b) ∷ [])
            self.now
            → line.len ≡ dm (counted g (M.map map.now) (route ++ line.id ∷ [])) line.id
            → UniqueShortest (counted g (M.map map.now) (route ++ line.id ∷ [])) s
            (start_node (M.map map.now) line.id) route
            → b + (dm_of (counted g (M.map map.now) (route ++ line.id ∷ [])) route + line.len)
            ≤ limit_of self.now + 1
            → (IsTrue result ↔ UniqueShortest (counted g (M.map map.now) (route ++ line.id ∷ [])) s
            (end (M.map map.now) line.id) (route ++ line.id ∷ [])) }
    {
        let length = self.frontier.label(line.to_slot);
        if self.frontier.label(line.from_slot).saturating_add(line.len) != length {
            return false;
        }
        let entering = map.in_lines_at(line.to_slot);
        self.is_only_predecessor(line.id, entering.lines, entering.ends, length)
    }
}
