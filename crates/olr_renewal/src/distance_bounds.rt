//! Distance bounds by slot, which cut the search from an edit.
ghost use Rattle.std.specs.Prelude.{◌≡◌, ◌≤◌, ℕ, Option, Some, OnOk, IsTrue, nat_eq, ◌<◌, ◌-◌, ◌↔◌, List, [], None, IsFalse, min};
ghost use Rattle.std.specs.HashMap.{get};
ghost use Rattle.olr_spec.specs.Map.{has_node, Map, has};
ghost use Rattle.olr_search.specs.Frontiers.{Moves, label_of};
ghost use Rattle.olr_search.specs.Searches.{CoversSlots};
ghost use Rattle.olr_renewal.specs.Bounds.{AreLed, IsFollowed, source_of, bound_at, IsSource, IsRight, IsUnderWay, IsEdit};
ghost use Rattle.olr_renewal.specs.Bounds.{IsUnbounded, IsLowered, IsReopened};

use olr_model::{MapRead, NodeId, NumberHasher};
use olr_search::{Direction, Frontier, GREATEST_LIMIT, ends_from};
use std::alloc::{AllocError, Global};
use std::collections::HashMap;
use std::hash::BuildHasherDefault;

/// The bounds are begun from scratch only after searches that found no path have labelled more nodes than this.
const LEAST_WASTED: usize = 65_536;

/// A bound, in decimetres, for each node that a query reaches. A query begins at its source and has a length, and reaches
/// the nodes that a route of at most that length leads to. The bound is at most `GREATEST_LIMIT` less what is left of the
/// query's length at the node. If lines get longer or are removed, or queries are removed, bounds may be too small, and
/// nodes that no query reaches may have one.
///
/// Bounds are stored by the slots of the nodes, see `MapRead::slot_of`. All calls must be given the same map, before or
/// after edits: a node that stays must keep its slot, and a node that is added must have no lines at first.
///
/// If an allocation fails, the bounds are invalid until `clear`.
pub struct DistanceBounds {
    alloc: Global,
    /// By node number, the bound that the queries from the node require there: the limit less the longest one's length.
    sources: HashMap<u32, u32, BuildHasherDefault<NumberHasher>>,
    /// The bounds by slot. Outside `settle` nothing is queued.
    pub(crate) bounds: Frontier,
    /// The nodes whose sources and lines are to be looked at again.
    opened: Vec<NodeId>,
    valid: bool,
    /// How many nodes were labelled by searches that found no affected path, since the bounds were begun.
    wasted_labels: usize,
}

// Written out: a derived drop is proved again in each crate that ends bounds.
impl Drop for DistanceBounds {
    fn drop(self) {
        let DistanceBounds {
            alloc: _,
            sources,
            bounds,
            opened,
            valid: _,
            wasted_labels: _,
        } = self;
        drop(sources);
        drop(bounds);
        drop(opened);
    }
}

/// Lowers the bounds at the far ends of the lines from the node in a slot to its bound and the line's length, within
/// the limit, and queues their slots. No effect if the slot is free, or has no bound.
fn follow<M: MapRead>(map: &M, slot: u32, bounds: &mut Frontier) -> Result<(), AllocError>
    requires { CoversSlots (M.map map.now) (M.node_slot map.now) bounds.old }
    ensures moves { OnOk result (Moves bounds.old bounds.new) }
    ensures followed { OnOk result ((v : ℕ) → IsTrue (has_node (M.map map.now) v) → M.node_slot map.now v ≡ slot
        → IsFollowed (M.map map.now) (M.node_slot map.now) bounds.new v) }
    ensures led { OnOk result ((S : ℕ → Option ℕ)
        → AreLed (M.map map.now) (M.node_slot map.now) S (label_of bounds.old) (label_of bounds.new)) }
{
    let length = bounds.label(slot);
    if length > GREATEST_LIMIT || map.node_at(slot).is_none() {
        return Ok(());
    }
    let room = GREATEST_LIMIT - length;
    for end in ends_from(map, Direction::Along, slot) {
        if end.len <= room {
            bounds.relax(end.slot, length + end.len, 0)?;
        }
    }
    Ok(())
}

/// Lowers a node's bound to what the queries from the node require, and follows its lines. No effect if the node is not on
/// the map.
fn look_at<M: MapRead>(
    map: &M,
    node: NodeId,
    sources: &HashMap<u32, u32, BuildHasherDefault<NumberHasher>>,
    bounds: &mut Frontier,
) -> Result<(), AllocError>
    requires { CoversSlots (M.map map.now) (M.node_slot map.now) bounds.old }
    ensures moves { OnOk result (Moves bounds.old bounds.new) }
    ensures followed { OnOk result (IsFollowed (M.map map.now) (M.node_slot map.now) bounds.new node) }
    ensures met { OnOk result ((d : ℕ) → get nat_eq sources.now node ≡ Some d
        → IsTrue (has_node (M.map map.now) node) → label_of bounds.new (M.node_slot map.now node) ≤ d) }
    ensures led { OnOk result (AreLed (M.map map.now) (M.node_slot map.now) (λ v. get nat_eq sources.now v)
        (label_of bounds.old) (label_of bounds.new)) }
{
    let Some(slot) = map.slot_of(node) else {
        return Ok(());
    };
    if let Some(bound) = sources.get(&node.number()) {
        bounds.relax(slot, *bound, 0)?;
    }
    follow(map, slot, bounds)
}

impl DistanceBounds {
    ghost use Rattle.olr_spec.specs.Detours.{Near};

    /// No sources and no bounds. Does not allocate.
    pub fn new(alloc: Global) -> DistanceBounds
        ensures valid { IsTrue result.valid }
        ensures under_way { (M : Map) (s : ℕ → ℕ) (T : List ℕ) → IsUnderWay M s T result }
        ensures sources { (v : ℕ) → source_of result v ≡ None }
        ensures bounds { (p : ℕ) → GREATEST_LIMIT < bound_at result p }
    {
        DistanceBounds {
            alloc,
            sources: HashMap::with_hasher(alloc, BuildHasherDefault::new()),
            bounds: Frontier::new(alloc),
            opened: Vec::new(alloc),
            valid: true,
            wasted_labels: 0,
        }
    }

    /// Whether the bounds are valid.
    pub fn is_valid(&self) -> bool
        ensures { result ≡ self.now.valid }
    {
        self.valid
    }

    /// Discards all sources and bounds, and starts from scratch. Does not allocate.
    pub fn clear(&mut self)
        ensures valid { IsTrue self.new.valid }
        ensures under_way { (M : Map) (s : ℕ → ℕ) (T : List ℕ) → IsUnderWay M s T self.new }
        ensures sources { (v : ℕ) → source_of self.new v ≡ None }
        ensures bounds { (p : ℕ) → GREATEST_LIMIT < bound_at self.new p }
    {
        if !self.sources.is_empty() {
            self.sources = HashMap::with_hasher(self.alloc, BuildHasherDefault::new());
        }
        self.bounds.clear();
        self.opened.clear();
        self.valid = true;
        self.wasted_labels = 0;
    }

    /// Makes the bounds invalid, and frees their memory.
    pub fn forget(&mut self)
        ensures { IsFalse self.new.valid }
    {
        *self = DistanceBounds::new(self.alloc);
        self.valid = false;
    }

    /// Adds labels of a search that found no affected path; nothing else changes. True if the bounds are to begin from
    /// scratch: they are invalid, or these labels are more in all than it costs to do so for a number of paths.
    pub fn add_wasted_labels(&mut self, labels: usize, paths: usize) -> bool
        ensures { self.new ≡ record self.old { wasted_labels = self.new.wasted_labels } }
    {
        self.wasted_labels = self.wasted_labels.saturating_add(labels);
        let bounded = self.bounds.labelled_slots().len();
        let cost = bounded.saturating_add(paths).saturating_mul(4);
        !self.valid || self.wasted_labels > cost.saturating_add(LEAST_WASTED)
    }

    /// Whether the bounds are settled: no node is to be looked at again.
    #[tactic(auto, using(crate::proofs::BoundLemmas::settled_at_once))]
    pub fn is_settled(&self) -> bool
        ensures { IsTrue result → (M : Map) (s : ℕ → ℕ) → IsUnderWay M s [] self.now → IsRight M s self.now }
    {
        self.opened.is_empty()
    }

    /// Whether a node of the map has a bound, or a query begins at the node.
    fn is_near<M: MapRead>(&self, map: &M, node: NodeId) -> bool
        ensures { IsFalse result ↔ IsUnbounded (M.map map.now) (M.node_slot map.now) self.now node }
    {
        match map.slot_of(node) {
            Some(slot) if self.bounds.label(slot) <= GREATEST_LIMIT => true,
            _ => self.sources.contains_key(&node.number()),
        }
    }

    /// Whether it is known that no query reaches one of the nodes. If so, edits that touch no other nodes leave the bounds
    /// as right as they are. The map may be the one before the edits, or the one after them.
    pub fn are_unbounded<M: MapRead>(&self, map: &M, nodes: &[NodeId]) -> bool
        ensures exact { IsTrue result ↔ (IsTrue self.now.valid × ((v : ℕ) → IsTrue (has nodes.now v)
            → IsUnbounded (M.map map.now) (M.node_slot map.now) self.now v)) }
        ensures unbounded { IsTrue result → (N : Map) (r : ℕ → ℕ) (s w : ℕ)
            → IsEdit nodes.now (M.map map.now) (M.node_slot map.now) N r → IsRight N r self.now
            → IsSource self.now s w → ¬ Near N nodes.now s (min w GREATEST_LIMIT) }
        ensures spared { IsTrue result → (N : Map) (r : ℕ → ℕ)
            → IsEdit nodes.now (M.map map.now) (M.node_slot map.now) N r
            → IsUnderWay (M.map map.now) (M.node_slot map.now) [] self.now → IsUnderWay N r [] self.now }
    {
        if !self.valid {
            return false;
        }
        if self.bounds.labelled_slots().is_empty() && self.sources.is_empty() {
            return true;
        }
        for node in nodes {
            if self.is_near(map, *node) {
                return false;
            }
        }
        true
    }

    /// Adds a query of a length in decimetres that begins at the source, which is then to be looked at again. If an
    /// allocation fails, the bounds are invalid.
    pub fn add(&mut self, source: NodeId, within: u32)
        ensures source { IsSource self.new source within }
        ensures lowered { IsTrue self.new.valid → IsLowered self.old self.new source (GREATEST_LIMIT - within) }
        ensures bounds { IsTrue self.new.valid → (p : ℕ) → bound_at self.new p ≡ bound_at self.old p }
        ensures sources { (v w : ℕ) → IsSource self.old v w → IsSource self.new v w }
        ensures under_way { (M : Map) (s : ℕ → ℕ) (T : List ℕ) → IsUnderWay M s T self.old
            → IsUnderWay M s T self.new }
    {
        if self
            .lower(source, GREATEST_LIMIT.saturating_sub(within))
            .is_err()
        {
            self.forget();
        }
    }

    /// Has these nodes looked at again when the bounds are settled: required of the nodes that edits touched. If an
    /// allocation fails, the bounds are invalid.
    pub fn reopen(&mut self, nodes: &[NodeId])
        ensures sources { (v w : ℕ) → IsSource self.old v w → IsSource self.new v w }
        ensures bounds { IsTrue self.new.valid → (p : ℕ) → bound_at self.new p ≡ bound_at self.old p }
        ensures under_way { (M : Map) (s : ℕ → ℕ) → IsUnderWay M s nodes.now self.old → IsUnderWay M s [] self.new }
    {
        match self.opened.extend_from_slice(nodes) {
            Ok(()) => (),
            Err(_) => self.forget(),
        }
    }

    /// Looks at the open nodes again, and follows lines until the bounds are right. If an allocation fails, the bounds are
    /// invalid.
    pub fn settle<M: MapRead>(&mut self, map: &M)
        ensures sources { (v w : ℕ) → IsSource self.old v w → IsSource self.new v w }
        ensures same { IsTrue self.new.valid → (v : ℕ) → source_of self.new v ≡ source_of self.old v }
        ensures right { IsUnderWay (M.map map.now) (M.node_slot map.now) [] self.old
            → IsRight (M.map map.now) (M.node_slot map.now) self.new }
        ensures reached { IsTrue self.new.valid → AreLed (M.map map.now) (M.node_slot map.now) (source_of self.old)
            (bound_at self.old) (bound_at self.new) }
    {
        if self.settle_open(map).is_err() {
            self.forget();
        }
    }

    /// Lowers what the queries from a node require there to a bound in decimetres, and opens the node. No effect if it is
    /// no greater.
    fn lower(&mut self, source: NodeId, bound: u32) -> Result<(), AllocError>
        ensures lowered { OnOk result (IsLowered self.old self.new source bound) }
        ensures reopened { OnOk result (IsReopened self.old self.new) }
    {
        if let Some(least) = self.sources.get(&source.number())
            && *least <= bound
        {
            return Ok(());
        }
        self.opened.push(source)?;
        self.sources.insert(source.number(), bound)?;
        Ok(())
    }

    /// Looks at the open nodes again, and follows the lines from each node whose bound becomes less.
    fn settle_open<M: MapRead>(&mut self, map: &M) -> Result<(), AllocError>
        ensures same { OnOk result ((v : ℕ) → source_of self.new v ≡ source_of self.old v) }
        ensures valid { OnOk result (self.new.valid ≡ self.old.valid) }
        ensures right { OnOk result (IsUnderWay (M.map map.now) (M.node_slot map.now) [] self.old
            → IsRight (M.map map.now) (M.node_slot map.now) self.new) }
        ensures reached { OnOk result (AreLed (M.map map.now) (M.node_slot map.now) (source_of self.old)
            (bound_at self.old) (bound_at self.new)) }
    {
        self.bounds.make_room(map.slot_count())?;
        while let Some(node) = self.opened.pop() {
            look_at(map, node, &self.sources, &mut self.bounds)?;
        }
        while let Some(next) = self.bounds.pop_within(GREATEST_LIMIT) {
            let (_, slot) = next;
            follow(map, slot, &mut self.bounds)?;
        }
        Ok(())
    }
}
