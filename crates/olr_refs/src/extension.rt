//! Paths whose ends are extended to valid nodes.
ghost use Rattle.std.specs.Prelude.{◌≡◌, ◌⊎◌, ◌↔◌, ℕ, List, IsTrue, IfOk, OnOk, OnErr, None, Contains};
ghost use Rattle.olr_refs.specs.Extends.{ExtendedPath, Extends};
ghost use Rattle.olr_spec.specs.Map.{Map};
ghost use Rattle.olr_spec.specs.Encoding.{first_unknown};
ghost use Rattle.olr_spec.specs.Extension.{is_path};
ghost use Rattle.olr_spec.specs.Queries.{NodeOf};
ghost use Rattle.olr_refs.specs.ResolvedLines.{records_of};

use crate::degree_two_runs::longest_run;
use crate::resolved::ids_of;
use olr_answers::Path;
use olr_model::{Footprint, LineId, MapRead, NodeId};
use olr_search::{Direction, ResolvedLine};
use std::alloc::{AllocError, Global};
use std::marker::Model;

/// A path whose ends are extended to valid nodes where possible: with a run of degree-two nodes before it and one after
/// it, and with offsets that are raised by the lengths of these runs.
#[derive(Drop)]
pub struct Extended {
    /// The lines, in the order of travel.
    pub lines: Vec<LineId>,
    /// The same lines as the map has them.
    pub records: Vec<ResolvedLine>,
    /// The length that is cut off at the start, in decimetres.
    pub pos: u64,
    /// The length that is cut off at the end, in decimetres.
    pub neg: u64,
    /// How many of the lines precede the path's own.
    pub lead: usize,
}

impl Model for Extended {
    ghost Value = { ExtendedPath };

    ghost view = { λ e. record {
      path = record { lines = e.lines.items; pos = e.pos; neg = e.neg };
      records = e.records.items;
      lead = e.lead;
    } };
}

/// Extends the ends of a path to valid nodes (White Paper, rules on valid nodes; the limits are the profile's). At each
/// end the longest run of degree-two nodes of at most 15,000 m is tried, and added if it leads to a valid node; at the
/// end, the lines that were added at the start count as part of the path. Adds the nodes of the extended path and of
/// both tried runs to the footprint, and no others. If an allocation fails, the footprint is unchanged.
///
/// `own` are the path's own lines as the map has them.
pub fn extend<M: MapRead>(
    alloc: Global,
    map: &M,
    path: &Path,
    own: &[ResolvedLine],
    footprint: &mut Footprint,
) -> Result<Extended, AllocError>
    requires path { IsTrue (is_path path.now.lines) }
    requires known { first_unknown (M.map map.now) path.now.lines ≡ None }
    requires own { own.now ≡ records_of (M.map map.now) (M.node_slot map.now) path.now.lines }
    ensures ok { IfOk result
        (λ extended. Extends (M.map map.now) path.now extended.path extended.lead footprint.old footprint.new) }
    ensures records { IfOk result (λ extended. extended.records ≡ records_of (M.map map.now) (M.node_slot map.now) extended.path.lines) }
    ensures err { OnErr result (footprint.new ≡ footprint.old) }
{
    let before = longest_run(alloc, map, Direction::Against, own)?;
    let (front, pos) = before.taken_part(path.pos());
    let mut records = Vec::from_slice(alloc, front)?;
    records.extend_from_slice(own)?;
    let after = longest_run(alloc, map, Direction::Along, &records)?;
    let (back, neg) = after.taken_part(path.neg());
    records.extend_from_slice(back)?;
    let lines = ids_of(alloc, &records)?;
    note_ends(alloc, &records, &before.records, &after.records, footprint)?;
    Ok(Extended {
        lines,
        records,
        pos,
        neg,
        lead: front.len(),
    })
}

/// Adds the ends of the lines of an extended path and of both tried runs to the footprint.
fn note_ends(
    alloc: Global,
    records: &[ResolvedLine],
    before: &[ResolvedLine],
    after: &[ResolvedLine],
    footprint: &mut Footprint,
) -> Result<(), AllocError>
    ensures ok { OnOk result ((M : Map) (slot : ℕ → ℕ) (ls b a : List ℕ)
        → records.now ≡ records_of M slot ls → before.now ≡ records_of M slot b → after.now ≡ records_of M slot a
        → (v : ℕ) → Contains footprint.new v
        ↔ (Contains footprint.old v ⊎ (NodeOf M ls v ⊎ (NodeOf M b v ⊎ NodeOf M a v)))) }
    ensures err { OnErr result (footprint.new ≡ footprint.old) }
{
    let mut nodes = Vec::new(alloc);
    push_ends(records, &mut nodes)?;
    push_ends(before, &mut nodes)?;
    push_ends(after, &mut nodes)?;
    // Most lines begin where the one before ends, so half of the nodes need not be sorted.
    nodes.dedup();
    nodes.sort_unstable();
    nodes.dedup();
    footprint.note_all(&nodes)
}

/// Appends both ends of each of these lines to the nodes.
fn push_ends(records: &[ResolvedLine], nodes: &mut Vec<NodeId>) -> Result<(), AllocError>
    ensures { OnOk result ((M : Map) (slot : ℕ → ℕ) (ls : List ℕ) → records.now ≡ records_of M slot ls
        → (v : ℕ) → Contains nodes.new.items v ↔ (Contains nodes.old.items v ⊎ NodeOf M ls v)) }
{
    for record in records {
        nodes.push(record.from)?;
        nodes.push(record.to)?;
    }
    Ok(())
}
