//! Runs of degree-two nodes, by which the ends of a path are extended to valid nodes: along its lines from the last one,
//! and against them from the first.
ghost use Rattle.std.specs.Prelude.{◌≡◌, ◌<◌, ◌≤◌, ◌+◌, ◌⊎◌, IsTrue, if◌then◌else◌, IfOk, IfSome, IfNone};
ghost use Rattle.std.specs.Prelude.{◌≢◌, ℕ, MatchOption, length, reverse, [], ⊤};
ghost use Rattle.std.specs.List.Sorted.{IsNonDecreasing};
ghost use Rattle.olr_spec.specs.Map.{Map, has_line, has};
ghost use Rattle.olr_spec.specs.Extension.{limit};
ghost use Rattle.olr_search.specs.Distances.{near_end, far_end, lines_at, ends_at};
ghost use Rattle.olr_refs.specs.Runs.{outermost, in_order, GrowsBy, LiesBeyond, IsRun};
ghost use Rattle.olr_search.specs.ResolvedLines.{IsResolved, record_of};
ghost use Rattle.olr_refs.specs.ResolvedLines.{ids, AreRecords};

use crate::nodes::passing_at;
use crate::resolved::ids_of;
use olr_model::{LineEnd, LineId, MapRead, NodeId};
use olr_search::{Direction, LEG_LIMIT, ResolvedLine, lines_from, resolve_line};
use std::alloc::{AllocError, Global};

/// A run of degree-two nodes: lines that lead through such nodes to the first line of a list, or on from its last one.
#[derive(Drop)]
pub(crate) struct DegreeTwoRun {
    /// The lines, in the order of travel.
    pub(crate) records: Vec<ResolvedLine>,
    /// Their total length, in decimetres.
    pub(crate) len: u32,
    /// Whether the node at the far end is valid; for an empty run, the node at that end of the list.
    pub(crate) valid: bool,
}

impl DegreeTwoRun {
    /// The part by which a path is extended, and the path's offset raised by its length: the whole run if it leads to a
    /// valid node, otherwise nothing.
    pub(crate) fn taken_part(&self, offset: u32) -> (&[ResolvedLine], u64)
        ensures records { result.0.now ≡ (if self.now.valid then self.now.records.items else []) }
        ensures raised { result.1 ≡ offset + (if self.now.valid then self.now.len else 0) }
    {
        if self.valid {
            (&self.records, u64::from(offset) + u64::from(self.len))
        } else {
            (&[], u64::from(offset))
        }
    }
}

/// What lies beyond an end of some lines.
#[derive(Clone, Copy)]
struct Beyond {
    /// Whether the node there is a degree-two node.
    passing: bool,
    /// The one line that leads on through it. None if the node is valid.
    line: Option<LineId>,
}

/// The longest run of degree-two nodes within the limit that leads from the last of these lines, along them, or to the
/// first of them, against them. Does not allocate in the common case, a valid end of the list.
pub(crate) fn longest_run<M: MapRead>(
    alloc: Global,
    map: &M,
    direction: Direction,
    records: &[ResolvedLine],
) -> Result<DegreeTwoRun, AllocError>
    requires some { 0 < length records.now }
    requires known { IsTrue (has_line (M.map map.now) (outermost direction (ids records.now))) }
    requires records { AreRecords (M.map map.now) (M.node_slot map.now) records.now }
    ensures { IfOk result
        (λ run. IsRun (M.map map.now) (M.node_slot map.now) direction (ids records.now) run.records.items run.len run.valid) }
{
    let mut at = line_beyond(map, direction, outermost_of(direction, records));
    if at.line.is_none() {
        return Ok(DegreeTwoRun {
            records: Vec::new(alloc),
            len: 0,
            valid: !at.passing,
        });
    }
    let mut used = ids_of(alloc, records)?;
    used.sort_unstable();
    let mut run = Vec::new(alloc);
    let mut len = 0;
    while let Some(record) = next_within(map, at.line, len, &used) {
        run.push(record)?;
        len += record.len;
        at = line_beyond(map, direction, record);
    }
    Ok(DegreeTwoRun {
        records: in_order(direction, run),
        len,
        valid: !at.passing,
    })
}

/// The lines of a run, which are listed outwards, in the order of travel.
fn in_order(direction: Direction, mut run: Vec<ResolvedLine>) -> Vec<ResolvedLine>
    ensures { result.items ≡ in_order direction (reverse run.items) }
{
    match direction {
        Direction::Along => (),
        Direction::Against => run.reverse(),
    }
    run
}

/// The line by which a run of the length `len` is extended, as the map has it. None if there is none, if it is in
/// `used`, the sorted list where the run begins, or if the run would exceed its limit. A run never reaches one of its
/// own lines before one of the list.
fn next_within<M: MapRead>(
    map: &M,
    line: Option<LineId>,
    len: u32,
    used: &[LineId],
) -> Option<ResolvedLine>
    requires known { MatchOption line ⊤ (λ x. IsTrue (has_line (M.map map.now) x)) }
    requires within { len ≤ limit }
    requires sorted { IsNonDecreasing used.now }
    ensures some { IfSome result (GrowsBy (M.map map.now) (M.node_slot map.now) line len used.now) }
    ensures none { IfNone result (MatchOption line ⊤
        (λ x. IsTrue (has used.now x) ⊎ (limit < len + (record_of (M.map map.now) (M.node_slot map.now) x).len))) }
{
    let line = line?;
    let record = resolve_line(map, line).unwrap();
    if is_listed(used, line) || record.len > LEG_LIMIT - len {
        return None;
    }
    Some(record)
}

/// Whether a line is in a sorted list.
fn is_listed(sorted: &[LineId], line: LineId) -> bool
    requires { IsNonDecreasing sorted.now }
    ensures { result ≡ has sorted.now line }
{
    sorted.binary_search(&line).is_ok()
}

/// The outermost of some lines: the last one along them, the first one against them.
fn outermost_of(direction: Direction, records: &[ResolvedLine]) -> ResolvedLine
    requires { 0 < length records.now }
    ensures { (M : Map) (slot : ℕ → ℕ) → AreRecords M slot records.now
        → result ≡ record_of M slot (outermost direction (ids records.now)) }
{
    match direction {
        Direction::Along => records[records.len() - 1],
        Direction::Against => records[0],
    }
}

/// The slot of the node where a line is entered in this direction, the node to which it leads, and that node's slot.
fn ends_of(direction: Direction, line: ResolvedLine) -> (u32, NodeId, u32)
    ensures { (M : Map) (slot : ℕ → ℕ) → line ≡ record_of M slot line.id
        → (result.0 ≡ slot (near_end M direction line.id)) × (result.1 ≡ far_end M direction line.id)
        × (result.2 ≡ slot (far_end M direction line.id)) }
{
    match direction {
        Direction::Along => (line.from_slot, line.to, line.to_slot),
        Direction::Against => (line.to_slot, line.from, line.from_slot),
    }
}

/// The first of the lines that are entered at a node which does not lead to the slot `other`.
fn first_apart(other: u32, lines: &[LineId], ends: &[LineEnd]) -> Option<LineId>
    requires { length ends.now ≤ length lines.now }
    ensures { (M : Map) (slot : ℕ → ℕ) (direction : _) (v : ℕ) → lines.now ≡ lines_at M direction v
        → ends.now ≡ ends_at M slot direction v
        → MatchOption result
        ((x : ℕ) → IsTrue (has_line M x) → near_end M direction x ≡ v → slot (far_end M direction x) ≡ other)
        (λ x. IsTrue (has_line M x) × (near_end M direction x ≡ v) × (slot (far_end M direction x) ≢ other)) }
{
    for (index, end) in ends.iter().enumerate() {
        if end.slot != other {
            return Some(lines[index]);
        }
    }
    None
}

/// What lies beyond a line: the one line that leads on from it is entered at the degree-two node to which it leads, and
/// does not lead back to where it is entered.
fn line_beyond<M: MapRead>(map: &M, direction: Direction, line: ResolvedLine) -> Beyond
    requires { IsResolved (M.map map.now) (M.node_slot map.now) line }
    ensures { LiesBeyond (M.map map.now) direction line.id result.passing result.line }
{
    let (near, far, slot) = ends_of(direction, line);
    if !passing_at(map, far, slot) {
        return Beyond {
            passing: false,
            line: None,
        };
    }
    let leaving = lines_from(map, direction, slot);
    Beyond {
        passing: true,
        line: first_apart(near, leaving.lines, leaving.ends),
    }
}
