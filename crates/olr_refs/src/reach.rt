//! How far the lines after a position are the unique shortest path.
ghost use Rattle.std.specs.Prelude.{◌≡◌, ◌+◌, ◌*◌, ◌<◌, ◌≤◌, ◌∷◌, ◌++◌, [], ℕ, List, IfOk, OnOk, IsTrue, length, max, slice_index};
ghost use Rattle.olr_spec.specs.Map.{end, dm};
ghost use Rattle.olr_spec.specs.Extension.{limit};
ghost use Rattle.olr_spec.specs.Margins.{counted, counted_dm, is_margin};
ghost use Rattle.olr_search.specs.declared.distances.Direction.TheVariants.{Along};
ghost use Rattle.olr_search.specs.ResolvedLines.{record_of};
ghost use Rattle.olr_search.specs.Searches.{IsSearch, limit_of};
ghost use Rattle.olr_refs.specs.Along.{IsLastNear};
ghost use Rattle.olr_refs.specs.Choice.{MayMark, TestedTo, begun_at};

use crate::along::ResolvedPath;
use olr_answers::Margin;
use olr_model::MapRead;
use olr_search::{Dijkstra, Direction, GREATEST_LIMIT, ResolvedLine};
use std::alloc::AllocError;

/// The start value of a search that finds how far lines are covered. With a margin it is not settled where the first of
/// them begins before that line counts longer.
fn begun_at(margin: Margin) -> u32
    ensures value { result ≡ begun_at margin }
    ensures margin { IsTrue (is_margin margin) }
{
    if margin.routes() == 0 { 0 } else { 1 }
}

/// How far the lines after a position are the unique shortest path, and how far that was tested.
#[derive(Clone, Copy)]
pub struct Tested {
    /// The last position that is covered and within the limit.
    pub reach: usize,
    /// The last position that was tested.
    pub last: usize,
    /// The length that the lines as far as there count, in decimetres.
    pub within: u32,
}

/// Line `k` with the length that it counts.
fn counted_line<M: MapRead>(resolved: &ResolvedPath<M>, k: usize) -> ResolvedLine
    requires within { k < length resolved.now.lines.now }
    requires short { dm (M.map resolved.now.map.now) (slice_index resolved.now.lines.now k) ≤ limit }
    ensures value { result ≡ record (record_of (M.map resolved.now.map.now) (M.node_slot resolved.now.map.now)
        (slice_index resolved.now.lines.now k)) {
          len = counted_dm resolved.now.margin (dm (M.map resolved.now.map.now) (slice_index resolved.now.lines.now k));
        } }
    ensures most { result.len ≤ 2 * dm (M.map resolved.now.map.now) (slice_index resolved.now.lines.now k) }
{
    let line = resolved.resolved_line(k);
    ResolvedLine {
        len: resolved.margin.counted(line.len) as u32,
        ..line
    }
}

/// Settles a search as far as the end of a line, where the lines before it count longer, and from now on this line too.
fn settle_counting<M: MapRead>(
    resolved: &ResolvedPath<M>,
    line: ResolvedLine,
    limit: u32,
    search: &mut Dijkstra,
) -> Result<(), AllocError>
    requires begun { (xs : List ℕ) × (from : List (ℕ × ℕ)) × MayMark resolved.now.margin (M.map resolved.now.map.now)
        (M.node_slot resolved.now.map.now) xs from line search.old }
    requires small { limit ≤ GREATEST_LIMIT }
    ensures search { OnOk result ((xs : List ℕ) (from : List (ℕ × ℕ))
        → MayMark resolved.now.margin (M.map resolved.now.map.now) (M.node_slot resolved.now.map.now) xs from line
        search.old
        → IsSearch (counted resolved.now.margin (M.map resolved.now.map.now) (xs ++ line.id ∷ []))
        (M.node_slot resolved.now.map.now) Along from search.new) }
    ensures limit { OnOk result (limit_of search.new ≡ max (limit_of search.old) limit) }
{
    if resolved.margin.routes() == 0 {
        search.settle_to(resolved.map, limit)
    } else {
        search.settle_counting(resolved.map, &line, limit)
    }
}

/// Tests the positions from `i` to `last_near` in order, up to the first that is not covered, by a search that begins at the
/// end of line `i` and is settled no farther than the position that is tested. The lines from there on count longer as
/// soon as it comes to them. Covered positions are consecutive, because the first lines of a unique shortest path are a
/// unique shortest path.
pub fn covered_to<M: MapRead>(
    resolved: &ResolvedPath<M>,
    i: usize,
    last_near: usize,
    search: &mut Dijkstra,
) -> Result<Tested, AllocError>
    requires some { i + 1 < length resolved.now.lines.now }
    requires last_near { IsLastNear (M.map resolved.now.map.now) resolved.now.lines.now i last_near }
    ensures { IfOk result (λ t. TestedTo resolved.now.margin (M.map resolved.now.map.now) resolved.now.lines.now i
        t.reach t.last t.within) }
{
    let begun = begun_at(resolved.margin);
    search.begin(resolved.map, Direction::Along, &[(resolved.end(i), begun)])?;
    let end = last_near.min(resolved.lines.len() - 1).max(i + 1);
    let mut within = 0;
    for k in i + 1..end {
        let line = counted_line(resolved, k);
        within += line.len;
        settle_counting(resolved, line, within, search)?;
        if !search.extends_unique_shortest(resolved.map, line) {
            return Ok(Tested {
                reach: k,
                last: k + 1,
                within,
            });
        }
    }
    Ok(Tested {
        reach: last_near,
        last: end,
        within,
    })
}
