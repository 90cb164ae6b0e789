//! Coverage queries that are known, and are not searched again.
ghost use Rattle.std.specs.Prelude.{◌≡◌, ◌+◌, ◌<◌, [], ◌∷◌, IfSome, length};
ghost use Rattle.olr_spec.specs.Queries.{IsKnownOfWith, IsLastTestedWith, query_to_with};
ghost use Rattle.olr_refs.specs.Along.{IsLastNear, IsReach};
ghost use Rattle.olr_refs.specs.Reuse.{IsReuse, IsAnswered, own_of};

use crate::along::ResolvedPath;
use crate::reach::Tested;
use olr_answers::{CoverageQuery, KnownQuery};
use olr_model::MapRead;

/// What is known of a path's coverage queries, and where its own lines lie on the extended path.
#[derive(Clone, Copy)]
pub struct Reuse<'a> {
    /// Coverage queries along the path's own lines, in ascending order of the lines where they begin: one that is out of
    /// order may be searched again.
    pub known: &'a [KnownQuery],
    /// How many lines precede the path's own.
    pub lead: usize,
    /// How many lines the path has.
    pub own: usize,
}

/// A coverage query from an LRP, and what it shows.
#[derive(Clone, Copy)]
pub struct Found {
    /// The last position that is covered and near enough.
    pub reach: usize,
    /// The query.
    pub query: CoverageQuery,
    /// The query as one along the path's own lines. None if it is not one.
    pub own: Option<KnownQuery>,
}

/// The coverage query after `i`, where it is known; positions up to `last_near` are near enough.
pub fn known_after<M: MapRead>(
    resolved: &ResolvedPath<M>,
    reuse: &Reuse,
    i: usize,
    last_near: usize,
) -> Option<Found>
    requires some { i + 1 < length resolved.now.lines.now }
    requires reuse { IsReuse resolved.now.margin (M.map resolved.now.map.now) resolved.now.lines.now reuse.now }
    requires last_near { IsLastNear (M.map resolved.now.map.now) resolved.now.lines.now i last_near }
    ensures { IfSome result (IsAnswered resolved.now.margin (M.map resolved.now.map.now) resolved.now.lines.now reuse.now i) }
{
    let first = (i + 1).checked_sub(reuse.lead)?;
    let k = reuse
        .known
        .binary_search_by_key(&first, |known| known.first as usize)
        .ok()?;
    let known = reuse.known[k];
    // It ends at the last position that can be tested, or before it if its own last position isn't covered.
    let last = reuse.lead + known.last as usize;
    let end = last_near.min(resolved.lines.len() - 1);
    if last > end || (known.covered && last != end) {
        return None;
    }
    let reach = if known.covered { last_near } else { last - 1 };
    Some(Found {
        reach,
        query: known.query,
        own: Some(known),
    })
}

/// A coverage query after `i` as one along the path's own lines, where the lines from the end of line `i` to its last
/// position are some of these.
pub fn own_query<M: MapRead>(
    resolved: &ResolvedPath<M>,
    reuse: &Reuse,
    i: usize,
    query: CoverageQuery,
    tested: Tested,
) -> Option<KnownQuery>
    requires reuse { IsReuse resolved.now.margin (M.map resolved.now.map.now) resolved.now.lines.now reuse.now }
    requires reach { IsReach resolved.now.margin (M.map resolved.now.map.now) resolved.now.lines.now i tested.reach }
    requires last { IsLastTestedWith resolved.now.margin (M.map resolved.now.map.now) resolved.now.lines.now i tested.last }
    requires query { query ≡ query_to_with resolved.now.margin (M.map resolved.now.map.now) resolved.now.lines.now i tested.last }
    ensures { IfSome result (IsKnownOfWith resolved.now.margin (M.map resolved.now.map.now) (own_of resolved.now.lines.now reuse.now) (query ∷ [])) }
{
    if i + 1 < reuse.lead || tested.last <= i + 1 || reuse.lead + reuse.own < tested.last {
        return None;
    }
    Some(KnownQuery {
        query,
        first: (i + 1 - reuse.lead) as u32,
        last: (tested.last - reuse.lead) as u32,
        covered: tested.last <= tested.reach,
    })
}
