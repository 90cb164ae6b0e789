//! The location reference points of an extended path.
ghost use Rattle.std.specs.Prelude.{◌≡◌, ℕ, List, ◌+◌, ◌<◌, ◌≤◌, [], ◌∷◌, ◌++◌, IfOk, OnOk, length};
ghost use Rattle.olr_refs.specs.Along.{IsReach};
ghost use Rattle.olr_refs.specs.Choice.{ForPoints, IsChoice};
ghost use Rattle.olr_refs.specs.Reuse.{IsReuse, IsAnswered, Queried};

use crate::along::ResolvedPath;
use crate::choice::{last_within_limit, next_of};
use crate::reach::covered_to;
use crate::reuse::{Found, Reuse, known_after, own_query};
use olr_answers::{CoverageQuery, KnownQuery};
use olr_model::MapRead;
use olr_search::Dijkstra;
use std::alloc::{AllocError, Global};

/// The LRPs of an extended path, or why there are none.
#[derive(Drop)]
pub enum Choice {
    /// The LRPs, from position 0 to the end, by position.
    Positions(Vec<usize>),
    /// There is no valid next LRP after the one at this position.
    NoNext(usize),
}

/// Coverage queries of a path.
#[derive(Drop)]
pub struct Queries {
    /// One coverage query from each LRP whose line is followed by two lines or more.
    pub all: Vec<CoverageQuery>,
    /// Those of the queries that are along the path's own lines.
    pub own: Vec<KnownQuery>,
}

/// The LRPs of an extended path, and the coverage queries by which they were found.
#[derive(Drop)]
pub struct Chosen {
    /// The LRPs, or why there are none.
    pub choice: Choice,
    /// The coverage queries.
    pub queries: Queries,
}

/// The coverage query from position `i`, where two lines or more follow line `i`. If it is not known, it is found by one
/// search.
fn query_after<M: MapRead>(
    resolved: &ResolvedPath<M>,
    i: usize,
    reuse: &Reuse,
    search: &mut Dijkstra,
) -> Result<Found, AllocError>
    requires some { i + 2 < length resolved.now.lines.now }
    requires reuse { IsReuse resolved.now.margin (M.map resolved.now.map.now) resolved.now.lines.now reuse.now }
    ensures { IfOk result (IsAnswered resolved.now.margin (M.map resolved.now.map.now) resolved.now.lines.now reuse.now i) }
{
    let last_near = last_within_limit(resolved, i);
    if let Some(found) = known_after(resolved, reuse, i, last_near) {
        return Ok(found);
    }
    let tested = covered_to(resolved, i, last_near, search)?;
    let query = CoverageQuery {
        from: resolved.end(i),
        to: resolved.node(tested.last),
        within: tested.within,
    };
    Ok(Found {
        reach: tested.reach,
        query,
        own: own_query(resolved, reuse, i, query, tested),
    })
}

/// How far the positions after `i` are covered and near enough. If two lines or more follow line `i`, appends the
/// coverage query that shows it.
fn reach_of<M: MapRead>(
    resolved: &ResolvedPath<M>,
    reuse: &Reuse,
    i: usize,
    queries: &mut Queries,
    search: &mut Dijkstra,
) -> Result<usize, AllocError>
    requires some { i < length resolved.now.lines.now }
    requires reuse { IsReuse resolved.now.margin (M.map resolved.now.map.now) resolved.now.lines.now reuse.now }
    ensures reach { IfOk result (IsReach resolved.now.margin (M.map resolved.now.map.now) resolved.now.lines.now i) }
    ensures queried { OnOk result ((before : List ℕ)
        → Queried resolved.now.margin (M.map resolved.now.map.now) resolved.now.lines.now reuse.now before queries.old
        → Queried resolved.now.margin (M.map resolved.now.map.now) resolved.now.lines.now reuse.now (before ++ i ∷ []) queries.new) }
{
    if resolved.lines.len() - i <= 2 {
        return Ok(last_within_limit(resolved, i));
    }
    let found = query_after(resolved, i, reuse, search)?;
    queries.all.push(found.query)?;
    if let Some(own) = found.own {
        queries.own.push(own)?;
    }
    Ok(found.reach)
}

/// The location reference points (LRPs) of an extended path, by position: position 0, the next LRP after it, and so on
/// to the end; or the position after which there is no valid LRP (White Paper, intermediate points and the 15,000 m
/// rule; which LRP is next is the profile's choice). From each LRP that two lines or more follow one search is made,
/// no farther than is needed to find the next LRP, and none if the coverage query is known. If an allocation fails, the
/// search must be started again before its next use.
pub fn points<M: MapRead>(
    alloc: Global,
    resolved: &ResolvedPath<M>,
    reuse: &Reuse,
    search: &mut Dijkstra,
) -> Result<Chosen, AllocError>
    requires { IsReuse resolved.now.margin (M.map resolved.now.map.now) resolved.now.lines.now reuse.now }
    ensures choice { IfOk result (λ chosen. ForPoints resolved.now.margin (M.map resolved.now.map.now) resolved.now.lines.now
        (λ js. IsChoice resolved.now.lines.now js chosen.choice)) }
    ensures queried { IfOk result (λ chosen. ForPoints resolved.now.margin (M.map resolved.now.map.now) resolved.now.lines.now
        (λ js. Queried resolved.now.margin (M.map resolved.now.map.now) resolved.now.lines.now reuse.now (0 ∷ js) chosen.queries)) }
{
    let mut positions = Vec::new(alloc);
    positions.push(0)?;
    let mut queries = Queries {
        all: Vec::new(alloc),
        own: Vec::new(alloc),
    };
    let mut last = 0;
    while last < resolved.lines.len() {
        let reach = reach_of(resolved, reuse, last, &mut queries, search)?;
        let Some(next) = next_of(resolved, last, reach) else {
            return Ok(Chosen {
                choice: Choice::NoNext(last),
                queries,
            });
        };
        positions.push(next)?;
        last = next;
    }
    Ok(Chosen {
        choice: Choice::Positions(positions),
        queries,
    })
}
