//! Footprints: the nodes on which an answer depends.
ghost use Rattle.std.specs.Prelude.{◌≡◌, ℕ, ◌+◌, ◌*◌, ◌^◌, ◌<◌, ◌≤◌, ◌↔◌, IfOk, OnOk, OnErr};
ghost use Rattle.std.specs.Prelude.{◌⊎◌, Contains, IsTrue, length};
ghost use Rattle.olr_spec.specs.Map.{Map, IsMap, Agree, has_node};
ghost use Rattle.olr_spec.specs.Encoding.{Encodes, EncodesWith};
ghost use Rattle.olr_spec.specs.Footprint.{Foot, FootWith, Sees};
ghost use Rattle.olr_spec.specs.Margins.{no_margin};
ghost use Rattle.olr_spec.specs.Queries.{CoverageQuery as Query};
ghost use Rattle.olr_answers.specs.Answers.{answer_of};
ghost use Rattle.olr_search.specs.Counts.{raised_count};
ghost use Rattle.olr_refs.specs.Choice.{SeenBy};
ghost use Rattle.olr_refs.specs.Referring.{JoinsOf, RecoveredOf, SearchesOf};

use crate::encoding::encode;
use olr_answers::{Answer, CoverageQuery, Margin, Path};
use olr_model::{Footprint, MapRead};
use olr_search::{Dijkstra, Direction, GREATEST_LIMIT, Work};
use std::alloc::{AllocError, Global};

/// The answer of a path on a map, and its footprint: the nodes on which the answer depends. On any sound map that is
/// the same around these nodes, and has the same lines of the path, the answer is the same. On this map every decoder
/// for which each LRP's own line is distinct recovers the lines between the location reference points (LRPs).
///
/// Adds one encoding to the work, and for each coverage query one search and the nodes that it reaches. If an allocation
/// fails, the work is unchanged.
pub fn refer<M: MapRead>(
    alloc: Global,
    map: &M,
    path: &Path,
    work: &mut Work,
) -> Result<(Answer, Footprint), AllocError>
    ensures answer { IfOk result (λ r. Encodes (M.map map.now) path.now (answer_of r.0)) }
    ensures joins { IfOk result (λ r. JoinsOf no_margin (M.map map.now) path.now r.0) }
    ensures recovered { IfOk result (λ r. RecoveredOf no_margin (M.map map.now) path.now r.0) }
    ensures encodings { OnOk result (work.new.encodings ≡ raised_count work.old.encodings 1) }
    ensures err_work { OnErr result (work.new ≡ work.old) }
    ensures footprint { IfOk result (λ r. (v : ℕ) → Contains r.1 v ↔ Foot (M.map map.now) path.now v) }
    ensures local { IfOk result (λ r. (other : Map) → IsMap other
        → Agree (M.map map.now) other path.now.lines (Contains r.1) → Encodes other path.now (answer_of r.0)) }
    ensures searches { OnOk result ((n : ℕ) × SearchesOf no_margin (M.map map.now) path.now n
        × (work.new.searches ≡ raised_count work.old.searches n)) }
    ensures settled_rises { OnOk result (work.old.settled < 2 ^ 64 → work.old.settled ≤ work.new.settled) }
    ensures settled { IfOk result (λ r. (n : ℕ) × SearchesOf no_margin (M.map map.now) path.now n
        × (work.new.settled ≤ work.old.settled + n * length r.1)) }
{
    refer_with(alloc, map, path, Margin::none(), work)
}

/// Adds the nodes that a coverage query reaches to a footprint, by a search. Returns how many they are.
fn note_query<M: MapRead>(
    alloc: Global,
    map: &M,
    query: CoverageQuery,
    search: &mut Dijkstra,
    footprint: &mut Footprint,
) -> Result<u64, AllocError>
    requires begins { IsTrue (has_node (M.map map.now) query.from) }
    requires small { query.within ≤ GREATEST_LIMIT }
    ensures noted { OnOk result ((v : ℕ) → Contains footprint.new v
        ↔ (Contains footprint.old v ⊎ Sees (M.map map.now) query v)) }
    ensures few { IfOk result (λ n. n ≤ length footprint.new) }
    ensures grows { OnOk result (length footprint.old ≤ length footprint.new) }
{
    search.begin(map, Direction::Along, &[(query.from, 0)])?;
    search.settle_to(map, query.within)?;
    let nodes = search.nodes(alloc, map)?;
    footprint.note_all(&nodes)?;
    Ok(nodes.len() as u64)
}

/// Adds the nodes that coverage queries reach to a footprint, by a search for each. Returns how many nodes the searches
/// settled; this number saturates.
fn note_queries<M: MapRead>(
    alloc: Global,
    map: &M,
    queries: &[CoverageQuery],
    search: &mut Dijkstra,
    footprint: &mut Footprint,
) -> Result<u64, AllocError>
    requires { (l : Query) → Contains queries.now l
        → IsTrue (has_node (M.map map.now) l.from) × (l.within ≤ GREATEST_LIMIT) }
    ensures noted { OnOk result ((v : ℕ) → Contains footprint.new v
        ↔ (Contains footprint.old v ⊎ SeenBy (M.map map.now) queries.now v)) }
    ensures few { IfOk result (λ n. n ≤ length queries.now * length footprint.new) }
{
    let mut settled: u64 = 0;
    for query in queries {
        let nodes = note_query(alloc, map, *query, search, footprint)?;
        settled = settled.saturating_add(nodes);
    }
    Ok(settled)
}

/// The answer of a path on a map with a margin, and its footprint, as `refer` gives them without one.
pub fn refer_with<M: MapRead>(
    alloc: Global,
    map: &M,
    path: &Path,
    margin: Margin,
    work: &mut Work,
) -> Result<(Answer, Footprint), AllocError>
    ensures answer { IfOk result (λ r. EncodesWith margin (M.map map.now) path.now (answer_of r.0)) }
    ensures joins { IfOk result (λ r. JoinsOf margin (M.map map.now) path.now r.0) }
    ensures recovered { IfOk result (λ r. RecoveredOf margin (M.map map.now) path.now r.0) }
    ensures footprint { IfOk result (λ r. (v : ℕ) → Contains r.1 v ↔ FootWith margin (M.map map.now) path.now v) }
    ensures local { IfOk result (λ r. (other : Map) → IsMap other
        → Agree (M.map map.now) other path.now.lines (Contains r.1) → EncodesWith margin other path.now (answer_of r.0)) }
    ensures encodings { OnOk result (work.new.encodings ≡ raised_count work.old.encodings 1) }
    ensures searches { OnOk result ((n : ℕ) × SearchesOf margin (M.map map.now) path.now n
        × (work.new.searches ≡ raised_count work.old.searches n)) }
    ensures settled_rises { OnOk result (work.old.settled < 2 ^ 64 → work.old.settled ≤ work.new.settled) }
    ensures settled { IfOk result (λ r. (n : ℕ) × SearchesOf margin (M.map map.now) path.now n
        × (work.new.settled ≤ work.old.settled + n * length r.1)) }
    ensures err_work { OnErr result (work.new ≡ work.old) }
{
    // For the proof alone: the margin is in range.
    let _routes = margin.routes();
    let mut search = Dijkstra::new(alloc);
    let encoding = encode(alloc, map, path, margin, &mut search)?;
    let mut footprint = encoding.traversed;
    let queries = encoding.queries;
    let settled = note_queries(alloc, map, &queries, &mut search, &mut footprint)?;
    *work = work.plus(Work {
        encodings: 1,
        searches: queries.len() as u64,
        settled,
    });
    Ok((encoding.answer, footprint))
}
