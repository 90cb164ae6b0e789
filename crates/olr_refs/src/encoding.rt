//! The encoding of a path on a map with a margin.
ghost use Rattle.std.specs.Prelude.{◌≡◌, ◌+◌, ◌<◌, ◌∷◌, IsTrue, IfOk, Some};
ghost use Rattle.olr_spec.specs.Map.{Map};
ghost use Rattle.olr_spec.specs.Margins.{Margin};
ghost use Rattle.olr_spec.specs.Extension.{Path as Record, is_path, AreJoined};
ghost use Rattle.olr_spec.specs.Encoding.{path_fault};
ghost use Rattle.olr_spec.specs.Queries.{AreKnownWith};
ghost use Rattle.olr_answers.specs.Answers.{answer_of, refusal_of};
ghost use Rattle.olr_spec.specs.Routes.{dm_of};
ghost use Rattle.olr_refs.specs.Choice.{ForPoints};
ghost use Rattle.olr_refs.specs.Referring.{AnsweredAlong, IsEncoding};
ghost use Rattle.olr_refs.specs.ResolvedLines.{records_of};
ghost use Rattle.olr_refs.specs.Reuse.{IsReuse, Queried};

use crate::along::{ResolvedPath, distances};
use crate::chosen::{Choice, Chosen, Queries, points};
use crate::extension::{Extended, extend};
use crate::path_fault::own_lines;
use crate::reference::reference_of;
use crate::reuse::Reuse;
use olr_answers::{Answer, CoverageQuery, KnownQuery, Margin, Path, Refusal};
use olr_model::{Footprint, LineId, MapRead};
use olr_search::{Dijkstra, ResolvedLine};
use std::alloc::{AllocError, Global};

/// The answer of a path on a map with a margin, and what it depends on. An edit that affects nothing of this leaves the answer
/// unchanged.
#[derive(Drop)]
pub struct Encoding {
    /// The answer.
    pub answer: Answer,
    /// The path's own line at each LRP of the reference: the one that leaves it, and at the last LRP the one that enters
    /// it. Empty if there is no reference.
    pub own: Vec<LineId>,
    /// The traversed nodes: those of the extended path and of the tried runs of degree-two nodes. Empty if one of
    /// reasons 1 to 3 holds.
    pub traversed: Footprint,
    /// The coverage queries, in the order of the LRPs where they begin.
    pub queries: Vec<CoverageQuery>,
    /// The coverage queries along the path's own lines, in the same order. After edits, those that are clear of the
    /// changed lines are known to be still right.
    pub known: Vec<KnownQuery>,
}

/// The encoding of a path on a map with a margin, by searches that are settled no farther than is needed to find the LRPs.
///
/// If an allocation fails, the search must be started again before its next use.
pub fn encode<M: MapRead>(
    alloc: Global,
    map: &M,
    path: &Path,
    margin: Margin,
    search: &mut Dijkstra,
) -> Result<Encoding, AllocError>
    ensures encoding { IfOk result (IsEncoding margin (M.map map.now) path.now) }
    ensures path { IsTrue (is_path path.now.lines) }
{
    encode_again(alloc, map, path, margin, &[], search)
}

/// The encoding of a path on a map, as `encode` returns it, but without searches for the coverage queries in `known`.
/// These are along the path's own lines, in the order of the lines where they begin, and are known to be right on this
/// map with this margin: for instance those of an earlier encoding that are clear of all changes since.
///
/// If an allocation fails, the search must be started again before its next use.
pub fn encode_again<M: MapRead>(
    alloc: Global,
    map: &M,
    path: &Path,
    margin: Margin,
    known: &[KnownQuery],
    search: &mut Dijkstra,
) -> Result<Encoding, AllocError>
    requires { AreKnownWith margin (M.map map.now) path.now.lines known.now }
    ensures encoding { IfOk result (IsEncoding margin (M.map map.now) path.now) }
    ensures path { IsTrue (is_path path.now.lines) }
{
    let own = match own_lines(alloc, map, path)? {
        Ok(own) => own,
        Err(refusal) => return Ok(refused(alloc, refusal)),
    };
    let mut traversed = Footprint::new(alloc);
    let extended = extend(alloc, map, path, &own, &mut traversed)?;
    let reuse = Reuse {
        known,
        lead: extended.lead,
        own: path.lines().len(),
    };
    let (answer, own, queries) = encode_along(alloc, map, margin, &extended, &reuse, search)?;
    Ok(Encoding {
        answer,
        own,
        traversed,
        queries: queries.all,
        known: queries.own,
    })
}

/// The encoding of a path to which one of reasons 1 to 3 applies.
fn refused(alloc: Global, refusal: Refusal) -> Encoding
    ensures { (margin : Margin) (M : Map) (P : Record) → path_fault M P ≡ Some (refusal_of refusal)
        → IsEncoding margin M P result }
{
    Encoding {
        answer: Answer::Refused(refusal),
        own: Vec::new(alloc),
        traversed: Footprint::new(alloc),
        queries: Vec::new(alloc),
        known: Vec::new(alloc),
    }
}

/// The answer of an extended path with a margin, by its LRPs; its own lines at the LRPs of the reference; and the coverage
/// queries. Its two offsets are together less than the length of its lines.
fn encode_along<M: MapRead>(
    alloc: Global,
    map: &M,
    margin: Margin,
    extended: &Extended,
    reuse: &Reuse,
    search: &mut Dijkstra,
) -> Result<(Answer, Vec<LineId>, Queries), AllocError>
    requires joined { AreJoined (M.map map.now) extended.now.path.lines }
    requires records { extended.now.records ≡ records_of (M.map map.now) (M.node_slot map.now) extended.now.path.lines }
    requires short { extended.now.path.pos + extended.now.path.neg < dm_of (M.map map.now) extended.now.path.lines }
    requires reuse { IsReuse margin (M.map map.now) extended.now.path.lines reuse.now }
    ensures answered { IfOk result (λ r. ForPoints margin (M.map map.now) extended.now.path.lines
        (λ js. AnsweredAlong margin (M.map map.now) extended.now.path js (answer_of r.0) r.1.items)) }
    ensures queried { IfOk result (λ r. ForPoints margin (M.map map.now) extended.now.path.lines
        (λ js. Queried margin (M.map map.now) extended.now.path.lines reuse.now (0 ∷ js) r.2)) }
{
    let lines = extended.lines.as_slice();
    let records = extended.records.as_slice();
    let distances = distances(alloc, records)?;
    let resolved = ResolvedPath {
        map,
        lines,
        records,
        margin,
        distances: &distances,
    };
    let Chosen { choice, queries } = points(alloc, &resolved, reuse, search)?;
    match choice {
        Choice::NoNext(k) => {
            let refused = Answer::Refused(Refusal::NoNextPoint(k));
            Ok((refused, Vec::new(alloc), queries))
        }
        Choice::Positions(points) => {
            let (reference, own) = reference_of(
                alloc,
                &resolved,
                &points,
                extended.pos,
                extended.neg,
            )?;
            Ok((Answer::Points(reference), own, queries))
        }
    }
}
