//! The lines of a path as a map has them, each of which is looked up once.
ghost use Rattle.std.specs.Prelude.{◌≡◌, IfOk, IsTrue, MatchResult, None, Some, SomeIff};
ghost use Rattle.olr_spec.specs.Encoding.{first_unknown};
ghost use Rattle.olr_spec.specs.Map.{has_line};
ghost use Rattle.olr_search.specs.ResolvedLines.{record_of};
ghost use Rattle.olr_refs.specs.ResolvedLines.{AreRecords, records_of, ids};

use olr_model::{LineId, MapRead};
use olr_search::{ResolvedLine, resolve_line};
use std::alloc::{AllocError, Global};

/// A line as the map has it, by those before it on a path: it begins where the last of them ends, in most cases. None if
/// it is not on the map.
#[tactic(auto, using(crate::proofs::Resolving::end_placed))]
fn resolve_after<M: MapRead>(map: &M, before: &[ResolvedLine], id: LineId) -> Option<ResolvedLine>
    requires { AreRecords (M.map map.now) (M.node_slot map.now) before.now }
    ensures { SomeIff result (IsTrue (has_line (M.map map.now) id))
        (record_of (M.map map.now) (M.node_slot map.now) id) }
{
    let Some(last) = before.last() else {
        return resolve_line(map, id);
    };
    let line = map.line(id)?;
    if line.from != last.to {
        return resolve_line(map, id);
    }
    let to_slot = map.slot_of(line.to)?;
    Some(ResolvedLine {
        id,
        from: line.from,
        to: line.to,
        from_slot: last.to_slot,
        to_slot,
        len: line.len,
        frc: line.frc,
        fow: line.fow,
    })
}

/// These lines as the map has them, or the first of them that is not on the map.
pub fn resolve<M: MapRead>(
    alloc: Global,
    map: &M,
    lines: &[LineId],
) -> Result<Result<Vec<ResolvedLine>, LineId>, AllocError>
    ensures { IfOk result (λ resolved. MatchResult resolved
        (λ records. (first_unknown (M.map map.now) lines.now ≡ None)
        × (records.items ≡ records_of (M.map map.now) (M.node_slot map.now) lines.now))
        (λ line. first_unknown (M.map map.now) lines.now ≡ Some line)) }
{
    let mut records = Vec::with_capacity(alloc, lines.len())?;
    for line in lines {
        let Some(record) = resolve_after(map, &records, *line) else {
            return Ok(Err(*line));
        };
        records.push(record)?;
    }
    Ok(Ok(records))
}

/// The numbers of lines.
pub(crate) fn ids_of(alloc: Global, records: &[ResolvedLine]) -> Result<Vec<LineId>, AllocError>
    ensures { IfOk result (λ lines. lines.items ≡ ids records.now) }
{
    let mut lines = Vec::with_capacity(alloc, records.len())?;
    for record in records {
        lines.push(record.id)?;
    }
    Ok(lines)
}
