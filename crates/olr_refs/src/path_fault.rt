//! Reasons 1 to 3 why a path is not encodable, which its own lines and offsets decide.
ghost use Rattle.std.specs.Prelude.{◌≡◌, ℕ, List, IsTrue, IfOk, MatchResult, None, Some};
ghost use Rattle.olr_spec.specs.Map.{Map};
ghost use Rattle.olr_spec.specs.Routes.{dm_of};
ghost use Rattle.olr_spec.specs.Extension.{is_path};
ghost use Rattle.olr_spec.specs.Encoding.{first_break, path_fault};
ghost use Rattle.olr_answers.specs.Answers.{refusal_of};
ghost use Rattle.olr_refs.specs.ResolvedLines.{records_of};

use crate::resolved::resolve;
use olr_answers::{Path, Refusal};
use olr_model::MapRead;
use olr_search::ResolvedLine;
use std::alloc::{AllocError, Global};

/// A path's own lines as the map has them, or the first of reasons 1 to 3 that applies to the path.
pub fn own_lines<M: MapRead>(
    alloc: Global,
    map: &M,
    path: &Path,
) -> Result<Result<Vec<ResolvedLine>, Refusal>, AllocError>
    ensures own { IfOk result (λ r. MatchResult r
        (λ own. (path_fault (M.map map.now) path.now ≡ None)
        × (own.items ≡ records_of (M.map map.now) (M.node_slot map.now) path.now.lines))
        (λ refusal. path_fault (M.map map.now) path.now ≡ Some (refusal_of refusal))) }
    ensures path { IsTrue (is_path path.now.lines) }
{
    let records = match resolve(alloc, map, path.lines())? {
        Ok(records) => records,
        Err(line) => return Ok(Err(Refusal::UnknownLine(line))),
    };
    if let Some(k) = first_break(&records) {
        return Ok(Err(Refusal::Broken(k)));
    }
    if length_of(&records) <= u128::from(path.pos()) + u128::from(path.neg()) {
        return Ok(Err(Refusal::OffsetTooLong));
    }
    Ok(Ok(records))
}

/// The index of the first line that does not end where the next one begins.
#[tactic(auto, using(crate::proofs::Resolving::records_length, crate::proofs::Resolving::record_at, crate::proofs::Faulting::no_break_at, crate::proofs::Faulting::break_at, crate::proofs::Faulting::no_break_left))]
fn first_break(records: &[ResolvedLine]) -> Option<usize>
    ensures { (M : Map) (slot : ℕ → ℕ) (ls : List ℕ) → records.now ≡ records_of M slot ls → result ≡ first_break M 0 ls }
{
    for k in 1..records.len() {
        let (before, record) = (records[k - 1], records[k]);
        if before.to != record.from {
            return Some(k - 1);
        }
    }
    None
}

/// The length of some lines, in decimetres. 128 bits suffice for any list of lines.
#[tactic(auto, using(crate::proofs::Resolving::records_length, crate::proofs::Resolving::record_at, crate::proofs::Joined::longer_by))]
fn length_of(records: &[ResolvedLine]) -> u128
    ensures { (M : Map) (slot : ℕ → ℕ) (ls : List ℕ) → records.now ≡ records_of M slot ls → result ≡ dm_of M ls }
{
    let mut len: u128 = 0;
    for record in records {
        len += u128::from(record.len);
    }
    len
}
