//! The reference of an extended path.
ghost use Rattle.std.specs.Prelude.{◌≡◌, ◌+◌, ◌-◌, ◌<◌, IfOk, length, slice_index};
ghost use Rattle.olr_spec.specs.Recovery.{own_lines};
ghost use Rattle.olr_spec.specs.Routes.{dm_of};
ghost use Rattle.olr_spec.specs.Reference.{legs, dm_between, kept_points, reference_with, reference_by_with};
ghost use Rattle.olr_spec.specs.Bytes.{IsReference};
ghost use Rattle.olr_refs.specs.KeptPoints.{later, AreKept, ArePoints};

use crate::along::ResolvedPath;
use crate::lrp_fields::{first_point, last_point, middle_points, offset};
use crate::trim::{Trimmed, trim};
use olr_binary::Reference;
use olr_model::{LineId, MapRead};
use std::alloc::{AllocError, Global};

/// The reference of the remaining LRPs, at least two, with the remainders of the offsets, in decimetres: less than the
/// first leg and less than the last.
fn reference_by<M: MapRead>(
    alloc: Global,
    resolved: &ResolvedPath<M>,
    trimmed: &Trimmed,
) -> Result<Reference, AllocError>
    requires kept { AreKept resolved.now.margin (M.map resolved.now.map.now) resolved.now.lines.now trimmed.now.points.now }
    requires pos { trimmed.now.pos < dm_between (legs (M.map resolved.now.map.now) resolved.now.lines.now)
        (slice_index trimmed.now.points.now 0) (slice_index trimmed.now.points.now 1) }
    requires neg { trimmed.now.neg < dm_between (legs (M.map resolved.now.map.now) resolved.now.lines.now)
        (slice_index trimmed.now.points.now (length trimmed.now.points.now - 1 - 1))
        (slice_index trimmed.now.points.now (length trimmed.now.points.now - 1)) }
    requires fits { IsReference (reference_by_with resolved.now.margin (legs (M.map resolved.now.map.now) resolved.now.lines.now) trimmed.now.pos
        trimmed.now.neg trimmed.now.points.now) }
    ensures { IfOk result (λ r. r ≡ reference_by_with resolved.now.margin (legs (M.map resolved.now.map.now) resolved.now.lines.now)
        trimmed.now.pos trimmed.now.neg trimmed.now.points.now) }
{
    let kept = trimmed.points;
    let last = kept.len() - 1;
    let (start, next) = (kept[0], kept[1]);
    let (before, end) = (kept[last - 1], kept[last]);
    let pos = offset(resolved, trimmed.pos, start, next);
    let neg = offset(resolved, trimmed.neg, before, end);
    let middle = middle_points(alloc, resolved, kept)?;
    Ok(Reference {
        first: first_point(resolved, start, next),
        middle,
        last: last_point(resolved, before, end),
        pos,
        neg,
    })
}

/// Line `k` of these.
fn line_at(lines: &[LineId], k: usize) -> LineId
    requires { k < length lines.now }
    ensures { result ≡ slice_index lines.now k }
{
    lines[k]
}

/// The lines at the LRPs of these positions, at least two: those that leave them, and at the last one the line that enters
/// it.
fn own_lines<M: MapRead>(
    alloc: Global,
    resolved: &ResolvedPath<M>,
    kept: &[usize],
) -> Result<Vec<LineId>, AllocError>
    requires { AreKept resolved.now.margin (M.map resolved.now.map.now) resolved.now.lines.now kept.now }
    ensures { IfOk result (λ own. own.items ≡ own_lines resolved.now.lines.now kept.now) }
{
    let last = kept.len() - 1;
    let mut own = Vec::with_capacity(alloc, kept.len())?;
    for k in 0..last {
        own.push(line_at(resolved.lines, kept[k]))?;
    }
    own.push(line_at(resolved.lines, kept[last] - 1))?;
    Ok(own)
}

/// The reference of the lines of an extended path, by the distances of their positions, the location reference points
/// (LRPs), and the two offsets in decimetres, which together are shorter than the path; and the lines at its LRPs: those
/// that leave them, and at the last LRP the one that enters it.
pub fn reference_of<M: MapRead>(
    alloc: Global,
    resolved: &ResolvedPath<M>,
    points: &[usize],
    pos: u64,
    neg: u64,
) -> Result<(Reference, Vec<LineId>), AllocError>
    requires points { ArePoints resolved.now.margin (M.map resolved.now.map.now) resolved.now.lines.now points.now }
    requires long { pos + neg < dm_of (M.map resolved.now.map.now) resolved.now.lines.now }
    ensures reference { IfOk result (λ r. r.0
        ≡ reference_with resolved.now.margin (legs (M.map resolved.now.map.now) resolved.now.lines.now) pos neg (later points.now)) }
    ensures own { IfOk result (λ r. r.1.items ≡ own_lines resolved.now.lines.now
        (kept_points (legs (M.map resolved.now.map.now) resolved.now.lines.now) pos neg (later points.now))) }
{
    let trimmed = trim(resolved.distances, points, pos, neg);
    let own = own_lines(alloc, resolved, trimmed.points)?;
    let reference = reference_by(alloc, resolved, &trimmed)?;
    Ok((reference, own))
}
