//! Paths: the lines of a line location, and the lengths that are cut off at each end.
ghost use Rattle.std.specs.Prelude.{◌≡◌, ◌<◌, IsTrue, IsFalse, IfOk, OnOk, IsErrOf, not, length, ◌⊎◌};
ghost use Rattle.olr_spec.specs.Extension.{Path as Record, is_path, none_twice};

use olr_model::LineId;
use std::alloc::{AllocError, Global};
use std::marker::Model;
use thiserror::Error;

/// The greatest number of lines of a path (profile).
pub const MOST_LINES: usize = 10_000;

/// Why a list of lines is not a path, or could not be made one.
#[derive(Clone, Copy, Debug, PartialEq, Eq, Error)]
pub enum PathFault {
    /// The list is empty, has more than 10,000 lines or names a line twice.
    #[error("a path has 1 to 10,000 lines, none twice")]
    BadPath,
    /// Out of memory: an allocation for the test failed.
    #[error("out of memory")]
    Memory,
}

impl From<AllocError> for PathFault {
    ghost use Rattle.olr_answers.specs.declared.path.PathFault.TheVariants.{Memory};

    ghost from_gives = { λ _ fault. fault ≡ Memory };

    fn from(_error: AllocError) -> PathFault {
        PathFault::Memory
    }
}

/// 1 to 10,000 lines, none twice, in the order of travel, and the two offsets: the length that is cut off at the start,
/// from the first line on, and the length that is cut off at the end, from the last line back.
#[derive(Drop)]
pub struct Path {
    lines: Vec<LineId>,
    pos: u32,
    neg: u32,
}

impl Model for Path {
    ghost Value = { Record };

    ghost view = { λ p. record { lines = p.lines.items; pos = p.pos; neg = p.neg } };

    ghost invariant = { λ p. IsTrue (is_path p.lines.items) };
}

impl Path {
    /// The path along these lines with these offsets, in decimetres. Returns `BadPath` only if the list is empty, has
    /// more than 10,000 lines or names a line twice, and `Memory` if an allocation fails first. The number of lines is
    /// tested without allocation.
    pub fn new(alloc: Global, lines: Vec<LineId>, pos: u32, neg: u32) -> Result<Path, PathFault>
        ensures ok { IfOk result (λ p. p ≡ record { lines = lines.items; pos = pos; neg = neg }) }
        ensures good { OnOk result (IsTrue (is_path lines.items)) }
        ensures bad_path { IsErrOf result PathFault.BadPath → IsFalse (is_path lines.items) }
        ensures by_length { (length lines.items < 1) ⊎ (MOST_LINES < length lines.items)
            → IsErrOf result PathFault.BadPath }
    {
        if lines.is_empty() || lines.len() > MOST_LINES || names_twice(alloc, &lines)? {
            return Err(PathFault::BadPath);
        }
        Ok(Path { lines, pos, neg })
    }

    /// The lines, in order.
    pub fn lines(&self) -> &[LineId]
        ensures value { result.now ≡ self.now.lines }
        ensures path { IsTrue (is_path self.now.lines) }
    {
        &self.lines
    }

    /// The length that is cut off at the start, in decimetres.
    pub fn pos(&self) -> u32
        ensures { result ≡ self.now.pos }
    {
        self.pos
    }

    /// The length that is cut off at the end, in decimetres.
    pub fn neg(&self) -> u32
        ensures { result ≡ self.now.neg }
    {
        self.neg
    }
}

/// Whether some line is named twice, by comparing the neighbours in a sorted copy.
fn names_twice(alloc: Global, lines: &[LineId]) -> Result<bool, AllocError>
    ensures { IfOk result (λ twice. none_twice lines.now ≡ not twice) }
{
    let mut sorted = Vec::from_slice(alloc, lines)?;
    sorted.sort_unstable();
    for i in 1..sorted.len() {
        if sorted[i - 1] == sorted[i] {
            return Ok(true);
        }
    }
    Ok(false)
}
