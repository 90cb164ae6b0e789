//! The answer of a path on a map: a reference, or the reason why the path is not encodable.

use olr_binary::Reference;
use olr_model::LineId;

/// Why a path is not encodable. The reasons are tested in this order.
#[derive(Clone, Copy, Debug, PartialEq, Eq)]
pub enum Refusal {
    /// Reason 1: a line of the path is not on the map; the first such line.
    UnknownLine(LineId),
    /// Reason 2: this line of the path, counted from 0, does not end where the next one begins; the first such line.
    Broken(usize),
    /// Reason 3: the two offsets together are at least as long as the path.
    OffsetTooLong,
    /// Reason 4: there is no valid next location reference point (LRP) after the one at this position of the extended
    /// path, counted from 0.
    NoNextPoint(usize),
}

/// What is published of a path.
#[derive(Drop)]
pub enum Answer {
    /// Its reference.
    Points(Reference),
    /// Why it is not encodable.
    Refused(Refusal),
}
