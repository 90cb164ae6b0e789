//! How long lines are in a search: as on the map, or one of them longer.
ghost use Rattle.std.specs.Prelude.{◌≡◌, ◌==◌, ℕ, cond};

use crate::resolved::ResolvedLine;
use olr_model::LineId;

/// How long each line is in a search.
pub trait Lengths {
    /// The length of a line, by its number and its length on the map.
    ghost counts: { Self → ℕ → ℕ → ℕ };

    /// The length of a line that has the length `len` on the map, both in decimetres.
    fn counted(&self, line: LineId, len: u32) -> u32
        ensures { result ≡ counts self.now line len };
}

/// Each line has its length on the map.
#[derive(Clone, Copy)]
pub struct AsOnMap;

impl Lengths for AsOnMap {
    ghost counts = { λ _ _ d. d };

    fn counted(&self, _line: LineId, len: u32) -> u32 {
        len
    }
}

/// This line has the length of the record, all others have that on the map.
impl Lengths for ResolvedLine {
    ghost counts = { λ own x d. cond (x == own.id) own.len d };

    fn counted(&self, line: LineId, len: u32) -> u32 {
        if line == self.id { self.len } else { len }
    }
}
