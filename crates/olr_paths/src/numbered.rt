//! What an index finds paths by.
ghost use Rattle.std.specs.Prelude.{◌≡◌, ℕ};

use olr_answers::CoverageQuery;
use olr_model::{LineId, NodeId};

/// What has a number in an index.
pub trait Numbered {
    /// The number.
    ghost number_of: { Self → ℕ };

    /// The number.
    fn index_number(&self) -> u32
        ensures { result ≡ number_of self.now };
}

impl Numbered for NodeId {
    ghost number_of = { λ v. v };

    fn index_number(&self) -> u32 {
        self.number()
    }
}

impl Numbered for LineId {
    ghost number_of = { λ x. x };

    fn index_number(&self) -> u32 {
        self.number()
    }
}

/// A coverage query is found by the node where it begins.
impl Numbered for CoverageQuery {
    ghost number_of = { λ l. l.from };

    fn index_number(&self) -> u32 {
        self.from.number()
    }
}
