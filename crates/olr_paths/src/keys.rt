//! What a path is found by.
ghost use Rattle.std.specs.List.Sorted.{IsStrictlyIncreasing};

use olr_answers::CoverageQuery;
use olr_model::{LineId, NodeId};

/// What a path is found by. Nothing if the path is not encoded yet.
#[derive(Clone, Copy)]
pub(crate) struct Keys<'a> {
    pub(crate) lines: &'a [LineId],
    /// In ascending order.
    pub(crate) traversed: &'a [NodeId],
    pub(crate) queries: &'a [CoverageQuery],
    ghost ascend: { IsStrictlyIncreasing traversed.now },
}

impl<'a> Keys<'a> {
    ghost use Rattle.std.specs.Prelude.{◌≡◌};
    ghost use Rattle.olr_paths.specs.Finders.{keys_in, no_keys};

    /// No lines, nodes and queries.
    pub(crate) fn none() -> Keys<'a>
        ensures { keys_in result ≡ no_keys }
    {
        Keys {
            lines: &[],
            traversed: &[],
            queries: &[],
        }
    }
}
