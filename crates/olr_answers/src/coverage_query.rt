//! Coverage queries.
ghost use Rattle.olr_spec.specs.Queries as queries;

use olr_model::NodeId;
use std::marker::Model;

/// A coverage query: a search of an encoding, which finds how far the lines after an LRP are the unique shortest path.
#[derive(Clone, Copy, PartialEq, Eq)]
pub struct CoverageQuery {
    /// The node where it begins: the end of the line of the location reference point (LRP).
    pub from: NodeId,
    /// The node of the last position that it tested.
    pub to: NodeId,
    /// The length that the path's lines between these count, in decimetres: at most 300,000, and without a margin at
    /// most 150,000. If the position is not covered, another route may be shorter.
    pub within: u32,
}

impl Model for CoverageQuery {
    ghost Value = { queries.CoverageQuery };

    ghost view = { λ l. record { from = l.from; to = l.to; within = l.within } };

    ghost inverse = { λ l. record { from = l.from; to = l.to; within = l.within } };
}

/// A coverage query along a path's own lines, and its positions in them. On another map it is right as well where the
/// changes between the maps offer no detour that is as short: then it is not searched again.
#[derive(Clone, Copy, PartialEq, Eq)]
pub struct KnownQuery {
    /// The query.
    pub query: CoverageQuery,
    /// The line of the path at whose start the query begins.
    pub first: u32,
    /// The position in the path's lines where it ends: the number of the lines up to there.
    pub last: u32,
    /// Whether that position is covered.
    pub covered: bool,
}

impl Model for KnownQuery {
    ghost Value = { queries.KnownQuery };

    ghost view = { λ e. record { query = e.query; first = e.first; last = e.last; covered = e.covered } };

    ghost inverse = { λ e. record { query = e.query; first = e.first; last = e.last; covered = e.covered } };
}
