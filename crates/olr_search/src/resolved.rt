//! Lines of a map with the slots of their ends, so that what is done with them needs no look-up.
ghost use Rattle.std.specs.Prelude.{SomeIff, IsTrue};
ghost use Rattle.olr_spec.specs.Map.{has_line};
ghost use Rattle.olr_search.specs.ResolvedLines.{ResolvedLine as Record, coded_resolved_line, record_of, resolved_line};

use olr_model::{LineId, MapRead, NodeId};
use std::marker::Model;

/// A line as the map has it, without its shape, and with the slots of its ends.
#[derive(Clone, Copy)]
pub struct ResolvedLine {
    /// Its number.
    pub id: LineId,
    /// The node where the line begins.
    pub from: NodeId,
    /// The node where it ends.
    pub to: NodeId,
    /// The slot of the node where it begins, see `MapRead::slot_of`.
    pub from_slot: u32,
    /// The slot of the node where it ends.
    pub to_slot: u32,
    /// Its length, in decimetres.
    pub len: u32,
    /// Its functional road class.
    pub frc: u8,
    /// Its form of way.
    pub fow: u8,
}

impl Model for ResolvedLine {
    ghost Value = { Record };

    ghost coded = { coded_resolved_line };

    ghost view = { λ r. resolved_line r.id r.from r.to r.from_slot r.to_slot r.len r.frc r.fow };

    ghost inverse = { λ r. record {
      id = r.id;
      from = r.from;
      to = r.to;
      from_slot = r.from_slot;
      to_slot = r.to_slot;
      len = r.len;
      frc = r.frc;
      fow = r.fow;
    } };
}

/// A line as the map has it. None if it is not on the map.
pub fn resolve_line<M: MapRead>(map: &M, id: LineId) -> Option<ResolvedLine>
    ensures { SomeIff result (IsTrue (has_line (M.map map.now) id))
        (record_of (M.map map.now) (M.node_slot map.now) id) }
{
    let line = map.line(id)?;
    let from_slot = map.slot_of(line.from)?;
    let to_slot = map.slot_of(line.to)?;
    Some(ResolvedLine {
        id,
        from: line.from,
        to: line.to,
        from_slot,
        to_slot,
        len: line.len,
        frc: line.frc,
        fow: line.fow,
    })
}
