//! Degree-two nodes, at which nothing turns off.
ghost use Rattle.std.specs.Prelude.{◌≡◌, IsTrue, map};
ghost use Rattle.olr_spec.specs.Map.{has_node};
ghost use Rattle.olr_spec.specs.Extension.{passing, passes_between, apart};

use olr_model::{LineEnd, MapRead, NodeId};

/// Whether a node is a degree-two node: its lines have exactly two other ends, which differ from each other and from
/// the node, and lead either from one of them to the other, or once from each and once to each. Every other node is
/// valid (White Paper, rules on valid nodes; the exact test is the profile's). False for an absent node.
pub fn passing<M: MapRead>(map: &M, node: NodeId) -> bool
    ensures { result ≡ passing (M.map map.now) node }
{
    match map.slot_of(node) {
        Some(slot) => passing_at(map, node, slot),
        None => false,
    }
}

/// Whether the node in this slot is a degree-two node.
pub(crate) fn passing_at<M: MapRead>(map: &M, node: NodeId, slot: u32) -> bool
    requires there { IsTrue (has_node (M.map map.now) node) }
    requires at { M.node_slot map.now node ≡ slot }
    ensures { result ≡ passing (M.map map.now) node }
{
    let entering = map.in_lines_at(slot);
    let leaving = map.out_lines_at(slot);
    passes_between(slot, entering.ends, leaving.ends)
}

/// Whether a node in this slot with these lines is a degree-two node, by the other ends of the lines that enter it, and
/// of those that leave it.
fn passes_between(slot: u32, entering: &[LineEnd], leaving: &[LineEnd]) -> bool
    ensures { result ≡ passes_between slot (map (λ e. e.slot) entering.now) (map (λ e. e.slot) leaving.now) }
{
    match (entering, leaving) {
        ([one], [other]) => are_apart(slot, one.slot, other.slot),
        ([one, other], [first, second]) => {
            let (one, other, first, second) = (one.slot, other.slot, first.slot, second.slot);
            are_apart(slot, one, other)
                && ((first == one && second == other) || (first == other && second == one))
        }
        _ => false,
    }
}

/// Whether two slots are different, and neither of them is `slot`.
fn are_apart(slot: u32, one: u32, other: u32) -> bool
    ensures { result ≡ apart slot one other }
{
    one != slot && other != slot && one != other
}
