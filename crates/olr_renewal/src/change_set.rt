//! What changes of a map touched.
ghost use Rattle.std.specs.Prelude.{◌≡◌, ◌==◌, ◌||◌, ◌+◌, ◌≤◌, ℕ, vec_len, vec_capacity, ◌++◌, [], OnOk};
ghost use Rattle.std.specs.List.Sorted.{IsStrictlyIncreasing};
ghost use Rattle.olr_spec.specs.Map.{has};

use olr_model::{LineId, NodeId};
use std::alloc::{AllocError, Global};

/// Where a changed line begins and ends, and its length in decimetres: the lesser of the lengths before and after, or
/// the only one if the line was added or dropped.
#[derive(Clone, Copy)]
pub struct ChangedLine {
    /// Where it begins.
    pub from: NodeId,
    /// Where it ends.
    pub to: NodeId,
    /// In decimetres.
    pub len: u32,
}

/// The nodes and the lines that edits touched, each once and in ascending order, and the lines that they changed.
#[derive(Drop)]
pub struct ChangeSet {
    pub(crate) nodes: Vec<NodeId>,
    pub(crate) lines: Vec<LineId>,
    pub(crate) changed: Vec<ChangedLine>,
    ghost nodes_ascend: { IsStrictlyIncreasing nodes.items },
    ghost lines_rise: { IsStrictlyIncreasing lines.items },
}

impl ChangeSet {
    ghost use Rattle.std.specs.Option.{option_to_list};
    ghost use Rattle.olr_renewal.specs.ChangeSets.{nodes_of, lines_of, changed_of, changed_between, HasRoom};

    /// Nothing touched. Takes no memory.
    pub fn new(alloc: Global) -> ChangeSet
        ensures nodes { nodes_of result ≡ [] }
        ensures lines { lines_of result ≡ [] }
        ensures changed { changed_of result ≡ [] }
    {
        ChangeSet {
            nodes: Vec::new(alloc),
            lines: Vec::new(alloc),
            changed: Vec::new(alloc),
        }
    }

    /// Reserves capacity for what one more edit touches.
    pub fn reserve(&mut self) -> Result<(), AllocError>
        ensures nodes { nodes_of self.new ≡ nodes_of self.old }
        ensures lines { lines_of self.new ≡ lines_of self.old }
        ensures changed { changed_of self.new ≡ changed_of self.old }
        ensures room { OnOk result (HasRoom self.new) }
    {
        self.nodes.reserve(2)?;
        self.lines.reserve(1)?;
        self.changed.reserve(1)
    }

    /// Adds two nodes, which may be the same, a line, and the length of one that was changed between these nodes, see
    /// `ChangedLine`. Takes no memory.
    pub fn add(&mut self, nodes: (NodeId, NodeId), line: Option<LineId>, changed: Option<u32>)
        requires { HasRoom self.old }
        ensures nodes { (v : ℕ) → has (nodes_of self.new) v
            ≡ (has (nodes_of self.old) v || ((nodes.0 == v) || (nodes.1 == v))) }
        ensures lines { (x : ℕ) → has (lines_of self.new) x
            ≡ (has (lines_of self.old) x || has (option_to_list line) x) }
        ensures changed { changed_of self.new ≡ changed_of self.old ++ changed_between nodes changed }
    {
        put_node(&mut self.nodes, nodes.0);
        put_node(&mut self.nodes, nodes.1);
        if let Some(line) = line {
            put_line(&mut self.lines, line);
        }
        if let Some(len) = changed {
            let (from, to) = nodes;
            self.changed.push_reserved(ChangedLine { from, to, len });
        }
    }

    /// The touched nodes, each once, in ascending order.
    pub fn nodes(&self) -> &[NodeId]
        ensures { result.now ≡ nodes_of self.now }
    {
        self.nodes.as_slice()
    }

    /// Whether the node was touched, by binary search.
    pub fn has_node(&self, node: NodeId) -> bool
        ensures { result ≡ has (nodes_of self.now) node }
    {
        self.nodes.binary_search(&node).is_ok()
    }

    /// Whether the line was touched, by binary search.
    pub fn has_line(&self, line: LineId) -> bool
        ensures { result ≡ has (lines_of self.now) line }
    {
        self.lines.binary_search(&line).is_ok()
    }
}

/// Inserts a node in ascending order, unless it is there; it isn't looked up if it is greater than all. Takes no memory.
fn put_node(nodes: &mut Vec<NodeId>, node: NodeId)
    requires ascend { IsStrictlyIncreasing nodes.old.items }
    requires room { vec_len nodes.old + 1 ≤ vec_capacity nodes.old }
    ensures ascend { IsStrictlyIncreasing nodes.new.items }
    ensures holds { (v : ℕ) → has nodes.new.items v ≡ (has nodes.old.items v || (node == v)) }
    ensures len { vec_len nodes.new ≤ vec_len nodes.old + 1 }
    ensures capacity { vec_capacity nodes.old ≤ vec_capacity nodes.new }
{
    if nodes.last().is_none_or(|last| *last < node) {
        nodes.push_reserved(node);
        return;
    }
    if let Err(place) = nodes.binary_search(&node) {
        let inserted: Result<_, _> = nodes.insert(place, node);
        inserted.unwrap();
    }
}

/// Inserts a line in ascending order, unless it is there; it isn't looked up if it is greater than all. Takes no memory.
fn put_line(lines: &mut Vec<LineId>, line: LineId)
    requires room { vec_len lines.old + 1 ≤ vec_capacity lines.old }
    requires ascend { IsStrictlyIncreasing lines.old.items }
    ensures ascend { IsStrictlyIncreasing lines.new.items }
    ensures holds { (x : ℕ) → has lines.new.items x ≡ (has lines.old.items x || (line == x)) }
{
    if lines.last().is_none_or(|last| *last < line) {
        lines.push_reserved(line);
        return;
    }
    if let Err(place) = lines.binary_search(&line) {
        let inserted: Result<_, _> = lines.insert(place, line);
        inserted.unwrap();
    }
}
