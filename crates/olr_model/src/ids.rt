//! Numbers of nodes and lines, from 1 to 4,294,967,295.
ghost use Rattle.std.specs.Prelude.{ℕ, ◌≡◌, ◌≤◌, SomeIff};

use std::marker::Model;

/// The number of a node, from 1.
#[derive(Clone, Copy, Debug, PartialEq, Eq, PartialOrd, Ord)]
pub struct NodeId {
    number: u32,
}

impl Model for NodeId {
    ghost Value = { ℕ };

    ghost view = { λ a. a.number };

    ghost invariant = { λ a. 1 ≤ a.number };

    ghost inverse = { λ n. record { number = n } };
}

/// The default is the first number, 1.
impl Default for NodeId {
    ghost is_default = { λ n. n ≡ 1 };

    fn default() -> Self {
        NodeId { number: 1 }
    }
}

impl NodeId {
    /// The node with this number. None if and only if the number is 0.
    pub fn new(number: u32) -> Option<NodeId>
        ensures { SomeIff result (1 ≤ number) number }
    {
        if number >= 1 {
            Some(NodeId { number })
        } else {
            None
        }
    }

    /// The node's number.
    pub fn number(self) -> u32
        ensures same { result ≡ self }
        ensures from_one { 1 ≤ self }
    {
        self.number
    }
}

/// The number of a line, from 1.
#[derive(Clone, Copy, Debug, PartialEq, Eq, PartialOrd, Ord)]
pub struct LineId {
    number: u32,
}

impl Model for LineId {
    ghost Value = { ℕ };

    ghost view = { λ a. a.number };

    ghost invariant = { λ a. 1 ≤ a.number };

    ghost inverse = { λ n. record { number = n } };
}

/// The default is the first number, 1.
impl Default for LineId {
    ghost is_default = { λ n. n ≡ 1 };

    fn default() -> Self {
        LineId { number: 1 }
    }
}

impl LineId {
    /// The line with this number. None if and only if the number is 0.
    pub fn new(number: u32) -> Option<LineId>
        ensures { SomeIff result (1 ≤ number) number }
    {
        if number >= 1 {
            Some(LineId { number })
        } else {
            None
        }
    }

    /// The line's number.
    pub fn number(self) -> u32
        ensures same { result ≡ self }
        ensures from_one { 1 ≤ self }
    {
        self.number
    }
}
