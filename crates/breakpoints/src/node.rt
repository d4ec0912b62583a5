//! The tree of an expression.

ghost use Rattle.std.specs.Prelude.{◌≡◌, nat_le};
ghost use Rattle.breakpoints.specs.Nodes.{tree_of};
ghost use Rattle.breakpoints.specs.Trees.{nesting};

use crate::token::{Bracket, Infix, Prefix};
use rv32i::Reg;

/// A tree: each leaf, operator and pair of brackets of the text is a node of its own.
#[derive(Drop)]
pub enum Node {
    /// A number.
    Number(u32),
    /// The value of a register.
    Register(Reg),
    /// The value of pc.
    Pc,
    /// An operator and its operand.
    Unary(Prefix, Box<Node>),
    /// An operator and its operands, left and right.
    Binary(Infix, Box<Node>, Box<Node>),
    /// An expression in brackets.
    Enclosed(Bracket, Box<Node>),
}

impl Node {
    /// Whether its brackets and operators before their operand nest no deeper than this.
    pub(crate) fn nests_within(&self, limit: u32) -> bool
        ensures { result ≡ nat_le (nesting (tree_of self.now)) limit }
    {
        match self {
            Node::Number(_) | Node::Register(_) | Node::Pc => true,
            Node::Unary(_, inner) | Node::Enclosed(_, inner) => limit > 0
                && inner.nests_within(limit - 1),
            Node::Binary(_, left, right) => left.nests_within(limit) && right.nests_within(limit),
        }
    }
}
