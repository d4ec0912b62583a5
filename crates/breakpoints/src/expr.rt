//! An expression.

use crate::error::{ExprError, ExprFault};
use crate::lexing::tokens;
use crate::node::Node;
use crate::operation::{Operation, operations};
use crate::parsing::parse;
use crate::running::outcome;
use image::Memory;
use rv32i::Hart;
use std::alloc::Global;
use std::marker::Model;

/// The greatest number of bytes of an expression's text.
const TEXT_LIMIT: usize = 1024;

/// How deep brackets and operators before their operand may nest.
const NESTING_LIMIT: u32 = 64;

/// An expression: its tree, and what to do for its value, one operation after the other. A contract sees its tree.
#[derive(Drop)]
pub struct Expr {
    root: Node,
    operations: Vec<Operation>,
}

impl Model for Expr {
    ghost use Rattle.std.specs.Coded.{codes};
    ghost use Rattle.breakpoints.specs.contracts.node.Node as node;
    ghost use Rattle.breakpoints.specs.declared.node.Node.{Node};

    ghost Value = { Node };

    ghost coded = { Prim.hlevel (codes, node.the_row.coded) };

    ghost view = { λ e. e.root };

    ghost use Rattle.std.specs.Prelude.{◌≡◌};
    ghost use Rattle.breakpoints.specs.Nodes.{tree_of};
    ghost use Rattle.breakpoints.specs.Private.Flat.{operations_of};

    ghost invariant = { λ e. e.operations.items ≡ operations_of (tree_of e.root) };
}

impl Expr {
    ghost use Rattle.std.specs.Prelude.{◌≡◌};
    ghost use Rattle.breakpoints.specs.Nodes.{read_as, tree_of};
    ghost use Rattle.breakpoints.specs.Texts.{Parses};
    ghost use Rattle.breakpoints.specs.Stops.{is_no_zero};
    ghost use Rattle.breakpoints.specs.Values.{value_of};

    /// The expression of a text. `TooLong`: the text has more than 1,024 bytes; else `Syntax`: the grammar gives it no tree;
    /// else `TooDeep`: its brackets and operators before their operand nest more than 64 deep. `NoMemory`: no memory was
    /// left; a text that is too long takes none.
    pub fn parse(alloc: Global, text: &str) -> Result<Expr, ExprError>
        ensures { Parses text.now (read_as result) }
    {
        if text.len() > TEXT_LIMIT {
            return Err(ExprError::TooLong);
        }
        let Some(tokens) = tokens(alloc, text.as_bytes())? else {
            return Err(ExprError::Syntax);
        };
        let Some(root) = parse(alloc, &tokens)? else {
            return Err(ExprError::Syntax);
        };
        if !root.nests_within(NESTING_LIMIT) {
            return Err(ExprError::TooDeep);
        }
        let operations = operations(alloc, &root)?;
        Ok(Expr { root, operations })
    }

    /// The value of the expression on a hart and its memory, without taking memory. `Outside`: a word that is
    /// evaluated has a byte outside memory; `&&` and `||` leave their right side alone where the left one decides.
    pub fn value(&self, hart: &Hart, memory: &Memory) -> Result<u32, ExprFault>
        ensures { result ≡ value_of (tree_of self.now) hart.now memory.now }
    {
        // Of one operation the tree is as quick, and needs no stack.
        if self.operations.len() < 2 {
            return self.root.value(hart, memory);
        }
        match outcome(&self.operations, hart, memory) {
            Some(found) => found,
            None => self.root.value(hart, memory),
        }
    }

    /// Whether the value is not 0, or there is none.
    #[inline(always)]
    pub(crate) fn holds(&self, hart: &Hart, memory: &Memory) -> bool
        ensures { result ≡ is_no_zero (value_of (tree_of self.now) hart.now memory.now) }
    {
        match &self.root {
            Node::Number(number) => *number != 0,
            _ => self.holds_by_value(hart, memory),
        }
    }

    // The same, where the value has to be worked out. It stays a function of its own, which keeps the loop over breakpoints short.
    #[inline(never)]
    fn holds_by_value(&self, hart: &Hart, memory: &Memory) -> bool
        ensures { result ≡ is_no_zero (value_of (tree_of self.now) hart.now memory.now) }
    {
        match self.value(hart, memory) {
            Ok(value) => value != 0,
            Err(_) => true,
        }
    }
}
