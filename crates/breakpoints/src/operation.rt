//! The operations of an expression, in the order in which they are done.

ghost use Rattle.std.specs.Prelude.{◌≡◌, ◌++◌, ◌∷◌, [], ◌<◌, ◌≤◌, ◌+◌, ◌-◌, IfOk, OnOk, drop, slice_set, take, vec_len};
ghost use Rattle.breakpoints.specs.Nodes.{tree_of};
ghost use Rattle.breakpoints.specs.Private.Flat.{decider, joined_by, number_of, operations_of, reached};

use crate::node::Node;
use crate::token::{Bracket, Infix, Prefix};
use rv32i::Reg;
use std::alloc::{AllocError, Global};

/// What is done with a stack of values. An operand adds its value on top, and an operator takes its own from there.
#[derive(Clone, Copy)]
pub(crate) enum Operation {
    /// A number.
    Number(u32),
    /// The value of a register.
    Register(Reg),
    /// The value of pc.
    Pc,
    /// An operator before its operand.
    Before(Prefix),
    /// An operator between its operands.
    Between(Infix),
    /// An operator between the value on top and a number.
    BetweenNumber(Infix, u32),
    /// The word in memory at an address.
    Load,
    /// `&&` or `||` after its left side: where that decides, that many operations are passed over.
    Decide(Infix, usize),
}

/// The operations of a tree.
pub(crate) fn operations(alloc: Global, root: &Node) -> Result<Vec<Operation>, AllocError>
    ensures { IfOk result (λ operations. operations.items ≡ operations_of (tree_of root.now)) }
{
    let mut operations = Vec::new(alloc);
    push_operations(root, &mut operations)?;
    Ok(operations)
}

// Appends the operations of a tree.
fn push_operations(node: &Node, operations: &mut Vec<Operation>) -> Result<(), AllocError>
    ensures { OnOk result (operations.new.items
        ≡ operations.old.items ++ operations_of (tree_of node.now)) }
{
    match node {
        Node::Number(number) => append(Operation::Number(*number), operations),
        Node::Register(register) => append(Operation::Register(*register), operations),
        Node::Pc => append(Operation::Pc, operations),
        Node::Unary(operator, operand) => {
            push_operations(operand, operations)?;
            append(Operation::Before(*operator), operations)
        }
        Node::Binary(operator, left, right) => {
            push_operations(left, operations)?;
            let decider = operations.len();
            push_decider(*operator, operations)?;
            let right_side = operations.len();
            push_operations(right, operations)?;
            join(*operator, right_side, operations)?;
            reach(*operator, decider, operations);
            Ok(())
        }
        Node::Enclosed(Bracket::Round, inner) => push_operations(inner, operations),
        Node::Enclosed(Bracket::Square, inner) => {
            push_operations(inner, operations)?;
            append(Operation::Load, operations)
        }
    }
}

// Appends what decides by the left side, where the operator is one that does. What it passes over is not known yet.
fn push_decider(operator: Infix, operations: &mut Vec<Operation>) -> Result<(), AllocError>
    ensures { OnOk result (operations.new.items ≡ operations.old.items ++ decider operator 0) }
{
    match operator {
        Infix::OrElse | Infix::AndThen => append(Operation::Decide(operator, 0), operations),
        _ => Ok(()),
    }
}

// Appends the operator, or puts it into the operation of the right side where that is a number alone.
fn join(
    operator: Infix,
    right_side: usize,
    operations: &mut Vec<Operation>,
) -> Result<(), AllocError>
    requires { right_side ≤ vec_len operations.old }
    ensures { OnOk result (operations.new.items ≡ take right_side operations.old.items
        ++ joined_by operator (drop right_side operations.old.items)) }
{
    if operations.len() - right_side == 1 {
        return join_one(operator, right_side, operations);
    }
    append(Operation::Between(operator), operations)
}

// The same, where the right side is one operation.
fn join_one(
    operator: Infix,
    right_side: usize,
    operations: &mut Vec<Operation>,
) -> Result<(), AllocError>
    requires { vec_len operations.old ≡ right_side + 1 }
    ensures { OnOk result (operations.new.items ≡ take right_side operations.old.items
        ++ joined_by operator (drop right_side operations.old.items)) }
{
    let Some(number) = number_of(operations[right_side]) else {
        return append(Operation::Between(operator), operations);
    };
    operations[right_side] = Operation::BetweenNumber(operator, number);
    Ok(())
}

fn number_of(operation: Operation) -> Option<u32>
    ensures { result ≡ number_of operation }
{
    match operation {
        Operation::Number(number) => Some(number),
        _ => None,
    }
}

// Says what a decider passes over: what was appended after it.
fn reach(operator: Infix, decider: usize, operations: &mut Vec<Operation>)
    requires { decider < vec_len operations.old }
    ensures { operations.new.items ≡ reached operator decider
        (vec_len operations.old - decider - 1) operations.old.items }
{
    match operator {
        Infix::OrElse | Infix::AndThen => {
            let over = operations.len() - decider - 1;
            operations[decider] = Operation::Decide(operator, over);
        }
        _ => {}
    }
}

fn append(operation: Operation, operations: &mut Vec<Operation>) -> Result<(), AllocError>
    ensures { OnOk result (operations.new.items ≡ operations.old.items ++ operation ∷ []) }
{
    operations.push(operation)?;
    Ok(())
}
