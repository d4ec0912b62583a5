//! The value of a tree.

ghost use Rattle.std.specs.Prelude.{◌≡◌};
ghost use Rattle.breakpoints.specs.Nodes.{tree_of};
ghost use Rattle.breakpoints.specs.Values.{before, between, decides, enclosed, is_true, value_of, word_anywhere};
ghost use Rattle.rv32i.specs.Machine.{flag};

use crate::error::ExprFault;
use crate::node::Node;
use crate::token::{Bracket, Infix, Prefix};
use image::{MemFault, Memory};
use rv32i::Hart;

impl Node {
    /// The value of the tree.
    pub(crate) fn value(&self, hart: &Hart, memory: &Memory) -> Result<u32, ExprFault>
        ensures { result ≡ value_of (tree_of self.now) hart.now memory.now }
    {
        match self {
            Node::Number(number) => Ok(*number),
            Node::Register(register) => Ok(hart.x[register.number()]),
            Node::Pc => Ok(hart.pc),
            Node::Unary(operator, operand) => Ok(before(*operator, operand.value(hart, memory)?)),
            Node::Binary(operator, left, right) => {
                let left = left.value(hart, memory)?;
                if decides(*operator, left) {
                    return Ok(u32::from(left != 0));
                }
                Ok(between(*operator, left, right.value(hart, memory)?))
            }
            Node::Enclosed(bracket, inner) => enclosed(
                *bracket,
                inner.value(hart, memory)?,
                memory,
            ),
        }
    }
}

/// An operator before a value.
pub(crate) fn before(operator: Prefix, value: u32) -> u32
    ensures { result ≡ before operator value }
{
    match operator {
        Prefix::Negate => value.wrapping_neg(),
        Prefix::Complement => value ^ 0xffff_ffff,
        Prefix::Not => u32::from(value == 0),
    }
}

/// Whether the left side decides.
pub(crate) fn decides(operator: Infix, left: u32) -> bool
    ensures { result ≡ decides operator left }
{
    match operator {
        Infix::OrElse => left != 0,
        Infix::AndThen => left == 0,
        _ => false,
    }
}

/// An operator between two values.
pub(crate) fn between(operator: Infix, left: u32, right: u32) -> u32
    ensures { result ≡ between operator left right }
{
    match operator {
        Infix::OrElse => u32::from(right != 0),
        Infix::AndThen => u32::from(right != 0),
        Infix::Or => left | right,
        Infix::Xor => left ^ right,
        Infix::And => left & right,
        Infix::Equal => u32::from(left == right),
        Infix::NotEqual => u32::from(left != right),
        Infix::Less => u32::from(left.cast_signed() < right.cast_signed()),
        Infix::LessEqual => u32::from(left.cast_signed() <= right.cast_signed()),
        Infix::Greater => u32::from(left.cast_signed() > right.cast_signed()),
        Infix::GreaterEqual => u32::from(left.cast_signed() >= right.cast_signed()),
        Infix::ShiftLeft => left.wrapping_shl(right),
        Infix::ShiftRight => left.wrapping_shr(right),
        Infix::Plus => left.wrapping_add(right),
        Infix::Minus => left.wrapping_sub(right),
        Infix::Times => left.wrapping_mul(right),
    }
}

// What brackets make of a value.
fn enclosed(bracket: Bracket, value: u32, memory: &Memory) -> Result<u32, ExprFault>
    ensures { result ≡ enclosed bracket memory.now value }
{
    match bracket {
        Bracket::Round => Ok(value),
        Bracket::Square => word_anywhere(memory, value),
    }
}

/// The word at any address. At a multiple of 4 it lies in one page, and is read at once.
pub(crate) fn word_anywhere(memory: &Memory, address: u32) -> Result<u32, ExprFault>
    ensures { result ≡ word_anywhere memory.now address }
{
    match memory.word(address) {
        Ok(word) => Ok(word),
        Err(_) => word_by_bytes(memory, address),
    }
}

// The same, by its bytes, wherever they lie.
#[inline(never)]
fn word_by_bytes(memory: &Memory, address: u32) -> Result<u32, ExprFault>
    ensures { result ≡ word_anywhere memory.now address }
{
    let mut bytes = [0; 4];
    match memory.read(address, &mut bytes) {
        Ok(()) => Ok(u32::from_le_bytes(bytes)),
        Err(_) => Err(ExprFault::Outside),
    }
}
