//! What operations make of a stack: the value of an expression.

ghost use Rattle.std.specs.Prelude.{◌≡◌, [], ◌∷◌, IfSome};
ghost use Rattle.breakpoints.specs.Private.Flat.{IsDone, made_before, made_between, made_between_number, made_by, made_decide, made_load, outcome, stack_in, top_of};

use crate::error::ExprFault;
use crate::operation::Operation;
use crate::token::{Infix, Prefix};
use crate::value::{before, between, decides, word_anywhere};
use image::Memory;
use rv32i::Hart;

/// How many values the stack has room for.
const ROOM: usize = 16;

/// What an operation leads to.
enum Done {
    /// That many values are there now.
    Next(usize),
    /// There are as many values as before, and that many operations are passed over.
    Decided(usize),
    /// A fault.
    Fault(ExprFault),
    /// The stack has no room for it.
    NoRoom,
}

/// What the operations make of an empty stack. `None`: it takes more room than there is.
pub(crate) fn outcome(
    operations: &[Operation],
    hart: &Hart,
    memory: &Memory,
) -> Option<Result<u32, ExprFault>>
    ensures { IfSome result (λ found. found ≡ outcome hart.now memory.now [] 0 operations.now) }
{
    let mut stack = [0; ROOM];
    run(operations, &mut stack, hart, memory)
}

// What the operations make of an empty stack, with these words to keep one in.
fn run(
    operations: &[Operation],
    words: &mut [u32],
    hart: &Hart,
    memory: &Memory,
) -> Option<Result<u32, ExprFault>>
    ensures { IfSome result (λ found. found ≡ outcome hart.now memory.now [] 0 operations.now) }
{
    let mut depth = 0;
    let mut at = 0;
    while let Some(operation) = operations.get(at) {
        match step(words, depth, *operation, hart, memory) {
            Done::Next(count) => {
                depth = count;
                at += 1;
            }
            Done::Decided(over) => {
                if over >= operations.len() - at {
                    return None;
                }
                at += over + 1;
            }
            Done::Fault(fault) => return Some(Err(fault)),
            Done::NoRoom => return None,
        }
    }
    top(words, depth)
}

// An operation on the first words as a stack.
#[inline]
fn step(words: &mut [u32], depth: usize, operation: Operation, hart: &Hart, memory: &Memory) -> Done
    ensures { IsDone words.new depth result
        (made_by hart.now memory.now operation (stack_in words.old depth)) }
{
    match operation {
        Operation::Number(number) => push(words, depth, number),
        Operation::Register(register) => push(words, depth, hart.x[register.number()]),
        Operation::Pc => push(words, depth, hart.pc),
        Operation::Before(operator) => step_before(words, depth, operator),
        Operation::Between(operator) => step_between(words, depth, operator),
        Operation::BetweenNumber(operator, number) => step_between_number(
            words, depth, operator, number,
        ),
        Operation::Load => step_load(words, depth, memory),
        Operation::Decide(operator, over) => step_decide(words, depth, operator, over),
    }
}

// A value on top.
#[inline]
fn push(words: &mut [u32], depth: usize, value: u32) -> Done
    ensures { IsDone words.new depth result (Ok (value ∷ stack_in words.old depth, 0)) }
{
    if depth >= words.len() {
        return Done::NoRoom;
    }
    words[depth] = value;
    Done::Next(depth + 1)
}

// An operator before the value on top.
#[inline]
fn step_before(words: &mut [u32], depth: usize, operator: Prefix) -> Done
    ensures { IsDone words.new depth result (made_before operator (stack_in words.old depth)) }
{
    if depth == 0 || depth > words.len() {
        return Done::NoRoom;
    }
    words[depth - 1] = before(operator, words[depth - 1]);
    Done::Next(depth)
}

// An operator between the two values on top.
#[inline]
fn step_between(words: &mut [u32], depth: usize, operator: Infix) -> Done
    ensures { IsDone words.new depth result (made_between operator (stack_in words.old depth)) }
{
    if depth < 2 || depth > words.len() {
        return Done::NoRoom;
    }
    words[depth - 2] = between(operator, words[depth - 2], words[depth - 1]);
    Done::Next(depth - 1)
}

// An operator between the value on top and a number.
#[inline]
fn step_between_number(words: &mut [u32], depth: usize, operator: Infix, number: u32) -> Done
    ensures { IsDone words.new depth result
        (made_between_number operator number (stack_in words.old depth)) }
{
    if depth == 0 || depth > words.len() {
        return Done::NoRoom;
    }
    words[depth - 1] = between(operator, words[depth - 1], number);
    Done::Next(depth)
}

// The word at the address on top.
#[inline]
fn step_load(words: &mut [u32], depth: usize, memory: &Memory) -> Done
    ensures { IsDone words.new depth result (made_load memory.now (stack_in words.old depth)) }
{
    if depth == 0 || depth > words.len() {
        return Done::NoRoom;
    }
    match word_anywhere(memory, words[depth - 1]) {
        Ok(word) => {
            words[depth - 1] = word;
            Done::Next(depth)
        }
        Err(fault) => Done::Fault(fault),
    }
}

// The left side on top: where it decides, that many operations are passed over.
#[inline]
fn step_decide(words: &mut [u32], depth: usize, operator: Infix, over: usize) -> Done
    ensures { IsDone words.new depth result (made_decide operator over (stack_in words.old depth)) }
{
    if depth == 0 || depth > words.len() {
        return Done::NoRoom;
    }
    let left = words[depth - 1];
    if !decides(operator, left) {
        return Done::Next(depth);
    }
    words[depth - 1] = u32::from(left != 0);
    Done::Decided(over)
}

// The value on top at the end.
fn top(words: &[u32], depth: usize) -> Option<Result<u32, ExprFault>>
    ensures { IfSome result (λ found. found ≡ top_of (stack_in words.now depth)) }
{
    if depth == 0 || depth > words.len() {
        return None;
    }
    Some(Ok(words[depth - 1]))
}
