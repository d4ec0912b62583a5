//! `evaluate`: the value of an expression.

ghost use Rattle.std.specs.Prelude.{◌≡◌, ◌≤◌, length, IfOk, IsTrue, OnErr};
ghost use Rattle.answers.specs.Evaluate as spec;
ghost use Rattle.answers.specs.Expressions.{expression_of};
ghost use Rattle.breakpoints.specs.Nodes.{tree_of};
ghost use Rattle.breakpoints.specs.Values.{value_of};
ghost use Rattle.answers.specs.Looking.{may_allocate};

use crate::targets::frame_refusal;
use breakpoints::{Expr, ExprError};
use image::Memory;
use protocol::{EvaluateArguments, Refusal};
use replies::{Evaluate, ResponseBody};
use rv32i::Hart;
use std::alloc::{AllocError, Global};
use stepping::Runner;
use variables::Handles;

/// The body of the success, or the refusal. Whichever frame is named, the expression is evaluated on the hart as it stands.
///
/// - `UnknownReference`: a frame is named by a number that was never issued, or is a scope's.
/// - `StaleReference`: else a frame of an earlier stop is named.
/// - `BadExpression`: else the text is no expression, or a word outside memory is evaluated.
///
/// `Err`: no memory was left; the first two refusals take none, nor does a text of more than 1,024 bytes, which is no expression.
pub(crate) fn answer(
    alloc: Global,
    arguments: &EvaluateArguments,
    runner: &Runner,
    handles: &Handles,
) -> Result<Result<ResponseBody, Refusal>, AllocError>
    ensures answer { IfOk result
        (λ answer. answer ≡ spec.evaluate arguments.now runner.now handles.now) }
    ensures granted { OnErr result
        (IsTrue (may_allocate (spec.evaluate arguments.now runner.now handles.now))) }
    ensures short { OnErr result (length arguments.now.expression ≤ 1024) }
{
    match frame_refusal(handles, arguments.frame_id) {
        Some(refusal) => Ok(Err(refusal)),
        None => valued(
            alloc,
            arguments.expression.as_str(),
            runner.hart(),
            runner.memory(),
        ),
    }
}

fn valued(
    alloc: Global,
    text: &str,
    hart: &Hart,
    memory: &Memory,
) -> Result<Result<ResponseBody, Refusal>, AllocError>
    ensures answer { IfOk result
        (λ answer. answer ≡ spec.valued (expression_of text.now) hart.now memory.now) }
    ensures short { OnErr result (length text.now ≤ 1024) }
{
    match Expr::parse(alloc, text) {
        Ok(expression) => Ok(if_valued(&expression, hart, memory)),
        Err(ExprError::NoMemory) => Err(AllocError),
        Err(ExprError::Syntax) => Ok(Err(Refusal::BadExpression)),
        Err(ExprError::TooDeep) => Ok(Err(Refusal::BadExpression)),
        Err(ExprError::TooLong) => Ok(Err(Refusal::BadExpression)),
    }
}

fn if_valued(expression: &Expr, hart: &Hart, memory: &Memory) -> Result<ResponseBody, Refusal>
    ensures { result ≡ spec.if_valued (value_of (tree_of expression.now) hart.now memory.now) }
{
    match expression.value(hart, memory) {
        Ok(result) => Ok(ResponseBody::Evaluate(Evaluate { result })),
        Err(_) => Err(Refusal::BadExpression),
    }
}
