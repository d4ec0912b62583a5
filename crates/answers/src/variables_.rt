//! `variables`: the variables of a scope.

ghost use Rattle.std.specs.Prelude.{◌≡◌, ◌≤◌, IfOk, IsTrue, OnErr, drop, length, take};
ghost use Rattle.answers.specs.Looking.{may_allocate};
ghost use Rattle.answers.specs.Parts.{part};
ghost use Rattle.answers.specs.Variables as spec;

use crate::parts::{end_in, first_in};
use crate::targets::target_of;
use protocol::{Entries, Filter, Refusal, VariablesArguments};
use replies::{ResponseBody, Variable, Variables};
use std::alloc::{AllocError, Global};
use stepping::Runner;
use variables::{Handles, Target, registers, stack_words};

/// The body of the success, or the refusal. The variables are those of the scope from `start` on, at most `count` of them; all from there
/// on where that is 0 or absent. None of them is an element of a variable.
///
/// - `UnknownReference`: the number was never issued, or is a frame's.
/// - `StaleReference`: else it was issued in an earlier stop.
///
/// `Err`: no memory was left; a refusal takes none.
pub(crate) fn answer(
    alloc: Global,
    arguments: &VariablesArguments,
    runner: &Runner,
    handles: &Handles,
) -> Result<Result<ResponseBody, Refusal>, AllocError>
    ensures answer { IfOk result
        (λ answer. answer ≡ spec.variables arguments.now runner.now handles.now) }
    ensures granted { OnErr result
        (IsTrue (may_allocate (spec.variables arguments.now runner.now handles.now))) }
{
    match target_of(handles, arguments.variables_reference) {
        Err(refusal) => Ok(Err(refusal)),
        Ok(Target::Frame(_)) => Ok(Err(Refusal::UnknownReference)),
        Ok(Target::Registers) => {
            let list = registers(alloc, runner.hart())?;
            Ok(Ok(body_of(arguments, list)))
        }
        Ok(Target::Stack) => {
            let list = stack_words(alloc, runner.hart(), runner.memory())?;
            Ok(Ok(body_of(arguments, list)))
        }
    }
}

// The body with those of these variables that are asked for.
fn body_of(arguments: &VariablesArguments, list: Vec<Variable>) -> ResponseBody
    ensures { result ≡ ResponseBody.Variables
        (record { variables = spec.asked_of arguments.now list.items }) }
{
    ResponseBody::Variables(Variables {
        variables: Entries::from_vec(asked_of(arguments, list)),
    })
}

fn asked_of(arguments: &VariablesArguments, list: Vec<Variable>) -> Vec<Variable>
    ensures { result.items ≡ spec.asked_of arguments.now list.items }
{
    match arguments.filter {
        Some(Filter::Indexed) => part(arguments.start, arguments.count, cut(list, 0, 0)),
        None => part(arguments.start, arguments.count, list),
        Some(Filter::Named) => part(arguments.start, arguments.count, list),
    }
}

// The part of a list from an index on, with at most `count` elements.
fn part(start: u32, count: Option<u32>, list: Vec<Variable>) -> Vec<Variable>
    ensures { result.items ≡ part start count list.items }
{
    let first = first_in(start, list.len());
    let end = end_in(first, count, list.len());
    cut(list, first, end)
}

// The elements from an index up to another.
fn cut(list: Vec<Variable>, first: usize, end: usize) -> Vec<Variable>
    requires low { first ≤ end }
    requires high { end ≤ length list.items }
    ensures { result.items ≡ drop first (take end list.items) }
{
    let mut list = list;
    list.truncate(end);
    list.drain(..first);
    list
}
