//! `setVariable`: a register gets another value.

ghost use Rattle.std.specs.Prelude.{◌≡◌, if◌then◌else◌, IfOk, Ok, OnErr};
ghost use Rattle.variables.specs.Registers.{name_answer};
ghost use Rattle.variables.specs.Stack.{stack_words};
ghost use Rattle.variables.specs.Values.{value_of};
ghost use Rattle.answers.specs.SetVariable as spec;
ghost use Rattle.answers.specs.Targets.{target_of};

use crate::targets::target_of;
use protocol::{Refusal, SetVariableArguments};
use replies::{ResponseBody, SetVariable, Variable};
use rv32i::Hart;
use std::alloc::{AllocError, Global};
use stepping::Runner;
use variables::{Handles, Target, set_register, stack_words};

/// What is answered, and the hart that the machine gets.
#[derive(Drop)]
pub struct Setting {
    /// The body of the success.
    pub body: ResponseBody,
    /// The hart with the register's new value.
    pub hart: Hart,
}

/// The body of the success and the hart with the new value, or the refusal. Nothing is set yet.
///
/// - `UnknownReference`: the number was never issued, or is a frame's.
/// - `StaleReference`: else it was issued in an earlier stop.
/// - `UnknownName`: else the scope shows no variable of that name.
/// - `NotWritable`: else it is `zero`, `pc` or a word of the stack.
/// - `BadValue`: else the text is neither `0x` and 1 to 8 hexadecimal digits nor a decimal number from -2,147,483,648 to 4,294,967,295.
///
/// `Err`: no memory was left to look for the name among the words of the stack.
pub fn answer(
    alloc: Global,
    arguments: &SetVariableArguments,
    runner: &Runner,
    handles: &Handles,
) -> Result<Result<Setting, Refusal>, AllocError>
    ensures answer { IfOk result
        (λ answer. answer ≡ spec.set_variable arguments.now runner.now handles.now) }
    ensures stack { OnErr result
        (target_of handles.now arguments.now.variables_reference ≡ Ok Target.Stack) }
{
    match target_of(handles, arguments.variables_reference) {
        Err(refusal) => Ok(Err(refusal)),
        Ok(Target::Frame(_)) => Ok(Err(Refusal::UnknownReference)),
        Ok(Target::Registers) => Ok(in_registers(arguments, *runner.hart())),
        Ok(Target::Stack) => {
            let words = stack_words(alloc, runner.hart(), runner.memory())?;
            Ok(Err(in_stack(arguments.name.as_str(), &words)))
        }
    }
}

// The hart with another value in a register.
fn in_registers(arguments: &SetVariableArguments, hart: Hart) -> Result<Setting, Refusal>
    ensures { result ≡ spec.setting_of hart (name_answer arguments.now.name)
        (value_of arguments.now.value) }
{
    let mut changed = hart;
    match set_register(
        &mut changed,
        arguments.name.as_str(),
        arguments.value.as_str(),
    ) {
        Err(refusal) => Err(refusal),
        Ok(value) => Ok(Setting {
            body: ResponseBody::SetVariable(SetVariable { value }),
            hart: changed,
        }),
    }
}

// Why nothing of that name can be set among the words of the stack.
fn in_stack(name: &str, words: &[Variable]) -> Refusal
    ensures { result ≡ (if spec.has_name name.now words.now then Refusal.NotWritable else
        Refusal.UnknownName) }
{
    for word in words {
        if word.name.as_str() == name {
            return Refusal::NotWritable;
        }
    }
    Refusal::UnknownName
}
