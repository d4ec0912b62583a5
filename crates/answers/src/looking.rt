//! What the requests that look into a stopped machine answer.

ghost use Rattle.std.specs.Prelude.{◌≡◌, ◌≤◌, length, IfOk, IsTrue, OnErr};
ghost use Rattle.answers.specs.Looking.{alone, look_answer, look_by, looks_in, may_allocate, text_read};

use crate::shown::Look;
use crate::view::View;
use crate::{disassemble, evaluate, read_memory, scopes, stack_trace, variables_};
use image::Image;
use protocol::{Command, Refusal};
use replies::ResponseBody;
use std::alloc::{AllocError, Global};
use stepping::Runner;
use variables::Handles;

/// What a request answers that looks into a stopped machine: `stackTrace`, `scopes`, `variables`, `evaluate`, `disassemble` or
/// `readMemory`. `image` is what was loaded into the machine, `handles` has the numbers of this stop, and the view's first line is 0 or
/// 1. Nothing is changed: the body has the numbers that the targets get when they are issued.
///
/// Which refusals there are, and when, is said at each request. Whether numbers are left for the targets is not looked at. `Err`: no
/// memory was left; a refusal takes none, but for `BadExpression` of a text of 1,024 bytes at most.
pub fn look(
    alloc: Global,
    command: &Command,
    runner: &Runner,
    image: &Image,
    handles: &Handles,
    view: &View,
) -> Result<Look, AllocError>
    requires command { IsTrue (looks_in command.now) }
    requires base { view.now.line_base ≤ 1 }
    ensures answer { IfOk result
        (λ look. look_by look ≡ look_answer command.now runner.now image.now.lines handles.now
        view.now) }
    ensures granted { OnErr result
        (IsTrue (may_allocate (look_answer command.now runner.now image.now.lines handles.now
        view.now).result)) }
    ensures short { OnErr result (length (text_read command.now) ≤ 1024) }
{
    match command {
        Command::StackTrace(arguments) => {
            stack_trace::answer(alloc, arguments, runner, &image.lines, handles, view)
        }
        Command::Scopes(arguments) => scopes::answer(alloc, arguments, handles),
        Command::Variables(arguments) => {
            let answer = variables_::answer(alloc, arguments, runner, handles)?;
            Ok(alone(alloc, answer))
        }
        Command::Evaluate(arguments) => {
            let answer = evaluate::answer(alloc, arguments, runner, handles)?;
            Ok(alone(alloc, answer))
        }
        Command::Disassemble(arguments) => {
            let answer = disassemble::answer(alloc, arguments, runner.memory())?;
            Ok(alone(alloc, answer))
        }
        Command::ReadMemory(arguments) => {
            let answer = read_memory::answer(alloc, arguments, runner.memory())?;
            Ok(alone(alloc, answer))
        }
        _ => unreachable!(),
    }
}

// An answer for which no numbers have to be issued.
fn alone(alloc: Global, answer: Result<ResponseBody, Refusal>) -> Look
    ensures { look_by result ≡ alone answer }
{
    Look {
        result: answer,
        targets: Vec::new(alloc),
    }
}
