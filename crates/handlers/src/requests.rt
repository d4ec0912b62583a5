//! The requests, each in a module of its own. This is the list of them.
ghost use Rattle.std.specs.Prelude.{◌≡◌, IfOk};
ghost use Rattle.handlers.specs.Changes.{answering_as};
ghost use Rattle.handlers.specs.Requests.{demand_of, success_of};

mod attach;
mod breaks;
mod cancel;
mod configuration_done;
mod continue_;
mod disconnect;
mod going_back;
mod initialize;
pub mod launch;
mod looks;
mod pause;
mod restart;
mod set_exception_breakpoints;
mod set_variable;
mod steps;
mod terminate;
mod threads;
mod write_memory;

use crate::answer::Answer;
use crate::demand::Demand;
use crate::lent::Lent;
use protocol::Command;
use std::alloc::{AllocError, Global};
use stepping::Goal;

/// In which phases the request is taken, and what it asks of the program that is debugged.
pub fn demand_of(command: &Command) -> Demand
    ensures { result ≡ demand_of command.now }
{
    match command {
        Command::Initialize(_) => initialize::demand(),
        Command::Launch(_) => launch::demand(),
        Command::Attach => attach::demand(),
        Command::ConfigurationDone => configuration_done::demand(),
        Command::Threads => threads::demand(),
        Command::Cancel(_) => cancel::demand(),
        Command::Restart => restart::demand(),
        Command::Terminate => terminate::demand(),
        Command::Disconnect(_) => disconnect::demand(),
        Command::SetBreakpoints(_)
        | Command::SetFunctionBreakpoints(_)
        | Command::SetInstructionBreakpoints(_) => breaks::demand(),
        Command::SetExceptionBreakpoints => set_exception_breakpoints::demand(),
        Command::Continue(arguments) => continue_::demand(arguments.thread_id),
        Command::Next(arguments) => steps::demand(arguments.thread_id),
        Command::StepIn(arguments) => steps::demand(arguments.thread_id),
        Command::StepOut(arguments) => steps::demand(arguments.thread_id),
        Command::StepBack(arguments) => going_back::demand(arguments.thread_id),
        Command::ReverseContinue(arguments) => going_back::demand(arguments.thread_id),
        Command::Pause(arguments) => pause::demand(arguments.thread_id),
        Command::StackTrace(arguments) => looks::demand_on(arguments.thread_id),
        Command::Scopes(_)
        | Command::Variables(_)
        | Command::Evaluate(_)
        | Command::Disassemble(_)
        | Command::ReadMemory(_) => looks::demand(),
        Command::SetVariable(_) => set_variable::demand(),
        Command::WriteMemory(_) => write_memory::demand(),
    }
}

/// The answer to a request that is taken where the program is as it asks. `Err`: no memory was left.
pub fn success_of(alloc: Global, lent: &Lent, command: &Command) -> Result<Answer, AllocError>
    ensures { IfOk result (λ a. answering_as lent.now.given.debuggee a
        ≡ success_of lent.now.given lent.now.terms lent.now.file command.now) }
{
    let terms = lent.terms;
    match command {
        Command::Initialize(arguments) => Ok(initialize::success(terms, arguments)),
        Command::Launch(arguments) => launch::success(alloc, lent, arguments),
        Command::Attach => Ok(attach::success(terms)),
        Command::ConfigurationDone => configuration_done::success(alloc, lent),
        Command::Threads => Ok(threads::success(terms)),
        Command::Cancel(_) => Ok(cancel::success(terms)),
        Command::Restart => Ok(restart::success(terms)),
        Command::Terminate => Ok(terminate::success(terms)),
        Command::Disconnect(arguments) => Ok(disconnect::success(terms, arguments)),
        Command::SetBreakpoints(_)
        | Command::SetFunctionBreakpoints(_)
        | Command::SetInstructionBreakpoints(_) => breaks::success(alloc, lent, command),
        Command::SetExceptionBreakpoints => Ok(set_exception_breakpoints::success(terms)),
        Command::Continue(_) => Ok(continue_::success(terms)),
        Command::Next(arguments) => Ok(steps::over(terms, arguments.granularity)),
        Command::StepIn(arguments) => Ok(steps::into(terms, arguments.granularity)),
        Command::StepOut(arguments) => Ok(steps::out(terms, arguments.granularity)),
        Command::StepBack(_) => Ok(going_back::success(lent, Goal::Back)),
        Command::ReverseContinue(_) => Ok(going_back::success(lent, Goal::ReverseGo)),
        Command::Pause(_) => Ok(pause::success(terms)),
        Command::StackTrace(_)
        | Command::Scopes(_)
        | Command::Variables(_)
        | Command::Evaluate(_)
        | Command::Disassemble(_)
        | Command::ReadMemory(_) => looks::success(alloc, lent, command),
        Command::SetVariable(arguments) => set_variable::success(alloc, lent, arguments),
        Command::WriteMemory(arguments) => write_memory::success(alloc, lent, arguments),
    }
}
