//! What requests answer that look into a machine or change it.

ghost use Rattle.std.specs.Prelude.{◌≡◌, ◌<◌};
ghost use Rattle.answers.specs.Looking.{looks_in};

use crate::numbers::show_targets;
use crate::program::{Program, request_in, show_answer};
use answers::{Look, look, set_variable, write_memory};
use image::MemFault;
use protocol::{Command, Request, SetVariableArguments, WriteMemoryArguments};
use std::alloc::Global;
use stepping::RunEnd;
use testing::{Fault, Line, bytes_of, called, parsed};

/// The most moves before a run, which is far below what a machine can make.
const MOST_RETIRED: u64 = 1 << 40;

impl Program {
    /// What the machine answers.
    pub(crate) fn answer(
        &mut self,
        alloc: Global,
        arguments: &[&str],
        line: &mut Line,
    ) -> Result<(), Fault> {
        match arguments {
            ["write", address, bytes] => {
                self.write(parsed(address)?, &bytes_of(alloc, bytes)?)?;
                line.word("ok")
            }
            ["set", number, value] => {
                self.set(parsed(number)?, parsed(value)?)?;
                line.word("ok")
            }
            ["go", address] => {
                self.go(parsed(address)?)?;
                line.word("ok")
            }
            ["run", count] => self.run(parsed(count)?, line),
            ["look", request] => self.show_look(alloc, &bytes_of(alloc, request)?, line),
            ["change", request] => self.change(alloc, &bytes_of(alloc, request)?, line),
            arguments => self.answer_variables(alloc, arguments, line),
        }
    }

    fn write(&mut self, address: u32, bytes: &[u8]) -> Result<(), Fault> {
        match self.runner.write(address, bytes) {
            Ok(()) => Ok(()),
            Err(MemFault::NoMemory) => Err(Fault::NoMemoryInCall),
            Err(_) => Err(Fault::NoCommand),
        }
    }

    fn set(&mut self, number: u32, value: u32) -> Result<(), Fault> {
        if number == 0 || number >= 32 {
            return Err(Fault::NoCommand);
        }
        let mut hart = *self.runner.hart();
        hart.x[number as usize] = value;
        self.runner.set_hart(hart);
        Ok(())
    }

    fn go(&mut self, address: u32) -> Result<(), Fault> {
        let mut hart = *self.runner.hart();
        hart.pc = address;
        self.runner.set_hart(hart);
        Ok(())
    }

    fn run(&mut self, count: u32, line: &mut Line) -> Result<(), Fault> {
        if self.runner.retired() > MOST_RETIRED {
            return Err(Fault::NoCommand);
        }
        let ran = self.runner.run(count);
        if ran.ending == RunEnd::NoMemory {
            // The store that found none is made again.
            self.runner.run(count.saturating_sub(ran.went));
        }
        line.word("ok")
    }

    // What a request that looks into the machine answers.
    fn show_look(&self, alloc: Global, request: &[u8], line: &mut Line) -> Result<(), Fault> {
        let request = request_in(alloc, request)?;
        if !is_look(&request.command) || self.view.line_base > 1 {
            return Err(Fault::NoCommand);
        }
        let Look { result, targets } = called(look(
            alloc,
            &request.command,
            &self.runner,
            &self.image,
            &self.handles,
            &self.view,
        ))?;
        show_answer(alloc, &request, result, line)?;
        show_targets(&targets, line)
    }

    // What a request that changes the machine answers, and the change.
    fn change(&mut self, alloc: Global, request: &[u8], line: &mut Line) -> Result<(), Fault> {
        let request = request_in(alloc, request)?;
        match &request.command {
            Command::SetVariable(arguments) => self.set_by(alloc, &request, arguments, line),
            Command::WriteMemory(arguments) => self.write_by(alloc, &request, arguments, line),
            _ => Err(Fault::NoCommand),
        }
    }

    fn set_by(
        &mut self,
        alloc: Global,
        request: &Request,
        arguments: &SetVariableArguments,
        line: &mut Line,
    ) -> Result<(), Fault> {
        match called(set_variable::answer(alloc, arguments, &self.runner, &self.handles))? {
            Ok(setting) => {
                show_answer(alloc, request, Ok(setting.body), line)?;
                self.runner.set_hart(setting.hart);
                Ok(())
            }
            Err(refusal) => show_answer(alloc, request, Err(refusal), line),
        }
    }

    fn write_by(
        &mut self,
        alloc: Global,
        request: &Request,
        arguments: &WriteMemoryArguments,
        line: &mut Line,
    ) -> Result<(), Fault> {
        match write_memory::answer(arguments, self.runner.memory()) {
            Ok(writing) => {
                show_answer(alloc, request, Ok(writing.body), line)?;
                line.value(writing.address)?;
                line.value(writing.count)?;
                let bytes = arguments.bytes.as_slice();
                self.write(writing.address, &bytes[..writing.count as usize])
            }
            Err(refusal) => show_answer(alloc, request, Err(refusal), line),
        }
    }
}

fn is_look(command: &Command) -> bool
    ensures { result ≡ looks_in command.now }
{
    matches!(
        command,
        Command::StackTrace(_)
            | Command::Scopes(_)
            | Command::Variables(_)
            | Command::Evaluate(_)
            | Command::Disassemble(_)
            | Command::ReadMemory(_)
    )
}
