//! `rvdap debug FILE`: a program is debugged in the terminal, or by a script.

mod colours;
mod conversation;
mod input;
mod lines;
mod origins;
mod output;

use crate::played::script_in;
use blocking_io::{Waiting, write_whole};
use commands::{ExitReason, MemorySize, NoProgram, exit_with, fail_at, program_text};
use console::Console;
use conversation::{Conversation, Program};
use options::Text;
use session::ConfigError;
use std::process::ExitCode;
use transport::FileFault;

/// Debugs the program in a file with this much memory: the lines of the script come first, if one is given, and then those of standard
/// input. The status is 0, or 1 where a line was refused that nobody typed; the script or the file cannot be read, with a line on standard
/// error; the program does not assemble, which is told on standard output as `check_files` does; or a stream failed or no memory was left,
/// with a line on standard error.
pub(crate) fn debug_file(
    rt: &HostRuntime,
    file: &str,
    script: Option<&Text>,
    memory: MemorySize,
) -> ExitCode {
    match script {
        None => debug_played(rt, file, b"", memory),
        Some(script) => match script_in(rt, script.as_str()) {
            Ok(lines) => debug_played(rt, file, lines.as_slice(), memory),
            Err(FileFault::Unreadable) => fail_at(rt, script.as_str(), "cannot read"),
            Err(FileFault::NoMemory) => exit_with(rt, ExitReason::NoMemory),
        },
    }
}

// The same with what the script holds.
fn debug_played(rt: &HostRuntime, file: &str, script: &[u8], memory: MemorySize) -> ExitCode {
    match program_text(rt, file, memory) {
        Ok(text) => debug_program(rt, Program { file, memory, text }, script),
        Err(NoProgram::Unreadable) => fail_at(rt, file, "cannot read"),
        Err(NoProgram::Wrong(lines)) => tell_wrong(rt, lines.as_str()),
        Err(NoProgram::NoMemory) => exit_with(rt, ExitReason::NoMemory),
    }
}

fn tell_wrong(rt: &HostRuntime, lines: &str) -> ExitCode {
    match write_whole(&mut Waiting::new(rt.stdout()), lines.as_bytes()) {
        Ok(()) => ExitCode::FAILURE,
        Err(_) => exit_with(rt, ExitReason::ReadOrWriteFault),
    }
}

fn debug_program(rt: &HostRuntime, program: Program<'_>, script: &[u8]) -> ExitCode {
    match Conversation::new(rt, program, script) {
        Ok(mut conversation) => debug_with(rt, &mut conversation),
        Err(why) => exit_with(rt, why),
    }
}

fn debug_with(rt: &HostRuntime, conversation: &mut Conversation<'_>) -> ExitCode {
    let file = conversation.program().file;
    let memory = conversation.program().memory;
    let Ok(path) = String::from_str(rt.alloc(), file) else {
        return exit_with(rt, ExitReason::NoMemory);
    };
    match Console::new(rt.alloc(), path, memory.bytes) {
        Ok(console) => {
            let end = hold(conversation, console);
            ended(rt, conversation, end)
        }
        Err(ConfigError::NoMemory) => exit_with(rt, ExitReason::NoMemory),
        Err(error) => fail_at(rt, file, error),
    }
}

// Holds a conversation. To drop a console is dear to prove, so it's done here alone, and by a call.
fn hold(conversation: &mut Conversation<'_>, mut console: Console) -> Result<(), ExitReason> {
    let end = conversation.hold(&mut console);
    drop(console);
    end
}

// The status of a conversation, with a line on standard error where it ended badly.
fn ended(
    rt: &HostRuntime,
    conversation: &Conversation<'_>,
    end: Result<(), ExitReason>,
) -> ExitCode {
    match end {
        Ok(()) if conversation.failed() => ExitCode::FAILURE,
        Ok(()) => ExitCode::SUCCESS,
        Err(why) => exit_with(rt, why),
    }
}
