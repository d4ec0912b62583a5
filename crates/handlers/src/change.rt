//! What an answer changes.
ghost use Rattle.std.specs.Prelude.{◌≡◌, length, None, Some, OnErr, OnOk, if◌then◌else◌};
ghost use Rattle.debuggee.specs.Programs.{first_run, restarted, written};
ghost use Rattle.handlers.specs.Changes.{call_of_one, changed_one, MayLack};
ghost use Rattle.image.specs.Memory.{NeedsPage};
ghost use Rattle.handlers.specs.Disconnect.{departed};
ghost use Rattle.variables.specs.Laws.Call.{EndStop};

use crate::numbered::Numbered;
use debuggee::{Mark, Program, Run, Why};
use image::MemFault;
use rv32i::Hart;
use std::alloc::AllocError;
use stepping::Goal;
use variables::Target;

/// What an answer makes of the program that is debugged, and of the references.
#[derive(Drop)]
pub enum Change {
    /// Nothing.
    Nothing,
    /// It is now this.
    Load(Program),
    /// The breakpoints of its source lines are these.
    SetSource(Numbered),
    /// The breakpoints of its instructions are these.
    SetInstructions(Numbered),
    /// The breakpoints of its functions are these.
    SetFunctions(Numbered),
    /// It stays as it is, and numbers are issued for these targets.
    Issue(Vec<Target>),
    /// This, if there is one.
    OfProgram(ProgramChange),
}

/// What an answer makes of the program, if there is one.
#[derive(Drop)]
pub enum ProgramChange {
    /// Its first run begins.
    Begin,
    /// It continues, with a goal.
    Resume(Goal),
    /// It is marked, if it runs.
    Mark(Mark),
    /// Its hart has these registers.
    SetHart(Hart),
    /// Bytes are written to its memory.
    Write {
        /// The address of the first.
        address: u32,
        /// The bytes, in order.
        bytes: Vec<u8>,
    },
    /// It is loaded anew, and its first run begins.
    Restart,
    /// It ends.
    End,
    /// The editor leaves it, and it ends, or is to stand still.
    Leave {
        /// Whether it ends.
        ends: bool,
        /// Whether it is to stand still.
        stands: bool,
    },
}

impl ProgramChange {
    /// Makes it. It fails where no memory is left, which only a new start and a page that is written first need, and then the program
    /// is as before.
    pub fn make(self, program: &mut Program) -> Result<(), AllocError>
        ensures ok { OnOk result (program.new ≡ changed_one self program.old) }
        ensures err { OnErr result (program.new ≡ program.old) }
        ensures lacks { OnErr result (MayLack self program.old) }
    {
        match self {
            ProgramChange::SetHart(hart) => program.set_hart(hart),
            ProgramChange::Write { address, bytes } => return write(program, address, &bytes),
            ProgramChange::Begin => program.begin(),
            ProgramChange::Resume(goal) => program.resume(goal),
            ProgramChange::Mark(mark) => program.set_mark(mark),
            ProgramChange::Restart => return start_anew(program),
            ProgramChange::End => program.end(None),
            ProgramChange::Leave { ends, stands } => {
                program.leave();
                depart(program, ends, stands);
            }
        }
        Ok(())
    }

    /// Whether the stop ends with it, for the references.
    pub fn ends_stop(&self) -> bool
        ensures { call_of_one self.now ≡ (if result then Some EndStop else None) }
    {
        matches!(
            self,
            ProgramChange::Resume(_) | ProgramChange::Restart | ProgramChange::Leave { .. }
        )
    }
}

// Bytes are written to the memory of a program; nothing is where one of their addresses has no byte.
fn write(program: &mut Program, address: u32, bytes: &[u8]) -> Result<(), AllocError>
    ensures ok { OnOk result (program.new ≡ written address bytes.now program.old) }
    ensures err { OnErr result (program.new ≡ program.old) }
    ensures lacks { OnErr result
        (NeedsPage 1 program.old.machine.memory address (length bytes.now)) }
{
    match program.write(address, bytes) {
        Err(MemFault::NoMemory) => Err(AllocError),
        Ok(()) | Err(MemFault::Misaligned | MemFault::Outside) => Ok(()),
    }
}

// A program is loaded anew, and its first run begins.
fn start_anew(program: &mut Program) -> Result<(), AllocError>
    ensures ok { OnOk result (program.new ≡ first_run (restarted program.old)) }
    ensures err { OnErr result (program.new ≡ program.old) }
{
    match program.restart() {
        Ok(()) => {
            program.begin();
            Ok(())
        }
        Err(refused) => Err(refused),
    }
}

// The editor has left a program: it ends, or is to stand still, or continues.
fn depart(program: &mut Program, ends: bool, stands: bool)
    ensures { program.new ≡ departed ends stands program.old }
{
    match program.run() {
        Run::Ended(_) => {}
        Run::Stopped(_) => {
            if ends {
                program.end(None);
            }
        }
        Run::Running => {
            if ends {
                program.end(None);
            } else if stands {
                program.stop(Why::Pause);
            }
        }
    }
}
