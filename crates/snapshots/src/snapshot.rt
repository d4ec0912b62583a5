//! What an editor could see of a session at one time.
ghost use Rattle.std.specs.Prelude.{◌≢◌, None, OnErr, ◌≡◌, IfOk, option_copied, option_map, slice_get};
ghost use Rattle.snapshots.specs.Snapshots.{as_running, captured_of, path_of, run_if, seen_of};

use crate::captured::Captured;
use debuggee::Program;
use facts::{BreakInfo, FrameInfo, RunState};
use std::alloc::{AllocError, Global};
use std::marker::Model;
use variables::Handles;

/// What an editor could see of a session at one time: all that it could be told of the program that is debugged. It is a copy,
/// and answers what a `Mirror` answers, which may know less. A contract sees what is kept of the program, if there is one.
#[derive(Drop)]
pub struct Snapshot {
    program: Option<Captured>,
}

impl Model for Snapshot {
    ghost use Rattle.std.specs.Prelude.{Option};
    ghost use Rattle.snapshots.specs.Snapshots.{Captured};

    ghost Value = { Option Captured };

    ghost view = { λ s. s.program };
}

impl Snapshot {
    /// The snapshot where this is debugged and frames have these numbers. It fails where no memory is left, and
    /// never where there is no program.
    pub fn of(
        alloc: Global,
        program: &Option<Program>,
        handles: &Handles,
    ) -> Result<Snapshot, AllocError>
        ensures ok { IfOk result
            (λ s. s ≡ option_map (λ p. captured_of p handles.now) program.now) }
        ensures err { OnErr result (program.now ≢ None) }
    {
        match program {
            None => Ok(Snapshot { program: None }),
            Some(program) => Ok(Snapshot {
                program: Some(Captured::of(alloc, program, handles)?),
            }),
        }
    }

    /// Whether the program runs; unknown where there is none.
    pub fn run(&self) -> RunState
        ensures { result ≡ (seen_of self.now).run }
    {
        match &self.program {
            None => RunState::Unknown,
            Some(program) => program.run,
        }
    }

    /// The breakpoint at an index, from 0, of those that are set in the source of a path.
    pub fn source_break(&self, path: &[u8], index: usize) -> Option<BreakInfo>
        ensures { result ≡ slice_get ((seen_of self.now).source path.now) index }
    {
        match &self.program {
            None => None,
            Some(program) => program.source_break(path, index),
        }
    }

    /// The breakpoint at an index, from 0, of those that are set at instructions.
    pub fn instruction_break(&self, index: usize) -> Option<BreakInfo>
        ensures { result ≡ slice_get (seen_of self.now).instructions index }
    {
        match &self.program {
            None => None,
            Some(program) => program.instructions.get(index).copied(),
        }
    }

    /// The breakpoint at an index, from 0, of those that are set on functions.
    pub fn function_break(&self, index: usize) -> Option<BreakInfo>
        ensures { result ≡ slice_get (seen_of self.now).functions index }
    {
        match &self.program {
            None => None,
            Some(program) => program.functions.get(index).copied(),
        }
    }

    /// The frame at an index, lent; the innermost is 0. Its number is 0 where none was given to it.
    pub fn frame(&self, index: u32) -> Option<&FrameInfo>
        ensures { option_copied result ≡ (seen_of self.now).frame index }
    {
        match &self.program {
            None => None,
            Some(program) => program.frame(index),
        }
    }

    /// The value of the register of a number from 0 to 31, or of pc, which is 32. Others have none.
    pub fn register(&self, number: u32) -> Option<u32>
        ensures { result ≡ (seen_of self.now).register number }
    {
        match &self.program {
            None => None,
            Some(program) => program.register(number),
        }
    }

    /// The byte of memory at an address.
    pub fn byte(&self, address: u32) -> Option<u8>
        ensures { result ≡ (seen_of self.now).byte address }
    {
        match &self.program {
            None => None,
            Some(program) => program.byte(address),
        }
    }

    /// The path of the program's file, lent; `None`: there is no program.
    pub fn path(&self) -> Option<&str>
        ensures { option_map (λ path. path.now) result ≡ path_of self.now }
    {
        match &self.program {
            None => None,
            Some(program) => Some(program.path.as_str()),
        }
    }

    /// Makes it that of the program as it runs, if there is one: all else stays. It takes no memory.
    pub fn set_running(&mut self)
        ensures now { self.new ≡ as_running self.old }
        ensures facts { seen_of self.new
            ≡ record (seen_of self.old) { run = run_if self.old RunState.Running } }
        ensures path { path_of self.new ≡ path_of self.old }
    {
        if let Some(program) = &mut self.program {
            program.run = RunState::Running;
        }
    }
}
