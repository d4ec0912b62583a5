//! What a snapshot keeps of a program.
ghost use Rattle.std.specs.Prelude.{◌≡◌, IfOk, map, option_copied, slice_get};
ghost use Rattle.answers.specs.StackTrace.{addresses};
ghost use Rattle.image.specs.Memory.{byte_at};
ghost use Rattle.snapshots.specs.Shown.{frame_in, info_of, listed_at, register_at, state_of};
ghost use Rattle.snapshots.specs.Snapshots.{captured_of, frames_from};

use answers::stack_trace::{address_of, name_at};
use breakpoints::Breakpoint;
use debuggee::{Program, Run};
use facts::{BreakInfo, FrameInfo, Name, RunState};
use image::{LineTable, Memory};
use rv32i::Hart;
use std::alloc::{AllocError, Global};
use std::marker::Model;
use stepping::Runner;
use variables::{Handles, Target};

/// The number of pc among the registers.
const COUNTER: u32 = 32;

/// What is kept of a program: all that an editor could be told of it, and the path of its file.
#[derive(Drop)]
pub(crate) struct Captured {
    /// Whether it runs.
    pub run: RunState,
    /// The path of its file.
    pub path: Name,
    /// The breakpoints at instructions.
    pub instructions: Vec<BreakInfo>,
    /// The breakpoints of functions.
    pub functions: Vec<BreakInfo>,
    source: Vec<BreakInfo>,
    frames: Vec<FrameInfo>,
    hart: Hart,
    memory: Memory,
}

impl Model for Captured {
    ghost use Rattle.snapshots.specs.Snapshots.{Captured};

    ghost Value = { Captured };

    ghost view = { λ c. record {
      run = c.run;
      path = c.path;
      source = c.source.items;
      instructions = c.instructions.items;
      functions = c.functions.items;
      frames = c.frames.items;
      hart = c.hart;
      memory = c.memory;
    } };
}

impl Captured {
    /// What is kept of a program, where frames have these numbers. It fails where no memory is left.
    pub(crate) fn of(
        alloc: Global,
        program: &Program,
        handles: &Handles,
    ) -> Result<Captured, AllocError>
        ensures { IfOk result (λ c. c ≡ captured_of program.now handles.now) }
    {
        let machine = program.machine();
        Ok(Captured {
            run: state_of(program.run()),
            path: Name::of(alloc, program.path())?,
            source: infos(alloc, machine.breaks().source())?,
            instructions: infos(alloc, machine.breaks().instructions())?,
            functions: infos(alloc, machine.breaks().functions())?,
            frames: frames(alloc, machine, &program.image().lines, handles)?,
            hart: *machine.hart(),
            memory: machine.memory().copied(alloc)?,
        })
    }

    /// The breakpoint at an index of those in the source of a path.
    pub(crate) fn source_break(&self, path: &[u8], index: usize) -> Option<BreakInfo>
        ensures { result ≡ slice_get (listed_at self.now.path self.now.source path.now) index }
    {
        if self.path.as_str().as_bytes() == path {
            self.source.get(index).copied()
        } else {
            None
        }
    }

    /// The frame at an index, lent.
    pub(crate) fn frame(&self, index: u32) -> Option<&FrameInfo>
        ensures { option_copied result ≡ slice_get self.now.frames index }
    {
        self.frames.get(index as usize)
    }

    /// The value of a register, pc at 32.
    pub(crate) fn register(&self, number: u32) -> Option<u32>
        ensures { result ≡ register_at self.now.hart number }
    {
        if number == COUNTER {
            Some(self.hart.pc)
        } else if number < COUNTER {
            Some(self.hart.x[number as usize])
        } else {
            None
        }
    }

    /// The byte of memory at an address.
    pub(crate) fn byte(&self, address: u32) -> Option<u8>
        ensures { result ≡ byte_at self.now.memory address }
    {
        self.memory.byte(address)
    }
}

// How a program runs.
fn state_of(run: Run) -> RunState
    ensures { result ≡ state_of run }
{
    match run {
        Run::Running => RunState::Running,
        Run::Stopped(_) => RunState::Stopped,
        Run::Ended(code) => RunState::Ended(code),
    }
}

// What is kept of breakpoints.
fn infos(alloc: Global, breaks: &[Breakpoint]) -> Result<Vec<BreakInfo>, AllocError>
    ensures { IfOk result (λ list. list.items ≡ map info_of breaks.now) }
{
    let mut list = Vec::with_capacity(alloc, breaks.len())?;
    for breakpoint in breaks {
        list.push(info_of(breakpoint))?;
    }
    Ok(list)
}

fn info_of(breakpoint: &Breakpoint) -> BreakInfo
    ensures { result ≡ info_of breakpoint.now }
{
    BreakInfo {
        id: breakpoint.id,
        address: breakpoint.address,
    }
}

// The frames of the call stack, the innermost first.
fn frames(
    alloc: Global,
    machine: &Runner,
    lines: &LineTable,
    handles: &Handles,
) -> Result<Vec<FrameInfo>, AllocError>
    ensures { IfOk result (λ frames. frames.items
        ≡ frames_from lines.now handles.now 0 (addresses machine.now)) }
{
    let total = machine.calls().kept() + 1;
    let mut frames = Vec::with_capacity(alloc, total)?;
    for index in 0..total {
        let address = address_of(machine, index);
        frames.push(frame(alloc, lines, handles, index as u32, address)?)?;
    }
    Ok(frames)
}

// The frame of an index, at an address.
fn frame(
    alloc: Global,
    lines: &LineTable,
    handles: &Handles,
    index: u32,
    address: u32,
) -> Result<FrameInfo, AllocError>
    ensures { IfOk result (λ frame. frame ≡ frame_in lines.now handles.now index address) }
{
    let name = name_at(alloc, lines, address)?;
    Ok(FrameInfo {
        id: handles.number(Target::Frame(index)).unwrap_or(0),
        address,
        name: Name::of(alloc, name.as_str())?,
    })
}
