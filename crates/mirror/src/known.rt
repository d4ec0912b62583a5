//! The facts that are kept.
ghost use Rattle.std.specs.Prelude.{◌≡◌, IfOk};
ghost use Rattle.facts.specs.Facts.{nothing_known};

use crate::breakpoints::Breaks;
use crate::frames::Frames;
use crate::memory::Memory;
use crate::registers::Registers;
use crate::sources::Sources;
use facts::RunState;
use std::alloc::{AllocError, Global};

/// What is known of the machine.
#[derive(Drop)]
pub(crate) struct Known {
    /// Whether it runs.
    pub run: RunState,
    /// Whether a `launch` succeeded.
    pub launched: bool,
    /// The breakpoints of the sources.
    pub sources: Sources,
    /// The breakpoints at instructions.
    pub instructions: Breaks,
    /// The breakpoints at functions.
    pub functions: Breaks,
    /// The frames.
    pub frames: Frames,
    /// The registers.
    pub registers: Registers,
    /// The bytes of memory.
    pub bytes: Memory,
}

impl Known {
    ghost use Rattle.mirror.specs.Folding.{ended, in_state};
    ghost use Rattle.mirror.specs.Kept.{facts_of};

    /// Nothing. It takes no memory.
    pub(crate) fn new(alloc: Global) -> Known
        ensures { facts_of result ≡ nothing_known }
    {
        Known {
            run: RunState::Unknown,
            launched: false,
            sources: Sources::new(alloc),
            instructions: Breaks::new(alloc),
            functions: Breaks::new(alloc),
            frames: Frames::new(alloc),
            registers: Registers::new(),
            bytes: Memory::new(alloc),
        }
    }

    /// A copy of these facts. It fails where no memory is left.
    pub(crate) fn copied(&self, alloc: Global) -> Result<Known, AllocError>
        ensures { IfOk result (λ copy. copy ≡ self.now) }
    {
        Ok(Known {
            run: self.run,
            launched: self.launched,
            sources: self.sources.copied(alloc)?,
            instructions: self.instructions.copied(alloc)?,
            functions: self.functions.copied(alloc)?,
            frames: self.frames.copied()?,
            registers: self.registers.copied(),
            bytes: self.bytes.copied()?,
        })
    }

    /// The machine is in another state, and its frames, registers and bytes are forgotten. It takes no memory.
    pub(crate) fn enter(&mut self, alloc: Global, run: RunState)
        ensures { facts_of self.new ≡ in_state run (facts_of self.old) }
    {
        self.run = run;
        self.frames = Frames::new(alloc);
        self.registers = Registers::new();
        self.bytes = Memory::new(alloc);
    }

    /// The machine has ended: an exit code that was told is kept. It takes no memory.
    pub(crate) fn end(&mut self)
        ensures { facts_of self.new ≡ record (facts_of self.old) { run = ended self.old.run } }
    {
        match self.run {
            RunState::Ended(_) => {}
            RunState::Unknown | RunState::Running | RunState::Stopped => {
                self.run = RunState::Ended(None);
            }
        }
    }
}
