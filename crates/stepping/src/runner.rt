//! A debugged machine, which goes tick by tick.

ghost use Rattle.std.specs.Prelude.{◌≡◌, ◌+◌, ◌^◌, ◌<◌, ◌≤◌, [], true, IfOk, OnErr, OnOk, length, replicate};
ghost use Rattle.image.specs.Memory.{first_address, with_bytes, WritesOrLacks};
ghost use Rattle.stepping.specs.Loading.{CanBeLoaded, IsLoaded, no_breakpoints, not_hit};
ghost use Rattle.course.specs.Positions.{past_left};
ghost use Rattle.stepping.specs.Goals.{turns_back};
ghost use Rattle.stepping.specs.Runs.{IsRun, MayGo, MayLackMemory};
ghost use Rattle.stepping.specs.Ticks.{IsTick};

use crate::goal::Goal;
use crate::tick::{Ran, RunEnd, Tick};
use breakpoints::Breaks;
use course::{Calls, Course};
use image::{FIRST_ADDRESS, Image, LineTable, MemFault, Memory};
use rv32i::Hart;
use std::alloc::{AllocError, Global};
use std::marker::Model;

/// A debugged machine: hart, memory and the calls of the running program, its last moves, breakpoints, and the goal of the run. A
/// contract sees it as a debugger does.
#[derive(Drop)]
pub struct Runner {
    alloc: Global,
    pub(crate) course: Course,
    size: u32,
    pub(crate) breaks: Breaks,
    pub(crate) retired: u64,
    pub(crate) goal: Goal,
    pub(crate) start: u64,
    /// From how many open calls on the goal is out of reach.
    pub(crate) out_of_reach: u64,
    pub(crate) check_due: bool,
    pub(crate) lines: LineTable,
}

impl Model for Runner {
    ghost use Rattle.std.specs.Coded.{codes};
    ghost use Rattle.breakpoints.specs.Codes.{coded_tree};
    ghost use Rattle.stepping.specs.Private.Running.{IsSound};
    ghost use Rattle.stepping.specs.Ticks.{Debugged};

    ghost Value = { Debugged };

    ghost coded = { Prim.hlevel (codes, coded_tree) };

    ghost view = { λ r. record {
      hart = r.course.now.hart;
      memory = r.course.now.memory;
      size = r.size;
      calls = r.course.now.calls;
      lists = r.breaks;
      retired = r.retired;
      past = r.course.past;
      goal = r.goal;
      start = r.start;
      check_due = r.check_due;
      table = r.lines;
    } };

    ghost invariant = { λ r. IsSound r.size r.course r.retired r.out_of_reach r.goal r.start };
}

impl Runner {
    /// A machine with `size` bytes of memory, into which an image was loaded: no instruction has retired, there are no breakpoints,
    /// and it runs without a goal. `size` is one that memory can have, with room for the image, whose entry is at a multiple of 4.
    /// `Err`: no memory was left.
    pub fn new(alloc: Global, image: &Image, size: u32) -> Result<Runner, AllocError>
        requires { CanBeLoaded image.now size }
        ensures { IfOk result (λ runner. IsLoaded image.now size no_breakpoints runner) }
    {
        let memory = loaded_memory(alloc, image, size)?;
        let hart = Hart::new(image.entry, FIRST_ADDRESS + size);
        let course = Course::new(alloc, hart, memory)?;
        let lines = image.lines.without_labels(alloc)?;
        Ok(Runner {
            alloc,
            course,
            size,
            breaks: Breaks::new(alloc),
            retired: 0,
            goal: Goal::Go,
            start: 0,
            out_of_reach: 0,
            check_due: false,
            lines,
        })
    }

    /// Loads an image anew: memory, hart and calls are as after `new`, no move is recorded, the breakpoints stay, and none of them was hit
    /// yet. The image has to fit into the memory, and its entry is at a multiple of 4. `Err`: no memory was left, and nothing changes.
    pub fn reload(&mut self, image: &Image) -> Result<(), AllocError>
        requires { CanBeLoaded image.now self.old.size }
        ensures ok { OnOk result
            (IsLoaded image.now self.old.size (not_hit self.old.lists) self.new) }
        ensures err { OnErr result (self.new ≡ self.old) }
    {
        let memory = loaded_memory(self.alloc, image, self.size)?;
        let lines = image.lines.without_labels(self.alloc)?;
        let hart = Hart::new(image.entry, FIRST_ADDRESS + self.size);
        self.course.restart(hart, memory);
        self.breaks.reset_hits();
        self.retired = 0;
        self.goal = Goal::Go;
        self.start = 0;
        self.out_of_reach = 0;
        self.check_due = false;
        self.lines = lines;
        Ok(())
    }

    /// Begins a run with a goal, from the depth that the program has now. A first run, of a program that was just loaded, begins with a
    /// check of the breakpoints at pc. A run that goes back ends after a move that is undone: so one is to be recorded (`recorded`).
    pub fn begin(&mut self, goal: Goal, first: bool)
        ensures { self.new ≡ record self.old
            { goal = goal; start = self.old.calls.depth; check_due = first } }
    {
        self.goal = goal;
        self.start = self.course.calls().depth();
        self.out_of_reach = goal.out_of_reach(self.start);
        self.check_due = first;
    }

    /// One tick: the check that is due at the entry; or, where the run goes back, the newest of the recorded moves is undone, if there is
    /// one; or one move and what it comes to. `Err`: no memory was left for a page of zeros into which the move stores, or
    /// into which a byte is put back, and nothing changes. Fewer than 2^62 instructions have retired before one that does not go back.
    pub fn tick(&mut self) -> Result<Tick, AllocError>
        requires { MayGo 1 self.old }
        ensures tick { OnOk result (IsTick self.old result self.new) }
        ensures err { OnErr result (self.new ≡ self.old) }
        ensures lacks { OnErr result (MayLackMemory self.old) }
        ensures retired { self.new.retired ≤ self.old.retired + 1 }
        ensures back { turns_back self.old.goal ≡ true → self.new.retired ≤ self.old.retired }
    {
        match self.run(1).ending {
            RunEnd::Spent => Ok(Tick::PLAIN),
            RunEnd::Ticked(tick) => Ok(tick),
            RunEnd::NoMemory => Err(AllocError),
        }
    }

    /// Makes at most `most` ticks, and ends with the first that prints a number, stops the machine or ends the program, after which a
    /// logpoint has something to say, or for which no memory is left: it answers and leaves what the same calls of `tick` do. Fewer
    /// than 2^62 instructions will have retired before each, unless the run goes back.
    pub fn run(&mut self, most: u32) -> Ran
        requires { MayGo most self.old }
        ensures run { IsRun most self.old result self.new }
        ensures retired { self.new.retired ≤ self.old.retired + most }
        ensures back { turns_back self.old.goal ≡ true → self.new.retired ≤ self.old.retired }
    {
        if self.goal.turns_back() {
            self.go_back(most)
        } else {
            self.go(most)
        }
    }

    /// Writes bytes to memory, and gives up the recorded moves. `Outside`: one of the addresses has no byte; `NoMemory`: no memory was
    /// left for a page that is written first. Then nothing is written, and the moves stay recorded.
    pub fn write(&mut self, addr: u32, bytes: &[u8]) -> Result<(), MemFault>
        ensures writes { WritesOrLacks 1 self.old.memory addr bytes.now result self.new.memory }
        ensures rest { self.new ≡ record self.old
            { memory = self.new.memory; past = past_left result self.old.past } }
    {
        self.course.write(addr, bytes)
    }

    /// Gives the hart other registers and another pc, and gives up the recorded moves.
    pub fn set_hart(&mut self, hart: Hart)
        ensures { self.new ≡ record self.old { hart = hart; past = [] } }
    {
        self.course.set_hart(hart);
    }

    /// The hart.
    pub fn hart(&self) -> &Hart
        ensures { result.now ≡ self.now.hart }
    {
        self.course.hart()
    }

    /// Memory.
    pub fn memory(&self) -> &Memory
        ensures { result.now ≡ self.now.memory }
    {
        self.course.memory()
    }

    /// How many bytes memory has.
    pub fn size(&self) -> u32
        ensures { result ≡ self.now.size }
    {
        self.size
    }

    /// The calls of the program.
    pub fn calls(&self) -> &Calls
        ensures { result.now ≡ self.now.calls }
    {
        self.course.calls()
    }

    /// The breakpoints.
    pub fn breaks(&self) -> &Breaks
        ensures { result.now ≡ self.now.lists }
    {
        &self.breaks
    }

    /// How many instructions have retired since the program was loaded.
    pub fn retired(&self) -> u64
        ensures { result ≡ self.now.retired }
    {
        self.retired
    }

    /// How many moves are recorded, which a run that goes back can undo. It takes no memory.
    pub fn recorded(&self) -> usize
        ensures { result ≡ length self.now.past }
    {
        self.course.recorded()
    }

    /// Whether the run goes back: each of its ticks undoes a move.
    pub fn turns_back(&self) -> bool
        ensures { result ≡ turns_back self.now.goal }
    {
        self.goal.turns_back()
    }

    /// Whether the check at the entry is due.
    pub fn is_check_due(&self) -> bool
        ensures { result ≡ self.now.check_due }
    {
        self.check_due
    }
}

// Memory into which an image was loaded.
fn loaded_memory(alloc: Global, image: &Image, size: u32) -> Result<Memory, AllocError>
    requires { CanBeLoaded image.now size }
    ensures { IfOk result (λ memory. memory
        ≡ with_bytes (replicate size 0) first_address image.now.bytes) }
{
    let mut memory = Memory::new(alloc, FIRST_ADDRESS, size)?;
    match memory.write(FIRST_ADDRESS, image.bytes.as_slice()) {
        Ok(()) => Ok(memory),
        Err(MemFault::NoMemory) => Err(AllocError),
        Err(_) => unreachable!(),
    }
}
