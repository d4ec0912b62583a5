//! A program that was loaded, and what is done to it.
ghost use Rattle.std.specs.Prelude.{◌≡◌, ◌+◌, ◌^◌, ◌<◌, ◌≤◌, true, false, map, Some, None, IfOk, OnErr, OnOk};
ghost use Rattle.breakpoints.specs.Stops.{CanBeSet, wanted_by};
ghost use Rattle.debuggee.specs.Programs as spec;
ghost use Rattle.stepping.specs.Loading.{CanBeLoaded};
ghost use Rattle.stepping.specs.Runs.{MayGo};

use crate::run::{Mark, Run, Why};
use breakpoints::BreakSpec;
use image::{Image, MemFault};
use protocol::Text;
use rv32i::Hart;
use std::alloc::{AllocError, Global};
use std::marker::Model;
use stepping::{Goal, Outcome, Reason, RunEnd, Runner, Tick};

/// A program that was loaded. A contract sees its image and path, whether it was launched to stop at its entry, its run
/// and mark, its machine, and what it owes: what its last move, or the check at its entry, came to and nobody was told.
#[derive(Drop)]
pub struct Program {
    image: Image,
    path: Text,
    stop_on_entry: bool,
    run: Run,
    mark: Option<Mark>,
    runner: Runner,
    owed: Option<Tick>,
}

impl Model for Program {
    ghost use Rattle.std.specs.Prelude.{◌≡◌, None};
    ghost use Rattle.std.specs.Coded.{codes};
    ghost use Rattle.breakpoints.specs.Codes.{coded_tree};
    ghost use Rattle.debuggee.specs.Programs.{NamesNone, Program};
    ghost use Rattle.stepping.specs.Loading.{CanBeLoaded};

    ghost Value = { Program };

    ghost coded = { Prim.hlevel (codes, coded_tree) };

    ghost view = { λ p. record {
      image = p.image;
      path = p.path;
      stop_on_entry = p.stop_on_entry;
      run = p.run;
      mark = p.mark;
      machine = p.runner;
      owed = p.owed;
    } };

    // The machine names the breakpoints that stopped it, and the logpoints that have something to say, as long as that is owed, and no
    // longer; and the image can be loaded anew.
    ghost invariant = { λ p. (p.owed ≡ None → NamesNone p.runner)
        × CanBeLoaded p.image p.runner.size };
}

/// How many moves `advance` made, at most as many as asked for, and why no more.
#[derive(Clone, Copy, Debug, PartialEq, Eq)]
pub enum Advanced {
    /// As many as asked for were made, and there is nothing to tell.
    Spent,
    /// This many were made, and the program owes what the last one came to.
    HasOutput(u32),
    /// This many were made, with nothing to tell of them. The instruction that comes next was not made: it traps or ends the
    /// program, and would come to this.
    Stops(u32, Tick),
    /// This many were made, with nothing to tell of them. The move that comes next was not made: no memory was left for a page of
    /// zeros into which it stores, or into which it puts a byte back.
    OutOfMemory(u32),
}

impl Program {
    /// The program of an image, with the path of its file and whether it was launched to stop at its entry, loaded into a machine
    /// with `size` bytes of memory. It stands still at its entry, has no breakpoints and no mark, and owes nothing.
    /// `Err`: no memory was left.
    pub fn new(
        alloc: Global,
        image: Image,
        path: Text,
        stop_on_entry: bool,
        size: u32,
    ) -> Result<Program, AllocError>
        requires { CanBeLoaded image size }
        ensures { IfOk result (λ p. p ≡ spec.just_loaded image path stop_on_entry size) }
    {
        let runner = Runner::new(alloc, &image, size)?;
        Ok(Program {
            image,
            path,
            stop_on_entry,
            run: Run::Stopped(Why::Entry),
            mark: None,
            runner,
            owed: None,
        })
    }

    /// Its image is loaded anew. Its breakpoints stay, and none was hit yet; its run and its mark stay too, and `begin` begins its
    /// first run (`RestartRequest`). `Err`: no memory was left, and nothing changes.
    pub fn restart(&mut self) -> Result<(), AllocError>
        ensures ok { OnOk result (self.new ≡ spec.restarted self.old) }
        ensures err { OnErr result (self.new ≡ self.old) }
    {
        self.runner.reload(&self.image)
    }

    /// It stands still, for this reason. Its mark has done its work, and goes (`StoppedEvent`).
    pub fn stop(&mut self, why: Why)
        ensures { self.new ≡ spec.stopped why self.old }
    {
        self.run = Run::Stopped(why);
        self.mark = None;
    }

    /// It has ended: with this code, or without one where it was made to. Its mark goes (`ExitedEvent`, `TerminatedEvent`).
    pub fn end(&mut self, code: Option<i32>)
        ensures { self.new ≡ spec.ended code self.old }
    {
        self.run = Run::Ended(code);
        self.mark = None;
    }

    /// It runs, with this goal, which counts from the depth of its calls now. No check at the entry is due (`ContinueRequest`,
    /// `NextRequest`, `StepInRequest`, `StepOutRequest`, `StepBackRequest`, `ReverseContinueRequest`).
    pub fn resume(&mut self, goal: Goal)
        ensures { self.new ≡ spec.resumed goal self.old }
    {
        self.run = Run::Running;
        self.runner.begin(goal, false);
    }

    /// Its first run begins: it runs without a goal, and the check at the entry is due. Where it was launched to stop at its entry it
    /// is marked so, unless it has a mark already (`ConfigurationDoneRequest`, `RestartRequest`).
    pub fn begin(&mut self)
        ensures { self.new ≡ spec.first_run self.old }
    {
        self.run = Run::Running;
        if self.mark.is_none() && self.stop_on_entry {
            self.mark = Some(Mark::Entry);
        }
        self.runner.begin(Goal::Go, true);
    }

    /// It is to stand still before its next move. Nothing changes where it does not run, or has a mark already.
    pub fn set_mark(&mut self, mark: Mark)
        ensures { self.new ≡ spec.marked mark self.old }
    {
        if matches!(self.run, Run::Running) && self.mark.is_none() {
            self.mark = Some(mark);
        }
    }

    /// Makes the check at the entry, which is due, and none is due then: the breakpoints at pc are looked at, and nothing moves. It
    /// owed nothing, and owes what they come to: the stop, if one of them stops it, and what logpoints say.
    #[tactic(auto, using(crate::proofs::Advancing::entry_names_none))]
    pub fn check_entry(&mut self)
        requires due { self.old.machine.check_due ≡ true }
        requires owed { self.old.owed ≡ None }
        ensures { self.new ≡ spec.entered self.old }
    {
        let tick = self.runner.check();
        self.owed = owing(tick, &self.runner);
    }

    /// Makes `most` moves, or fewer: up to the first with something to tell, which it then owes, and none that traps or
    /// ends the program, since a stop that is not told is not made, nor one for which no memory was left. It runs or not as before.
    /// No check at the entry is due, it owes nothing, and no more than 2^62 instructions will have retired, unless it goes back.
    pub fn advance(&mut self, most: u32) -> Advanced
        requires due { self.old.machine.check_due ≡ false }
        requires few { MayGo most self.old.machine }
        requires owed { self.old.owed ≡ None }
        ensures { spec.Advances most self.old result self.new }
    {
        let ran = self.runner.run(most);
        match ran.ending {
            RunEnd::Spent => Advanced::Spent,
            RunEnd::Ticked(tick) => {
                if stays(tick.outcome) {
                    Advanced::Stops(ran.went, tick)
                } else {
                    self.owed = Some(tick);
                    Advanced::HasOutput(ran.went + 1)
                }
            }
            RunEnd::NoMemory => Advanced::OutOfMemory(ran.went),
        }
    }

    /// What it owes was told: it owes nothing, and names no breakpoint that stopped it and no logpoint that had something to say. It
    /// runs or not as before: `stop` and `end` make the stop that was told.
    pub fn tell(&mut self)
        ensures { self.new ≡ spec.told self.old }
    {
        self.runner.breaks_mut().forget_ids();
        self.owed = None;
    }

    /// Replaces the breakpoints of source lines, at most 1,024, by these, with no hits yet (`SetBreakpointsRequest`); those
    /// of instructions and of functions stay, with their hits. What it owes it still owes, but a stop that is owed names no breakpoint
    /// then, and logpoints do not say what they had to say: for that, tell it first. `Err`: no memory was left, and nothing has
    /// changed.
    pub fn set_source(&mut self, specs: Vec<BreakSpec>) -> Result<(), AllocError>
        requires { CanBeSet specs.items }
        ensures ok { OnOk result
            (self.new ≡ spec.with_source (map wanted_by specs.items) self.old) }
        ensures err { OnErr result (self.new ≡ self.old) }
    {
        self.runner.breaks_mut().set_source(specs)
    }

    /// Replaces the breakpoints of instructions, at most 1,024, by these, with no hits yet
    /// (`SetInstructionBreakpointsRequest`); those of source lines and of functions stay, with their hits. What it owes it still owes,
    /// but a stop that is owed names no breakpoint then, and logpoints do not say what they had to say: for that, tell it first.
    /// `Err`: no memory was left, and nothing has changed.
    pub fn set_instructions(&mut self, specs: Vec<BreakSpec>) -> Result<(), AllocError>
        requires { CanBeSet specs.items }
        ensures ok { OnOk result
            (self.new ≡ spec.with_instructions (map wanted_by specs.items) self.old) }
        ensures err { OnErr result (self.new ≡ self.old) }
    {
        self.runner.breaks_mut().set_instructions(specs)
    }

    /// Replaces the breakpoints of functions, at most 1,024, by these, with no hits yet (`SetFunctionBreakpointsRequest`);
    /// those of source lines and of instructions stay, with their hits. What it owes it still owes, but a stop that is owed names no
    /// breakpoint then, and logpoints do not say what they had to say: for that, tell it first. `Err`: no memory was left, and nothing
    /// has changed.
    pub fn set_functions(&mut self, specs: Vec<BreakSpec>) -> Result<(), AllocError>
        requires { CanBeSet specs.items }
        ensures ok { OnOk result
            (self.new ≡ spec.with_functions (map wanted_by specs.items) self.old) }
        ensures err { OnErr result (self.new ≡ self.old) }
    {
        self.runner.breaks_mut().set_functions(specs)
    }

    /// Gives its hart other registers and another pc, and gives up the recorded moves (`SetVariableRequest`).
    pub fn set_hart(&mut self, hart: Hart)
        ensures { self.new ≡ spec.with_hart hart self.old }
    {
        self.runner.set_hart(hart);
    }

    /// Writes bytes to its memory, from an address on, and gives up the recorded moves (`WriteMemoryRequest`). `Outside`: one of their
    /// addresses has no byte; `NoMemory`: no memory was left for a page that is written first. Then nothing is written, and the moves
    /// stay recorded.
    #[tactic(auto, using(crate::proofs::Writing::writes_so))]
    pub fn write(&mut self, address: u32, bytes: &[u8]) -> Result<(), MemFault>
        ensures { spec.IsWritten address bytes.now self.old result self.new }
    {
        self.runner.write(address, bytes)
    }

    /// An editor goes. Its breakpoints and the mark go with it; a stop that is owed is made, and told to nobody (`DisconnectRequest`).
    /// Else it runs, or stands still, as before.
    pub fn leave(&mut self)
        ensures { self.new ≡ spec.left self.old }
    {
        if let Some(tick) = self.owed {
            self.run = run_after(tick.outcome, self.run);
        }
        self.mark = None;
        self.runner.breaks_mut().clear();
        self.owed = None;
    }

    /// The image that it was loaded from.
    pub fn image(&self) -> &Image
        ensures { result.now ≡ self.now.image }
    {
        &self.image
    }

    /// The path of its file.
    pub fn path(&self) -> &str
        ensures { result.now ≡ self.now.path }
    {
        self.path.as_str()
    }

    /// Whether it runs, and why it stands still if it does.
    pub fn run(&self) -> Run
        ensures { result ≡ self.now.run }
    {
        self.run
    }

    /// Its mark, if it has one.
    pub fn mark(&self) -> Option<Mark>
        ensures { result ≡ self.now.mark }
    {
        self.mark
    }

    /// What it owes, if it owes something: what its last move, or the check at its entry, came to.
    pub fn owed(&self) -> Option<Tick>
        ensures { result ≡ self.now.owed }
    {
        self.owed
    }

    /// Whether the check at the entry is due.
    pub fn is_check_due(&self) -> bool
        ensures { result ≡ self.now.machine.check_due }
    {
        self.runner.is_check_due()
    }

    /// Its machine.
    pub fn machine(&self) -> &Runner
        ensures { result.now ≡ self.now.machine }
    {
        &self.runner
    }
}

// The run after a tick.
fn run_after(outcome: Outcome, run: Run) -> Run
    ensures { result ≡ spec.run_after outcome run }
{
    match outcome {
        Outcome::Went => run,
        Outcome::Stopped(reason) => Run::Stopped(Why::Met(reason)),
        Outcome::Ended(code) => Run::Ended(Some(code)),
    }
}

// Whether an instruction that comes to this leaves the machine where it was: it traps, or ends the program.
fn stays(outcome: Outcome) -> bool
    ensures { result ≡ spec.stays outcome }
{
    matches!(
        outcome,
        Outcome::Stopped(Reason::Exception(_)) | Outcome::Ended(_)
    )
}

// What there is to tell of a tick that left this machine.
fn owing(tick: Tick, runner: &Runner) -> Option<Tick>
    ensures { result ≡ spec.owing tick runner.now }
{
    if tick.is_plain() && runner.breaks().logs().is_empty() {
        None
    } else {
        Some(tick)
    }
}
