//! How the program moves, and when it has arrived.

use crate::console::{Console, Waits};
use crate::errand::Errand;
use prompt::Motion;
use protocol::granularity::Granularity;
use protocol::{Command, StepArguments, ThreadArguments};
use replies::{Reason, Stopped};
use std::alloc::AllocError;
use std::{cmp, mem};

/// The thread of the hart.
pub(crate) const HART: i32 = 1;

impl Console {
    /// Sets out for a motion, this many times.
    pub(crate) fn start(&mut self, motion: Motion, times: u32) -> Result<(), AllocError> {
        self.motion = Some((motion, times));
        if times > 0 && self.set_out(motion)? {
            self.errand = Errand::Motion(motion, times - 1);
        }
        Ok(())
    }

    /// Asks for a motion; if it is refused, why is said. Whether the program moves is told.
    pub(crate) fn set_out(&mut self, motion: Motion) -> Result<bool, AllocError> {
        self.stop = None;
        let moves = self.does(command_of(motion))?;
        if moves {
            self.here = None;
            self.waits = Waits::Time;
        }
        Ok(moves)
    }

    /// Gives the program time for this many moves, or until it has arrived.
    pub(crate) fn go(&mut self, moves: u32) -> Result<(), AllocError> {
        let mut left = moves;
        for _ in 0..moves {
            if left == 0 || self.waits != Waits::Time {
                break;
            }
            let moved = self.go_on(left)?;
            left = left.saturating_sub(cmp::max(moved, 1));
        }
        Ok(())
    }

    // A slice, and what follows from what it says.
    fn go_on(&mut self, moves: u32) -> Result<u32, AllocError> {
        let moved = self.link.slice(self.errand.most(moves))?;
        drop(self.hear()?);
        if self.errand.is_spent(moved) && self.stop.is_none() && !self.has_ended {
            drop(self.does(Command::Pause(thread()))?);
        }
        self.settle()?;
        Ok(moved)
    }

    fn settle(&mut self) -> Result<(), AllocError> {
        if self.has_ended {
            return self.end();
        }
        let Some(stop) = self.stop.take() else {
            return Ok(());
        };
        let settled = self.settle_at(&stop);
        drop(stop);
        settled
    }

    // The program stopped: it goes on, if that is what it was sent for.
    fn settle_at(&mut self, stop: &Stopped) -> Result<(), AllocError> {
        match mem::replace(&mut self.errand, Errand::Nothing) {
            Errand::Motion(motion, left) if left > 0 && is_met(motion, stop) => {
                self.again(motion, left - 1, stop)
            }
            Errand::Change(change) => self.compare(change, stop),
            other => {
                drop(other);
                self.arrive(stop)
            }
        }
    }

    fn again(&mut self, motion: Motion, left: u32, stop: &Stopped) -> Result<(), AllocError> {
        if self.set_out(motion)? {
            self.errand = Errand::Motion(motion, left);
            return Ok(());
        }
        self.arrive(stop)
    }

    // The program has ended.
    fn end(&mut self) -> Result<(), AllocError> {
        self.errand = Errand::Nothing;
        self.waits = Waits::Line;
        self.show_end()
    }

    /// The program stands where it was sent, or where something stopped it.
    pub(crate) fn arrive(&mut self, stop: &Stopped) -> Result<(), AllocError> {
        self.waits = Waits::Line;
        self.show_stop(stop)
    }

    // What the program was sent for ends at the next stop.
    fn pause_errand(&mut self) {
        match &mut self.errand {
            Errand::Motion(_, left) => *left = 0,
            Errand::Change(change) => change.is_watched = true,
            Errand::Nothing => {}
        }
    }

    /// Asks the program to stop, if it runs.
    pub(crate) fn interrupt(&mut self) -> Result<(), AllocError> {
        if self.waits != Waits::Time {
            return Ok(());
        }
        self.pause_errand();
        drop(self.does(Command::Pause(thread()))?);
        Ok(())
    }
}

/// The hart, as an argument.
pub(crate) fn thread() -> ThreadArguments {
    ThreadArguments { thread_id: HART }
}

fn step(granularity: Granularity) -> StepArguments {
    StepArguments {
        thread_id: HART,
        granularity,
    }
}

fn command_of(motion: Motion) -> Command {
    match motion {
        Motion::Continue => Command::Continue(thread()),
        Motion::Step => Command::StepIn(step(Granularity::Statement)),
        Motion::Next => Command::Next(step(Granularity::Statement)),
        Motion::Finish => Command::StepOut(step(Granularity::Statement)),
        Motion::StepInstruction => Command::StepIn(step(Granularity::Instruction)),
        Motion::NextInstruction => Command::Next(step(Granularity::Instruction)),
        Motion::Back => Command::StepBack(step(Granularity::Instruction)),
        Motion::ReverseContinue => Command::ReverseContinue(thread()),
    }
}

// Whether a stop is what a motion leads to, and nothing else came between.
fn is_met(motion: Motion, stop: &Stopped) -> bool {
    if stop.text.is_some() {
        return false;
    }
    match motion {
        Motion::Continue | Motion::ReverseContinue => is_breakpoint(stop.reason),
        _ => stop.reason == Reason::Step,
    }
}

/// Whether it is a breakpoint that stopped the program.
pub(crate) fn is_breakpoint(reason: Reason) -> bool {
    match reason {
        Reason::Breakpoint | Reason::InstructionBreakpoint | Reason::FunctionBreakpoint => true,
        _ => false,
    }
}
