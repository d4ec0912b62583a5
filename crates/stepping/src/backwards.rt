//! The ticks of a run that goes back: each undoes the newest of the recorded moves.

ghost use Rattle.std.specs.Prelude.{◌≡◌, ◌≤◌, OnErr, OnOk, true};
ghost use Rattle.course.specs.Positions.{UndoNeedsPage};
ghost use Rattle.stepping.specs.Goals.{turns_back};
ghost use Rattle.stepping.specs.Runs.{IsRun, MayLackMemory};
ghost use Rattle.stepping.specs.Ticks.{back_outcome, IsTick, looked_at, undone, unless_start};

use crate::goal::Goal;
use crate::runner::Runner;
use crate::running::outcome_or;
use crate::tick::{Outcome, Ran, Reason, RunEnd, Tick};
use std::alloc::AllocError;

impl Runner {
    /// Makes at most `most` ticks, each a step back, and ends with the first that has something to report.
    pub(crate) fn go_back(&mut self, most: u32) -> Ran
        requires { turns_back self.old.goal ≡ true }
        ensures run { IsRun most self.old result self.new }
        ensures retired { self.new.retired ≤ self.old.retired }
    {
        let mut went = 0;
        while went < most {
            let Ok(tick) = self.tick_back() else {
                let ending = RunEnd::NoMemory;
                return Ran { went, ending };
            };
            if let Some(ending) = self.ending_of(tick) {
                return Ran { went, ending };
            }
            went += 1;
        }
        Ran {
            went: most,
            ending: RunEnd::Spent,
        }
    }

    // A tick of a run that goes back.
    fn tick_back(&mut self) -> Result<Tick, AllocError>
        requires { turns_back self.old.goal ≡ true }
        ensures tick { OnOk result (IsTick self.old result self.new) }
        ensures err { OnErr result (self.new ≡ self.old) }
        ensures lacks { OnErr result (MayLackMemory self.old) }
        ensures goal { self.new.goal ≡ self.old.goal }
        ensures retired { self.new.retired ≤ self.old.retired }
    {
        if self.check_due {
            return Ok(self.check());
        }
        self.undo()?;
        Ok(Tick {
            printed: None,
            outcome: self.look_back(),
        })
    }

    // Undoes the newest of the recorded moves, if there is one.
    fn undo(&mut self) -> Result<(), AllocError>
        ensures ok { OnOk result (self.new ≡ undone self.old) }
        ensures err { OnErr result (self.new ≡ self.old) }
        ensures lacks { OnErr result (UndoNeedsPage self.old.past self.old.memory) }
    {
        let undoes = self.course.recorded() > 0;
        self.course.go_back()?;
        if undoes {
            self.retired -= 1;
        }
        Ok(())
    }

    // What a look at pc finds once a move was undone.
    fn look_back(&mut self) -> Outcome
        ensures outcome { result ≡ back_outcome self.old.goal self.old }
        ensures state { self.new ≡ looked_at self.old.goal self.old }
    {
        if let Goal::ReverseGo = self.goal {
            let hart = self.course.hart();
            let hit = self.breaks.stand_at(hart.pc, hart, self.course.memory());
            return outcome_or(hit, self.unless_start());
        }
        self.breaks.forget_ids();
        Outcome::Stopped(Reason::Goal)
    }

    // A run back continues, unless nothing is recorded any more.
    fn unless_start(&self) -> Outcome
        ensures { result ≡ unless_start self.now.past }
    {
        if self.course.recorded() > 0 {
            Outcome::Went
        } else {
            Outcome::Stopped(Reason::Start)
        }
    }
}
