//! The ticks of a run that does not go back. After most moves there is nothing to report: no breakpoint is at the new pc, and the goal is
//! out of reach.

ghost use Rattle.std.specs.Prelude.{◌≡◌, ◌+◌, ◌^◌, ◌<◌, ◌≤◌, ◌-◌, None, false, true};
ghost use Rattle.course.specs.Positions.{Halts};
ghost use Rattle.stepping.specs.Private.Bursts.{Ends, EndsHalted, stretch_of};
ghost use Rattle.stepping.specs.Goals.{turns_back};
ghost use Rattle.stepping.specs.Private.Running.{counted_by, IsEnding, left_by, Stretches};
ghost use Rattle.stepping.specs.Runs.{IsRun};
ghost use Rattle.stepping.specs.Ticks.{entry_checked, entry_tick, hit_at_pc, outcome_of, outcome_or, position_of, seen, tick_of, with_check};

use crate::burst::{BurstEnd, retire};
use crate::runner::Runner;
use crate::tick::{Outcome, Ran, Reason, RunEnd, Tick};
use breakpoints::Hit;
use rv32i::{Halt, Stepped};

/// Some ticks of a run.
#[derive(Clone, Copy)]
pub(crate) struct Stretch {
    /// How many went, with nothing printed or logged.
    pub went: u32,
    /// What ended the run; `None`: it continues.
    pub ending: Option<RunEnd>,
}

impl Runner {
    /// Makes at most `most` ticks, and ends with the first that has something to report.
    pub(crate) fn go(&mut self, most: u32) -> Ran
        requires forward { turns_back self.old.goal ≡ false }
        requires few { self.old.retired + most ≤ 2 ^ 62 }
        ensures run { IsRun most self.old result self.new }
        ensures retired { self.new.retired ≤ self.old.retired + most }
    {
        let mut went = 0;
        while went < most {
            let stretch = self.stretch(most - went);
            went += stretch.went;
            if let Some(ending) = stretch.ending {
                return Ran { went, ending };
            }
        }
        Ran {
            went: most,
            ending: RunEnd::Spent,
        }
    }

    // Some ticks of a run, at most `most`: those up to the first that has to be looked at, and that one.
    fn stretch(&mut self, most: u32) -> Stretch
        requires some { 0 < most }
        requires forward { turns_back self.old.goal ≡ false }
        requires few { self.old.retired + most ≤ 2 ^ 62 }
        ensures { Stretches most self.old result.went result.ending self.new }
    {
        if self.check_due {
            return stretch_of(0, self.check_entry());
        }
        let (went, ending) = self.make_burst(most);
        match ending {
            BurstEnd::Spent => Stretch { went, ending: None },
            BurstEnd::Near => stretch_of(went, self.check_closely()),
            BurstEnd::Halted(halt) => Stretch {
                went,
                ending: Some(self.halted(halt)),
            },
        }
    }

    // At most `most` instructions in a row: how many went, and what ended them.
    fn make_burst(&mut self, most: u32) -> (u32, BurstEnd)
        requires due { self.old.check_due ≡ false }
        requires forward { turns_back self.old.goal ≡ false }
        requires few { self.old.retired + most ≤ 2 ^ 62 }
        ensures { Ends most result.0 result.1 self.old self.new }
    {
        let burst = retire(&mut self.course, &self.breaks, self.out_of_reach, most);
        let moved = burst.moved();
        self.course.set_pc(burst.pc);
        self.retired += moved;
        if moved > 0 {
            self.breaks.forget_ids();
        }
        (burst.went, burst.ending)
    }

    // The instruction at pc halts: how that ends the run.
    #[cold]
    #[inline(never)]
    fn halted(&mut self, halt: Halt) -> RunEnd
        requires due { self.old.check_due ≡ false }
        requires forward { turns_back self.old.goal ≡ false }
        requires few { self.old.retired < 2 ^ 62 }
        requires halts { Halts self.old.hart.pc halt (position_of self.old) }
        ensures { EndsHalted self.old result self.new }
    {
        match self.course.settle(halt) {
            Ok(stepped) => {
                self.retired += counted_by(stepped);
                RunEnd::Ticked(self.tick_after(stepped))
            }
            Err(_) => RunEnd::NoMemory,
        }
    }

    /// The check at the entry, which is due: the breakpoints at pc are looked at, and nothing moves.
    pub fn check(&mut self) -> Tick
        requires { self.old.check_due ≡ true }
        ensures tick { result ≡ entry_tick self.old }
        ensures state { self.new ≡ entry_checked self.old }
    {
        self.check_due = false;
        let hit = self.hit();
        Tick {
            printed: None,
            outcome: outcome_of(hit, false),
        }
    }

    // The check at the entry, and how a run ends with it.
    #[cold]
    #[inline(never)]
    fn check_entry(&mut self) -> Option<RunEnd>
        requires { self.old.check_due ≡ true }
        ensures ending { IsEnding (entry_tick self.old) self.new result }
        ensures state { self.new ≡ entry_checked self.old }
    {
        let tick = self.check();
        self.ending_of(tick)
    }

    // The tick of a move that was made, recorded and counted, by an instruction that is no jump, where it retired.
    fn tick_after(&mut self, stepped: Stepped) -> Tick
        ensures tick { result ≡ tick_of stepped None 0 self.old }
        ensures state { self.new ≡ left_by stepped self.old }
    {
        match stepped {
            Stepped::Retired => Tick {
                printed: None,
                outcome: self.check_here(),
            },
            Stepped::Printed(number) => Tick {
                printed: Some(number),
                outcome: self.check_here(),
            },
            Stepped::Break => {
                self.check_here();
                Tick {
                    printed: None,
                    outcome: Outcome::Stopped(Reason::Ebreak),
                }
            }
            Stepped::Exit(code) => {
                self.breaks.forget_ids();
                Tick {
                    printed: None,
                    outcome: Outcome::Ended(code),
                }
            }
            Stepped::Trap(cause) => {
                self.breaks.forget_ids();
                Tick {
                    printed: None,
                    outcome: Outcome::Stopped(Reason::Exception(cause)),
                }
            }
        }
    }

    // What is found at pc, and how a run ends with it.
    #[inline]
    fn check_closely(&mut self) -> Option<RunEnd>
        ensures ending { IsEnding (record { printed = None; outcome = seen self.old })
            self.new result }
        ensures state { self.new ≡ with_check self.old }
    {
        let outcome = self.check_here();
        self.ending_of(Tick {
            printed: None,
            outcome,
        })
    }

    // What is found at pc: the breakpoints, and whether the goal is met.
    #[inline]
    fn check_here(&mut self) -> Outcome
        ensures outcome { result ≡ seen self.old }
        ensures state { self.new ≡ with_check self.old }
    {
        let hit = self.hit();
        let pc = self.course.hart().pc;
        let depth = self.course.calls().depth();
        let met = self.goal.is_met(self.start, &self.lines, pc, depth);
        outcome_of(hit, met)
    }

    // Looks at the breakpoints at pc. Most steps end where there are none, which is known at once.
    #[inline(always)]
    fn hit(&mut self) -> Hit
        ensures hit { result ≡ hit_at_pc self.old }
        ensures state { self.new ≡ with_check self.old }
    {
        let hart = self.course.hart();
        self.breaks.check(hart.pc, hart, self.course.memory())
    }

    /// How a run ends by the tick that led here; `None`: it continues.
    pub(crate) fn ending_of(&self, tick: Tick) -> Option<RunEnd>
        ensures { IsEnding tick self.now result }
    {
        if tick.is_plain() && self.breaks.logs().is_empty() {
            None
        } else {
            Some(RunEnd::Ticked(tick))
        }
    }
}

// How many instructions retired in a move.
fn counted_by(stepped: Stepped) -> u64
    ensures { result ≡ counted_by stepped }
{
    match stepped {
        Stepped::Retired | Stepped::Printed(_) | Stepped::Break => 1,
        Stepped::Exit(_) | Stepped::Trap(_) => 0,
    }
}

// `went` ticks and then one more, after which a run ends with `ending`, or continues.
fn stretch_of(went: u32, ending: Option<RunEnd>) -> Stretch
    requires { went < 2 ^ 32 - 1 }
    ensures { result ≡ stretch_of went ending }
{
    match ending {
        Some(_) => Stretch { went, ending },
        None => Stretch {
            went: went + 1,
            ending,
        },
    }
}

// What the breakpoints come to, and then the goal.
fn outcome_of(hit: Hit, goal_met: bool) -> Outcome
    ensures { result ≡ outcome_of hit goal_met }
{
    let other = if goal_met {
        Outcome::Stopped(Reason::Goal)
    } else {
        Outcome::Went
    };
    outcome_or(hit, other)
}

/// What the breakpoints come to, or else this.
pub(crate) fn outcome_or(hit: Hit, other: Outcome) -> Outcome
    ensures { result ≡ outcome_or hit other }
{
    if hit.source {
        Outcome::Stopped(Reason::Source)
    } else if hit.instruction {
        Outcome::Stopped(Reason::Instruction)
    } else if hit.function {
        Outcome::Stopped(Reason::Function)
    } else {
        other
    }
}
