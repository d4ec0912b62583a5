//! Instructions in a row, with nothing to report.

ghost use Rattle.std.specs.Prelude.{◌≡◌, ◌+◌, ◌^◌, ◌≤◌, ℕ};
ghost use Rattle.std.specs.Bool.{OnFalse};
ghost use Rattle.stepping.specs.Private.Bursts.{Bursts, HasNone, IsFar, moved_by};

use breakpoints::Breaks;
use course::{Calls, Course};
use rv32i::Halt;

/// How far instructions in a row went, and why they ended.
#[derive(Clone, Copy)]
pub(crate) struct Burst {
    /// How many retired, and led to where there is nothing to see.
    pub went: u32,
    /// Where the hart is then.
    pub pc: u32,
    /// What ended them.
    pub ending: BurstEnd,
}

/// What ended instructions in a row.
#[derive(Clone, Copy)]
pub(crate) enum BurstEnd {
    /// As many retired as were asked for.
    Spent,
    /// One more retired, and led to where there may be something to see.
    Near,
    /// The next one halts.
    Halted(Halt),
}

impl Burst {
    /// How many instructions retired.
    pub(crate) fn moved(self) -> u64
        ensures { result ≡ moved_by self.went self.ending }
    {
        let went = u64::from(self.went);
        match self.ending {
            BurstEnd::Near => went + 1,
            _ => went,
        }
    }
}

/// Executes at most `most` instructions, from the hart's pc on, up to the first that leads to a breakpoint, or to where fewer
/// calls are open than `reach`. The hart's pc stays: it is answered where it would be. What there is to look for is decided once.
pub(crate) fn retire(course: &mut Course, breaks: &Breaks, reach: u64, most: u32) -> Burst
    requires { course.old.now.calls.depth + most ≤ 2 ^ 62 }
    ensures { Bursts most breaks.now reach course.old result course.new }
{
    if reach > 0 {
        retire_by::<true, true>(course, breaks, reach, most)
    } else if has_some(breaks) {
        retire_by::<true, false>(course, breaks, reach, most)
    } else {
        retire_by::<false, false>(course, breaks, reach, most)
    }
}

// The same, where there are breakpoints to look for or none, and calls to count or none. These are the loops in which a program runs.
// So `quick` is called here alone, which makes it part of them, and pc is kept apart.
#[inline(never)]
fn retire_by<const BREAKS: bool, const CALLS: bool>(
    course: &mut Course,
    breaks: &Breaks,
    reach: u64,
    most: u32,
) -> Burst
    requires few { course.old.now.calls.depth + most ≤ 2 ^ 62 }
    requires none { OnFalse BREAKS ((pc : ℕ) → HasNone breaks.now pc) }
    requires deep { OnFalse CALLS (reach ≤ 0) }
    ensures { Bursts most breaks.now reach course.old result course.new }
{
    let mut pc = course.hart().pc;
    for went in 0..most {
        match course.quick(pc) {
            Ok(next) => {
                pc = next;
                if is_near::<BREAKS, CALLS>(breaks, course.calls(), reach, pc) {
                    let ending = BurstEnd::Near;
                    return Burst { went, pc, ending };
                }
            }
            Err(halt) => {
                let ending = BurstEnd::Halted(halt);
                return Burst { went, pc, ending };
            }
        }
    }
    Burst {
        went: most,
        pc,
        ending: BurstEnd::Spent,
    }
}

// Whether there is a breakpoint anywhere.
fn has_some(breaks: &Breaks) -> bool
    ensures { OnFalse result ((pc : ℕ) → HasNone breaks.now pc) }
{
    breaks.has_any()
}

// Whether there may be something to see at an address.
#[inline(always)]
fn is_near<const BREAKS: bool, const CALLS: bool>(
    breaks: &Breaks,
    calls: &Calls,
    reach: u64,
    pc: u32,
) -> bool
    requires none { OnFalse BREAKS ((pc : ℕ) → HasNone breaks.now pc) }
    requires deep { OnFalse CALLS (reach ≤ 0) }
    ensures { OnFalse result (IsFar breaks.now reach pc calls.now.depth) }
{
    BREAKS && breaks.has(pc) || CALLS && calls.depth() < reach
}
