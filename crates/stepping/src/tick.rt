//! What a tick answers.

ghost use Rattle.std.specs.Prelude.{◌≡◌, ◌≢◌, MatchBool};
ghost use Rattle.stepping.specs.Plain.{plain_tick};

use rv32i::Cause;

/// What one tick of a debugged machine answers.
#[derive(Clone, Copy, Debug, PartialEq, Eq)]
pub struct Tick {
    /// The number that the program printed; `None`: it printed none.
    pub printed: Option<i32>,
    /// Whether the machine continues.
    pub outcome: Outcome,
}

/// Whether a machine continues after a tick.
#[derive(Clone, Copy, Debug, PartialEq, Eq)]
pub enum Outcome {
    /// It continues.
    Went,
    /// It stops.
    Stopped(Reason),
    /// The program has ended, with this code.
    Ended(i32),
}

/// Why a machine stops; the first of several in this order.
#[derive(Clone, Copy, Debug, PartialEq, Eq)]
pub enum Reason {
    /// The instruction trapped.
    Exception(Cause),
    /// EBREAK retired.
    Ebreak,
    /// A breakpoint of a source line.
    Source,
    /// A breakpoint of an instruction.
    Instruction,
    /// A breakpoint of a function.
    Function,
    /// The goal of the run.
    Goal,
    /// The run went back, and no move is recorded any more.
    Start,
}

impl Tick {
    /// The tick with nothing to report, unless a logpoint has something to say after it.
    pub(crate) const PLAIN: Tick = Tick {
        printed: None,
        outcome: Outcome::Went,
    };

    /// Whether the machine continues, and nothing was printed. What logpoints have to say is no part of a tick.
    #[inline]
    pub fn is_plain(&self) -> bool
        ensures { MatchBool result (self.now ≡ plain_tick) (self.now ≢ plain_tick) }
    {
        match self {
            Tick {
                printed: None,
                outcome: Outcome::Went,
            } => true,
            _ => false,
        }
    }
}

/// What a run of ticks answers.
#[derive(Clone, Copy, Debug, PartialEq, Eq)]
pub struct Ran {
    /// How many ticks went, with nothing printed or logged.
    pub went: u32,
    /// What ended the run.
    pub ending: RunEnd,
}

/// What ended a run of ticks.
#[derive(Clone, Copy, Debug, PartialEq, Eq)]
pub enum RunEnd {
    /// As many ticks went as were asked for.
    Spent,
    /// One more tick: it printed a number, stopped the machine, or the program ended with it, or a logpoint has something to say after it.
    Ticked(Tick),
    /// No memory was left for one more.
    NoMemory,
}
