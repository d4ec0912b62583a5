//! Where a run is meant to stop.

ghost use Rattle.std.specs.Prelude.{◌≡◌};
ghost use Rattle.stepping.specs.Goals.{is_met, is_place, turns_back};
ghost use Rattle.stepping.specs.Private.Running.{IsInReach, IsOutOfReach};

use image::LineTable;

/// Where a run is meant to stop, and which way it goes (Debug Adapter Protocol, requests `continue`, `stepIn`, `next`, `stepOut`,
/// `stepBack`, `reverseContinue`).
#[derive(Clone, Copy, Debug, PartialEq, Eq)]
pub enum Goal {
    /// Nowhere: the run continues.
    Go,
    /// At the next place.
    In(Granularity),
    /// At the next place where no more calls are open than at the start of the run.
    Over(Granularity),
    /// Wherever fewer calls are open than at the start of the run.
    Out(Granularity),
    /// One move back.
    Back,
    /// Back, up to where a breakpoint stands or nothing is recorded any more.
    ReverseGo,
}

/// What a step is (Debug Adapter Protocol, `SteppingGranularity`; a statement is a line).
#[derive(Clone, Copy, Debug, PartialEq, Eq)]
pub enum Granularity {
    /// A source line: a step ends at the first address of one, or outside all of them.
    Line,
    /// An instruction: a step ends at any address.
    Instruction,
}

impl Goal {
    /// Whether the run goes back: each of its ticks undoes a move.
    pub fn turns_back(self) -> bool
        ensures { result ≡ turns_back self }
    {
        matches!(self, Goal::Back | Goal::ReverseGo)
    }

    /// Whether the goal is met at pc, by the depth at the start of the run and the depth now.
    pub(crate) fn is_met(self, start: u64, lines: &LineTable, pc: u32, depth: u64) -> bool
        ensures { result ≡ is_met self start lines.now pc depth }
    {
        match self {
            Goal::Go => false,
            Goal::In(granularity) => granularity.is_place(lines, pc),
            Goal::Over(granularity) => depth <= start && granularity.is_place(lines, pc),
            Goal::Out(_) => depth < start,
            Goal::Back | Goal::ReverseGo => false,
        }
    }

    /// From how many open calls on the goal is out of reach, by the depth at the start of the run.
    pub(crate) fn out_of_reach(self, start: u64) -> u64
        ensures above { IsOutOfReach result self start }
        ensures below { IsInReach result self start }
    {
        match self {
            Goal::Go | Goal::Back | Goal::ReverseGo => 0,
            Goal::In(_) => u64::MAX,
            Goal::Over(_) => start.saturating_add(1),
            Goal::Out(_) => start,
        }
    }
}

impl Granularity {
    // Whether a step may end at pc.
    fn is_place(self, lines: &LineTable, pc: u32) -> bool
        ensures { result ≡ is_place self lines.now pc }
    {
        match self {
            Granularity::Instruction => true,
            Granularity::Line => lines.starts(pc) || lines.line_of(pc).is_none(),
        }
    }
}
