//! How a program is run.
//!
//! - `go COUNT`: without a goal, and with COUNT breakpoints in memory after the program, where it never comes; at most 1,024.
//! - `over`: by steps over source lines.
//! - `if CONDITION`: without a goal, and with a breakpoint at the entry whose condition is looked at and that never stops.
//! - `back COUNT`: for as many moves as are recorded and back over all of them, COUNT times, without breakpoints.

ghost use Rattle.std.specs.Prelude.{IfOk, ◌≤◌};
ghost use Rattle.breakpoints.specs.Stops.{CanBeSet};

use breakpoints::{BreakSpec, Expr, ExprError};
use std::alloc::{AllocError, Global};
use stepping::{Goal, Granularity};

/// How many breakpoints there may be.
const LIMIT: u32 = 1024;

/// Where the breakpoints are that are never met: 64 KiB after the start of the program.
const FAR: u32 = 0x0002_0000;

/// How a program is run.
#[derive(Clone, Copy)]
pub(crate) enum Way<'a> {
    /// With this many breakpoints that are never met.
    Go(u32),
    /// By steps over source lines.
    Over,
    /// With a breakpoint of this condition at the entry.
    If(&'a str),
    /// Forth and back, this often.
    Back(u32),
}

impl<'a> Way<'a> {
    /// The way that words say; `None`: they say none.
    pub(crate) fn of(words: &'a [String]) -> Option<Way<'a>> {
        match words {
            [word] if word.as_str() == "over" => Some(Way::Over),
            [word, count] if word.as_str() == "go" => Some(Way::Go(count.as_str().parse().ok()?)),
            [word, count] if word.as_str() == "back" => {
                Some(Way::Back(count.as_str().parse().ok()?))
            }
            [word, condition] if word.as_str() == "if" => Some(Way::If(condition.as_str())),
            _ => None,
        }
    }

    /// Its goal, before it goes back.
    pub(crate) fn goal(self) -> Goal {
        match self {
            Way::Over => Goal::Over(Granularity::Line),
            Way::Go(_) | Way::If(_) | Way::Back(_) => Goal::Go,
        }
    }

    /// Its breakpoints, for a program with this entry; why its condition is none, or `NoMemory`.
    pub(crate) fn breaks(self, alloc: Global, entry: u32) -> Result<Vec<BreakSpec>, ExprError>
        ensures { IfOk result (λ specs. CanBeSet specs.items) }
    {
        match self {
            Way::Over | Way::Back(_) => Ok(Vec::new(alloc)),
            Way::Go(count) => Ok(far(alloc, count.min(LIMIT))?),
            Way::If(condition) => Ok(conditional(alloc, entry, Expr::parse(alloc, condition)?)?),
        }
    }
}

// `count` breakpoints where a program never comes.
fn far(alloc: Global, count: u32) -> Result<Vec<BreakSpec>, AllocError>
    requires { count ≤ 1024 }
    ensures { IfOk result (λ specs. CanBeSet specs.items) }
{
    let mut specs = Vec::new(alloc);
    for id in 0..count {
        specs.push(BreakSpec {
            id,
            address: FAR + 4 * id,
            condition: None,
            hit: 1,
            log: None,
        })?;
    }
    Ok(specs)
}

// A breakpoint that never stops, since no program comes there `u32::MAX` times.
fn conditional(alloc: Global, address: u32, condition: Expr) -> Result<Vec<BreakSpec>, AllocError>
    ensures { IfOk result (λ specs. CanBeSet specs.items) }
{
    let mut specs = Vec::new(alloc);
    specs.push(BreakSpec {
        id: 0,
        address,
        condition: Some(condition),
        hit: u32::MAX,
        log: None,
    })?;
    Ok(specs)
}
