//! A breakpoint.

ghost use Rattle.std.specs.Prelude.{◌≡◌};
ghost use Rattle.breakpoints.specs.Stops.{counted, fresh, holds, logs, reset, stands, stops, wanted_by};

use crate::expr::Expr;
use crate::log_text::LogText;
use image::Memory;
use rv32i::Hart;
use std::marker::Model;

/// A breakpoint as it is asked for.
#[derive(Drop)]
pub struct BreakSpec {
    /// What a stop names it by.
    pub id: u32,
    /// The address of the instruction before which it stops.
    pub address: u32,
    /// It is hit only where this is not 0 or has no value; `None`: always.
    pub condition: Option<Expr>,
    /// It stops from this hit on, counted from 1.
    pub hit: u32,
    /// The text of a logpoint, which says it where another breakpoint would stop, and never stops; `None`: it stops. Only breakpoints of
    /// source lines are logpoints: one with a text in another list stops nowhere and says nothing. `setBreakpoints` allows at most 1,024
    /// bytes; here a text can be of any length.
    pub log: Option<LogText>,
}

/// A breakpoint that is set, with its count. A contract sees its condition as a tree.
#[derive(Drop)]
pub struct Breakpoint {
    /// What a stop names it by.
    pub id: u32,
    /// The address of the instruction before which it stops.
    pub address: u32,
    /// It is hit only where this is not 0 or has no value; `None`: always.
    pub condition: Option<Expr>,
    /// It stops from this hit on, counted from 1.
    pub hit: u32,
    /// The text of a logpoint, which says it where another breakpoint would stop, and never stops; `None`: it stops.
    pub log: Option<LogText>,
    /// How often it was hit; the count stays at 4,294,967,295.
    pub hits: u32,
}

impl Model for Breakpoint {
    ghost use Rattle.std.specs.Prelude.{option_map};
    ghost use Rattle.std.specs.Coded.{codes};
    ghost use Rattle.breakpoints.specs.Nodes.{tree_of};
    ghost use Rattle.breakpoints.specs.Codes.{coded_tree};
    ghost use Rattle.breakpoints.specs.Stops.{Placed};

    ghost Value = { Placed };

    ghost coded = { Prim.hlevel (codes, coded_tree) };

    ghost view = { λ b. record {
      id = b.id;
      address = b.address;
      condition = option_map tree_of b.condition;
      hit = b.hit;
      log = b.log;
      hits = b.hits;
    } };
}

/// Which kinds of breakpoints stop, or stand.
#[derive(Clone, Copy, Debug, PartialEq, Eq)]
pub struct Hit {
    /// A breakpoint of a source line does.
    pub source: bool,
    /// A breakpoint of an instruction does.
    pub instruction: bool,
    /// A breakpoint of a function does.
    pub function: bool,
}

impl Breakpoint {
    /// A breakpoint that was not hit yet.
    pub(crate) fn fresh(spec: BreakSpec) -> Breakpoint
        ensures { result ≡ fresh (wanted_by spec) }
    {
        Breakpoint {
            id: spec.id,
            address: spec.address,
            condition: spec.condition,
            hit: spec.hit,
            log: spec.log,
            hits: 0,
        }
    }

    /// Looks at it: counts a hit, and says whether it stops.
    #[inline]
    pub(crate) fn check(&mut self, pc: u32, hart: &Hart, memory: &Memory) -> bool
        ensures counted { self.new ≡ counted pc hart.now memory.now self.old }
        ensures stops { result ≡ stops pc hart.now memory.now self.old }
    {
        if self.address != pc || !self.holds(hart, memory) {
            return false;
        }
        self.hits = self.hits.saturating_add(1);
        self.hits >= self.hit && self.log.is_none()
    }

    /// Whether a check, which counts this hit, is one at which a logpoint says its text.
    pub(crate) fn logs(&self, pc: u32, hart: &Hart, memory: &Memory) -> bool
        ensures { result ≡ logs pc hart.now memory.now self.now }
    {
        if self.address != pc || self.log.is_none() || !self.holds(hart, memory) {
            return false;
        }
        self.hits.saturating_add(1) >= self.hit
    }

    /// Whether it stands here, however often it was hit.
    pub(crate) fn stands(&self, pc: u32, hart: &Hart, memory: &Memory) -> bool
        ensures { result ≡ stands pc hart.now memory.now self.now }
    {
        self.address == pc && self.log.is_none() && self.holds(hart, memory)
    }

    /// It was not hit yet.
    pub(crate) fn reset(&mut self)
        ensures { self.new ≡ reset self.old }
    {
        self.hits = 0;
    }

    // Whether its condition is absent, not 0, or has no value.
    #[inline(always)]
    fn holds(&self, hart: &Hart, memory: &Memory) -> bool
        ensures { result ≡ holds self.now.condition hart.now memory.now }
    {
        match &self.condition {
            None => true,
            Some(condition) => condition.holds(hart, memory),
        }
    }
}
