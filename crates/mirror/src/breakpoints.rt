//! Breakpoints that are set.
ghost use Rattle.std.specs.Prelude.{◌≡◌, IfOk, Some, slice_get, filter_map};
ghost use Rattle.mirror.specs.Folding.{verified_at, verified_instruction};

use facts::BreakInfo;
use replies::{InstructionBreakpoint, SourceBreakpoint};
use std::alloc::{AllocError, Global};
use std::marker::Model;

/// Breakpoints that are set, in the order in which they were asked for. A contract sees them as a list.
#[derive(Drop)]
pub(crate) struct Breaks {
    list: Vec<BreakInfo>,
}

impl Model for Breaks {
    ghost use Rattle.std.specs.Prelude.{List};
    ghost use Rattle.facts.specs.declared.breakpoint.BreakInfo.{BreakInfo};

    ghost Value = { List BreakInfo };

    ghost view = { λ b. b.list.items };
}

impl Breaks {
    ghost use Rattle.std.specs.Prelude.{[]};

    /// No breakpoints. It takes no memory.
    pub(crate) fn new(alloc: Global) -> Breaks
        ensures { result ≡ [] }
    {
        Breaks {
            list: Vec::new(alloc),
        }
    }

    /// The breakpoint at an index.
    pub(crate) fn get(&self, index: usize) -> Option<BreakInfo>
        ensures { result ≡ slice_get self.now index }
    {
        self.list.get(index).copied()
    }

    /// A copy of these breakpoints. It fails where no memory is left.
    pub(crate) fn copied(&self, alloc: Global) -> Result<Breaks, AllocError>
        ensures { IfOk result (λ copy. copy ≡ self.now) }
    {
        Ok(Breaks {
            list: Vec::from_slice(alloc, self.list.as_slice())?,
        })
    }

    /// Those of a source that are set. It fails where no memory is left.
    pub(crate) fn of_source(
        alloc: Global,
        entries: &[SourceBreakpoint],
    ) -> Result<Breaks, AllocError>
        ensures { IfOk result (λ breaks. breaks ≡ filter_map verified_at entries.now) }
    {
        Ok(Breaks {
            list: entries
                .iter()
                .filter_map(|e| verified_at(e))
                .collect(alloc)?,
        })
    }

    /// Those at instructions, or at functions, that are set. It fails where no memory is left.
    pub(crate) fn at_instructions(
        alloc: Global,
        entries: &[InstructionBreakpoint],
    ) -> Result<Breaks, AllocError>
        ensures { IfOk result (λ breaks. breaks ≡ filter_map verified_instruction entries.now) }
    {
        Ok(Breaks {
            list: entries
                .iter()
                .filter_map(|e| verified_instruction(e))
                .collect(alloc)?,
        })
    }
}

// The breakpoint that an entry tells, if it is set.
fn verified_at(entry: &SourceBreakpoint) -> Option<BreakInfo>
    ensures { result ≡ verified_at entry.now }
{
    match entry {
        SourceBreakpoint::Verified {
            id,
            instruction_reference,
            line: _,
        } => Some(BreakInfo {
            id: *id,
            address: *instruction_reference,
        }),
        SourceBreakpoint::Unverified { .. } => None,
    }
}

// The breakpoint that an entry for an instruction or a function tells, if it is set.
fn verified_instruction(entry: &InstructionBreakpoint) -> Option<BreakInfo>
    ensures { result ≡ verified_instruction entry.now }
{
    match entry {
        InstructionBreakpoint::Verified {
            id,
            instruction_reference,
        } => Some(BreakInfo {
            id: *id,
            address: *instruction_reference,
        }),
        InstructionBreakpoint::Unverified { .. } => None,
    }
}
