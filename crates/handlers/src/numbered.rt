//! Breakpoints that are to be set, with their numbers.
ghost use Rattle.std.specs.Prelude.{◌≡◌, ◌≤◌, map, OnOk, OnErr};
ghost use Rattle.breakpoints.specs.Stops.{CanBeSet, wanted_by};
ghost use Rattle.debuggee.specs.Programs.{with_functions, with_instructions, with_source};

use breakpoints::BreakSpec;
use debuggee::Program;
use std::alloc::AllocError;
use std::marker::Model;

/// Breakpoints that are to be set, of source lines, of instructions or of functions, and the last number that
/// is given with them.
#[derive(Drop)]
pub struct Numbered {
    list: Vec<BreakSpec>,
    last: u32,
}

impl Model for Numbered {
    ghost use Rattle.std.specs.Prelude.{◌≤◌, map};
    ghost use Rattle.std.specs.Coded.{codes};
    ghost use Rattle.breakpoints.specs.Codes.{coded_tree};
    ghost use Rattle.breakpoints.specs.Stops.{CanBeSet, wanted_by};
    ghost use Rattle.handlers.specs.Breaks.{Numbered};

    ghost Value = { Numbered };

    ghost coded = { Prim.hlevel (codes, coded_tree) };

    ghost view = { λ b. record { list = map wanted_by b.list.items; last = b.last } };

    ghost invariant = { λ b. CanBeSet b.list.items × (b.last ≤ 2147483647) };
}

impl Numbered {
    /// Of these breakpoints, with this last number.
    pub(crate) fn new(list: Vec<BreakSpec>, last: u32) -> Numbered
        requires can { CanBeSet list.items }
        requires few { last ≤ 2147483647 }
        ensures { result ≡ record { list = map wanted_by list.items; last = last } }
    {
        Numbered { list, last }
    }

    /// The last number, at most 2,147,483,647.
    pub fn last(&self) -> u32
        ensures last { result ≡ self.now.last }
        ensures few { result ≤ 2147483647 }
    {
        self.last
    }

    /// They are now the breakpoints of a program's source lines. `Err`: no memory was left, and nothing
    /// changed.
    pub fn set_source(self, program: &mut Program) -> Result<(), AllocError>
        ensures ok { OnOk result (program.new ≡ with_source self.list program.old) }
        ensures err { OnErr result (program.new ≡ program.old) }
    {
        program.set_source(self.list)
    }

    /// They are now the breakpoints of its instructions, likewise.
    pub fn set_instructions(self, program: &mut Program) -> Result<(), AllocError>
        ensures ok { OnOk result (program.new ≡ with_instructions self.list program.old) }
        ensures err { OnErr result (program.new ≡ program.old) }
    {
        program.set_instructions(self.list)
    }

    /// They are now the breakpoints of its functions, likewise.
    pub fn set_functions(self, program: &mut Program) -> Result<(), AllocError>
        ensures ok { OnOk result (program.new ≡ with_functions self.list program.old) }
        ensures err { OnErr result (program.new ≡ program.old) }
    {
        program.set_functions(self.list)
    }
}
