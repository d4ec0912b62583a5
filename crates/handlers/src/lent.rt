//! What an answer is lent of a session.
ghost use Rattle.std.specs.Prelude.{◌≡◌, ◌≤◌};
ghost use Rattle.std.specs.Option.{option_copied};
ghost use Rattle.handlers.specs.Demands.{run_of};
ghost use Rattle.handlers.specs.Sizes.{IsSize};

use crate::run::run_of;
use crate::terms::Terms;
use debuggee::{Program, Run};
use std::marker::Model;
use variables::Handles;

/// What an answer is lent of a session. A contract sees what it is given, what was agreed, and the file.
#[derive(Drop)]
pub struct Lent<'a> {
    pub(crate) terms: Terms,
    pub(crate) program: &'a Option<Program>,
    pub(crate) handles: &'a Handles,
    pub(crate) file: Option<&'a [u8]>,
    pub(crate) size: u32,
    pub(crate) last_break: u32,
    pub(crate) last_ref: u32,
}

impl<'a> Model for Lent<'a> {
    ghost use Rattle.std.specs.Prelude.{◌≤◌};
    ghost use Rattle.std.specs.Option.{option_copied};
    ghost use Rattle.std.specs.Coded.{codes};
    ghost use Rattle.breakpoints.specs.Codes.{coded_tree};
    ghost use Rattle.handlers.specs.Given.{Lent};
    ghost use Rattle.handlers.specs.Sizes.{IsSize};

    ghost coded = { Prim.hlevel (codes, coded_tree) };

    ghost Value = { Lent };

    ghost view = { λ l. record {
      given = record {
        size = l.size;
        last_ref = l.last_ref;
        debuggee = record { program = l.program.now; last_break = l.last_break };
        numbers = l.handles.now;
      };
      terms = l.terms;
      file = option_copied l.file;
    } };

    ghost invariant = { λ l. IsSize l.size × (l.last_break ≤ 2147483647)
        × (l.last_ref ≤ 2147483647) };
}

impl<'a> Lent<'a> {
    /// What was agreed on the connection; the program that is debugged, if there is one, and the references that its stop has;
    /// the file that the request names, if it was read; how many bytes of memory a machine gets; and the last number that a
    /// breakpoint was given, and that one can be given.
    pub fn new(
        terms: Terms,
        program: &'a Option<Program>,
        handles: &'a Handles,
        file: Option<&'a [u8]>,
        size: u32,
        last_break: u32,
        last_ref: u32,
    ) -> Lent<'a>
        requires size { IsSize size }
        requires last_break { last_break ≤ 2147483647 }
        requires last_ref { last_ref ≤ 2147483647 }
        ensures { result ≡ record {
          given = record {
            size = size;
            last_ref = last_ref;
            debuggee = record { program = program.now; last_break = last_break };
            numbers = handles.now;
          };
          terms = terms;
          file = option_copied file.entry;
        } }
    {
        Lent {
            terms,
            program,
            handles,
            file,
            size,
            last_break,
            last_ref,
        }
    }

    /// What was agreed on the connection.
    pub fn terms(&self) -> Terms
        ensures { result ≡ self.now.terms }
    {
        self.terms
    }

    /// The run of the program that is debugged, if there is one.
    pub fn run(&self) -> Option<Run>
        ensures { result ≡ run_of self.now.given.debuggee.program }
    {
        run_of(self.program)
    }
}
