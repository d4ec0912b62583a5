//! What was agreed on a connection.

ghost use Rattle.std.specs.Prelude.{◌≡◌};
ghost use Rattle.handlers.specs.Phases.{first_terms};

use crate::phase::Phase;

/// What was agreed on a connection.
#[derive(Clone, Copy, Debug, PartialEq, Eq)]
pub struct Terms {
    /// How far it has come.
    pub phase: Phase,
    /// Whether the editor launched the program that is debugged.
    pub launched: bool,
    /// Whether the first line has the number 1, and not 0 (`InitializeRequestArguments.linesStartAt1`).
    pub lines_start_at1: bool,
    /// Whether the first column has the number 1, and not 0 (`InitializeRequestArguments.columnsStartAt1`).
    pub columns_start_at1: bool,
}

impl Terms {
    /// Before anything was agreed: lines and columns are counted from 1.
    pub fn first() -> Terms
        ensures { result ≡ first_terms }
    {
        Terms {
            phase: Phase::Fresh,
            launched: false,
            lines_start_at1: true,
            columns_start_at1: true,
        }
    }

    /// What is agreed, in a phase.
    pub(crate) fn in_phase(self, phase: Phase) -> Terms
        ensures { result ≡ record self { phase = phase } }
    {
        Terms { phase, ..self }
    }
}
