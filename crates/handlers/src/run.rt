//! How the program that is debugged runs.
ghost use Rattle.std.specs.Prelude.{◌≡◌};
ghost use Rattle.handlers.specs.Demands.{run_of};

use debuggee::{Program, Run};

/// The run of the program that is debugged, if there is one.
pub fn run_of(program: &Option<Program>) -> Option<Run>
    ensures { result ≡ run_of program.now }
{
    match program {
        Some(program) => Some(program.run()),
        None => None,
    }
}
