//! The program's source, and how an editor counts.
ghost use Rattle.std.specs.Prelude.{◌≡◌, IfOk};
ghost use Rattle.handlers.specs.Views as spec;

use crate::terms::Terms;
use answers::View;
use debuggee::Program;
use protocol::Text;
use std::alloc::{AllocError, Global};

/// The path of the program's source, and the numbers that the editor gives a first line and a first column. It fails
/// where no memory is left.
pub(crate) fn view_of(alloc: Global, terms: Terms, program: &Program) -> Result<View, AllocError>
    ensures { IfOk result (λ view. view ≡ spec.view_of terms program.now) }
{
    Ok(View {
        path: Text::from_string(String::from_str(alloc, program.path())?),
        line_base: u32::from(terms.lines_start_at1),
        column_base: u32::from(terms.columns_start_at1),
    })
}
