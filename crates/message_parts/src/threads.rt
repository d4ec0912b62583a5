//! The body that answers `threads`: which threads there are.
ghost use Rattle.std.specs.Prelude.{OnOk};
ghost use Rattle.message_parts.specs.Threads.{threads_body};
ghost use Rattle.message_parts.specs.Written.{IsWritten};

use crate::member;
use crate::members::{ID, NAME, THREADS};
use json::Writer;
use std::alloc::AllocError;

/// Writes the one thread of the machine (`Thread`), which is its hart. It fails where no memory is left,
/// and then the writer is of no more use.
pub fn body(out: &mut Writer) -> Result<(), AllocError>
    ensures { OnOk result (IsWritten out.old out.new threads_body) }
{
    out.begin_object()?;
    out.key(THREADS)?;
    out.begin_array()?;
    out.begin_object()?;
    member::number(out, ID, 1)?;
    member::text(out, NAME, "hart 0")?;
    out.end_object()?;
    out.end_array()?;
    out.end_object()
}
