//! The body of the event `continued`: every thread continues.
ghost use Rattle.std.specs.Prelude.{OnOk};
ghost use Rattle.message_parts.specs.Continued.{continued_body};
ghost use Rattle.message_parts.specs.Written.{IsWritten};

use crate::member;
use crate::members::{ALL_THREADS_CONTINUED, THREAD_ID};
use json::Writer;
use std::alloc::AllocError;

/// Writes that every thread continues; there is one, the hart. It fails where no memory is left,
/// and then the writer is of no more use.
pub fn body(out: &mut Writer) -> Result<(), AllocError>
    ensures { OnOk result (IsWritten out.old out.new continued_body) }
{
    out.begin_object()?;
    member::truth(out, ALL_THREADS_CONTINUED, true)?;
    member::number(out, THREAD_ID, 1)?;
    out.end_object()
}
