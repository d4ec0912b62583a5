//! Why the program ends, where it served editors or a stream failed.
ghost use Rattle.std.specs.Prelude.{◌≡◌};
ghost use Rattle.std.specs.IoError.{error_kind};
ghost use Rattle.rvdap.specs.ExitReasons as spec;

use commands::ExitReason;
use session::LinkFault;
use std::io;
use std::io::ErrorKind;
use transport::DriveEnd;

/// Why the program ends, by how driving or serving ended and what closed the connection.
pub(crate) fn exit_reason_of(end: DriveEnd, fault: Option<LinkFault>) -> ExitReason
    ensures { result ≡ spec.exit_reason_of end fault }
{
    match end {
        DriveEnd::Closed => match fault {
            Some(_) => ExitReason::BadMessage,
            None => ExitReason::Success,
        },
        DriveEnd::Fault | DriveEnd::Turns => ExitReason::ReadOrWriteFault,
        DriveEnd::NoMemory => ExitReason::NoMemory,
    }
}

/// Why the program ends where a stream failed with this error.
pub(crate) fn exit_reason_by(error: &io::Error) -> ExitReason
    ensures { result ≡ spec.exit_reason_by (error_kind error.now) }
{
    match error.kind() {
        ErrorKind::OutOfMemory => ExitReason::NoMemory,
        _ => ExitReason::ReadOrWriteFault,
    }
}
