//! What a failed call comes to.
ghost use Rattle.std.specs.Prelude.{◌≡◌};
ghost use Rattle.std.specs.IoError.{error_kind, raw_os_error};
ghost use Rattle.connections.specs.Failures.{
  failed_read,
  failed_accept,
  failed_by_number,
  is_made_again,
  is_of_network,
};

use std::io;
use std::io::ErrorKind;

/// What a failed call of a stream or a door comes to.
#[derive(Clone, Copy, PartialEq, Eq)]
pub(crate) enum Failure {
    /// The call is made again.
    Again,
    /// There is nothing yet.
    Nothing,
    /// The stream or the door is broken.
    Fault,
}

/// What a failed read comes to.
pub(crate) fn failed_read(error: &io::Error) -> Failure
    ensures { result ≡ failed_read (error_kind error.now) }
{
    match error.kind() {
        ErrorKind::Interrupted => Failure::Again,
        ErrorKind::WouldBlock => Failure::Nothing,
        _ => Failure::Fault,
    }
}

/// What a failed accept comes to. A connection that was broken before it was accepted is passed over, and so is one
/// with an error of the network.
pub(crate) fn failed_accept(error: &io::Error) -> Failure
    ensures { result ≡ failed_accept (error_kind error.now) (raw_os_error error.now) }
{
    match error.kind() {
        ErrorKind::ConnectionAborted
        | ErrorKind::Interrupted
        | ErrorKind::NetworkDown
        | ErrorKind::NetworkUnreachable
        | ErrorKind::HostUnreachable => Failure::Again,
        ErrorKind::WouldBlock => Failure::Nothing,
        ErrorKind::Unsupported | ErrorKind::Uncategorized => failed_by_number(error.raw_os_error()),
        _ => Failure::Fault,
    }
}

// Errors that Linux hands on from a connection and that have no kind of their own, as accept(2) names them.
const ENONET: i32 = 64;

const EPROTO: i32 = 71;

const ENOPROTOOPT: i32 = 92;

const EOPNOTSUPP: i32 = 95;

const EHOSTDOWN: i32 = 112;

// What an accept comes to whose error has no kind of its own, by the number of it.
fn failed_by_number(number: Option<i32>) -> Failure
    ensures { result ≡ failed_by_number (is_of_network number) }
{
    match number {
        Some(ENONET | EPROTO | ENOPROTOOPT | EOPNOTSUPP | EHOSTDOWN) => Failure::Again,
        _ => Failure::Fault,
    }
}

/// Whether a call with this failure is made again.
pub(crate) fn is_made_again(failure: Failure) -> bool
    ensures { result ≡ is_made_again failure }
{
    matches!(failure, Failure::Again)
}
