//! What `--verbose` says on standard error: what closed a connection, and why a request was refused. What goes over a wire is heard on its
//! way, and stays as it is.

mod arguments;
mod door;
mod hearing;
mod reasons;
mod refusals;
mod stream;
mod wire;

pub use door::VerboseDoor;
pub use wire::VerboseWire;
