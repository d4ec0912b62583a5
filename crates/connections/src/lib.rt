//! Wires and doors of the system: streams over descriptors, and TCP.
#![tactic(auto)]

mod closing;
mod connection;
mod failure;
mod lingering;
mod outcome;
mod reading;
mod stream;
mod tcp;

pub use connection::{TcpWire, tcp_wire};
pub use stream::StreamWire;
pub use tcp::TcpDoor;
