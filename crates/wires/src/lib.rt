//! What an editor is talked to over: a wire, a door that wires come through, and both in memory.
#![tactic(auto)]

mod count;
mod door;
mod memory;
mod memory_door;
mod wire;

pub use door::{Came, Door, DoorFault};
pub use memory::{Habits, MemoryWire};
pub use memory_door::{MemoryDoor, Visits};
pub use wire::{Received, Wire, WireFault};
