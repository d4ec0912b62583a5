//! The memory of the machine, one finite map from address to byte; and an image, which is what it starts
//! with, and where its lines and labels are.
#![tactic(auto)]

mod fault;
pub mod laws;
mod lines;
mod memory;
mod page;
mod table;
mod words;

pub use byte_strings::Bytes;
pub use fault::MemFault;
pub use lines::LineTable;
pub use memory::{FIRST_ADDRESS, Memory};
pub use words::word_at_index;

/// What an assembler makes of a text, and what a machine starts with.
#[derive(Debug, Drop)]
pub struct Image {
    /// The bytes of memory from 0x00010000 on.
    pub bytes: Bytes,
    /// The address where the program starts.
    pub entry: u32,
    /// Which line the code at an address came from, and where the labels are.
    pub lines: LineTable,
}
