//! A text of assembly to the listing of its image, and to its labels.
#![tactic(auto)]

mod entries;
mod fault;
pub mod laws;
mod list;
mod naming;

pub use fault::ListFault;
pub use list::listing;
pub use naming::{LabelForm, labels};

/// How many bytes the memory has that a text is assembled for.
pub(crate) const MEMORY_SIZE: u32 = 1_048_576;
