//! An assembler for RV32I: a whole text to an image whose every byte has its place.
#![tactic(auto)]

mod assembling;
mod contents;
mod error;
mod fill;
pub mod laws;
mod layout;
mod program;

pub use assembling::assemble;
pub use error::{AsmError, AsmErrorKind};
pub use program::TEXT_LIMIT;
