//! What is told of a text that does not assemble, in the form in which compilers tell errors.
#![tactic(auto)]

mod addresses;
mod advice;
mod diagnosing;
mod errors;
mod explaining;
mod faults;
mod foreign;
mod forms;
mod found;
mod json;
mod kinds;
mod labels;
pub mod laws;
mod line_numbers;
mod literals;
mod nearest;
mod operands;
mod parts;
mod passes;
mod places;
mod placing;
mod reading;
mod statements_at_fault;
mod targets;

pub use diagnosing::{diagnose, told};
pub use explaining::explanation;
pub use json::diagnose_json;
pub use line_numbers::line_at;
