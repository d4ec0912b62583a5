//! The assembly language of RV32I, line by line: what a line says, before any address is known.
#![tactic(auto)]

mod directives;
mod error;
mod forms;
mod instructions;
mod items;
pub mod laws;
mod line;
mod mnemonics;
mod name;
mod number;
mod operands;
mod operations;
mod reading;
mod spelling;
mod statement;

pub use error::LineError;
pub use items::{Item, Items, Width};
pub use line::{Labels, Line};
pub use name::Name;
pub use operations::{Condition, ImmediateOperation, StoreOperation, lower_part, upper_part};
pub use reading::{read_line, without_comment};
pub use spelling::is_name;
pub use statement::{Statement, Target};
