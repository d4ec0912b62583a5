//! Breakpoints: three lists, of source lines, of instructions and of functions, and which of them stop a machine; and logpoints, which
//! say a text where another breakpoint would stop. Expressions, which conditions are, and questions of the user: read from a text, and
//! their value on a stopped machine.
#![tactic(auto)]

mod breakpoint;
mod breaks;
mod error;
mod expr;
pub mod laws;
mod lexing;
mod log_text;
mod node;
mod operation;
mod parsing;
mod places;
mod running;
mod token;
mod value;

pub use breakpoint::{BreakSpec, Breakpoint, Hit};
pub use breaks::Breaks;
pub use error::{ExprError, ExprFault};
pub use expr::Expr;
pub use log_text::LogText;
