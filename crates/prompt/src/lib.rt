//! A line that somebody types at a prompt, read as what it asks for: a word, and what belongs to it. Nothing is
//! looked up here: a label is a text, and so is an expression.
#![tactic(auto)]

mod counting;
mod error;
pub mod laws;
mod line;
mod part;
mod place;
mod reading;
mod separator;
mod text;
mod words;

pub use error::{Argument, LineError, LineFault};
pub use line::{Line, Stop};
pub use place::Place;
pub use reading::read_line;
pub use text::Text;
pub use words::{Direction, Motion, Plain, Unit};
