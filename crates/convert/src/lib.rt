//! A program as RARS, Venus or GNU as have it, rewritten line by line in the assembly language of `assembler`.
#![tactic(auto)]

mod calls;
mod comments;
mod converting;
mod directives;
mod draft;
mod fields;
mod instructions;
mod local_labels;
mod names;
mod operands;
mod operations;
mod places;
mod remark;
mod rewriting;
mod texts;
mod tokens;
mod unsaid;
mod values;

pub use converting::{Conversion, converted};
pub use remark::{Reason, Remark};
