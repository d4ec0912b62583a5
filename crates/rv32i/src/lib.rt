//! RV32I (RISC-V Unprivileged ISA 20191213, chapter 2): its words, their disassembly, and a hart that steps, and steps back.
#![tactic(auto)]

mod access;
mod decoding;
mod encoding;
mod fields;
mod hart;
mod instr;
pub mod laws;
mod names;
mod parts;
mod performing;
mod stepped;
mod text;
mod undo;
mod word_text;

pub use decoding::decode;
pub use encoding::encode;
pub use fields::{BranchOffset, FenceSet, Imm, JumpOffset, Reg, Shamt, Upper};
pub use hart::Hart;
pub use instr::Instr;
pub use names::{reg_in, reg_name, reg_named, reg_of};
pub use performing::{Halt, perform};
pub use stepped::{Cause, Stepped};
pub use text::{push_digits, text_of};
pub use undo::{Undo, destination, undo_at, undo_of};
pub use word_text::text_of_word;
