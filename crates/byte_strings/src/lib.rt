//! Byte strings: bytes that a value owns, a text without the blanks round it, and its fields.
#![tactic(auto)]

mod blanks;
mod bytes;
mod fields;

pub use blanks::{is_blank, trimmed, without_leading_blanks};
pub use bytes::Bytes;
pub use fields::{first_field, parted};
