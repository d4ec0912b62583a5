//! The request `next`: a step of a thread, over calls.

/// The request's name.
pub const NAME: &str = "next";
