//! The request `stepIn`: a step of a thread, into calls.

/// The request's name.
pub const NAME: &str = "stepIn";
