//! The request `continue`: a thread runs on.

/// The request's name.
pub const NAME: &str = "continue";
