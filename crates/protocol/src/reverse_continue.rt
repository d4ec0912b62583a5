//! The request `reverseContinue`: a thread runs backward.

/// The request's name.
pub const NAME: &str = "reverseContinue";
