//! The request `stepBack`: a step of a thread, backward.

/// The request's name.
pub const NAME: &str = "stepBack";
