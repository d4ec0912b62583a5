//! The request `restart`: the program starts again. None of its arguments is looked at.

/// The request's name.
pub const NAME: &str = "restart";
