//! The request `terminate`: the program is to end. None of its arguments is looked at.

/// The request's name.
pub const NAME: &str = "terminate";
