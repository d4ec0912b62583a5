//! The request `threads`: an editor asks which threads there are. It takes no arguments.

/// The request's name.
pub const NAME: &str = "threads";
