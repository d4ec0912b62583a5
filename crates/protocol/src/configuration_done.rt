//! The request `configurationDone`: an editor has said all that it wants to say before the program
//! runs. None of its arguments is looked at.

/// The request's name.
pub const NAME: &str = "configurationDone";
