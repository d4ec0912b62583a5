//! The request `attach`: an editor joins the program that the adapter debugs. None of its arguments
//! is looked at.

/// The request's name.
pub const NAME: &str = "attach";
