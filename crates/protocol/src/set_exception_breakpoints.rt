//! The request `setExceptionBreakpoints`: which exceptions the program stops at. None of its
//! arguments is looked at.

/// The request's name.
pub const NAME: &str = "setExceptionBreakpoints";
