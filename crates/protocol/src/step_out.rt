//! The request `stepOut`: a step of a thread, out of the running call.

/// The request's name.
pub const NAME: &str = "stepOut";
