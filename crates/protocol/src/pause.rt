//! The request `pause`: a thread is to stop.

/// The request's name.
pub const NAME: &str = "pause";
