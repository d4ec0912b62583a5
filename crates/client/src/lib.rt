//! A client of a session, in one process with it: it sends requests, gives the program time, and takes what it is told. A mirror follows it,
//! so what is shown of the mirror's facts was so when the last message that was taken was queued.
#![tactic(auto)]

mod client;
mod error;
pub mod laws;
mod messages;

pub use client::Client;
pub use error::SendError;
