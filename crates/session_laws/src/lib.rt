//! What holds of a session after any list of events, of each message, and of what an editor that is watched knows. Here are only laws.
#![tactic(auto)]

pub mod laws;
