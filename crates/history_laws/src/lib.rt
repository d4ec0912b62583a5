//! What holds of going back after any list of events. Here are only laws.
#![tactic(auto)]

pub mod laws;
