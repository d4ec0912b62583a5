//! Texts that are read are UTF-8 and no longer than what they are read from, and texts that are
//! written have a length that is bounded. Here are only laws.
#![tactic(auto)]

pub mod laws;
