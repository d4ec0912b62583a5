//! The numbers of a debugged machine stay in their ranges: registers and addresses are words, memory is bytes. Here are only laws.
#![tactic(auto)]

pub mod laws;
