//! What can be known of a machine from outside: whether it runs, its breakpoints, and the frames of its call stack.
#![tactic(auto)]

mod breakpoint;
mod frame;
mod name;
mod run;

pub use breakpoint::BreakInfo;
pub use frame::FrameInfo;
pub use name::Name;
pub use run::RunState;
