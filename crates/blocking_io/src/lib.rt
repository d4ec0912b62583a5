//! Streams over descriptors that may be non-blocking, and whether one can be read at once; calls that are made again.
#![tactic(auto)]

mod attempts;
mod ready;
mod retries;
mod waiting;
mod writing;

pub use attempts::{FallibleRead, FallibleWrite};
pub use ready::{can_read, can_read_within, wait_to_read};
pub use retries::Retries;
pub use waiting::Waiting;
pub use writing::{write_some, write_whole};
