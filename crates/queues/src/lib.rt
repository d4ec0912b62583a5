//! What waits on a connection: requests for their answers, and bytes to be sent.
//!
//! A piece that comes is fed (`feed`), and the requests in it join those that wait (`Arrivals`). A message is written with its number
//! (`framed`), and its bytes wait (`Buffer`). Nothing here knows what a request is answered.
#![tactic(auto)]

mod arrivals;
mod buffer;
mod feeding;
mod pending;
mod writing;

pub use arrivals::Arrivals;
pub use buffer::Buffer;
pub use feeding::feed;
pub use pending::{Ask, Fate, Pending};
pub use writing::framed;
