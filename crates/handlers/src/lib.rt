//! How requests are handled: in which phases each is taken, what it asks of the program that is debugged, and how it is answered.
//!
//! A request has a module of its own in `requests`, which is the list of them; why one is refused is in `refusals`. Nothing here
//! knows of connections, of bytes, or which requests wait: an answer is made of what it is lent (`Lent`), and says what it changes
//! (`Answer`).
#![tactic(auto)]

pub mod answer;
pub mod change;
pub mod demand;
pub mod lent;
pub mod numbered;
pub mod phase;
pub mod refusals;
pub mod requests;
pub mod run;
pub mod telling;
pub mod terms;
mod view;

pub use answer::{Answer, refusing};
pub use change::{Change, ProgramChange};
pub use demand::Demand;
pub use lent::Lent;
pub use numbered::Numbered;
pub use phase::{Phase, Phases};
pub use refusals::{answer_to, refusal_of, response_to, wanted_by};
pub use requests::launch::placed;
pub use requests::{demand_of, success_of};
pub use run::run_of;
pub use telling::{exit_event, output_event, stop_event};
pub use terms::Terms;
