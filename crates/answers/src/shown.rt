//! The answer to a request that looks into a stopped machine.

use protocol::Refusal;
use replies::ResponseBody;
use variables::Target;

/// The answer to a request that looks into a stopped machine, and what it needs numbers for.
#[derive(Drop)]
pub struct Look {
    /// The body of the success, in which the targets have the numbers to come, or the refusal.
    pub result: Result<ResponseBody, Refusal>,
    /// For what numbers have to be issued, in this order; nothing where the request is refused.
    pub targets: Vec<Target>,
}
