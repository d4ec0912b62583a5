//! The list of breakpoints that an answer sets, while it is made.

ghost use Rattle.std.specs.Prelude.{◌≡◌, ◌+◌, ◌<◌, ◌^◌, ◌∷◌, ◌++◌, [], IfOk, OnOk};

use crate::conditions::Conditions;
use breakpoints::{BreakSpec, LogText};
use std::alloc::{AllocError, Global};

/// The breakpoints to be set so far, and the number of the next one.
#[derive(Drop)]
pub(crate) struct Draft {
    pub(crate) list: Vec<BreakSpec>,
    pub(crate) next_id: u32,
}

impl Draft {
    /// No breakpoints; the first one will have this number. It takes no memory.
    pub(crate) fn new(alloc: Global, next_id: u32) -> Draft
        ensures list { result.list.items ≡ [] }
        ensures next { result.next_id ≡ next_id }
    {
        Draft {
            list: Vec::new(alloc),
            next_id,
        }
    }

    /// Adds a breakpoint at an address, a logpoint where there is a text, and answers its number. It fails where no memory is left.
    pub(crate) fn add(
        &mut self,
        address: u32,
        conditions: Conditions,
        log: Option<LogText>,
    ) -> Result<u32, AllocError>
        requires { self.old.next_id + 1 < 2 ^ 32 }
        ensures id { IfOk result (λ id. id ≡ self.old.next_id) }
        ensures next { OnOk result (self.new.next_id ≡ self.old.next_id + 1) }
        ensures list { OnOk result
            (self.new.list.items ≡ self.old.list.items
            ++ record {
              id = self.old.next_id;
              address = address;
              condition = conditions.condition;
              hit = conditions.hit;
              log = log;
            } ∷ []) }
    {
        let id = self.next_id;
        self.list.push(BreakSpec {
            id,
            address,
            condition: conditions.condition,
            hit: conditions.hit,
            log,
        })?;
        self.next_id = id + 1;
        Ok(id)
    }
}
