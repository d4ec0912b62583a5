//! Why requests will be refused, as far as they show it themselves.
ghost use Rattle.std.specs.Prelude.{◌<◌, IfSome, vec_len};

use crate::verbose::arguments::Slip;
use breakpoints::ExprError;
use std::alloc::Global;

/// What is wrong with a request.
#[derive(Clone, Copy)]
pub(crate) enum Reason {
    /// An argument of it.
    Argument(Slip),
    /// Its expression, as a text.
    Expression(ExprError),
}

/// What is wrong with the requests that are not answered yet, by their numbers.
#[derive(Drop)]
pub(crate) struct Reasons {
    list: Vec<(u32, Reason)>,
}

impl Reasons {
    /// Nothing.
    pub(crate) fn none(alloc: Global) -> Reasons {
        Reasons {
            list: Vec::new(alloc),
        }
    }

    /// Keeps why the request of this number will be refused. Where no memory is left it is forgotten.
    pub(crate) fn add(&mut self, number: u32, reason: Reason) {
        let _ = self.list.push((number, reason));
    }

    /// Gives what is wrong with the request of this number, which is answered now.
    pub(crate) fn take(&mut self, number: u32) -> Option<Reason> {
        let index = self.position(number)?;
        Some(self.list.swap_remove(index).1)
    }

    fn position(&self, number: u32) -> Option<usize>
        ensures { IfSome result (λ index. index < vec_len self.now.list) }
    {
        for index in 0..self.list.len() {
            if self.list[index].0 == number {
                return Some(index);
            }
        }
        None
    }
}
