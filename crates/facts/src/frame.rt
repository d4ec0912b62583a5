//! A frame of the call stack.
ghost use Rattle.std.specs.Prelude.{◌≡◌};

use crate::name::Name;
use std::alloc::AllocError;

/// A frame (`StackFrame`).
#[derive(Drop)]
pub struct FrameInfo {
    /// The number by which a request names it.
    pub id: u32,
    /// The address at which it is.
    pub address: u32,
    /// What a person sees.
    pub name: Name,
}

impl Clone for FrameInfo {
    ghost is_clone = { λ frame copy. copy ≡ frame };

    fn clone(&self) -> Result<FrameInfo, AllocError> {
        Ok(FrameInfo {
            id: self.id,
            address: self.address,
            name: self.name.clone()?,
        })
    }
}
