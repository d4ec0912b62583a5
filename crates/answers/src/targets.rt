//! What a request refers to by a number.

ghost use Rattle.std.specs.Prelude.{◌≡◌};
ghost use Rattle.answers.specs.Targets as spec;

use protocol::Refusal;
use variables::{FindError, Handles, Target};

/// What a number refers to. `UnknownReference`: it was never issued; else `StaleReference`: it was issued in an earlier stop.
pub(crate) fn target_of(handles: &Handles, number: i32) -> Result<Target, Refusal>
    ensures { result ≡ spec.target_of handles.now number }
{
    if number < 0 {
        return Err(Refusal::UnknownReference);
    }
    match handles.find(number as u32) {
        Ok(target) => Ok(target),
        Err(FindError::Unknown) => Err(Refusal::UnknownReference),
        Err(FindError::Stale) => Err(Refusal::StaleReference),
    }
}

/// The index of the frame of a number. `UnknownReference`: the number was never issued, or is a scope's; else `StaleReference`: it was
/// issued in an earlier stop.
pub(crate) fn frame_of(handles: &Handles, id: i32) -> Result<u32, Refusal>
    ensures { result ≡ spec.frame_of handles.now id }
{
    match target_of(handles, id)? {
        Target::Frame(index) => Ok(index),
        Target::Registers | Target::Stack => Err(Refusal::UnknownReference),
    }
}

/// Why an optional number is no frame's; `None`: it is absent, or a frame's.
pub(crate) fn frame_refusal(handles: &Handles, id: Option<i32>) -> Option<Refusal>
    ensures { result ≡ spec.frame_refusal handles.now id }
{
    match id {
        None => None,
        Some(id) => frame_of(handles, id).err(),
    }
}
