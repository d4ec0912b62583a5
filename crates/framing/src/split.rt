//! Bytes parted into whole frames and a rest.

ghost use Rattle.std.specs.Prelude.{◌≡◌};
ghost use Rattle.framing.specs.Private.Parts.{Parts};
ghost use Rattle.framing.specs.Reading.{start_of};

use crate::start::Start;

/// The part of the next frame that has come.
#[derive(Clone, Copy)]
pub(crate) struct NextFrame {
    /// How it starts.
    pub start: Start,
    /// How many bytes have come.
    pub size: usize,
}

/// The part of the next frame that has come, after the whole frames that some bytes begin with. The
/// first frame has this start.
pub(crate) fn split(limit: u32, bytes: &[u8], start: Start) -> NextFrame
    requires { start ≡ start_of limit bytes.now }
    ensures { Parts limit bytes.now result.start result.size }
{
    let mut rest = bytes;
    let mut start = start;
    while let Some((_, after)) = start.parts(rest) {
        rest = after;
        start = Start::of(limit, rest, 0);
    }
    NextFrame {
        start,
        size: rest.len(),
    }
}
