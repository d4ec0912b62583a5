//! How the first frame in some bytes starts.

ghost use Rattle.std.specs.Prelude.{◌≡◌, ◌≤◌, length, take};
ghost use Rattle.std.specs.Option.{option_map};
ghost use Rattle.framing.specs.Private.Lines.{EndsPast};
ghost use Rattle.framing.specs.Private.Parts.{parts_of};
ghost use Rattle.framing.specs.Reading.{start_of};

use crate::FrameError;
use crate::header::{HEADER_LIMIT, content_length, header_size};

/// What the first bytes of a frame say of it.
#[derive(Clone, Copy)]
pub(crate) enum Start {
    /// The header part is not whole.
    Waits,
    /// There is no frame.
    Breaks(FrameError),
    /// The header part is whole.
    Begins {
        /// How many bytes the header part has, with the empty line that ends it.
        header: usize,
        /// How many bytes the content part has.
        content: usize,
    },
}

impl Start {
    /// How the first frame in some bytes starts. The end of the header part is not among the
    /// bytes that were searched for it before.
    #[tactic(auto, unfolding(crate::specs::Reading::start_of))]
    pub(crate) fn of(limit: u32, bytes: &[u8], searched: usize) -> Start
        requires { EndsPast searched bytes.now }
        ensures { result ≡ start_of limit bytes.now }
    {
        match header_size(bytes, searched) {
            Some(header) => match content_length(limit, &bytes[..header - 4]) {
                Ok(content) => Start::Begins { header, content },
                Err(fault) => Start::Breaks(fault),
            },
            None if bytes.len() < HEADER_LIMIT => Start::Waits,
            None => Start::Breaks(FrameError::HeaderTooLong),
        }
    }

    /// How the frame starts now that more bytes have come. It started so with the first of them.
    pub(crate) fn with_more(self, limit: u32, bytes: &[u8], before: usize) -> Start
        requires within { before ≤ length bytes.now }
        requires started { self ≡ start_of limit (take before bytes.now) }
        ensures { result ≡ start_of limit bytes.now }
    {
        match self {
            Start::Waits => Start::of(limit, bytes, before),
            Start::Breaks(_) | Start::Begins { .. } => self,
        }
    }

    /// The content part of the frame with this start, and the bytes after it. `None`: the frame is not
    /// whole.
    pub(crate) fn parts(self, bytes: &[u8]) -> Option<(&[u8], &[u8])>
        ensures parts { option_map (λ p. (p.0.now, p.1.now)) result ≡ parts_of self bytes.now }
    {
        match self {
            Start::Begins { header, content }
                if header <= bytes.len() && content <= bytes.len() - header => {
                let end = header + content;
                Some((&bytes[header..end], &bytes[end..]))
            }
            _ => None,
        }
    }
}
