//! The messages of a stream, each with its number and its place.

use framing::{FrameError, Unframer};
use std::alloc::Global;

/// A stream, which is taken byte by byte, so that it is known where each message begins.
#[derive(Drop)]
pub(crate) struct Stream {
    unframer: Unframer,
    place: Place,
    came: u64,
    is_whole: bool,
}

/// A message's place in its stream.
#[derive(Clone, Copy)]
pub(crate) struct Place {
    /// Its number: the first has 1.
    pub number: u64,
    /// How many bytes come before it.
    pub byte: u64,
}

impl Stream {
    /// A stream on which nothing came yet, whose bodies have at most `longest` bytes.
    pub(crate) fn new(alloc: Global, longest: u32) -> Stream {
        Stream {
            unframer: Unframer::new(alloc, longest),
            place: Place { number: 1, byte: 0 },
            came: 0,
            is_whole: false,
        }
    }

    /// Takes a byte, and lends the body of the message that is whole with it, if one is. An error is the fault of the stream, or no memory
    /// was left.
    pub(crate) fn take(&mut self, byte: u8) -> Result<Option<&[u8]>, FrameError> {
        if self.is_whole {
            self.place = Place {
                number: self.place.number.saturating_add(1),
                byte: self.came,
            };
        }
        self.came = self.came.saturating_add(1);
        self.unframer.feed(&[byte])?;
        self.is_whole = self.unframer.peek_body().is_some();
        Ok(self.unframer.next_body())
    }

    /// Where the message is that the last byte belongs to.
    pub(crate) fn place(&self) -> Place {
        self.place
    }
}
