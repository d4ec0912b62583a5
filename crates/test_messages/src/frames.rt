//! An unframer that is fed pieces and lends bodies, and the frame of a body.

use framing::{FrameError, Unframer, frame};
use std::alloc::Global;
use testing::{Fault, bytes_of, called, hexadecimal, parsed, shown};

/// What is played.
#[derive(Drop)]
pub(crate) struct Frames {
    unframer: Unframer,
}

impl Frames {
    /// An unframer that takes empty bodies alone.
    pub(crate) fn new(alloc: Global) -> Frames {
        Frames {
            unframer: Unframer::new(alloc, 0),
        }
    }

    /// Makes the call, and says what it answered.
    pub(crate) fn answer(&mut self, alloc: Global, arguments: &[&str]) -> Result<String, Fault> {
        match arguments {
            ["new", limit] => {
                self.unframer = Unframer::new(alloc, parsed(limit)?);
                shown(alloc, "ok")
            }
            ["feed", piece] => match self.unframer.feed(&bytes_of(alloc, piece)?) {
                Err(FrameError::NoMemory) => Err(Fault::NoMemoryInCall),
                fed => name_of(alloc, fed),
            },
            ["feed_once", piece] => name_of(alloc, self.unframer.feed(&bytes_of(alloc, piece)?)),
            ["turns", count, piece] => {
                let piece = bytes_of(alloc, piece)?;
                shown(alloc, turns(&mut self.unframer, parsed(count)?, &piece))
            }
            ["retract"] => {
                self.unframer.retract();
                shown(alloc, "ok")
            }
            ["peek"] => body_of(alloc, self.unframer.peek_body()),
            ["next"] => body_of(alloc, self.unframer.next_body()),
            ["frame", body] => hexadecimal(alloc, &called(frame(alloc, &bytes_of(alloc, body)?))?),
            ["fault", name] => shown(alloc, error_of(name)?),
            _ => Err(Fault::NoCommand),
        }
    }
}

/// Lends a body and feeds the piece, `count` times. It answers whether there was a body each time, and no
/// error.
fn turns(unframer: &mut Unframer, count: u32, piece: &[u8]) -> bool {
    for _ in 0..count {
        if unframer.next_body().is_none() || unframer.feed(piece).is_err() {
            return false;
        }
    }
    true
}

/// What `feed` answered.
fn name_of(alloc: Global, fed: Result<(), FrameError>) -> Result<String, Fault> {
    match fed {
        Ok(()) => shown(alloc, "ok"),
        Err(error) => Ok(format!(in alloc; "{error:?}")?),
    }
}

/// A body that is lent, or `none`.
fn body_of(alloc: Global, lent: Option<&[u8]>) -> Result<String, Fault> {
    match lent {
        Some(body) => hexadecimal(alloc, body),
        None => shown(alloc, "none"),
    }
}

/// The error of this name.
fn error_of(name: &str) -> Result<FrameError, Fault> {
    match name {
        "Header" => Ok(FrameError::Header),
        "NoLength" => Ok(FrameError::NoLength),
        "TwoLengths" => Ok(FrameError::TwoLengths),
        "BadLength" => Ok(FrameError::BadLength),
        "TooLong" => Ok(FrameError::TooLong),
        "HeaderTooLong" => Ok(FrameError::HeaderTooLong),
        "NoMemory" => Ok(FrameError::NoMemory),
        _ => Err(Fault::NoCommand),
    }
}
