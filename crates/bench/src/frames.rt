//! Feeds frames to an unframer in pieces, and reads them back: what `bench/run` times.
//!
//! Words: how many frames, the bytes of each body, the bytes of each piece.

use crate::End;
use framing::{FrameError, Unframer, frame};
use std::alloc::{AllocError, Global};
use std::{cmp, io};

const LIMIT: u32 = 1_048_576;

/// What is measured.
#[derive(Clone, Copy)]
struct Load {
    frames: u32,
    body: usize,
    piece: usize,
}

/// Does what the words say.
pub(crate) fn measure(rt: &HostRuntime, words: &[String]) -> io::Result<End> {
    let Some(load) = load_of(words) else {
        return Ok(End::Usage);
    };
    let stream = stream_of(rt.alloc(), load)?;
    match count_bodies(rt.alloc(), &stream, load.piece) {
        Ok(count) => println!(rt; "{count} bodies")?,
        Err(error) => println!(rt; "{error}")?,
    }
    Ok(End::Done)
}

fn load_of(words: &[String]) -> Option<Load> {
    let [frames, body, piece] = words else {
        return None;
    };
    Some(Load {
        frames: frames.as_str().parse().ok()?,
        body: body.as_str().parse().ok()?,
        piece: piece.as_str().parse().ok()?,
    })
}

fn stream_of(alloc: Global, load: Load) -> Result<Vec<u8>, AllocError> {
    let body = vec![in alloc; b'x'; load.body]?;
    let framed = frame(alloc, &body)?;
    let mut stream = Vec::new(alloc);
    for _ in 0..load.frames {
        stream.extend_from_slice(&framed)?;
    }
    Ok(stream)
}

fn count_bodies(alloc: Global, stream: &[u8], piece: usize) -> Result<u64, FrameError> {
    let mut unframer = Unframer::new(alloc, LIMIT);
    for part in stream.chunks(cmp::max(piece, 1)) {
        unframer.feed(part)?;
    }
    for count in 0..u64::MAX {
        if unframer.next_body().is_none() {
            return Ok(count);
        }
    }
    Ok(u64::MAX)
}
