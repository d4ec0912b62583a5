//! A body in its frame.

ghost use Rattle.std.specs.Prelude.{◌≡◌, IfOk};
ghost use Rattle.framing.specs.Frames.{minimal_frame};

use std::alloc::{AllocError, Global};

/// The smallest frame of a body: `Content-Length`, the body's length in bytes as decimal digits, an
/// empty line, and the body (base protocol, "Header Part" and "Content Part"). It fails only where no
/// memory was left.
pub fn frame(alloc: Global, body: &[u8]) -> Result<Vec<u8>, AllocError>
    ensures { IfOk result (λ frame. frame.items ≡ minimal_frame body.now) }
{
    let length = body.len().to_string(alloc)?;
    // The field's name, colon and blank have 16 bytes, and the ends of its line and of the header part 4.
    let header = length.len().saturating_add(20);
    let mut frame = Vec::with_capacity(alloc, body.len().saturating_add(header))?;
    frame.extend_from_slice(b"Content-Length: ")?;
    frame.extend_from_slice(length.as_bytes())?;
    frame.extend_from_slice(b"\r\n\r\n")?;
    frame.extend_from_slice(body)?;
    Ok(frame)
}
