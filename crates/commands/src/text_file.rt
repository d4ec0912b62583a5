//! The text of assembly in a file.

ghost use Rattle.std.specs.Prelude.{◌≤◌, IfOk, vec_len};

use assembler::TEXT_LIMIT;
use std::fs::File;
use std::io;
use std::io::Read;

/// Why there is no text.
pub(crate) enum NoText {
    /// The file can't be read, or is too long.
    Unreadable,
    /// No memory was left.
    NoMemory,
}

/// What a file holds, at most as many bytes as a text may have. A FIFO is read until it ends.
pub(crate) fn text_in(rt: &HostRuntime, file: &str) -> Result<Vec<u8>, NoText>
    ensures { IfOk result (λ text. vec_len text ≤ 1048576) }
{
    match read_some(rt, file) {
        Ok(text) if text.len() > TEXT_LIMIT => Err(NoText::Unreadable),
        Ok(text) => Ok(text),
        Err(error) => Err(unread(&error)),
    }
}

// A file's bytes, up to one more than a text may have.
fn read_some(rt: &HostRuntime, file: &str) -> io::Result<Vec<u8>> {
    let mut bytes = Vec::new(rt.alloc());
    let mut file = File::open(rt, file)?.take(TEXT_LIMIT as u64 + 1);
    file.read_to_end(&mut bytes)?;
    Ok(bytes)
}

fn unread(error: &io::Error) -> NoText {
    match error.kind() {
        io::ErrorKind::OutOfMemory => NoText::NoMemory,
        _ => NoText::Unreadable,
    }
}
