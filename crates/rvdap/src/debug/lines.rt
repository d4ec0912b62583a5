//! How a line is cut out of what comes.
ghost use Rattle.std.specs.Prelude.{◌≡◌, IfSome, OnOk, option_map, take};
ghost use Rattle.std.specs.Io.BufRead.{ends_with_byte, strip_last, take_through};
ghost use Rattle.rvdap.specs.Lines as spec;

use std::io;
use std::io::{BufRead, Read};

/// The most bytes of a line.
pub(crate) const LONGEST_LINE: usize = 65_536;

// As many bytes are taken of a line at once: those of the longest one, and its end.
const MOST_TAKEN: usize = 65_538;

/// Takes the next line: `came` is what came of it, with its end, and empty where the input has ended. What is left of a line that is too
/// long is passed over.
pub(crate) fn take_line<R: BufRead>(reader: &mut R, came: &mut Vec<u8>) -> io::Result<()>
    ensures { OnOk result (IfSome (R.remaining reader.old)
        (λ xs. spec.line_of came.new.items ≡ spec.line_of (take_through 10 xs))) }
{
    take_some(reader, came)?;
    if is_cut_off(came.as_slice()) {
        reader.skip_until(b'\n')?;
    }
    Ok(())
}

// Takes as much of a line as is taken at once.
fn take_some<R: BufRead>(reader: &mut R, came: &mut Vec<u8>) -> io::Result<()>
    ensures { OnOk result (IfSome (R.remaining reader.old)
        (λ xs. came.new.items ≡ take_through 10 (take spec.most_taken xs))) }
{
    came.clear();
    reader.take(MOST_TAKEN as u64).read_until(b'\n', came)?;
    Ok(())
}

/// The line of which this came. `None`: it is too long.
pub(crate) fn line_of(came: &[u8]) -> Option<&[u8]>
    ensures { option_map (λ line. line.now) result ≡ spec.line_of came.now }
{
    let line = without_end(came);
    if line.len() <= LONGEST_LINE {
        Some(line)
    } else {
        None
    }
}

// Whether there may be more of a line than was taken.
fn is_cut_off(came: &[u8]) -> bool
    ensures { result ≡ spec.is_cut_off came.now }
{
    came.len() == MOST_TAKEN && !ends_with(came, b'\n')
}

fn without_end(came: &[u8]) -> &[u8]
    ensures { result.now ≡ spec.without_end came.now }
{
    if ends_with(came, b'\n') {
        without_last(without_last(came, b'\n'), b'\r')
    } else {
        came
    }
}

// A text without its last byte, if it is this one.
fn without_last(text: &[u8], byte: u8) -> &[u8]
    ensures { result.now ≡ strip_last byte text.now }
{
    if ends_with(text, byte) {
        &text[..text.len() - 1]
    } else {
        text
    }
}

fn ends_with(text: &[u8], byte: u8) -> bool
    ensures { result ≡ ends_with_byte byte text.now }
{
    !text.is_empty() && text[text.len() - 1] == byte
}
