//! The first line of a text, and what follows a word.
ghost use Rattle.std.specs.Prelude.{◌≡◌, ◌==◌, ◌<◌, ◌+◌, option_copied, length, take, drop};
ghost use Rattle.std.specs.List.{position};
ghost use Rattle.std.specs.Str.Lines.{strip_carriage_return};
ghost use Rattle.scripts.specs.Lines.{after};
ghost use Rattle.scripts.specs.Private.Steps.{first_line, rest_of_lines};

/// The first line of a text without its end, and what comes after it.
pub(crate) fn first_line(text: &[u8]) -> (&[u8], &[u8])
    ensures line { result.0.now ≡ first_line text.now }
    ensures rest { result.1.now ≡ rest_of_lines text.now }
{
    match end_of_line(text) {
        Some(end) => divided(text, end),
        None => (text, b""),
    }
}

/// A line without its end, and what comes after it, by where its line feed is.
pub(crate) fn divided(text: &[u8], end: usize) -> (&[u8], &[u8])
    requires { end < length text.now }
    ensures line { result.0.now ≡ strip_carriage_return (take end text.now) }
    ensures rest { result.1.now ≡ drop (end + 1) text.now }
{
    (without_return(&text[..end]), &text[end + 1..])
}

/// Where the first line feed is.
pub(crate) fn end_of_line(text: &[u8]) -> Option<usize>
    ensures { result ≡ position (λ b. b == 10) text.now }
{
    text.iter().position(|b| *b == b'\n')
}

// A line without the carriage return at its end, if it has one.
fn without_return(line: &[u8]) -> &[u8]
    ensures { result.now ≡ strip_carriage_return line.now }
{
    let count = line.len();
    if count > 0 && line[count - 1] == b'\r' {
        &line[..count - 1]
    } else {
        line
    }
}

/// What follows a word, if a line begins with it.
pub(crate) fn after<'a>(word: &[u8], line: &'a [u8]) -> Option<&'a [u8]>
    ensures { option_copied result ≡ after word.now line.now }
{
    let count = word.len();
    if line.len() >= count && &line[..count] == word {
        Some(&line[count..])
    } else {
        None
    }
}
