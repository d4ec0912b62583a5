//! The blanks of a text: spaces and tabs.
ghost use Rattle.std.specs.Prelude.{◌≡◌};
ghost use Rattle.byte_strings.specs.Blanks.{is_blank, trimmed, without_leading_blanks, without_trailing_blanks};

/// Whether a byte is a space or a tab.
#[inline]
pub fn is_blank(byte: u8) -> bool
    ensures { result ≡ is_blank byte }
{
    byte == b' ' || byte == b'\t'
}

/// The text without the blanks round it.
pub fn trimmed(text: &[u8]) -> &[u8]
    ensures { result.now ≡ trimmed text.now }
{
    without_trailing_blanks(without_leading_blanks(text))
}

/// The text without the blanks before it.
pub fn without_leading_blanks(text: &[u8]) -> &[u8]
    ensures { result.now ≡ without_leading_blanks text.now }
{
    for i in 0..text.len() {
        if !is_blank(text[i]) {
            return &text[i..];
        }
    }
    b""
}

fn without_trailing_blanks(text: &[u8]) -> &[u8]
    ensures { result.now ≡ without_trailing_blanks text.now }
{
    let mut end = text.len();
    while end > 0 && is_blank(text[end - 1]) {
        end -= 1;
    }
    &text[..end]
}
