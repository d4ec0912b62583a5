//! Texts without the spaces round them.

ghost use Rattle.std.specs.Prelude.{◌≡◌, option_copied};
ghost use Rattle.answers.specs.Spaces.{said, trimmed, unless_empty, without_leading_spaces, without_trailing_spaces};

use protocol::Text;

/// What an argument says without the spaces (U+0020) round it; `None` where it is absent, or nothing is left.
pub(crate) fn said(argument: &Option<Text>) -> Option<&str>
    ensures { option_copied result ≡ said argument.now }
{
    match argument {
        None => None,
        Some(text) => unless_empty(trimmed(text.as_str())),
    }
}

/// The text; `None` where it is empty.
pub(crate) fn unless_empty(text: &str) -> Option<&str>
    ensures { option_copied result ≡ unless_empty text.now }
{
    if text.is_empty() { None } else { Some(text) }
}

/// The text without the spaces (U+0020) round it.
pub(crate) fn trimmed(text: &str) -> &str
    ensures { result.now ≡ trimmed text.now }
{
    without_trailing_spaces(without_leading_spaces(text))
}

fn without_leading_spaces(text: &str) -> &str
    ensures { result.now ≡ without_leading_spaces text.now }
{
    let mut left = text;
    while let Some(rest) = left.strip_prefix(' ') {
        left = rest;
    }
    left
}

fn without_trailing_spaces(text: &str) -> &str
    ensures { result.now ≡ without_trailing_spaces text.now }
{
    let mut left = text;
    while let Some(rest) = left.strip_suffix(' ') {
        left = rest;
    }
    left
}
