//! The colours of what is shown.
ghost use Rattle.std.specs.Prelude.{◌≡◌, ◌++◌, OnOk, option_map, string_bytes};
ghost use Rattle.rvdap.specs.Colours as spec;

use crate::debug::origins::Peer;
use console::Tone;
use std::alloc::AllocError;

/// Whether there are colours.
#[derive(Clone, Copy, Debug, PartialEq, Eq)]
pub(crate) enum Colours {
    /// There are.
    Shown,
    /// There are none.
    Absent,
}

/// What ends a text in a colour.
const CLOSING: &str = "\x1b[0m";

/// Whether there are colours, by what standard output leads to and whether they are refused.
pub(crate) fn colours_of(output: Peer, refused: bool) -> Colours
    ensures { result ≡ spec.colours_of output refused }
{
    match (output, refused) {
        (Peer::Terminal, false) => Colours::Shown,
        (Peer::Terminal, true) | (Peer::Other, _) => Colours::Absent,
    }
}

// What begins a text of a tone, where it is not plain.
fn opening_of(tone: Tone) -> Option<&'static str>
    ensures { option_map (λ opening. opening.now) result ≡ spec.opening_of tone }
{
    match tone {
        Tone::Plain | Tone::Fact => None,
        Tone::Program => Some("\x1b[36m"),
        Tone::Refusal => Some("\x1b[31m"),
        Tone::Here => Some("\x1b[1m"),
    }
}

/// Adds words of a tone to a text.
pub(crate) fn push_coloured(
    text: &mut String,
    colours: Colours,
    tone: Tone,
    words: &str,
) -> Result<(), AllocError>
    ensures { OnOk result (string_bytes text.new ≡ string_bytes text.old
        ++ spec.coloured colours tone words.now) }
{
    match colours {
        Colours::Shown => push_marked(text, opening_of(tone), words),
        Colours::Absent => text.push_str(words),
    }
}

fn push_marked(text: &mut String, opening: Option<&str>, words: &str) -> Result<(), AllocError>
    ensures { OnOk result (string_bytes text.new ≡ string_bytes text.old
        ++ spec.marked (option_map (λ o. o.now) opening.entry) words.now) }
{
    match opening {
        None => text.push_str(words),
        Some(opening) => {
            text.push_str(opening)?;
            text.push_str(words)?;
            text.push_str(CLOSING)
        }
    }
}
