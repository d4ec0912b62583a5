//! Where something is.
ghost use Rattle.std.specs.Prelude.{◌≡◌};
ghost use Rattle.prompt.specs.Arguments as spec;

use crate::error::{Argument, LineError, LineFault};
use crate::part::Part;
use crate::text::{Text, number_in, text_in, wrong};

/// Where something is.
#[derive(Drop)]
pub enum Place<'a> {
    /// At a line of the source, from 1.
    Line(u32),
    /// At a label.
    Label(Text<'a>),
    /// At the address that is the value of an expression.
    Address(Text<'a>),
}

/// The place that a part is: decimal digits, `*` and an expression, or another word.
pub(crate) fn place_in<'a>(part: &Part<'a>) -> Result<Place<'a>, LineError>
    ensures { result ≡ spec.place_in part.now }
{
    match part.text() {
        [b'*', ..] => address_in(&part.suffix(1).bare()),
        [b'0'..=b'9', ..] => Ok(Place::Line(number_in(part)?)),
        _ => label_in(part),
    }
}

fn address_in<'a>(part: &Part<'a>) -> Result<Place<'a>, LineError>
    ensures { result ≡ spec.address_in part.now }
{
    Ok(Place::Address(text_in(Argument::Expression, part)?))
}

fn label_in<'a>(part: &Part<'a>) -> Result<Place<'a>, LineError>
    ensures { result ≡ spec.label_in part.now }
{
    let (word, rest) = part.first_word();
    if !rest.is_empty() {
        return Err(wrong(LineFault::Unexpected, &rest));
    }
    Ok(Place::Label(text_in(Argument::Place, &word)?))
}
