//! Texts of a line, and numbers.
ghost use Rattle.std.specs.Prelude.{◌≡◌};
ghost use Rattle.std.specs.Option.{option_copied};
ghost use Rattle.prompt.specs.Arguments as spec;

use crate::error::{Argument, LineError, LineFault};
use crate::part::Part;
use numerals::numeral;
use std::marker::Model;
use std::str;

/// A text of a line, without blanks round it and with one byte or more, and the column where it begins.
#[derive(Drop)]
pub struct Text<'a> {
    text: &'a str,
    column: usize,
}

impl<'a> Model for Text<'a> {
    ghost use Rattle.prompt.specs.Parts.{Placed};

    ghost Value = { Placed };

    ghost view = { λ t. record { text = t.text.now; column = t.column } };
}

impl<'a> Text<'a> {
    /// The text.
    pub fn as_str(&self) -> &'a str
        ensures { result.now ≡ self.now.text }
    {
        self.text
    }

    /// The column where it begins, in bytes from 1.
    pub fn column(&self) -> usize
        ensures { result ≡ self.now.column }
    {
        self.column
    }
}

/// The text that a part is, where this argument belongs.
pub(crate) fn text_in<'a>(argument: Argument, part: &Part<'a>) -> Result<Text<'a>, LineError>
    ensures { result ≡ spec.text_in argument part.now }
{
    if part.is_empty() {
        return Err(missing(argument, part));
    }
    match utf8_in(part.text()) {
        Some(text) => Ok(Text {
            text,
            column: part.column(),
        }),
        None => Err(wrong(LineFault::NotUtf8, part)),
    }
}

/// Bytes as a text, if they are UTF-8.
pub(crate) fn utf8_in(bytes: &[u8]) -> Option<&str>
    ensures { option_copied result ≡ spec.utf8_in bytes.now }
{
    match str::from_utf8(bytes) {
        Ok(text) => Some(text),
        Err(_) => None,
    }
}

/// The number that a part is.
pub(crate) fn number_in(part: &Part<'_>) -> Result<u32, LineError>
    ensures { result ≡ spec.number_in part.now }
{
    if part.is_empty() {
        return Err(missing(Argument::Number, part));
    }
    match numeral(10, part.text()) {
        Ok(number) => Ok(number),
        Err(_) => Err(wrong(LineFault::NotANumber, part)),
    }
}

/// An argument is missing after this part.
pub(crate) fn missing(argument: Argument, part: &Part<'_>) -> LineError
    ensures { result ≡ spec.missing argument part.now }
{
    LineError {
        fault: LineFault::Missing(argument),
        column: part.end(),
    }
}

/// What is wrong begins where this part does.
pub(crate) fn wrong(fault: LineFault, part: &Part<'_>) -> LineError
    ensures { result ≡ spec.wrong fault part.now }
{
    LineError {
        fault,
        column: part.column(),
    }
}
