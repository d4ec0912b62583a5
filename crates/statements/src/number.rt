//! Numbers in a text.
ghost use Rattle.std.specs.Prelude.{◌≡◌, ◌<◌, ◌+◌, ◌%◌, ◌^◌, IfOk, ◌≤◌};
ghost use Rattle.statements.specs.Numbers.{bits_in, bits_within, constant_in, magnitude, number_in, signed};

use crate::error::LineError;
use crate::spelling::stripped;
use numerals::NumeralError;

/// A number, by its sign and magnitude.
#[derive(Clone, Copy)]
pub(crate) struct Number {
    /// Whether a minus stands before it.
    pub negative: bool,
    /// How far from 0 it is.
    pub magnitude: u32,
}

/// The 32 bits of a number that is no more below 0 and no more above it than this.
pub(crate) fn bits_in(below: u32, above: u32, text: &[u8]) -> Result<u32, LineError>
    ensures value { result ≡ bits_in below above text.now }
    ensures range { IfOk result
        (λ bits. below + above < 2 ^ 32 → (bits + below) % 2 ^ 32 ≤ below + above) }
{
    match number_in(text) {
        Ok(number) => bits_within(below, above, number),
        Err(error) => Err(error),
    }
}

/// The 32 bits of a number from -2,147,483,648 to 4,294,967,295.
pub(crate) fn constant_in(text: &[u8]) -> Result<u32, LineError>
    ensures { result ≡ constant_in text.now }
{
    bits_in(2_147_483_648, 4_294_967_295, text)
}

fn bits_within(below: u32, above: u32, number: Number) -> Result<u32, LineError>
    ensures value { result ≡ bits_within below above number }
    ensures range { IfOk result
        (λ bits. below + above < 2 ^ 32 → (bits + below) % 2 ^ 32 ≤ below + above) }
{
    let most = if number.negative { below } else { above };
    if number.magnitude > most {
        return Err(LineError::OutOfRange);
    }
    if number.negative {
        Ok(number.magnitude.wrapping_neg())
    } else {
        Ok(number.magnitude)
    }
}

fn number_in(text: &[u8]) -> Result<Number, LineError>
    ensures { result ≡ number_in text.now }
{
    match stripped(b"-", text) {
        Some(digits) => signed(true, magnitude(digits)),
        None => signed(false, magnitude(text)),
    }
}

fn signed(negative: bool, magnitude: Result<u32, LineError>) -> Result<Number, LineError>
    ensures { result ≡ signed negative magnitude }
{
    match magnitude {
        Ok(magnitude) => Ok(Number {
            negative,
            magnitude,
        }),
        Err(error) => Err(error),
    }
}

fn magnitude(text: &[u8]) -> Result<u32, LineError>
    ensures { result ≡ magnitude text.now }
{
    match numerals::magnitude(text) {
        Ok(magnitude) => Ok(magnitude),
        Err(NumeralError::Malformed) => Err(LineError::BadOperand),
        Err(NumeralError::TooLarge) => Err(LineError::OutOfRange),
    }
}
