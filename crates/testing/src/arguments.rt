//! The arguments of commands, and answers.
ghost use Rattle.std.specs.Prelude.{◌≡◌, IfErr, IfOk, string_bytes};
ghost use Rattle.hex.specs.Hex.{decode_of, encode_lower};

use crate::Fault;
use std::alloc::{AllocError, Global};
use std::fmt::Display;
use std::str::FromStr;

/// The bytes that an argument gives as pairs of hexadecimal digits.
pub fn bytes_of(alloc: Global, argument: &str) -> Result<Vec<u8>, Fault>
    ensures { IfOk result (λ bytes. decode_of argument.now ≡ Ok bytes.items) }
{
    Ok(hex::decode(alloc, argument)?)
}

/// The value that an argument gives: a number in decimal digits, or `true` or `false`.
pub fn parsed<T: FromStr>(argument: &str) -> Result<T, Fault>
where
    T::Err: Drop,
{
    argument.parse::<T>().map_err(|_| Fault::NoCommand)
}

/// The answer that bytes are, as pairs of hexadecimal digits in lower case.
pub fn hexadecimal(alloc: Global, bytes: &[u8]) -> Result<String, Fault>
    ensures { IfOk result (λ text. string_bytes text ≡ encode_lower bytes.now) }
{
    Ok(hex::encode(alloc, bytes)?)
}

/// The answer that a value is, as it is displayed.
pub fn shown<D: Display + Drop>(alloc: Global, value: D) -> Result<String, Fault> {
    Ok(value.to_string(alloc)?)
}

/// What a call answered that fails only where no memory was left.
pub fn called<T: Drop>(answer: Result<T, AllocError>) -> Result<T, Fault>
    ensures ok { IfOk result (λ value. answer ≡ Ok value) }
    ensures err { IfErr result (λ fault. fault ≡ Fault.NoMemoryInCall) }
{
    match answer {
        Ok(value) => Ok(value),
        Err(_) => Err(Fault::NoMemoryInCall),
    }
}
