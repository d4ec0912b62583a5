//! How much memory a machine gets, as the command line says.
ghost use Rattle.std.specs.Prelude.{◌≡◌, MatchResult, Some, None};
ghost use Rattle.std.specs.Option.{option_map};
ghost use Rattle.options.specs.Memory.{Answers, is_offered, kib_for, kib_in};

use numerals::numeral;

/// The KiB of memory that a machine gets where none are asked for: 1 MiB.
pub const DEFAULT_MEMORY: u32 = 1_024;

/// The KiB that are asked for: those that the text writes, or the default where there is none. `Err`: the
/// text, which asks for nothing.
pub(crate) fn memory_for<'a>(asked: Option<&'a str>) -> Result<u32, &'a str>
    ensures { MatchResult result
        (λ kib. kib_for (option_map (λ t. t.now) asked.entry) ≡ Some kib)
        (λ text. kib_for (option_map (λ t. t.now) asked.entry) ≡ None) }
{
    match asked {
        None => Ok(DEFAULT_MEMORY),
        Some(text) => memory_in(text).ok_or(text),
    }
}

/// The KiB that a text asks for: decimal digits, one or more and nothing else, that write a multiple of 4
/// from 4 to 16,384; leading zeros are fine. `None`: any other text.
#[tactic(auto, using(crate::proofs::Asking::answers_some, crate::proofs::Asking::answers_none, crate::proofs::Asking::answers_err))]
pub(crate) fn memory_in(text: &str) -> Option<u32>
    ensures value { result ≡ kib_in text.now }
    ensures answers { Answers text.now result }
{
    match numeral(10, text.as_bytes()) {
        Ok(kib) if is_offered(kib) => Some(kib),
        _ => None,
    }
}

// Whether this many KiB may be asked for.
fn is_offered(kib: u32) -> bool
    ensures { result ≡ is_offered kib }
{
    kib % 4 == 0 && kib >= 4 && kib <= 16_384
}
