//! How many instructions may run, and how much may be printed, as the command line says.
ghost use Rattle.std.specs.Prelude.{◌≡◌, MatchResult, Some, None};
ghost use Rattle.std.specs.Option.{option_map};
ghost use Rattle.options.specs.Limits.{limit_for};

use numerals::numeral;

/// The limit that is asked for: the number that the text writes, in decimal digits, from 0 to 4,294,967,295; `None`: none is asked for.
/// `Err`: the text, which asks for nothing.
pub(crate) fn limit_for<'a>(asked: Option<&'a str>) -> Result<Option<u32>, &'a str>
    ensures { MatchResult result
        (λ limit. limit_for (option_map (λ t. t.now) asked.entry) ≡ Some limit)
        (λ text. limit_for (option_map (λ t. t.now) asked.entry) ≡ None) }
{
    match asked {
        None => Ok(None),
        Some(text) => match numeral(10, text.as_bytes()) {
            Ok(limit) => Ok(Some(limit)),
            Err(_) => Err(text),
        },
    }
}
