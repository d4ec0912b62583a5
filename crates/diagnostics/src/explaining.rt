//! What is wrong with a line, in a few words.

ghost use Rattle.std.specs.Prelude.{◌≡◌};
ghost use Rattle.diagnostics.specs.Diagnoses as spec;

use assembler::AsmErrorKind;

/// What an error of this kind says, as `no line defines this label`.
pub fn explanation(kind: AsmErrorKind) -> &'static str
    ensures { result.now ≡ spec.explanation kind }
{
    match kind {
        AsmErrorKind::NotUtf8 => "a byte that is not UTF-8",
        AsmErrorKind::Syntax => "not labels and then one statement",
        AsmErrorKind::UnknownInstruction => "no such mnemonic or directive",
        AsmErrorKind::BadOperand => "too few operands, too many, or of another form",
        AsmErrorKind::OutOfRange =>
            "a number does not fit its place, an instruction is not at a multiple of 4, or a target is too far",
        AsmErrorKind::TwiceDefined => "an earlier label has this name",
        AsmErrorKind::Undefined => "no line defines this label",
        AsmErrorKind::TooLarge => "memory ends before this line",
        AsmErrorKind::NoMemory => "no memory",
    }
}
