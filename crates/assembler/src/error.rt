//! Why a text has no image.
ghost use Rattle.std.specs.Prelude.{◌≡◌};
ghost use Rattle.assembler.specs.Errors as spec;
ghost use Rattle.assembler.specs.Private.Steps as steps;

use statements::LineError;
use thiserror::Error;

/// What is wrong with a line.
#[derive(Clone, Copy, Debug, PartialEq, Eq, Error)]
pub enum AsmErrorKind {
    /// The text is no UTF-8; the line is that of the first byte that is none.
    #[error("NotUtf8")]
    NotUtf8,
    /// The line is no labels followed by a name and operands.
    #[error("Syntax")]
    Syntax,
    /// Its name is no mnemonic of an instruction and no directive's.
    #[error("UnknownInstruction")]
    UnknownInstruction,
    /// Its mnemonic or directive takes operands of another number or form.
    #[error("BadOperand")]
    BadOperand,
    /// A number, a distance or an address in it is outside its range.
    #[error("OutOfRange")]
    OutOfRange,
    /// It defines a label that is defined before.
    #[error("TwiceDefined")]
    TwiceDefined,
    /// It names a label that no line defines.
    #[error("Undefined")]
    Undefined,
    /// It ends past the end of memory; or the text is too long, and then the line is 0.
    #[error("TooLarge")]
    TooLarge,
    /// No memory was left; the line is 0.
    #[error("NoMemory")]
    NoMemory,
}

impl AsmErrorKind {
    /// Its name, as `OutOfRange`.
    pub fn name(self) -> &'static str
        ensures { result.now ≡ spec.kind_name self }
    {
        match self {
            AsmErrorKind::NotUtf8 => "NotUtf8",
            AsmErrorKind::Syntax => "Syntax",
            AsmErrorKind::UnknownInstruction => "UnknownInstruction",
            AsmErrorKind::BadOperand => "BadOperand",
            AsmErrorKind::OutOfRange => "OutOfRange",
            AsmErrorKind::TwiceDefined => "TwiceDefined",
            AsmErrorKind::Undefined => "Undefined",
            AsmErrorKind::TooLarge => "TooLarge",
            AsmErrorKind::NoMemory => "NoMemory",
        }
    }
}

/// Why a text has no image: the line, counted from 1, and what is wrong with it.
#[derive(Clone, Copy, Debug, PartialEq, Eq, Error)]
#[error("line {line}: {kind}")]
pub struct AsmError {
    /// The line, counted from 1; 0 where it is the text as a whole, or no memory was left.
    pub line: u32,
    /// What is wrong with it.
    pub kind: AsmErrorKind,
}

impl AsmError {
    /// No memory was left.
    pub(crate) fn no_memory() -> AsmError
        ensures { result ≡ spec.no_memory }
    {
        AsmError {
            line: 0,
            kind: AsmErrorKind::NoMemory,
        }
    }

    /// What is wrong with a line, or that no memory was left.
    pub(crate) fn reported_at(line: u32, kind: AsmErrorKind) -> AsmError
        ensures { result ≡ steps.reported_at line kind }
    {
        match kind {
            AsmErrorKind::NoMemory => AsmError::no_memory(),
            _ => AsmError { line, kind },
        }
    }

    /// What is wrong with a line before any address is known.
    pub(crate) fn of_line(line: u32, error: LineError) -> AsmError
        ensures { result ≡ spec.of_line line error }
    {
        match error {
            LineError::Syntax => AsmError {
                line,
                kind: AsmErrorKind::Syntax,
            },
            LineError::UnknownInstruction => AsmError {
                line,
                kind: AsmErrorKind::UnknownInstruction,
            },
            LineError::BadOperand => AsmError {
                line,
                kind: AsmErrorKind::BadOperand,
            },
            LineError::OutOfRange => AsmError {
                line,
                kind: AsmErrorKind::OutOfRange,
            },
            LineError::NoMemory => AsmError::no_memory(),
        }
    }
}
