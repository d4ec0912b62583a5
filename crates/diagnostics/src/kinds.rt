//! What an operand may have to be. The reader of lines decides whether a text is that: each kind has a line that is right but for its
//! last operand, which is left to say.

ghost use Rattle.std.specs.Prelude.{◌≡◌, ◌++◌, IfOk, OnOk, string_bytes};
ghost use Rattle.diagnostics.specs.Kinds as spec;

use statements::{LineError, read_line};
use std::alloc::{AllocError, Global};

/// What an operand has to be.
#[derive(Clone, Copy, PartialEq, Eq)]
pub(crate) enum Kind {
    /// A register.
    Register,
    /// A number of 12 bits with a sign, or `%lo(label)`.
    Immediate,
    /// By how much a shift goes.
    Amount,
    /// The upper 20 bits of a number, or `%hi(label)`.
    Upper,
    /// The upper 20 bits of a number.
    UpperNumber,
    /// A number of 32 bits.
    Constant,
    /// `imm(reg)`.
    Access,
    /// A label.
    Label,
    /// A label, or an address.
    Target,
    /// An item of `.word`.
    Word,
    /// An item of `.half`.
    Half,
    /// An item of `.byte`.
    Byte,
    /// How many bytes `.space` puts.
    Size,
    /// To which power of 2 `.align` goes.
    Power,
    /// A set of accesses of `fence`.
    Set,
}

impl Kind {
    /// A line that lacks its last operand, which has to be of this kind.
    pub(crate) fn probe(self) -> &'static str
        ensures { result.now ≡ spec.probe self }
    {
        match self {
            Kind::Register => "jr ",
            Kind::Immediate => "addi a0, a0, ",
            Kind::Amount => "slli a0, a0, ",
            Kind::Upper => "lui a0, ",
            Kind::UpperNumber => "auipc a0, ",
            Kind::Constant => "li a0, ",
            Kind::Access => "lw a0, ",
            Kind::Label => "call ",
            Kind::Target => "j ",
            Kind::Word => ".word ",
            Kind::Half => ".half ",
            Kind::Byte => ".byte ",
            Kind::Size => ".space ",
            Kind::Power => ".align ",
            Kind::Set => "fence iorw, ",
        }
    }

    /// What a text is not that is none of this kind.
    pub(crate) fn lack(self) -> &'static str {
        match self {
            Kind::Register => "not a register",
            Kind::Access => "not imm(reg), a number and then a register in brackets",
            Kind::Label | Kind::Target => "not a label",
            Kind::Word => "not a number and not a label",
            Kind::Set => "not letters of iorw in this order",
            _ => "not a number",
        }
    }

    /// Between which numbers one of this kind is.
    pub(crate) fn range(self) -> &'static str {
        match self {
            Kind::Immediate | Kind::Access => "-2048 to 2047",
            Kind::Amount => "0 to 31",
            Kind::Upper | Kind::UpperNumber => "0 to 1048575",
            Kind::Half => "-32768 to 65535",
            Kind::Byte => "-128 to 255",
            Kind::Size => "0 to 16777216",
            Kind::Power => "0 to 12",
            Kind::Target => "0 to 4294967295",
            _ => "-2147483648 to 4294967295",
        }
    }
}

/// What the reader has against a text as an operand of a kind. `Ok(None)`: nothing. `Err`: no memory was left.
pub(crate) fn refusal(
    alloc: Global,
    kind: Kind,
    text: &str,
) -> Result<Option<LineError>, AllocError>
    ensures { IfOk result (λ found. found ≡ spec.refusal kind text.now) }
{
    let mut line = String::from_str(alloc, kind.probe())?;
    line.push_str(text)?;
    match read_line(alloc, line.as_bytes()) {
        Ok(_) => Ok(None),
        Err(LineError::NoMemory) => Err(AllocError),
        Err(error) => Ok(Some(error)),
    }
}

/// Whether a text is an operand of a kind. `Err`: no memory was left.
pub(crate) fn is_of(alloc: Global, kind: Kind, text: &str) -> Result<bool, AllocError> {
    Ok(refusal(alloc, kind, text)?.is_none())
}
