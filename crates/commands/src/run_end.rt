//! How a program ended that was run: its status, and why and where it stopped.

ghost use Rattle.std.specs.Prelude.{◌≡◌, ◌≤◌, ◌^◌, option_map};
ghost use Rattle.commands.specs.Runs as spec;

use execution::{ExecutionEnd, Limits};
use rv32i::Cause;
use stepping::Reason;

/// The status where the text does not assemble.
pub(crate) const NOT_ASSEMBLED: u8 = 125;

/// How much a program may do: where that is not limited, more than any machine gets to, and more than any disk has room for.
pub(crate) fn limits_of(instructions: Option<u32>, bytes: Option<u32>) -> Limits
    ensures instructions { result.instructions ≡ spec.most instructions }
    ensures bytes { result.bytes ≡ spec.most bytes }
    ensures few { result.instructions ≤ 2 ^ 62 }
{
    Limits {
        instructions: most(instructions),
        bytes: most(bytes),
    }
}

fn most(limit: Option<u32>) -> u64
    ensures value { result ≡ spec.most limit }
    ensures few { result ≤ 2 ^ 62 }
{
    match limit {
        Some(limit) => u64::from(limit),
        None => 1 << 62,
    }
}

/// The status that says how a program ended.
pub(crate) fn status_of(end: ExecutionEnd) -> u8
    ensures { result ≡ spec.status_of end }
{
    match end {
        ExecutionEnd::Ended(code) => (code.cast_unsigned() % 256) as u8,
        ExecutionEnd::OutputLimit => 121,
        ExecutionEnd::Limit => 124,
        ExecutionEnd::Stopped(Reason::Exception(_)) => 123,
        ExecutionEnd::Stopped(_) => 122,
    }
}

/// Why a program stopped; `None`: it ended by itself.
pub(crate) fn reason_of(end: ExecutionEnd) -> Option<&'static str>
    ensures { option_map (λ text. text.now) result ≡ spec.reason_of end }
{
    match end {
        ExecutionEnd::Ended(_) => None,
        ExecutionEnd::OutputLimit => Some("output limit"),
        ExecutionEnd::Limit => Some("instruction limit"),
        ExecutionEnd::Stopped(Reason::Exception(cause)) => Some(cause.text()),
        ExecutionEnd::Stopped(_) => Some("ebreak"),
    }
}

/// Where the instruction is that stopped it, by where the machine stands: after an EBREAK or a call that prints, which retire.
pub(crate) fn place_of(end: ExecutionEnd, pc: u32) -> u32
    ensures { result ≡ spec.place_of end pc }
{
    match end {
        ExecutionEnd::Stopped(Reason::Ebreak) | ExecutionEnd::OutputLimit => pc.wrapping_sub(4),
        _ => pc,
    }
}

/// The cause of the trap that stopped it, if one did.
pub(crate) fn cause_of(end: ExecutionEnd) -> Option<Cause>
    ensures { result ≡ spec.cause_of end }
{
    match end {
        ExecutionEnd::Stopped(Reason::Exception(cause)) => Some(cause),
        _ => None,
    }
}
