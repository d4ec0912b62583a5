//! Which requests have numbers that an adapter reads.
ghost use Rattle.std.specs.Prelude.{◌≡◌, nat_lt};
ghost use Rattle.std.specs.List.{list_all};
ghost use Rattle.message_parts.specs.EncodedBytes.{are_bytes};
ghost use Rattle.message_parts.specs.Forms.{is_in_if, is_signed_word};
ghost use Rattle.requests.specs.Requests.{is_in_range, is_natural};

use protocol::{Command, InstructionBreakpoint, SourceBreakpoint};

/// The greatest whole number that an adapter reads where none may be below 0.
const GREATEST: u32 = 2_147_483_647;

/// Whether each number of a request is in the range that the adapter reads: one that may not be below 0 is at most 2,147,483,647.
pub fn is_in_range(command: &Command) -> bool
    ensures { result ≡ is_in_range command.now }
{
    match command {
        Command::Cancel(a) => is_signed_if(a.request_id),
        Command::SetBreakpoints(a) => are_lines(a.breakpoints.as_slice()),
        Command::SetInstructionBreakpoints(a) => are_offsets(a.breakpoints.as_slice()),
        Command::Continue(a) | Command::ReverseContinue(a) | Command::Pause(a) => {
            is_signed(a.thread_id)
        }
        Command::Next(a) | Command::StepIn(a) | Command::StepOut(a) | Command::StepBack(a) => {
            is_signed(a.thread_id)
        }
        Command::StackTrace(a) => {
            is_natural_if(a.levels) && is_natural(a.start_frame) && is_signed(a.thread_id)
        }
        Command::Scopes(a) => is_signed(a.frame_id),
        Command::Variables(a) => {
            is_natural_if(a.count) && is_natural(a.start) && is_signed(a.variables_reference)
        }
        Command::SetVariable(a) => is_signed(a.variables_reference),
        Command::Evaluate(a) => is_signed_if(a.frame_id),
        Command::Disassemble(a) => {
            is_natural(a.instruction_count)
                && is_signed(a.instruction_offset)
                && is_signed(a.offset)
        }
        Command::ReadMemory(a) => is_natural(a.count) && is_signed(a.offset),
        Command::WriteMemory(a) => are_bytes(a.bytes.as_slice()) && is_signed(a.offset),
        _ => true,
    }
}

fn is_natural(number: u32) -> bool
    ensures { result ≡ is_natural number }
{
    number <= GREATEST
}

fn is_natural_if(number: Option<u32>) -> bool
    ensures { result ≡ is_in_if is_natural number }
{
    match number {
        Some(number) => is_natural(number),
        None => true,
    }
}

// Each number of 32 bits with a sign is.
fn is_signed(number: i32) -> bool
    ensures { result ≡ is_signed_word number }
{
    i32::MIN <= number && number <= i32::MAX
}

fn is_signed_if(number: Option<i32>) -> bool
    ensures { result ≡ is_in_if is_signed_word number }
{
    match number {
        Some(number) => is_signed(number),
        None => true,
    }
}

fn are_lines(breakpoints: &[SourceBreakpoint]) -> bool
    ensures { result ≡ list_all (λ b. is_natural b.line) breakpoints.now }
{
    breakpoints.iter().all(|b| is_natural(b.line))
}

fn are_offsets(breakpoints: &[InstructionBreakpoint]) -> bool
    ensures { result ≡ list_all (λ b. is_signed_word b.offset) breakpoints.now }
{
    breakpoints.iter().all(|b| is_signed(b.offset))
}

// Each byte is.
fn are_bytes(bytes: &[u8]) -> bool
    ensures { result ≡ are_bytes bytes.now }
{
    bytes.iter().all(|b| is_byte(*b))
}

fn is_byte(byte: u8) -> bool
    ensures { result ≡ nat_lt byte 256 }
{
    byte <= u8::MAX
}
