//! What a program did wrong, in words.

ghost use Rattle.std.specs.Prelude.{◌≡◌, ◌++◌, IfOk, codes, string_bytes};
ghost use Rattle.rv32i.specs.Texts.{address_text};
ghost use Rattle.execution.specs.FaultTexts as spec;

use crate::faults::Fault;
use crate::uses::{Use, Verb};
use rv32i::{push_digits, text_of_word};
use std::alloc::{AllocError, Global};

/// What a program did wrong, as `lw a0, 0(t0) reads 0x00000000, where no memory is`. `pc` is where it stands, and `word` what stands
/// there. `Err`: no memory was left.
pub fn fault_text(alloc: Global, fault: Fault, pc: u32, word: u32) -> Result<String, AllocError>
    ensures { IfOk result (λ told. spec.IsTold fault pc word (string_bytes told)) }
{
    let text = text_of_word(alloc, word, pc)?;
    words(alloc, fault, pc, text.as_str())
}

// The same, where this text says what the word is.
fn words(alloc: Global, fault: Fault, pc: u32, text: &str) -> Result<String, AllocError>
    ensures { IfOk result (λ told. string_bytes told ≡ spec.words fault pc text.now) }
{
    match fault {
        Fault::WentOutside => went_outside(alloc, pc),
        Fault::Empty => String::from_str(alloc, "there is no instruction"),
        Fault::RanPastEnd => String::from_str(alloc, "ran past the last line"),
        Fault::NotCode => format!(in alloc; "no instruction stands here, but {text}"),
        Fault::WroteOver => {
            format!(in alloc; "the program wrote over this instruction: {text} stands here now")
        }
        Fault::Outside(used) => outside(alloc, text, used),
        Fault::Misaligned(used) => misaligned(alloc, text, used),
        Fault::UnknownCall(number) => {
            format!(in alloc; "a7 is {number}, and the calls are 1 and 93")
        }
    }
}

fn went_outside(alloc: Global, pc: u32) -> Result<String, AllocError>
    ensures { IfOk result (λ told. string_bytes told ≡ codes "the program went to "
        ++ address_text pc ++ spec.no_memory) }
{
    let address = address_text(alloc, pc)?;
    format!(in alloc; "the program went to {address}, where no memory is")
}

fn outside(alloc: Global, text: &str, used: Use) -> Result<String, AllocError>
    ensures { IfOk result (λ told. string_bytes told ≡ spec.used text.now used ++ spec.no_memory) }
{
    let mut told = used_text(alloc, text, used)?;
    told.push_str(", where no memory is")?;
    Ok(told)
}

fn misaligned(alloc: Global, text: &str, used: Use) -> Result<String, AllocError>
    ensures { IfOk result (λ told. string_bytes told
        ≡ spec.used text.now used ++ spec.no_multiple used.unit) }
{
    let (told, unit) = (used_text(alloc, text, used)?, used.unit);
    format!(in alloc; "{told}, which is no multiple of {unit}")
}

// An instruction, and what it does with an address.
fn used_text(alloc: Global, text: &str, used: Use) -> Result<String, AllocError>
    ensures { IfOk result (λ told. string_bytes told ≡ spec.used text.now used) }
{
    let mut told = String::from_str(alloc, text)?;
    told.push_str(verb(used.verb))?;
    told.push_str("0x")?;
    push_digits(&mut told, used.address)?;
    Ok(told)
}

// What an instruction does with an address, between its text and that.
fn verb(verb: Verb) -> &'static str
    ensures { result.now ≡ spec.verb verb }
{
    match verb {
        Verb::Reads => " reads ",
        Verb::Writes => " writes ",
        Verb::GoesTo => " goes to ",
    }
}

/// An address in eight digits.
pub(crate) fn address_text(alloc: Global, address: u32) -> Result<String, AllocError>
    ensures { IfOk result (λ text. string_bytes text ≡ address_text address) }
{
    let mut text = String::from_str(alloc, "0x")?;
    push_digits(&mut text, address)?;
    Ok(text)
}
