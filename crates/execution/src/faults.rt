//! What a program did wrong where an instruction trapped.

ghost use Rattle.std.specs.Prelude.{◌≡◌};
ghost use Rattle.execution.specs.Faults as spec;

use crate::loading::Loaded;
use crate::uses::{Use, use_of};
use image::{FIRST_ADDRESS, word_at_index};
use rv32i::{Cause, Hart, Instr, decode};

/// What a program did wrong where an instruction trapped.
#[derive(Clone, Copy, Debug, PartialEq, Eq)]
pub enum Fault {
    /// It went to an address where no memory is.
    WentOutside,
    /// There is no instruction in it.
    Empty,
    /// It ran past its last line.
    RanPastEnd,
    /// No line's code stands there.
    NotCode,
    /// It wrote over the instruction.
    WroteOver,
    /// The instruction used an address where no memory is.
    Outside(Use),
    /// The address that the instruction used is no multiple of what it has to be.
    Misaligned(Use),
    /// This number in a7 is of no call.
    UnknownCall(u32),
}

/// What the program did wrong that trapped for this cause; `None`: that cannot be seen from where it stands.
pub fn fault_of(loaded: &Loaded, cause: Cause) -> Option<Fault>
    ensures { spec.IsFault loaded.now cause result }
{
    match loaded.runner.memory().word(loaded.runner.hart().pc) {
        Ok(word) => fault_at(loaded, cause, word, decode(word)),
        Err(_) => fault_without_word(cause),
    }
}

// The same, where there is no word at pc.
fn fault_without_word(cause: Cause) -> Option<Fault>
    ensures { result ≡ spec.fault_without_word cause }
{
    match cause {
        Cause::FetchOutside => Some(Fault::WentOutside),
        _ => None,
    }
}

// The same, by the word at pc and its instruction.
fn fault_at(loaded: &Loaded, cause: Cause, word: u32, instr: Option<Instr>) -> Option<Fault>
    ensures { result ≡ spec.fault_at loaded.now cause word instr }
{
    if is_written_over(loaded, word) {
        return Some(Fault::WroteOver);
    }
    match cause {
        Cause::FetchOutside => Some(Fault::WentOutside),
        Cause::Illegal => Some(fault_of_illegal(loaded)),
        Cause::JumpMisaligned | Cause::LoadMisaligned | Cause::StoreMisaligned => {
            misaligned(used(instr, loaded.runner.hart()))
        }
        Cause::LoadOutside | Cause::StoreOutside => outside(used(instr, loaded.runner.hart())),
        Cause::UnknownCall => Some(Fault::UnknownCall(loaded.runner.hart().x[17])),
    }
}

// Whether the line whose code stands at pc has another word there than its image.
fn is_written_over(loaded: &Loaded, word: u32) -> bool
    ensures { result ≡ spec.is_written_over loaded.now word }
{
    let pc = loaded.runner.hart().pc;
    match (
        loaded.lines.line_of(pc),
        word_in(loaded.bytes.as_slice(), pc),
    ) {
        (Some(_), Some(was)) => was != word,
        _ => false,
    }
}

// The word that an image's bytes have at an address, if there is one.
fn word_in(bytes: &[u8], address: u32) -> Option<u32>
    ensures { result ≡ spec.word_in bytes.now address }
{
    if address < FIRST_ADDRESS {
        return None;
    }
    let index = (address - FIRST_ADDRESS) as usize;
    if index + 4 > bytes.len() {
        return None;
    }
    Some(word_at_index(bytes, index))
}

// Of a word that is illegal and that nothing was written over.
fn fault_of_illegal(loaded: &Loaded) -> Fault
    ensures { result ≡ spec.fault_of_illegal loaded.now }
{
    let size = loaded.bytes.as_slice().len();
    if size == 0 {
        return Fault::Empty;
    }
    if loaded.runner.hart().pc as usize == FIRST_ADDRESS as usize + size {
        Fault::RanPastEnd
    } else {
        Fault::NotCode
    }
}

// What an instruction does with an address, if there is one.
fn used(instr: Option<Instr>, hart: &Hart) -> Option<Use>
    ensures { result ≡ spec.used instr hart.now }
{
    match instr {
        Some(instr) => use_of(instr, hart),
        None => None,
    }
}

fn misaligned(used: Option<Use>) -> Option<Fault>
    ensures { result ≡ spec.misaligned used }
{
    match used {
        Some(used) => Some(Fault::Misaligned(used)),
        None => None,
    }
}

fn outside(used: Option<Use>) -> Option<Fault>
    ensures { result ≡ spec.outside used }
{
    match used {
        Some(used) => Some(Fault::Outside(used)),
        None => None,
    }
}
