//! What the program did wrong, where that can be seen.

use crate::console::Console;
use crate::page::word_at;
use crate::views::COUNTER;
use execution::{Fault, Use, Verb, fault_text};
use image::FIRST_ADDRESS;
use rv32i::{Imm, Instr, Reg, decode};
use std::alloc::AllocError;

/// The number of a7, which says what an ECALL asks for.
const CALL: u32 = 17;

impl Console {
    /// Says what the program did wrong that an exception of this name came of, if that can be seen.
    pub(crate) fn say_fault(&mut self, name: &str) -> Result<(), AllocError> {
        let Some(pc) = self.link.mirror().register(COUNTER) else {
            return Ok(());
        };
        let word = self.word(pc)?;
        let Some(fault) = self.fault(name, pc, word) else {
            return Ok(());
        };
        let words = fault_text(self.alloc, fault, pc, word.unwrap_or(0))?;
        self.say(": ")?;
        self.say(words.as_str())
    }

    /// The word at an address, if memory has one.
    fn word(&mut self, address: u32) -> Result<Option<u32>, AllocError> {
        if !self.has_word(address)? {
            return Ok(None);
        }
        match word_at(self.link.mirror(), address) {
            Some((first, second, third, fourth)) => {
                Ok(Some(u32::from_le_bytes([first, second, third, fourth])))
            }
            None => Ok(None),
        }
    }

    fn fault(&self, name: &str, pc: u32, word: Option<u32>) -> Option<Fault> {
        let Some(word) = word else {
            return if name == "instruction access fault" {
                Some(Fault::WentOutside)
            } else {
                None
            };
        };
        if self.is_written_over(pc, word) {
            return Some(Fault::WroteOver);
        }
        match name {
            "illegal instruction" => self.fault_of_illegal(pc),
            "unknown environment call" => {
                Some(Fault::UnknownCall(self.link.mirror().register(CALL)?))
            }
            "load access fault" | "store access fault" => Some(Fault::Outside(self.used(word)?)),
            "load address misaligned" | "store address misaligned" => {
                Some(Fault::Misaligned(self.used(word)?))
            }
            _ => None,
        }
    }

    // Of a word that is illegal and that nothing was written over.
    fn fault_of_illegal(&self, pc: u32) -> Option<Fault> {
        let size = self.image.as_ref()?.bytes.as_slice().len();
        if size == 0 {
            return Some(Fault::Empty);
        }
        if pc as usize == (FIRST_ADDRESS as usize).saturating_add(size) {
            Some(Fault::RanPastEnd)
        } else {
            Some(Fault::NotCode)
        }
    }

    // Whether a line's code stands at an address, and another word was there in the beginning.
    fn is_written_over(&self, address: u32, word: u32) -> bool {
        let Some(image) = &self.image else {
            return false;
        };
        if image.lines.line_of(address).is_none() || address < FIRST_ADDRESS {
            return false;
        }
        let index = (address - FIRST_ADDRESS) as usize;
        match image.bytes.as_slice().get(index..index.saturating_add(4)) {
            Some(bytes) => bytes != word.to_le_bytes().as_slice(),
            None => false,
        }
    }

    // The address that a load or a store uses, and how.
    fn used(&self, word: u32) -> Option<Use> {
        let (verb, unit, base, offset) = place_of(decode(word)?)?;
        let base = self.link.mirror().register(base.number() as u32)?;
        Some(Use {
            verb,
            address: base.wrapping_add(offset.bits()),
            unit,
        })
    }
}

// What a load or a store does, with how many bytes, and its base and offset.
fn place_of(instr: Instr) -> Option<(Verb, u32, Reg, Imm)> {
    match instr {
        Instr::Lb { rs1, imm, .. } => Some((Verb::Reads, 1, rs1, imm)),
        Instr::Lh { rs1, imm, .. } => Some((Verb::Reads, 2, rs1, imm)),
        Instr::Lw { rs1, imm, .. } => Some((Verb::Reads, 4, rs1, imm)),
        Instr::Lbu { rs1, imm, .. } => Some((Verb::Reads, 1, rs1, imm)),
        Instr::Lhu { rs1, imm, .. } => Some((Verb::Reads, 2, rs1, imm)),
        Instr::Sb { rs1, imm, .. } => Some((Verb::Writes, 1, rs1, imm)),
        Instr::Sh { rs1, imm, .. } => Some((Verb::Writes, 2, rs1, imm)),
        Instr::Sw { rs1, imm, .. } => Some((Verb::Writes, 4, rs1, imm)),
        _ => None,
    }
}
