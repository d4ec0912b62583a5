//! Memory: words, bytes, and the stack.

use crate::asking::Answer;
use crate::console::Console;
use crate::page::{Part, word_at};
use crate::piece::address_text;
use prompt::Unit;
use protocol::{Command, ReadMemoryArguments, Refusal, Text};
use std::alloc::AllocError;

/// How many bytes are shown in a row.
const ROW: u32 = 16;

/// The number of sp.
const STACK_POINTER: u32 = 2;

/// How many words of the stack are shown at most.
const MOST_WORDS: u32 = 16;

/// How much is shown at most.
const MOST_BYTES: u32 = 65_536;

impl Console {
    /// Shows this much memory from the value of an expression on.
    pub(crate) fn examine(
        &mut self,
        unit: Unit,
        text: &str,
        count: Option<u32>,
    ) -> Result<(), AllocError> {
        let Some(address) = self.value_of(text)? else {
            return Ok(());
        };
        let bytes = match unit {
            Unit::Words => count.unwrap_or(4).saturating_mul(4),
            Unit::Bytes => count.unwrap_or(16),
        };
        if bytes > MOST_BYTES {
            return self.refuse("at most 65,536 bytes at once");
        }
        if self.read_memory(address, bytes)? {
            self.show_rows(unit, address, bytes)?;
        }
        Ok(())
    }

    /// Asks for memory. Whether it was read is told; if not, why is said.
    pub(crate) fn read_memory(&mut self, address: u32, count: u32) -> Result<bool, AllocError> {
        let answer = self.ask_memory(address, count)?;
        self.is_done_at(address, answer)
    }

    /// Asks for memory.
    pub(crate) fn ask_memory(&mut self, address: u32, count: u32) -> Result<Answer, AllocError> {
        let memory_reference = Text::from_string(address_text(self.alloc, address)?);
        self.ask(Command::ReadMemory(ReadMemoryArguments {
            memory_reference,
            offset: 0,
            count,
        }))
    }

    /// Whether a request about memory at this address was done; if not, why is said.
    pub(crate) fn is_done_at(&mut self, address: u32, answer: Answer) -> Result<bool, AllocError> {
        let Answer::Refused(Refusal::OutsideMemory, _) = answer else {
            return self.is_done(answer);
        };
        let alloc = self.alloc;
        let place = address_text(alloc, address)?;
        let words = format!(in alloc; "{place} is outside memory")?;
        self.refuse(words.as_str())?;
        Ok(false)
    }

    fn show_rows(&mut self, unit: Unit, address: u32, bytes: u32) -> Result<(), AllocError> {
        for row in 0..bytes.div_ceil(ROW) {
            let passed = row.saturating_mul(ROW);
            let count = bytes.saturating_sub(passed).min(ROW);
            match address.checked_add(passed) {
                Some(first) => self.show_row(unit, first, count)?,
                None => break,
            }
        }
        Ok(())
    }

    fn show_row(&mut self, unit: Unit, first: u32, count: u32) -> Result<(), AllocError> {
        let place = address_text(self.alloc, first)?;
        self.say(place.as_str())?;
        self.say(" ")?;
        match unit {
            Unit::Words => self.show_words(first, count)?,
            Unit::Bytes => self.show_bytes(first, count)?,
        }
        self.say("\n")
    }

    fn show_words(&mut self, first: u32, count: u32) -> Result<(), AllocError> {
        for index in 0..count.div_ceil(4) {
            self.say(" ")?;
            self.page
                .put(Part::Word(first.wrapping_add(index.wrapping_mul(4))))?;
        }
        Ok(())
    }

    fn show_bytes(&mut self, first: u32, count: u32) -> Result<(), AllocError> {
        for index in 0..count {
            self.say(" ")?;
            self.page.put(Part::Byte(first.wrapping_add(index)))?;
        }
        self.say("  ")?;
        for index in 0..count {
            let byte = self.link.mirror().byte(first.wrapping_add(index));
            self.say(seen(byte))?;
        }
        Ok(())
    }

    /// Shows the words of the stack, from sp up.
    pub(crate) fn show_stack(&mut self) -> Result<(), AllocError> {
        let Some(sp) = self.link.mirror().register(STACK_POINTER) else {
            return self.refuse("the program does not stand");
        };
        if !self.read_memory(sp, MOST_WORDS.saturating_mul(4))? {
            return Ok(());
        }
        for index in 0..MOST_WORDS {
            let above = index.saturating_mul(4);
            match sp.checked_add(above) {
                Some(address) => self.show_stack_word(above, address)?,
                None => break,
            }
        }
        Ok(())
    }

    // A word of the stack, if memory has it.
    fn show_stack_word(&mut self, above: u32, address: u32) -> Result<(), AllocError> {
        let alloc = self.alloc;
        let Some((first, second, third, fourth)) = word_at(self.link.mirror(), address) else {
            return Ok(());
        };
        let words = format!(in alloc; "sp+{above:<3} ")?;
        self.say(words.as_str())?;
        self.page.put(Part::Word(address))?;
        let value = u32::from_le_bytes([first, second, third, fourth]);
        let words = format!(in alloc; "  {value}")?;
        self.say(words.as_str())?;
        self.say_label(value)?;
        self.say("\n")
    }
}

// A byte as the character that it is in ASCII, if it is one that can be seen.
fn seen(byte: Option<u8>) -> &'static str {
    match byte {
        Some(byte) if byte == b' ' => " ",
        Some(byte) if byte.is_ascii_graphic() => graphic(byte),
        _ => ".",
    }
}

// The characters of ASCII that can be seen, from `!` on.
const GRAPHIC: &str =
    "!\"#$%&'()*+,-./0123456789:;<=>?@ABCDEFGHIJKLMNOPQRSTUVWXYZ[\\]^_`abcdefghijklmnopqrstuvwxyz{|}~";

fn graphic(byte: u8) -> &'static str {
    let index = usize::from(byte.saturating_sub(b'!'));
    match GRAPHIC.get(index..index.saturating_add(1)) {
        Some(text) => text,
        None => ".",
    }
}
