//! What is shown when it is asked for: registers, calls, lines, labels and instructions.

use crate::asking::Answer;
use crate::console::Console;
use crate::moving::HART;
use crate::page::Part;
use crate::piece::{Form, Tone, address_text};
use diagnostics::line_at;
use prompt::Place;
use protocol::{Command, DisassembleArguments, StackTraceArguments, Text};
use replies::{Instruction, ResponseBody};
use rv32i::reg_named;
use std::alloc::{AllocError, Global};

/// How many registers are shown in a row.
const IN_ROW: u32 = 4;

/// The number of pc.
pub(crate) const COUNTER: u32 = 32;

/// How many calls are shown at most.
const MOST_CALLS: u32 = 20;

/// How many instructions are shown where no number is given.
const INSTRUCTIONS: u32 = 8;

/// How many lines are shown before one, and after it.
const AROUND: u32 = 5;

impl Console {
    /// Shows the registers of these names, or all.
    pub(crate) fn show_registers(&mut self, names: Option<&str>) -> Result<(), AllocError> {
        match names {
            Some(names) => self.show_named(names),
            None => self.show_all(),
        }
    }

    fn show_named(&mut self, names: &str) -> Result<(), AllocError> {
        for name in names.split_ascii_whitespace() {
            match number_named(name) {
                Some(number) => self.show_register(number)?,
                None => self.refuse_name(name)?,
            }
        }
        Ok(())
    }

    fn refuse_name(&mut self, name: &str) -> Result<(), AllocError> {
        let alloc = self.alloc;
        let words = format!(in alloc; "{name} is no register")?;
        self.refuse(words.as_str())
    }

    fn show_all(&mut self) -> Result<(), AllocError> {
        if self.here.is_none() {
            return self.refuse("the program does not stand");
        }
        for number in 0..COUNTER {
            let has_changed = self.has_changed[number as usize];
            self.say(if has_changed { "*" } else { " " })?;
            self.page.put(Part::Register(Form::Cell, number))?;
            let ends_row = number % IN_ROW == IN_ROW - 1;
            self.say(if ends_row { "\n" } else { "  " })?;
        }
        self.say(" ")?;
        self.page.put(Part::Register(Form::Cell, COUNTER))?;
        self.say("\n")
    }

    /// Shows the calls, the innermost first, and how many more there are.
    pub(crate) fn show_calls(&mut self) -> Result<(), AllocError> {
        let asked = Command::StackTrace(StackTraceArguments {
            thread_id: HART,
            start_frame: 0,
            levels: Some(MOST_CALLS),
        });
        let trace = match self.ask(asked)? {
            Answer::Done(ResponseBody::StackTrace(trace)) => trace,
            other => {
                drop(self.is_done(other)?);
                return Ok(());
            }
        };
        let mut index: u32 = 0;
        for frame in trace.stack_frames.as_slice() {
            self.show_call(index, frame.line)?;
            index = index.saturating_add(1);
        }
        self.say_more(trace.total_frames.saturating_sub(index))
    }

    fn show_call(&mut self, index: u32, line: u32) -> Result<(), AllocError> {
        let alloc = self.alloc;
        let words = format!(in alloc; "#{index:<3} ")?;
        self.say(words.as_str())?;
        self.page.put(Part::Frame(index))?;
        if let Some(words) = self.call_text(line)? {
            self.say(words.as_str())?;
        }
        self.say("\n")
    }

    // The line of a call.
    fn call_text(&self, line: u32) -> Result<Option<String>, AllocError> {
        let alloc = self.alloc;
        match line_at(self.text.as_slice(), line) {
            Some(text) => {
                let text = text.trim_ascii();
                Ok(Some(format!(in alloc; "  line {line}  {text}")?))
            }
            None => Ok(None),
        }
    }

    fn say_more(&mut self, count: u32) -> Result<(), AllocError> {
        if count == 0 {
            return Ok(());
        }
        let alloc = self.alloc;
        let words = format!(in alloc; "and {count} more\n")?;
        self.say(words.as_str())
    }

    /// Shows the lines round a place, or round where the program stands.
    pub(crate) fn list(&mut self, place: Option<&Place<'_>>) -> Result<(), AllocError> {
        let line = match (place, self.here) {
            (Some(place), _) => self.line_of(place)?,
            (None, Some(here)) if here.line > 0 => Some(here.line),
            (None, _) => Some(1),
        };
        match line {
            Some(line) => self.show_lines(line.saturating_sub(AROUND), line.saturating_add(AROUND)),
            None => Ok(()),
        }
    }

    /// The line of a place. Where it has none, why is said.
    pub(crate) fn line_of(&mut self, place: &Place<'_>) -> Result<Option<u32>, AllocError> {
        if let Place::Line(line) = place {
            return Ok(Some(*line));
        }
        let Some(address) = self.address_of(place)? else {
            return Ok(None);
        };
        match self.line_at_address(address) {
            Some(line) => Ok(Some(line)),
            None => {
                self.refuse("no line has its code there")?;
                Ok(None)
            }
        }
    }

    fn line_at_address(&self, address: u32) -> Option<u32> {
        self.lines()?.line_of(address)
    }

    /// The address of a place. Where it has none, why is said.
    pub(crate) fn address_of(&mut self, place: &Place<'_>) -> Result<Option<u32>, AllocError> {
        match place {
            Place::Line(line) => self.bound(*line),
            Place::Label(label) => self.address_of_label(label.as_str()),
            Place::Address(text) => self.value_of(text.as_str()),
        }
    }

    // The address of the first line from one on that has code. Where there is none, why is said.
    fn bound(&mut self, line: u32) -> Result<Option<u32>, AllocError> {
        let address = self.address_after(line);
        if address.is_none() {
            self.refuse("no code at or after this line")?;
        }
        Ok(address)
    }

    fn address_after(&self, line: u32) -> Option<u32> {
        let (_, address) = self.lines()?.bind(line)?;
        Some(address)
    }

    /// The address of a label. If there is none of this name, that is said.
    pub(crate) fn address_of_label(&mut self, name: &str) -> Result<Option<u32>, AllocError> {
        let address = self.label_address(name);
        if address.is_none() {
            let alloc = self.alloc;
            let words = format!(in alloc; "{name} is no label")?;
            self.refuse(words.as_str())?;
        }
        Ok(address)
    }

    /// Shows the labels, in the order of the text.
    pub(crate) fn show_labels(&mut self) -> Result<(), AllocError> {
        let count = match self.lines() {
            Some(lines) => lines.label_count(),
            None => 0,
        };
        for index in 0..count {
            if let Some(words) = self.label_line(index)? {
                self.say(words.as_str())?;
            }
        }
        Ok(())
    }

    fn label_line(&self, index: usize) -> Result<Option<String>, AllocError> {
        let Some(lines) = self.lines() else {
            return Ok(None);
        };
        match lines.label(index) {
            Some((name, address)) => Ok(Some(label_text(self.alloc, name, address)?)),
            None => Ok(None),
        }
    }

    /// Shows this many instructions from a place on, or from where the program stands.
    pub(crate) fn disassemble(
        &mut self,
        place: Option<&Place<'_>>,
        count: Option<u32>,
    ) -> Result<(), AllocError> {
        let count = count.unwrap_or(INSTRUCTIONS);
        let Some(place) = place else {
            return self.show_instructions_here(count);
        };
        match self.address_of(place)? {
            Some(address) => self.show_instructions(address, count),
            None => Ok(()),
        }
    }

    /// Shows this many instructions from where the program stands.
    pub(crate) fn show_instructions_here(&mut self, count: u32) -> Result<(), AllocError> {
        match self.link.mirror().register(COUNTER) {
            Some(pc) => self.show_instructions(pc, count),
            None => self.refuse("the program does not stand"),
        }
    }

    fn show_instructions(&mut self, address: u32, count: u32) -> Result<(), AllocError> {
        let memory_reference = Text::from_string(address_text(self.alloc, address)?);
        let asked = Command::Disassemble(DisassembleArguments {
            memory_reference,
            offset: 0,
            instruction_offset: 0,
            instruction_count: count,
        });
        match self.ask(asked)? {
            Answer::Done(ResponseBody::Disassemble(body)) => {
                for instruction in body.instructions.as_slice() {
                    self.show_instruction(instruction)?;
                }
                Ok(())
            }
            other => {
                drop(self.is_done(other)?);
                Ok(())
            }
        }
    }

    fn show_instruction(&mut self, instruction: &Instruction) -> Result<(), AllocError> {
        let address = match instruction {
            Instruction::Valid { address, .. } => *address,
            Instruction::Invalid { address } => *address,
        };
        let stands = self.link.mirror().register(COUNTER) == Some(address);
        let words = instruction_text(self.alloc, instruction, stands)?;
        self.page.say(
            if stands { Tone::Here } else { Tone::Plain },
            words.as_str(),
        )?;
        self.say_label(address)?;
        self.say("\n")
    }
}

fn instruction_text(
    alloc: Global,
    instruction: &Instruction,
    stands: bool,
) -> Result<String, AllocError> {
    let arrow = if stands { '>' } else { ' ' };
    match instruction {
        Instruction::Valid {
            address,
            instruction,
            instruction_bytes,
        } => {
            let (address, text) = (address_text(alloc, *address)?, instruction.as_str());
            let word = *instruction_bytes;
            format!(in alloc; "{arrow} {address}  {word:08x}  {text:<24}")
        }
        Instruction::Invalid { address } => {
            let address = address_text(alloc, *address)?;
            format!(in alloc; "{arrow} {address}  (no instruction)")
        }
    }
}

fn label_text(alloc: Global, name: &str, address: u32) -> Result<String, AllocError> {
    let address = address_text(alloc, address)?;
    format!(in alloc; "{address}  {name}\n")
}

// The number of the register of a name.
fn number_named(name: &str) -> Option<u32> {
    match name {
        "pc" => Some(COUNTER),
        "fp" => Some(8),
        other => reg_named(other.as_bytes()),
    }
}
