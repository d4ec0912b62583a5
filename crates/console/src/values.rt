//! Values: printed, displayed at each stop, and set.

use crate::console::Console;
use crate::page::Part;
use crate::piece::{address_text, value_text};
use crate::stops::text_of;
use byte_strings::Bytes;
use protocol::{Command, SetVariableArguments, Text, WriteMemoryArguments};
use rv32i::reg_named;
use std::alloc::AllocError;

/// An expression whose value is shown at each stop.
#[derive(Drop)]
pub(crate) struct Display {
    pub(crate) number: u32,
    pub(crate) text: String,
}

impl Console {
    /// Shows the value of an expression.
    pub(crate) fn print_value(&mut self, text: &str) -> Result<(), AllocError> {
        if let Some(value) = self.value_of(text)? {
            self.say_value(value)?;
            self.say("\n")?;
        }
        Ok(())
    }

    // Says a value, and the label that lies there.
    fn say_value(&mut self, value: u32) -> Result<(), AllocError> {
        let words = value_text(self.alloc, value)?;
        self.say(words.as_str())?;
        self.say_label(value)
    }

    /// Says the label that lies at an address, if the address is one of the program's.
    pub(crate) fn say_label(&mut self, address: u32) -> Result<(), AllocError> {
        if let Some(words) = self.label_text(address)? {
            self.say(words.as_str())?;
        }
        Ok(())
    }

    fn label_text(&self, address: u32) -> Result<Option<String>, AllocError> {
        let alloc = self.alloc;
        let Some(lines) = self.lines() else {
            return Ok(None);
        };
        match lines.label_at(address) {
            Some((name, 0)) => Ok(Some(format!(in alloc; "  {name}")?)),
            Some((name, above)) => Ok(Some(format!(in alloc; "  {name}+{above}")?)),
            None => Ok(None),
        }
    }

    /// Shows the value of an expression, now and at each stop.
    pub(crate) fn add_display(&mut self, text: &str) -> Result<(), AllocError> {
        let Some(_) = self.value_of(text)? else {
            return Ok(());
        };
        let number = self.last_display.saturating_add(1);
        let display = Display {
            number,
            text: String::from_str(self.alloc, text)?,
        };
        self.displays.push(display)?;
        self.last_display = number;
        let index = self.displays.len().saturating_sub(1);
        self.show_display(index)
    }

    /// Shows a value no more at each stop, or none.
    pub(crate) fn delete_display(&mut self, number: Option<u32>) -> Result<(), AllocError> {
        let Some(number) = number else {
            self.displays.clear();
            return Ok(());
        };
        match taken(&mut self.displays, number) {
            Some(display) => {
                drop(display);
                Ok(())
            }
            None => self.refuse_number("display", number),
        }
    }

    /// Shows what is displayed.
    pub(crate) fn show_displays(&mut self) -> Result<(), AllocError> {
        for index in 0..self.displays.len() {
            self.show_display(index)?;
        }
        Ok(())
    }

    fn show_display(&mut self, index: usize) -> Result<(), AllocError> {
        let alloc = self.alloc;
        let Some(display) = self.displays.get(index) else {
            return Ok(());
        };
        let (number, text) = (display.number, display.text.as_str());
        let words = format!(in alloc; "{number}: {text} = ")?;
        let expression = self.with_addresses(text)?;
        self.say(words.as_str())?;
        match self.evaluated(expression.as_str())? {
            Some(value) => self.say_value(value)?,
            None => self.say("no value here")?,
        }
        self.say("\n")
    }

    /// Sets a register, or the word of memory at an address in brackets, and shows it.
    pub(crate) fn set(&mut self, target: &str, text: &str) -> Result<(), AllocError> {
        let Some(value) = self.value_of(text)? else {
            return Ok(());
        };
        match in_brackets(target) {
            Some(inner) => match self.value_of(inner)? {
                Some(address) => self.set_word(address, value),
                None => Ok(()),
            },
            None => self.set_register(target, value),
        }
    }

    fn set_register(&mut self, name: &str, value: u32) -> Result<(), AllocError> {
        let Some(here) = self.here else {
            return self.refuse("the program does not stand");
        };
        let name = name_of(name);
        let asked = Command::SetVariable(SetVariableArguments {
            variables_reference: here.registers,
            name: text_of(self.alloc, name)?,
            value: Text::from_string(address_text(self.alloc, value)?),
        });
        if !self.does(asked)? {
            return Ok(());
        }
        self.read_registers(here.registers)?;
        match reg_named(name.as_bytes()) {
            Some(number) => self.show_set_register(number),
            None => Ok(()),
        }
    }

    fn show_set_register(&mut self, number: u32) -> Result<(), AllocError> {
        let value = self.link.mirror().register(number);
        if let Some(before) = self.before.get_mut(number as usize) {
            *before = value;
        }
        self.show_register(number)
    }

    fn set_word(&mut self, address: u32, value: u32) -> Result<(), AllocError> {
        let bytes = Vec::from_slice(self.alloc, &value.to_le_bytes())?;
        let asked = Command::WriteMemory(WriteMemoryArguments {
            memory_reference: Text::from_string(address_text(self.alloc, address)?),
            offset: 0,
            bytes: Bytes::from_vec(bytes),
            allow_partial: false,
        });
        let answer = self.ask(asked)?;
        if !self.is_done_at(address, answer)? {
            return Ok(());
        }
        self.show_word(address)
    }

    // Shows the word of memory at an address.
    fn show_word(&mut self, address: u32) -> Result<(), AllocError> {
        let alloc = self.alloc;
        if !self.read_memory(address, 4)? {
            return Ok(());
        }
        let place = address_text(alloc, address)?;
        let words = format!(in alloc; "    [{place}] = ")?;
        self.say(words.as_str())?;
        self.page.put(Part::Word(address))?;
        self.say("\n")
    }
}

// The text in brackets that a target is, if it is one.
fn in_brackets(target: &str) -> Option<&str> {
    target.strip_prefix("[")?.strip_suffix("]")
}

// The name under which a register is set.
fn name_of(name: &str) -> &str {
    match name {
        "fp" => "s0",
        other => other,
    }
}

// The display of a number, which is taken out.
fn taken(displays: &mut Vec<Display>, number: u32) -> Option<Display> {
    let index = displays
        .iter()
        .position(|display| display.number == number)?;
    Some(displays.remove(index))
}
