//! What is done for a line.

use crate::console::{Console, Waits};
use crate::help;
use prompt::{Line, LineError, LineFault, Plain, read_line};
use std::alloc::AllocError;
use std::str;

impl Console {
    /// Does what a line asks for, or says why not.
    pub(crate) fn obey(&mut self, line: &[u8]) -> Result<(), AllocError> {
        self.was_refused = false;
        match read_line(line) {
            Ok(asked) => self.carry_out(&asked),
            Err(error) => self.refuse_line(line, error),
        }
    }

    fn carry_out(&mut self, line: &Line<'_>) -> Result<(), AllocError> {
        match line {
            Line::Again => self.repeat(),
            Line::Comment => Ok(()),
            Line::Plain(plain) => self.plain(*plain),
            Line::Move(motion, times) => self.start(*motion, *times),
            Line::Change(direction, text) => self.look_for(*direction, text.as_str()),
            Line::Break(stop) => self.set_breakpoint(stop),
            Line::Log(place, text) => self.set_logpoint(place, text),
            Line::Delete(number) => self.delete(*number),
            other => self.show(other),
        }
    }

    // What shows something, or sets a value.
    fn show(&mut self, line: &Line<'_>) -> Result<(), AllocError> {
        match line {
            Line::Help(word) => self.help(word.as_ref().map(|word| word.as_str())),
            Line::Print(text) => self.print_value(text.as_str()),
            Line::Display(text) => self.add_display(text.as_str()),
            Line::Undisplay(number) => self.delete_display(*number),
            Line::Set(target, text) => self.set(target.as_str(), text.as_str()),
            Line::Registers(names) => {
                self.show_registers(names.as_ref().map(|names| names.as_str()))
            }
            Line::Examine(unit, text, count) => self.examine(*unit, text.as_str(), *count),
            Line::Disassemble(place, count) => self.disassemble(place.as_ref(), *count),
            Line::List(place) => self.list(place.as_ref()),
            _ => Ok(()),
        }
    }

    fn plain(&mut self, plain: Plain) -> Result<(), AllocError> {
        match plain {
            Plain::Quit => {
                self.waits = Waits::Nothing;
                Ok(())
            }
            Plain::Run => {
                self.waits = Waits::File;
                Ok(())
            }
            Plain::Breakpoints => self.show_breakpoints(),
            Plain::Stack => self.show_stack(),
            Plain::Backtrace => self.show_calls(),
            Plain::Labels => self.show_labels(),
            Plain::Where => self.show_here(),
        }
    }

    // The last motion once more.
    fn repeat(&mut self) -> Result<(), AllocError> {
        match self.motion {
            Some((motion, times)) => self.start(motion, times),
            None => Ok(()),
        }
    }

    fn refuse_line(&mut self, line: &[u8], error: LineError) -> Result<(), AllocError> {
        let alloc = self.alloc;
        let words = format!(in alloc; "{error}")?;
        self.refuse(words.as_str())?;
        match error.fault {
            LineFault::UnknownWord => self.suggest(line),
            _ => Ok(()),
        }
    }

    // Says which word is nearest to the one that a line begins with.
    fn suggest(&mut self, line: &[u8]) -> Result<(), AllocError> {
        let Ok(text) = str::from_utf8(line) else {
            return Ok(());
        };
        let Some(word) = text.split_ascii_whitespace().next() else {
            return Ok(());
        };
        let alloc = self.alloc;
        match help::nearest(alloc, word)? {
            Some(near) => {
                let words = format!(in alloc; "did you mean {near}? help lists the commands\n")?;
                self.say(words.as_str())
            }
            None => self.say("help lists the commands\n"),
        }
    }

    fn help(&mut self, word: Option<&str>) -> Result<(), AllocError> {
        match word {
            None => self.say(help::ALL),
            Some(word) => match help::of(word) {
                Some(text) => self.say(text),
                None => self.refuse("no such command: help lists them"),
            },
        }
    }
}
