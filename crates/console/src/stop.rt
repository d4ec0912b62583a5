//! What is shown where the program stands.

use crate::asking::Answer;
use crate::console::Console;
use crate::moving::{HART, is_breakpoint};
use crate::page::Part;
use crate::piece::{Form, Tone};
use diagnostics::line_at;
use protocol::{Command, ScopesArguments, StackTraceArguments, VariablesArguments};
use replies::{Reason, ResponseBody, Scope, Stopped};
use std::alloc::AllocError;

/// Where the program stands, and by which numbers it is asked about there.
#[derive(Clone, Copy, Drop)]
pub(crate) struct Here {
    /// The number of the line, or 0.
    pub(crate) line: u32,
    /// The number of the registers.
    pub(crate) registers: i32,
}

/// How many registers have a value beside pc.
const GENERAL: u32 = 32;

impl Console {
    /// Asks where the program stands, and for its registers. Whether that was answered is told.
    pub(crate) fn look(&mut self) -> Result<bool, AllocError> {
        self.here = self.seen()?;
        Ok(self.here.is_some())
    }

    fn seen(&mut self) -> Result<Option<Here>, AllocError> {
        let Some((frame, line)) = self.first_frame()? else {
            return Ok(None);
        };
        let Some(registers) = self.registers_of(frame)? else {
            return Ok(None);
        };
        if !self.read_registers(registers)? {
            return Ok(None);
        }
        Ok(Some(Here { line, registers }))
    }

    // The number and the line of the innermost frame.
    fn first_frame(&mut self) -> Result<Option<(i32, u32)>, AllocError> {
        let asked = Command::StackTrace(StackTraceArguments {
            thread_id: HART,
            start_frame: 0,
            levels: Some(1),
        });
        let Answer::Done(ResponseBody::StackTrace(trace)) = self.ask(asked)? else {
            return Ok(None);
        };
        match trace.stack_frames.as_slice() {
            [frame, ..] => match i32::try_from(frame.id) {
                Ok(id) => Ok(Some((id, frame.line))),
                Err(_) => Ok(None),
            },
            [] => Ok(None),
        }
    }

    // The number of a frame's registers.
    fn registers_of(&mut self, frame_id: i32) -> Result<Option<i32>, AllocError> {
        let asked = Command::Scopes(ScopesArguments { frame_id });
        let Answer::Done(ResponseBody::Scopes(body)) = self.ask(asked)? else {
            return Ok(None);
        };
        match body.scopes.as_slice() {
            [
                Scope::Registers {
                    variables_reference,
                },
                ..
            ] => { Ok(i32::try_from(*variables_reference).ok()) }
            _ => Ok(None),
        }
    }

    /// Asks for the registers of this number. Whether that was answered is told.
    pub(crate) fn read_registers(&mut self, variables_reference: i32) -> Result<bool, AllocError> {
        let asked = Command::Variables(VariablesArguments {
            variables_reference,
            filter: None,
            start: 0,
            count: None,
        });
        match self.ask(asked)? {
            Answer::Done(_) => Ok(true),
            _ => Ok(false),
        }
    }

    /// Shows a stop: why, where, the registers that changed since the last one, the line with its neighbours, and what is displayed.
    pub(crate) fn show_stop(&mut self, stop: &Stopped) -> Result<(), AllocError> {
        self.look()?;
        self.say_why(stop)?;
        self.delete_met(stop)?;
        self.show_place()
    }

    /// Shows where the program stands.
    pub(crate) fn show_here(&mut self) -> Result<(), AllocError> {
        self.look()?;
        self.show_place()
    }

    /// The same, where that was asked already.
    pub(crate) fn show_place(&mut self) -> Result<(), AllocError> {
        if self.here.is_none() {
            return self.show_state();
        }
        self.page.put(Part::Frame(0))?;
        self.say("\n")?;
        self.show_changed()?;
        self.show_line()?;
        self.show_displays()
    }

    /// Shows that the program has ended.
    pub(crate) fn show_end(&mut self) -> Result<(), AllocError> {
        self.here = None;
        self.show_state()
    }

    // Shows whether the program runs.
    fn show_state(&mut self) -> Result<(), AllocError> {
        self.say("the program ")?;
        self.page.put(Part::Run)?;
        self.say("\n")
    }

    // Says why the program stopped, if that was not what it was sent for.
    fn say_why(&mut self, stop: &Stopped) -> Result<(), AllocError> {
        match &stop.text {
            Some(text) => {
                self.page.say(Tone::Refusal, text.as_str())?;
                if stop.reason == Reason::Exception {
                    self.say_fault(text.as_str())?;
                }
                self.say("\n")
            }
            None if is_breakpoint(stop.reason) => self.say_breakpoints(stop),
            None => match stop.reason {
                Reason::Pause => self.say("paused\n"),
                _ => Ok(()),
            },
        }
    }

    // Says which breakpoints stopped the program.
    fn say_breakpoints(&mut self, stop: &Stopped) -> Result<(), AllocError> {
        let alloc = self.alloc;
        let mut is_first = true;
        for id in stop.hit_breakpoint_ids.as_slice() {
            let number = self.number_of(*id);
            let words = if is_first {
                format!(in alloc; "breakpoint {number}")?
            } else {
                format!(in alloc; ", {number}")?
            };
            self.say(words.as_str())?;
            is_first = false;
        }
        if is_first {
            self.say("ebreak")?;
        }
        self.say("\n")
    }

    // Shows the registers that have another value than at the last stop.
    fn show_changed(&mut self) -> Result<(), AllocError> {
        for number in 0..GENERAL {
            let value = self.link.mirror().register(number);
            let has_changed = value != self.before[number as usize];
            self.has_changed[number as usize] = has_changed;
            if has_changed {
                self.show_register(number)?;
                self.before[number as usize] = value;
            }
        }
        Ok(())
    }

    /// Shows a register in a line of its own, with the label that lies at its value.
    pub(crate) fn show_register(&mut self, number: u32) -> Result<(), AllocError> {
        self.say("    ")?;
        self.page.put(Part::Register(Form::Line, number))?;
        if let Some(value) = self.link.mirror().register(number) {
            self.say_label(value)?;
        }
        self.say("\n")
    }

    // Shows the line where the program stands with its neighbours, or the instruction where there is none.
    fn show_line(&mut self) -> Result<(), AllocError> {
        match self.here {
            Some(here) if here.line > 0 => {
                self.show_lines(here.line.saturating_sub(1), here.line.saturating_add(1))
            }
            _ => self.show_instructions_here(1),
        }
    }

    /// Shows the lines from one to another that the text has, with a mark at that where the program stands and at those with breakpoints.
    pub(crate) fn show_lines(&mut self, first: u32, last: u32) -> Result<(), AllocError> {
        for line in first..=last {
            self.show_text(line)?;
        }
        Ok(())
    }

    fn show_text(&mut self, line: u32) -> Result<(), AllocError> {
        let Some(words) = self.line_text(line)? else {
            return Ok(());
        };
        let tone = match self.here {
            Some(here) if here.line == line => Tone::Here,
            _ => Tone::Plain,
        };
        self.page.say(tone, words.as_str())
    }

    // A line of the text with its number and its marks.
    fn line_text(&mut self, line: u32) -> Result<Option<String>, AllocError> {
        let alloc = self.alloc;
        let mark = if self.has_breakpoint(line) { '*' } else { ' ' };
        let arrow = match self.here {
            Some(here) if here.line == line => '>',
            _ => ' ',
        };
        match line_at(self.text.as_slice(), line) {
            Some(text) => Ok(Some(format!(in alloc; "{arrow}{mark}{line:>4}  {text}\n")?)),
            None => Ok(None),
        }
    }
}
