//! The lists of breakpoints that the session is told, and what became of each.

use crate::asking::Answer;
use crate::console::Console;
use crate::piece::{Listed, address_text};
use crate::stops::{At, Breakpoint, text_of};
use protocol::{
    Command, Entries, FunctionBreakpoint, InstructionBreakpoint, SetBreakpointsArguments,
    SetFunctionBreakpointsArguments, SetInstructionBreakpointsArguments, Source, SourceBreakpoint,
    Text,
};
use replies::{
    InstructionBreakpoint as InstructionSet, ResponseBody, SourceBreakpoint as SourceSet,
};
use std::alloc::AllocError;

impl Console {
    /// Tells the session which breakpoints of a list there are; each gets its number, or why it has none. Whether that was done is told.
    pub(crate) fn set_list(&mut self, list: Listed) -> Result<bool, AllocError> {
        let command = self.command_for(list)?;
        match self.ask(command)? {
            Answer::Done(ResponseBody::SetBreakpoints(body)) => {
                self.note_lines(body.breakpoints.as_slice())?;
                Ok(true)
            }
            Answer::Done(ResponseBody::SetFunctionBreakpoints(body)) => {
                self.note_addresses(list, body.breakpoints.as_slice())?;
                Ok(true)
            }
            Answer::Done(ResponseBody::SetInstructionBreakpoints(body)) => {
                self.note_addresses(list, body.breakpoints.as_slice())?;
                Ok(true)
            }
            other => self.is_done(other),
        }
    }

    fn note_lines(&mut self, told: &[SourceSet]) -> Result<(), AllocError> {
        for (index, found) in told.iter().enumerate() {
            match found {
                SourceSet::Verified { id, .. } => self.note_set(Listed::Source, index, *id),
                SourceSet::Unverified { message, .. } => {
                    self.note_unset(Listed::Source, index, message)?;
                }
            }
        }
        Ok(())
    }

    fn note_addresses(&mut self, list: Listed, told: &[InstructionSet]) -> Result<(), AllocError> {
        for (index, found) in told.iter().enumerate() {
            match found {
                InstructionSet::Verified { id, .. } => self.note_set(list, index, *id),
                InstructionSet::Unverified { message } => self.note_unset(list, index, message)?,
            }
        }
        Ok(())
    }

    fn note_set(&mut self, list: Listed, index: usize, id: u32) {
        if let Some(breakpoint) = nth(&mut self.breakpoints, list, index) {
            breakpoint.id = id;
        }
    }

    fn note_unset(&mut self, list: Listed, index: usize, why: &Text) -> Result<(), AllocError> {
        let why = String::from_str(self.alloc, why.as_str())?;
        if let Some(breakpoint) = nth(&mut self.breakpoints, list, index) {
            breakpoint.why = Some(why);
        }
        Ok(())
    }

    fn command_for(&self, list: Listed) -> Result<Command, AllocError> {
        match list {
            Listed::Source => Ok(Command::SetBreakpoints(SetBreakpointsArguments {
                source: Source {
                    path: Some(text_of(self.alloc, self.path.as_str())?),
                },
                breakpoints: Entries::from_vec(self.lines_asked()?),
            })),
            Listed::Functions => Ok(Command::SetFunctionBreakpoints(
                SetFunctionBreakpointsArguments {
                    breakpoints: Entries::from_vec(self.labels_asked()?),
                },
            )),
            Listed::Instructions => Ok(Command::SetInstructionBreakpoints(
                SetInstructionBreakpointsArguments {
                    breakpoints: Entries::from_vec(self.addresses_asked()?),
                },
            )),
        }
    }

    fn lines_asked(&self) -> Result<Vec<SourceBreakpoint>, AllocError> {
        let mut asked = Vec::new(self.alloc);
        for breakpoint in self.breakpoints.as_slice() {
            if let At::Line(line) = breakpoint.at {
                asked.push(self.line_asked(line, breakpoint)?)?;
            }
        }
        Ok(asked)
    }

    fn line_asked(
        &self,
        line: u32,
        breakpoint: &Breakpoint,
    ) -> Result<SourceBreakpoint, AllocError> {
        Ok(SourceBreakpoint {
            line,
            condition: self.condition_of(breakpoint)?,
            hit_condition: self.hits_of(breakpoint)?,
            log_message: match &breakpoint.message {
                Some(message) => Some(text_of(self.alloc, message.as_str())?),
                None => None,
            },
        })
    }

    fn labels_asked(&self) -> Result<Vec<FunctionBreakpoint>, AllocError> {
        let mut asked = Vec::new(self.alloc);
        for breakpoint in self.breakpoints.as_slice() {
            if let At::Label(label) = &breakpoint.at {
                asked.push(self.label_asked(label.as_str(), breakpoint)?)?;
            }
        }
        Ok(asked)
    }

    fn label_asked(
        &self,
        label: &str,
        breakpoint: &Breakpoint,
    ) -> Result<FunctionBreakpoint, AllocError> {
        Ok(FunctionBreakpoint {
            name: text_of(self.alloc, label)?,
            condition: self.condition_of(breakpoint)?,
            hit_condition: self.hits_of(breakpoint)?,
        })
    }

    fn addresses_asked(&self) -> Result<Vec<InstructionBreakpoint>, AllocError> {
        let mut asked = Vec::new(self.alloc);
        for breakpoint in self.breakpoints.as_slice() {
            if let At::Address(address) = breakpoint.at {
                asked.push(self.address_asked(address, breakpoint)?)?;
            }
        }
        Ok(asked)
    }

    fn address_asked(
        &self,
        address: u32,
        breakpoint: &Breakpoint,
    ) -> Result<InstructionBreakpoint, AllocError> {
        Ok(InstructionBreakpoint {
            instruction_reference: Text::from_string(address_text(self.alloc, address)?),
            offset: 0,
            condition: self.condition_of(breakpoint)?,
            hit_condition: self.hits_of(breakpoint)?,
        })
    }

    fn condition_of(&self, breakpoint: &Breakpoint) -> Result<Option<Text>, AllocError> {
        match &breakpoint.condition {
            Some(text) => Ok(Some(Text::from_string(self.with_addresses(text.as_str())?))),
            None => Ok(None),
        }
    }

    fn hits_of(&self, breakpoint: &Breakpoint) -> Result<Option<Text>, AllocError> {
        match breakpoint.hits {
            Some(hits) => Ok(Some(Text::from_string(hits.to_string(self.alloc)?))),
            None => Ok(None),
        }
    }
}

// The breakpoint at an index of a list.
fn nth(breakpoints: &mut Vec<Breakpoint>, list: Listed, index: usize) -> Option<&mut Breakpoint> {
    let mut left = index;
    for breakpoint in breakpoints.iter_mut() {
        if breakpoint.list() == list {
            if left == 0 {
                return Some(breakpoint);
            }
            left -= 1;
        }
    }
    None
}
