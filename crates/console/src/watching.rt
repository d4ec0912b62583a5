//! Breakpoints that see another value: at every instruction of the program, with the condition that the value is another one. Of too many for one request
//! only those are set where an instruction of its text can have changed it.

use crate::asking::Answer;
use crate::changers::{Place, Reads};
use crate::console::Console;
use crate::piece::address_text;
use image::FIRST_ADDRESS;
use prompt::Direction;
use protocol::{Command, Entries, InstructionBreakpoint, SetInstructionBreakpointsArguments, Text};
use rv32i::{Instr, decode};
use std::alloc::AllocError;

/// The most breakpoints of one request.
const MOST_WATCHED: usize = 1_024;

impl Console {
    /// Sets breakpoints where the value is another one. Whether that could be done is told.
    pub(crate) fn watch(
        &mut self,
        direction: Direction,
        expression: &str,
        value: u32,
    ) -> Result<bool, AllocError> {
        let Some(places) = self.watched(direction, expression)? else {
            return Ok(false);
        };
        let asked = Command::SetInstructionBreakpoints(SetInstructionBreakpointsArguments {
            breakpoints: Entries::from_vec(self.conditional(&places, expression, value)?),
        });
        match self.ask(asked)? {
            Answer::Done(_) => Ok(true),
            _ => Ok(false),
        }
    }

    // Where the value is looked at: at each instruction or, of too many, where one of them can have changed it.
    fn watched(
        &self,
        direction: Direction,
        expression: &str,
    ) -> Result<Option<Vec<u32>>, AllocError> {
        match self.places(direction, None)? {
            Some(places) => Ok(Some(places)),
            None => self.places(direction, Some(Reads::of(expression))),
        }
    }

    // The address of each instruction, or of where each is seen to have changed what is read. `None`: there are too many.
    fn places(
        &self,
        direction: Direction,
        reads: Option<Reads>,
    ) -> Result<Option<Vec<u32>>, AllocError> {
        let mut places = Vec::new(self.alloc);
        for index in 0..self.words() {
            match self.place(direction, index, reads) {
                Place::At(address) if places.len() < MOST_WATCHED => places.push(address)?,
                Place::Nowhere => {}
                _ => return Ok(None),
            }
        }
        Ok(Some(places))
    }

    fn place(&self, direction: Direction, index: u32, reads: Option<Reads>) -> Place {
        let address = FIRST_ADDRESS.saturating_add(index.saturating_mul(4));
        match (self.instr_at(index), reads) {
            _ if !self.is_code(address) => Place::Nowhere,
            (_, None) => Place::At(address),
            (Some(instr), Some(reads)) => reads.place(direction, address, &instr),
            (None, Some(_)) => Place::Nowhere,
        }
    }

    // The instruction that the image has as the word of an index.
    fn instr_at(&self, index: u32) -> Option<Instr> {
        let image = self.image.as_ref()?;
        let start = usize::try_from(index).ok()?.saturating_mul(4);
        match image.bytes.as_slice().get(start..)? {
            [first, second, third, last, ..] => {
                decode(u32::from_le_bytes([*first, *second, *third, *last]))
            }
            _ => None,
        }
    }

    // Breakpoints at these places, where the value is another one.
    fn conditional(
        &self,
        places: &[u32],
        expression: &str,
        value: u32,
    ) -> Result<Vec<InstructionBreakpoint>, AllocError> {
        let alloc = self.alloc;
        let mut breakpoints = Vec::new(alloc);
        for address in places {
            let condition = format!(in alloc; "({expression}) != {value}")?;
            breakpoints.push(InstructionBreakpoint {
                instruction_reference: Text::from_string(address_text(alloc, *address)?),
                offset: 0,
                condition: Some(Text::from_string(condition)),
                hit_condition: None,
            })?;
        }
        Ok(breakpoints)
    }

    // How many words the image has, at most as many as are looked at.
    fn words(&self) -> u32 {
        match &self.image {
            Some(image) => u32::try_from(image.bytes.as_slice().len().div_ceil(4)).unwrap_or(0),
            None => 0,
        }
    }

    fn is_code(&self, address: u32) -> bool {
        match self.lines() {
            Some(lines) => lines.line_of(address).is_some(),
            None => false,
        }
    }
}
