//! Who changed a value: the program moves until an expression has another one.
//!
//! It runs where breakpoints see another value (`watching.rt`); where these can't be set, it moves by single instructions.

use crate::console::{Console, Waits};
use crate::errand::{Change, Errand, MOST_MOVES};
use crate::piece::{Listed, value_text};
use prompt::{Direction, Motion};
use replies::{Reason, Stopped};
use std::alloc::AllocError;

/// After how many single moves the instruction that changed a value is looked for no more.
const MOST_SINGLE: u32 = 65_536;

impl Console {
    /// Sets out to find what changes the value of an expression, on or back.
    pub(crate) fn look_for(&mut self, direction: Direction, text: &str) -> Result<(), AllocError> {
        let Some(value) = self.value_of(text)? else {
            return Ok(());
        };
        let change = self.change_of(direction, text, value)?;
        self.begin_to_look(change)
    }

    fn change_of(
        &self,
        direction: Direction,
        text: &str,
        value: u32,
    ) -> Result<Change, AllocError> {
        let expression = self.with_addresses(text)?;
        match String::from_str(self.alloc, text) {
            Ok(text) => Ok(Change {
                direction,
                text,
                expression,
                value,
                is_watched: false,
                left: MOST_MOVES,
            }),
            Err(error) => {
                drop(expression);
                Err(error)
            }
        }
    }

    fn begin_to_look(&mut self, mut change: Change) -> Result<(), AllocError> {
        match self.watch(change.direction, change.expression.as_str(), change.value) {
            Ok(is_watched) => {
                change.is_watched = is_watched;
                self.move_on(change)
            }
            Err(error) => {
                drop(change);
                Err(error)
            }
        }
    }

    // On, or back.
    fn move_on(&mut self, change: Change) -> Result<(), AllocError> {
        match self.set_out(motion_of(&change)) {
            Ok(true) => {
                self.errand = Errand::Change(change);
                Ok(())
            }
            Ok(false) => {
                let undone = self.unwatch(&change);
                drop(change);
                undone
            }
            Err(error) => {
                drop(change);
                Err(error)
            }
        }
    }

    // The breakpoints are again those that were asked for.
    fn unwatch(&mut self, change: &Change) -> Result<(), AllocError> {
        if change.is_watched {
            self.set_list(Listed::Instructions)?;
        }
        Ok(())
    }

    /// The program stopped: is the value another one?
    pub(crate) fn compare(&mut self, change: Change, stop: &Stopped) -> Result<(), AllocError> {
        match self.is_as_before(&change, stop) {
            Ok(true) => self.go_further(change, stop),
            Ok(false) => {
                drop(change);
                Ok(())
            }
            Err(error) => {
                drop(change);
                Err(error)
            }
        }
    }

    // Whether it is the old one after a single move. Else what was found is said, and the program stays where it is.
    fn is_as_before(&mut self, change: &Change, stop: &Stopped) -> Result<bool, AllocError> {
        self.unwatch(change)?;
        match self.evaluated(change.expression.as_str())? {
            Some(value) if value != change.value => self.found(change, value)?,
            Some(_) if is_single(change, stop) => return Ok(true),
            Some(_) => self.not_found(change, stop)?,
            None => self.lost(change)?,
        }
        Ok(false)
    }

    fn go_further(&mut self, mut change: Change, stop: &Stopped) -> Result<(), AllocError> {
        change.left = change.left.saturating_sub(1);
        if change.left > 0 {
            return self.move_on(change);
        }
        let said = self.not_found(&change, stop);
        drop(change);
        said
    }

    // Something else stopped the program, or it made as many moves as it may.
    fn not_found(&mut self, change: &Change, stop: &Stopped) -> Result<(), AllocError> {
        if change.left == 0 {
            self.refuse("unchanged after 1,000,000 instructions")?;
        }
        self.arrive(stop)
    }

    // The expression has a value no more.
    fn lost(&mut self, change: &Change) -> Result<(), AllocError> {
        let (alloc, text) = (self.alloc, change.text.as_str());
        let words = format!(in alloc; "{text} has no value here")?;
        self.refuse(words.as_str())?;
        self.waits = Waits::Line;
        self.show_here()
    }

    // The value is another one: what it was and is, and the instruction that changed it.
    fn found(&mut self, change: &Change, value: u32) -> Result<(), AllocError> {
        let alloc = self.alloc;
        let (before, after) = match change.direction {
            Direction::Forward => (change.value, value),
            Direction::Backward => (value, change.value),
        };
        let text = change.text.as_str();
        let (before, after) = (value_text(alloc, before)?, value_text(alloc, after)?);
        let words = format!(in alloc; "{text} was {before}\n{text} is  {after}\nchanged by\n")?;
        self.say(words.as_str())?;
        self.show_changer(change)?;
        self.waits = Waits::Line;
        self.show_here()
    }

    // Shows the instruction that changed the value. The program then stands after it, or at it where it went back.
    fn show_changer(&mut self, change: &Change) -> Result<(), AllocError> {
        match change.direction {
            Direction::Forward => {
                self.return_to(change, Motion::Back)?;
                self.show_instruction_here()?;
                self.moves_once(Motion::StepInstruction)?;
            }
            Direction::Backward => {
                self.return_to(change, Motion::StepInstruction)?;
                self.moves_once(Motion::Back)?;
                self.show_instruction_here()?;
            }
        }
        Ok(())
    }

    // Moves until the value is the old one.
    fn return_to(&mut self, change: &Change, motion: Motion) -> Result<(), AllocError> {
        for _ in 0..MOST_SINGLE {
            if !self.moves_once(motion)? {
                break;
            }
            if self.evaluated(change.expression.as_str())? == Some(change.value) {
                break;
            }
        }
        Ok(())
    }

    // A move by one instruction. Whether it was made is told.
    fn moves_once(&mut self, motion: Motion) -> Result<bool, AllocError> {
        if !self.set_out(motion)? {
            return Ok(false);
        }
        let moved = self.link.slice(1)?;
        drop(self.hear()?);
        self.stop = None;
        Ok(moved > 0)
    }

    fn show_instruction_here(&mut self) -> Result<(), AllocError> {
        if self.look()? {
            self.show_instructions_here(1)?;
        }
        Ok(())
    }
}

// Whether a stop is a single move's, and not the last that may be made.
fn is_single(change: &Change, stop: &Stopped) -> bool {
    !change.is_watched && stop.reason == Reason::Step && stop.text.is_none()
}

fn motion_of(change: &Change) -> Motion {
    match (change.direction, change.is_watched) {
        (Direction::Forward, true) => Motion::Continue,
        (Direction::Forward, false) => Motion::StepInstruction,
        (Direction::Backward, true) => Motion::ReverseContinue,
        (Direction::Backward, false) => Motion::Back,
    }
}
