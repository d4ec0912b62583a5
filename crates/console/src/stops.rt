//! Breakpoints, by the numbers that they have here.

use crate::console::Console;
use crate::page::Part;
use crate::piece::Listed;
use prompt::{Place, Stop, Text as Typed};
use protocol::Text;
use replies::Stopped;
use std::alloc::{AllocError, Global};

/// Where a breakpoint is.
#[derive(Drop)]
pub(crate) enum At {
    Line(u32),
    Label(String),
    Address(u32),
}

/// A breakpoint that was asked for.
#[derive(Drop)]
pub(crate) struct Breakpoint {
    /// Its number here.
    pub(crate) number: u32,
    pub(crate) at: At,
    /// Its condition, as it was typed.
    pub(crate) condition: Option<String>,
    pub(crate) hits: Option<u32>,
    /// What it says instead of stopping.
    pub(crate) message: Option<String>,
    pub(crate) is_temporary: bool,
    /// Its number in the session; 0 where it has none.
    pub(crate) id: u32,
    /// Why it has none.
    pub(crate) why: Option<String>,
}

impl Breakpoint {
    /// The list of the session in which it is.
    pub(crate) fn list(&self) -> Listed {
        match self.at {
            At::Line(_) => Listed::Source,
            At::Label(_) => Listed::Functions,
            At::Address(_) => Listed::Instructions,
        }
    }
}

impl Console {
    /// Sets a breakpoint, or says why it can't be set.
    pub(crate) fn set_breakpoint(&mut self, stop: &Stop<'_>) -> Result<(), AllocError> {
        let Some(at) = self.at_place(&stop.place)? else {
            return Ok(());
        };
        let condition = owned(self.alloc, stop.condition.as_ref())?;
        self.add(Breakpoint {
            number: self.last_breakpoint.saturating_add(1),
            at,
            condition,
            hits: stop.hits,
            message: None,
            is_temporary: stop.is_temporary,
            id: 0,
            why: None,
        })
    }

    /// Sets a logpoint: at a line, or at a label or an address where a line's code lies.
    pub(crate) fn set_logpoint(
        &mut self,
        place: &Place<'_>,
        text: &Typed<'_>,
    ) -> Result<(), AllocError> {
        let Some(line) = self.line_of(place)? else {
            return Ok(());
        };
        let message = String::from_str(self.alloc, text.as_str())?;
        self.add(Breakpoint {
            number: self.last_breakpoint.saturating_add(1),
            at: At::Line(line),
            condition: None,
            hits: None,
            message: Some(message),
            is_temporary: false,
            id: 0,
            why: None,
        })
    }

    fn at_place(&mut self, place: &Place<'_>) -> Result<Option<At>, AllocError> {
        match place {
            Place::Line(line) => Ok(Some(At::Line(*line))),
            Place::Label(label) => self.at_label(label.as_str()),
            Place::Address(text) => match self.value_of(text.as_str())? {
                Some(address) => Ok(Some(At::Address(address))),
                None => Ok(None),
            },
        }
    }

    fn at_label(&mut self, label: &str) -> Result<Option<At>, AllocError> {
        match self.address_of_label(label)? {
            Some(_) => Ok(Some(At::Label(String::from_str(self.alloc, label)?))),
            None => Ok(None),
        }
    }

    // A breakpoint after the others; if it can't be set, it goes, and why is said.
    fn add(&mut self, breakpoint: Breakpoint) -> Result<(), AllocError> {
        let (number, list) = (breakpoint.number, breakpoint.list());
        self.breakpoints.push(breakpoint)?;
        if !self.set_list(list)? {
            drop(self.breakpoints.pop());
            return Ok(());
        }
        if self.keep_set(list)? {
            self.last_breakpoint = number;
            self.show_set(number, list)?;
        }
        Ok(())
    }

    // The breakpoints that are not set go, and why is said of each. Whether all are set is told.
    fn keep_set(&mut self, list: Listed) -> Result<bool, AllocError> {
        let mut are_all = true;
        for _ in 0..self.breakpoints.len() {
            let Some(breakpoint) = taken_unset(&mut self.breakpoints) else {
                break;
            };
            self.refuse_unset(&breakpoint)?;
            are_all = false;
        }
        if !are_all {
            self.set_list(list)?;
        }
        Ok(are_all)
    }

    fn refuse_unset(&mut self, breakpoint: &Breakpoint) -> Result<(), AllocError> {
        let (alloc, number) = (self.alloc, breakpoint.number);
        let why = match &breakpoint.why {
            Some(why) => why.as_str(),
            None => "it cannot be set",
        };
        let words = format!(in alloc; "breakpoint {number}: {why}")?;
        self.refuse(words.as_str())
    }

    // Shows a breakpoint that was set.
    fn show_set(&mut self, number: u32, list: Listed) -> Result<(), AllocError> {
        let alloc = self.alloc;
        let words = format!(in alloc; "breakpoint {number} at ")?;
        self.say(words.as_str())?;
        let index = self.index_of(number, list);
        self.page.put(Part::Break(list, index))?;
        self.say("\n")
    }

    // The index that a breakpoint has in its list.
    fn index_of(&self, number: u32, list: Listed) -> usize {
        let mut index: usize = 0;
        for breakpoint in self.breakpoints.as_slice() {
            if breakpoint.number == number {
                break;
            }
            if breakpoint.list() == list {
                index = index.saturating_add(1);
            }
        }
        index
    }

    /// The number that a breakpoint of the session has here; 0 where it is none of those that were asked for.
    pub(crate) fn number_of(&self, id: u32) -> u32 {
        for breakpoint in self.breakpoints.as_slice() {
            if breakpoint.id == id {
                return breakpoint.number;
            }
        }
        0
    }

    /// Whether a breakpoint lies at a line.
    pub(crate) fn has_breakpoint(&self, line: u32) -> bool {
        for breakpoint in self.breakpoints.as_slice() {
            if self.line_at(&breakpoint.at) == Some(line) {
                return true;
            }
        }
        false
    }

    // The line at which a breakpoint lies.
    fn line_at(&self, at: &At) -> Option<u32> {
        let lines = self.lines()?;
        match at {
            At::Line(line) => {
                let (line, _) = lines.bind(*line)?;
                Some(line)
            }
            At::Label(label) => lines.line_of(lines.label_address(label.as_str())?),
            At::Address(address) => lines.line_of(*address),
        }
    }

    /// Sets all breakpoints once more, in a program that was launched: its session has none yet.
    pub(crate) fn set_again(&mut self) -> Result<(), AllocError> {
        self.set_list_again(Listed::Source)?;
        self.set_list_again(Listed::Functions)?;
        self.set_list_again(Listed::Instructions)
    }

    fn set_list_again(&mut self, list: Listed) -> Result<(), AllocError> {
        if self.has_some(list) && self.set_list(list)? {
            self.keep_set(list)?;
        }
        Ok(())
    }

    // Whether a list has a breakpoint.
    fn has_some(&self, list: Listed) -> bool {
        for breakpoint in self.breakpoints.as_slice() {
            if breakpoint.list() == list {
                return true;
            }
        }
        false
    }

    /// Deletes the breakpoint of a number, or all.
    pub(crate) fn delete(&mut self, number: Option<u32>) -> Result<(), AllocError> {
        let Some(number) = number else {
            return self.delete_all();
        };
        match taken(&mut self.breakpoints, number) {
            Some(breakpoint) => self.unset(&breakpoint),
            None => self.refuse_number("breakpoint", number),
        }
    }

    fn delete_all(&mut self) -> Result<(), AllocError> {
        self.breakpoints.clear();
        self.set_list(Listed::Source)?;
        self.set_list(Listed::Functions)?;
        self.set_list(Listed::Instructions)?;
        Ok(())
    }

    // A breakpoint was taken from the list: the session is told of the others.
    fn unset(&mut self, breakpoint: &Breakpoint) -> Result<(), AllocError> {
        self.set_list(breakpoint.list())?;
        Ok(())
    }

    /// Says that nothing has this number.
    pub(crate) fn refuse_number(&mut self, what: &str, number: u32) -> Result<(), AllocError> {
        let alloc = self.alloc;
        let words = format!(in alloc; "there is no {what} {number}")?;
        self.refuse(words.as_str())
    }

    /// Deletes the temporary breakpoints that were met by a stop.
    pub(crate) fn delete_met(&mut self, stop: &Stopped) -> Result<(), AllocError> {
        for id in stop.hit_breakpoint_ids.as_slice() {
            if let Some(breakpoint) = taken_met(&mut self.breakpoints, *id) {
                self.unset(&breakpoint)?;
            }
        }
        Ok(())
    }

    /// Shows the breakpoints.
    pub(crate) fn show_breakpoints(&mut self) -> Result<(), AllocError> {
        if self.breakpoints.is_empty() {
            return self.say("no breakpoints\n");
        }
        for index in 0..self.breakpoints.len() {
            self.show_breakpoint(index)?;
        }
        Ok(())
    }

    fn show_breakpoint(&mut self, index: usize) -> Result<(), AllocError> {
        let Some(breakpoint) = self.breakpoints.get(index) else {
            return Ok(());
        };
        let alloc = self.alloc;
        let (number, list) = (breakpoint.number, breakpoint.list());
        let before = format!(in alloc; "{number:>4}  ")?;
        let after = described(alloc, breakpoint)?;
        let place = self.index_of(number, list);
        self.say(before.as_str())?;
        self.page.put(Part::Break(list, place))?;
        self.say(after.as_str())
    }
}

/// A copy of a text.
pub(crate) fn text_of(alloc: Global, text: &str) -> Result<Text, AllocError> {
    Ok(Text::from_string(String::from_str(alloc, text)?))
}

fn owned(alloc: Global, text: Option<&Typed<'_>>) -> Result<Option<String>, AllocError> {
    match text {
        Some(text) => Ok(Some(String::from_str(alloc, text.as_str())?)),
        None => Ok(None),
    }
}

// The first that is not set, which is taken out.
fn taken_unset(breakpoints: &mut Vec<Breakpoint>) -> Option<Breakpoint> {
    let index = breakpoints
        .iter()
        .position(|breakpoint| breakpoint.why.is_some())?;
    Some(breakpoints.remove(index))
}

// That of a number, which is taken out.
fn taken(breakpoints: &mut Vec<Breakpoint>, number: u32) -> Option<Breakpoint> {
    let index = breakpoints
        .iter()
        .position(|breakpoint| breakpoint.number == number)?;
    Some(breakpoints.remove(index))
}

// The temporary one that the session calls by this number, which is taken out.
fn taken_met(breakpoints: &mut Vec<Breakpoint>, id: u32) -> Option<Breakpoint> {
    let index = breakpoints.iter().position(|breakpoint| breakpoint.is_temporary
        && breakpoint.id == id)?;
    Some(breakpoints.remove(index))
}

// What is said of a breakpoint after its address.
fn described(alloc: Global, breakpoint: &Breakpoint) -> Result<String, AllocError> {
    let mut words = match &breakpoint.at {
        At::Line(line) => format!(in alloc; "  line {line}")?,
        At::Label(label) => format!(in alloc; "  {label}")?,
        At::Address(_) => String::new(alloc),
    };
    if let Some(condition) = &breakpoint.condition {
        words.push_str("  if ")?;
        words.push_str(condition.as_str())?;
    }
    if let Some(hits) = breakpoint.hits {
        words.push_str("  hit ")?;
        let hits = hits.to_string(alloc)?;
        words.push_str(hits.as_str())?;
    }
    if let Some(message) = &breakpoint.message {
        words.push_str("  says ")?;
        words.push_str(message.as_str())?;
    }
    if breakpoint.is_temporary {
        words.push_str("  once")?;
    }
    words.push('\n')?;
    Ok(words)
}
