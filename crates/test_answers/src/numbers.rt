//! Numbers of frames and scopes.
//!
//! - `last NUMBER`: no number is issued yet, and this is the last that may be; at the start it is 2,147,483,647.
//! - `issue TARGET..`, `number TARGET`: numbers of targets; each is `registers`, `stack` or the index of a frame. `issue_once`
//!   is not made again where it found no memory, which is its answer then.
//! - `find NUMBER`, `next`, `end`: what a number refers to; the next number; the stop ends.

ghost use Rattle.std.specs.Prelude.{◌≡◌, Ok, codes};

use crate::program::{LAST, Program};
use std::alloc::{AllocError, Global};
use testing::{Fault, Line, parsed};
use variables::{Handles, IssueError, Target};

impl Program {
    /// What is answered of numbers.
    pub(crate) fn answer_number(
        &mut self,
        alloc: Global,
        arguments: &[&str],
        line: &mut Line,
    ) -> Result<(), Fault> {
        match arguments {
            ["last", last] => self.last(alloc, parsed(last)?, line),
            ["issue", targets @ ..] => self.issue(alloc, targets, line),
            ["issue_once", targets @ ..] => match self.issue(alloc, targets, line) {
                Err(Fault::NoMemoryInCall) => line.word("NoMemory"),
                answer => answer,
            },
            ["number", target] => line.optional(self.handles.number(target_of(target)?)),
            ["find", number] => match self.handles.find(parsed(number)?) {
                Ok(target) => line.name(target),
                Err(error) => line.name(error),
            },
            ["next"] => line.value(self.handles.next()),
            ["end"] => {
                self.handles.end_stop();
                line.word("ok")
            }
            _ => Err(Fault::NoCommand),
        }
    }

    fn last(&mut self, alloc: Global, last: u32, line: &mut Line) -> Result<(), Fault> {
        if last > LAST {
            return Err(Fault::NoCommand);
        }
        self.handles = Handles::new(alloc, last);
        line.word("ok")
    }

    fn issue(&mut self, alloc: Global, targets: &[&str], line: &mut Line) -> Result<(), Fault> {
        let targets = targets_of(alloc, targets)?;
        match self.handles.issue(&targets) {
            Ok(numbers) => {
                line.word("issued")?;
                for number in numbers {
                    line.value(number)?;
                }
                Ok(())
            }
            Err(IssueError::NoMemory) => Err(Fault::NoMemoryInCall),
            Err(error) => line.name(error),
        }
    }
}

/// Adds targets, each as the word that names it.
pub(crate) fn show_targets(targets: &[Target], line: &mut Line) -> Result<(), Fault> {
    if targets.is_empty() {
        return Ok(());
    }
    line.word("targets")?;
    for target in targets {
        match target {
            Target::Frame(index) => line.value(*index)?,
            Target::Registers => line.word("registers")?,
            Target::Stack => line.word("stack")?,
        }
    }
    Ok(())
}

fn target_of(word: &str) -> Result<Target, Fault>
    ensures registers { word.now ≡ codes "registers" → result ≡ Ok Target.Registers }
    ensures stack { word.now ≡ codes "stack" → result ≡ Ok Target.Stack }
{
    match word {
        "registers" => Ok(Target::Registers),
        "stack" => Ok(Target::Stack),
        frame => Ok(Target::Frame(parsed(frame)?)),
    }
}

fn targets_of(alloc: Global, words: &[&str]) -> Result<Vec<Target>, Fault> {
    let mut targets = Vec::with_capacity(alloc, words.len())?;
    for word in words {
        targets.push(target_of(word)?).map_err(AllocError::from)?;
    }
    Ok(targets)
}
