//! A machine with a program, from its start to its end.

ghost use Rattle.std.specs.Bool.{OnTrue};
ghost use Rattle.stepping.specs.Loading.{CanBeLoaded};

use crate::SIZE;
use image::Image;
use std::alloc::{AllocError, Global};
use stepping::{Goal, Outcome, Reason, RunEnd, Runner};

/// How many ticks are made at most before the bench looks at the machine, as a debugger would for requests.
const SLICE: u32 = 100_000;

/// How many instructions may have retired before a slice.
pub(crate) const LIMIT: u64 = 1 << 61;

/// The registers of the stack pointer, and of the argument.
const SP: usize = 2;

const A0: usize = 10;

/// What comes after a slice.
#[derive(Clone, Copy)]
enum Next {
    /// The run continues.
    On,
    /// The step is over, and another begins.
    Step,
    /// The program has ended, with a code or by something else.
    End(Option<i32>),
}

/// A machine at the start of an image, with the argument in a0 and a word above the stack; `None`: no memory has room for the image.
pub(crate) fn loaded(
    alloc: Global,
    image: &Image,
    argument: u32,
) -> Result<Option<Runner>, AllocError> {
    if !can_be_loaded(image) {
        return Ok(None);
    }
    let mut runner = Runner::new(alloc, image, SIZE)?;
    let mut hart = *runner.hart();
    hart.x[SP] = hart.x[SP].wrapping_sub(16);
    hart.x[A0] = argument;
    runner.set_hart(hart);
    Ok(Some(runner))
}

// Whether memory has room for an image, whose entry is at a multiple of 4.
fn can_be_loaded(image: &Image) -> bool
    ensures { OnTrue result (CanBeLoaded image.now SIZE) }
{
    image.bytes.as_slice().len() <= SIZE as usize && image.entry % 4 == 0
}

/// Runs a program to its end, with a goal that is set again after each stop at it, and answers the program's code; `None`: it
/// has stopped otherwise.
pub(crate) fn run(runner: &mut Runner, goal: Goal) -> Option<i32> {
    runner.begin(goal, false);
    for _ in 0..u64::MAX {
        if runner.retired() > LIMIT {
            return None;
        }
        match next_of(runner.run(SLICE).ending) {
            Next::On => {}
            Next::Step => runner.begin(goal, false),
            Next::End(code) => return code,
        }
    }
    None
}

fn next_of(ending: RunEnd) -> Next {
    match ending {
        RunEnd::Spent => Next::On,
        RunEnd::NoMemory => Next::End(None),
        RunEnd::Ticked(tick) => match tick.outcome {
            Outcome::Went => Next::On,
            Outcome::Stopped(Reason::Goal) => Next::Step,
            Outcome::Stopped(_) => Next::End(None),
            Outcome::Ended(code) => Next::End(Some(code)),
        },
    }
}
