//! Runs a program on a hart, step by step: what `bench/hart/run` times.
//!
//! Words: the program (`tight`, `sort` or `fib`), and its argument.

use crate::programs::{FIB, SORT, TIGHT};
use crate::{End, SIZE};
use image::{FIRST_ADDRESS, Memory};
use rv32i::{Hart, Stepped};
use std::alloc::AllocError;
use std::io;

/// How a run ended: after this many instructions, with what the last step answered.
#[derive(Clone, Copy)]
struct Ending {
    retired: u64,
    stepped: Stepped,
}

/// Does what the words say.
pub(crate) fn measure(rt: &HostRuntime, words: &[String]) -> io::Result<End> {
    let Some((program, argument)) = load_of(words) else {
        return Ok(End::Usage);
    };
    let mut memory = Memory::new(rt.alloc(), FIRST_ADDRESS, SIZE)?;
    place(&mut memory, program)?;
    let ending = run(&mut memory, argument)?;
    let retired = ending.retired;
    match ending.stepped {
        Stepped::Exit(code) => println!(rt; "{retired} instructions, code {code}")?,
        _ => println!(rt; "{retired} instructions, and then a stop")?,
    }
    Ok(End::Done)
}

fn load_of(words: &[String]) -> Option<(&'static [u32], u32)> {
    let [program, argument] = words else {
        return None;
    };
    let argument = argument.as_str().parse().ok()?;
    match program.as_str() {
        "tight" => Some((TIGHT, argument)),
        "sort" => Some((SORT, argument)),
        "fib" => Some((FIB, argument)),
        _ => None,
    }
}

// The program lies in memory, so all that can be wrong is that none is left for its page.
fn place(memory: &mut Memory, program: &[u32]) -> Result<(), AllocError> {
    let mut at = FIRST_ADDRESS;
    for word in program {
        if memory.write_word(at, *word).is_err() {
            return Err(AllocError);
        }
        at = at.wrapping_add(4);
    }
    Ok(())
}

/// A hart at the program's start, with the argument in a0.
fn hart_with(argument: u32) -> Hart {
    let mut hart = Hart::new(FIRST_ADDRESS, FIRST_ADDRESS + SIZE);
    hart.x[10] = argument;
    hart
}

fn run(memory: &mut Memory, argument: u32) -> Result<Ending, AllocError> {
    let mut hart = hart_with(argument);
    let mut stepped = Stepped::Retired;
    for retired in 0..u64::MAX {
        stepped = hart.step(memory)?;
        if stepped != Stepped::Retired {
            return Ok(Ending { retired, stepped });
        }
    }
    Ok(Ending {
        retired: u64::MAX,
        stepped,
    })
}
