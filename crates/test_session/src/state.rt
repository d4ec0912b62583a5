//! All that a session says of itself, in a line.

use session::{Session, Snapshot};
use std::alloc::Global;
use testing::{Fault, Line};

/// The breakpoints of each kind that are looked at.
const BREAKS: usize = 4;
/// The frames that are looked at.
const FRAMES: u32 = 4;
/// The registers, and pc.
const REGISTERS: u32 = 33;
/// The bytes that are looked at: the first 64, and the last 16 of memory of 1 MiB.
const FIRST: u32 = 0x0001_0000;

const AFTER_FIRST: u32 = 0x0001_0040;

const LAST: u32 = 0x0010_fff0;

const AFTER_LAST: u32 = 0x0011_0000;
/// The file whose breakpoints are looked at.
const PATH: &[u8] = b"/w/p.s";

/// The answers of the queries, then how the program runs, its path and its breakpoints; and after `|` its frames, registers and bytes.
/// Where a snapshot finds no memory the player has found none.
pub(crate) fn state_of(alloc: Global, session: &Session) -> Result<String, Fault> {
    let Ok(snapshot) = session.snapshot() else {
        return Err(Fault::NoMemory);
    };
    let mut line = Line::new(alloc);
    add_queries(&mut line, session)?;
    add_run(&mut line, &snapshot)?;
    line.word("|")?;
    add_frames(&mut line, &snapshot)?;
    add_registers(&mut line, &snapshot)?;
    add_bytes(&mut line, &snapshot, FIRST, AFTER_FIRST)?;
    add_bytes(&mut line, &snapshot, LAST, AFTER_LAST)?;
    Ok(line.into_string())
}

fn add_queries(line: &mut Line, session: &Session) -> Result<(), Fault> {
    line.bytes(session.waiting())?;
    line.value(session.pending())?;
    line.value(session.runnable())?;
    line.word(session.wants_file().unwrap_or("none"))?;
    line.value(session.finished())?;
    line.name(session.link_fault())
}

fn add_run(line: &mut Line, snapshot: &Snapshot) -> Result<(), Fault> {
    line.name(snapshot.run())?;
    line.word(snapshot.path().unwrap_or("none"))?;
    for index in 0..BREAKS {
        line.name(snapshot.source_break(PATH, index))?;
        line.name(snapshot.instruction_break(index))?;
        line.name(snapshot.function_break(index))?;
    }
    Ok(())
}

fn add_frames(line: &mut Line, snapshot: &Snapshot) -> Result<(), Fault> {
    for index in 0..FRAMES {
        match snapshot.frame(index) {
            Some(frame) => {
                line.value(frame.id)?;
                line.value(frame.address)?;
                line.word(frame.name.as_str())?;
            }
            None => line.word("none")?,
        }
    }
    Ok(())
}

fn add_registers(line: &mut Line, snapshot: &Snapshot) -> Result<(), Fault> {
    for number in 0..REGISTERS {
        line.optional(snapshot.register(number))?;
    }
    Ok(())
}

fn add_bytes(line: &mut Line, snapshot: &Snapshot, from: u32, to: u32) -> Result<(), Fault> {
    for address in from..to {
        line.optional(snapshot.byte(address))?;
    }
    Ok(())
}
