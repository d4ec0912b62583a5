//! What is known, a line for each fact, and beside it what could be seen.

use facts::{BreakInfo, RunState};
use mirror::Mirror;
use rv32i::reg_name;
use session::Snapshot;
use std::alloc::{AllocError, Global};
use watch_events::Watched;

/// The number of pc among the registers.
const COUNTER: u32 = 32;

/// The most frames: the one that runs, and those of the calls that are kept.
const FRAMES: u32 = 257;

/// The most breakpoints of a list.
const BREAKS: usize = 1_024;

/// Memory begins at this address.
const FIRST_ADDRESS: u32 = 65_536;

/// All that is known, a line for each fact: its value, and the value that could be seen, or `-` where there was none. First how the
/// machine runs; then the breakpoints of the program's source, those at instructions and those at functions, the frames, the registers,
/// and the bytes of a memory of this size, each in the order of their places.
pub(crate) fn lines_of(
    alloc: Global,
    watched: &Watched,
    memory_size: u32,
) -> Result<String, AllocError> {
    let mut text = String::new(alloc);
    let (mirror, seen) = (&watched.mirror, watched.snapshot.as_ref());
    add_run(&mut text, mirror.run(), seen.map(Snapshot::run))?;
    add_source_breaks(&mut text, mirror, seen)?;
    add_instruction_breaks(&mut text, mirror, seen)?;
    add_function_breaks(&mut text, mirror, seen)?;
    add_frames(&mut text, mirror, seen)?;
    add_registers(&mut text, mirror, seen)?;
    add_bytes(&mut text, mirror, seen, memory_size)?;
    Ok(text)
}

fn add_run(text: &mut String, known: RunState, seen: Option<RunState>) -> Result<(), AllocError> {
    text.push_str("run ")?;
    add_state(text, known)?;
    text.push(' ')?;
    match seen {
        Some(seen) => add_state(text, seen)?,
        None => text.push('-')?,
    }
    text.push('\n')
}

fn add_state(text: &mut String, state: RunState) -> Result<(), AllocError> {
    match state {
        RunState::Unknown => text.push_str("unknown"),
        RunState::Running => text.push_str("running"),
        RunState::Stopped => text.push_str("stopped"),
        RunState::Ended(None) => text.push_str("ended"),
        RunState::Ended(Some(code)) => write!(text, "ended:{code}"),
    }
}

// The breakpoints in the source of the program that could be seen.
fn add_source_breaks(
    text: &mut String,
    mirror: &Mirror,
    seen: Option<&Snapshot>,
) -> Result<(), AllocError> {
    let Some(seen) = seen else {
        return Ok(());
    };
    let Some(path) = seen.path() else {
        return Ok(());
    };
    for index in 0..BREAKS {
        let Some(known) = mirror.source_break(path.as_bytes(), index) else {
            return Ok(());
        };
        let there = seen.source_break(path.as_bytes(), index);
        add_break(text, "break", index, known, there)?;
    }
    Ok(())
}

fn add_instruction_breaks(
    text: &mut String,
    mirror: &Mirror,
    seen: Option<&Snapshot>,
) -> Result<(), AllocError> {
    for index in 0..BREAKS {
        let Some(known) = mirror.instruction_break(index) else {
            return Ok(());
        };
        let there = seen.and_then(|s| s.instruction_break(index));
        add_break(text, "ibreak", index, known, there)?;
    }
    Ok(())
}

fn add_function_breaks(
    text: &mut String,
    mirror: &Mirror,
    seen: Option<&Snapshot>,
) -> Result<(), AllocError> {
    for index in 0..BREAKS {
        let Some(known) = mirror.function_break(index) else {
            return Ok(());
        };
        let there = seen.and_then(|s| s.function_break(index));
        add_break(text, "fbreak", index, known, there)?;
    }
    Ok(())
}

// A breakpoint: its place in its list, its number and its address.
fn add_break(
    text: &mut String,
    kind: &str,
    index: usize,
    known: BreakInfo,
    seen: Option<BreakInfo>,
) -> Result<(), AllocError> {
    let id = known.id;
    write!(text, "{kind} {index} {id} ")?;
    add_words(text, known.address, seen.map(|s| s.address))
}

fn add_frames(
    text: &mut String,
    mirror: &Mirror,
    seen: Option<&Snapshot>,
) -> Result<(), AllocError> {
    for index in 0..FRAMES {
        if let Some(known) = mirror.frame(index) {
            write!(text, "frame {index} ")?;
            let there = seen.and_then(|s| s.frame(index));
            add_words(text, known.address, there.map(|f| f.address))?;
        }
    }
    Ok(())
}

fn add_registers(
    text: &mut String,
    mirror: &Mirror,
    seen: Option<&Snapshot>,
) -> Result<(), AllocError> {
    for number in 0..COUNTER + 1 {
        if let Some(known) = mirror.register(number) {
            text.push_str(name_of(number))?;
            text.push(' ')?;
            add_words(text, known, seen.and_then(|s| s.register(number)))?;
        }
    }
    Ok(())
}

// The name of a register, or of pc.
fn name_of(number: u32) -> &'static str {
    if number < COUNTER {
        reg_name(number)
    } else {
        "pc"
    }
}

fn add_bytes(
    text: &mut String,
    mirror: &Mirror,
    seen: Option<&Snapshot>,
    memory_size: u32,
) -> Result<(), AllocError> {
    for address in FIRST_ADDRESS..FIRST_ADDRESS.saturating_add(memory_size) {
        if let Some(known) = mirror.byte(address) {
            write!(text, "byte 0x{address:08x} {known:02x} ")?;
            match seen.and_then(|s| s.byte(address)) {
                Some(there) => write!(text, "{there:02x}\n")?,
                None => text.push_str("-\n")?,
            }
        }
    }
    Ok(())
}

// The end of a line: a word that is known, and the one that could be seen.
fn add_words(text: &mut String, known: u32, seen: Option<u32>) -> Result<(), AllocError> {
    match seen {
        Some(seen) => write!(text, "0x{known:08x} 0x{seen:08x}\n"),
        None => write!(text, "0x{known:08x} -\n"),
    }
}
