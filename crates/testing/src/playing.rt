//! A run of a player.

use crate::Fault;
use std::alloc::Global;
use std::io::Read;
use std::process::ExitCode;
use std::str;

/// A layer that is played.
pub trait Player {
    /// Makes the call that the arguments say, and gives the line that says what it answered.
    /// `NoMemoryInCall` where it answered that no memory was left: the same arguments then come again.
    fn answer(&mut self, alloc: Global, arguments: &[&str]) -> Result<String, Fault>;
}

/// Reads all of standard input and plays it, line by line, with a line of output for each. Where a
/// call answered that no memory was left, this is printed on a line of its own, and the call is made
/// once more.
///
/// Status 0 where all lines were played, 1 where a read or a write failed, 2 with the line `?` where
/// a line was no command, and 3 where the player itself found no memory, or a call found none twice.
pub fn play<P: Player>(rt: &HostRuntime, player: &mut P) -> ExitCode {
    match play_input(rt, player) {
        Ok(()) => ExitCode::SUCCESS,
        Err(fault) => {
            if fault == Fault::NoCommand {
                let _ = println!(rt; "?");
            }
            ExitCode::from(fault.status())
        }
    }
}

fn play_input<P: Player>(rt: &HostRuntime, player: &mut P) -> Result<(), Fault> {
    let mut input = Vec::new(rt.alloc());
    rt.stdin().read_to_end(&mut input)?;
    let text = str::from_utf8(&input).map_err(|_| Fault::NoCommand)?;
    for line in text.lines() {
        play_line(rt, player, line)?;
    }
    Ok(())
}

fn play_line<P: Player>(rt: &HostRuntime, player: &mut P, line: &str) -> Result<(), Fault> {
    let arguments: Vec<&str> = line.split(' ').collect(rt.alloc())?;
    let mut answer = player.answer(rt.alloc(), &arguments);
    if matches!(&answer, Err(Fault::NoMemoryInCall)) {
        println!(rt; "NoMemory")?;
        answer = player.answer(rt.alloc(), &arguments);
    }
    println!(rt; "{}", answer?)?;
    Ok(())
}
