//! What can be seen of a session, by a snapshot.
use session::{Session, Snapshot};
use std::alloc::Global;
use test_facts::{break_of, frame_of, value_of};
use testing::{Fault, parsed, shown};

/// Takes a snapshot, and answers a query of it. `printed` makes it that of the program as it ran, and answers how it runs then.
pub(crate) fn seen(alloc: Global, session: &Session, query: &[&str]) -> Result<String, Fault> {
    let Ok(mut snapshot) = session.snapshot() else {
        return Err(Fault::NoMemoryInCall);
    };
    match query {
        ["printed"] => {
            snapshot.set_running();
            Ok(format!(in alloc; "{:?}", snapshot.run())?)
        }
        query => answer(alloc, &snapshot, query),
    }
}

fn answer(alloc: Global, snapshot: &Snapshot, query: &[&str]) -> Result<String, Fault> {
    match query {
        ["run"] => Ok(format!(in alloc; "{:?}", snapshot.run())?),
        ["path"] => shown(alloc, snapshot.path().unwrap_or("none")),
        ["source_break", path, index] => {
            let index = parsed(index)?;
            break_of(alloc, snapshot.source_break(path.as_bytes(), index))
        }
        ["instruction_break", index] => break_of(alloc, snapshot.instruction_break(parsed(index)?)),
        ["function_break", index] => break_of(alloc, snapshot.function_break(parsed(index)?)),
        ["frame", index] => frame_of(alloc, snapshot.frame(parsed(index)?)),
        ["register", number] => value_of(alloc, snapshot.register(parsed(number)?)),
        ["byte", address] => {
            let byte = snapshot.byte(parsed(address)?);
            value_of(alloc, byte.map(u32::from))
        }
        _ => Err(Fault::NoCommand),
    }
}
