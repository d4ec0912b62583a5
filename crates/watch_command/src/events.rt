//! The events of a script.
ghost use Rattle.std.specs.Prelude.{◌≡◌, IfOk};
ghost use Rattle.transport.specs.Files.{Records};
ghost use Rattle.transport.specs.Rounds.{read_for};
ghost use Rattle.watch_command.specs.Private.Playing.{HasEvent, HasEvents};

use scripts::Step;
use session::{Bytes, Event};
use std::alloc::{AllocError, Global};
use transport::{Files, file_at};

/// The events of a script's steps, in order, with what the files hold that it names: a file that cannot be read is none.
pub(crate) fn events_of<F: Files>(
    alloc: Global,
    steps: Vec<Step>,
    files: &mut F,
) -> Result<Vec<Event>, AllocError>
    ensures { IfOk result (λ events. HasEvents steps.items
        (F.past files.old) (F.past files.new) events.items) }
{
    let mut events = Vec::new(alloc);
    for step in steps {
        events.push(event_of(alloc, step, files)?)?;
    }
    Ok(events)
}

fn event_of<F: Files>(alloc: Global, step: Step, files: &mut F) -> Result<Event, AllocError>
    ensures { IfOk result (λ event. HasEvent step (F.past files.old) (F.past files.new) event) }
{
    Ok(match step {
        Step::Connect => Event::Connect,
        Step::Recv(piece) => Event::Recv(piece),
        Step::Turn(None) => Event::Turn(None),
        Step::Turn(Some(path)) => Event::Turn(file_at(alloc, files, path.as_str())?),
        Step::Slice(moves) => Event::Slice(moves),
        Step::Hold => Event::Hold,
        Step::Sent(count) => Event::Sent(within(count)),
        Step::DropConnection => Event::DropConnection,
    })
}

/// A count of bytes.
pub(crate) fn within(count: u64) -> usize
    ensures { result ≡ count }
{
    usize::try_from(count).unwrap_or(usize::MAX)
}
