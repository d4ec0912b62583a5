//! What an event says.
ghost use Rattle.std.specs.Prelude.{◌≡◌, ◌++◌, IfOk, OnOk};
ghost use Rattle.session.specs.declared.event.Applied.TheVariants as applied;
ghost use Rattle.watch_command.specs.Conversing as spec;
ghost use Rattle.watch_command.specs.Private.Conversing as inner;
ghost use Rattle.watch_command.specs.Private.Conversing.{DoesOne, IsReady};
ghost use Rattle.watch_command.specs.Playing.{HasShortPath};

use crate::asked::Asked;
use crate::fed::after;
use crate::knowing::Knowing;
use crate::stream::Stream;
use session::{Applied, Event, EventError, Session, SliceEnd, Sliced};
use std::alloc::AllocError;

/// Does an event, which is passed over where it is refused, and answers the lines of what it says: what came and what was queued. `Err`:
/// no memory was left.
pub(crate) fn said_by(
    session: &mut Session,
    stream: &mut Stream,
    asked: Asked,
    number: u64,
    event: &Event,
    knowing: &mut Knowing<'_>,
) -> Result<Vec<u8>, AllocError>
    requires ready { IsReady stream.old }
    requires path { HasShortPath knowing.old.config }
    ensures does { IfOk result (λ lines. DoesOne asked number event.now session.old session.new
        stream.old stream.new (λ said. lines.items ≡ said)) }
    ensures same { knowing.new.config ≡ knowing.old.config }
{
    let mut text = Vec::new(stream.alloc());
    add_said(&mut text, session, stream, asked, number, event, knowing)?;
    Ok(text)
}

fn add_said(
    text: &mut Vec<u8>,
    session: &mut Session,
    stream: &mut Stream,
    asked: Asked,
    number: u64,
    event: &Event,
    knowing: &mut Knowing<'_>,
) -> Result<(), AllocError>
    requires ready { IsReady stream.old }
    requires path { HasShortPath knowing.old.config }
    ensures does { OnOk result (DoesOne asked number event.now session.old session.new
        stream.old stream.new (λ said. text.new.items ≡ text.old.items ++ said)) }
    ensures same { knowing.new.config ≡ knowing.old.config }
{
    let waited = session.waiting().len();
    let answer = session.apply(event);
    if lacks_memory(answer) {
        return Err(AllocError);
    }
    stream.add_came(text, number, piece_of(event), answer, session.link_fault())?;
    knowing.note(answer);
    knowing.add_told(text, asked, number, after(session.waiting(), waited))?;
    Ok(())
}

// The piece that an event brings.
fn piece_of(event: &Event) -> &[u8]
    ensures { result.now ≡ spec.piece_of event.now }
{
    match event {
        Event::Recv(piece) => piece.as_slice(),
        _ => b"",
    }
}

// Whether no memory was left.
fn lacks_memory(answer: Result<Applied, EventError>) -> bool
    ensures { result ≡ inner.lacks_memory answer }
{
    match answer {
        Ok(done) => has_run_out(done),
        Err(EventError::NoMemory) => true,
        Err(_) => false,
    }
}

fn has_run_out(done: Applied) -> bool
    ensures { result ≡ inner.has_run_out done }
{
    match done {
        Applied::Slice(sliced) => has_ended_without(sliced),
        _ => false,
    }
}

fn has_ended_without(sliced: Sliced) -> bool
    ensures { result ≡ inner.has_run_out (applied.Slice sliced) }
{
    match sliced.ending {
        SliceEnd::NoMemory => true,
        _ => false,
    }
}
