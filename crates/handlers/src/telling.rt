//! What an editor is told of the program that it debugs.
ghost use Rattle.std.specs.Prelude.{◌≡◌, IfOk, Some, None, option_map};
ghost use Rattle.replies.specs.declared.event.Event.TheVariants as an_event;
ghost use Rattle.handlers.specs.Telling as spec;

use debuggee::Why;
use protocol::{Entries, Text};
use replies::{Category, Event, Exited, Output, Reason, Stopped};
use std::alloc::{AllocError, Global};

/// A stop, with the numbers of the breakpoints that made it.
pub fn stop_event(alloc: Global, why: Why, ids: &[u32]) -> Result<Event, AllocError>
    ensures { IfOk result (λ event. event ≡ spec.stop_event why ids.now) }
{
    let mut hit_breakpoint_ids = Vec::new(alloc);
    hit_breakpoint_ids.extend_from_slice(ids)?;
    let text = match text_of(why) {
        Some(text) => Some(Text::from_string(String::from_str(alloc, text)?)),
        None => None,
    };
    Ok(Event::Stopped(Stopped {
        hit_breakpoint_ids: Entries::from_vec(hit_breakpoint_ids),
        reason: reason_of(why),
        text,
    }))
}

/// A number that the program printed, in decimal, on a line.
pub fn output_event(alloc: Global, number: i32) -> Result<Event, AllocError>
    ensures { IfOk result (λ event. event ≡ spec.output_event number) }
{
    let output = format!(in alloc; "{number}\n")?;
    Ok(Event::Output(Output {
        category: Category::Stdout,
        output: Text::from_string(output),
    }))
}

/// What a logpoint writes, on a line.
pub fn log_event(alloc: Global, text: &str) -> Result<Event, AllocError>
    ensures { IfOk result (λ event. event ≡ spec.log_event text.now) }
{
    let output = format!(in alloc; "{text}\n")?;
    Ok(Event::Output(Output {
        category: Category::Console,
        output: Text::from_string(output),
    }))
}

/// That the program exited, with its code.
pub fn exit_event(code: i32) -> Event
    ensures { result ≡ an_event.Exited (record { exit_code = code }) }
{
    Event::Exited(Exited { exit_code: code })
}

// The reason of a stop.
fn reason_of(why: Why) -> Reason
    ensures { result ≡ spec.reason_of why }
{
    match why {
        Why::Entry => Reason::Entry,
        Why::Pause => Reason::Pause,
        Why::Limit => Reason::Exception,
        Why::Met(reason) => match reason {
            stepping::Reason::Exception(_) => Reason::Exception,
            stepping::Reason::Ebreak | stepping::Reason::Source => Reason::Breakpoint,
            stepping::Reason::Instruction => Reason::InstructionBreakpoint,
            stepping::Reason::Function => Reason::FunctionBreakpoint,
            stepping::Reason::Goal | stepping::Reason::Start => Reason::Step,
        },
    }
}

// What the editor is told of a stop beside its reason.
fn text_of(why: Why) -> Option<&'static str>
    ensures { option_map (λ text. text.now) result ≡ spec.text_of why }
{
    match why {
        Why::Limit => Some("instruction limit"),
        Why::Met(stepping::Reason::Exception(cause)) => Some(cause.text()),
        Why::Met(stepping::Reason::Start) => Some("start of history"),
        _ => None,
    }
}
