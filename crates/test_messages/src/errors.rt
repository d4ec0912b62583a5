//! Refusals and errors by their names.

use protocol::{MessageError, Refusal};
use testing::{Fault, Line};

/// The refusal of this name.
pub(crate) fn refusal_named(name: &str) -> Result<Refusal, Fault> {
    match name {
        "RepeatedSequence" => Ok(Refusal::RepeatedSequence),
        "Cancelled" => Ok(Refusal::Cancelled),
        "UnknownCommand" => Ok(Refusal::UnknownCommand),
        "BadArguments" => Ok(Refusal::BadArguments),
        "WrongPhase" => Ok(Refusal::WrongPhase),
        "NoMachine" => Ok(Refusal::NoMachine),
        "Ended" => Ok(Refusal::Ended),
        "NoThread" => Ok(Refusal::NoThread),
        "NotStopped" => Ok(Refusal::NotStopped),
        "UnknownReference" => Ok(Refusal::UnknownReference),
        _ => refusal_of_arguments(name),
    }
}

/// The same, of those that come after a reference that no lifetime has.
fn refusal_of_arguments(name: &str) -> Result<Refusal, Fault> {
    match name {
        "StaleReference" => Ok(Refusal::StaleReference),
        "BadMemoryReference" => Ok(Refusal::BadMemoryReference),
        "TooMuch" => Ok(Refusal::TooMuch),
        "OutsideMemory" => Ok(Refusal::OutsideMemory),
        "UnknownName" => Ok(Refusal::UnknownName),
        "NotWritable" => Ok(Refusal::NotWritable),
        "BadExpression" => Ok(Refusal::BadExpression),
        "BadValue" => Ok(Refusal::BadValue),
        "AssemblyFailed" => Ok(Refusal::AssemblyFailed),
        "ReferencesExhausted" => Ok(Refusal::ReferencesExhausted),
        "RequestGone" => Ok(Refusal::RequestGone),
        "FileUnreadable" => Ok(Refusal::FileUnreadable),
        "NoHistory" => Ok(Refusal::NoHistory),
        _ => Err(Fault::NoCommand),
    }
}

/// The number and the name that a response gives for a refusal.
pub(crate) fn show_refusal(line: &mut Line, refusal: Refusal) -> Result<(), Fault> {
    line.value(refusal.id())?;
    line.word(refusal.name())
}

/// The error of this name.
pub(crate) fn error_named(name: &str) -> Result<MessageError, Fault> {
    match name {
        "NotJson" => Ok(MessageError::NotJson),
        "NotAMessage" => Ok(MessageError::NotAMessage),
        "BadSeq" => Ok(MessageError::BadSeq),
        "NoMemory" => Ok(MessageError::NoMemory),
        _ => Err(Fault::NoCommand),
    }
}

/// What a call answered that a body is no message to.
pub(crate) fn show_error(line: &mut Line, error: MessageError) -> Result<(), Fault> {
    match error {
        MessageError::NoMemory => Err(Fault::NoMemoryInCall),
        error => line.name(error),
    }
}
