//! The texts of errors.

use session::{ConfigError, EventError};
use std::alloc::Global;
use testing::{Fault, shown};

/// The text of the error of this name, of the events or of what a session is made of.
pub(crate) fn text_of(alloc: Global, kind: &str, name: &str) -> Result<String, Fault> {
    match kind {
        "event" => event_text(alloc, name),
        "config" => config_text(alloc, name),
        _ => Err(Fault::NoCommand),
    }
}

fn event_text(alloc: Global, name: &str) -> Result<String, Fault> {
    match name {
        "NotConnected" => shown(alloc, EventError::NotConnected),
        "AlreadyConnected" => shown(alloc, EventError::AlreadyConnected),
        "Busy" => shown(alloc, EventError::Busy),
        "SentTooMuch" => shown(alloc, EventError::SentTooMuch),
        "PieceTooLong" => shown(alloc, EventError::PieceTooLong),
        "Closing" => shown(alloc, EventError::Closing),
        "NoMemory" => shown(alloc, EventError::NoMemory),
        "Spent" => shown(alloc, EventError::Spent),
        _ => Err(Fault::NoCommand),
    }
}

fn config_text(alloc: Global, name: &str) -> Result<String, Fault> {
    match name {
        "BadMemorySize" => shown(alloc, ConfigError::BadMemorySize),
        "BadLimit" => shown(alloc, ConfigError::BadLimit),
        "NoMemory" => shown(alloc, ConfigError::NoMemory),
        _ => Err(Fault::NoCommand),
    }
}
