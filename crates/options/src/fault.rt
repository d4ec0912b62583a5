//! Why words that clap takes give no options.
ghost use Rattle.std.specs.Prelude.{◌≡◌, ◌⊎◌, IfOk};
ghost use Rattle.clap.specs.Words.{kind_of};
ghost use Rattle.options.specs.Private.Broken.{kind_of_fault};

use clap::error::ErrorKind;
use clap::{Command, Error};
use std::alloc::{AllocError, Global};

/// Why words that clap takes give no options.
pub(crate) enum Fault<'a> {
    /// This value of `--memory` asks for no memory that a machine can have.
    Memory(&'a str),
    /// This option, with what it takes, has this value, which is no number.
    Number(&'static str, &'a str),
    /// This option stands without `--listen`.
    WithoutListen(&'static str),
    /// An option stands beside a command.
    BesideCommand,
    /// A command has no file.
    WithoutFile,
    /// No memory was left.
    NoMemory,
}

impl<'a> From<AllocError> for Fault<'a> {
    ghost use Rattle.options.specs.declared.fault.Fault.TheVariants.{NoMemory};

    ghost from_gives = { λ _ fault. fault ≡ NoMemory };

    fn from(_: AllocError) -> Fault<'a> {
        Fault::NoMemory
    }
}

/// The error that says so, in the form of clap's own.
pub(crate) fn error_of(alloc: Global, command: &mut Command, fault: Fault) -> Error
    ensures { (kind_of result ≡ ErrorKind.OutOfMemory) ⊎
        (kind_of result ≡ kind_of_fault fault.entry) }
{
    match told(alloc, command, fault) {
        Ok(error) => error,
        Err(error) => Error::from(error),
    }
}

fn told(alloc: Global, command: &mut Command, fault: Fault) -> Result<Error, AllocError>
    ensures { IfOk result (λ error. kind_of error ≡ kind_of_fault fault.entry) }
{
    match fault {
        Fault::Memory(text) => {
            let message = format!(in alloc;
                "invalid value '{text}' for '--memory <KIB>': not a multiple of 4 from 4 to 16384"
            )?;
            command.error(ErrorKind::ValueValidation, message.as_str())
        }
        Fault::Number(option, text) => {
            let message = format!(in alloc;
                "invalid value '{text}' for '{option}': not a number from 0 to 4294967295"
            )?;
            command.error(ErrorKind::ValueValidation, message.as_str())
        }
        Fault::WithoutListen(option) => {
            let message = format!(in alloc; "'{option}' stands only beside '--listen <ADDR>'")?;
            command.error(ErrorKind::MissingRequiredArgument, message.as_str())
        }
        Fault::BesideCommand => command.error(
            ErrorKind::ArgumentConflict,
            "no option stands beside a command",
        ),
        Fault::WithoutFile => {
            command.error(ErrorKind::MissingRequiredArgument, "a file is wanted")
        }
        Fault::NoMemory => Err(AllocError),
    }
}
