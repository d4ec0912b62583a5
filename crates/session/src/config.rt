//! What a session is made of.
ghost use Rattle.std.specs.Prelude.{◌≡◌, ◌↔◌, IfOk, MatchResult, Ok, Err, Some, None, true};
ghost use Rattle.assembler.specs.Errors.{Reports};
ghost use Rattle.assembler.specs.Placed.{Placed, error_of};
ghost use Rattle.assembler.specs.Assembled.{assembled};
ghost use Rattle.debuggee.specs.Programs.{just_loaded};
ghost use Rattle.handlers.specs.Sizes.{IsSize, is_size};
ghost use Rattle.session.specs.Config as spec;

use assembler::{AsmError, AsmErrorKind, assemble};
use byte_strings::Bytes;
use debuggee::Program;
use handlers::placed;
use protocol::Text;
use std::alloc::Global;
use thiserror::Error;

/// What a session is made of.
#[derive(Drop)]
pub struct Config {
    /// How many bytes of memory a machine gets: a multiple of 4,096 from 4,096 to 16,777,216.
    pub memory_size: u32,
    /// A program that is there from the beginning, which an editor can attach to: the path of its file,
    /// and what that holds.
    pub program: Option<(Text, Bytes)>,
}

/// Why there is no session of this.
#[derive(Clone, Copy, Debug, PartialEq, Eq, Error)]
pub enum ConfigError {
    /// Memory cannot have this size.
    #[error("bad memory size")]
    BadMemorySize,
    /// A limit is 0 or above its greatest value.
    #[error("bad limit")]
    BadLimit,
    /// The program has no image.
    #[error("{0}")]
    Assembly(AsmError),
    /// No memory was left.
    #[error("no memory")]
    NoMemory,
}

/// Whether memory can have this size.
pub(crate) fn is_size(size: u32) -> bool
    ensures { result ≡ is_size size }
{
    size % 4096 == 0 && size >= 4096 && size <= 16_777_216
}

/// The program that is there from the beginning, loaded, if there is one. `Assembly`: it has no image;
/// `NoMemory`: no memory was left.
pub(crate) fn first_program(
    alloc: Global,
    program: Option<(Text, Bytes)>,
    size: u32,
) -> Result<Option<Program>, ConfigError>
    requires { IsSize size }
    ensures { spec.Loads program size result }
{
    match program {
        None => Ok(None),
        Some((path, text)) => {
            let program = load(alloc, path, text.as_slice(), size)?;
            Ok(Some(program))
        }
    }
}

// A program, loaded.
#[tactic(auto, using(crate::proofs::Whole::whole_image))]
fn load(alloc: Global, path: Text, text: &[u8], size: u32) -> Result<Program, ConfigError>
    requires { IsSize size }
    ensures { spec.LoadsOne path text.now size result }
{
    match assemble(alloc, text, size) {
        Ok(image) => match placed(alloc, path, text, image, false, size) {
            Ok(program) => Ok(program),
            Err(_) => Err(ConfigError::NoMemory),
        },
        Err(error) => match error.kind {
            AsmErrorKind::NoMemory => Err(ConfigError::NoMemory),
            _ => Err(ConfigError::Assembly(error)),
        },
    }
}
