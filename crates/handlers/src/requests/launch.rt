//! `launch`: a program is assembled from the file that it names, and loaded.
ghost use Rattle.std.specs.Prelude.{◌≡◌, IfOk, Some};
ghost use Rattle.assembler.specs.Assembled.{assembled};
ghost use Rattle.assembler.specs.Placed.{Placed, error_of};
ghost use Rattle.assembler.specs.Errors.{Reports};
ghost use Rattle.debuggee.specs.Programs.{just_loaded};
ghost use Rattle.handlers.specs.Sizes.{IsSize};
ghost use Rattle.handlers.specs.Changes.{answering_as};
ghost use Rattle.handlers.specs.Launch as spec;

use crate::answer::{Answer, refusing};
use crate::change::Change;
use crate::demand::Demand;
use crate::lent::Lent;
use crate::phase::{Phase, Phases};
use crate::terms::Terms;
use assembler::{AsmError, AsmErrorKind, assemble};
use debuggee::Program;
use image::Image;
use protocol::launch::LaunchArguments;
use protocol::{Refusal, Text};
use replies::{Event, Outcome, ResponseBody};
use std::alloc::{AllocError, Global};

/// In which phases it is taken, and what it asks of the program.
pub(crate) fn demand() -> Demand
    ensures { result ≡ spec.demand }
{
    Demand::nothing().taken_in(Phases::Initialized)
}

/// The answer, by the file that it names. `Err`: no memory was left.
pub(crate) fn success(
    alloc: Global,
    lent: &Lent,
    arguments: &LaunchArguments,
) -> Result<Answer, AllocError>
    ensures { IfOk result (λ a. answering_as lent.now.given.debuggee a
        ≡ spec.success lent.now.given lent.now.terms lent.now.file arguments.now) }
{
    match lent.file {
        Some(text) => assembles(alloc, lent, text, arguments),
        None => Ok(refusing(lent.terms, Refusal::FileUnreadable, None)),
    }
}

// The answer, where the file was read.
fn assembles(
    alloc: Global,
    lent: &Lent,
    text: &[u8],
    arguments: &LaunchArguments,
) -> Result<Answer, AllocError>
    ensures { IfOk result (λ a. answering_as lent.now.given.debuggee a
        ≡ spec.success lent.now.given lent.now.terms (Some text.now) arguments.now) }
{
    match assemble(alloc, text, lent.size) {
        Ok(image) => loads(alloc, lent, text, image, arguments),
        Err(error) => fails(alloc, lent, text, error, arguments),
    }
}

// The program is loaded.
fn loads(
    alloc: Global,
    lent: &Lent,
    text: &[u8],
    image: Image,
    arguments: &LaunchArguments,
) -> Result<Answer, AllocError>
    requires { Placed text.now lent.now.given.size image }
    ensures { IfOk result (λ a. answering_as lent.now.given.debuggee a
        ≡ spec.success lent.now.given lent.now.terms (Some text.now) arguments.now) }
{
    let path = copied(alloc, &arguments.program)?;
    let program = placed(alloc, path, text, image, arguments.stop_on_entry, lent.size)?;
    Ok(Answer {
        change: Change::Load(program),
        terms: Terms {
            phase: Phase::Configuring,
            launched: true,
            ..lent.terms
        },
        outcome: Outcome::Done(ResponseBody::Empty),
        event: Some(Event::Initialized),
        closes: false,
    })
}

/// The program with this image, loaded. It stands still at its entry. It fails where no memory is left.
pub fn placed(
    alloc: Global,
    path: Text,
    text: &[u8],
    image: Image,
    stop_on_entry: bool,
    size: u32,
) -> Result<Program, AllocError>
    requires size { IsSize size }
    requires placed { Placed text.now size image }
    ensures { IfOk result (λ p. p ≡ just_loaded (assembled text.now) path stop_on_entry size) }
{
    let _ = text;
    Program::new(alloc, image, path, stop_on_entry, size)
}

// A text, copied.
fn copied(alloc: Global, text: &Text) -> Result<Text, AllocError>
    ensures { IfOk result (λ copy. copy ≡ text.now) }
{
    Ok(Text::from_string(String::from_str(alloc, text.as_str())?))
}

// The file has no image.
fn fails(
    alloc: Global,
    lent: &Lent,
    text: &[u8],
    error: AsmError,
    arguments: &LaunchArguments,
) -> Result<Answer, AllocError>
    requires { Reports error (error_of text.now lent.now.given.size) }
    ensures { IfOk result (λ a. answering_as lent.now.given.debuggee a
        ≡ spec.success lent.now.given lent.now.terms (Some text.now) arguments.now) }
{
    let _ = text;
    let _ = arguments;
    match error.kind {
        AsmErrorKind::NoMemory => Err(AllocError),
        _ => {
            let text = error_text(alloc, error)?;
            Ok(refusing(lent.terms, Refusal::AssemblyFailed, Some(text)))
        }
    }
}

// What is wrong with a file, as the editor is told.
fn error_text(alloc: Global, error: AsmError) -> Result<Text, AllocError>
    ensures { IfOk result (λ text. text ≡ spec.error_text error) }
{
    let line = error.line;
    let kind = error.kind.name();
    Ok(Text::from_string(format!(in alloc; "line {line}: {kind}")?))
}
