//! A text, and the machine that it becomes.

ghost use Rattle.std.specs.Prelude.{◌≡◌, ◌%◌, ◌≤◌, IfErr, IfOk, MatchResult};
ghost use Rattle.assembler.specs.Errors.{Reports, no_memory};
ghost use Rattle.assembler.specs.Placed.{error_of};
ghost use Rattle.execution.specs.Loading.{IsLoadedFrom};
ghost use Rattle.stepping.specs.Loading.{CanBeLoaded, IsLoaded, no_breakpoints};

use assembler::{AsmError, AsmErrorKind, assemble};
use image::{Bytes, Image, LineTable};
use std::alloc::Global;
use stepping::Runner;

/// A machine into which a program was loaded, and where the program's lines and labels are.
#[derive(Drop)]
pub struct Loaded {
    /// The machine.
    pub runner: Runner,
    /// Which line the code at an address came from, and where the labels are.
    pub lines: LineTable,
    /// The bytes of memory from 0x00010000 on, as they were before an instruction retired.
    pub bytes: Bytes,
    /// Where the program starts.
    pub entry: u32,
}

/// Assembles a text for `size` bytes of memory, a multiple of 4,096 from 4,096 to 16,777,216, and loads it into a machine that has as
/// many: no instruction has retired, there are no breakpoints, and it continues without a goal. The errors are those of `assemble`; that of
/// no memory also says that none was left for the machine.
pub fn load(alloc: Global, text: &[u8], size: u32) -> Result<Loaded, AsmError>
    requires whole { size % 4096 ≡ 0 }
    requires some { 4096 ≤ size }
    requires few { size ≤ 16777216 }
    ensures { MatchResult result (λ loaded. IsLoadedFrom text.now size loaded)
        (λ error. Reports error (error_of text.now size)) }
{
    match assemble(alloc, text, size) {
        Ok(image) => start(alloc, image, size),
        Err(error) => Err(error),
    }
}

// A machine into which an image was loaded.
fn start(alloc: Global, image: Image, size: u32) -> Result<Loaded, AsmError>
    requires { CanBeLoaded image size }
    ensures ok { IfOk result (λ loaded. IsLoaded image size no_breakpoints loaded.runner
        × (loaded.lines ≡ image.lines)
        × (loaded.bytes ≡ image.bytes)
        × (loaded.entry ≡ image.entry)) }
    ensures err { IfErr result (λ error. error ≡ no_memory) }
{
    match Runner::new(alloc, &image, size) {
        Ok(runner) => Ok(Loaded {
            runner,
            lines: image.lines,
            bytes: image.bytes,
            entry: image.entry,
        }),
        Err(_) => Err(AsmError {
            line: 0,
            kind: AsmErrorKind::NoMemory,
        }),
    }
}
