//! A text to its listing.
ghost use Rattle.std.specs.Prelude.{◌≡◌, string_bytes, Err, IfErr, IfOk, IfSome, OnOk};
ghost use Rattle.assembler.specs.Program.{whole_error};
ghost use Rattle.listing.specs.Listing as spec;
ghost use Rattle.listing.specs.Listing.{Faults, IsListed, Lists};
ghost use Rattle.listing.specs.Private.Steps as steps;
ghost use Rattle.listing.specs.Private.Steps.{Unlisted};

use crate::MEMORY_SIZE;
use crate::entries::entries_of;
use crate::fault::ListFault;
use assembler::{AsmError, AsmErrorKind, assemble};
use blocking_io::write_whole;
use std::alloc::Global;
use std::io;
use std::io::Write;

/// Assembles a text for a memory of 1 MiB, and writes its listing: a line for each instruction, in the
/// order of their addresses, with the address and the word in eight hexadecimal digits each and the text
/// of the instruction there.
///
/// - `Assembly`: something is wrong with the text, and nothing was written.
/// - `Write`: the writer failed, and has the first bytes of the listing, but not all.
/// - `NoMemory`: no memory was left, and nothing was written. A text that is too long or no UTF-8 is
///   always reported as that.
pub fn listing<W: Write>(alloc: Global, text: &[u8], writer: &mut W) -> Result<(), ListFault>
    ensures ok { OnOk result (Lists text.now (W.contents writer.old) (W.contents writer.new)) }
    ensures err { IfErr result
        (λ fault. Faults fault text.now (W.contents writer.old) (W.contents writer.new)) }

    // What is wrong with the text as a whole is found before any memory is taken, so that it is
    // reported whatever is left.
    ensures whole { IfSome (whole_error text.now) (λ e. result ≡ Err (ListFault.Assembly e)) }
{
    match lines_of(alloc, text) {
        Ok(lines) => reported(write_whole(writer, lines.as_bytes())),
        Err(fault) => Err(fault),
    }
}

// The listing of a text, in memory.
fn lines_of(alloc: Global, text: &[u8]) -> Result<String, ListFault>
    ensures ok { IfOk result (λ lines. IsListed text.now (string_bytes lines)) }
    ensures err { IfErr result (λ fault. Unlisted fault text.now) }
    ensures whole { IfSome (whole_error text.now) (λ e. result ≡ Err (ListFault.Assembly e)) }
{
    let image = match assemble(alloc, text, MEMORY_SIZE) {
        Ok(image) => image,
        Err(error) => return Err(fault_of(error)),
    };
    match entries_of(alloc, &image) {
        Ok(lines) => Ok(lines),
        Err(_) => Err(ListFault::NoMemory),
    }
}

fn reported(answer: io::Result<()>) -> Result<(), ListFault>
    ensures { result ≡ steps.reported answer }
{
    match answer {
        Ok(()) => Ok(()),
        Err(_) => Err(ListFault::Write),
    }
}

fn fault_of(error: AsmError) -> ListFault
    ensures { result ≡ spec.fault_of error.kind error }
{
    match error.kind {
        AsmErrorKind::NoMemory => ListFault::NoMemory,
        _ => ListFault::Assembly(error),
    }
}
