//! What `rvdap` does without a session: it reads the words that it is given, runs a program without an editor, tells errors, labels and
//! instructions of texts of assembly, converts those of other assemblers, says how it ends, and tells what goes over a wire.
#![tactic(auto)]

mod arguments;
mod asm;
mod checking;
mod converting;
mod ending;
mod exit_reason;
mod memory;
mod program_file;
mod run_end;
mod run_told;
mod running;
mod sources;
mod text_file;
mod verbose;

pub use arguments::{Unasked, options_of};
pub use asm::{list_file, list_labels};
pub use checking::check_files;
pub use converting::convert_file;
pub use ending::{exit_with, fail_at, say};
pub use exit_reason::ExitReason;
pub use memory::MemorySize;
pub use program_file::{NoProgram, program_text};
pub use running::{Terms, run_files};
pub use verbose::{VerboseDoor, VerboseWire};
