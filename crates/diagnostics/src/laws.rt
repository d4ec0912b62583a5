//! What holds of the errors of every text: each law is the contract of a function that does nothing.

ghost use Rattle.std.specs.Prelude.{List, ℕ};
ghost use Rattle.diagnostics.specs.Errors.{EachIsTold, FirstIsReported};

/// The first error of a text is the one that the assembler reports for a memory of 1 MiB, and a text that it takes has none.
pub fn first_is_reported()
    ensures { FirstIsReported }
{}

/// Each line in error is among the errors: one that cannot be read; if all can, one that defines a label again, and the first whose address
/// is wrong; and if no line is wrong at its place, one whose statement is.
pub fn each_is_told()
    ensures { (text : List ℕ) → EachIsTold text }
{}
