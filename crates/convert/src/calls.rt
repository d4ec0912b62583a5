//! Calls of the environment: a number in a7, and then `ecall`.

use rv32i::Instr;
use statements::{Line, LineError, Statement, read_line};
use std::alloc::{AllocError, Global};

const A7: usize = 17;

/// Ends the program, in RARS and Venus; a0 does not matter.
pub(crate) const EXIT: u32 = 10;

/// Whether there is a call of this number here, too.
pub(crate) fn is_known(number: u32) -> bool {
    number == 1 || number == 93
}

/// The number that a statement puts into a7, if it is all that it does.
pub(crate) fn number_in_a7(statement: &Statement) -> Option<u32> {
    match statement {
        Statement::One(Instr::Addi { rd, rs1, imm }) if rd.number() == A7 && rs1.number() == 0 =>
            Some(imm.bits()),
        _ => None,
    }
}

/// Whether the lines come to an `ecall` before anything else sets a7, jumps or branches.
pub(crate) fn lead_to_call(alloc: Global, lines: &[&str]) -> Result<bool, AllocError> {
    for line in lines {
        match read_line(alloc, line.as_bytes()) {
            Ok(line) => match step_of(&line) {
                Step::Call => return Ok(true),
                Step::Away => return Ok(false),
                Step::On => {}
            },
            Err(LineError::NoMemory) => return Err(AllocError),
            Err(_) if line.contains("ecall") => return Ok(true),
            Err(_) => {}
        }
    }
    Ok(false)
}

// What a line does on the way to a call.
enum Step {
    // It calls.
    Call,
    // It goes elsewhere, or sets a7.
    Away,
    // It does neither.
    On,
}

fn step_of(line: &Line) -> Step {
    match &line.statement {
        None => Step::On,
        Some(Statement::One(Instr::Ecall)) => Step::Call,
        Some(Statement::One(Instr::Jalr { .. })) => Step::Away,
        Some(Statement::Jump { .. }) => Step::Away,
        Some(Statement::Branch { .. }) => Step::Away,
        Some(Statement::Call { .. }) => Step::Away,
        Some(statement) => match number_in_a7(statement) {
            Some(_) => Step::Away,
            None => Step::On,
        },
    }
}
