//! What the mnemonics of instructions and pseudo-instructions say of their operands.
ghost use Rattle.std.specs.Prelude.{◌≡◌, ◌<◌, ◌≤◌, ◌+◌, ◌%◌, ◌^◌, IfOk};
ghost use Rattle.std.specs.Option.{option_copied};
ghost use Rattle.statements.specs.Instructions as spec;

use crate::error::LineError;
use crate::forms::{Low, access_in, label_in, low_in, part_in, register_in, set_in, target_in};
use crate::mnemonics::{Fixed, Unary};
use crate::number::{bits_in, constant_in};
use crate::operands::Operands;
use crate::operations::{
    Condition, ImmediateOperation, RegisterOperation, ShiftOperation, StoreOperation, lower_part,
    upper_part,
};
use crate::spelling::stripped;
use crate::statement::Statement;
use rv32i::{FenceSet, Imm, Instr, Reg, Shamt, Upper};

/// `op rd, rs1, rs2`.
pub(crate) fn registers<'a>(
    operation: RegisterOperation,
    operands: Operands<'a>,
) -> Result<Statement<'a>, LineError>
    ensures { result ≡ spec.registers operation operands.entry }
{
    let Operands::Three(rd, rs1, rs2) = operands else {
        return Err(LineError::BadOperand);
    };
    let rd = register_in(rd.text())?;
    let rs1 = register_in(rs1.text())?;
    let rs2 = register_in(rs2.text())?;
    Ok(Statement::One(operation.instruction(rd, rs1, rs2)))
}

/// `op rd, rs2`, with x0 as the first register.
pub(crate) fn of_register<'a>(
    operation: RegisterOperation,
    operands: Operands<'a>,
) -> Result<Statement<'a>, LineError>
    ensures { result ≡ spec.of_register operation operands.entry }
{
    let Operands::Two(rd, rs2) = operands else {
        return Err(LineError::BadOperand);
    };
    let rd = register_in(rd.text())?;
    let rs2 = register_in(rs2.text())?;
    Ok(Statement::One(operation.instruction(rd, Reg::new(0), rs2)))
}

/// `op rd, rs1`, with x0 as the second register.
pub(crate) fn with_zero<'a>(
    operation: RegisterOperation,
    operands: Operands<'a>,
) -> Result<Statement<'a>, LineError>
    ensures { result ≡ spec.with_zero operation operands.entry }
{
    let Operands::Two(rd, rs1) = operands else {
        return Err(LineError::BadOperand);
    };
    let rd = register_in(rd.text())?;
    let rs1 = register_in(rs1.text())?;
    Ok(Statement::One(operation.instruction(rd, rs1, Reg::new(0))))
}

/// `op rd, rs1, imm`.
pub(crate) fn immediate<'a>(
    operation: ImmediateOperation,
    operands: Operands<'a>,
) -> Result<Statement<'a>, LineError>
    ensures { result ≡ spec.immediate operation operands.entry }
{
    let Operands::Three(rd, rs1, imm) = operands else {
        return Err(LineError::BadOperand);
    };
    let rd = register_in(rd.text())?;
    let rs1 = register_in(rs1.text())?;
    let imm = low_in(imm.text())?;
    Ok(lower(operation, rd, rs1, imm))
}

fn lower<'a>(operation: ImmediateOperation, rd: Reg, rs1: Reg, imm: Low<'a>) -> Statement<'a>
    ensures { result ≡ spec.lower operation rd rs1 imm.entry }
{
    match imm {
        Low::Bits(imm) => Statement::One(operation.instruction(rd, rs1, imm)),
        Low::Part(label) => Statement::Lower {
            operation,
            rd,
            rs1,
            label,
        },
    }
}

/// `op rd, rs1, shamt`.
pub(crate) fn shift<'a>(
    operation: ShiftOperation,
    operands: Operands<'a>,
) -> Result<Statement<'a>, LineError>
    ensures { result ≡ spec.shift operation operands.entry }
{
    let Operands::Three(rd, rs1, shamt) = operands else {
        return Err(LineError::BadOperand);
    };
    let rd = register_in(rd.text())?;
    let rs1 = register_in(rs1.text())?;
    let shamt = amount_in(shamt.text())?;
    Ok(Statement::One(operation.instruction(rd, rs1, shamt)))
}

fn amount_in(text: &[u8]) -> Result<Shamt, LineError>
    ensures { result ≡ spec.amount_in text.now }
{
    match bits_in(0, 31, text) {
        Ok(amount) => Ok(Shamt::new(amount as u8)),
        Err(error) => Err(error),
    }
}

/// `op rd, imm(rs1)`.
pub(crate) fn load<'a>(
    operation: ImmediateOperation,
    operands: Operands<'a>,
) -> Result<Statement<'a>, LineError>
    ensures { result ≡ spec.load operation operands.entry }
{
    let Operands::Two(rd, access) = operands else {
        return Err(LineError::BadOperand);
    };
    let rd = register_in(rd.text())?;
    let access = access_in(access.text())?;
    Ok(lower(operation, rd, access.base, access.offset))
}

/// `op rs2, imm(rs1)`.
pub(crate) fn store<'a>(
    operation: StoreOperation,
    operands: Operands<'a>,
) -> Result<Statement<'a>, LineError>
    ensures { result ≡ spec.store operation operands.entry }
{
    let Operands::Two(rs2, access) = operands else {
        return Err(LineError::BadOperand);
    };
    let rs2 = register_in(rs2.text())?;
    let access = access_in(access.text())?;
    Ok(store_lower(operation, access.base, rs2, access.offset))
}

fn store_lower<'a>(operation: StoreOperation, rs1: Reg, rs2: Reg, imm: Low<'a>) -> Statement<'a>
    ensures { result ≡ spec.store_lower operation rs1 rs2 imm.entry }
{
    match imm {
        Low::Bits(imm) => Statement::One(operation.instruction(rs1, rs2, imm)),
        Low::Part(label) => Statement::StoreLower {
            operation,
            rs1,
            rs2,
            label,
        },
    }
}

/// `op rd, rs1`, with an immediate that is known.
pub(crate) fn unary<'a>(
    operation: Unary,
    operands: Operands<'a>,
) -> Result<Statement<'a>, LineError>
    ensures { result ≡ spec.unary operation operands.entry }
{
    let Operands::Two(rd, rs1) = operands else {
        return Err(LineError::BadOperand);
    };
    let rd = register_in(rd.text())?;
    let rs1 = register_in(rs1.text())?;
    Ok(Statement::One(unary_instruction(operation, rd, rs1)))
}

fn unary_instruction(operation: Unary, rd: Reg, rs1: Reg) -> Instr
    ensures { result ≡ spec.unary_instruction operation rd rs1 }
{
    match operation {
        Unary::Move => Instr::Addi {
            rd,
            rs1,
            imm: Imm::new(0),
        },
        Unary::Not => Instr::Xori {
            rd,
            rs1,
            imm: Imm::new(0xffff_ffff),
        },
        Unary::IsZero => Instr::Sltiu {
            rd,
            rs1,
            imm: Imm::new(1),
        },
    }
}

/// `op rs1, rs2, target`.
pub(crate) fn branch<'a>(
    condition: Condition,
    operands: Operands<'a>,
) -> Result<Statement<'a>, LineError>
    ensures { result ≡ spec.branch condition operands.entry }
{
    let Operands::Three(rs1, rs2, target) = operands else {
        return Err(LineError::BadOperand);
    };
    let rs1 = register_in(rs1.text())?;
    let rs2 = register_in(rs2.text())?;
    let target = target_in(target.text())?;
    Ok(Statement::Branch {
        condition,
        rs1,
        rs2,
        target,
    })
}

/// `op rs2, rs1, target`.
pub(crate) fn swapped<'a>(
    condition: Condition,
    operands: Operands<'a>,
) -> Result<Statement<'a>, LineError>
    ensures { result ≡ spec.swapped condition operands.entry }
{
    let Operands::Three(rs2, rs1, target) = operands else {
        return Err(LineError::BadOperand);
    };
    let rs2 = register_in(rs2.text())?;
    let rs1 = register_in(rs1.text())?;
    let target = target_in(target.text())?;
    Ok(Statement::Branch {
        condition,
        rs1,
        rs2,
        target,
    })
}

/// `op rs1, target`, against x0.
pub(crate) fn against_zero<'a>(
    condition: Condition,
    operands: Operands<'a>,
) -> Result<Statement<'a>, LineError>
    ensures { result ≡ spec.against_zero condition operands.entry }
{
    let Operands::Two(rs1, target) = operands else {
        return Err(LineError::BadOperand);
    };
    let rs1 = register_in(rs1.text())?;
    let target = target_in(target.text())?;
    Ok(Statement::Branch {
        condition,
        rs1,
        rs2: Reg::new(0),
        target,
    })
}

/// `op rs2, target`, with x0 as the first register.
pub(crate) fn zero_against<'a>(
    condition: Condition,
    operands: Operands<'a>,
) -> Result<Statement<'a>, LineError>
    ensures { result ≡ spec.zero_against condition operands.entry }
{
    let Operands::Two(rs2, target) = operands else {
        return Err(LineError::BadOperand);
    };
    let rs2 = register_in(rs2.text())?;
    let target = target_in(target.text())?;
    Ok(Statement::Branch {
        condition,
        rs1: Reg::new(0),
        rs2,
        target,
    })
}

fn jump_to<'a>(rd: Reg, target: &'a [u8]) -> Result<Statement<'a>, LineError>
    ensures { result ≡ spec.jump_to rd target.now }
{
    let target = target_in(target)?;
    Ok(Statement::Jump { rd, target })
}

/// `j target`.
pub(crate) fn jump<'a>(operands: Operands<'a>) -> Result<Statement<'a>, LineError>
    ensures { result ≡ spec.jump operands.entry }
{
    match operands {
        Operands::One(target) => jump_to(Reg::new(0), target.text()),
        _ => Err(LineError::BadOperand),
    }
}

/// `jal rd, target` and `jal target`.
pub(crate) fn jump_and_link<'a>(operands: Operands<'a>) -> Result<Statement<'a>, LineError>
    ensures { result ≡ spec.jump_and_link operands.entry }
{
    match operands {
        Operands::One(target) => jump_to(Reg::new(1), target.text()),
        Operands::Two(rd, target) => {
            let rd = register_in(rd.text())?;
            jump_to(rd, target.text())
        }
        _ => Err(LineError::BadOperand),
    }
}

fn jump_register_to<'a>(rd: Reg, rs1: &'a [u8]) -> Result<Statement<'a>, LineError>
    ensures { result ≡ spec.jump_register_to rd rs1.now }
{
    let rs1 = register_in(rs1)?;
    Ok(Statement::One(Instr::Jalr {
        rd,
        rs1,
        imm: Imm::new(0),
    }))
}

/// `jr rs1`.
pub(crate) fn jump_register<'a>(operands: Operands<'a>) -> Result<Statement<'a>, LineError>
    ensures { result ≡ spec.jump_register operands.entry }
{
    match operands {
        Operands::One(rs1) => jump_register_to(Reg::new(0), rs1.text()),
        _ => Err(LineError::BadOperand),
    }
}

/// `jalr rd, imm(rs1)`, `jalr rd, rs1, imm` and `jalr rs1`.
pub(crate) fn jump_and_link_register<'a>(operands: Operands<'a>) -> Result<Statement<'a>, LineError>
    ensures { result ≡ spec.jump_and_link_register operands.entry }
{
    match operands {
        Operands::One(rs1) => jump_register_to(Reg::new(1), rs1.text()),
        Operands::Two(rd, access) => load(ImmediateOperation::Jalr, Operands::Two(rd, access)),
        Operands::Three(rd, rs1, imm) => immediate(
            ImmediateOperation::Jalr,
            Operands::Three(rd, rs1, imm),
        ),
        Operands::Zero | Operands::More => Err(LineError::BadOperand),
    }
}

fn upper_in(text: &[u8]) -> Result<Upper, LineError>
    ensures { result ≡ spec.upper_in text.now }
{
    match bits_in(0, 1_048_575, text) {
        Ok(bits) => Ok(Upper::new(bits * 4096)),
        Err(error) => Err(error),
    }
}

/// `lui rd, imm` and `lui rd, %hi(label)`.
pub(crate) fn load_upper<'a>(operands: Operands<'a>) -> Result<Statement<'a>, LineError>
    ensures { result ≡ spec.load_upper operands.entry }
{
    let Operands::Two(rd, text) = operands else {
        return Err(LineError::BadOperand);
    };
    let rd = register_in(rd.text())?;
    upper_by(rd, text.text(), stripped(b"%hi", text.text()))
}

fn upper_by<'a>(
    rd: Reg,
    text: &'a [u8],
    after: Option<&'a [u8]>,
) -> Result<Statement<'a>, LineError>
    ensures { result ≡ spec.upper_by rd text.now (option_copied after.entry) }
{
    match after {
        Some(after) => {
            let label = part_in(after)?;
            Ok(Statement::Upper { rd, label })
        }
        None => {
            let imm = upper_in(text)?;
            Ok(Statement::One(Instr::Lui { rd, imm }))
        }
    }
}

/// `auipc rd, imm`.
pub(crate) fn add_upper<'a>(operands: Operands<'a>) -> Result<Statement<'a>, LineError>
    ensures { result ≡ spec.add_upper operands.entry }
{
    let Operands::Two(rd, imm) = operands else {
        return Err(LineError::BadOperand);
    };
    let rd = register_in(rd.text())?;
    let imm = upper_in(imm.text())?;
    Ok(Statement::One(Instr::Auipc { rd, imm }))
}

fn constant<'a>(rd: Reg, number: u32) -> Statement<'a>
    ensures { result ≡ spec.constant rd number }
{
    if number.wrapping_add(2048) < 4096 {
        return Statement::One(Instr::Addi {
            rd,
            rs1: Reg::new(0),
            imm: Imm::new(number),
        });
    }
    let upper = Instr::Lui {
        rd,
        imm: upper_part(number),
    };
    if number % 4096 == 0 {
        return Statement::One(upper);
    }
    let lower = Instr::Addi {
        rd,
        rs1: rd,
        imm: lower_part(number),
    };
    Statement::Two(upper, lower)
}

/// `li rd, number`.
pub(crate) fn load_immediate<'a>(operands: Operands<'a>) -> Result<Statement<'a>, LineError>
    ensures { result ≡ spec.load_immediate operands.entry }
{
    let Operands::Two(rd, number) = operands else {
        return Err(LineError::BadOperand);
    };
    let rd = register_in(rd.text())?;
    let number = constant_in(number.text())?;
    Ok(constant(rd, number))
}

/// `la rd, label`.
pub(crate) fn load_address<'a>(operands: Operands<'a>) -> Result<Statement<'a>, LineError>
    ensures { result ≡ spec.load_address operands.entry }
{
    let Operands::Two(rd, label) = operands else {
        return Err(LineError::BadOperand);
    };
    let rd = register_in(rd.text())?;
    let label = label_in(label.text())?;
    Ok(Statement::LoadAddress { rd, label })
}

/// `call label`.
pub(crate) fn call<'a>(operands: Operands<'a>) -> Result<Statement<'a>, LineError>
    ensures { result ≡ spec.call operands.entry }
{
    let Operands::One(label) = operands else {
        return Err(LineError::BadOperand);
    };
    let label = label_in(label.text())?;
    Ok(Statement::Call { label })
}

/// A mnemonic that takes no operand.
pub(crate) fn fixed<'a>(
    operation: Fixed,
    operands: Operands<'a>,
) -> Result<Statement<'a>, LineError>
    ensures { result ≡ spec.fixed operation operands.entry }
{
    match operands {
        Operands::Zero => Ok(Statement::One(fixed_instruction(operation))),
        _ => Err(LineError::BadOperand),
    }
}

fn fixed_instruction(operation: Fixed) -> Instr
    ensures { result ≡ spec.fixed_instruction operation }
{
    match operation {
        Fixed::Nop => Instr::Addi {
            rd: Reg::new(0),
            rs1: Reg::new(0),
            imm: Imm::new(0),
        },
        Fixed::Return => Instr::Jalr {
            rd: Reg::new(0),
            rs1: Reg::new(1),
            imm: Imm::new(0),
        },
        Fixed::Ecall => Instr::Ecall,
        Fixed::Ebreak => Instr::Ebreak,
    }
}

/// `fence` and `fence before, after`.
pub(crate) fn fence<'a>(operands: Operands<'a>) -> Result<Statement<'a>, LineError>
    ensures { result ≡ spec.fence operands.entry }
{
    match operands {
        Operands::Zero => Ok(Statement::One(fence_of(FenceSet::new(15), FenceSet::new(15)))),
        Operands::Two(before, after) => {
            let before = set_in(before.text())?;
            let after = set_in(after.text())?;
            Ok(Statement::One(fence_of(before, after)))
        }
        _ => Err(LineError::BadOperand),
    }
}

fn fence_of(before: FenceSet, after: FenceSet) -> Instr
    ensures { result ≡ spec.fence_of before after }
{
    Instr::Fence {
        fm: FenceSet::new(0),
        before,
        after,
        rd: Reg::new(0),
        rs1: Reg::new(0),
    }
}
