//! The mnemonics of instructions and pseudo-instructions, and the names of directives.
ghost use Rattle.std.specs.Prelude.{◌≡◌};
ghost use Rattle.statements.specs.Spelling.{named};
ghost use Rattle.statements.specs.Mnemonics as spec;

use crate::items::Width;
use crate::operations::{
    Condition, ImmediateOperation, RegisterOperation, ShiftOperation, StoreOperation,
};

/// An instruction of two registers whose immediate is known.
#[derive(Clone, Copy, PartialEq, Eq)]
pub(crate) enum Unary {
    /// ADDI with 0.
    Move,
    /// XORI with -1.
    Not,
    /// SLTIU with 1.
    IsZero,
}

/// An instruction that takes no operand.
#[derive(Clone, Copy, PartialEq, Eq)]
pub(crate) enum Fixed {
    /// ADDI of x0 with 0.
    Nop,
    /// JALR to x1.
    Return,
    /// ECALL.
    Ecall,
    /// EBREAK.
    Ebreak,
}

/// What a mnemonic or a directive's name means, by the operands that it takes.
#[derive(Clone, Copy, PartialEq, Eq)]
pub(crate) enum Mnemonic {
    /// `op rd, rs1, rs2`.
    Registers(RegisterOperation),
    /// `op rd, rs1, imm`.
    Immediate(ImmediateOperation),
    /// `op rd, rs1, shamt`.
    Shift(ShiftOperation),
    /// `op rd, imm(rs1)`.
    Load(ImmediateOperation),
    /// `op rs2, imm(rs1)`.
    Store(StoreOperation),
    /// `op rs1, rs2, target`.
    Branch(Condition),
    /// `op rs2, rs1, target`: the registers of the branch the other way round.
    Swapped(Condition),
    /// `op rs1, target`: the other register is x0.
    AgainstZero(Condition),
    /// `op rs2, target`: the first register is x0.
    ZeroAgainst(Condition),
    /// `op rd, rs2`: the first register is x0.
    OfRegister(RegisterOperation),
    /// `op rd, rs1`: the second register is x0.
    WithZero(RegisterOperation),
    /// `op rd, rs1`: an instruction whose immediate is known.
    OfImmediate(Unary),
    /// `lui rd, imm`.
    LoadUpper,
    /// `auipc rd, imm`.
    AddUpper,
    /// `jal rd, target` and `jal target`.
    JumpAndLink,
    /// `jalr rd, imm(rs1)`, `jalr rd, rs1, imm` and `jalr rs1`.
    JumpAndLinkRegister,
    /// `j target`.
    Jump,
    /// `jr rs1`.
    JumpRegister,
    /// `li rd, number`.
    LoadImmediate,
    /// `la rd, label`.
    LoadAddress,
    /// `call label`.
    Call,
    /// A mnemonic that takes no operand.
    Fixed(Fixed),
    /// `fence` and `fence before, after`.
    Fence,
    /// `.word`, `.half` and `.byte`: a list of items.
    Data(Width),
    /// `.space`: zero bytes.
    Space,
    /// `.align`: zero bytes up to a multiple.
    Align,
    /// `.text` and `.data`.
    Section,
    /// `.globl` and `.global`.
    Global,
}

/// The instruction, pseudo-instruction or directive of a name. `None`: it is no mnemonic and no
/// directive's.
pub(crate) fn mnemonic_of(mnemonic: &str) -> Option<Mnemonic>
    ensures { result ≡ spec.mnemonic_of mnemonic.now }
{
    if let Some(found) = immediate_mnemonics(mnemonic) {
        return Some(found);
    }
    if let Some(found) = access_mnemonics(mnemonic) {
        return Some(found);
    }
    if let Some(found) = branch_mnemonics(mnemonic) {
        return Some(found);
    }
    if let Some(found) = zero_branch_mnemonics(mnemonic) {
        return Some(found);
    }
    if let Some(found) = register_mnemonics(mnemonic) {
        return Some(found);
    }
    if let Some(found) = copy_mnemonics(mnemonic) {
        return Some(found);
    }
    if let Some(found) = jump_mnemonics(mnemonic) {
        return Some(found);
    }
    if let Some(found) = plain_mnemonics(mnemonic) {
        return Some(found);
    }
    directives(mnemonic)
}

fn immediate_mnemonics(mnemonic: &str) -> Option<Mnemonic>
    ensures { result ≡ named spec.immediate_mnemonics mnemonic.now }
{
    match mnemonic {
        "addi" => Some(Mnemonic::Immediate(ImmediateOperation::Addi)),
        "slti" => Some(Mnemonic::Immediate(ImmediateOperation::Slti)),
        "sltiu" => Some(Mnemonic::Immediate(ImmediateOperation::Sltiu)),
        "xori" => Some(Mnemonic::Immediate(ImmediateOperation::Xori)),
        "ori" => Some(Mnemonic::Immediate(ImmediateOperation::Ori)),
        "andi" => Some(Mnemonic::Immediate(ImmediateOperation::Andi)),
        "slli" => Some(Mnemonic::Shift(ShiftOperation::Slli)),
        "srli" => Some(Mnemonic::Shift(ShiftOperation::Srli)),
        "srai" => Some(Mnemonic::Shift(ShiftOperation::Srai)),
        _ => None,
    }
}

fn access_mnemonics(mnemonic: &str) -> Option<Mnemonic>
    ensures { result ≡ named spec.access_mnemonics mnemonic.now }
{
    match mnemonic {
        "lw" => Some(Mnemonic::Load(ImmediateOperation::Lw)),
        "lb" => Some(Mnemonic::Load(ImmediateOperation::Lb)),
        "lh" => Some(Mnemonic::Load(ImmediateOperation::Lh)),
        "lbu" => Some(Mnemonic::Load(ImmediateOperation::Lbu)),
        "lhu" => Some(Mnemonic::Load(ImmediateOperation::Lhu)),
        "sw" => Some(Mnemonic::Store(StoreOperation::Sw)),
        "sb" => Some(Mnemonic::Store(StoreOperation::Sb)),
        "sh" => Some(Mnemonic::Store(StoreOperation::Sh)),
        _ => None,
    }
}

fn branch_mnemonics(mnemonic: &str) -> Option<Mnemonic>
    ensures { result ≡ named spec.branch_mnemonics mnemonic.now }
{
    match mnemonic {
        "beq" => Some(Mnemonic::Branch(Condition::Equal)),
        "bne" => Some(Mnemonic::Branch(Condition::NotEqual)),
        "blt" => Some(Mnemonic::Branch(Condition::LessThan)),
        "bge" => Some(Mnemonic::Branch(Condition::GreaterOrEqual)),
        "bltu" => Some(Mnemonic::Branch(Condition::LessThanUnsigned)),
        "bgeu" => Some(Mnemonic::Branch(Condition::GreaterOrEqualUnsigned)),
        "bgt" => Some(Mnemonic::Swapped(Condition::LessThan)),
        "ble" => Some(Mnemonic::Swapped(Condition::GreaterOrEqual)),
        "bgtu" => Some(Mnemonic::Swapped(Condition::LessThanUnsigned)),
        "bleu" => Some(Mnemonic::Swapped(Condition::GreaterOrEqualUnsigned)),
        _ => None,
    }
}

fn zero_branch_mnemonics(mnemonic: &str) -> Option<Mnemonic>
    ensures { result ≡ named spec.zero_branch_mnemonics mnemonic.now }
{
    match mnemonic {
        "beqz" => Some(Mnemonic::AgainstZero(Condition::Equal)),
        "bnez" => Some(Mnemonic::AgainstZero(Condition::NotEqual)),
        "bgez" => Some(Mnemonic::AgainstZero(Condition::GreaterOrEqual)),
        "bltz" => Some(Mnemonic::AgainstZero(Condition::LessThan)),
        "blez" => Some(Mnemonic::ZeroAgainst(Condition::GreaterOrEqual)),
        "bgtz" => Some(Mnemonic::ZeroAgainst(Condition::LessThan)),
        _ => None,
    }
}

fn register_mnemonics(mnemonic: &str) -> Option<Mnemonic>
    ensures { result ≡ named spec.register_mnemonics mnemonic.now }
{
    match mnemonic {
        "add" => Some(Mnemonic::Registers(RegisterOperation::Add)),
        "sub" => Some(Mnemonic::Registers(RegisterOperation::Sub)),
        "sll" => Some(Mnemonic::Registers(RegisterOperation::Sll)),
        "slt" => Some(Mnemonic::Registers(RegisterOperation::Slt)),
        "sltu" => Some(Mnemonic::Registers(RegisterOperation::Sltu)),
        "xor" => Some(Mnemonic::Registers(RegisterOperation::Xor)),
        "srl" => Some(Mnemonic::Registers(RegisterOperation::Srl)),
        "sra" => Some(Mnemonic::Registers(RegisterOperation::Sra)),
        "or" => Some(Mnemonic::Registers(RegisterOperation::Or)),
        "and" => Some(Mnemonic::Registers(RegisterOperation::And)),
        _ => None,
    }
}

fn copy_mnemonics(mnemonic: &str) -> Option<Mnemonic>
    ensures { result ≡ named spec.copy_mnemonics mnemonic.now }
{
    match mnemonic {
        "mv" => Some(Mnemonic::OfImmediate(Unary::Move)),
        "not" => Some(Mnemonic::OfImmediate(Unary::Not)),
        "seqz" => Some(Mnemonic::OfImmediate(Unary::IsZero)),
        "neg" => Some(Mnemonic::OfRegister(RegisterOperation::Sub)),
        "snez" => Some(Mnemonic::OfRegister(RegisterOperation::Sltu)),
        "sgtz" => Some(Mnemonic::OfRegister(RegisterOperation::Slt)),
        "sltz" => Some(Mnemonic::WithZero(RegisterOperation::Slt)),
        _ => None,
    }
}

fn jump_mnemonics(mnemonic: &str) -> Option<Mnemonic>
    ensures { result ≡ named spec.jump_mnemonics mnemonic.now }
{
    match mnemonic {
        "li" => Some(Mnemonic::LoadImmediate),
        "la" => Some(Mnemonic::LoadAddress),
        "call" => Some(Mnemonic::Call),
        "j" => Some(Mnemonic::Jump),
        "jal" => Some(Mnemonic::JumpAndLink),
        "jalr" => Some(Mnemonic::JumpAndLinkRegister),
        "jr" => Some(Mnemonic::JumpRegister),
        "lui" => Some(Mnemonic::LoadUpper),
        "auipc" => Some(Mnemonic::AddUpper),
        _ => None,
    }
}

fn plain_mnemonics(mnemonic: &str) -> Option<Mnemonic>
    ensures { result ≡ named spec.plain_mnemonics mnemonic.now }
{
    match mnemonic {
        "ret" => Some(Mnemonic::Fixed(Fixed::Return)),
        "nop" => Some(Mnemonic::Fixed(Fixed::Nop)),
        "ecall" => Some(Mnemonic::Fixed(Fixed::Ecall)),
        "ebreak" => Some(Mnemonic::Fixed(Fixed::Ebreak)),
        "fence" => Some(Mnemonic::Fence),
        _ => None,
    }
}

fn directives(mnemonic: &str) -> Option<Mnemonic>
    ensures { result ≡ named spec.directives mnemonic.now }
{
    match mnemonic {
        ".word" => Some(Mnemonic::Data(Width::Word)),
        ".half" => Some(Mnemonic::Data(Width::Half)),
        ".byte" => Some(Mnemonic::Data(Width::Byte)),
        ".space" => Some(Mnemonic::Space),
        ".align" => Some(Mnemonic::Align),
        ".text" => Some(Mnemonic::Section),
        ".data" => Some(Mnemonic::Section),
        ".globl" => Some(Mnemonic::Global),
        ".global" => Some(Mnemonic::Global),
        _ => None,
    }
}
