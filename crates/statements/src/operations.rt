//! Instructions by what they do, and an address in two parts.
ghost use Rattle.std.specs.Prelude.{◌≡◌};
ghost use Rattle.statements.specs.Operations as spec;

use rv32i::{BranchOffset, Imm, Instr, Reg, Shamt, Upper};

/// An instruction of three registers (RISC-V Unprivileged ISA 20191213, section 2.4).
#[derive(Clone, Copy, PartialEq, Eq)]
pub(crate) enum RegisterOperation {
    /// ADD.
    Add,
    /// SUB.
    Sub,
    /// SLL.
    Sll,
    /// SLT.
    Slt,
    /// SLTU.
    Sltu,
    /// XOR.
    Xor,
    /// SRL.
    Srl,
    /// SRA.
    Sra,
    /// OR.
    Or,
    /// AND.
    And,
}

/// A shift by an immediate (section 2.4).
#[derive(Clone, Copy, PartialEq, Eq)]
pub(crate) enum ShiftOperation {
    /// SLLI.
    Slli,
    /// SRLI.
    Srli,
    /// SRAI.
    Srai,
}

/// When a branch is taken (RISC-V Unprivileged ISA 20191213, section 2.5).
#[derive(Clone, Copy, Debug, PartialEq, Eq)]
pub enum Condition {
    /// BEQ.
    Equal,
    /// BNE.
    NotEqual,
    /// BLT.
    LessThan,
    /// BGE.
    GreaterOrEqual,
    /// BLTU.
    LessThanUnsigned,
    /// BGEU.
    GreaterOrEqualUnsigned,
}

/// An instruction with an immediate of 12 bits that is not stored (sections 2.4 to 2.6).
#[derive(Clone, Copy, Debug, PartialEq, Eq)]
pub enum ImmediateOperation {
    /// ADDI.
    Addi,
    /// SLTI.
    Slti,
    /// SLTIU.
    Sltiu,
    /// XORI.
    Xori,
    /// ORI.
    Ori,
    /// ANDI.
    Andi,
    /// JALR.
    Jalr,
    /// LB.
    Lb,
    /// LH.
    Lh,
    /// LW.
    Lw,
    /// LBU.
    Lbu,
    /// LHU.
    Lhu,
}

/// An instruction that stores (section 2.6).
#[derive(Clone, Copy, Debug, PartialEq, Eq)]
pub enum StoreOperation {
    /// SB.
    Sb,
    /// SH.
    Sh,
    /// SW.
    Sw,
}

impl RegisterOperation {
    /// The instruction with these registers.
    pub(crate) fn instruction(self, rd: Reg, rs1: Reg, rs2: Reg) -> Instr
        ensures { result ≡ spec.register_instruction self rd rs1 rs2 }
    {
        match self {
            RegisterOperation::Add => Instr::Add { rd, rs1, rs2 },
            RegisterOperation::Sub => Instr::Sub { rd, rs1, rs2 },
            RegisterOperation::Sll => Instr::Sll { rd, rs1, rs2 },
            RegisterOperation::Slt => Instr::Slt { rd, rs1, rs2 },
            RegisterOperation::Sltu => Instr::Sltu { rd, rs1, rs2 },
            RegisterOperation::Xor => Instr::Xor { rd, rs1, rs2 },
            RegisterOperation::Srl => Instr::Srl { rd, rs1, rs2 },
            RegisterOperation::Sra => Instr::Sra { rd, rs1, rs2 },
            RegisterOperation::Or => Instr::Or { rd, rs1, rs2 },
            RegisterOperation::And => Instr::And { rd, rs1, rs2 },
        }
    }
}

impl ShiftOperation {
    /// The instruction with these registers and amount.
    pub(crate) fn instruction(self, rd: Reg, rs1: Reg, shamt: Shamt) -> Instr
        ensures { result ≡ spec.shift_instruction self rd rs1 shamt }
    {
        match self {
            ShiftOperation::Slli => Instr::Slli { rd, rs1, shamt },
            ShiftOperation::Srli => Instr::Srli { rd, rs1, shamt },
            ShiftOperation::Srai => Instr::Srai { rd, rs1, shamt },
        }
    }
}

impl ImmediateOperation {
    /// The instruction with these registers and immediate.
    pub fn instruction(self, rd: Reg, rs1: Reg, imm: Imm) -> Instr
        ensures { result ≡ spec.immediate_instruction self rd rs1 imm }
    {
        match self {
            ImmediateOperation::Addi => Instr::Addi { rd, rs1, imm },
            ImmediateOperation::Slti => Instr::Slti { rd, rs1, imm },
            ImmediateOperation::Sltiu => Instr::Sltiu { rd, rs1, imm },
            ImmediateOperation::Xori => Instr::Xori { rd, rs1, imm },
            ImmediateOperation::Ori => Instr::Ori { rd, rs1, imm },
            ImmediateOperation::Andi => Instr::Andi { rd, rs1, imm },
            ImmediateOperation::Jalr => Instr::Jalr { rd, rs1, imm },
            ImmediateOperation::Lb => Instr::Lb { rd, rs1, imm },
            ImmediateOperation::Lh => Instr::Lh { rd, rs1, imm },
            ImmediateOperation::Lw => Instr::Lw { rd, rs1, imm },
            ImmediateOperation::Lbu => Instr::Lbu { rd, rs1, imm },
            ImmediateOperation::Lhu => Instr::Lhu { rd, rs1, imm },
        }
    }
}

impl StoreOperation {
    /// The instruction with these registers, the address's first, and offset.
    pub fn instruction(self, rs1: Reg, rs2: Reg, imm: Imm) -> Instr
        ensures { result ≡ spec.store_instruction self rs1 rs2 imm }
    {
        match self {
            StoreOperation::Sb => Instr::Sb { rs1, rs2, imm },
            StoreOperation::Sh => Instr::Sh { rs1, rs2, imm },
            StoreOperation::Sw => Instr::Sw { rs1, rs2, imm },
        }
    }
}

impl Condition {
    /// The branch with these registers and offset.
    pub fn instruction(self, rs1: Reg, rs2: Reg, offset: BranchOffset) -> Instr
        ensures { result ≡ spec.branch_instruction self rs1 rs2 offset }
    {
        match self {
            Condition::Equal => Instr::Beq { rs1, rs2, offset },
            Condition::NotEqual => Instr::Bne { rs1, rs2, offset },
            Condition::LessThan => Instr::Blt { rs1, rs2, offset },
            Condition::GreaterOrEqual => Instr::Bge { rs1, rs2, offset },
            Condition::LessThanUnsigned => Instr::Bltu { rs1, rs2, offset },
            Condition::GreaterOrEqualUnsigned => Instr::Bgeu { rs1, rs2, offset },
        }
    }
}

/// The multiple of 4,096 of a number's two parts.
pub fn upper_part(number: u32) -> Upper
    ensures { result ≡ spec.upper_part number }
{
    Upper::new(number.wrapping_add(2048) / 4096 * 4096)
}

/// The low 12 bits of a number, sign-extended: the other part.
pub fn lower_part(number: u32) -> Imm
    ensures { result ≡ spec.lower_part number }
{
    let low = number % 4096;
    if low < 2048 {
        Imm::new(low)
    } else {
        Imm::new(low + 0xffff_f000)
    }
}
