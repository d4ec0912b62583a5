//! The instructions of RV32I, by name.

use crate::fields::{BranchOffset, FenceSet, Imm, JumpOffset, Reg, Shamt, Upper};

/// An instruction (RISC-V Unprivileged ISA 20191213, chapter 2), each field within its width.
#[derive(Clone, Copy, Debug, PartialEq, Eq)]
pub enum Instr {
    /// Load upper immediate.
    Lui {
        rd: Reg,
        imm: Upper,
    },
    /// Add upper immediate to pc.
    Auipc {
        rd: Reg,
        imm: Upper,
    },
    /// Jump and link.
    Jal {
        rd: Reg,
        offset: JumpOffset,
    },
    /// Jump and link register.
    Jalr {
        rd: Reg,
        rs1: Reg,
        imm: Imm,
    },
    /// Branch if equal.
    Beq {
        rs1: Reg,
        rs2: Reg,
        offset: BranchOffset,
    },
    /// Branch if not equal.
    Bne {
        rs1: Reg,
        rs2: Reg,
        offset: BranchOffset,
    },
    /// Branch if less than, signed.
    Blt {
        rs1: Reg,
        rs2: Reg,
        offset: BranchOffset,
    },
    /// Branch if greater than or equal, signed.
    Bge {
        rs1: Reg,
        rs2: Reg,
        offset: BranchOffset,
    },
    /// Branch if less than, unsigned.
    Bltu {
        rs1: Reg,
        rs2: Reg,
        offset: BranchOffset,
    },
    /// Branch if greater than or equal, unsigned.
    Bgeu {
        rs1: Reg,
        rs2: Reg,
        offset: BranchOffset,
    },
    /// Load a byte, sign-extended.
    Lb {
        rd: Reg,
        rs1: Reg,
        imm: Imm,
    },
    /// Load a halfword, sign-extended.
    Lh {
        rd: Reg,
        rs1: Reg,
        imm: Imm,
    },
    /// Load a word.
    Lw {
        rd: Reg,
        rs1: Reg,
        imm: Imm,
    },
    /// Load a byte, zero-extended.
    Lbu {
        rd: Reg,
        rs1: Reg,
        imm: Imm,
    },
    /// Load a halfword, zero-extended.
    Lhu {
        rd: Reg,
        rs1: Reg,
        imm: Imm,
    },
    /// Store a byte.
    Sb {
        rs1: Reg,
        rs2: Reg,
        imm: Imm,
    },
    /// Store a halfword.
    Sh {
        rs1: Reg,
        rs2: Reg,
        imm: Imm,
    },
    /// Store a word.
    Sw {
        rs1: Reg,
        rs2: Reg,
        imm: Imm,
    },
    /// Add an immediate.
    Addi {
        rd: Reg,
        rs1: Reg,
        imm: Imm,
    },
    /// Set if less than an immediate, signed.
    Slti {
        rd: Reg,
        rs1: Reg,
        imm: Imm,
    },
    /// Set if less than an immediate, unsigned.
    Sltiu {
        rd: Reg,
        rs1: Reg,
        imm: Imm,
    },
    /// Exclusive or with an immediate.
    Xori {
        rd: Reg,
        rs1: Reg,
        imm: Imm,
    },
    /// Or with an immediate.
    Ori {
        rd: Reg,
        rs1: Reg,
        imm: Imm,
    },
    /// And with an immediate.
    Andi {
        rd: Reg,
        rs1: Reg,
        imm: Imm,
    },
    /// Shift left by an immediate.
    Slli {
        rd: Reg,
        rs1: Reg,
        shamt: Shamt,
    },
    /// Shift right by an immediate, bringing in zeros.
    Srli {
        rd: Reg,
        rs1: Reg,
        shamt: Shamt,
    },
    /// Shift right by an immediate, copying the sign.
    Srai {
        rd: Reg,
        rs1: Reg,
        shamt: Shamt,
    },
    /// Add.
    Add {
        rd: Reg,
        rs1: Reg,
        rs2: Reg,
    },
    /// Subtract.
    Sub {
        rd: Reg,
        rs1: Reg,
        rs2: Reg,
    },
    /// Shift left.
    Sll {
        rd: Reg,
        rs1: Reg,
        rs2: Reg,
    },
    /// Set if less than, signed.
    Slt {
        rd: Reg,
        rs1: Reg,
        rs2: Reg,
    },
    /// Set if less than, unsigned.
    Sltu {
        rd: Reg,
        rs1: Reg,
        rs2: Reg,
    },
    /// Exclusive or.
    Xor {
        rd: Reg,
        rs1: Reg,
        rs2: Reg,
    },
    /// Shift right, bringing in zeros.
    Srl {
        rd: Reg,
        rs1: Reg,
        rs2: Reg,
    },
    /// Shift right, copying the sign.
    Sra {
        rd: Reg,
        rs1: Reg,
        rs2: Reg,
    },
    /// Or.
    Or {
        rd: Reg,
        rs1: Reg,
        rs2: Reg,
    },
    /// And.
    And {
        rd: Reg,
        rs1: Reg,
        rs2: Reg,
    },
    /// Order memory accesses. One hart has none to order.
    Fence {
        fm: FenceSet,
        before: FenceSet,
        after: FenceSet,
        rd: Reg,
        rs1: Reg,
    },
    /// Call the environment.
    Ecall,
    /// Call the debugger.
    Ebreak,
}
