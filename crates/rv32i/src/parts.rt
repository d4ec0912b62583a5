//! The fields of a word, cut out of it (RISC-V Unprivileged ISA 20191213, sections 2.2 and 2.3).

ghost use Rattle.std.specs.Prelude.{◌≡◌, ◌+◌, ◌-◌, ◌*◌, ◌/◌, ◌%◌, ◌^◌};

use crate::fields::{BranchOffset, FenceSet, Imm, JumpOffset, Reg, Shamt, Upper};

/// Bits 6:0.
#[inline]
pub(crate) fn opcode(word: u32) -> u32
    ensures { result ≡ word % 2 ^ 7 }
{
    word & 0x7f
}

/// Bits 14:12.
#[inline]
pub(crate) fn funct3(word: u32) -> u32
    ensures { result ≡ word / 2 ^ 12 % 2 ^ 3 }
{
    (word >> 12) & 7
}

/// Bits 31:25.
#[inline]
pub(crate) fn funct7(word: u32) -> u32
    ensures { result ≡ word / 2 ^ 25 }
{
    word >> 25
}

/// Bits 11:7 as a register.
#[inline]
pub(crate) fn rd(word: u32) -> Reg
    ensures { result ≡ word / 2 ^ 7 % 2 ^ 5 }
{
    Reg::new(((word >> 7) & 31) as u8)
}

/// Bits 19:15 as a register.
#[inline]
pub(crate) fn rs1(word: u32) -> Reg
    ensures { result ≡ word / 2 ^ 15 % 2 ^ 5 }
{
    Reg::new(((word >> 15) & 31) as u8)
}

/// Bits 24:20 as a register.
#[inline]
pub(crate) fn rs2(word: u32) -> Reg
    ensures { result ≡ word / 2 ^ 20 % 2 ^ 5 }
{
    Reg::new(((word >> 20) & 31) as u8)
}

/// Bits 24:20 as a shift amount.
#[inline]
pub(crate) fn shamt(word: u32) -> Shamt
    ensures { result ≡ word / 2 ^ 20 % 2 ^ 5 }
{
    Shamt::new(((word >> 20) & 31) as u8)
}

/// Bits 31:28 as the mode of a FENCE.
pub(crate) fn mode(word: u32) -> FenceSet
    ensures { result ≡ word / 2 ^ 28 }
{
    FenceSet::new((word >> 28) as u8)
}

/// Bits 27:24 as a set of accesses.
pub(crate) fn predecessors(word: u32) -> FenceSet
    ensures { result ≡ word / 2 ^ 24 % 2 ^ 4 }
{
    FenceSet::new(((word >> 24) & 15) as u8)
}

/// Bits 23:20 as a set of accesses.
pub(crate) fn successors(word: u32) -> FenceSet
    ensures { result ≡ word / 2 ^ 20 % 2 ^ 4 }
{
    FenceSet::new(((word >> 20) & 15) as u8)
}

/// The immediate of the format I.
#[inline]
pub(crate) fn immediate_i(word: u32) -> Imm
    ensures { result ≡ word / 2 ^ 31 * (2 ^ 32 - 2 ^ 11) + word / 2 ^ 20 % 2 ^ 11 }
{
    Imm::new((word >> 31) * 0xffff_f800 + ((word >> 20) & 0x7ff))
}

/// The immediate of the format S.
#[inline]
pub(crate) fn immediate_s(word: u32) -> Imm
    ensures { result ≡ word / 2 ^ 31 * (2 ^ 32 - 2 ^ 11) + word / 2 ^ 25 % 2 ^ 6 * 2 ^ 5
        + word / 2 ^ 7 % 2 ^ 5 }
{
    Imm::new((word >> 31) * 0xffff_f800 + ((word >> 25) & 0x3f) * 32 + ((word >> 7) & 0x1f))
}

/// The offset of the format B.
#[inline]
pub(crate) fn offset_b(word: u32) -> BranchOffset
    ensures { result ≡ word / 2 ^ 31 * (2 ^ 32 - 2 ^ 12) + word / 2 ^ 7 % 2 * 2 ^ 11
        + word / 2 ^ 25 % 2 ^ 6 * 2 ^ 5 + word / 2 ^ 8 % 2 ^ 4 * 2 }
{
    BranchOffset::new(
        (word >> 31) * 0xffff_f000
            + ((word >> 7) & 1) * 2048
            + ((word >> 25) & 0x3f) * 32
            + ((word >> 8) & 0xf) * 2,
    )
}

/// The immediate of the format U.
#[inline]
pub(crate) fn immediate_u(word: u32) -> Upper
    ensures { result ≡ word / 2 ^ 12 * 2 ^ 12 }
{
    Upper::new((word >> 12) * 4096)
}

/// The offset of the format J.
#[inline]
pub(crate) fn offset_j(word: u32) -> JumpOffset
    ensures { result ≡ word / 2 ^ 31 * (2 ^ 32 - 2 ^ 20) + word / 2 ^ 12 % 2 ^ 8 * 2 ^ 12
        + word / 2 ^ 20 % 2 * 2 ^ 11 + word / 2 ^ 21 % 2 ^ 10 * 2 }
{
    JumpOffset::new(
        (word >> 31) * 0xfff0_0000
            + ((word >> 12) & 0xff) * 4096
            + ((word >> 20) & 1) * 2048
            + ((word >> 21) & 0x3ff) * 2,
    )
}
