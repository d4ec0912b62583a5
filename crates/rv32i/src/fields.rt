//! The fields of an instruction, each kept within its width (RISC-V Unprivileged ISA 20191213,
//! sections 2.2 and 2.3). A contract sees each as a number. An immediate is kept as 32 bits,
//! sign-extended.

ghost use Rattle.std.specs.Prelude.{◌≡◌, ◌+◌, ◌%◌, ◌^◌, ◌<◌, ℕ};

use std::marker::Model;

/// One of the registers x0 to x31.
#[derive(Clone, Copy, Debug, PartialEq, Eq)]
pub struct Reg {
    number: u8,
}

impl Model for Reg {
    ghost use Rattle.std.specs.Prelude.{ℕ, ◌≡◌, ◌<◌, ◌+◌, ◌%◌, ◌^◌};

    ghost Value = { ℕ };

    ghost view = { λ f. f.number };

    ghost invariant = { λ f. f.number < 32 };

    ghost inverse = { λ n. record { number = n } };
}

impl Reg {
    /// The register of a number from 0 to 31.
    #[inline]
    pub fn new(number: u8) -> Reg
        requires { number < 32 }
        ensures { result ≡ number }
    {
        Reg { number }
    }

    /// Its number, 0 to 31.
    #[inline]
    pub fn number(self) -> usize
        ensures value { result ≡ self }
        ensures within { result < 32 }
    {
        usize::from(self.number)
    }
}

/// An immediate of 12 bits, -2,048 to 2,047.
#[derive(Clone, Copy, Debug, PartialEq, Eq)]
pub struct Imm {
    bits: u32,
}

impl Model for Imm {
    ghost use Rattle.std.specs.Prelude.{ℕ, ◌≡◌, ◌<◌, ◌+◌, ◌%◌, ◌^◌};

    ghost Value = { ℕ };

    ghost view = { λ f. f.bits };

    ghost invariant = { λ f. (f.bits + 2048) % 2 ^ 32 < 4096 };

    ghost inverse = { λ n. record { bits = n } };
}

impl Imm {
    /// The immediate of these 32 bits, sign-extended from 12.
    #[inline]
    pub fn new(bits: u32) -> Imm
        requires { (bits + 2048) % 2 ^ 32 < 4096 }
        ensures { result ≡ bits }
    {
        Imm { bits }
    }

    /// Its 32 bits.
    #[inline]
    pub fn bits(self) -> u32
        ensures value { result ≡ self }
        ensures within { (result + 2048) % 2 ^ 32 < 4096 }
    {
        self.bits
    }
}

/// The offset of a branch from its own address: even, -4,096 to 4,094 bytes.
#[derive(Clone, Copy, Debug, PartialEq, Eq)]
pub struct BranchOffset {
    bits: u32,
}

impl Model for BranchOffset {
    ghost use Rattle.std.specs.Prelude.{ℕ, ◌≡◌, ◌<◌, ◌+◌, ◌%◌, ◌^◌};

    ghost Value = { ℕ };

    ghost view = { λ f. f.bits };

    ghost invariant = { λ f. ((f.bits + 4096) % 2 ^ 32 < 8192) × (f.bits % 2 ≡ 0) };

    ghost inverse = { λ n. record { bits = n } };
}

impl BranchOffset {
    /// The offset of these 32 bits, sign-extended from 13.
    #[inline]
    pub fn new(bits: u32) -> BranchOffset
        requires within { (bits + 4096) % 2 ^ 32 < 8192 }
        requires even { bits % 2 ≡ 0 }
        ensures { result ≡ bits }
    {
        BranchOffset { bits }
    }

    /// Its 32 bits.
    #[inline]
    pub fn bits(self) -> u32
        ensures value { result ≡ self }
        ensures within { (result + 4096) % 2 ^ 32 < 8192 }
        ensures even { result % 2 ≡ 0 }
    {
        self.bits
    }
}

/// The offset of JAL from its own address: even, -1,048,576 to 1,048,574 bytes.
#[derive(Clone, Copy, Debug, PartialEq, Eq)]
pub struct JumpOffset {
    bits: u32,
}

impl Model for JumpOffset {
    ghost use Rattle.std.specs.Prelude.{ℕ, ◌≡◌, ◌<◌, ◌+◌, ◌%◌, ◌^◌};

    ghost Value = { ℕ };

    ghost view = { λ f. f.bits };

    ghost invariant = { λ f. ((f.bits + 1048576) % 2 ^ 32 < 2097152) × (f.bits % 2 ≡ 0) };

    ghost inverse = { λ n. record { bits = n } };
}

impl JumpOffset {
    /// The offset of these 32 bits, sign-extended from 21.
    #[inline]
    pub fn new(bits: u32) -> JumpOffset
        requires within { (bits + 1048576) % 2 ^ 32 < 2097152 }
        requires even { bits % 2 ≡ 0 }
        ensures { result ≡ bits }
    {
        JumpOffset { bits }
    }

    /// Its 32 bits.
    #[inline]
    pub fn bits(self) -> u32
        ensures value { result ≡ self }
        ensures within { (result + 1048576) % 2 ^ 32 < 2097152 }
        ensures even { result % 2 ≡ 0 }
    {
        self.bits
    }
}

/// An immediate of the upper 20 bits of a word; the lower 12 are 0.
#[derive(Clone, Copy, Debug, PartialEq, Eq)]
pub struct Upper {
    bits: u32,
}

impl Model for Upper {
    ghost use Rattle.std.specs.Prelude.{ℕ, ◌≡◌, ◌<◌, ◌+◌, ◌%◌, ◌^◌};

    ghost Value = { ℕ };

    ghost view = { λ f. f.bits };

    ghost invariant = { λ f. f.bits % 4096 ≡ 0 };

    ghost inverse = { λ n. record { bits = n } };
}

impl Upper {
    /// The immediate of this word, a multiple of 4,096.
    #[inline]
    pub fn new(bits: u32) -> Upper
        requires { bits % 4096 ≡ 0 }
        ensures { result ≡ bits }
    {
        Upper { bits }
    }

    /// The whole word.
    #[inline]
    pub fn bits(self) -> u32
        ensures value { result ≡ self }
        ensures low { result % 4096 ≡ 0 }
    {
        self.bits
    }
}

/// How many places a shift by an immediate shifts.
#[derive(Clone, Copy, Debug, PartialEq, Eq)]
pub struct Shamt {
    amount: u8,
}

impl Model for Shamt {
    ghost use Rattle.std.specs.Prelude.{ℕ, ◌≡◌, ◌<◌, ◌+◌, ◌%◌, ◌^◌};

    ghost Value = { ℕ };

    ghost view = { λ f. f.amount };

    ghost invariant = { λ f. f.amount < 32 };

    ghost inverse = { λ n. record { amount = n } };
}

impl Shamt {
    /// The amount of 0 to 31 places.
    #[inline]
    pub fn new(amount: u8) -> Shamt
        requires { amount < 32 }
        ensures { result ≡ amount }
    {
        Shamt { amount }
    }

    /// The number of places, 0 to 31.
    #[inline]
    pub fn amount(self) -> u32
        ensures value { result ≡ self }
        ensures within { result < 32 }
    {
        u32::from(self.amount)
    }
}

/// A field of 4 bits of FENCE: its mode, or the accesses before or after it: device input is 8,
/// device output 4, memory reads 2 and memory writes 1.
#[derive(Clone, Copy, Debug, PartialEq, Eq)]
pub struct FenceSet {
    bits: u8,
}

impl Model for FenceSet {
    ghost use Rattle.std.specs.Prelude.{ℕ, ◌≡◌, ◌<◌, ◌+◌, ◌%◌, ◌^◌};

    ghost Value = { ℕ };

    ghost view = { λ f. f.bits };

    ghost invariant = { λ f. f.bits < 16 };

    ghost inverse = { λ n. record { bits = n } };
}

impl FenceSet {
    /// The field of these 4 bits, 0 to 15.
    #[inline]
    pub fn new(bits: u8) -> FenceSet
        requires { bits < 16 }
        ensures { result ≡ bits }
    {
        FenceSet { bits }
    }

    /// The bits, 0 to 15.
    #[inline]
    pub fn bits(self) -> u32
        ensures value { result ≡ self }
        ensures within { result < 16 }
    {
        u32::from(self.bits)
    }
}
