//! What a step answers.

ghost use Rattle.std.specs.Prelude.{◌≡◌};
ghost use Rattle.rv32i.specs.Causes.{cause_text};

/// What one step of a hart led to.
#[derive(Clone, Copy, Debug, PartialEq, Eq)]
pub enum Stepped {
    /// An instruction retired.
    Retired,
    /// The environment call that prints retired: the number to print.
    Printed(i32),
    /// EBREAK retired.
    Break,
    /// The environment call that ends the program: its code. Nothing changed.
    Exit(i32),
    /// The instruction did not retire, and nothing changed.
    Trap(Cause),
}

/// Why an instruction did not retire.
#[derive(Clone, Copy, Debug, PartialEq, Eq)]
pub enum Cause {
    /// pc is outside memory.
    FetchOutside,
    /// The word at pc is no instruction of RV32I.
    Illegal,
    /// A jump or a taken branch has a target that is no multiple of 4; or pc is none.
    JumpMisaligned,
    /// The address of a load is no multiple of the number of its bytes.
    LoadMisaligned,
    /// A byte of a load is outside memory.
    LoadOutside,
    /// The address of a store is no multiple of the number of its bytes.
    StoreMisaligned,
    /// A byte of a store is outside memory.
    StoreOutside,
    /// ECALL with a number in a7 that names no call.
    UnknownCall,
}

impl Cause {
    /// The name of the exception (RISC-V Privileged ISA, table of `mcause`), as `load access fault`.
    pub fn text(self) -> &'static str
        ensures { result.now ≡ cause_text self }
    {
        match self {
            Cause::FetchOutside => "instruction access fault",
            Cause::Illegal => "illegal instruction",
            Cause::JumpMisaligned => "instruction address misaligned",
            Cause::LoadMisaligned => "load address misaligned",
            Cause::LoadOutside => "load access fault",
            Cause::StoreMisaligned => "store address misaligned",
            Cause::StoreOutside => "store access fault",
            Cause::UnknownCall => "unknown environment call",
        }
    }
}
