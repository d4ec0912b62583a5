//! What a line may say.

use crate::items::{Items, Width};
use crate::name::Name;
use crate::operations::{Condition, ImmediateOperation, StoreOperation};
use rv32i::{Instr, Reg};

/// Where a jump or a branch goes.
#[derive(Drop)]
pub enum Target<'a> {
    /// The address of a label.
    Label(Name<'a>),
    /// An address.
    Address(u32),
}

/// What a line says. What depends on an address names the label or the address.
#[derive(Drop)]
pub enum Statement<'a> {
    /// One instruction that is known.
    One(Instr),
    /// Two instructions that are known.
    Two(Instr, Instr),
    /// JAL.
    Jump {
        /// The register that gets the address of the next instruction.
        rd: Reg,
        /// Where it goes.
        target: Target<'a>,
    },
    /// A branch.
    Branch {
        /// When it is taken.
        condition: Condition,
        /// The first register that it compares.
        rs1: Reg,
        /// The second.
        rs2: Reg,
        /// Where it goes.
        target: Target<'a>,
    },
    /// LUI with the upper 20 bits of a label's address.
    Upper {
        /// The register that it sets.
        rd: Reg,
        /// The label.
        label: Name<'a>,
    },
    /// An instruction with the lower 12 bits of a label's address.
    Lower {
        /// Which one.
        operation: ImmediateOperation,
        /// The register that it sets.
        rd: Reg,
        /// The register that it reads.
        rs1: Reg,
        /// The label.
        label: Name<'a>,
    },
    /// A store at the lower 12 bits of a label's address.
    StoreLower {
        /// Which one.
        operation: StoreOperation,
        /// The register of the address.
        rs1: Reg,
        /// The register that is stored.
        rs2: Reg,
        /// The label.
        label: Name<'a>,
    },
    /// The two instructions that put a label's address into a register.
    LoadAddress {
        /// The register.
        rd: Reg,
        /// The label.
        label: Name<'a>,
    },
    /// The two instructions that call a label.
    Call {
        /// The label.
        label: Name<'a>,
    },
    /// Data, one item after the other.
    Data {
        /// How many bytes each has.
        width: Width,
        /// The items.
        items: Items<'a>,
    },
    /// This many zero bytes.
    Space(u32),
    /// Zero bytes up to a multiple of this power of 2.
    Align(u32),
    /// Nothing: a directive that has no effect.
    Nothing,
}
