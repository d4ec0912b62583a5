//! What an instruction does with an address.

ghost use Rattle.std.specs.Prelude.{◌≡◌, slice_index};
ghost use Rattle.rv32i.specs.Machine.{sum};
ghost use Rattle.execution.specs.Uses as spec;

use rv32i::{BranchOffset, Hart, Imm, Instr, Reg};

/// What an instruction does with an address.
#[derive(Clone, Copy, Debug, PartialEq, Eq)]
pub enum Verb {
    /// It reads from there on.
    Reads,
    /// It writes from there on.
    Writes,
    /// It goes there.
    GoesTo,
}

/// An address that an instruction uses.
#[derive(Clone, Copy, Debug, PartialEq, Eq)]
pub struct Use {
    /// What it does with the address.
    pub verb: Verb,
    /// The address.
    pub address: u32,
    /// What the address has to be a multiple of.
    pub unit: u32,
}

/// The address that an instruction uses at the pc and by the registers of a hart, and how; that of a branch where it is taken. `None`: it
/// uses none.
pub(crate) fn use_of(instr: Instr, hart: &Hart) -> Option<Use>
    ensures { result ≡ spec.use_of instr hart.now }
{
    match instr {
        Instr::Jal { offset, .. } => goes_to(hart.pc.wrapping_add(offset.bits())),
        Instr::Jalr { rs1, imm, .. } => goes_to(place(hart, rs1, imm) / 2 * 2),
        Instr::Beq { offset, .. } => goes_to(target(hart, offset)),
        Instr::Bne { offset, .. } => goes_to(target(hart, offset)),
        Instr::Blt { offset, .. } => goes_to(target(hart, offset)),
        Instr::Bge { offset, .. } => goes_to(target(hart, offset)),
        Instr::Bltu { offset, .. } => goes_to(target(hart, offset)),
        Instr::Bgeu { offset, .. } => goes_to(target(hart, offset)),
        Instr::Lb { rs1, imm, .. } => reads(1, place(hart, rs1, imm)),
        Instr::Lh { rs1, imm, .. } => reads(2, place(hart, rs1, imm)),
        Instr::Lw { rs1, imm, .. } => reads(4, place(hart, rs1, imm)),
        Instr::Lbu { rs1, imm, .. } => reads(1, place(hart, rs1, imm)),
        Instr::Lhu { rs1, imm, .. } => reads(2, place(hart, rs1, imm)),
        Instr::Sb { rs1, imm, .. } => writes(1, place(hart, rs1, imm)),
        Instr::Sh { rs1, imm, .. } => writes(2, place(hart, rs1, imm)),
        Instr::Sw { rs1, imm, .. } => writes(4, place(hart, rs1, imm)),
        _ => None,
    }
}

// The address of a load, a store or a JALR.
fn place(hart: &Hart, base: Reg, imm: Imm) -> u32
    ensures { result ≡ spec.place hart.now base imm }
{
    hart.x[base.number()].wrapping_add(imm.bits())
}

// Where a branch goes that is taken.
fn target(hart: &Hart, offset: BranchOffset) -> u32
    ensures { result ≡ sum hart.now.pc offset }
{
    hart.pc.wrapping_add(offset.bits())
}

fn reads(unit: u32, address: u32) -> Option<Use>
    ensures { result ≡ spec.reads unit address }
{
    Some(Use {
        verb: Verb::Reads,
        address,
        unit,
    })
}

fn writes(unit: u32, address: u32) -> Option<Use>
    ensures { result ≡ spec.writes unit address }
{
    Some(Use {
        verb: Verb::Writes,
        address,
        unit,
    })
}

fn goes_to(address: u32) -> Option<Use>
    ensures { result ≡ spec.goes_to address }
{
    Some(Use {
        verb: Verb::GoesTo,
        address,
        unit: 4,
    })
}
