//! What a statement puts into memory.
ghost use Rattle.std.specs.Prelude.{◌≡◌, ◌+◌, ◌++◌, ◌<◌, ◌^◌, ◌%◌, [], ◌∷◌, Ok, Err, MatchResult, OnOk, IfErr, List, replicate};
ghost use Rattle.image.specs.Lines.{labels_of};
ghost use Rattle.image.specs.Memory.{word_bytes};
ghost use Rattle.assembler.specs.Contents as spec;
ghost use Rattle.assembler.specs.Contents.{Code, Plain};
ghost use Rattle.assembler.specs.Places.{size_of};
ghost use Rattle.assembler.specs.Private.Steps.{Appends, ReportsKind, Writes};

use crate::error::AsmErrorKind;
use indexmap::IndexMap;
use rv32i::{BranchOffset, Instr, JumpOffset, Reg, encode};
use statements::{
    Condition, ImmediateOperation, Item, Name, Statement, StoreOperation, Target, Width,
    lower_part, upper_part,
};

/// Appends what a statement at an address puts into memory; `end` is the address after it.
#[tactic(auto, using(crate::proofs::Written::itself))]
pub(crate) fn write(
    bytes: &mut Vec<u8>,
    labels: &IndexMap<String, u32>,
    address: u32,
    end: u32,
    statement: &Statement,
) -> Result<(), AsmErrorKind>
    requires { end ≡ address + size_of statement.now address }
    ensures { Writes result (spec.content_of (labels_of labels.now.entries) address statement.now)
        bytes.old.items bytes.new.items }
{
    match statement {
        Statement::One(instr) => put_one(bytes, Ok(*instr)),
        Statement::Two(first, second) => put_two(bytes, *first, *second),
        Statement::Jump { rd, target } => put_one(bytes, coded_jump(labels, address, *rd, target)),
        Statement::Branch {
            condition,
            rs1,
            rs2,
            target,
        } => put_one(
            bytes,
            coded_branch(labels, address, *condition, *rs1, *rs2, target),
        ),
        Statement::Upper { rd, label } => put_one(bytes, upper(labels, *rd, label)),
        Statement::Lower {
            operation,
            rd,
            rs1,
            label,
        } => put_one(bytes, lower(labels, *operation, *rd, *rs1, label)),
        Statement::StoreLower {
            operation,
            rs1,
            rs2,
            label,
        } => put_one(bytes, store_lower(labels, *operation, *rs1, *rs2, label)),
        Statement::LoadAddress { rd, label } => {
            put_address(bytes, *rd, distance_of(labels, address, label))
        }
        Statement::Call { label } => put_call(bytes, distance_of(labels, address, label)),
        Statement::Data { width, items } => put_items(bytes, labels, *width, items.as_slice()),
        Statement::Space(count) => put_zeros(bytes, *count),
        Statement::Align(_) => put_zeros(bytes, end - address),
        Statement::Nothing => put_zeros(bytes, 0),
    }
}

// ---- addresses

fn address_of(labels: &IndexMap<String, u32>, name: &Name) -> Result<u32, AsmErrorKind>
    ensures { result ≡ spec.address_of (labels_of labels.now.entries) name.now }
{
    match labels.get(name.as_str()) {
        Some(address) => Ok(*address),
        None => Err(AsmErrorKind::Undefined),
    }
}

fn target_of(labels: &IndexMap<String, u32>, target: &Target) -> Result<u32, AsmErrorKind>
    ensures { result ≡ spec.target_of (labels_of labels.now.entries) target.now }
{
    match target {
        Target::Label(name) => address_of(labels, name),
        Target::Address(address) => Ok(*address),
    }
}

// How far a label is from an address.
fn distance_of(
    labels: &IndexMap<String, u32>,
    address: u32,
    label: &Name,
) -> Result<u32, AsmErrorKind>
    ensures { result ≡ spec.distance_of (labels_of labels.now.entries) address label.now }
{
    match address_of(labels, label) {
        Ok(to) => Ok(to.wrapping_sub(address)),
        Err(kind) => Err(kind),
    }
}

fn branch_offset(far: u32) -> Result<BranchOffset, AsmErrorKind>
    ensures { result ≡ spec.branch_offset far }
{
    if far.wrapping_add(4096) < 8192 && far % 2 == 0 {
        Ok(BranchOffset::new(far))
    } else {
        Err(AsmErrorKind::OutOfRange)
    }
}

fn jump_offset(far: u32) -> Result<JumpOffset, AsmErrorKind>
    ensures { result ≡ spec.jump_offset far }
{
    if far.wrapping_add(1_048_576) < 2_097_152 && far % 2 == 0 {
        Ok(JumpOffset::new(far))
    } else {
        Err(AsmErrorKind::OutOfRange)
    }
}

// ---- instructions

fn coded_jump(
    labels: &IndexMap<String, u32>,
    address: u32,
    rd: Reg,
    target: &Target,
) -> Result<Instr, AsmErrorKind>
    ensures { result ≡ spec.coded_jump (labels_of labels.now.entries) address rd target.now }
{
    let to = match target_of(labels, target) {
        Ok(to) => to,
        Err(kind) => return Err(kind),
    };
    match jump_offset(to.wrapping_sub(address)) {
        Ok(offset) => Ok(Instr::Jal { rd, offset }),
        Err(kind) => Err(kind),
    }
}

fn coded_branch(
    labels: &IndexMap<String, u32>,
    address: u32,
    condition: Condition,
    rs1: Reg,
    rs2: Reg,
    target: &Target,
) -> Result<Instr, AsmErrorKind>
    ensures { result ≡ spec.coded_branch
        (labels_of labels.now.entries) address condition rs1 rs2 target.now }
{
    let to = match target_of(labels, target) {
        Ok(to) => to,
        Err(kind) => return Err(kind),
    };
    match branch_offset(to.wrapping_sub(address)) {
        Ok(offset) => Ok(condition.instruction(rs1, rs2, offset)),
        Err(kind) => Err(kind),
    }
}

fn upper(labels: &IndexMap<String, u32>, rd: Reg, label: &Name) -> Result<Instr, AsmErrorKind>
    ensures { result ≡ spec.upper (labels_of labels.now.entries) rd label.now }
{
    match address_of(labels, label) {
        Ok(to) => Ok(Instr::Lui {
            rd,
            imm: upper_part(to),
        }),
        Err(kind) => Err(kind),
    }
}

fn lower(
    labels: &IndexMap<String, u32>,
    operation: ImmediateOperation,
    rd: Reg,
    rs1: Reg,
    label: &Name,
) -> Result<Instr, AsmErrorKind>
    ensures { result ≡ spec.lower (labels_of labels.now.entries) operation rd rs1 label.now }
{
    match address_of(labels, label) {
        Ok(to) => Ok(operation.instruction(rd, rs1, lower_part(to))),
        Err(kind) => Err(kind),
    }
}

fn store_lower(
    labels: &IndexMap<String, u32>,
    operation: StoreOperation,
    rs1: Reg,
    rs2: Reg,
    label: &Name,
) -> Result<Instr, AsmErrorKind>
    ensures { result ≡ spec.store_lower (labels_of labels.now.entries) operation rs1 rs2 label.now }
{
    match address_of(labels, label) {
        Ok(to) => Ok(operation.instruction(rs1, rs2, lower_part(to))),
        Err(kind) => Err(kind),
    }
}

// ---- bytes

fn push_all(bytes: &mut Vec<u8>, more: &[u8]) -> Result<(), AsmErrorKind>
    ensures ok { OnOk result (bytes.new.items ≡ bytes.old.items ++ more.now) }
    ensures err { IfErr result (λ kind. kind ≡ AsmErrorKind.NoMemory) }
{
    match bytes.extend_from_slice(more) {
        Ok(()) => Ok(()),
        Err(_) => Err(AsmErrorKind::NoMemory),
    }
}

#[tactic(auto, using(crate::proofs::Written::one_word))]
fn put_word(bytes: &mut Vec<u8>, instr: Instr) -> Result<(), AsmErrorKind>
    ensures ok { OnOk result (Appends (Code (instr ∷ [])) bytes.old.items bytes.new.items) }
    ensures err { IfErr result (λ kind. kind ≡ AsmErrorKind.NoMemory) }
{
    push_all(bytes, &encode(instr).to_le_bytes())
}

#[tactic(auto, using(crate::proofs::Written::itself))]
fn put_one(bytes: &mut Vec<u8>, instr: Result<Instr, AsmErrorKind>) -> Result<(), AsmErrorKind>
    ensures { Writes result (spec.one instr) bytes.old.items bytes.new.items }
{
    match instr {
        Ok(instr) => put_word(bytes, instr),
        Err(kind) => Err(kind),
    }
}

fn put_two(bytes: &mut Vec<u8>, first: Instr, second: Instr) -> Result<(), AsmErrorKind>
    ensures { Writes result (Ok (Code (first ∷ second ∷ []))) bytes.old.items bytes.new.items }
{
    if let Err(kind) = put_word(bytes, first) {
        return Err(kind);
    }
    put_word(bytes, second)
}

fn put_address(
    bytes: &mut Vec<u8>,
    rd: Reg,
    far: Result<u32, AsmErrorKind>,
) -> Result<(), AsmErrorKind>
    ensures { Writes result (spec.load_address rd far) bytes.old.items bytes.new.items }
{
    match far {
        Ok(far) => put_two(
            bytes,
            Instr::Auipc {
                rd,
                imm: upper_part(far),
            },
            Instr::Addi {
                rd,
                rs1: rd,
                imm: lower_part(far),
            },
        ),
        Err(kind) => Err(kind),
    }
}

fn put_call(bytes: &mut Vec<u8>, far: Result<u32, AsmErrorKind>) -> Result<(), AsmErrorKind>
    ensures { Writes result (spec.call far) bytes.old.items bytes.new.items }
{
    let link = Reg::new(1);
    match far {
        Ok(far) => put_two(
            bytes,
            Instr::Auipc {
                rd: link,
                imm: upper_part(far),
            },
            Instr::Jalr {
                rd: link,
                rs1: link,
                imm: lower_part(far),
            },
        ),
        Err(kind) => Err(kind),
    }
}

fn put_zeros(bytes: &mut Vec<u8>, count: u32) -> Result<(), AsmErrorKind>
    ensures { Writes result (Ok (Plain (replicate count 0))) bytes.old.items bytes.new.items }
{
    for _index in 0..count {
        if bytes.push(0).is_err() {
            return Err(AsmErrorKind::NoMemory);
        }
    }
    Ok(())
}

fn value_of(labels: &IndexMap<String, u32>, item: &Item) -> Result<u32, AsmErrorKind>
    ensures { result ≡ spec.value_of (labels_of labels.now.entries) item.now }
{
    match item {
        Item::Label(name) => address_of(labels, name),
        Item::Number(number) => Ok(*number),
    }
}

fn put_value(bytes: &mut Vec<u8>, width: Width, value: u32) -> Result<(), AsmErrorKind>
    ensures ok { OnOk result (bytes.new.items ≡ bytes.old.items ++ spec.item_bytes width value) }
    ensures err { IfErr result (λ kind. kind ≡ AsmErrorKind.NoMemory) }
{
    let low_first = value.to_le_bytes();
    match width {
        Width::Byte => push_all(bytes, &low_first[..1]),
        Width::Half => push_all(bytes, &low_first[..2]),
        Width::Word => push_all(bytes, &low_first),
    }
}

fn put_items(
    bytes: &mut Vec<u8>,
    labels: &IndexMap<String, u32>,
    width: Width,
    items: &[Item],
) -> Result<(), AsmErrorKind>
    ensures { Writes result (spec.plain
        (spec.items_bytes (labels_of labels.now.entries) width items.now)) bytes.old.items
        bytes.new.items }
{
    for item in items {
        let value = match value_of(labels, item) {
            Ok(value) => value,
            Err(kind) => return Err(kind),
        };
        if let Err(kind) = put_value(bytes, width, value) {
            return Err(kind);
        }
    }
    Ok(())
}
