//! What each mnemonic and directive takes. The reader of lines has the same in its own form: this says it to people.

use crate::kinds::Kind;

/// What a mnemonic takes.
#[derive(Clone, Copy, PartialEq, Eq)]
pub(crate) enum Form {
    /// `rd, rs1, rs2`.
    Registers,
    /// `rd, rs1, imm`.
    Immediate,
    /// `rd, rs1, shamt`.
    Shift,
    /// `reg, imm(reg)`.
    Access,
    /// `rs1, rs2, label`.
    Branch,
    /// `rs1, label`.
    ZeroBranch,
    /// `rd, rs1`.
    Copy,
    /// `rd, imm` or `rd, %hi(label)`.
    LoadUpper,
    /// `rd, imm`.
    AddUpper,
    /// `rd, number`.
    LoadImmediate,
    /// `rd, label`.
    LoadAddress,
    /// `label`, or an address.
    Jump,
    /// `label` or `rd, label`.
    JumpAndLink,
    /// `rs1`, `rd, imm(rs1)` or `rd, rs1, imm`.
    JumpAndLinkRegister,
    /// `rs1`.
    JumpRegister,
    /// A label alone.
    Label,
    /// No operands.
    Nothing,
    /// None, or two sets of accesses.
    Fence,
    /// Items of four bytes.
    Words,
    /// Items of two bytes.
    Halves,
    /// Items of one byte.
    Bytes,
    /// A number of bytes.
    Space,
    /// A power of 2.
    Align,
}

/// All forms. A name that two of them had would be the first one's.
pub(crate) static FORMS: [Form; 23] = [
    Form::Registers,
    Form::Immediate,
    Form::Shift,
    Form::Access,
    Form::Branch,
    Form::ZeroBranch,
    Form::Copy,
    Form::LoadUpper,
    Form::AddUpper,
    Form::LoadImmediate,
    Form::LoadAddress,
    Form::Jump,
    Form::JumpAndLink,
    Form::JumpAndLinkRegister,
    Form::JumpRegister,
    Form::Label,
    Form::Nothing,
    Form::Fence,
    Form::Words,
    Form::Halves,
    Form::Bytes,
    Form::Space,
    Form::Align,
];

static REGISTERS: [&str; 10] = [
    "add", "sub", "sll", "slt", "sltu", "xor", "srl", "sra", "or", "and",
];

static IMMEDIATE: [&str; 6] = ["addi", "slti", "sltiu", "xori", "ori", "andi"];

static SHIFT: [&str; 3] = ["slli", "srli", "srai"];

static ACCESS: [&str; 8] = ["lw", "lb", "lh", "lbu", "lhu", "sw", "sb", "sh"];

static BRANCH: [&str; 10] = [
    "beq", "bne", "blt", "bge", "bltu", "bgeu", "bgt", "ble", "bgtu", "bleu",
];

static ZERO_BRANCH: [&str; 6] = ["beqz", "bnez", "bgez", "bltz", "blez", "bgtz"];

static COPY: [&str; 7] = ["mv", "not", "seqz", "neg", "snez", "sgtz", "sltz"];

static LOAD_UPPER: [&str; 1] = ["lui"];

static ADD_UPPER: [&str; 1] = ["auipc"];

static LOAD_IMMEDIATE: [&str; 1] = ["li"];

static LOAD_ADDRESS: [&str; 1] = ["la"];

static JUMP: [&str; 1] = ["j"];

static JUMP_AND_LINK: [&str; 1] = ["jal"];

static JUMP_AND_LINK_REGISTER: [&str; 1] = ["jalr"];

static JUMP_REGISTER: [&str; 1] = ["jr"];

static LABEL: [&str; 3] = ["call", ".globl", ".global"];

static NOTHING: [&str; 6] = ["ret", "nop", "ecall", "ebreak", ".text", ".data"];

static FENCE: [&str; 1] = ["fence"];

static WORDS: [&str; 1] = [".word"];

static HALVES: [&str; 1] = [".half"];

static BYTES: [&str; 1] = [".byte"];

static SPACE: [&str; 1] = [".space"];

static ALIGN: [&str; 1] = [".align"];

impl Form {
    /// The mnemonics and directives that have this form.
    pub(crate) fn names(self) -> &'static [&'static str] {
        match self {
            Form::Registers => &REGISTERS,
            Form::Immediate => &IMMEDIATE,
            Form::Shift => &SHIFT,
            Form::Access => &ACCESS,
            Form::Branch => &BRANCH,
            Form::ZeroBranch => &ZERO_BRANCH,
            Form::Copy => &COPY,
            Form::LoadUpper => &LOAD_UPPER,
            Form::AddUpper => &ADD_UPPER,
            Form::LoadImmediate => &LOAD_IMMEDIATE,
            Form::LoadAddress => &LOAD_ADDRESS,
            Form::Jump => &JUMP,
            Form::JumpAndLink => &JUMP_AND_LINK,
            Form::JumpAndLinkRegister => &JUMP_AND_LINK_REGISTER,
            Form::JumpRegister => &JUMP_REGISTER,
            Form::Label => &LABEL,
            Form::Nothing => &NOTHING,
            Form::Fence => &FENCE,
            Form::Words => &WORDS,
            Form::Halves => &HALVES,
            Form::Bytes => &BYTES,
            Form::Space => &SPACE,
            Form::Align => &ALIGN,
        }
    }

    /// What it takes, in words.
    pub(crate) fn usage(self) -> &'static str {
        match self {
            Form::Registers => "three registers",
            Form::Immediate | Form::Shift => "two registers and a number",
            Form::Access => "a register and imm(reg)",
            Form::Branch => "two registers and a label",
            Form::ZeroBranch | Form::LoadAddress => "a register and a label",
            Form::Copy => "two registers",
            Form::LoadUpper => "a register and a number or %hi(label)",
            Form::AddUpper | Form::LoadImmediate => "a register and a number",
            Form::Jump | Form::Label => "a label",
            Form::JumpAndLink => "a label, with or without a register before it",
            Form::JumpAndLinkRegister =>
                "a register; a register and imm(reg); or two registers and a number",
            Form::JumpRegister => "a register",
            Form::Nothing => "no operands",
            Form::Fence => "no operands, or two sets of iorw",
            Form::Words => "numbers and labels",
            Form::Halves | Form::Bytes => "numbers",
            Form::Space | Form::Align => "a number",
        }
    }

    /// What the operand at an index has to be, of `count` operands. `None`: that many are not taken.
    pub(crate) fn kind_at(self, count: usize, index: usize) -> Option<Kind> {
        match (self, count) {
            (Form::Registers, 3) => Some(Kind::Register),
            (Form::Immediate, 3) => Some(last_of_three(index, Kind::Immediate)),
            (Form::Shift, 3) => Some(last_of_three(index, Kind::Amount)),
            (Form::Access, 2) => Some(last_of_two(index, Kind::Access)),
            (Form::Branch, 3) => Some(last_of_three(index, Kind::Target)),
            (Form::ZeroBranch, 2) => Some(last_of_two(index, Kind::Target)),
            (Form::Copy, 2) => Some(Kind::Register),
            (Form::LoadUpper, 2) => Some(last_of_two(index, Kind::Upper)),
            (Form::AddUpper, 2) => Some(last_of_two(index, Kind::UpperNumber)),
            (Form::LoadImmediate, 2) => Some(last_of_two(index, Kind::Constant)),
            (Form::LoadAddress, 2) => Some(last_of_two(index, Kind::Label)),
            _ => self.other_kind_at(count, index),
        }
    }

    fn other_kind_at(self, count: usize, index: usize) -> Option<Kind> {
        match (self, count) {
            (Form::Jump, 1) | (Form::JumpAndLink, 1) => Some(Kind::Target),
            (Form::JumpAndLink, 2) => Some(last_of_two(index, Kind::Target)),
            (Form::JumpAndLinkRegister, 1) | (Form::JumpRegister, 1) => Some(Kind::Register),
            (Form::JumpAndLinkRegister, 2) => Some(last_of_two(index, Kind::Access)),
            (Form::JumpAndLinkRegister, 3) => Some(last_of_three(index, Kind::Immediate)),
            (Form::Label, 1) => Some(Kind::Label),
            (Form::Fence, 2) => Some(Kind::Set),
            (Form::Space, 1) => Some(Kind::Size),
            (Form::Align, 1) => Some(Kind::Power),
            _ => self.item_kind(count),
        }
    }

    fn item_kind(self, count: usize) -> Option<Kind> {
        if count == 0 {
            return None;
        }
        match self {
            Form::Words => Some(Kind::Word),
            Form::Halves => Some(Kind::Half),
            Form::Bytes => Some(Kind::Byte),
            _ => None,
        }
    }
}

fn last_of_two(index: usize, last: Kind) -> Kind {
    if index == 1 { last } else { Kind::Register }
}

fn last_of_three(index: usize, last: Kind) -> Kind {
    if index == 2 { last } else { Kind::Register }
}

/// What a mnemonic or directive takes. `None`: there is none of this name.
pub(crate) fn form_of(name: &str) -> Option<Form> {
    for form in FORMS.iter() {
        if has(form.names(), name) {
            return Some(*form);
        }
    }
    None
}

/// Whether a name is one of these.
pub(crate) fn has(names: &[&str], name: &str) -> bool {
    for known in names {
        if *known == name {
            return true;
        }
    }
    false
}
