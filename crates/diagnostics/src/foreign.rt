//! Mnemonics and directives that other assemblers have, and what to write in their place.

use crate::forms::has;
use crate::literals::{negated, string_bytes_of};
use crate::operands::{operand_at, operand_text};
use std::alloc::{AllocError, Global};

// Directives that say nothing to this assembler.
const NEEDLESS: [&str; 11] = [
    ".type",
    ".size",
    ".file",
    ".option",
    ".attribute",
    ".ident",
    ".local",
    ".weak",
    ".extern",
    ".loc",
    ".end",
];

// Directives of macros.
const OF_MACROS: [&str; 10] = [
    ".macro",
    ".endm",
    ".end_macro",
    ".include",
    ".irp",
    ".rept",
    ".endr",
    ".if",
    ".else",
    ".endif",
];

// What RV32I lacks: multiplication, floating-point numbers, and counters by their names.
const OF_AN_EXTENSION: [&str; 17] = [
    "mul",
    "mulh",
    "mulhu",
    "mulhsu",
    "div",
    "divu",
    "rem",
    "remu",
    "flw",
    "fsw",
    "fld",
    "fsd",
    "rdcycle",
    "rdtime",
    "rdinstret",
    ".float",
    ".double",
];

// What RV64I has.
const OF_64_BITS: [&str; 16] = [
    "ld", "sd", "lwu", "addiw", "addw", "subw", "mulw", "sllw", "srlw", "sraw", "slliw", "srliw",
    "sraiw", ".dword", ".quad", ".8byte",
];

/// What is told of a mnemonic or directive that others have. `Ok(None)`: nothing is known of it. `Err`: no memory was left.
pub(crate) fn foreign_words(
    alloc: Global,
    name: &str,
    operands: &[u8],
) -> Result<Option<String>, AllocError> {
    if let Some(instead) = directive_instead(name).or_else(|| mnemonic_instead(name)) {
        return Ok(Some(format!(in alloc; "{name}: {instead}")?));
    }
    match name {
        ".ascii" => Ok(Some(string_words(alloc, name, operands, false)?)),
        ".asciz" | ".asciiz" | ".string" => Ok(Some(string_words(alloc, name, operands, true)?)),
        ".section" => Ok(Some(section_words(alloc, operands)?)),
        ".balign" => Ok(Some(balign_words(alloc, operands)?)),
        "subi" => Ok(Some(subtraction_words(alloc, operands)?)),
        _ => told_by_kind(alloc, name),
    }
}

fn told_by_kind(alloc: Global, name: &str) -> Result<Option<String>, AllocError> {
    if is_needless(name) {
        return Ok(Some(format!(in alloc; "{name}: it means nothing here; leave it out")?));
    }
    if is_naming(name) {
        return Ok(Some(format!(in alloc; "{name}: numbers have no names here; write the number")?));
    }
    if has(&OF_MACROS, name) {
        return Ok(Some(format!(in alloc;
            "{name}: there are no macros here; write out its lines"
        )?));
    }
    if is_of_an_extension(name) || has(&OF_64_BITS, name) || is_privileged(name) {
        return Ok(Some(format!(in alloc; "RV32I has no {name}")?));
    }
    Ok(None)
}

fn directive_instead(name: &str) -> Option<&'static str> {
    match name {
        ".zero" | ".skip" => Some(".space"),
        ".long" | ".int" | ".4byte" => Some(".word"),
        ".short" | ".hword" | ".2byte" => Some(".half"),
        ".bss" | ".rodata" | ".sdata" | ".sbss" => Some(".data"),
        ".p2align" => Some(".align"),
        _ => None,
    }
}

fn mnemonic_instead(name: &str) -> Option<&'static str> {
    match name {
        "move" | "mov" => Some("mv"),
        "b" | "jmp" | "tail" => Some("j"),
        "syscall" => Some("ecall"),
        "lla" => Some("la"),
        "addiu" => Some("addi"),
        "addu" => Some("add"),
        "subu" => Some("sub"),
        "bal" => Some("jal"),
        "sgt" => Some("slt with its last two registers exchanged"),
        "sgtu" => Some("sltu with its last two registers exchanged"),
        _ => None,
    }
}

fn is_needless(name: &str) -> bool {
    has(&NEEDLESS, name) || name.starts_with(".cfi_")
}

fn is_naming(name: &str) -> bool {
    matches!(name, ".equ" | ".eqv" | ".set" | ".equiv")
}

fn is_of_an_extension(name: &str) -> bool {
    has(&OF_AN_EXTENSION, name) || has_prefix_of_an_extension(name)
}

fn has_prefix_of_an_extension(name: &str) -> bool {
    let point = name.as_bytes().iter().any(|b| *b == b'.');
    name.starts_with("csr")
        || point
            && (name.starts_with("f")
                || name.starts_with("c.")
                || name.starts_with("amo")
                || name.starts_with("lr.")
                || name.starts_with("sc."))
}

fn is_privileged(name: &str) -> bool {
    matches!(name, "wfi" | "mret" | "sret" | "uret" | "sfence.vma")
}

// The bytes of a string, for as long as it takes one line to write them.
fn string_words(
    alloc: Global,
    name: &str,
    operands: &[u8],
    ends_with_0: bool,
) -> Result<String, AllocError> {
    match string_bytes_of(alloc, operands, ends_with_0)? {
        Some(bytes) => format!(in alloc; "{name}: there are no strings here; write .byte {bytes}"),
        None => format!(in alloc; "{name}: there are no strings here; write the bytes with .byte"),
    }
}

fn section_words(alloc: Global, operands: &[u8]) -> Result<String, AllocError> {
    if operand_text(operands).starts_with(".text") {
        String::from_str(alloc, ".section: .text")
    } else {
        String::from_str(alloc, ".section: .data")
    }
}

fn balign_words(alloc: Global, operands: &[u8]) -> Result<String, AllocError> {
    let power = match operand_text(operands) {
        "1" => "0",
        "2" => "1",
        "4" => "2",
        "8" => "3",
        "16" => "4",
        _ => return String::from_str(
            alloc,
            ".balign: .align with the power of 2, as .align 2 for 4",
        ),
    };
    format!(in alloc; ".balign: .align {power}")
}

fn subtraction_words(alloc: Global, operands: &[u8]) -> Result<String, AllocError> {
    if let Some(part) = operand_at(operands, 2) {
        if let Some(number) = negated(alloc, operand_text(part))? {
            return format!(in alloc; "subi: addi with {number}");
        }
    }
    String::from_str(alloc, "subi: addi with the number below 0")
}
