//! Directives of other assemblers.

/// What a directive of another assembler is here.
#[derive(Clone, Copy, PartialEq, Eq)]
pub(crate) enum Directive {
    /// It means nothing here.
    Nothing,
    /// Bytes of texts, each with a zero byte after it or not.
    Text(Ending),
    /// Data, by this directive.
    Data(&'static str),
    /// A number of zero bytes.
    Space,
    /// Up to a multiple of this power of 2.
    Align,
    /// Up to a multiple of this number.
    AlignTo,
    /// A name for a number.
    Constant,
    /// A part that another directive ends, and that can't be said here.
    Part,
}

/// What comes after the bytes of a text.
#[derive(Clone, Copy, PartialEq, Eq)]
pub(crate) enum Ending {
    /// Nothing.
    None,
    /// A zero byte.
    Zero,
}

/// Directives that mean nothing here: sections, since all lies in the order of the text, and what is for linkers and debuggers.
const WITHOUT_MEANING: [&str; 36] = [
    ".addrsig",
    ".addrsig_sym",
    ".arch",
    ".attribute",
    ".bss",
    ".data",
    ".end",
    ".ent",
    ".extern",
    ".file",
    ".frame",
    ".global",
    ".globl",
    ".hidden",
    ".ident",
    ".internal",
    ".kdata",
    ".ktext",
    ".loc",
    ".local",
    ".mask",
    ".option",
    ".p2alignl",
    ".popsection",
    ".previous",
    ".protected",
    ".pushsection",
    ".rdata",
    ".rodata",
    ".sbss",
    ".sdata",
    ".section",
    ".size",
    ".text",
    ".type",
    ".weak",
];

/// What a directive is here. `None`: it is none that is known.
pub(crate) fn directive_of(name: &str) -> Option<Directive> {
    match name {
        ".ascii" => Some(Directive::Text(Ending::None)),
        ".asciz" | ".asciiz" | ".string" => Some(Directive::Text(Ending::Zero)),
        ".zero" | ".skip" | ".space" => Some(Directive::Space),
        ".align" | ".p2align" => Some(Directive::Align),
        ".balign" => Some(Directive::AlignTo),
        ".equ" | ".eqv" | ".set" | ".equiv" => Some(Directive::Constant),
        ".macro" | ".rept" | ".irp" | ".irpc" => Some(Directive::Part),
        _ => data_or_nothing(name),
    }
}

fn data_or_nothing(name: &str) -> Option<Directive> {
    match name {
        ".byte" | ".1byte" => Some(Directive::Data(".byte")),
        ".half" | ".short" | ".hword" | ".2byte" => Some(Directive::Data(".half")),
        ".word" | ".long" | ".int" | ".4byte" => Some(Directive::Data(".word")),
        _ => {
            if name.starts_with(".cfi_") || WITHOUT_MEANING.iter().any(|known| *known == name) {
                Some(Directive::Nothing)
            } else {
                None
            }
        }
    }
}

/// Whether a directive begins a section, which other assemblers have at a multiple of 4.
pub(crate) fn is_section(name: &[u8]) -> bool {
    matches!(
        name,
        b".text"
            | b".data"
            | b".bss"
            | b".rodata"
            | b".sdata"
            | b".sbss"
            | b".rdata"
            | b".section"
            | b".ktext"
            | b".kdata"
    )
}

/// Whether a directive ends a part that another one begins.
pub(crate) fn ends_part(name: &[u8]) -> bool {
    matches!(name, b".endm" | b".end_macro" | b".endr")
}
