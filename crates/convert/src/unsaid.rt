//! What can't be said here, and what to do instead.

const MULTIPLIES: &str = "RV32I has no multiplication: add in a loop, or shift by a power of 2";

const DIVIDES: &str = "RV32I has no division: subtract in a loop, or shift by a power of 2";

const CONTROLS: &str =
    "there are no control and status registers here: leave the line out, or count in a register";

const FLOATS: &str = "there are no floating-point numbers here: scale them to whole numbers";

const PRIVILEGED: &str = "there are no privileged modes and interrupts here: leave the line out";

const ATOMIC: &str =
    "there are no atomic instructions here: with one hart a load and a store do the same";

const LONG: &str = "registers have 32 bits here: use two words, or the instruction of RV32I";

const INCLUDES: &str = "one file is read: put the other's lines in its place";

const CHOOSES: &str =
    "no lines are chosen here: keep those that are meant, and leave the others out";

const RESERVES: &str = "write a label, and .space with the number of bytes";

const FILLS: &str = ".space has zero bytes alone: write the values as .byte, .half or .word";

/// What can't be said here: a mnemonic or a directive, and why.
const UNSAID: [(&str, &str); 40] = [
    (".comm", RESERVES),
    (".double", FLOATS),
    (".dword", LONG),
    (".else", CHOOSES),
    (".endif", CHOOSES),
    (".fill", FILLS),
    (".float", FLOATS),
    (".if", CHOOSES),
    (".ifdef", CHOOSES),
    (".ifndef", CHOOSES),
    (".incbin", INCLUDES),
    (".include", INCLUDES),
    (".lcomm", RESERVES),
    (".octa", LONG),
    (".quad", LONG),
    ("addiw", LONG),
    ("addw", LONG),
    ("div", DIVIDES),
    ("divu", DIVIDES),
    (
        "fence.i",
        "words of the program can be written and executed without it here: leave the line out",
    ),
    ("ld", LONG),
    ("lwu", LONG),
    ("mret", PRIVILEGED),
    ("mul", MULTIPLIES),
    ("mulh", MULTIPLIES),
    ("mulhsu", MULTIPLIES),
    ("mulhu", MULTIPLIES),
    ("rdcycle", CONTROLS),
    ("rdcycleh", CONTROLS),
    ("rdinstret", CONTROLS),
    ("rdtime", CONTROLS),
    ("rem", DIVIDES),
    ("remu", DIVIDES),
    ("sd", LONG),
    ("sret", PRIVILEGED),
    ("syscall", "that is of MIPS: write ecall"),
    ("unimp", "write ebreak to stop here"),
    ("uret", PRIVILEGED),
    ("wfi", PRIVILEGED),
    ("wfe", PRIVILEGED),
];

/// Why a statement with this mnemonic or directive can't be said here, and what to do instead. `None`: nothing is known against it.
pub(crate) fn why_unsaid(name: &str) -> Option<&'static str> {
    for (unsaid, why) in &UNSAID {
        if *unsaid == name {
            return Some(*why);
        }
    }
    of_kind(name)
}

// Instructions of large families, by how their names begin.
fn of_kind(name: &str) -> Option<&'static str> {
    if name.starts_with("csr") {
        return Some(CONTROLS);
    }
    if name.starts_with("amo") || name.starts_with("lr.") || name.starts_with("sc.") {
        return Some(ATOMIC);
    }
    let is_float = name.starts_with("f") && name.contains(".");
    if is_float || name == "flw" || name == "fsw" || name == "fld" || name == "fsd" {
        return Some(FLOATS);
    }
    None
}
