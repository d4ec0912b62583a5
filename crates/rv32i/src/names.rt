//! The names of the registers (RISC-V Unprivileged ISA 20191213, chapter 25, "RISC-V Assembly
//! Programmer's Handbook").

ghost use Rattle.std.specs.Prelude.{◌≡◌, ◌<◌, IfSome};
ghost use Rattle.rv32i.specs.Private.Candidates.{candidate, digit, numbered, of_three, of_two};
ghost use Rattle.rv32i.specs.Names.{name_of, number_named, numbered_name_of, NamesOrNot};

/// How many registers there are.
const REGISTERS: u32 = 32;

/// The name of the register of a number from 0 to 31.
pub fn reg_name(number: u32) -> &'static str
    requires { number < 32 }
    ensures { result.now ≡ name_of number }
{
    match number {
        0 => "zero",
        1 => "ra",
        2 => "sp",
        3 => "gp",
        4 => "tp",
        5 => "t0",
        6 => "t1",
        7 => "t2",
        8 => "s0",
        9 => "s1",
        10 => "a0",
        11 => "a1",
        12 => "a2",
        13 => "a3",
        14 => "a4",
        15 => "a5",
        16 => "a6",
        17 => "a7",
        18 => "s2",
        19 => "s3",
        20 => "s4",
        21 => "s5",
        22 => "s6",
        23 => "s7",
        24 => "s8",
        25 => "s9",
        26 => "s10",
        27 => "s11",
        28 => "t3",
        29 => "t4",
        30 => "t5",
        _ => "t6",
    }
}

// The name of a register by its number.
fn numbered_name(number: u32) -> &'static str
    requires { number < 32 }
    ensures { result.now ≡ numbered_name_of number }
{
    match number {
        0 => "x0",
        1 => "x1",
        2 => "x2",
        3 => "x3",
        4 => "x4",
        5 => "x5",
        6 => "x6",
        7 => "x7",
        8 => "x8",
        9 => "x9",
        10 => "x10",
        11 => "x11",
        12 => "x12",
        13 => "x13",
        14 => "x14",
        15 => "x15",
        16 => "x16",
        17 => "x17",
        18 => "x18",
        19 => "x19",
        20 => "x20",
        21 => "x21",
        22 => "x22",
        23 => "x23",
        24 => "x24",
        25 => "x25",
        26 => "x26",
        27 => "x27",
        28 => "x28",
        29 => "x29",
        30 => "x30",
        _ => "x31",
    }
}

/// The number of the register whose name this is in the table: of what `reg_name` answers, and no other name. `None`: it is
/// none of them.
pub fn reg_named(name: &[u8]) -> Option<u32>
    ensures number { result ≡ number_named name.now }
    ensures small { IfSome result (λ number. number < 32) }
{
    for number in 0..REGISTERS {
        if reg_name(number).as_bytes() == name {
            return Some(number);
        }
    }
    None
}

/// The number of the register that a name means: one of the names of `reg_name`, `fp` for `s0`, or `x0`
/// to `x31`. `None`: it names none.
pub fn reg_of(name: &str) -> Option<u32>
    ensures { NamesOrNot name.now result }
{
    reg_in(name.as_bytes())
}

/// The number of the register that bytes name, as `reg_of` has it of a text. `None`: they name none; bytes that are
/// no text never do.
pub fn reg_in(bytes: &[u8]) -> Option<u32>
    ensures { NamesOrNot bytes.now result }
{
    if bytes == b"fp".as_slice() {
        return Some(8);
    }
    let number = candidate(bytes) % REGISTERS;
    if bytes == reg_name(number).as_bytes() || bytes == numbered_name(number).as_bytes() {
        return Some(number);
    }
    None
}

// The one register that a text can name.
fn candidate(text: &[u8]) -> u32
    ensures { result ≡ candidate text.now }
{
    match text {
        [kind, byte] => of_two(*kind, *byte),
        [kind, tens, ones] => of_three(*kind, *tens, *ones),
        _ => 0,
    }
}

fn digit(byte: u8) -> u32
    ensures value { result ≡ digit byte }
    ensures small { result < 10 }
{
    u32::from(byte.wrapping_sub(b'0') % 10)
}

fn of_two(kind: u8, byte: u8) -> u32
    ensures { result ≡ of_two kind byte }
{
    match kind {
        b'x' => digit(byte),
        b'a' => 10 + digit(byte),
        b's' if byte == b'p' => 2,
        b's' => numbered(2, 8, 16, byte),
        b't' if byte == b'p' => 4,
        b't' => numbered(3, 5, 25, byte),
        b'g' => 3,
        _ => 1,
    }
}

// The registers of a kind have two runs of numbers: the first few, and the others.
fn numbered(few: u32, low: u32, high: u32, byte: u8) -> u32
    requires low { low < 32 }
    requires high { high < 32 }
    ensures { result ≡ numbered few low high byte }
{
    let digit = digit(byte);
    if digit < few {
        low + digit
    } else {
        high + digit
    }
}

fn of_three(kind: u8, tens: u8, ones: u8) -> u32
    ensures { result ≡ of_three kind tens ones }
{
    if kind == b's' {
        26 + digit(ones)
    } else {
        digit(tens) * 10 + digit(ones)
    }
}
