//! Loads and stores (RISC-V Unprivileged ISA 20191213, section 2.6).

ghost use Rattle.std.specs.Prelude.{◌≡◌, ◌<◌, ◌%◌, ◌∷◌, [], IfOk};
ghost use Rattle.image.specs.Memory.{halfword_bytes, word_bytes};
ghost use Rattle.rv32i.specs.Machine.{byte_extended, halfword_extended};
ghost use Rattle.rv32i.specs.Steps as steps;
ghost use Rattle.rv32i.specs.Steps.{extended, loaded, Stores};

use crate::performing::Halt;
use crate::stepped::Cause;
use image::{MemFault, Memory};

/// The byte at an address.
#[inline]
#[tactic(auto, using(crate::proofs::Bytes::byte_loads, crate::proofs::Bytes::no_byte_loads))]
pub(crate) fn load_byte(memory: &Memory, address: u32) -> Result<u32, Halt>
    ensures value { result ≡ loaded 1 memory.now address }
    ensures within { IfOk result (λ byte. byte < 256) }
{
    match memory.byte(address) {
        Some(byte) => Ok(u32::from(byte)),
        None => Err(Halt::Stopped(Cause::LoadOutside)),
    }
}

/// The halfword at an address.
#[inline]
pub(crate) fn load_half(memory: &Memory, address: u32) -> Result<u32, Halt>
    ensures value { result ≡ loaded 2 memory.now address }
    ensures within { IfOk result (λ halfword. halfword < 65536) }
{
    match memory.half(address) {
        Ok(halfword) => Ok(u32::from(halfword)),
        Err(fault) => Err(load_halt(fault)),
    }
}

/// The word at an address.
#[inline]
pub(crate) fn load_word(memory: &Memory, address: u32) -> Result<u32, Halt>
    ensures { result ≡ loaded 4 memory.now address }
{
    match memory.word(address) {
        Ok(word) => Ok(word),
        Err(fault) => Err(load_halt(fault)),
    }
}

/// The byte at an address, sign-extended.
#[inline]
pub(crate) fn load_i8(memory: &Memory, address: u32) -> Result<u32, Halt>
    ensures { result ≡ extended byte_extended (loaded 1 memory.now address) }
{
    sign_byte(load_byte(memory, address))
}

/// The halfword at an address, sign-extended.
#[inline]
pub(crate) fn load_i16(memory: &Memory, address: u32) -> Result<u32, Halt>
    ensures { result ≡ extended halfword_extended (loaded 2 memory.now address) }
{
    sign_half(load_half(memory, address))
}

// A byte that was loaded, sign-extended.
#[inline]
fn sign_byte(loaded: Result<u32, Halt>) -> Result<u32, Halt>
    requires { IfOk loaded (λ byte. byte < 256) }
    ensures { result ≡ extended byte_extended loaded }
{
    match loaded {
        Ok(byte) if byte < 0x80 => Ok(byte),
        Ok(byte) => Ok(byte + 0xffff_ff00),
        Err(halt) => Err(halt),
    }
}

// A halfword that was loaded, sign-extended.
#[inline]
fn sign_half(loaded: Result<u32, Halt>) -> Result<u32, Halt>
    requires { IfOk loaded (λ halfword. halfword < 65536) }
    ensures { result ≡ extended halfword_extended loaded }
{
    match loaded {
        Ok(halfword) if halfword < 0x8000 => Ok(halfword),
        Ok(halfword) => Ok(halfword + 0xffff_0000),
        Err(halt) => Err(halt),
    }
}

/// Stores the low byte of a value, and answers the next pc.
#[inline]
pub(crate) fn store_byte(
    memory: &mut Memory,
    address: u32,
    value: u32,
    next: u32,
) -> Result<u32, Halt>
    ensures { Stores 1 (value % 256 ∷ []) address next memory.old result memory.new }
{
    match memory.write_byte(address, (value & 0xff) as u8) {
        Ok(()) => Ok(next),
        Err(fault) => Err(store_halt(fault)),
    }
}

/// Stores the low halfword of a value, and answers the next pc.
#[inline]
pub(crate) fn store_half(
    memory: &mut Memory,
    address: u32,
    value: u32,
    next: u32,
) -> Result<u32, Halt>
    ensures { Stores 2 (halfword_bytes value) address next memory.old result memory.new }
{
    match memory.write_half(address, (value & 0xffff) as u16) {
        Ok(()) => Ok(next),
        Err(fault) => Err(store_halt(fault)),
    }
}

/// Stores a word, and answers the next pc.
#[inline]
pub(crate) fn store_word(
    memory: &mut Memory,
    address: u32,
    value: u32,
    next: u32,
) -> Result<u32, Halt>
    ensures { Stores 4 (word_bytes value) address next memory.old result memory.new }
{
    match memory.write_word(address, value) {
        Ok(()) => Ok(next),
        Err(fault) => Err(store_halt(fault)),
    }
}

// What a fault of a load comes to, which takes no memory.
fn load_halt(fault: MemFault) -> Halt
    ensures { result ≡ steps.load_halt fault }
{
    match fault {
        MemFault::Misaligned => Halt::Stopped(Cause::LoadMisaligned),
        MemFault::Outside | MemFault::NoMemory => Halt::Stopped(Cause::LoadOutside),
    }
}

// What a fault of a store comes to.
fn store_halt(fault: MemFault) -> Halt
    ensures { result ≡ steps.store_halt fault }
{
    match fault {
        MemFault::Misaligned => Halt::Stopped(Cause::StoreMisaligned),
        MemFault::Outside => Halt::Stopped(Cause::StoreOutside),
        MemFault::NoMemory => Halt::NoMemory,
    }
}
