//! The places of words that are remembered decoded.

ghost use Rattle.std.specs.Prelude.{◌≡◌, ℕ, ◌+◌, ◌*◌, ◌/◌, ◌≤◌, List, vec_capacity};
ghost use Rattle.course.specs.Private.Words.{AreKnown, Fetches, Makes, Readies, Remembers, forgotten, place_of};
ghost use Rattle.course.specs.Private.Words as spec;

use crate::entry::{Entry, entry_of};
use image::{MemFault, Memory};
use rv32i::{Cause, Instr, decode};

/// How many words are remembered at most: those of 16 pages.
pub(crate) const PLACES: usize = 16_384;

// The place of an address.
#[inline(always)]
fn place_of(at: usize) -> usize
    ensures { result ≡ place_of at }
{
    at / 4 % PLACES
}

/// Sees to it that the word at an address is remembered. `Err`: no instruction can be fetched there.
#[inline(always)]
pub(crate) fn ready(entries: &mut Vec<Entry>, memory: &Memory, pc: u32) -> Result<(), Cause>
    requires { 16384 ≤ vec_capacity entries.old }
    ensures ready { Readies memory.now pc entries.old.items result entries.new.items }
    ensures room { vec_capacity entries.new ≡ vec_capacity entries.old }
{
    let k = place_of(pc as usize);
    if k < entries.len() && entries[k].pc == pc {
        return Ok(());
    }
    learn(entries, memory, pc)
}

// Fetches the word at an address, and remembers it.
#[cold]
#[inline(never)]
fn learn(entries: &mut Vec<Entry>, memory: &Memory, pc: u32) -> Result<(), Cause>
    requires { 16384 ≤ vec_capacity entries.old }
    ensures ready { Readies memory.now pc entries.old.items result entries.new.items }
    ensures room { vec_capacity entries.new ≡ vec_capacity entries.old }
{
    let instr = fetch(memory, pc)?;
    remember(entries, pc, instr);
    Ok(())
}

// The word at an address, decoded.
fn fetch(memory: &Memory, pc: u32) -> Result<Instr, Cause>
    ensures { Fetches memory.now pc result }
{
    let word = match memory.word(pc) {
        Ok(word) => word,
        Err(MemFault::Misaligned) => return Err(Cause::JumpMisaligned),
        Err(MemFault::Outside) => return Err(Cause::FetchOutside),
        Err(MemFault::NoMemory) => unreachable!(),
    };
    match decode(word) {
        Some(instr) => Ok(instr),
        None => Err(Cause::Illegal),
    }
}

// Remembers a word at its place.
fn remember(entries: &mut Vec<Entry>, pc: u32, instr: Instr)
    requires { 16384 ≤ vec_capacity entries.old }
    ensures remembers { Remembers (spec.entry_of pc instr) entries.old.items entries.new.items }
    ensures room { vec_capacity entries.new ≡ vec_capacity entries.old }
{
    let k = place_of(pc as usize);
    make(entries, k + 1);
    entries[k] = entry_of(pc, instr);
}

// Makes places, up to at least `count`. All the room is there.
fn make(entries: &mut Vec<Entry>, count: usize)
    requires room { 16384 ≤ vec_capacity entries.old }
    requires few { count ≤ 16384 }
    ensures makes { Makes count entries.old.items entries.new.items }
    ensures room { vec_capacity entries.new ≡ vec_capacity entries.old }
{
    for k in entries.len()..count {
        // It names an address of the next place, so that nothing is remembered at this one.
        entries.push_reserved(entry_of(4 * k as u32 + 4, Instr::Ecall));
    }
}

/// Forgets the word at an address, if it is remembered.
#[inline(always)]
pub(crate) fn forget(entries: &mut Vec<Entry>, at: usize)
    ensures forgets { entries.new.items ≡ forgotten at entries.old.items }
    ensures room { vec_capacity entries.new ≡ vec_capacity entries.old }
{
    let k = place_of(at);
    if k < entries.len() {
        if entries[k].pc as usize == at {
            entries[k].pc = 4 * k as u32 + 4;
        }
    }
}

/// Forgets the words of `count` bytes from an address on: all words, where these are more than the places.
pub(crate) fn forget_words(entries: &mut Vec<Entry>, addr: u32, count: usize)
    ensures forgets { (memory : List ℕ) → AreKnown memory 0 0 entries.old.items
        → AreKnown memory (addr / 4 * 4) (addr + count) entries.new.items }
    ensures room { vec_capacity entries.new ≡ vec_capacity entries.old }
{
    if count > 4 * PLACES {
        entries.clear();
        return;
    }
    let at = addr as usize;
    for k in 0..(at % 4 + count + 3) / 4 {
        forget(entries, at / 4 * 4 + 4 * k);
    }
}
