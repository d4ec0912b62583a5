//! The last instructions of a run, told.

ghost use Rattle.std.specs.Prelude.{◌≡◌, ◌+◌, ◌++◌, ◌^◌, ◌≤◌, IfOk, OnOk, length, min, string_bytes};
ghost use Rattle.rv32i.specs.Texts.{address_text};
ghost use Rattle.execution.specs.Traces as spec;

use crate::fault_words::address_text;
use crate::registers::value_text;
use crate::uses::{Use, Verb, use_of};
use rv32i::{Hart, Instr, Reg, decode, destination, push_digits, reg_name, text_of_word};
use std::alloc::{AllocError, Global};
use stepping::{Goal, Runner};

/// The last instructions that retired, at most `count` and at most 65,536, the oldest first: for each a line with its address and text, the
/// address that it read or wrote, and the register that it loaded, computed or stored. The machine goes back for that, and forward again.
/// At most 2^61 instructions have retired. `Err`: no memory was left.
pub fn trace_text(alloc: Global, runner: &mut Runner, count: u32) -> Result<String, AllocError>
    requires { runner.old.retired ≤ 2 ^ 61 }
    ensures { IfOk result (λ told. spec.IsTrace count runner.old (string_bytes told)) }
{
    let steps = steps_of(runner, count);
    go_back(runner, steps)?;
    runner.begin(Goal::Go, false);
    steps_text(alloc, runner, steps)
}

// How many instructions are told.
fn steps_of(runner: &Runner, count: u32) -> u32
    ensures { result ≡ min (length runner.now.past) count }
{
    runner.recorded().min(count as usize) as u32
}

// Undoes this many moves.
fn go_back(runner: &mut Runner, steps: u32) -> Result<(), AllocError>
    ensures back { OnOk result (spec.WentBack steps runner.old runner.new) }
    ensures retired { OnOk result (runner.new.retired ≤ runner.old.retired) }
{
    let mut made = 0;
    while made < steps {
        runner.begin(Goal::Back, false);
        runner.tick()?;
        made += 1;
    }
    Ok(())
}

// Makes this many moves, and tells each.
fn steps_text(alloc: Global, runner: &mut Runner, steps: u32) -> Result<String, AllocError>
    requires { runner.old.retired ≤ 2 ^ 61 }
    ensures { IfOk result (λ told. spec.Traced steps runner.old (string_bytes told) runner.new) }
{
    let mut told = String::new(alloc);
    let mut made = 0;
    while made < steps {
        push_step(alloc, runner, &mut told)?;
        made += 1;
    }
    Ok(told)
}

// Makes a move, and tells it after others.
fn push_step(alloc: Global, runner: &mut Runner, told: &mut String) -> Result<(), AllocError>
    requires { runner.old.retired + 1 ≤ 2 ^ 62 }
    ensures step { OnOk result (spec.Adds runner.old
        (string_bytes told.old) (string_bytes told.new) runner.new) }
    ensures retired { runner.new.retired ≤ runner.old.retired + 1 }
{
    let before = *runner.hart();
    let word = word_here(runner);
    runner.tick()?;
    push_line(alloc, told, word, &before, runner.hart())
}

// The word at pc, or 0 where there is none.
fn word_here(runner: &Runner) -> u32
    ensures { result ≡ spec.word_here runner.now }
{
    match runner.memory().word(runner.hart().pc) {
        Ok(word) => word,
        Err(_) => 0,
    }
}

// The line of a word, by the hart before and after it.
fn push_line(
    alloc: Global,
    told: &mut String,
    word: u32,
    before: &Hart,
    after: &Hart,
) -> Result<(), AllocError>
    ensures { OnOk result (spec.AddsLine word before.now after.now
        (string_bytes told.old) (string_bytes told.new)) }
{
    let text = text_of_word(alloc, word, before.pc)?;
    push_words(alloc, told, text.as_str(), decode(word), before, after)
}

// The same, where the word has this text and is this instruction.
fn push_words(
    alloc: Global,
    told: &mut String,
    text: &str,
    instr: Option<Instr>,
    before: &Hart,
    after: &Hart,
) -> Result<(), AllocError>
    ensures { OnOk result (string_bytes told.new
        ≡ string_bytes told.old ++ spec.line text.now instr before.now after.now) }
{
    let place = place(alloc, before.pc, text)?;
    told.push_str(place.as_str())?;
    push_changes(alloc, told, instr, before, after)?;
    told.push('\n')
}

// An instruction at its address.
#[tactic(auto, unfolding(crate::specs::Traces::place))]
fn place(alloc: Global, pc: u32, text: &str) -> Result<String, AllocError>
    ensures { IfOk result (λ told. string_bytes told ≡ spec.place pc text.now) }
{
    let address = address_text(alloc, pc)?;
    format!(in alloc; "{address} {text}")
}

// What an instruction did, if there is one.
#[tactic(auto, unfolding(crate::specs::Traces::changes))]
fn push_changes(
    alloc: Global,
    told: &mut String,
    instr: Option<Instr>,
    before: &Hart,
    after: &Hart,
) -> Result<(), AllocError>
    ensures { OnOk result (string_bytes told.new
        ≡ string_bytes told.old ++ spec.changes instr before.now after.now) }
{
    match instr {
        None => Ok(()),
        Some(instr) => push_change(alloc, told, &instr, before, after),
    }
}

fn push_change(
    alloc: Global,
    told: &mut String,
    instr: &Instr,
    before: &Hart,
    after: &Hart,
) -> Result<(), AllocError>
    ensures { OnOk result (string_bytes told.new
        ≡ string_bytes told.old ++ spec.change instr.now before.now after.now) }
{
    push_address(told, use_of(*instr, before))?;
    push_shown(alloc, told, shown_register(instr), after)
}

// The address that it read or wrote, if it did.
fn push_address(told: &mut String, used: Option<Use>) -> Result<(), AllocError>
    ensures { OnOk result (string_bytes told.new
        ≡ string_bytes told.old ++ spec.address_part used) }
{
    match used {
        None => Ok(()),
        Some(used) => push_use(told, used.verb, used.address),
    }
}

fn push_use(told: &mut String, verb: Verb, address: u32) -> Result<(), AllocError>
    ensures { OnOk result (string_bytes told.new
        ≡ string_bytes told.old ++ spec.address_by verb address) }
{
    match verb {
        Verb::GoesTo => Ok(()),
        Verb::Reads => push_used(told, " reads ", address),
        Verb::Writes => push_used(told, " writes ", address),
    }
}

fn push_used(told: &mut String, verb: &str, address: u32) -> Result<(), AllocError>
    ensures { OnOk result (string_bytes told.new
        ≡ string_bytes told.old ++ verb.now ++ address_text address) }
{
    told.push_str(verb)?;
    told.push_str("0x")?;
    push_digits(told, address)
}

// A register and its value, unless it is x0.
fn push_shown(alloc: Global, told: &mut String, reg: Reg, hart: &Hart) -> Result<(), AllocError>
    ensures { OnOk result (string_bytes told.new
        ≡ string_bytes told.old ++ spec.register_part reg hart.now) }
{
    let number = reg.number();
    if number == 0 {
        return Ok(());
    }
    let value = value_text(alloc, hart.x[number])?;
    told.push_str("; ")?;
    told.push_str(reg_name(number as u32))?;
    told.push_str(" =")?;
    told.push_str(value.as_str())
}

// The register that an instruction loads, computes or stores; x0 where there is none.
fn shown_register(instr: &Instr) -> Reg
    ensures { result ≡ spec.shown_register instr.now }
{
    match *instr {
        Instr::Sb { rs2, .. } | Instr::Sh { rs2, .. } | Instr::Sw { rs2, .. } => rs2,
        _ => destination(instr),
    }
}
