//! The numbers by which an editor refers to frames and scopes.

ghost use Rattle.std.specs.Prelude.{◌≡◌, ◌+◌, ◌<◌, ◌≤◌, ◌↔◌, ◌||◌, if◌then◌else◌, true, IfOk, OnOk, OnErr, Err, Some, [], length, map};
ghost use Rattle.std.specs.Prelude.{All, ◌^◌};
ghost use Rattle.variables.specs.References.{Past, ended, found, next_number, nothing_issued, number_of};
ghost use Rattle.variables.specs.Numbers.{Issues, StandsFor, at_next_stop, found_from, found_in, has, has_room, next_of, number_from, number_in, numbers_by, with_all, with_targets};
ghost use Rattle.variables.specs.declared.error.IssueError.TheVariants.{Exhausted};

use crate::error::{FindError, IssueError};
use crate::target::Target;
use std::alloc::{AllocError, Global};
use std::marker::Model;

/// The numbers by which an editor refers to frames and scopes (Debug Adapter Protocol, "Lifetime of Objects References"). They rise from
/// 1, and none is issued twice. Within one stop a target has one number, and the stop's end makes its numbers stale. A contract sees the
/// first number of this stop, the targets that have numbers in it, and the last number that may be issued.
#[derive(Drop)]
pub struct Handles {
    alloc: Global,
    /// The first number of this stop.
    first: u32,
    /// The targets that have numbers in this stop, in the order of these.
    targets: Vec<Target>,
    /// The last number that may be issued.
    last: u32,
}

impl Model for Handles {
    ghost use Rattle.std.specs.Prelude.{◌+◌, ◌≤◌, length};
    ghost use Rattle.variables.specs.Numbers.{Numbers};

    ghost Value = { Numbers };

    ghost view = { λ h. record { first = h.first; targets = h.targets.items; last = h.last } };

    ghost invariant = { λ h. (1 ≤ h.first) × (h.first + length h.targets.items ≤ h.last + 1)
        × (h.last ≤ 2147483647) };
}

impl Handles {
    /// Numbers from 1 to `last_ref`, none of them issued; `last_ref` is at most 2,147,483,647. It takes no memory.
    pub fn new(alloc: Global, last_ref: u32) -> Handles
        requires { last_ref ≤ 2147483647 }
        ensures kept { result ≡ record { first = 1; targets = []; last = last_ref } }
        ensures past { StandsFor result nothing_issued }
    {
        Handles {
            alloc,
            first: 1,
            targets: Vec::new(alloc),
            last: last_ref,
        }
    }

    /// The numbers of these targets in this stop, in their order. One that has no number gets the next. `Exhausted`: numbers would pass
    /// the last one; else `NoMemory`: no memory was left. Either way nothing is issued.
    pub fn issue(&mut self, targets: &[Target]) -> Result<Vec<u32>, IssueError>
        ensures kept { OnOk result (self.new ≡ with_targets self.old targets.now) }
        ensures numbers { IfOk result
            (λ numbers. map Some numbers.items
            ≡ map (number_in (with_targets self.old targets.now)) targets.now) }
        ensures exhausted { (result ≡ Err Exhausted)
            ↔ (self.old.last + 1 < next_of (with_targets self.old targets.now)) }
        ensures err { OnErr result (self.new ≡ self.old) }
        ensures past { (past : Past) → StandsFor self.old past
            → Issues past targets.now self.old.last (numbers_by result) self.new }
    {
        let left = self.last + 1 - self.next();
        if count_new(&self.targets, targets) > left as usize {
            return Err(IssueError::Exhausted);
        }
        let all = with_all(self.alloc, &self.targets, targets)?;
        let numbers = numbers_from(self.alloc, self.first, &all, targets)?;
        self.targets = all;
        Ok(numbers)
    }

    /// Whether numbers are left for all of these targets, each counted once; where they are not, `issue` answers `Exhausted`. It takes no
    /// memory.
    pub fn has_room(&self, targets: &[Target]) -> bool
        ensures { result ≡ has_room self.now targets.now }
    {
        let left = self.last + 1 - self.next();
        count_new(&self.targets, targets) <= left as usize
    }

    /// The numbers that these targets have once they are issued, in their order; nothing is issued. There are fewer than 2^31 targets.
    /// `Err`: no memory was left.
    pub fn to_come(&self, targets: &[Target]) -> Result<Vec<u32>, AllocError>
        requires { length targets.now < 2 ^ 31 }
        ensures { IfOk result (λ numbers. map Some numbers.items
            ≡ map (number_in (with_targets self.now targets.now)) targets.now) }
    {
        let all = with_all(self.alloc, &self.targets, targets)?;
        numbers_from(self.alloc, self.first, &all, targets)
    }

    /// What a number refers to. `Unknown`: it was never issued; `Stale`: it was issued before the last `end_stop`.
    pub fn find(&self, number: u32) -> Result<Target, FindError>
        ensures kept { result ≡ found_in self.now number }
        ensures past { (past : Past) → StandsFor self.now past → result ≡ found past number }
    {
        found_from(self.first, &self.targets, number)
    }

    /// The number of a target in this stop; `None`: it has none.
    pub fn number(&self, target: Target) -> Option<u32>
        ensures kept { result ≡ number_in self.now target }
        ensures past { (past : Past) → StandsFor self.now past → result ≡ number_of past target }
    {
        number_from(self.first, &self.targets, target)
    }

    /// The number that the next new target would get, from 1 to one more than the last.
    pub fn next(&self) -> u32
        ensures kept { result ≡ next_of self.now }
        ensures past { (past : Past) → StandsFor self.now past → result ≡ next_number past }
        ensures within { result ≤ self.now.last + 1 }
    {
        self.first + self.targets.len() as u32
    }

    /// The stop ends: its numbers are stale from now on. It takes no memory.
    pub fn end_stop(&mut self)
        ensures kept { self.new ≡ at_next_stop self.old }
        ensures past { (past : Past) → StandsFor self.old past → StandsFor self.new (ended past) }
    {
        self.first = self.next();
        self.targets.clear();
    }
}

// Whether a target is in a list.
fn has(targets: &[Target], target: Target) -> bool
    ensures { result ≡ has target targets.now }
{
    targets.contains(&target)
}

// The number of a target among those that have numbers from this one on.
fn number_from(first: u32, targets: &[Target], target: Target) -> Option<u32>
    requires { first + length targets.now < 2 ^ 32 }
    ensures { result ≡ number_from first target targets.now }
{
    let mut number = first;
    for known in targets {
        if *known == target {
            return Some(number);
        }
        number += 1;
    }
    None
}

// What a number refers to, where these targets have numbers from this one on.
fn found_from(first: u32, targets: &[Target], number: u32) -> Result<Target, FindError>
    ensures { result ≡ found_from first targets.now number }
{
    if number == 0 {
        return Err(FindError::Unknown);
    }
    if number < first {
        return Err(FindError::Stale);
    }
    match targets.get((number - first) as usize).copied() {
        Some(target) => Ok(target),
        None => Err(FindError::Unknown),
    }
}

// How many targets come to those that are known, each counted once.
fn count_new(known: &[Target], targets: &[Target]) -> usize
    ensures { length known.now + result ≡ length (with_all known.now targets.now) }
{
    let mut count = 0;
    for i in 0..targets.len() {
        count += count_one(known, &targets[..i], targets[i]);
    }
    count
}

// 1 for a target that is in neither list, else 0.
fn count_one(known: &[Target], before: &[Target], target: Target) -> usize
    ensures count { result ≡ (if has target known.now || has target before.now then 0 else 1) }
    ensures small { result ≤ 1 }
{
    if has(known, target) || has(before, target) {
        0
    } else {
        1
    }
}

// The known targets and after them those that come to them.
fn with_all(alloc: Global, known: &[Target], targets: &[Target]) -> Result<Vec<Target>, AllocError>
    ensures { IfOk result (λ all. all.items ≡ with_all known.now targets.now) }
{
    let mut all = Vec::from_slice(alloc, known)?;
    for target in targets {
        if !has(&all, *target) {
            all.push(*target)?;
        }
    }
    Ok(all)
}

// The numbers of targets among those that have numbers from this one on.
fn numbers_from(
    alloc: Global,
    first: u32,
    known: &[Target],
    targets: &[Target],
) -> Result<Vec<u32>, AllocError>
    requires fits { first + length known.now < 2 ^ 32 }
    requires known { All (λ target. has target known.now ≡ true) targets.now }
    ensures { IfOk result (λ numbers. map Some numbers.items
        ≡ map (λ target. number_from first target known.now) targets.now) }
{
    let mut numbers = Vec::with_capacity(alloc, targets.len())?;
    for target in targets {
        match number_from(first, known, *target) {
            Some(number) => numbers.push(number)?,
            None => unreachable!(),
        }
    }
    Ok(numbers)
}
