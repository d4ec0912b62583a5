//! The three lists of breakpoints.

ghost use Rattle.std.specs.Prelude.{◌≡◌, ◌+◌, ◌<◌, ◌≤◌, ◌^◌, ◌++◌, ◌∷◌, ◌||◌, [], IfOk, OnErr, OnOk, false, length, map, nat_lt, option_map, vec_capacity, vec_len};
ghost use Rattle.std.specs.Bool.{OnFalse};
ghost use Rattle.std.specs.List.{list_any};
ghost use Rattle.breakpoints.specs.Places.{is_among, Covers};
ghost use Rattle.breakpoints.specs.Stops.{CanBeSet, checked, counted, fresh, hit_in, ids_where, log_at, logging_from, looked, reset, standing_in, stands, stopping_ids, stops, wanted_by};

use crate::breakpoint::{BreakSpec, Breakpoint, Hit};
use crate::places::Places;
use image::Memory;
use rv32i::Hart;
use std::alloc::{AllocError, Global};
use std::marker::Model;

/// The breakpoints of source lines, of instructions and of functions, which of them stopped at the last check or were found by `stand_at`,
/// and which logpoints had something to say at a check. A contract sees the three lists, the ids of those that stopped or stood, the
/// source list's first and those of functions last, and the places in the source list of the logpoints.
#[derive(Drop)]
pub struct Breaks {
    alloc: Global,
    source: Vec<Breakpoint>,
    instructions: Vec<Breakpoint>,
    functions: Vec<Breakpoint>,
    ids: Vec<u32>,
    logs: Vec<u32>,
    places: Places,
}

impl Model for Breaks {
    ghost use Rattle.std.specs.Prelude.{◌+◌, ◌≤◌, vec_capacity, length};
    ghost use Rattle.breakpoints.specs.Stops.{Lists};
    ghost use Rattle.breakpoints.specs.Places.{IsKept};
    ghost use Rattle.std.specs.Coded.{codes};
    ghost use Rattle.breakpoints.specs.Codes.{coded_tree};

    ghost Value = { Lists };

    ghost coded = { Prim.hlevel (codes, coded_tree) };

    ghost view = { λ b. record {
      source = b.source.items;
      instructions = b.instructions.items;
      functions = b.functions.items;
      ids = b.ids.items;
      logs = b.logs.items;
    } };

    ghost invariant = { λ b. IsKept b.places b.source.items b.instructions.items
        b.functions.items (vec_capacity b.ids) (vec_capacity b.logs) };
}

impl Breaks {
    /// No breakpoints. It takes no memory.
    pub fn new(alloc: Global) -> Breaks
        ensures { result ≡ record
            { source = []; instructions = []; functions = []; ids = []; logs = [] } }
    {
        Breaks {
            alloc,
            source: Vec::new(alloc),
            instructions: Vec::new(alloc),
            functions: Vec::new(alloc),
            ids: Vec::new(alloc),
            logs: Vec::new(alloc),
            places: Places::new(alloc),
        }
    }

    /// Replaces the breakpoints of source lines, at most 1,024, by these, with no hits yet; no ids and no places of logpoints
    /// are lent until the next check. Where no memory is left, nothing changes.
    pub fn set_source(&mut self, specs: Vec<BreakSpec>) -> Result<(), AllocError>
        requires { CanBeSet specs.items }
        ensures ok { OnOk result
            (self.new ≡ record self.old
            { source = map fresh (map wanted_by specs.items); ids = []; logs = [] }) }
        ensures err { OnErr result (self.new ≡ self.old) }
    {
        let source = fresh_list(self.alloc, specs)?;
        let room = source.len() + self.instructions.len() + self.functions.len();
        let ids = Vec::with_capacity(self.alloc, room)?;
        let logs = Vec::with_capacity(self.alloc, source.len())?;
        let places = places_of(self.alloc, &source, &self.instructions, &self.functions)?;
        self.source = source;
        self.ids = ids;
        self.logs = logs;
        self.places = places;
        Ok(())
    }

    /// Replaces the breakpoints of instructions, at most 1,024, by these, with no hits yet; no ids and no places of logpoints
    /// are lent until the next check. Where no memory is left, nothing changes.
    pub fn set_instructions(&mut self, specs: Vec<BreakSpec>) -> Result<(), AllocError>
        requires { CanBeSet specs.items }
        ensures ok { OnOk result
            (self.new ≡ record self.old
            { instructions = map fresh (map wanted_by specs.items); ids = []; logs = [] }) }
        ensures err { OnErr result (self.new ≡ self.old) }
    {
        let instructions = fresh_list(self.alloc, specs)?;
        let room = self.source.len() + instructions.len() + self.functions.len();
        let ids = Vec::with_capacity(self.alloc, room)?;
        let places = places_of(self.alloc, &self.source, &instructions, &self.functions)?;
        self.instructions = instructions;
        self.ids = ids;
        self.logs.clear();
        self.places = places;
        Ok(())
    }

    /// Replaces the breakpoints of functions, at most 1,024, by these, with no hits yet; no ids and no places of logpoints are
    /// lent until the next check. Where no memory is left, nothing changes.
    pub fn set_functions(&mut self, specs: Vec<BreakSpec>) -> Result<(), AllocError>
        requires { CanBeSet specs.items }
        ensures ok { OnOk result
            (self.new ≡ record self.old
            { functions = map fresh (map wanted_by specs.items); ids = []; logs = [] }) }
        ensures err { OnErr result (self.new ≡ self.old) }
    {
        let functions = fresh_list(self.alloc, specs)?;
        let room = self.source.len() + self.instructions.len() + functions.len();
        let ids = Vec::with_capacity(self.alloc, room)?;
        let places = places_of(self.alloc, &self.source, &self.instructions, &functions)?;
        self.functions = functions;
        self.ids = ids;
        self.logs.clear();
        self.places = places;
        Ok(())
    }

    /// Takes all breakpoints away.
    pub fn clear(&mut self)
        ensures { self.new ≡ record
            { source = []; instructions = []; functions = []; ids = []; logs = [] } }
    {
        self.source = Vec::new(self.alloc);
        self.instructions = Vec::new(self.alloc);
        self.functions = Vec::new(self.alloc);
        self.ids.clear();
        self.logs.clear();
        self.places = Places::new(self.alloc);
    }

    /// Each breakpoint was not hit yet.
    pub fn reset_hits(&mut self)
        ensures { self.new ≡ record self.old {
          source = map reset self.old.source;
          instructions = map reset self.old.instructions;
          functions = map reset self.old.functions;
        } }
    {
        reset_list(&mut self.source);
        reset_list(&mut self.instructions);
        reset_list(&mut self.functions);
    }

    /// Whether there are any.
    #[inline]
    pub fn has_any(&self) -> bool
        ensures { result ≡ (nat_lt 0 (length self.now.source)
            || nat_lt 0 (length self.now.instructions)
            || nat_lt 0 (length self.now.functions)) }
    {
        !self.source.is_empty() || !self.instructions.is_empty() || !self.functions.is_empty()
    }

    /// Whether a breakpoint of one of the lists is at an address: where none is, a check there counts nothing, stops nothing and logs
    /// nothing.
    #[inline]
    pub fn has(&self, address: u32) -> bool
        ensures { result ≡ is_among address self.now.source self.now.instructions
            self.now.functions }
    {
        self.places.has(address)
    }

    /// Looks at the breakpoints at pc: counts the hits, and says which kinds of them stop. A logpoint counts its hits and never stops. It
    /// takes no memory.
    pub fn check(&mut self, pc: u32, hart: &Hart, memory: &Memory) -> Hit
        ensures lists { self.new ≡ checked pc hart.now memory.now self.old }
        ensures hit { result ≡ hit_in pc hart.now memory.now self.old }
    {
        if !self.has(pc) {
            self.forget_ids();
            return NO_HIT;
        }
        self.ids.clear();
        self.logs.clear();
        push_logging(&mut self.logs, &self.source, pc, hart, memory);
        let source = check_list(&mut self.source, &mut self.ids, pc, hart, memory);
        let instruction = check_list(&mut self.instructions, &mut self.ids, pc, hart, memory);
        let function = check_list(&mut self.functions, &mut self.ids, pc, hart, memory);
        Hit {
            source,
            instruction,
            function,
        }
    }

    /// Looks at the breakpoints at pc where a program goes back, and says which kinds of them stand there, however often they were hit. No
    /// hit counts, and no logpoint stands or has something to say. It takes no memory.
    pub fn stand_at(&mut self, pc: u32, hart: &Hart, memory: &Memory) -> Hit
        ensures lists { self.new ≡ looked pc hart.now memory.now self.old }
        ensures hit { result ≡ standing_in pc hart.now memory.now self.old }
    {
        if !self.has(pc) {
            self.forget_ids();
            return NO_HIT;
        }
        self.ids.clear();
        self.logs.clear();
        let source = look_at(&self.source, &mut self.ids, pc, hart, memory);
        let instruction = look_at(&self.instructions, &mut self.ids, pc, hart, memory);
        let function = look_at(&self.functions, &mut self.ids, pc, hart, memory);
        Hit {
            source,
            instruction,
            function,
        }
    }

    /// Forgets which breakpoints stopped at the last check or were found by `stand_at`, and which logpoints had something to say: no ids and
    /// no places are lent until the next one.
    pub fn forget_ids(&mut self)
        ensures { self.new ≡ record self.old { ids = []; logs = [] } }
    {
        self.ids.clear();
        self.logs.clear();
    }

    /// The breakpoints of source lines, in the order in which they were set.
    pub fn source(&self) -> &[Breakpoint]
        ensures { result.now ≡ self.now.source }
    {
        &self.source
    }

    /// The breakpoints of instructions, in the order in which they were set.
    pub fn instructions(&self) -> &[Breakpoint]
        ensures { result.now ≡ self.now.instructions }
    {
        &self.instructions
    }

    /// The breakpoints of functions, in the order in which they were set.
    pub fn functions(&self) -> &[Breakpoint]
        ensures { result.now ≡ self.now.functions }
    {
        &self.functions
    }

    /// The ids of the breakpoints that stopped at the last check, or were found by `stand_at` if that came later: those of the source list
    /// first and those of functions last.
    pub fn ids(&self) -> &[u32]
        ensures { result.now ≡ self.now.ids }
    {
        &self.ids
    }

    /// The places in the source list of the logpoints that had something to say at the last check, in the list's order; none after `stand_at`.
    pub fn logs(&self) -> &[u32]
        ensures { result.now ≡ self.now.logs }
    {
        &self.logs
    }

    /// The text of the logpoint at a place of the source list, lent; `None`: a breakpoint without a text is there, or none.
    pub fn log_text(&self, place: u32) -> Option<&str>
        ensures { option_map (λ text. text.now) result ≡ log_at self.now place }
    {
        match self.source.get(place as usize) {
            None => None,
            Some(breakpoint) => match &breakpoint.log {
                None => None,
                Some(text) => Some(text.as_str()),
            },
        }
    }
}

// None stops, and none stands.
const NO_HIT: Hit = Hit {
    source: false,
    instruction: false,
    function: false,
};

// The breakpoints of specs, with no hits yet.
fn fresh_list(alloc: Global, specs: Vec<BreakSpec>) -> Result<Vec<Breakpoint>, AllocError>
    requires { CanBeSet specs.items }
    ensures { IfOk result (λ list. list.items ≡ map fresh (map wanted_by specs.items)) }
{
    let mut list = Vec::with_capacity(alloc, specs.len())?;
    for spec in specs {
        list.push(Breakpoint::fresh(spec))?;
    }
    Ok(list)
}

// Where the breakpoints of all lists are.
fn places_of(
    alloc: Global,
    source: &[Breakpoint],
    instructions: &[Breakpoint],
    functions: &[Breakpoint],
) -> Result<Places, AllocError>
    ensures { IfOk result (λ places. Covers places source.now instructions.now
        functions.now) }
{
    let mut addresses = Vec::new(alloc);
    push_addresses(&mut addresses, source)?;
    push_addresses(&mut addresses, instructions)?;
    push_addresses(&mut addresses, functions)?;
    Places::of(alloc, addresses)
}

fn push_addresses(addresses: &mut Vec<u32>, list: &[Breakpoint]) -> Result<(), AllocError>
    ensures { OnOk result (addresses.new.items
        ≡ addresses.old.items ++ map (λ b. b.address) list.now) }
{
    for breakpoint in list {
        addresses.push(breakpoint.address)?;
    }
    Ok(())
}

fn reset_list(list: &mut Vec<Breakpoint>)
    ensures { list.new.items ≡ map reset list.old.items }
{
    for breakpoint in list.iter_mut() {
        breakpoint.reset();
    }
}

// Checks one list: counts the hits, appends the ids of those that stop, and says whether there is one.
fn check_list(
    list: &mut Vec<Breakpoint>,
    ids: &mut Vec<u32>,
    pc: u32,
    hart: &Hart,
    memory: &Memory,
) -> bool
    requires { vec_len ids.old + vec_len list.old ≤ vec_capacity ids.old }
    ensures list { list.new.items ≡ map (counted pc hart.now memory.now) list.old.items }
    ensures ids { ids.new.items
        ≡ ids.old.items ++ stopping_ids pc hart.now memory.now list.old.items }
    ensures room { vec_capacity ids.old ≤ vec_capacity ids.new }
    ensures count { vec_len ids.new ≤ vec_len ids.old + vec_len list.old }
    ensures stops { result ≡ list_any (stops pc hart.now memory.now) list.old.items }
{
    let mut any = false;
    for breakpoint in list.iter_mut() {
        let id = breakpoint.id;
        if breakpoint.check(pc, hart, memory) {
            push_within(ids, id);
            any = true;
        }
    }
    any
}

// Looks at one list: appends the ids of those that stand here, and says whether there is one.
fn look_at(list: &[Breakpoint], ids: &mut Vec<u32>, pc: u32, hart: &Hart, memory: &Memory) -> bool
    requires { vec_len ids.old + length list.now ≤ vec_capacity ids.old }
    ensures ids { ids.new.items
        ≡ ids.old.items ++ ids_where (stands pc hart.now memory.now) list.now }
    ensures room { vec_capacity ids.old ≤ vec_capacity ids.new }
    ensures count { vec_len ids.new ≤ vec_len ids.old + length list.now }
    ensures stands { result ≡ list_any (stands pc hart.now memory.now) list.now }
{
    let mut found = false;
    for breakpoint in list {
        if breakpoint.stands(pc, hart, memory) {
            push_within(ids, breakpoint.id);
            found = true;
        }
    }
    found
}

// Appends the places of the logpoints of the source list that say their text.
fn push_logging(logs: &mut Vec<u32>, list: &[Breakpoint], pc: u32, hart: &Hart, memory: &Memory)
    requires room { vec_len logs.old + length list.now ≤ vec_capacity logs.old }
    requires few { length list.now ≤ 1024 }
    ensures logs { logs.new.items
        ≡ logs.old.items ++ logging_from pc hart.now memory.now 0 list.now }
    ensures room { vec_capacity logs.old ≤ vec_capacity logs.new }
{
    let mut place = 0;
    for breakpoint in list {
        if breakpoint.logs(pc, hart, memory) {
            push_within(logs, place);
        }
        place += 1;
    }
}

// Appends an id, or a place, where there is room for it.
fn push_within(ids: &mut Vec<u32>, id: u32)
    requires { vec_len ids.old < vec_capacity ids.old }
    ensures ids { ids.new.items ≡ ids.old.items ++ id ∷ [] }
    ensures len { vec_len ids.new ≡ vec_len ids.old + 1 }
    ensures room { vec_capacity ids.old ≤ vec_capacity ids.new }
{
    match ids.push(id) {
        Ok(()) => {}
        Err(_) => unreachable!(),
    }
}
