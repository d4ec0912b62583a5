//! A door in memory.
ghost use Rattle.std.specs.Prelude.{◌≡◌, Some, if◌then◌else◌};
ghost use Rattle.std.specs.Slice.Iter.{iter_mut_rest};
ghost use Rattle.wires.specs.Doors.{Doorway};
ghost use Rattle.wires.specs.Wires.{one_more};

use crate::count::one_more;
use crate::door::{Came, Door, DoorFault};
use crate::memory::MemoryWire;
use std::slice::IterMut;

/// How a door in memory goes.
#[derive(Clone, Copy, Debug, PartialEq, Eq)]
pub struct Visits {
    /// Which of its calls finds nobody, of `accept_now` and `accept_wait` counted together from 1; none if 0.
    /// `accept_wait` passes it over.
    pub nobody: u64,
    /// Which of its calls fails, counted likewise; none if 0.
    pub failing: u64,
}

/// A door in memory: it lends wires of its maker's, one after the other. After the last one nobody will come any
/// more.
#[derive(Drop)]
pub struct MemoryDoor<'a> {
    wires: IterMut<'a, MemoryWire>,
    visits: Visits,
    calls: u64,
    faults: u64,
    idle: u64,
    waits: u64,
}

impl<'a> MemoryDoor<'a> {
    /// A door that lends these wires.
    pub fn new(wires: &'a mut [MemoryWire], visits: Visits) -> MemoryDoor<'a>
        ensures { ⟦<MemoryDoor<'a> as Door>⟧.doorway result
            ≡ record { wires = Some wires.old; faults = 0; idle = 0; waits = 0 } }
    {
        MemoryDoor {
            wires: wires.iter_mut(),
            visits,
            calls: 0,
            faults: 0,
            idle: 0,
            waits: 0,
        }
    }

    // Counts a call, and says whether it is the one that fails.
    fn counts(&mut self) -> bool
        ensures wires { self.new.wires ≡ self.old.wires }
        ensures idle { self.new.idle ≡ self.old.idle }
        ensures waits { self.new.waits ≡ self.old.waits }
        ensures faults { self.new.faults
            ≡ (if result then one_more self.old.faults else self.old.faults) }
    {
        self.calls = self.calls.saturating_add(1);
        if self.calls != self.visits.failing {
            return false;
        }
        self.faults = one_more(self.faults);
        true
    }
}

impl<'a> Door for MemoryDoor<'a> {
    type Wire = &'a mut MemoryWire;

    ghost doorway = { λ d. record {
      wires = Some (iter_mut_rest d.wires);
      faults = d.faults;
      idle = d.idle;
      waits = d.waits;
    } };

    fn accept_now(&mut self) -> Result<Came<&'a mut MemoryWire>, DoorFault> {
        if self.counts() {
            return Err(DoorFault);
        }
        if self.calls == self.visits.nobody {
            self.idle = one_more(self.idle);
            return Ok(Came::Nothing);
        }
        match self.wires.next() {
            Some(wire) => Ok(Came::Wire(wire)),
            None => Ok(Came::End),
        }
    }

    fn accept_wait(&mut self) -> Result<Option<&'a mut MemoryWire>, DoorFault> {
        self.waits = one_more(self.waits);
        if self.counts() {
            return Err(DoorFault);
        }
        Ok(self.wires.next())
    }

    fn faults(&self) -> u64 {
        self.faults
    }

    fn idle(&self) -> u64 {
        self.idle
    }

    fn waits(&self) -> u64 {
        self.waits
    }
}
