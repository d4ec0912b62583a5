//! A door over whose wires all is heard.
ghost use Rattle.std.specs.Prelude.{◌≡◌};

use crate::verbose::VerboseWire;
use wires::{Came, Door, DoorFault};

/// A door that lets in whoever comes; what goes over the wires is heard.
#[derive(Drop)]
pub struct VerboseDoor<'rt, D> {
    door: D,
    rt: &'rt HostRuntime,
    longest: u32,
}

impl<'rt, D> VerboseDoor<'rt, D> {
    /// This door. Messages of an editor have at most `longest` bytes.
    pub fn new(rt: &'rt HostRuntime, door: D, longest: u32) -> VerboseDoor<'rt, D>
        ensures { result.door ≡ door }
    {
        VerboseDoor { door, rt, longest }
    }
}

impl<'rt, D: Door> Door for VerboseDoor<'rt, D> {
    type Wire = VerboseWire<'rt, D::Wire>;

    ghost doorway = { λ d. D.doorway d.door };

    fn accept_now(&mut self) -> Result<Came<VerboseWire<'rt, D::Wire>>, DoorFault> {
        match self.door.accept_now() {
            Ok(Came::Wire(wire)) => Ok(Came::Wire(VerboseWire::new(self.rt, wire, self.longest))),
            Ok(Came::Nothing) => Ok(Came::Nothing),
            Ok(Came::End) => Ok(Came::End),
            Err(fault) => Err(fault),
        }
    }

    fn accept_wait(&mut self) -> Result<Option<VerboseWire<'rt, D::Wire>>, DoorFault> {
        match self.door.accept_wait() {
            Ok(Some(wire)) => Ok(Some(VerboseWire::new(self.rt, wire, self.longest))),
            Ok(None) => Ok(None),
            Err(fault) => Err(fault),
        }
    }

    fn faults(&self) -> u64 {
        self.door.faults()
    }

    fn idle(&self) -> u64 {
        self.door.idle()
    }

    fn waits(&self) -> u64 {
        self.door.waits()
    }
}
