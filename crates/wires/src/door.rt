//! A door: what wires come through, and what may fail.
ghost use Rattle.std.specs.Prelude.{◌≡◌};
ghost use Rattle.wires.specs.Doors.{Doorway, Knocks, Admits};
ghost use Rattle.wires.specs.Wires.{one_more};

use crate::wire::Wire;

/// What a look at a door found.
#[derive(Drop)]
pub enum Came<W> {
    /// An editor came, over this wire.
    Wire(W),
    /// Nobody is there yet.
    Nothing,
    /// Nobody will come any more.
    End,
}

/// A call of a door failed.
#[derive(Clone, Copy, Debug, PartialEq, Eq)]
pub struct DoorFault;

/// Where editors come in, each over a wire of its own. A call that a signal interrupted is made again by the door
/// itself.
pub trait Door {
    type Wire: Wire + Drop;

    ghost doorway: { Self → Doorway };

    /// Takes the editor that is first of those who wait, and does not wait for one.
    fn accept_now(&mut self) -> Result<Came<Self::Wire>, DoorFault>
        ensures found { Knocks Self.Wire.line (doorway self.old) (doorway self.new) result }
        ensures waits { (doorway self.new).waits ≡ (doorway self.old).waits };

    /// Takes the next editor, and waits for it, which is counted. It gives none where nobody will come any more.
    fn accept_wait(&mut self) -> Result<Option<Self::Wire>, DoorFault>
        ensures found { Admits Self.Wire.line (doorway self.old) (doorway self.new) result }
        ensures waits { (doorway self.new).waits ≡ one_more (doorway self.old).waits };

    /// How many calls failed, counted up to 2^64 - 1.
    fn faults(&self) -> u64
        ensures { result ≡ (doorway self.now).faults };

    /// How many looks found nobody, counted up to 2^64 - 1.
    fn idle(&self) -> u64
        ensures { result ≡ (doorway self.now).idle };

    /// How many waits for an editor there were, counted up to 2^64 - 1.
    fn waits(&self) -> u64
        ensures { result ≡ (doorway self.now).waits };
}
