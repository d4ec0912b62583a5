//! What holds of every stream: each law is the contract of a function that does nothing.

ghost use Rattle.framing.specs.Laws.{
  BodiesAreRight,
  CutsDoNotMatter,
  FaultIsUnique,
  FramesAreUnique,
  FramesAreRead,
  ReadingIsUnique,
  ReadingIsRight,
  RetractGoesBack,
  RetractsOnce,
};

/// The reading of a stream is its bodies, its rest and its fault.
pub fn reading_is_right()
    ensures { ReadingIsRight }
{}

/// No other reading is.
pub fn reading_is_unique()
    ensures { ReadingIsUnique }
{}

/// A stream has no other bodies, and no other rest after them.
pub fn frames_are_unique()
    ensures { FramesAreUnique }
{}

/// A stream has at most one fault.
pub fn fault_is_unique()
    ensures { FaultIsUnique }
{}

/// The bodies that an unframer lent, and those that wait, are those of all that was ever fed.
pub fn bodies_are_right()
    ensures { BodiesAreRight }
{}

/// However a stream is cut, its reading is that of a prefix, continued.
pub fn cuts_do_not_matter()
    ensures { CutsDoNotMatter }
{}

/// What `frame` writes is read as the body, whatever follows.
pub fn frames_are_read()
    ensures { FramesAreRead }
{}

/// What `retract` leaves represents all that was fed before the last piece, with the bodies that were
/// lent before it, however many were lent since.
pub fn retract_goes_back()
    ensures { RetractGoesBack }
{}

/// After a piece that was taken back none is, however many bodies were lent since.
pub fn retracts_once()
    ensures { RetractsOnce }
{}
