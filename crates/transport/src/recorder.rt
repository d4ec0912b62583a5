//! Who is told the events of a session.
ghost use Rattle.std.specs.Prelude.{◌∷◌, [], None};
ghost use Rattle.transport.specs.Files.{Records};
ghost use Rattle.transport.specs.Told.{KnownEvents, event_of};

/// An event of a session that has happened: `session::Event`, with what it holds lent.
#[derive(Clone, Copy, Debug)]
pub enum EventRef<'a> {
    /// An editor connected.
    Connect,
    /// A piece of what it sends came.
    Recv(&'a [u8]),
    /// A request was answered, with what its file holds, if it asked for one that could be read.
    Turn(Option<&'a [u8]>),
    /// The program was given time for this many moves.
    Slice(u32),
    /// The program was told to stand still before its next move.
    Hold,
    /// This many of the waiting bytes were sent.
    Sent(usize),
    /// The connection ended.
    DropConnection,
}

/// Is told each event of a session that is driven or served, once it has happened and before the next.
pub trait Recorder {
    ghost told: { Self → KnownEvents };

    /// An event has happened. Nothing that the recorder does harms the session: it answers nothing.
    fn tell(&mut self, event: EventRef<'_>)
        ensures { Records (told self.old) (told self.new) (event_of event.entry ∷ []) };
}

/// Records nothing.
#[derive(Debug, Drop)]
pub struct Unrecorded;

impl Recorder for Unrecorded {
    ghost told = { λ recorder. None };

    fn tell(&mut self, _event: EventRef<'_>) {}
}
