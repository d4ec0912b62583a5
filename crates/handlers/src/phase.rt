//! How far a connection has come.
ghost use Rattle.std.specs.Prelude.{◌≡◌};
ghost use Rattle.handlers.specs.Phases as spec;

/// How far a connection has come, which decides which requests it takes.
#[derive(Clone, Copy, Debug, PartialEq, Eq)]
pub enum Phase {
    /// Nothing was agreed yet: the editor has to begin with `initialize`.
    Fresh,
    /// `initialize` was answered.
    Initialized,
    /// A program was launched or joined, and the editor has not said all yet (`InitializedEvent`).
    Configuring,
    /// `configurationDone` was answered.
    Active,
    /// `disconnect` was answered: no request is taken any more.
    Left,
}

/// The phases in which a request is taken.
#[derive(Clone, Copy, Debug, PartialEq, Eq)]
pub enum Phases {
    /// Before `initialize`.
    Fresh,
    /// After `initialize`, until a program is launched or joined.
    Initialized,
    /// Then, until the editor has said all.
    Configuring,
    /// Once it has said all.
    Active,
    /// While it debugs a program: before it has said all, and after.
    Debugging,
    /// From `initialize` on.
    Listening,
    /// All, until it has left.
    There,
}

impl Phase {
    /// Whether nothing was agreed yet.
    pub(crate) fn is_fresh(self) -> bool
        ensures { result ≡ spec.is_fresh_in self }
    {
        matches!(self, Phase::Fresh)
    }

    /// Whether the editor may launch or join a program.
    pub(crate) fn is_initialized(self) -> bool
        ensures { result ≡ spec.is_initialized_in self }
    {
        matches!(self, Phase::Initialized)
    }

    /// Whether it has not said all yet.
    pub fn is_configuring(self) -> bool
        ensures { result ≡ spec.is_configuring_in self }
    {
        matches!(self, Phase::Configuring)
    }

    /// Whether it has, and is told what the program does.
    pub fn is_active(self) -> bool
        ensures { result ≡ spec.is_active_in self }
    {
        matches!(self, Phase::Active)
    }

    /// Whether it debugs a program.
    pub(crate) fn is_debugging(self) -> bool
        ensures { result ≡ spec.is_debugging_in self }
    {
        matches!(self, Phase::Configuring | Phase::Active)
    }

    /// Whether `initialize` was answered, and it has not left.
    pub(crate) fn is_listening(self) -> bool
        ensures { result ≡ spec.is_listening_in self }
    {
        matches!(
            self,
            Phase::Initialized | Phase::Configuring | Phase::Active
        )
    }

    /// Whether it has not left.
    pub(crate) fn is_there(self) -> bool
        ensures { result ≡ spec.is_there_in self }
    {
        !matches!(self, Phase::Left)
    }
}

impl Phases {
    /// Whether a phase is one of them.
    pub fn has(self, phase: Phase) -> bool
        ensures { result ≡ spec.has self phase }
    {
        match self {
            Phases::Fresh => phase.is_fresh(),
            Phases::Initialized => phase.is_initialized(),
            Phases::Configuring => phase.is_configuring(),
            Phases::Active => phase.is_active(),
            Phases::Debugging => phase.is_debugging(),
            Phases::Listening => phase.is_listening(),
            Phases::There => phase.is_there(),
        }
    }
}
