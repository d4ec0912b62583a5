//! Why a request is refused.
ghost use Rattle.std.specs.Prelude.{◌≡◌};
ghost use Rattle.protocol.specs.Refusals.{has_text, id_of, name_of, refusal_of};

/// Why a request is refused. The order of the variants is the order in which they apply.
#[derive(Clone, Copy, Debug, PartialEq, Eq)]
pub enum Refusal {
    /// The request's number is not above the highest that came on the connection.
    RepeatedSequence,
    /// A later `cancel` named the request before it was answered.
    Cancelled,
    /// The adapter has no request of that name.
    UnknownCommand,
    /// An argument is missing, of another type than the protocol's schema gives it, or a number out of
    /// range.
    BadArguments,
    /// The request does not belong to the connection's phase.
    WrongPhase,
    /// There is no machine.
    NoMachine,
    /// The program has ended.
    Ended,
    /// The thread is not thread 1, the hart.
    NoThread,
    /// The machine is not stopped.
    NotStopped,
    /// The frame id or variables reference was never given, or names something of another kind.
    UnknownReference,
    /// The frame id or variables reference was given in an earlier stop.
    StaleReference,
    /// The memory reference is no address in hexadecimal or decimal digits.
    BadMemoryReference,
    /// More is asked for than one request may ask for.
    TooMuch,
    /// A byte that is asked for, or written, lies outside memory.
    OutsideMemory,
    /// The scope has no variable of that name.
    UnknownName,
    /// The variable cannot be changed.
    NotWritable,
    /// The expression does not parse, or reads a word outside memory.
    BadExpression,
    /// The value is no number of 32 bits.
    BadValue,
    /// The program has an error. The response says where and which as its text.
    AssemblyFailed,
    /// No number is left for a breakpoint, a frame or a scope.
    ReferencesExhausted,
    /// The `cancel` names no request that waits for its answer.
    RequestGone,
    /// The program's file cannot be read.
    FileUnreadable,
    /// The machine is to go back, and no move of it is recorded.
    NoHistory,
}

impl Refusal {
    /// The number that the response gives as `body.error.id`.
    pub fn id(self) -> u32
        ensures { result ≡ id_of self }
    {
        self.row().0
    }

    /// The name that the response gives as `message`.
    pub fn name(self) -> &'static str
        ensures { result.now ≡ name_of self }
    {
        self.row().1
    }

    /// Whether the response gives a text of the refusal's own as `body.error.format`, and not its name.
    pub fn has_text(self) -> bool
        ensures { result ≡ has_text self }
    {
        matches!(self, Refusal::AssemblyFailed)
    }

    // The refusal's number and its name.
    fn row(self) -> (u32, &'static str)
        ensures id { result.0 ≡ id_of self }
        ensures name { result.1.now ≡ name_of self }
    {
        match self {
            Refusal::RepeatedSequence => (6, "repeatedSequence"),
            Refusal::Cancelled => (5, "cancelled"),
            Refusal::UnknownCommand => (1, "unknownCommand"),
            Refusal::BadArguments => (2, "badArguments"),
            Refusal::WrongPhase => (3, "wrongPhase"),
            Refusal::NoMachine => (22, "noMachine"),
            Refusal::Ended => (18, "ended"),
            Refusal::NoThread => (7, "noThread"),
            Refusal::NotStopped => (4, "notStopped"),
            Refusal::UnknownReference => (9, "unknownReference"),
            Refusal::StaleReference => (8, "staleReference"),
            Refusal::BadMemoryReference => (13, "badMemoryReference"),
            Refusal::TooMuch => (15, "tooMuch"),
            Refusal::OutsideMemory => (14, "outsideMemory"),
            Refusal::UnknownName => (10, "unknownName"),
            Refusal::NotWritable => (12, "notWritable"),
            Refusal::BadExpression => (16, "badExpression"),
            Refusal::BadValue => (11, "badValue"),
            Refusal::AssemblyFailed => (17, "assemblyFailed"),
            Refusal::ReferencesExhausted => (19, "referencesExhausted"),
            Refusal::RequestGone => (20, "requestGone"),
            Refusal::FileUnreadable => (21, "fileUnreadable"),
            Refusal::NoHistory => (23, "noHistory"),
        }
    }

    /// The refusal that has this number, if one has.
    pub fn from_id(id: u64) -> Option<Refusal>
        ensures { result ≡ refusal_of id }
    {
        match id {
            6 => Some(Refusal::RepeatedSequence),
            5 => Some(Refusal::Cancelled),
            1 => Some(Refusal::UnknownCommand),
            2 => Some(Refusal::BadArguments),
            3 => Some(Refusal::WrongPhase),
            22 => Some(Refusal::NoMachine),
            18 => Some(Refusal::Ended),
            7 => Some(Refusal::NoThread),
            4 => Some(Refusal::NotStopped),
            9 => Some(Refusal::UnknownReference),
            8 => Some(Refusal::StaleReference),
            13 => Some(Refusal::BadMemoryReference),
            15 => Some(Refusal::TooMuch),
            14 => Some(Refusal::OutsideMemory),
            10 => Some(Refusal::UnknownName),
            12 => Some(Refusal::NotWritable),
            16 => Some(Refusal::BadExpression),
            11 => Some(Refusal::BadValue),
            17 => Some(Refusal::AssemblyFailed),
            19 => Some(Refusal::ReferencesExhausted),
            20 => Some(Refusal::RequestGone),
            21 => Some(Refusal::FileUnreadable),
            23 => Some(Refusal::NoHistory),
            _ => None,
        }
    }
}
