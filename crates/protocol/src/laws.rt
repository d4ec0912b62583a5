//! What follows from the meaning of a body, in the protocol's own terms. Each law is the contract
//! of a function that does nothing.
ghost use Rattle.protocol.specs.Laws as law;

/// A response or an event is passed over, whatever else stands in it: its number is not looked at.
pub fn ignores_what_is_no_request()
    ensures { law.IgnoresWhatIsNoRequest }
{}

/// A name is known or not, whatever the arguments are.
pub fn knows_requests_by_name()
    ensures { law.KnowsRequestsByName }
{}

/// A command that is read has the name by which it was asked for.
pub fn keeps_the_name()
    ensures { law.KeepsTheName }
{}

/// The number of a request is from 0 to 2,147,483,647, also where the request is refused.
pub fn numbers_within_seq()
    ensures requests { law.NumbersWithinSeq }
    ensures refused { law.BadNumbersWithinSeq }
{}

/// The lines for which breakpoints are asked are from 0 to 2,147,483,647 (`SourceBreakpoint.line`).
pub fn lines_within_max()
    ensures { law.LinesWithinMax }
{}

/// Read on its own, a request is refused for its name or its arguments alone.
pub fn refuses_for_name_or_arguments()
    ensures { law.RefusesForNameOrArguments }
{}

/// A member that the protocol does not name changes nothing.
pub fn passes_over_unknown_members()
    ensures { law.PassesOverUnknownMembers }
{}

/// What a body means is never that memory ran out.
pub fn never_means_no_memory()
    ensures { law.NeverMeansNoMemory }
{}

/// Bytes in base64 are read from their encoding, and from no other text.
pub fn reads_encodings()
    ensures { law.ReadsEncodings }
{}
