//! What the definitions promise. Each function does nothing: its contract is the law.

ghost use Rattle.answers.specs.Laws.{AnswersAreProper, BytesAreProper, BytesAreRead, EachHasItsEntry, EntriesAreProper, EntriesHaveTheirPlaces, EntriesTellTheList, ExpressionsAreRead, LooksAreProper, NumbersFollowEachOther, SettingsAreProper, SettingsKeepWords, TextsAreDisassemblies, WritingsAreProper, WritingsFit};

/// A text is read as a tree exactly where the grammar gives it that tree, within the limits.
pub fn expressions_are_read()
    ensures { ExpressionsAreRead }
{}

/// A text is that of a word at an address exactly where it is its disassembly by the rules.
pub fn texts_are_disassemblies()
    ensures { TextsAreDisassemblies }
{}

/// Where bytes are read, each is that of its address, and what is missing of those that were asked for is no longer in memory.
pub fn bytes_are_read()
    ensures { BytesAreRead }
{}

/// A disassembly has an entry for each instruction that is asked for, at rising places, 4 apart.
pub fn entries_have_their_places()
    ensures { EntriesHaveTheirPlaces }
{}

/// What the entries of an answer say is set is what is set: the same numbers at the same addresses, in one order.
pub fn entries_tell_the_list()
    ensures { EntriesTellTheList }
{}

/// The numbers of the breakpoints that are set follow each other, from the given one on.
pub fn numbers_follow_each_other()
    ensures { NumbersFollowEachOther }
{}

/// Each breakpoint that is asked for has an entry, where no more is asked for than may be.
pub fn each_has_its_entry()
    ensures { EachHasItsEntry }
{}

/// The body is that of the request, and its numbers are in their ranges, where those of the line table, of the request and of the
/// breakpoints that are set are, and the end of memory is an address.
pub fn answers_are_proper()
    ensures { AnswersAreProper }
{}

/// So are the bodies of what looks into memory, where memory is a list of bytes.
pub fn bytes_are_proper()
    ensures bytes { BytesAreProper }
    ensures entries { EntriesAreProper }
{}

/// So is the body of each request that looks into a machine, where the machine's numbers, those of its line table and those that the
/// stop has are in their ranges.
pub fn looks_are_proper()
    ensures { LooksAreProper }
{}

/// So are the bodies of what changes a machine.
pub fn changes_are_proper()
    ensures settings { SettingsAreProper }
    ensures writings { WritingsAreProper }
{}

/// A hart that is set holds words, and what is written fits into memory.
pub fn changes_fit()
    ensures settings { SettingsKeepWords }
    ensures writings { WritingsFit }
{}
