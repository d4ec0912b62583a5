//! What the definitions promise. Each function does nothing: its contract is the law.

ghost use Rattle.range_laws.specs.Debugging.{HartsStayInRange, LoadedIsInRange, ReloadedIsInRange, TicksStayInRange, WritesStayInRange};
ghost use Rattle.range_laws.specs.Images.{AssembledIsInRange};
ghost use Rattle.range_laws.specs.Machines.{MovesStayInRange};
ghost use Rattle.range_laws.specs.Programs.{JustLoadedIsInRange, ProgramsMoveInRange, RequestsStayInRange, RunsStayInRange};
ghost use Rattle.range_laws.specs.Requests.{RegistersStayInRange, RequestsGiveBytes, TextsGiveWords};
ghost use Rattle.range_laws.specs.Values.{TreesHaveWords, ValuesAreWords};

/// Each move of a machine whose registers are words and whose memory is bytes leaves such a machine.
pub fn moves_stay_in_range()
    ensures { MovesStayInRange }
{}

/// So does each tick of a debugged machine, whose calls stay addresses, 256 at most.
pub fn ticks_stay_in_range()
    ensures { TicksStayInRange }
{}

/// A machine into which an image in range was loaded is in range, at first and anew.
pub fn loaded_is_in_range()
    ensures loaded { LoadedIsInRange }
    ensures anew { ReloadedIsInRange }
{}

/// What a debugger writes into memory and registers leaves it in range.
pub fn writes_stay_in_range()
    ensures memory { WritesStayInRange }
    ensures hart { HartsStayInRange }
{}

/// The value of an expression is a word: each number of its text is one, and so is what is made of words.
pub fn values_are_words()
    ensures numbers { TreesHaveWords }
    ensures values { ValuesAreWords }
{}

/// The image of a text with which nothing is wrong is in range.
pub fn assembled_is_in_range()
    ensures { AssembledIsInRange }
{}

/// What a request gives to be written is bytes.
pub fn requests_give_bytes()
    ensures { RequestsGiveBytes }
{}

/// The value that an editor's text writes is a word, and registers stay words when one of them is set to a word.
pub fn settings_are_in_range()
    ensures values { TextsGiveWords }
    ensures registers { RegistersStayInRange }
{}

/// A program that was just loaded is in range, and all that is done to a program leaves it so.
pub fn programs_stay_in_range()
    ensures loaded { JustLoadedIsInRange }
    ensures runs { RunsStayInRange }
    ensures moves { ProgramsMoveInRange }
    ensures requests { RequestsStayInRange }
{}
