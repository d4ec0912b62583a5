//! What holds of every program: each law is the contract of a function that does nothing.

ghost use Rattle.stepping.specs.Leading.{BackAndForth, MovesFromOldest, OneLess, TicksLead};
ghost use Rattle.stepping.specs.Loading.{LabelsAreNotLoaded, OneIsLoaded, OneIsReloaded};
ghost use Rattle.stepping.specs.Past.{LoadedRemembersNone, TicksRemember};
ghost use Rattle.stepping.specs.RunLaws.{CountsAnew, EachMachineTicks, EachTickAnswers, EndsWithCodes, MovesEnd, RunsSayWhere, RunsStopThere, StopIsUnique, TickIsDeterministic, TicksSayWhere};
ghost use Rattle.stepping.specs.StoppingBack.{BackTicksSayWhere, BackTicksTurn};

/// An image, a size of memory and breakpoints settle the machine that is as the image says: it is the one that
/// `Loading.loaded` makes of them. Loaded anew, the machine before gives the size and the breakpoints. The labels of
/// the image are none of the machine.
pub fn one_machine_is_loaded()
    ensures loaded { OneIsLoaded }
    ensures anew { OneIsReloaded }
    ensures labels { LabelsAreNotLoaded }
{}

/// The calls that a debugged machine keeps are those of all the instructions that have retired since its
/// program was loaded: of none at first, and each tick adds the instruction that retires in it, if one does,
/// or takes away the one whose move it undoes.
pub fn machines_remember_their_past()
    ensures loaded { LoadedRemembersNone }
    ensures ticks { TicksRemember }
{}

/// The past that a machine has recorded is a run that leads to where it is: each move that is undone makes it
/// one shorter, and as many moves lead to the same position again.
pub fn past_leads_here()
    ensures ticks { TicksLead }
    ensures oldest { MovesFromOldest }
    ensures less { OneLess }
    ensures again { BackAndForth }
{}

/// A run stops at one number at most, for one reason. Its moves end before an instruction that traps or ends
/// the program. It may be left where nothing has stopped it, and its moves counted anew from there.
pub fn run_stops_at_one_number()
    ensures unique { StopIsUnique }
    ensures end { MovesEnd }
    ensures anew { CountsAnew }
{}

/// A tick that says that the program has ended says so with a code of 32 bits, one of them for its sign.
pub fn programs_end_with_codes()
    ensures { EndsWithCodes }
{}

/// Each machine has a tick.
pub fn each_machine_ticks()
    ensures { EachMachineTicks }
{}

/// A machine has one tick: it settles what the tick answers, and what it leaves.
pub fn tick_is_deterministic()
    ensures { TickIsDeterministic }
{}

/// Each tick of a machine answers. That a call found no memory for a page is no answer of a tick.
pub fn each_tick_answers()
    ensures { EachTickAnswers }
{}

/// Ticks of a run that goes back stop where it stops: at the least number of undone moves at which a reason
/// applies, and for the first reason there. That is the newest position of the past where a breakpoint
/// stands, and else the oldest.
pub fn ticks_stop_where_a_run_back_stops()
    ensures says { BackTicksSayWhere }
    ensures turns { BackTicksTurn }
{}

/// Ticks of a run that does not go back stop where it stops: at the least number at which a reason applies, and
/// for the first reason there. Before that number they continue.
pub fn ticks_stop_where_a_run_stops()
    ensures says { TicksSayWhere }
    ensures stops { RunsStopThere }
    ensures runs { RunsSayWhere }
{}
