//! The program is given time.
ghost use Rattle.std.specs.Prelude.{◌≡◌, nat_lt, true, ◌++◌, ◌+◌, ◌*◌, ◌<◌, ◌≤◌, ℕ, Some, None, Ok, [], ◌∷◌, map, IfOk, OnOk, OnErr, Bool, false};
ghost use Rattle.session.specs.declared.event.Event.TheVariants as event;
ghost use Rattle.session.specs.declared.event.Applied.TheVariants as applied;
ghost use Rattle.debuggee.specs.Programs.{Program as AProgram, entered, next_tick, stays};
ghost use Rattle.session.specs.declared.slices.Next.TheVariants as a_next;
ghost use Rattle.session.specs.Effects.{performed};
ghost use Rattle.session.specs.Kept.{Goes, draft_told, drafted_all, keepings, see_kept};
ghost use Rattle.session.specs.Phases.{is_active};
ghost use Rattle.session.specs.Slices as spec;
ghost use Rattle.session.specs.Slices.{IsFree, logged, printed_events};
ghost use Rattle.stepping.specs.Goals.{turns_back};
ghost use Rattle.handlers.specs.Telling.{exit_events, log_event, output_event, stop_event};
ghost use Rattle.session.specs.Private.Beats.{outcome_events, Decides, Moved, Stretches, after_made, concluded, owed_of, queued_with, tick_events};

use crate::draft::Draft;
use crate::event::{SliceEnd, Sliced};
use crate::limits::Limits;
use crate::state::{FULL, State};
use debuggee::{Advanced, Program, Run, Why};
use handlers::telling;
use replies::Event;
use std::alloc::{AllocError, Global};
use stepping::{Outcome, Runner, Tick};

/// What some beats of a slice did.
#[derive(Clone, Copy, Debug, PartialEq, Eq)]
pub struct Step {
    /// How many moves were made.
    pub moved: u32,
    /// What ended the slice, if something did.
    pub ending: Option<SliceEnd>,
}

impl Step {
    fn ends(ending: SliceEnd) -> Step
        ensures { result ≡ record { moved = 0; ending = Some ending } }
    {
        Step {
            moved: 0,
            ending: Some(ending),
        }
    }
}

/// What is made of a program as the editor is told of it.
#[derive(Clone, Copy, Debug, PartialEq, Eq)]
pub enum Made {
    /// What it owes is told, and what that came to is made.
    Told(Tick),
    /// It stops.
    Stopped(Why),
    /// What the instruction that comes next came to is made.
    Met(Outcome),
}

/// What comes next in a slice.
#[derive(Clone, Copy, Debug, PartialEq, Eq)]
pub enum Next {
    /// What is owed is told.
    Tell(Tick),
    /// The slice ends.
    End(SliceEnd),
    /// The program stops.
    Stop(Why),
    /// The check at the entry is made.
    Check,
    /// The program makes moves.
    Advance,
}

impl State {
    /// Gives the program time for this many moves.
    #[tactic(auto, using(crate::proofs::Slicing::begins_slice, crate::proofs::Slicing::goes_more, crate::proofs::Slicing::has_ended))]
    pub(crate) fn slice(&mut self, moves: u32) -> Sliced
        ensures { Goes self.old (event.Slice moves) (Ok (applied.Slice result)) self.new }
    {
        let mut moved = 0;
        for _ in 0..2 * u64::from(moves) + 4 {
            let step = self.go_on(moves - moved);
            moved += step.moved;
            if let Some(ending) = step.ending {
                return Sliced { moved, ending };
            }
        }
        Sliced {
            moved,
            ending: SliceEnd::Spent,
        }
    }

    // Some beats of a slice that has `left` moves to make: as many as have nothing to tell, or one other.
    fn go_on(&mut self, left: u32) -> Step
        ensures few { result.moved ≤ left }
        ensures stretches { (moved : ℕ) → Stretches (moved + left) moved self.old result self.new }
    {
        match self.next(left > 0) {
            Next::Tell(tick) => self.step_telling(tick),
            Next::End(ending) => Step::ends(ending),
            Next::Stop(why) => self.step_stopping(why, left > 0),
            Next::Check => self.step_checking(left > 0),
            Next::Advance => self.step_advancing(left),
        }
    }

    // What comes next, where the slice has more moves to make, or not.
    fn next(&self, more: bool) -> Next
        ensures { Decides result self.now more }
    {
        let Some(program) = &self.program else {
            return Next::End(SliceEnd::Idle);
        };
        if let Some(tick) = program.owed() {
            return Next::Tell(tick);
        }
        if !self.is_given_time(program.run()) {
            return Next::End(SliceEnd::Idle);
        }
        if self.buffer.len() > FULL {
            return Next::End(SliceEnd::Full);
        }
        if let Some(mark) = program.mark() {
            return Next::Stop(mark.why());
        }
        if program.is_check_due() {
            return Next::Check;
        }
        if !more {
            return Next::End(SliceEnd::Spent);
        }
        if self.is_at_limit(program) {
            return Next::Stop(Why::Limit);
        }
        Next::Advance
    }

    // Whether as many instructions have retired as may; a program that goes back retires none.
    fn is_at_limit(&self, program: &Program) -> bool
        ensures { result ≡ spec.is_at_limit self.now.now program.now }
    {
        let machine = program.machine();
        !machine.turns_back() && machine.retired() >= self.limits.last_retired
    }

    // What is owed is told.
    #[tactic(auto, using(crate::proofs::Stretching::tells, crate::proofs::Stretching::lacks_telling))]
    fn step_telling(&mut self, tick: Tick) -> Step
        requires { owed_of self.old.now.debuggee.program ≡ Some tick }
        ensures moved { result.moved ≡ 0 }
        ensures stretches { (n moved : ℕ) → Stretches n moved self.old result self.new }
    {
        match self.tell(tick) {
            Ok(()) => Step {
                moved: 0,
                ending: ending_of(tick.outcome),
            },
            Err(_) => Step::ends(SliceEnd::NoMemory),
        }
    }

    // The program stops.
    #[tactic(auto, using(crate::proofs::Stretching::stops_there))]
    fn step_stopping(&mut self, why: Why, more: bool) -> Step
        requires { Decides (a_next.Stop why) self.old more }
        ensures moved { result.moved ≡ 0 }
        ensures stretches { (n moved : ℕ) → nat_lt moved n ≡ more
            → Stretches n moved self.old result self.new }
    {
        match self.stop(why) {
            Ok(()) => Step::ends(SliceEnd::Stopped),
            Err(_) => Step::ends(SliceEnd::NoMemory),
        }
    }

    // The check at the entry is made.
    #[tactic(auto, using(crate::proofs::Stretching::checks_there, crate::proofs::Stretching::is_due))]
    fn step_checking(&mut self, more: bool) -> Step
        requires { Decides a_next.Check self.old more }
        ensures moved { result.moved ≡ 0 }
        ensures stretches { (n moved : ℕ) → nat_lt moved n ≡ more
            → Stretches n moved self.old result self.new }
    {
        self.check();
        Step {
            moved: 0,
            ending: None,
        }
    }

    fn check(&mut self)
        requires due { (p : AProgram) → self.old.now.debuggee.program ≡ Some p
            → (p.machine.check_due ≡ true) × (p.owed ≡ None) }
        ensures { (p : AProgram) → self.old.now.debuggee.program ≡ Some p
            → self.new ≡ performed keepings (spec.becomes self.old.now (entered p) ∷ []) self.old }
    {
        if let Some(program) = &mut self.program {
            program.check_entry();
        }
    }

    // The program makes moves, at most `left`, until there is something to tell or no memory is left for one.
    #[tactic(auto, using(crate::proofs::Advancing::moves_all, crate::proofs::Advancing::moves_some, crate::proofs::Advancing::moves_then, crate::proofs::Advancing::moves_lack, crate::proofs::Advancing::is_before))]
    fn step_advancing(&mut self, left: u32) -> Step
        requires free { (p : AProgram) × IsFree p (keepings.see self.old) }
        requires some { 0 < left }
        ensures moved { result.moved ≤ left }
        ensures stretches { (moved : ℕ) → Stretches (moved + left) moved self.old result self.new }
    {
        let (most, advanced) = self.advance(left);
        match advanced {
            Advanced::Spent => Step {
                moved: most,
                ending: None,
            },
            Advanced::HasOutput(moved) => Step {
                moved,
                ending: None,
            },
            Advanced::Stops(moved, tick) => {
                let ending = self.meet(tick);
                Step { moved, ending }
            }
            Advanced::OutOfMemory(moved) => Step {
                moved,
                ending: Some(SliceEnd::NoMemory),
            },
        }
    }

    // The program is asked for moves: how many, at most `left`, and how it made them.
    fn advance(&mut self, left: u32) -> (u32, Advanced)
        requires free { (p : AProgram) × IsFree p (keepings.see self.old) }
        requires some { 0 < left }
        ensures { Moved left self.old result.0 result.1 self.new }
    {
        let last = self.limits.last_retired;
        let Some(program) = &mut self.program else {
            unreachable!()
        };
        let most = most_of(last, program.machine(), left);
        let advanced = program.advance(most);
        (most, advanced)
    }

    // The instruction that comes next traps, or ends the program: that is made and told.
    #[tactic(auto, using(crate::proofs::Stretching::meets_next, crate::proofs::Stretching::lacks_meeting))]
    fn meet(&mut self, tick: Tick) -> Option<SliceEnd>
        requires { (p : AProgram)
            × (IsFree p (keepings.see self.old)
            × ((next_tick p ≡ tick) × (stays tick.outcome ≡ true))) }
        ensures stretches { (n moved : ℕ) → nat_lt moved n ≡ true
            → Stretches n moved self.old (record { moved = 0; ending = result }) self.new }
        ensures some { result ≡ None → ⊥ }
    {
        match self.conclude(tick.outcome) {
            Ok(()) => ending_of(tick.outcome),
            Err(_) => Some(SliceEnd::NoMemory),
        }
    }

    // Whether a program that runs so is given time.
    pub(crate) fn is_given_time(&self, run: Run) -> bool
        ensures { result ≡ spec.is_runnable_by self.now.now.link run }
    {
        match self.link {
            Some(link) => matches!(run, Run::Running) && !link.terms.phase.is_configuring(),
            None => matches!(run, Run::Running),
        }
    }

    // Whether the editor has said all, and is told what the program does.
    fn is_told(&self) -> bool
        ensures { result ≡ is_active self.now.now.link }
    {
        match self.link {
            Some(link) => link.terms.phase.is_active(),
            None => false,
        }
    }

    /// What the program owes, if it owes something.
    pub(crate) fn owed(&self) -> Option<Tick>
        ensures { result ≡ owed_of self.now.now.debuggee.program }
    {
        match &self.program {
            Some(program) => program.owed(),
            None => None,
        }
    }

    /// What is owed is told: all of it or nothing. It needs memory only where there is an editor to tell.
    #[tactic(auto, using(crate::proofs::Told::tick_tells, crate::proofs::Told::told_where_some))]
    pub(crate) fn tell(&mut self, tick: Tick) -> Result<(), AllocError>
        ensures ok { OnOk result ((p : AProgram) → self.old.now.debuggee.program ≡ Some p
            → self.new ≡ performed keepings (spec.telling self.old.now p tick) self.old) }
        ensures err { OnErr result (self.new ≡ self.old) }
        ensures told { OnErr result (is_active self.old.now.link ≡ true) }
    {
        let draft = self.draft_tick(tick)?;
        self.queue_and(&draft, Made::Told(tick))
    }

    // What was drafted is queued, and this is made of the program: both or none.
    fn queue_and(&mut self, draft: &Draft, made: Made) -> Result<(), AllocError>
        ensures ok { OnOk result ((p : AProgram) → self.old.now.debuggee.program ≡ Some p
            → self.new ≡ queued_with draft.now (after_made made p) self.old) }
        ensures err { OnErr result (self.new ≡ self.old) }
        ensures some { OnErr result (draft.now.bytes ≡ [] → ⊥) }
    {
        self.buffer.push(draft.bytes())?;
        if let Some(program) = &mut self.program {
            make(program, made);
        }
        let _ = self.settle_told(draft.seq());
        Ok(())
    }

    // What is told of a tick, written.
    fn draft_tick(&self, tick: Tick) -> Result<Draft, AllocError>
        ensures ok { IfOk result (λ d. (p : AProgram) → self.now.now.debuggee.program ≡ Some p
            → d ≡ draft_told self.now.now.limits self.now.now.link
            (tick_events tick (logged p.machine.lists) p.machine.lists.ids)) }
        ensures empty { is_active self.now.now.link ≡ false → IfOk result (λ d. d.bytes ≡ []) }
        ensures told { OnErr result (is_active self.now.now.link ≡ true) }
    {
        let mut draft = Draft::new(self.alloc, self.limits, self.link);
        if !self.is_told() {
            return Ok(draft);
        }
        self.add_tick(&mut draft, tick)?;
        Ok(draft)
    }

    // Adds what is told of a tick.
    #[tactic(auto, using(crate::proofs::Told::adds_tick))]
    fn add_tick(&self, draft: &mut Draft, tick: Tick) -> Result<(), AllocError>
        ensures { OnOk result ((p : AProgram) → self.now.now.debuggee.program ≡ Some p
            → draft.new ≡ drafted_all self.now.now.limits
            (tick_events tick (logged p.machine.lists) p.machine.lists.ids) draft.old) }
    {
        self.add_printed(draft, tick.printed)?;
        self.add_logs(draft)?;
        self.add_outcome(draft, tick.outcome)
    }

    // Adds the event of a number that was printed, if one was.
    fn add_printed(&self, draft: &mut Draft, printed: Option<i32>) -> Result<(), AllocError>
        ensures { OnOk result (draft.new
            ≡ drafted_all self.now.now.limits (printed_events printed) draft.old) }
    {
        match printed {
            Some(number) => {
                let event = telling::output_event(self.alloc, number)?;
                draft.add_event(self.limits, event)
            }
            None => Ok(()),
        }
    }

    // Adds what the logpoints say that the last look reached, an event each.
    fn add_logs(&self, draft: &mut Draft) -> Result<(), AllocError>
        ensures { OnOk result ((p : AProgram) → self.now.now.debuggee.program ≡ Some p
            → draft.new ≡ drafted_all self.now.now.limits
            (map log_event (logged p.machine.lists)) draft.old) }
    {
        let Some(program) = &self.program else {
            return Ok(());
        };
        let breaks = program.machine().breaks();
        for place in breaks.logs() {
            if let Some(text) = breaks.log_text(*place) {
                let event = telling::log_event(self.alloc, text)?;
                draft.add_event(self.limits, event)?;
            }
        }
        Ok(())
    }

    // Adds the events of what a tick came to, with the breakpoints that it hit.
    fn add_outcome(&self, draft: &mut Draft, outcome: Outcome) -> Result<(), AllocError>
        ensures { OnOk result ((p : AProgram) → self.now.now.debuggee.program ≡ Some p
            → draft.new ≡ drafted_all self.now.now.limits
            (outcome_events outcome p.machine.lists.ids) draft.old) }
    {
        match &self.program {
            Some(program) => {
                let ids = program.machine().breaks().ids();
                add_outcome_at(draft, self.alloc, self.limits, outcome, ids)
            }
            None => Ok(()),
        }
    }

    // The program stops, and the editor is told: both or none. It needs memory only where there is an editor to tell.
    #[tactic(auto, using(crate::proofs::Told::stop_tells, crate::proofs::Told::told_somebody))]
    fn stop(&mut self, why: Why) -> Result<(), AllocError>
        ensures ok { OnOk result ((p : AProgram) → self.old.now.debuggee.program ≡ Some p
            → self.new ≡ performed keepings (spec.halts self.old.now p why []) self.old) }
        ensures err { OnErr result (self.new ≡ self.old) }
        ensures told { OnErr result (is_active self.old.now.link ≡ true) }
    {
        let draft = self.draft_stop(why)?;
        self.queue_and(&draft, Made::Stopped(why))
    }

    // A stop that no breakpoint made, written.
    fn draft_stop(&self, why: Why) -> Result<Draft, AllocError>
        ensures ok { IfOk result
            (λ d. d ≡ draft_told self.now.now.limits self.now.now.link (stop_event why [] ∷ [])) }
        ensures told { OnErr result (is_active self.now.now.link ≡ true) }
    {
        let mut draft = Draft::new(self.alloc, self.limits, self.link);
        if self.is_told() {
            let event = telling::stop_event(self.alloc, why, &[])?;
            draft.add_event(self.limits, event)?;
        }
        Ok(draft)
    }

    // What the instruction that comes next comes to is made, and the editor is told: both or none. It needs memory only where there is
    // an editor to tell.
    #[tactic(auto, using(crate::proofs::Told::end_tells, crate::proofs::Told::told_somebody))]
    fn conclude(&mut self, outcome: Outcome) -> Result<(), AllocError>
        requires { stays outcome ≡ true }
        ensures ok { OnOk result ((p : AProgram) → self.old.now.debuggee.program ≡ Some p
            → self.new ≡ performed keepings (spec.concludes self.old.now p outcome []) self.old) }
        ensures err { OnErr result (self.new ≡ self.old) }
        ensures told { OnErr result (is_active self.old.now.link ≡ true) }
    {
        let draft = self.draft_outcome(outcome)?;
        self.queue_and(&draft, Made::Met(outcome))
    }

    // The events of what a tick came to that hit no breakpoint, written, where the editor is told.
    fn draft_outcome(&self, outcome: Outcome) -> Result<Draft, AllocError>
        ensures ok { IfOk result
            (λ d. d ≡ draft_told self.now.now.limits self.now.now.link
            (outcome_events outcome [])) }
        ensures told { OnErr result (is_active self.now.now.link ≡ true) }
    {
        let mut draft = Draft::new(self.alloc, self.limits, self.link);
        if !self.is_told() {
            return Ok(draft);
        }
        add_outcome_at(&mut draft, self.alloc, self.limits, outcome, &[])?;
        Ok(draft)
    }
}

// Adds the events of what a tick came to, where it hit the breakpoints with these ids.
fn add_outcome_at(
    draft: &mut Draft,
    alloc: Global,
    limits: Limits,
    outcome: Outcome,
    ids: &[u32],
) -> Result<(), AllocError>
    ensures { OnOk result (draft.new
        ≡ drafted_all limits (outcome_events outcome ids.now) draft.old) }
{
    match outcome {
        Outcome::Went => Ok(()),
        Outcome::Stopped(reason) => {
            let event = telling::stop_event(alloc, Why::Met(reason), ids)?;
            draft.add_event(limits, event)
        }
        Outcome::Ended(code) => add_exit(draft, limits, code),
    }
}

// Adds the end of the program.
fn add_exit(draft: &mut Draft, limits: Limits, code: i32) -> Result<(), AllocError>
    ensures { OnOk result (draft.new ≡ drafted_all limits (exit_events code) draft.old) }
{
    draft.add_event(limits, telling::exit_event(code))?;
    draft.add_event(limits, Event::Terminated)
}

// How many moves may be made of those that are left: all where the program goes back, and else by how many instructions may
// retire and have.
fn most_of(last: u64, machine: &Runner, left: u32) -> u32
    requires some { 0 < left }
    requires few { turns_back machine.now.goal ≡ false → machine.now.retired < last }
    ensures some { 1 ≤ result }
    ensures few { result ≤ left }
    ensures sum { turns_back machine.now.goal ≡ false → machine.now.retired + result ≤ last }
{
    if machine.turns_back() {
        return left;
    }
    let few = last - machine.retired();
    if few < u64::from(left) {
        few as u32
    } else {
        left
    }
}

// How what a tick came to ends a slice.
fn ending_of(outcome: Outcome) -> Option<SliceEnd>
    ensures { result ≡ spec.ending_of outcome }
{
    match outcome {
        Outcome::Went => None,
        Outcome::Stopped(_) => Some(SliceEnd::Stopped),
        Outcome::Ended(_) => Some(SliceEnd::Ended),
    }
}

// This is made of a program.
fn make(program: &mut Program, made: Made)
    ensures { program.new ≡ after_made made program.old }
{
    match made {
        Made::Told(tick) => {
            program.tell();
            conclude(program, tick.outcome);
        }
        Made::Stopped(why) => program.stop(why),
        Made::Met(outcome) => conclude(program, outcome),
    }
}

// What a tick came to is made.
fn conclude(program: &mut Program, outcome: Outcome)
    ensures { program.new ≡ concluded outcome program.old }
{
    match outcome {
        Outcome::Went => {}
        Outcome::Stopped(reason) => program.stop(Why::Met(reason)),
        Outcome::Ended(code) => program.end(Some(code)),
    }
}
