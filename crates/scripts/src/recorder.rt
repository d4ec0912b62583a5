//! What is done is recorded.
ghost use Rattle.std.specs.Option.{is_some};
ghost use Rattle.std.specs.Prelude.{◌≡◌, Some, None};
ghost use Rattle.scripts.specs.Telling.{Finishes, Tells, TellsTurn};
ghost use Rattle.scripts.specs.Writing.{lent_step};

use crate::copies::Copies;
use crate::progress::Progress;
use crate::telling::{finished, kept, told, told_copy};
use crate::writing::StepRef;
use std::alloc::Global;
use std::io::Write;

/// Records a session as a script: the line of each event is written before the call that tells it returns. Only a slice waits until
/// another event comes: the slices that follow it are added to it. Where a line is not written whole, an event has none, a copy is not
/// kept or no memory is left, the recording has ended: nothing more is written, and `is_recording` says so.
#[derive(Drop)]
pub struct ScriptRecorder<W, C> {
    alloc: Global,
    script: W,
    copies: C,
    progress: Option<Progress>,
}

impl<W: Write, C: Copies> ScriptRecorder<W, C> {
    /// A recorder to which nothing was told. A script that holds back what is written to it, as a `BufWriter` does, gets lines late.
    pub fn new(alloc: Global, script: W, copies: C) -> ScriptRecorder<W, C>
        ensures script { result.script ≡ script }
        ensures copies { result.copies ≡ copies }
        ensures progress { result.progress ≡ Some (record { copies = 0; waiting = None }) }
    {
        ScriptRecorder {
            alloc,
            script,
            copies,
            progress: Some(Progress {
                copies: 0,
                waiting: None,
            }),
        }
    }

    /// Whether the recording has not ended.
    pub fn is_recording(&self) -> bool
        ensures { result ≡ is_some self.now.progress }
    {
        self.progress.is_some()
    }

    /// What the script is written to.
    pub fn script(&self) -> &W
        ensures { result.now ≡ self.now.script }
    {
        &self.script
    }

    /// What keeps the copies.
    pub fn copies(&self) -> &C
        ensures { result.now ≡ self.now.copies }
    {
        &self.copies
    }

    /// Tells an event; a turn that was given a text is told by `tell_turn`.
    pub fn tell(&mut self, step: StepRef<'_>)
        ensures tells { Tells (lent_step step.entry) self.old.progress self.new.progress
            (W.contents self.old.script) (W.contents self.new.script) }
        ensures copies { self.new.copies ≡ self.old.copies }
    {
        let Some(progress) = self.progress else {
            return;
        };
        self.progress = told(self.alloc, &mut self.script, progress, step);
    }

    /// Tells a turn that was given this text: keeps a copy of it, and then tells a turn with the copy's path.
    pub fn tell_turn(&mut self, text: &[u8])
        ensures { TellsTurn text.now self.old.progress self.new.progress
            (W.contents self.old.script) (W.contents self.new.script)
            (C.kept self.old.copies) (C.kept self.new.copies) }
    {
        let Some(progress) = self.progress else {
            return;
        };
        self.progress = match kept(&mut self.copies, progress, text) {
            Some(counted) => told_copy(self.alloc, &mut self.script, counted),
            None => None,
        };
    }

    /// Ends the recording: writes the line of the slice that waits, and the last line, by which all for this connection is watched. It
    /// answers whether the script is whole.
    pub fn finish(&mut self, connection: u32) -> bool
        ensures written { Finishes connection result self.old.progress
            (W.contents self.old.script) (W.contents self.new.script) }
        ensures ended { self.new.progress ≡ None }
        ensures copies { self.new.copies ≡ self.old.copies }
    {
        let Some(progress) = self.progress else {
            return false;
        };
        self.progress = None;
        finished(self.alloc, &mut self.script, progress, connection)
    }
}
