//! Frames of the call stack.
ghost use Rattle.std.specs.Prelude.{◌≡◌, IfOk, OnOk, [], map, option_copied};
ghost use Rattle.mirror.specs.Folding.{frame_of};
ghost use Rattle.mirror.specs.Kept.{at};

use crate::memory::after;
use facts::{FrameInfo, Name};
use replies::StackFrame;
use std::alloc::{AllocError, Global};
use std::collections::BTreeMap;
use std::marker::Model;

/// The frames that were told, by index. A contract sees the entries.
#[derive(Drop)]
pub(crate) struct Frames {
    map: BTreeMap<u32, FrameInfo>,
}

impl Model for Frames {
    ghost use Rattle.std.specs.Prelude.{List, ℕ};
    ghost use Rattle.facts.specs.declared.frame.FrameInfo.{FrameInfo};

    ghost Value = { List (ℕ × FrameInfo) };

    ghost view = { λ f. f.map.entries };
}

impl Frames {
    ghost use Rattle.mirror.specs.Folding.{over};

    /// None was told. It takes no memory.
    pub(crate) fn new(alloc: Global) -> Frames
        ensures { result ≡ [] }
    {
        Frames {
            map: BTreeMap::new(alloc),
        }
    }

    /// The frame at an index, lent.
    pub(crate) fn get(&self, index: u32) -> Option<&FrameInfo>
        ensures { option_copied result ≡ at self.now index }
    {
        self.map.get(&index)
    }

    /// A copy of these frames. It fails where no memory is left.
    pub(crate) fn copied(&self) -> Result<Frames, AllocError>
        ensures { IfOk result (λ copy. copy ≡ self.now) }
    {
        Ok(Frames {
            map: self.map.clone()?,
        })
    }

    /// Frames are told, from an index on. Where no memory is left, some may be.
    pub(crate) fn tell(
        &mut self,
        alloc: Global,
        first: u32,
        frames: &[StackFrame],
    ) -> Result<(), AllocError>
        ensures { OnOk result (at self.new ≡ over first (map frame_of frames.now) (at self.old)) }
    {
        let mut place = Some(first);
        for frame in frames {
            match place {
                Some(index) => {
                    self.map.insert(index, told_frame(alloc, frame)?)?;
                    place = after(index);
                }
                None => break,
            }
        }
        Ok(())
    }
}

// The frame that an entry tells.
fn told_frame(alloc: Global, frame: &StackFrame) -> Result<FrameInfo, AllocError>
    ensures { IfOk result (λ info. info ≡ frame_of frame.now) }
{
    Ok(FrameInfo {
        id: frame.id,
        address: frame.instruction_pointer_reference,
        name: Name::of(alloc, frame.name.as_str())?,
    })
}
