//! The breakpoints of sources.
ghost use Rattle.std.specs.Prelude.{◌≡◌, IfOk, OnOk, [], bytes_eq, filter, find, not, option_copied, slice_get};
ghost use Rattle.mirror.specs.Kept.{source_in};

use crate::asked;
use crate::breakpoints::Breaks;
use byte_strings::Bytes;
use facts::BreakInfo;
use std::alloc::{AllocError, Global};
use std::marker::Model;

/// The breakpoints of a source.
#[derive(Drop)]
pub(crate) struct Listed {
    /// The path of the source.
    pub path: Bytes,
    /// The breakpoints.
    pub breaks: Breaks,
}

impl Listed {
    // A copy of it. It fails where no memory is left.
    fn copied(&self, alloc: Global) -> Result<Listed, AllocError>
        ensures { IfOk result (λ copy. copy ≡ self.now) }
    {
        Ok(Listed {
            path: asked::copied(alloc, self.path.as_slice())?,
            breaks: self.breaks.copied(alloc)?,
        })
    }
}

/// The breakpoints of each source whose list was told. A contract sees the lists.
#[derive(Drop)]
pub(crate) struct Sources {
    lists: Vec<Listed>,
}

impl Model for Sources {
    ghost use Rattle.std.specs.Prelude.{List};
    ghost use Rattle.mirror.specs.declared.sources.Listed.{Listed};

    ghost Value = { List Listed };

    ghost view = { λ s. s.lists.items };
}

impl Sources {
    ghost use Rattle.mirror.specs.Folding.{listed};

    /// No list was told. It takes no memory.
    pub(crate) fn new(alloc: Global) -> Sources
        ensures { result ≡ [] }
    {
        Sources {
            lists: Vec::new(alloc),
        }
    }

    /// The breakpoint at an index of the list of a path.
    pub(crate) fn get(&self, path: &[u8], index: usize) -> Option<BreakInfo>
        ensures { result ≡ slice_get (source_in self.now path.now) index }
    {
        match self.list(path) {
            Some(list) => list.breaks.get(index),
            None => None,
        }
    }

    /// A copy of these lists. It fails where no memory is left.
    pub(crate) fn copied(&self, alloc: Global) -> Result<Sources, AllocError>
        ensures { IfOk result (λ copy. copy ≡ self.now) }
    {
        let mut lists = Vec::with_capacity(alloc, self.lists.len())?;
        for list in &self.lists {
            lists.push(list.copied(alloc)?)?;
        }
        Ok(Sources { lists })
    }

    /// The list of a path is told. Where no memory is left, it may not be.
    pub(crate) fn tell(
        &mut self,
        alloc: Global,
        path: &[u8],
        breaks: Breaks,
    ) -> Result<(), AllocError>
        ensures { OnOk result (source_in self.new ≡ listed path.now breaks (source_in self.old)) }
    {
        let list = Listed {
            path: asked::copied(alloc, path)?,
            breaks,
        };
        self.drop_list(path);
        self.lists.push(list)?;
        Ok(())
    }

    // The list of a path, lent.
    fn list(&self, path: &[u8]) -> Option<&Listed>
        ensures { option_copied result ≡ find (λ list. bytes_eq list.path path.now) self.now }
    {
        self.lists.iter().find(|list| list.path.as_slice() == path)
    }

    // There is no list of a path any more.
    fn drop_list(&mut self, path: &[u8])
        ensures { self.new ≡ filter (λ list. not (bytes_eq list.path path.now)) self.old }
    {
        self.lists.retain(|list| list.path.as_slice() != path);
    }
}
