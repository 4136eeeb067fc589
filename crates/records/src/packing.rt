// Records in whole blocks, for an image.
ghost use Rattle.std.specs.Prelude.{◌≡◌, ◌<◌, [], ◌∷◌, ◌++◌, length, OnOk, IfOk};
ghost use Rattle.std.specs.Prelude.{IsOkUnless};
ghost use Rattle.std.specs.List.{AllByRecursion};
ghost use Rattle.records.specs.Records.{Fits};
ghost use Rattle.records.specs.Drafts.{ArePacked};
ghost use Rattle.records.specs.Packings.{AreWhole, joined};

use crate::draft::Draft;
use crate::{Record, encoded_len};
use calls::Refusal;
use calls::limits::MAX_BODY;
use std::alloc::Global;
use std::collections::VecDeque;
use std::marker::Model;
use std::mem;

/// Records written one behind another into blocks, each as full as it can be. Contracts see the
/// records of each block.
#[derive(Drop)]
pub struct Packer {
    alloc: Global,
    // blocks that the next record did not fit in, and the one that is filled now
    full: VecDeque<Draft>,
    last: Draft,
}

impl Model for Packer {
    ghost use Rattle.std.specs.Prelude.{List, map, ◌++◌, ◌∷◌, []};
    ghost use Rattle.records.specs.declared.record.Record.{Record};
    ghost use Rattle.records.specs.Drafts.{ArePacked};

    ghost Value = { List (List Record) };

    ghost view = { λ p. map (λ d. d.records) p.full.items ++ p.last.records ∷ [] };

    ghost invariant = { λ p. ArePacked (map (λ d. d.records) p.full.items ++ p.last.records ∷ []) };
}

impl Packer {
    /// No record. It takes no memory.
    pub fn new(alloc: Global) -> Self
        ensures { joined result ≡ [] }
    {
        Self {
            alloc,
            full: VecDeque::new(alloc),
            last: Draft::new(alloc),
        }
    }

    /// Writes the record behind the others, into the block that is filled now, or into a new one
    /// where it does not fit.
    ///
    /// NoMemory, behind which the records may be dropped only.
    pub fn push(&mut self, entry: Record) -> Result<(), Refusal>
        requires { Fits entry }
        ensures written { OnOk result (joined self.new ≡ joined self.old ++ entry ∷ []) }
        ensures refusal { IsOkUnless result Refusal.NoMemory }
    {
        let written = self.write(&entry);
        drop(entry);
        written
    }

    /// Writes the record behind the others, as `push` does. It is not taken.
    ///
    /// NoMemory, behind which the records may be dropped only.
    pub fn write(&mut self, entry: &Record) -> Result<(), Refusal>
        requires { Fits entry.now }
        ensures written { OnOk result (joined self.new ≡ joined self.old ++ entry.now ∷ []) }
        ensures refusal { IsOkUnless result Refusal.NoMemory }
    {
        let len = encoded_len(entry);
        if self.last.len() + len <= MAX_BODY {
            self.last.reserve(len)?;
            self.last.push(entry);
            return Ok(());
        }
        self.full.reserve(1)?;
        let mut next = Draft::new(self.alloc);
        next.reserve(len)?;
        next.push(entry);
        let filled = mem::replace(&mut self.last, next);
        self.full.push_back_reserved(filled);
        Ok(())
    }

    /// The blocks, each of them whole. No block is copied.
    ///
    /// NoMemory for the list of them.
    pub fn finish(self) -> Result<VecDeque<Vec<u8>>, Refusal>
        requires { 0 < length (joined self) }
        ensures whole { IfOk result (λ blocks. AreWhole blocks.items self × ArePacked self ×
            AllByRecursion (λ g. 0 < length g) self) }
        ensures refusal { IsOkUnless result Refusal.NoMemory }
    {
        let Self {
            alloc,
            mut full,
            last,
        } = self;
        full.push_back(last)?;
        let mut made = VecDeque::new(alloc);
        while let Some(draft) = full.pop_front() {
            made.push_back(draft.into_block())?;
        }
        Ok(made)
    }
}
