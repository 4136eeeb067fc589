// The records that wait for a block.
ghost use Rattle.std.specs.Prelude.{◌≡◌, ℕ, ◌+◌, ◌<◌, ◌≤◌, ◌^◌, ◌⊎◌, [], ◌∷◌, ◌++◌, ◌↔◌, IsTrue};
ghost use Rattle.std.specs.Prelude.{length, Contains, OnOk, OnErr, IfSome, IsNone, IsOk};
ghost use Rattle.std.specs.Prelude.{IsOkUnless};
ghost use Rattle.records.specs.Acts.{places};
ghost use Rattle.calls.specs.Rules.{Askable};
ghost use Rattle.calls.specs.Limits.{max_body};
ghost use Rattle.records.specs.Records.{record_of_call, spelled, Fits, FitsCall, FitsReply};
ghost use Rattle.records.specs.Waits.{waiting, freezes, Suits, HasRoomFor, HasBlockRoom};
ghost use Rattle.records.specs.Cuts.{CutsOff, IsNextBlock};

use crate::block::Outbox;
use crate::draft::{Draft, Handed, NextBlock};
use crate::{Record, call_len, encoded_len};
use calls::limits::MAX_BODY;
use calls::{Call, Refusal, Reply};
use std::alloc::Global;
use std::collections::VecDeque;
use std::marker::Model;
use std::mem;

/// A block into which no more records go: the next one did not fit, or a freeze sealed it.
#[derive(Drop)]
pub(crate) struct Filled {
    draft: Draft,
    sealed: bool,
}

/// The records that wait for a block, each spelled once into the block in which it will be handed
/// over.
///
/// Contracts see the records that wait, in order, the LSNs that no block may cross, and how many
/// records were handed over before.
pub struct Pending {
    alloc: Global,
    // blocks into which no more records go, the one that is filled now, and room for one more
    full: VecDeque<Filled>,
    last: Draft,
    spare: Draft,
    // how many records they are
    count: usize,
    handed: Handed,
}

// Written out, so that the crates above call it in place of proving it again.
impl Drop for Pending {
    fn drop(self) {
        let Self {
            alloc: _alloc,
            full,
            last,
            spare,
            count: _count,
            handed: _handed,
        } = self;
        drop(full);
        drop(last);
        drop(spare);
    }
}

impl Model for Pending {
    ghost use Rattle.std.specs.VecDeque.{deque_capacity};
    ghost use Rattle.records.specs.Waits.{Waiting, IsCounted};

    ghost Value = { Waiting };

    ghost view = { λ p. record {
      full = p.full.items;
      last = p.last;
      spare = p.spare;
      most = deque_capacity p.full;
      handed = p.handed;
    } };

    ghost invariant = { λ p. IsCounted
        (record {
          full = p.full.items;
          last = p.last;
          spare = p.spare;
          most = deque_capacity p.full;
          handed = p.handed;
        }) p.count };
}

impl Pending {
    /// No record. It takes no memory.
    pub fn new(alloc: Global) -> Self
        ensures records { waiting result ≡ [] }
        ensures freezes { freezes result ≡ [] }
        ensures handed { result.handed ≡ record { end = 0; place = 0 } }
    {
        Self {
            alloc,
            full: VecDeque::new(alloc),
            last: Draft::new(alloc),
            spare: Draft::new(alloc),
            count: 0,
            handed: Handed { end: 0, place: 0 },
        }
    }

    /// How many records wait.
    pub fn len(&self) -> usize
        ensures { result ≡ length (waiting self.now) }
    {
        self.count
    }

    // Whether a record of the length fits in the block that is filled now.
    fn fits(&self, len: usize) -> bool
        requires { len ≤ max_body }
        ensures { IsTrue result ↔ Suits self.now len }
    {
        self.last.len() + len <= MAX_BODY
    }

    /// Makes room for a record of the length, so that `push` can write it: in the block that is
    /// filled now, or in one more where it does not fit there.
    ///
    /// NoMemory, which leaves the records, and comes only where there was no room.
    pub fn reserve(&mut self, len: usize) -> Result<(), Refusal>
        requires { len ≤ max_body }
        ensures room { OnOk result (HasRoomFor self.new len) }
        ensures records { waiting self.new ≡ waiting self.old }
        ensures freezes { freezes self.new ≡ freezes self.old }
        ensures handed { self.new.handed ≡ self.old.handed }
        ensures refusal { IsOkUnless result Refusal.NoMemory }
        ensures succeeds { HasRoomFor self.old len → IsOk result }
    {
        if self.fits(len) {
            return self.last.reserve(len);
        }
        self.full.reserve(1)?;
        self.spare.reserve(len)
    }

    /// Writes the record behind the others, in the room that was made for it. It takes no memory.
    pub fn push(&mut self, entry: Record)
        requires fits { Fits entry }
        requires room { HasRoomFor self.old (length (spelled entry)) }
        requires few { length (waiting self.old) < 2 ^ 32 }
        ensures records { waiting self.new ≡ waiting self.old ++ entry ∷ [] }
        ensures freezes { freezes self.new ≡ freezes self.old }
        ensures handed { self.new.handed ≡ self.old.handed }
    {
        let fits = self.fits(encoded_len(&entry));
        self.count += 1;
        if fits {
            self.last.push(&entry);
            drop(entry);
            return;
        }
        self.spare.push(&entry);
        drop(entry);
        let next = mem::replace(&mut self.spare, Draft::new(self.alloc));
        let draft = mem::replace(&mut self.last, next);
        self.full.push_back_reserved(Filled {
            draft,
            sealed: false,
        });
    }

    /// Writes the record of a call behind the others, from its parts, in the room that was made for
    /// it. No call is copied, and no memory is taken.
    pub fn push_call(&mut self, number: u64, at: u8, asked: &Call, answer: &Reply)
        requires askable { Askable asked.now }
        requires asked { FitsCall asked.now }
        requires answer { FitsReply answer.now }
        requires room { HasRoomFor self.old
            (length (spelled (record_of_call number at asked.now answer.now))) }
        requires few { length (waiting self.old) < 2 ^ 32 }
        ensures records { waiting self.new ≡
            waiting self.old ++ record_of_call number at asked.now answer.now ∷ [] }
        ensures freezes { freezes self.new ≡ freezes self.old }
        ensures handed { self.new.handed ≡ self.old.handed }
    {
        let fits = self.fits(call_len(asked, answer));
        self.count += 1;
        if fits {
            self.last.push_call(number, at, asked, answer);
            return;
        }
        self.spare.push_call(number, at, asked, answer);
        let next = mem::replace(&mut self.spare, Draft::new(self.alloc));
        let draft = mem::replace(&mut self.last, next);
        self.full.push_back_reserved(Filled {
            draft,
            sealed: false,
        });
    }

    /// The LSN after the last record, counted since the store was opened.
    pub fn lsn(&self) -> u64
        requires { self.now.handed.end + length (waiting self.now) < 2 ^ 64 }
        ensures { result ≡ self.now.handed.end + length (waiting self.now) }
    {
        self.handed.end + self.count as u64
    }

    /// The block that `cut` hands over next: how many records it has, and how many bytes spell
    /// them. None where no record waits. It takes no memory.
    pub fn next_block(&self) -> Option<NextBlock>
        ensures none { IsNone result ↔ (waiting self.now ≡ []) }
        ensures next { IfSome result (IsNextBlock (waiting self.now) (freezes self.now)
            self.now.handed.end) }
    {
        if let Some(first) = self.full.front() {
            return Some(first.draft.size());
        }
        if self.last.is_empty() {
            return None;
        }
        Some(self.last.size())
    }

    /// Makes room for a block more, so that `seal` is not refused.
    ///
    /// NoMemory, which leaves the records.
    pub fn reserve_seal(&mut self) -> Result<(), Refusal>
        ensures room { OnOk result (HasBlockRoom self.new) }
        ensures records { waiting self.new ≡ waiting self.old }
        ensures freezes { freezes self.new ≡ freezes self.old }
        ensures handed { self.new.handed ≡ self.old.handed }
        ensures refusal { IsOkUnless result Refusal.NoMemory }
    {
        Ok(self.full.reserve(1)?)
    }

    /// Seals the block that is filled now, where there is a record in it: no later one goes into
    /// it, so no block crosses the LSN behind the last record.
    ///
    /// NoMemory, which changes nothing, and comes only where no room is reserved.
    pub fn seal(&mut self) -> Result<(), Refusal>
        ensures records { waiting self.new ≡ waiting self.old }
        ensures handed { self.new.handed ≡ self.old.handed }
        ensures sealed { OnOk result ((f : ℕ) →
            Contains (freezes self.new) f ↔
            (Contains (freezes self.old) f ⊎
            ((f ≡ self.old.handed.end + length (waiting self.old)) ×
            (0 < length (waiting self.old))))) }
        ensures same { OnErr result (freezes self.new ≡ freezes self.old) }
        ensures refusal { IsOkUnless result Refusal.NoMemory }
        ensures succeeds { HasBlockRoom self.old → IsOk result }
    {
        if self.last.is_empty() {
            return Ok(());
        }
        self.full.reserve(1)?;
        let draft = mem::replace(&mut self.last, Draft::new(self.alloc));
        self.full.push_back_reserved(Filled {
            draft,
            sealed: true,
        });
        Ok(())
    }

    /// Hands the first records over as one block, as many whole ones as fit in it and as come
    /// before the next freeze, and answers true; false where no record waits. No record is copied,
    /// and no memory is taken.
    ///
    /// NotNow, only where a record waits and the outbox was full at a moment of the call. It leaves
    /// the records.
    pub fn cut<O: Outbox>(&mut self, out: &mut O) -> Result<bool, Refusal>
        requires end { self.old.handed.end + length (waiting self.old) < 2 ^ 64 }
        requires place { self.old.handed.place + places (waiting self.old) < 2 ^ 64 }
        ensures { CutsOff (waiting self.old) (freezes self.old) self.old.handed.end
            self.old.handed.place (λ bs. O.sends out.old bs out.new) (O.was_full out.old out.new)
            result (waiting self.new) (freezes self.new) self.new.handed.end
            self.new.handed.place }
    {
        if let Some(first) = self.full.pop_front() {
            let Filled { draft, sealed } = first;
            let count = draft.count();
            if let Err(draft) = draft.offer(&mut self.handed, out) {
                self.full.push_front_reserved(Filled { draft, sealed });
                return Err(Refusal::NotNow);
            }
            self.count -= count;
            return Ok(true);
        }
        if self.last.is_empty() {
            return Ok(false);
        }
        let last = mem::replace(&mut self.last, Draft::new(self.alloc));
        if let Err(last) = last.offer(&mut self.handed, out) {
            self.last = last;
            return Err(Refusal::NotNow);
        }
        self.count = 0;
        Ok(true)
    }
}
