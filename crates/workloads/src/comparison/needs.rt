// The table of needs beside a plain list of holds.
use crate::comparison::sequence::Sequence;
use crate::comparison::tally::Tally;
use abstract_locks::NeedTable;
use calls::{Mode, Need, Refusal};
use std::alloc::{AllocError, Global};

// How many calls are made.
const CALLS: u64 = 10_000;

// How many owners, collections and keys there are: few, so that needs meet often.
const OWNERS: u32 = 8;

const COLLECTIONS: u32 = 3;

const KEYS: u32 = 200;

// The needs that owners hold on collections, in the order in which they came.
#[derive(Drop)]
struct PlainTable {
    holds: Vec<(u64, u8, Need)>,
}

impl PlainTable {
    fn new(alloc: Global) -> Self {
        Self {
            holds: Vec::new(alloc),
        }
    }

    // The least other owner of a need that conflicts; where there is none, the need is held.
    fn ask(&mut self, owner: u64, at: u8, need: Need) -> Result<Option<u64>, AllocError> {
        let blocker = self
            .holds
            .iter()
            .filter(|hold| hold.0 != owner && hold.1 == at && hold.2.conflicts(&need))
            .map(|hold| hold.0)
            .min();
        if blocker.is_none() {
            self.holds.push((owner, at, need))?;
        }
        Ok(blocker)
    }

    fn give_up(&mut self, owner: u64) {
        self.holds.retain(|hold| hold.0 != owner);
    }
}

// The next need of the sequence: a key, a few keys, or all.
fn next_need(sequence: &mut Sequence) -> Need {
    let low = u64::from(sequence.below(KEYS));
    let mode = match sequence.below(5) {
        0 => Mode::Read,
        1 => Mode::Write,
        2 => Mode::Add,
        3 => Mode::Take,
        _ => Mode::Give,
    };
    match sequence.below(20) {
        0 => Need {
            low: 0,
            high: u64::MAX,
            mode,
        },
        1..=4 => Need {
            low,
            high: low + u64::from(sequence.below(20)),
            mode,
        },
        _ => Need {
            low,
            high: low,
            mode,
        },
    }
}

// Whom a need that the table was asked for has to wait for.
fn ask(table: &mut NeedTable, owner: u64, at: u8, need: Need) -> Result<Option<u64>, Refusal> {
    match table.ask(owner, at, need) {
        Ok(()) => Ok(None),
        Err(Refusal::Busy(other)) => Ok(Some(other)),
        Err(refusal) => Err(refusal),
    }
}

// Asks both for the next need of the sequence, and notes whether they answer the same.
fn ask_both(
    table: &mut NeedTable,
    plain: &mut PlainTable,
    sequence: &mut Sequence,
    owner: u64,
    tally: &mut Tally,
) -> Result<(), Refusal> {
    let at = sequence.below(COLLECTIONS) as u8;
    let need = next_need(sequence);
    let blocker = plain.ask(owner, at, need)?;
    if blocker.is_some() {
        tally.note_refused();
    }
    tally.note(ask(table, owner, at, need)? == blocker);
    Ok(())
}

/// Asks both for needs, and lets owners give theirs up in between.
pub(crate) fn compare(alloc: Global) -> Result<Tally, Refusal> {
    let (mut table, mut plain) = (NeedTable::new(alloc), PlainTable::new(alloc));
    let mut sequence = Sequence::new(2);
    let mut tally = Tally::new();
    for _ in 0..CALLS {
        let owner = u64::from(sequence.below(OWNERS));
        if sequence.below(12) == 0 {
            table.give_up(owner);
            plain.give_up(owner);
        }
        ask_both(&mut table, &mut plain, &mut sequence, owner, &mut tally)?;
    }
    Ok(tally)
}
