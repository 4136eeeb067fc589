// A plain store of one thread.
use calls::{Bytes, Call, Refusal, Reply};
use std::alloc::Global;
use std::collections::{BTreeMap, BTreeSet};

/// A store of one thread: a set, a map, a queue, a counter, a pool, a stock and quotas.
#[derive(Drop)]
pub struct Plain {
    set: BTreeSet<u64>,
    map: BTreeMap<u64, u8>,
    queue: Vec<(u64, u64)>,
    counter: i128,
    taken: BTreeSet<u64>,
    stock: u64,
    quotas: BTreeMap<u64, u64>,
}

impl Plain {
    /// A store that holds nothing.
    pub fn new(alloc: Global) -> Plain {
        Plain {
            set: BTreeSet::new(alloc),
            map: BTreeMap::new(alloc),
            queue: Vec::new(alloc),
            counter: 0,
            taken: BTreeSet::new(alloc),
            stock: 0,
            quotas: BTreeMap::new(alloc),
        }
    }

    /// Runs a transaction whole. How many of its calls it answers otherwise than they were
    /// answered.
    pub fn replay(&mut self, calls: &[(Call, Reply)]) -> Result<usize, Refusal> {
        let mut count = 0usize;
        for (call, reply) in calls {
            if !self.answers(call, reply)? {
                count = count.wrapping_add(1);
            }
        }
        self.run_laters(calls);
        Ok(count)
    }

    // Frees the identifiers that a transaction gave back, and fills the stock, as it is committed.
    fn run_laters(&mut self, calls: &[(Call, Reply)]) {
        for (call, reply) in calls {
            match (call, reply) {
                (Call::Release(id), Reply::Queued) => {
                    let _was_taken = self.taken.remove(id);
                }
                (Call::Fill(amount), Reply::Done) => {
                    self.stock = self.stock.wrapping_add(*amount);
                }
                _ => {}
            }
        }
    }

    // Runs a call. Whether the reply is the one that it gets.
    fn answers(&mut self, call: &Call, reply: &Reply) -> Result<bool, Refusal> {
        match call {
            Call::Contains(key) => Ok(is_yes(reply, self.set.contains(key))),
            Call::SetAdd(key) => Ok(is_yes(reply, self.set.insert(*key)?)),
            Call::SetRemove(key) => Ok(is_yes(reply, self.set.remove(key))),
            Call::Pick => Ok(match reply {
                Reply::Id(key) => self.set.remove(key),
                Reply::Nothing => self.set.is_empty(),
                _ => false,
            }),
            Call::Get(_) | Call::Put(_, _) | Call::MapRemove(_) | Call::Ceiling(_) => {
                self.answers_of_map(call, reply)
            }
            Call::QueueAdd(_, _) | Call::Take | Call::Least => self.answers_of_queue(call, reply),
            Call::Bump(by) => {
                self.counter = self.counter.wrapping_add(i128::from(*by));
                Ok(matches!(reply, Reply::Done))
            }
            Call::Read => Ok(matches!(reply, Reply::Total(total) if *total == self.counter)),
            Call::Draw => match reply {
                Reply::Id(id) => Ok(self.taken.insert(*id)?),
                _ => Ok(false),
            },
            Call::Release(id) => Ok(match reply {
                Reply::Queued => self.taken.contains(id),
                Reply::Absent => !self.taken.contains(id),
                _ => false,
            }),
            Call::Spend(_) | Call::Level | Call::Fill(_) => Ok(self.answers_of_stock(call, reply)),
            Call::QuotaSpend(_, _) | Call::QuotaLevel(_) | Call::QuotaFill(_, _) => {
                self.answers_of_quotas(call, reply)
            }
            _ => Ok(false),
        }
    }

    fn answers_of_stock(&mut self, call: &Call, reply: &Reply) -> bool {
        match call {
            Call::Spend(amount) => match self.stock.checked_sub(*amount) {
                Some(left) => {
                    self.stock = left;
                    is_yes(reply, true)
                }
                None => is_yes(reply, false),
            },
            Call::Level => {
                matches!(reply, Reply::Total(total) if *total == i128::from(self.stock))
            }
            _ => matches!(reply, Reply::Done),
        }
    }

    fn answers_of_quotas(&mut self, call: &Call, reply: &Reply) -> Result<bool, Refusal> {
        match call {
            Call::QuotaSpend(key, amount) => match self.level(*key).checked_sub(*amount) {
                Some(left) => {
                    self.quotas.insert(*key, left)?;
                    Ok(is_yes(reply, true))
                }
                None => Ok(is_yes(reply, false)),
            },
            Call::QuotaLevel(key) => {
                let level = i128::from(self.level(*key));
                Ok(matches!(reply, Reply::Total(total) if *total == level))
            }
            Call::QuotaFill(key, amount) => {
                let level = self.level(*key).wrapping_add(*amount);
                self.quotas.insert(*key, level)?;
                Ok(matches!(reply, Reply::Done))
            }
            _ => Ok(false),
        }
    }

    // The amount of the quota at the key.
    fn level(&self, key: u64) -> u64 {
        self.quotas.get(&key).copied().unwrap_or(0)
    }

    fn answers_of_map(&mut self, call: &Call, reply: &Reply) -> Result<bool, Refusal> {
        match call {
            Call::Get(key) => Ok(is_value(reply, self.map.get(key).copied())),
            Call::Put(key, value) => {
                let old = self.map.insert(*key, byte_of(value))?;
                Ok(is_value(reply, old))
            }
            Call::MapRemove(key) => Ok(is_value(reply, self.map.remove(key))),
            Call::Ceiling(key) => Ok(match (self.map.range(*key..).next(), reply) {
                (None, Reply::Nothing) => true,
                (Some((at, byte)), Reply::Entry(found, value)) => {
                    at == found && *byte == byte_of(value)
                }
                _ => false,
            }),
            _ => Ok(false),
        }
    }

    fn answers_of_queue(&mut self, call: &Call, reply: &Reply) -> Result<bool, Refusal> {
        if let Call::QueueAdd(priority, tag) = call {
            self.queue.push((*priority, *tag))?;
            self.queue.sort_unstable_by(|one, other| other.cmp(one));
            return Ok(matches!(reply, Reply::Done));
        }
        let least = match call {
            Call::Take => self.queue.pop(),
            _ => self.queue.last().copied(),
        };
        Ok(match (least, reply) {
            (None, Reply::Nothing) => true,
            (Some((priority, tag)), Reply::Item(first, second)) => {
                priority == *first && tag == *second
            }
            _ => false,
        })
    }
}

// Whether the reply says yes where it should, and no else.
fn is_yes(reply: &Reply, should: bool) -> bool {
    match reply {
        Reply::Yes => should,
        Reply::No => !should,
        _ => false,
    }
}

// Whether the reply tells the value, or that there is none.
fn is_value(reply: &Reply, value: Option<u8>) -> bool {
    match (reply, value) {
        (Reply::Value(told), Some(byte)) => byte_of(told) == byte,
        (Reply::Nothing, None) => true,
        _ => false,
    }
}

// The byte of a value of one byte.
fn byte_of(value: &Bytes) -> u8 {
    value.as_slice().first().copied().unwrap_or(0)
}
