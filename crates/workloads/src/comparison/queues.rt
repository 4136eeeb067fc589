// The queue beside a plain list of pairs.
use crate::comparison::sequence::Sequence;
use crate::comparison::tally::Tally;
use calls::{Call, Refusal, Reply};
use collections::QueueCol;
use std::alloc::{AllocError, Global};

// How many calls are made.
const CALLS: u64 = 10_000;

// How many priorities, and tags of each, there are: few, so that pairs come often.
const PRIORITIES: u32 = 40;

const TAGS: u32 = 4;

// A queue as a plain list of its pairs, in no order.
#[derive(Drop)]
struct PlainQueue {
    pairs: Vec<(u64, u64)>,
}

impl PlainQueue {
    fn new(alloc: Global) -> Self {
        Self {
            pairs: Vec::new(alloc),
        }
    }

    // Makes a call, and answers what it gets; none where it plucks a pair that is not there.
    fn answer(&mut self, call: &Call) -> Result<Option<Reply>, AllocError> {
        match *call {
            Call::QueueAdd(priority, tag) => {
                self.pairs.push((priority, tag))?;
                Ok(Some(Reply::Done))
            }
            Call::Pluck(priority, tag) => Ok(self.take_out((priority, tag)).then_some(Reply::Done)),
            Call::Take => Ok(Some(self.take())),
            _ => Ok(Some(self.least())),
        }
    }

    // The least pair.
    fn least(&self) -> Reply {
        match self.pairs.iter().min() {
            Some(&(priority, tag)) => Reply::Item(priority, tag),
            None => Reply::Nothing,
        }
    }

    // Takes the least pair out.
    fn take(&mut self) -> Reply {
        let least = self.least();
        if let Reply::Item(priority, tag) = least {
            self.take_out((priority, tag));
        }
        least
    }

    // Takes one copy of the pair out, and tells whether there is one.
    fn take_out(&mut self, pair: (u64, u64)) -> bool {
        match self.pairs.iter().position(|other| *other == pair) {
            Some(place) => {
                self.pairs.swap_remove(place);
                true
            }
            None => false,
        }
    }

    // The pairs in order.
    fn to_sorted(&self) -> Result<Vec<(u64, u64)>, AllocError> {
        let mut pairs = self.pairs.clone()?;
        pairs.sort_unstable();
        Ok(pairs)
    }
}

// The next call of the sequence.
fn next_call(sequence: &mut Sequence) -> Call {
    let priority = u64::from(sequence.below(PRIORITIES));
    let tag = u64::from(sequence.below(TAGS));
    match sequence.below(10) {
        0..=4 => Call::QueueAdd(priority, tag),
        5..=6 => Call::Take,
        7 => Call::Least,
        _ => Call::Pluck(priority, tag),
    }
}

// Whether the queue, asked for its least pair, answers so.
fn looks_so(queue: &QueueCol, call: &Call, reply: &Reply) -> bool {
    match call {
        Call::Take | Call::Least => match (queue.look(call), reply) {
            (Ok(Reply::Item(priority, tag)), Reply::Item(first, earliest)) => {
                priority == *first && tag == *earliest
            }
            (Ok(Reply::Nothing), Reply::Nothing) => true,
            _ => false,
        },
        _ => true,
    }
}

// Makes a call of both, and notes whether they answer the same.
fn call_both(
    queue: &mut QueueCol,
    plain: &mut PlainQueue,
    call: &Call,
    tally: &mut Tally,
) -> Result<(), Refusal> {
    match plain.answer(call)? {
        Some(reply) => {
            let agrees = looks_so(queue, call, &reply) && queue.fits(call, &reply);
            tally.note(agrees);
            if agrees {
                queue.run(call, &reply)?;
            }
        }
        None => {
            tally.note(!queue.fits(call, &Reply::Done));
            tally.note_refused();
        }
    }
    Ok(())
}

/// Makes the calls of both, and compares what they answer and, at the end, what they hold.
pub(crate) fn compare(alloc: Global) -> Result<Tally, Refusal> {
    let (mut queue, mut plain) = (QueueCol::new(alloc), PlainQueue::new(alloc));
    let mut sequence = Sequence::new(1);
    let mut tally = Tally::new();
    for _ in 0..CALLS {
        call_both(
            &mut queue,
            &mut plain,
            &next_call(&mut sequence),
            &mut tally,
        )?;
    }
    tally.note(queue.to_vec(alloc)? == plain.to_sorted()?);
    Ok(tally)
}
