// What a step adds to the next image of a store.
use calls::{Call, Reply, When, check_call};
use records::{call_len, fits_call, fits_reply};

// The most bytes of a call's record beside those of values.
const RECORD: u64 = 64;

// The most bytes of the record of a call that is deferred.
const DEFERRED: u64 = 27;

// The bytes of the records of items: of an element or an identifier, of an entry beside its value,
// of a pair, and of an amount.
const ELEMENT: u64 = 9;

const ENTRY: u64 = 11;

const PAIR: u64 = 17;

const AMOUNT: u64 = 25;

// A record of the undoing, with its part of a block's head.
const BACK: u64 = 10;

// A name's record, with the item of a collection that always has one.
const NAME: u64 = 96;

// The most bytes of a record.
const LONGEST: u64 = 3_115;

/// What a step adds to the next image at most, before it is answered: the item that it puts in, its
/// record where its transaction is live, and the record of its undoing.
#[derive(Clone, Copy)]
pub struct Footprint {
    /// So many bytes at most.
    pub most: u64,
    /// Whether it puts an item in.
    pub grows: bool,
}

impl Footprint {
    /// Of a call that is asked for.
    pub fn of_ask(call: &Call, when: When) -> Self {
        match when {
            When::Now => Self::of_call(call),
            When::AtCommit => Self::of(DEFERRED, call),
        }
    }

    /// Of the making of a collection.
    pub fn of_making() -> Self {
        Self {
            most: NAME,
            grows: true,
        }
    }

    // Of a call that is made at once: nothing of one that only reads whatever it is answered.
    fn of_call(call: &Call) -> Self {
        match call {
            Call::Contains(_)
            | Call::Get(_)
            | Call::Ceiling(_)
            | Call::Least
            | Call::Read
            | Call::Level
            | Call::QuotaLevel(_) => Self {
                most: 0,
                grows: false,
            },
            Call::Put(_, _) | Call::MapRemove(_) => Self::of(LONGEST, call),
            _ => Self::of(RECORD, call),
        }
    }

    // Of a call with a record of so many bytes.
    fn of(record: u64, call: &Call) -> Self {
        let item = item_len(call);
        Self {
            most: sum(record, item),
            grows: item > 0,
        }
    }
}

/// What a step changed in the next image.
#[derive(Clone, Copy)]
pub struct Change {
    /// It added so many bytes at most.
    pub added: u64,
    /// Of items it took so many bytes out at most.
    pub freed: u64,
}

impl Change {
    /// Of a call that was asked for, and answered so.
    pub fn of_ask(call: &Call, when: When, reply: &Reply) -> Self {
        match when {
            When::Now => Self::of_call(call, reply),
            When::AtCommit => Self::of(Footprint::of_ask(call, when)),
        }
    }

    /// Of a step that took nothing out.
    pub fn of(footprint: Footprint) -> Self {
        Self {
            added: footprint.most,
            freed: 0,
        }
    }

    // Of a call that was made at once, and answered so.
    fn of_call(call: &Call, reply: &Reply) -> Self {
        if call.reads(reply) {
            return Self { added: 0, freed: 0 };
        }
        Self {
            added: sum(record_len(call, reply), item_len(call)),
            freed: freed_by(call, reply),
        }
    }
}

// The bytes of the item that the call, answered so, took out or replaced, at most.
fn freed_by(call: &Call, reply: &Reply) -> u64 {
    match (call, reply) {
        (Call::SetRemove(_) | Call::Pick | Call::Release(_), _) => ELEMENT,
        (Call::Put(_, _) | Call::MapRemove(_), Reply::Value(old)) => {
            ENTRY.saturating_add(old.as_slice().len() as u64)
        }
        (Call::Take, _) => PAIR,
        (Call::QuotaSpend(_, _), _) => AMOUNT,
        _ => 0,
    }
}

// A record and an item, with the record of the undoing.
fn sum(record: u64, item: u64) -> u64 {
    record.saturating_add(item).saturating_add(BACK)
}

// The bytes of the record of a call, answered so.
fn record_len(call: &Call, reply: &Reply) -> u64 {
    if check_call(call).is_err() || !fits_call(call) || !fits_reply(reply) {
        return LONGEST;
    }
    call_len(call, reply) as u64
}

// The most bytes of the item that the call puts in; 0 where it puts none in.
fn item_len(call: &Call) -> u64 {
    match call {
        Call::SetAdd(_) | Call::Draw => ELEMENT,
        Call::Put(_, value) => ENTRY.saturating_add(value.as_slice().len() as u64),
        Call::QueueAdd(_, _) => PAIR,
        Call::QuotaFill(_, _) => AMOUNT,
        _ => 0,
    }
}
