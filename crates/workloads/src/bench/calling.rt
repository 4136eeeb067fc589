// The calls that clients make.
use calls::limits::MAX_AMOUNT;
use calls::{Bytes, Call, Kind};
use rand_core::utils::NextWord;
use rand_pcg::Pcg32;
use std::alloc::{AllocError, Global};

// Priorities of jobs are below that.
const PRIORITIES: u32 = 1000;

/// How many bytes a value has.
pub const VALUE_SIZE: usize = 100;

/// What a collection holds at the start.
#[derive(Clone, Copy)]
pub struct Content {
    /// The name of the collection.
    pub collection: &'static str,
    /// Its kind.
    pub kind: Kind,
    /// How many calls made it, which is how many entries it has; of a counter it is its number, and
    /// a stock is filled so often.
    pub size: u32,
}

impl Content {
    /// What a collection of that name and kind holds, which so many calls made.
    pub fn new(collection: &'static str, kind: Kind, size: u32) -> Content {
        Content {
            collection,
            kind,
            size,
        }
    }

    /// The call of this number, of those that make it.
    pub fn first_call(
        &self,
        alloc: Global,
        number: u64,
        numbers: &mut Pcg32,
    ) -> Result<Call, AllocError> {
        match self.kind {
            Kind::Set => Ok(Call::SetAdd(number)),
            Kind::Queue => Ok(Call::QueueAdd(priority(numbers), tag(u64::MAX, number))),
            Kind::Map => Ok(Call::Put(number, value_of(alloc, 0, VALUE_SIZE)?)),
            Kind::Pool => Ok(Call::Draw),
            Kind::Stock => Ok(Call::Fill(MAX_AMOUNT)),
            Kind::Quotas => Ok(Call::QuotaFill(number, MAX_AMOUNT)),
            _ => Ok(Call::Bump(1)),
        }
    }

    /// The call of a client's next transaction: every other client of the queue puts jobs, so many
    /// so far, and the others take them.
    pub fn next_call(
        &self,
        alloc: Global,
        client: u64,
        numbers: &mut Pcg32,
        put: &mut u64,
    ) -> Result<Call, AllocError> {
        match self.kind {
            Kind::Set => Ok(Call::Pick),
            Kind::Queue if client % 2 == 1 => Ok(Call::Take),
            Kind::Queue => {
                *put = put.wrapping_add(1);
                Ok(Call::QueueAdd(priority(numbers), tag(client, *put)))
            }
            Kind::Map => {
                let key = u64::from(numbers.next_word() % self.size.max(1));
                Ok(Call::Put(key, value_of(alloc, 1, VALUE_SIZE)?))
            }
            Kind::Pool => Ok(Call::Draw),
            Kind::Stock => Ok(Call::Spend(1)),
            Kind::Quotas => {
                let customer = u64::from(numbers.next_word() % self.size.max(1));
                Ok(Call::QuotaSpend(customer, 1))
            }
            _ => Ok(Call::Bump(1)),
        }
    }
}

// A job's priority.
fn priority(numbers: &mut Pcg32) -> u64 {
    u64::from(numbers.next_word() % PRIORITIES)
}

/// A job's tag, or the key of a line of history: no other one has it, as long as a client puts
/// fewer than 2^32.
pub fn tag(client: u64, number: u64) -> u64 {
    (client % (1 << 32) * (1 << 32)) | (number % (1 << 32))
}

/// A value of so many bytes, the first eight of which tell an amount.
pub fn value_of(alloc: Global, amount: i64, size: usize) -> Result<Bytes, AllocError> {
    let mut bytes = vec![in alloc; 0; size]?;
    if let Some(told) = bytes.as_mut_slice().first_chunk_mut::<8>() {
        *told = amount.to_be_bytes();
    }
    Ok(Bytes::new(bytes))
}

/// The amount that a value tells.
pub fn amount_of(value: &Bytes) -> i64 {
    match value.as_slice().first_chunk::<8>() {
        Some(told) => i64::from_be_bytes(*told),
        None => 0,
    }
}
