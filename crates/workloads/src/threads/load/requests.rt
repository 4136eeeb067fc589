// What clients ask for.
use calls::{Bytes, Call};
use rand_core::utils::NextWord;
use rand_pcg::Pcg32;
use std::alloc::{AllocError, Global};

/// Keys, elements, priorities and identifiers that are named lie below it, so that clients meet.
pub const KEYS: u64 = 12;

/// A call, and the name of its collection.
#[derive(Drop)]
pub struct Asked {
    pub name: &'static str,
    pub call: Call,
}

/// The calls of a client's transaction of this number: one to four, the same in each run.
pub fn calls_of(alloc: Global, client: usize, number: u64) -> Result<Vec<Asked>, AllocError> {
    let mut numbers = Pcg32::new(number, client as u64);
    let mut calls = Vec::new(alloc);
    for _ in 0..=numbers.next_word() % 4 {
        calls.push(any_call(alloc, &mut numbers)?)?;
    }
    Ok(calls)
}

/// The calls that ask for all that the collections hold.
pub fn all_calls(alloc: Global) -> Result<Vec<Asked>, AllocError> {
    let mut calls = Vec::new(alloc);
    for key in 0..KEYS {
        calls.push(call_on("set", Call::Contains(key)))?;
        calls.push(call_on("map", Call::Get(key)))?;
        calls.push(call_on("pool", Call::Release(key)))?;
        calls.push(call_on("quotas", Call::QuotaLevel(key)))?;
    }
    calls.push(call_on("counter", Call::Read))?;
    calls.push(call_on("stock", Call::Level))?;
    for _ in 0..200u32 {
        calls.push(call_on("queue", Call::Take))?;
    }
    Ok(calls)
}

fn call_on(name: &'static str, call: Call) -> Asked {
    Asked { name, call }
}

// Any call.
fn any_call(alloc: Global, numbers: &mut Pcg32) -> Result<Asked, AllocError> {
    let key = u64::from(numbers.next_word()) % KEYS;
    Ok(match numbers.next_word() % 23 {
        0 => call_on("set", Call::Contains(key)),
        1 => call_on("set", Call::SetAdd(key)),
        2 => call_on("set", Call::SetRemove(key)),
        18 => call_on("set", Call::Pick),
        19 => call_on("quotas", Call::QuotaFill(key, 9)),
        20 => call_on("quotas", Call::QuotaSpend(key, 4)),
        21 => call_on("quotas", Call::QuotaLevel(key)),
        3 => call_on("map", Call::Get(key)),
        4 | 5 => call_on("map", Call::Put(key, one_byte(alloc, numbers)?)),
        6 => call_on("map", Call::MapRemove(key)),
        7 => call_on("map", Call::Ceiling(key)),
        8 | 9 => call_on(
            "queue",
            Call::QueueAdd(key, u64::from(numbers.next_word()) % 100),
        ),
        10 => call_on("queue", Call::Take),
        11 => call_on("queue", Call::Least),
        12 => call_on("counter", Call::Bump(7)),
        13 => call_on("pool", Call::Draw),
        14 => call_on("pool", Call::Release(key)),
        15 | 16 => call_on("stock", Call::Fill(key)),
        17 => call_on("stock", Call::Level),
        _ => call_on("stock", Call::Spend(key)),
    })
}

fn one_byte(alloc: Global, numbers: &mut Pcg32) -> Result<Bytes, AllocError> {
    Ok(Bytes::new(vec![in alloc; (numbers.next_word() % 256) as u8; 1]?))
}
