// The transaction of pgbench's TPC-B.
use crate::bench::calling::{Content, VALUE_SIZE, amount_of, value_of};
use calls::{Call, Kind, Refusal, Reply};
use rand_core::utils::NextWord;
use rand_pcg::Pcg32;
use std::alloc::Global;
use store::{Attempt, Transaction};

// How many accounts there are.
const ACCOUNT_COUNT: u32 = 100_000;

// The names of the collections.
const ACCOUNTS: &str = "accounts";

const BRANCH: &str = "branch";

const HISTORY: &str = "history";

const TELLERS: [&str; 10] = [
    "teller0", "teller1", "teller2", "teller3", "teller4", "teller5", "teller6", "teller7",
    "teller8", "teller9",
];

/// The number of the branch's counter, in the order of making; those of the tellers are below it.
pub const BRANCH_AT: u8 = 10;

/// The number of the map of the lines of history.
pub const HISTORY_AT: u8 = 11;

/// The number of the map of the accounts' balances.
pub const ACCOUNTS_AT: u8 = 12;

/// How many collections there are.
pub const COLLECTIONS: u8 = 13;

// The amounts are from -5,000 to 5,000.
const MOST: i64 = 5000;

// How many bytes a line of history has.
const LINE_SIZE: usize = 50;

/// The collection of this number, in the order of making: the branch, the history and the accounts
/// are on three shelves, and the tellers on all four.
pub fn content(number: u8) -> Content {
    match number {
        BRANCH_AT => Content::new(BRANCH, Kind::Counter, 0),
        HISTORY_AT => Content::new(HISTORY, Kind::Map, 0),
        ACCOUNTS_AT => Content::new(ACCOUNTS, Kind::Map, ACCOUNT_COUNT),
        _ => Content::new(teller(u32::from(number)), Kind::Counter, 0),
    }
}

// The name of the counter of the teller of that number, modulo ten.
fn teller(number: u32) -> &'static str {
    TELLERS[(number % 10) as usize]
}

/// A transaction: an amount goes to an account, to a teller and to the branch, and a line of
/// history tells so.
#[derive(Clone, Copy)]
pub struct Posting {
    alloc: Global,
    account: u64,
    teller: &'static str,
    amount: i64,
    /// The key of the line.
    line: u64,
}

impl Posting {
    /// One of a random amount to a random account and teller, with a line at that key.
    pub fn next(alloc: Global, line: u64, numbers: &mut Pcg32) -> Posting {
        Posting {
            alloc,
            account: u64::from(numbers.next_word() % ACCOUNT_COUNT),
            teller: teller(numbers.next_word()),
            amount: i64::from(numbers.next_word() % 10_001) - MOST,
            line,
        }
    }
}

impl Transaction for Posting {
    type Output = Reply;

    fn make_calls<A: Attempt>(&self, attempt: &mut A) -> Result<Reply, Refusal> {
        let balance = match attempt.call(ACCOUNTS, &Call::Get(self.account))? {
            Reply::Value(value) => amount_of(&value),
            _ => 0,
        };
        let value = value_of(self.alloc, balance.wrapping_add(self.amount), VALUE_SIZE)?;
        attempt.call(ACCOUNTS, &Call::Put(self.account, value))?;
        attempt.call(self.teller, &Call::Bump(self.amount))?;
        attempt.call(BRANCH, &Call::Bump(self.amount))?;
        let line = value_of(self.alloc, self.amount, LINE_SIZE)?;
        attempt.call(HISTORY, &Call::Put(self.line, line))
    }
}
