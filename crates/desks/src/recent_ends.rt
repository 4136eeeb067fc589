// The transactions that ended last.

// So many are known.
const KNOWN: usize = 64;

/// The numbers of the transactions that ended last, and how many have ended.
#[derive(Drop)]
pub(crate) struct Ends {
    last: [u64; KNOWN],
    count: u64,
}

impl Ends {
    /// None has.
    pub(crate) fn new() -> Ends {
        Ends {
            last: [0; KNOWN],
            count: 0,
        }
    }

    /// How many have ended.
    pub(crate) fn count(&self) -> u64 {
        self.count
    }

    /// One more has.
    pub(crate) fn add(&mut self, number: u64) {
        self.last[(self.count % 64) as usize] = number;
        self.count = self.count.wrapping_add(1);
    }

    /// Whether the transaction of the number has ended, which was live when so many had; also where
    /// more have than are known.
    pub(crate) fn may_have(&self, number: u64, count: u64) -> bool {
        self.count.wrapping_sub(count) >= KNOWN as u64 || self.last.contains(&number)
    }
}
