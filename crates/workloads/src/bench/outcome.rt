// What came of a run.
use crate::bench::counts::Counts;
use crate::bench::log::Log;
use std::time::Duration;

/// What came of a run.
#[derive(Drop)]
pub struct Outcome {
    /// What each client did.
    pub logs: Vec<Log>,
    /// What was counted of the system's calls meanwhile.
    pub counts: Counts,
    /// How many checkpoints were taken meanwhile.
    pub checkpoints: u64,
}

impl Outcome {
    /// How many transactions are counted.
    pub fn commits(&self) -> u64 {
        self.logs
            .iter()
            .map(|log| log.commits)
            .fold(0, u64::wrapping_add)
    }

    /// How many jobs were put.
    pub fn put(&self) -> u64 {
        self.logs
            .iter()
            .map(|log| log.put)
            .fold(0, u64::wrapping_add)
    }

    /// How long it took, from the first client's start to the last one's end; nothing without
    /// clients.
    pub fn time(&self) -> Duration {
        let start = self.logs.iter().map(|log| log.start).min();
        let end = self.logs.iter().map(|log| log.end).max();
        match (start, end) {
            (Some(start), Some(end)) => end.duration_since(start),
            _ => Duration::ZERO,
        }
    }

    /// How many transactions the client has that has fewest, and the one that has most.
    pub fn extremes(&self) -> (u64, u64) {
        let least = self.logs.iter().map(|log| log.commits).min();
        let most = self.logs.iter().map(|log| log.commits).max();
        (least.unwrap_or(0), most.unwrap_or(0))
    }
}
