// What a run is asked to do.
use crate::bench::workload::Workload;
use std::time::Duration;

/// What a run prints.
#[derive(Clone, Copy, PartialEq, Eq)]
pub enum Variant {
    /// What came of it, with times.
    Timed,
    /// What came of it, but for what differs from run to run.
    Untimed,
    /// The same, and before it a line for each transaction that is kept, as soon as its client is
    /// told so: the client's number, and how many of its transactions are.
    Told,
}

impl Variant {
    fn named(word: &str) -> Option<Variant> {
        match word {
            "timed" => Some(Variant::Timed),
            "untimed" => Some(Variant::Untimed),
            "told" => Some(Variant::Told),
            _ => None,
        }
    }
}

/// What a run is asked to do.
#[derive(Clone, Copy)]
pub struct Options<'a> {
    pub variant: Variant,
    pub workload: Workload,
    /// How many clients there are, each in a thread of its own.
    pub clients: usize,
    /// How many transactions they share.
    pub count: u64,
    /// After which time no transaction begins.
    pub longest: Duration,
    /// The folder in which the store's file lies.
    pub folder: &'a str,
}

impl<'a> Options<'a> {
    /// Reads them from words. None where they are not
    /// `VARIANT WORKLOAD CLIENTS COUNT SECONDS DIR`.
    pub fn read(words: &[&'a str]) -> Option<Options<'a>> {
        let [variant, workload, clients, count, seconds, folder] = words else {
            return None;
        };
        let seconds = seconds.parse::<f64>().ok()?;
        Some(Options {
            variant: Variant::named(variant)?,
            workload: Workload::named(workload)?,
            clients: clients.parse::<usize>().ok()?,
            count: count.parse::<u64>().ok()?,
            longest: Duration::try_from_secs_f64(seconds).ok()?,
            folder,
        })
    }

    /// In how many threads clients run: one alone where it fills the store.
    pub fn threads(&self) -> usize {
        match self.workload {
            Workload::OpenFill => 1,
            _ => self.clients,
        }
    }
}
