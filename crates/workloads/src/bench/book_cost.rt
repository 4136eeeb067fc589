// What the transactions of a book cost, on one thread and without a disk.
use crate::bench::calling::Content;
use crate::bench::workload::Workload;
use crate::trouble::Trouble;
use calls::{Call, Format, Kind, Refusal, When};
use catalog::Catalog;
use checkpoint::Inbox;
use rand_pcg::Pcg32;
use std::alloc::{AllocGlobal, Global};
use std::io::Write;
use std::num::nearest_u64_to_f64;
use std::rt::Clock;
use std::time::{Duration, Instant};
use txn::Book;
use world::Transit;

// How many calls each of the other transactions made.
const OTHERS_CALLS: u32 = 1000;

// After how many calls a block is taken from the book.
const BETWEEN_CUTS: u64 = 64;

/// What is measured of a book.
#[derive(Clone, Copy)]
pub struct Cost {
    workload: Workload,
    content: Content,
    /// How many other transactions are live, each with 1,000 calls on a collection of their own.
    others: u64,
    /// How many transactions are measured.
    count: u64,
}

impl Cost {
    /// Reads it from words. None where they are not `book WORKLOAD OTHERS COUNT SIZE DIR`.
    pub fn read(words: &[&str]) -> Option<Cost> {
        let [variant, workload, others, count, size, _folder] = words else {
            return None;
        };
        if *variant != "book" {
            return None;
        }
        let workload = Workload::named(workload)?;
        let size = size.parse::<u32>().ok()?;
        Some(Cost {
            workload,
            content: Content {
                size,
                ..workload.content(0)
            },
            others: others.parse::<u64>().ok()?,
            count: count.parse::<u64>().ok()?,
        })
    }

    /// Writes what a call costs, with its share of entering a transaction and committing it, as one
    /// line of JSON.
    pub fn measure<R: Clock + AllocGlobal>(
        &self,
        rt: &R,
        out: &mut impl Write,
    ) -> Result<(), Trouble> {
        let time = self.time(rt)?;
        let size = self.content.size;
        let calls = self.count.wrapping_mul(u64::from(self.workload.calls()));
        let (workload, others) = (self.workload.name(), self.others);
        write!(out, "{{\"workload\":\"{workload}\",\"others\":{others},")?;
        writeln!(
            out,
            "\"size\":{size},\"calls\":{calls},\"ns\":{:.1}}}",
            nanos_each(time, calls)
        )?;
        Ok(())
    }

    // How long the transactions take, on a book that is filled before.
    fn time<R: Clock + AllocGlobal>(&self, rt: &R) -> Result<Duration, Trouble> {
        let mut bench = BookBench::new(rt.alloc(), self.content)?;
        bench.prepare(self.others)?;
        bench.time(rt, self.count, self.workload.calls())
    }
}

// How long each of so many took, in nanoseconds.
fn nanos_each(time: Duration, count: u64) -> f64 {
    time.as_secs_f64() * 1e9 / nearest_u64_to_f64(count.max(1))
}

// A book with the list that its blocks go to, the number of its next transaction, and how many
// calls were made.
#[derive(Drop)]
struct BookBench {
    alloc: Global,
    content: Content,
    book: Book<Catalog>,
    transit: Transit,
    number: u64,
    made: u64,
}

impl BookBench {
    // A book with an empty collection of the workload's kind, and a counter for other transactions.
    fn new(alloc: Global, content: Content) -> Result<BookBench, Refusal> {
        let mut book = Book::new(alloc, Format::One, Catalog::new(alloc), 1, 0);
        book.make(content.collection, content.kind)?;
        book.make("others", Kind::Counter)?;
        Ok(BookBench {
            alloc,
            content,
            book,
            transit: Transit::new(alloc)?,
            number: 1,
            made: 0,
        })
    }

    // Fills the collection, and lets so many other transactions make their calls.
    fn prepare(&mut self, others: u64) -> Result<(), Refusal> {
        let mut numbers = Pcg32::new(0, 1);
        for number in 0..self.content.size {
            let call = self
                .content
                .first_call(self.alloc, u64::from(number), &mut numbers)?;
            self.transact(&call, 1)?;
        }
        for _ in 0..others {
            self.make_calls(1, &Call::Bump(1), OTHERS_CALLS)?;
            self.number = self.number.wrapping_add(1);
        }
        Ok(())
    }

    // How long so many transactions take, each of so many of the same call.
    fn time<R: Clock>(&mut self, rt: &R, count: u64, calls: u32) -> Result<Duration, Trouble> {
        let start = Instant::now(rt)?;
        self.run(count, calls)?;
        Ok(start.elapsed(rt)?)
    }

    // Runs so many transactions of so many of the same call. Of the queue every other one puts a
    // job.
    fn run(&mut self, count: u64, calls: u32) -> Result<(), Refusal> {
        let mut numbers = Pcg32::new(1, 1);
        let mut put = 0;
        for turn in 0..count {
            let call = self
                .content
                .next_call(self.alloc, turn, &mut numbers, &mut put)?;
            self.transact(&call, calls)?;
        }
        Ok(())
    }

    // A transaction of a call, made so many times.
    fn transact(&mut self, call: &Call, times: u32) -> Result<(), Refusal> {
        self.make_calls(0, call, times)?;
        self.book.commit(self.number)?;
        self.number = self.number.wrapping_add(1);
        Ok(())
    }

    // Enters a transaction and makes a call so many times, on the collection of that place. Blocks
    // are taken from the book meanwhile, so that its records never wait for room.
    fn make_calls(&mut self, place: u8, call: &Call, times: u32) -> Result<(), Refusal> {
        self.book.enter(self.number)?;
        for _ in 0..times {
            self.ask(place, call)?;
            self.made = self.made.wrapping_add(1);
            if self.made % BETWEEN_CUTS == 0 {
                self.let_go()?;
            }
        }
        Ok(())
    }

    // Asks the collection of that place for the call: a fill is deferred.
    fn ask(&mut self, place: u8, call: &Call) -> Result<(), Refusal> {
        let when = match call {
            Call::Fill(_) => When::AtCommit,
            _ => When::Now,
        };
        self.book.ask(self.number, place, call, when)?;
        Ok(())
    }

    // Takes a block from the book and lets it go.
    fn let_go(&mut self) -> Result<(), Refusal> {
        self.book.cut(&mut self.transit)?;
        let _block = self.transit.take();
        Ok(())
    }
}
