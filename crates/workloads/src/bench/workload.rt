// What the clients do.
use crate::bench::calling::Content;
use crate::bench::tpcb;
use calls::Kind;

/// What the clients do.
#[derive(Clone, Copy, PartialEq, Eq)]
pub enum Workload {
    /// Each adds 1 to the one counter.
    Counter,
    /// Every other one puts a job of a random priority, the others take the least.
    JobQueue,
    /// The same, with a million jobs there at the start.
    JobQueueMillion,
    /// Each draws an identifier.
    Ids,
    /// The same, with a million identifiers taken at the start.
    IdsMillion,
    /// Each puts a value of 100 bytes at a random key of 100,000, all of which are there.
    Map,
    /// The same with four such maps, each client on the map of its number modulo 4; each waits for
    /// the last time alone.
    MapsFour,
    /// The same, with a million values in each map.
    MapsFourMillion,
    /// As `MapsFour`, but all clients are on the first of the four maps.
    MapsOne,
    /// The same, with a million values in each map.
    MapsOneMillion,
    /// Each pauses for a millisecond, puts a value of 100 bytes at a random key of a map of 1,000,
    /// of which there are three, and waits for the last time alone: beside a fourth map, of a
    /// million values, on areas that have little room behind an image.
    MapsBesideImages,
    /// Each spends 1 of the one stock, in which there are 2^63 - 1 at the start.
    Stock,
    /// Each picks a job of the one set, in which there are 200,000 at the start, and holds it for a
    /// millisecond before it commits.
    JobsHeld,
    /// Each spends 1 of the quota of one customer.
    SpendsOfOne,
    /// Each spends 1 of the quota of a random customer of a thousand.
    SpendsOfThousand,
    /// Each adds a random amount to the balance of one account of 100,000, to one of ten tellers
    /// and to the branch, and puts a line of history.
    Tpcb,
    /// Each adds 1 to the one counter 1,024 times in a transaction.
    Long,
    /// As `Counter`, but each waits for the last time alone.
    CounterAsync,
    /// As `Counter`, beside a map of 1,000 values of 100 bytes, on areas that have little room
    /// behind an image: so checkpoints are taken again and again.
    CounterBesideImages,
    /// The same, with a million values.
    CounterBesideImagesMillion,
    /// As `CounterBesideImages`, but each client pauses for a millisecond before a transaction, and
    /// waits for the last one alone.
    CounterAsyncBesideImages,
    /// The same, with a million values.
    CounterAsyncBesideImagesMillion,
    /// The same, with the million values in eight maps.
    CounterAsyncBesideImagesOfEight,
    /// One adds 1 to the counter as often as all are asked to, and waits for the last time alone;
    /// then the program ends without closing the store.
    OpenFill,
    /// The store that is there is opened.
    Open,
}

/// When a client waits for its transactions to be kept.
#[derive(Clone, Copy, PartialEq, Eq)]
pub enum Waiting {
    /// For each, before the next one begins.
    ForEach,
    /// For the last one alone.
    ForLast,
    /// For the last one alone, with a pause before each.
    Paced,
}

// How many entries the collections have that have a million.
const MILLION: u32 = 1_000_000;

// The names of maps, by their numbers in the order of making.
const MAPS: [&str; 9] = [
    "map", "map1", "map2", "map3", "map4", "map5", "map6", "map7", "map8",
];

// Each.
const WORKLOADS: [Workload; 25] = [
    Workload::Counter,
    Workload::JobQueue,
    Workload::JobQueueMillion,
    Workload::Ids,
    Workload::IdsMillion,
    Workload::Map,
    Workload::MapsFour,
    Workload::MapsFourMillion,
    Workload::MapsOne,
    Workload::MapsOneMillion,
    Workload::MapsBesideImages,
    Workload::Stock,
    Workload::JobsHeld,
    Workload::SpendsOfOne,
    Workload::SpendsOfThousand,
    Workload::Tpcb,
    Workload::Long,
    Workload::CounterAsync,
    Workload::CounterBesideImages,
    Workload::CounterBesideImagesMillion,
    Workload::CounterAsyncBesideImages,
    Workload::CounterAsyncBesideImagesMillion,
    Workload::CounterAsyncBesideImagesOfEight,
    Workload::OpenFill,
    Workload::Open,
];

impl Workload {
    /// The one of that word.
    pub fn named(word: &str) -> Option<Workload> {
        let workload = WORKLOADS.iter().find(|workload| workload.name() == word)?;
        Some(*workload)
    }

    /// The word for it.
    pub fn name(self) -> &'static str {
        match self {
            Workload::Counter => "counter",
            Workload::JobQueue => "jobqueue",
            Workload::JobQueueMillion => "jobqueue-million",
            Workload::Ids => "ids",
            Workload::IdsMillion => "ids-million",
            Workload::Map => "map",
            Workload::MapsFour => "maps-four",
            Workload::MapsFourMillion => "maps-four-million",
            Workload::MapsOne => "maps-one",
            Workload::MapsOneMillion => "maps-one-million",
            Workload::MapsBesideImages => "maps-beside-images",
            Workload::Stock => "stock",
            Workload::JobsHeld => "jobs-held",
            Workload::SpendsOfOne => "spends-of-one",
            Workload::SpendsOfThousand => "spends-of-thousand",
            Workload::Tpcb => "tpcb",
            Workload::Long => "long",
            Workload::CounterAsync => "counter-async",
            Workload::CounterBesideImages => "counter-beside-images",
            Workload::CounterBesideImagesMillion => "counter-beside-images-million",
            Workload::CounterAsyncBesideImages => "counter-async-beside-images",
            Workload::CounterAsyncBesideImagesMillion => "counter-async-beside-images-million",
            Workload::CounterAsyncBesideImagesOfEight => "counter-async-beside-images-of-eight",
            Workload::OpenFill => "openfill",
            Workload::Open => "open",
        }
    }

    /// How many collections are there at the start.
    pub fn collections(self) -> u8 {
        match self {
            Workload::CounterBesideImages
            | Workload::CounterBesideImagesMillion
            | Workload::CounterAsyncBesideImages
            | Workload::CounterAsyncBesideImagesMillion => 2,
            Workload::MapsFour
            | Workload::MapsFourMillion
            | Workload::MapsOne
            | Workload::MapsOneMillion
            | Workload::MapsBesideImages => 4,
            Workload::CounterAsyncBesideImagesOfEight => 9,
            Workload::Tpcb => tpcb::COLLECTIONS,
            _ => 1,
        }
    }

    /// The collection of that number. They are made in the order of their numbers, from 0 on, which
    /// decides the shelf: a collection of number n is on shelf n % 4.
    pub fn content(self, number: u8) -> Content {
        match self {
            Workload::JobQueue => Content::new("jobs", Kind::Queue, 1000),
            Workload::JobQueueMillion => Content::new("jobs", Kind::Queue, MILLION),
            Workload::Ids => Content::new("ids", Kind::Pool, 0),
            Workload::IdsMillion => Content::new("ids", Kind::Pool, MILLION),
            Workload::Map | Workload::MapsFour | Workload::MapsOne => map(number, 100_000),
            Workload::MapsFourMillion | Workload::MapsOneMillion => map(number, MILLION),
            Workload::MapsBesideImages if number == 3 => map(number, MILLION),
            Workload::MapsBesideImages => map(number, 1000),
            Workload::Stock => Content::new("stock", Kind::Stock, 1),
            Workload::JobsHeld => Content::new("jobs", Kind::Set, 200_000),
            Workload::SpendsOfOne => Content::new("quotas", Kind::Quotas, 1),
            Workload::SpendsOfThousand => Content::new("quotas", Kind::Quotas, 1000),
            Workload::Tpcb => tpcb::content(number),
            _ if number == 0 => Content::new("hits", Kind::Counter, 0),
            Workload::CounterBesideImages | Workload::CounterAsyncBesideImages => map(number, 1000),
            Workload::CounterAsyncBesideImagesOfEight => map(number, 125_000),
            _ => map(number, MILLION),
        }
    }

    /// The number of the collection that the client of this number calls.
    pub fn called(self, client: u64) -> u8 {
        match self {
            Workload::MapsFour | Workload::MapsFourMillion => (client % 4) as u8,
            Workload::MapsBesideImages => (client % 3) as u8,
            _ => 0,
        }
    }

    /// When its clients wait for their transactions to be kept.
    pub fn waiting(self) -> Waiting {
        match self {
            Workload::CounterAsync
            | Workload::MapsFour
            | Workload::MapsFourMillion
            | Workload::MapsOne
            | Workload::MapsOneMillion => Waiting::ForLast,
            Workload::CounterAsyncBesideImages
            | Workload::CounterAsyncBesideImagesMillion
            | Workload::CounterAsyncBesideImagesOfEight
            | Workload::MapsBesideImages => Waiting::Paced,
            _ => Waiting::ForEach,
        }
    }

    /// How many calls a transaction makes.
    pub fn calls(self) -> u32 {
        match self {
            Workload::Long => 1024,
            _ => 1,
        }
    }
}

// The map of that number, with so many values of 100 bytes.
fn map(number: u8, size: u32) -> Content {
    Content::new(MAPS[usize::from(number % 9)], Kind::Map, size)
}
