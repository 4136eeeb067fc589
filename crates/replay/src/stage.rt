// How far the reading of an area has come.
use crate::Loader;
use crate::machine::Machine;
use calls::{Format, Item, Kind, Name};
use catalog::Catalog;

/// The collection of which an image tells now, and its items so far.
#[derive(Drop)]
pub struct Told {
    pub name: Name,
    pub kind: Kind,
    pub items: Vec<Item>,
}

/// The collections of which an image told, and the one of which it tells now.
#[derive(Drop)]
pub struct Collections {
    pub loader: Loader<Catalog>,
    pub last: Option<Told>,
}

/// What an area was read to hold so far.
#[derive(Drop)]
pub enum Stage {
    /// No record, on a disk of this version.
    Unread(Format),
    /// Collections of an image.
    Collections(Collections),
    /// All collections, and the numbers of transactions that were live.
    Numbers(Loader<Catalog>),
    /// Besides, what these had asked for.
    Calls(Loader<Catalog>),
    /// A whole image, and so many records of a journal.
    Journal(Machine<Catalog>, u64),
}
