//! A catalog: named collections of the seven kinds, whose calls can be undone.
//!
//! **What it promises.** Contracts see a list of named contents. A call on one of them has the
//! replies, the need and the inverse that it has on the collection alone, and leaves the others
//! (`specs/Meaning`); names are found and made as `specs/Making` says; items are shown and loaded
//! in the order of their kind (`specs/Holdings`).
//! A catalog can be taken apart into its names and four shelves, each of which is boosted by
//! itself, and a call on a shelf is one on the whole (`specs/Woven`, `specs/Shelving`).
//!
//! **Where its argument stands.** The laws of `Boosted` and of `Parts` for the whole come from
//! those of its parts: `specs/Laws`, from the contents of one (`OneContent`) to calls at their
//! places (`ByPlace`), to what is made (`Makings`), to the catalog; those of a shelf come from the
//! same (`OnShelves`), and `Weaving` ties shelves to the whole. Above this crate only what
//! `records` proves of items knows of a kind.
//!
//! **To change it.** A new kind is a case of `Holding` (`holding.rt`), of `specs/Holdings`,
//! `specs/Laws/OneContent` and `proofs/Orders`. The limit on names and collections is
//! `calls::limits`.
#![tactic(auto)]

mod catalog;
mod four;
mod holding;
mod measured;
mod names;
mod part;
mod parts;
mod shelf;
mod shown;

pub use catalog::Catalog;
pub use four::Four;
pub use holding::{Holding, follows};
pub use measured::Measured;
pub use names::{Named, Names};
pub use part::{NamedHolding, Part};
pub use parts::Parts;
pub use shelf::{CatalogShelf, Shelved};
pub use shown::Shown;
