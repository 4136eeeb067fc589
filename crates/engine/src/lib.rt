//! What is done of a journal, a keeper and what lies between them, over these parts alone. Who has
//! the parts finds them under its locks (`desks`, `store`), or has them all (`world`).
//!
//! **Room.** A store can be opened again where the undoing of all that was live fits behind what
//! its area holds. So a block is handed over, and an image begun, only where that is so behind it
//! (`MayHandOver` of `specs/Rooms`). A turn hands a block over where that may be, and brings the
//! next one to the disk (`told` of `specs/Rooms`).
//!
//! **Images.** What is gathered of a book is frozen with it; then the keeper holds the end of its
//! image (`IsHeld` of `specs/Gatherings`), and it is packed. What is outrun is given up.
#![tactic(auto)]

mod handing;
mod imaging;
mod room;

pub use handing::{told, undoing_behind};
pub use imaging::{give_up_outrun, hold_frozen, pack};
pub use room::Room;
