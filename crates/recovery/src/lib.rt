//! Recovery: a store is made on a disk, opened again after any stop, looked at, copied to another
//! disk, and brought to the second format in its place.
#![tactic(auto)]

mod copying;
mod editing;
mod finding;
mod formatting;
mod freezing;
mod head;
mod inspecting;
mod loading;
mod opening;
mod report;
mod settling;
mod upgrading;

pub use copying::copy;
pub use editing::Edit;
pub use finding::{Found, find};
pub use formatting::{format, format_as};
pub use freezing::image_blocks;
pub use inspecting::inspect;
pub use opening::open;
pub use report::{Report, Survey};
pub use upgrading::upgrade;
