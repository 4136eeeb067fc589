// How a line of a case is read, the disk and the script that it asks, commands on that disk,
// scripts through the store that threads share, scripts as talks, and what is told of it all.
pub mod compared;
mod crowd;
mod dialogue;
pub mod disks;
pub mod questions;
pub mod runs;
mod scripts;
mod stepping;
pub mod talked;
pub mod through_store;
pub mod told;
pub mod values;
pub mod workbench;
