//! Talks: a client sends lines, each of which asks for something, and is told what became of them,
//! line by line. Behind the last line what it left open is taken back.
//!
//! Who carries requests out is any `Speaker`; a `Session` does on a store that threads share. Who
//! is told is any `Hearer`. `read_line` reads lines that are no longer than they may be.
//!
//! A `Player` plays a script on one thread: its clients and its committer take steps of a `World`.
#![tactic(auto)]

mod answering;
mod checkpointer;
mod client;
mod committer;
mod dialogue;
mod doubting;
mod hearing;
mod keeping_state;
mod lines;
mod noting;
mod patience;
mod player;
mod printing;
mod requests;
mod scripted;
mod session;
mod speaking;
mod talking;
mod texts;
mod told;
mod transacting;
mod transcript;
mod why;

pub use clients::Moment;
pub use dialogue::{talk_on_with, talk_with};
pub use hearing::{Attention, Hearer};
pub use keeping_state::KeepingState;
pub use lines::{Found, LONGEST, read_line};
pub use noting::{Noted, Noting};
pub use player::{Player, response_of};
pub use printing::{Output, Printer};
pub use scripted::run_lines;
pub use session::Session;
pub use speaking::{End, Speaker};
pub use talking::{Ended, Lines, talk};
pub use texts::{Hex, Response};
pub use told::Told;
pub use transcript::{Answer, Transcript};
pub use why::Why;
