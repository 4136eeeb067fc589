//! The store as a program: its command line, the commands, and the scripts that its clients play. It
//! opens no file: `boost_main` does, and hands a disk and a task on.
//!
//! **What it promises.** What status 0 of each command says is one definition by command (`IsDone`),
//! and what a command leaves on the disk, done or not, at any moment of it, another (`Leaves`; both
//! of `specs/Effects`). Texts have no clause: the cases show them.
//!
//! **Where its argument stands.** A play is carried out by the `Player` of `talks`, over a `World`,
//! whose theorem is the crash theorem on one thread. A script whose clients run in threads is served
//! by `boost_main`.
//!
//! **To change it.** A new command is a `Task` (`arguments.rt`), a case of `IsDone` and `Leaves`, a
//! function in `commands.rt`, and what opens its files in `boost_main`. A status or a text of a
//! failure is in `commands/failure.rt`.
#![tactic(auto)]

mod arguments;
mod commands;
mod sizes;

pub use arguments::{Invocation, Task, VERSION, command};
pub use commands::{Failure, STORED_RUN, report, run, run_copy};
pub use recovery::Edit;
pub use script::{Action, Line, Request, parse};
pub use talks::{End, Response, Session, Speaker};
