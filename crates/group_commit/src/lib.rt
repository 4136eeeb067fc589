//! What the threads of a store share beside the locks, and what each of them knows of it.
//!
//! - `Handoff`: blocks on their way from the book to the keeper. What was sent is what was
//!   received, followed by what is in transit, in order, at most four. Both ends have noted the
//!   same of what was frozen.
//! - `Mark`: how many commits are kept. The count never falls, and is what the keeper's seat has
//!   brought it to, which tells it to a watcher. A failed flag stays, and is set by the keeper's
//!   seat or by a stopper alone. A thread may sleep until the mark moves.
//! - `Line`: the one history of the book. What each client has seen is a beginning of it, with all
//!   that the history has of the client. Clients that have left are a crowd; where it has as many as
//!   were made, each step that has a client is of one of them.
//! - `Numbers`: each number that was drawn was drawn once. Who makes drawers is told what one drew,
//!   and so knows whose a number is.
//! - `Accord`: what is gathered of the book for an image, as two ends know it. Both know the same
//!   state, and only both together change it.
//! - `Twin`: a list of touches, as two ends know it. Both know the same list, and only both
//!   together lengthen it.
//!
//! Threads share the six by `&`. What a thread knows of one lies in a seat, which goes with it: a
//! sender, a receiver, a keeper's seat, a stopper, a watcher, the book's seat, a client's, a crowd's, a drawer,
//! the near end and the far end of an accord or of a twin. A seat is made of another one by a
//! function of its part, and only its own steps change what it knows. So what contracts say of a
//! seat holds whatever the other threads do: the rule of a part is kept by each step, and is proved
//! here.
//!
//! There are twelve kinds of step: blocks are sent and received; the mark is brought on, its flag
//! is set, and both are loaded; a step is tallied on the line, and the line is loaded; a number is
//! drawn, and the next one is loaded; an accord is loaded; a twin is loaded, and touched. Seats are
//! joined and cut, too: so one is told what another knows, both ends of a hand-off note what was
//! frozen, and both ends of an accord come to know another state. The journal's lock is held where
//! blocks are sent, steps tallied, clients made and numbers told, the keeper's where blocks are
//! received and the mark is brought on and tells, and both where what was frozen is noted. Whoever
//! takes a step of an accord or of a twin holds the locks of both of its ends.
//!
//! The value of a seat names its `table`, and a call asks for the seats of the part itself. What
//! lies under a lock is known by its type alone: pick the tables by a type parameter, and let the
//! invariant of the locked type say that its seats are of these.
#![tactic(auto)]

mod accord;
mod crossing;
mod ends;
mod handoff;
mod line;
mod mark;
mod numbers;
mod twin;
mod view;

pub use accord::{Accord, Far, Near, OneGather};
pub use ends::{Incoming, Outgoing};
pub use handoff::{Handoff, Receiver, Sender};
pub use line::{BookSeat, ClientSeat, Crowd, Line};
pub use mark::{KeeperSeat, Mark, OneMoment, Raised, Stopper, Watcher};
pub use numbers::{Drawer, DrawerMaker, Numbers};
pub use twin::{OneTouch, Twin, TwinFar, TwinNear};
pub use view::OneStep;
