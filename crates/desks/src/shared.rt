// What the threads of a store share beside the locks.
ghost use Rattle.std.specs.Prelude.{◌≡◌};

use crate::WaitQueue;
use crate::naming::Naming;
use crate::signal::Signal;
use calls::Format;
use group_commit::{Accord, Handoff, Line, Mark, Numbers};
use std::marker::PhantomData;

/// The parts that threads share by `&`, of the store's own name: the one history, the mark, the
/// numbers, the hand-off of blocks, the accords on what is gathered of the book and on the image
/// that the keeper awaits, what wakes the committer, the line of clients that wait for work, and
/// the format of the store.
#[derive(Drop)]
pub struct Shared<J: Naming> {
    pub line: Line,
    pub mark: Mark,
    pub numbers: Numbers,
    pub handoff: Handoff,
    pub gathering: Accord,
    pub awaited: Accord,
    pub signal: Signal,
    pub waiting: WaitQueue,
    pub format: Format,
    pub of: PhantomData<J>,
    pub ghost line_is: { line ≡ J.line },
    pub ghost mark_is: { mark ≡ J.mark },
    pub ghost numbers_is: { numbers ≡ J.numbers },
    pub ghost handoff_is: { handoff ≡ J.handoff },
    pub ghost gathering_is: { gathering ≡ J.gathering },
    pub ghost awaited_is: { awaited ≡ J.awaited },
    pub ghost format_is: { format ≡ J.origin.format },
}
