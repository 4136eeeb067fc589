// What may cross threads: each function is accepted only where its argument may.
use crate::accord::{Accord, Far, Near};
use crate::handoff::{Handoff, Receiver, Sender};
use crate::line::{BookSeat, ClientSeat, Crowd, Line};
use crate::mark::{KeeperSeat, Mark, Stopper, Watcher};
use crate::numbers::{Drawer, DrawerMaker, Numbers};
use crate::twin::{Twin, TwinFar, TwinNear};

fn sent<T: Send>(x: T) -> T {
    x
}

fn shared<T: Sync>(_x: &T) {}

// What all threads of a store have by `&`.
fn shares(accord: &Accord, handoff: &Handoff, line: &Line, mark: &Mark, numbers: &Numbers) {
    shared(accord);
    shared(handoff);
    shared(line);
    shared(mark);
    shared(numbers);
}

// What lies under the journal's lock.
fn sends_book(
    sender: Sender,
    book: BookSeat,
    maker: DrawerMaker,
) -> (Sender, BookSeat, DrawerMaker) {
    (sent(sender), sent(book), sent(maker))
}

// What lies under the keeper's lock.
fn sends_keeper(receiver: Receiver, keeper: KeeperSeat) -> (Receiver, KeeperSeat) {
    (sent(receiver), sent(keeper))
}

// What clients leave.
fn sends_crowd(crowd: Crowd) -> Crowd {
    sent(crowd)
}

// What a client has.
fn sends_client(
    client: ClientSeat,
    watcher: Watcher,
    drawer: Drawer,
) -> (ClientSeat, Watcher, Drawer) {
    (sent(client), sent(watcher), sent(drawer))
}

// What a committer has beside a watcher.
fn sends_stopper(stopper: Stopper) -> Stopper {
    sent(stopper)
}

// The two ends of an accord.
fn sends_ends(near: Near, far: Far) -> (Near, Far) {
    (sent(near), sent(far))
}

// A twin, of touches that may cross threads.
fn shares_twin<T: Send + Sync>(twin: &Twin<T>) {
    shared(twin);
}

// The two ends of a twin.
fn sends_twin_ends<T: Send + Sync>(
    near: TwinNear<T>,
    far: TwinFar<T>,
) -> (TwinNear<T>, TwinFar<T>) {
    (sent(near), sent(far))
}
