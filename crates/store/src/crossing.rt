// What may cross threads: each function is accepted only where its argument may.
use crate::store::Store;
use clients::{Client, Seen};
use desks::Naming;
use disk_model::Disk;
use records::Coded;

fn sent<T: Send>(x: T) -> T {
    x
}

fn shared<T: Sync>(_x: &T) {}

// A store.
fn shares_store<D: Disk + Send, J: Naming + Send + Sync, B: Coded>(store: &Store<D, J, B>)
where
    B::Part: Send,
    B::Names: Send,
    B::Shelf: Send,
{
    shared(store);
}

// What a client's thread has.
fn sends_client<'s, J: Naming + Send + Sync, B: Coded>(client: Client<'s, J, B>) -> Client<'s, J, B>
where
    B::Names: Send,
    B::Shelf: Send,
{
    sent(client)
}

// What a client leaves.
fn sends_seen<J: Naming + Send + Sync>(seen: Seen<J>) -> Seen<J> {
    sent(seen)
}
