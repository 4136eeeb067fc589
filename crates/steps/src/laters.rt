// What transactions deferred to their commits, and what their calls left to these.
ghost use Rattle.std.specs.Prelude.{◌≡◌, ◌↔◌, [], ◌∷◌, IsTrue, length, map};
ghost use Rattle.calls.specs.declared.reply.Reply.{Reply};
ghost use Rattle.calls.specs.Transactions.{Leads, laters_of};
ghost use Rattle.undo_log.specs.Entries.{entry_of, stamped_entry};
ghost use Rattle.steps.specs.Shelves.{Does, CanRun, of_quarter, IsOutside};

use boosted::Boosted;
use calls::{Call, Reply};
use undo_log::{Entry, Stamped};

// Runs what a transaction deferred among its entries, in the order asked: all of it, or that of a
// quarter alone. How many calls that were.
pub(crate) fn run_laters<C: Boosted<At = u8>>(
    collections: &mut C,
    entries: &[Stamped],
    quarter: Option<u8>,
) -> u64
    requires can { CanRun C.meaning (of_quarter quarter (laters_of (map stamped_entry entries.now)))
        collections.old }
    ensures runs { Leads (Does C.meaning)
        (of_quarter quarter (laters_of (map stamped_entry entries.now)))
        collections.old collections.new }
    ensures count { result ≡ length (of_quarter quarter (laters_of (map stamped_entry
        entries.now))) }
{
    let mut count = 0;
    for stamped in entries {
        count += run_entry(collections, &stamped.entry, quarter);
    }
    count
}

// Runs what was deferred by one entry, if that is of the quarter. How many calls that were.
fn run_entry<C: Boosted<At = u8>>(collections: &mut C, entry: &Entry, quarter: Option<u8>) -> u64
    requires can { CanRun C.meaning (of_quarter quarter (laters_of (entry_of entry.now ∷ [])))
        collections.old }
    ensures runs { Leads (Does C.meaning) (of_quarter quarter (laters_of (entry_of entry.now ∷ [])))
        collections.old collections.new }
    ensures count { result ≡ length (of_quarter quarter (laters_of (entry_of entry.now ∷ []))) }
{
    if is_outside(entry, quarter) {
        return 0;
    }
    run_deferred(collections, entry)
}

// Runs what was deferred by one entry. How many calls that were.
fn run_deferred<C: Boosted<At = u8>>(collections: &mut C, entry: &Entry) -> u64
    requires can { CanRun C.meaning (laters_of (entry_of entry.now ∷ [])) collections.old }
    ensures runs { Leads (Does C.meaning) (laters_of (entry_of entry.now ∷ [])) collections.old
        collections.new }
    ensures count { result ≡ length (laters_of (entry_of entry.now ∷ [])) }
{
    match entry {
        Entry::Asked(logged) => match logged.call.after(&logged.reply) {
            Some(left) => run_later(collections, logged.at, &left),
            None => 0,
        },
        Entry::Deferred(later) => run_later(collections, later.at, &later.call),
    }
}

// Whether the entry's collection is one of another quarter.
fn is_outside(entry: &Entry, quarter: Option<u8>) -> bool
    ensures { IsTrue result ↔ IsOutside quarter (entry_of entry.now) }
{
    match quarter {
        Some(quarter) => entry.at() % 4 != quarter,
        None => false,
    }
}

// Runs one call that was deferred. It answers one.
fn run_later<C: Boosted<At = u8>>(collections: &mut C, at: u8, call: &Call) -> u64
    requires can { CanRun C.meaning (record { at = at; call = call.now; reply = Reply.Done } ∷ [])
        collections.old }
    ensures runs { Leads (Does C.meaning)
        (record { at = at; call = call.now; reply = Reply.Done } ∷ []) collections.old
        collections.new }
    ensures count { result ≡ 1 }
{
    if collections.run(at, call, &Reply::Done).is_err() {
        unreachable!();
    }
    1
}
