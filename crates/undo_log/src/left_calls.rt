// What calls of live transactions have left to the commits.
ghost use Rattle.std.specs.Prelude.{◌↔◌, map, Contains, IsTrue};
ghost use Rattle.calls.specs.Rules.{left_by};
ghost use Rattle.undo_log.specs.Entries.{entry_of, stamped_entry};
ghost use Rattle.undo_log.specs.LeftCalls.{IsLeftAmong, IsLeftBy};

use crate::{Entry, Stamped};
use calls::{Call, Reply};

// Whether a call among these entries has left this one at the place to the commit.
pub(crate) fn is_going(entries: &[Stamped], at: u8, call: &Call) -> bool
    ensures { IsTrue result ↔ IsLeftAmong (map stamped_entry entries.now) at call.now }
{
    for stamped in entries {
        if is_left_by(&stamped.entry, at, call) {
            return true;
        }
    }
    false
}

// Whether what was asked for leaves the call at the place to the commit.
fn is_left_by(entry: &Entry, at: u8, call: &Call) -> bool
    ensures { IsTrue result ↔ IsLeftBy (entry_of entry.now) at call.now }
{
    match entry {
        Entry::Asked(logged) => { logged.at == at && leaves(&logged.call, &logged.reply, call) }
        Entry::Deferred(_) => false,
    }
}

// Whether the call, answered so, leaves the other one to the commit.
fn leaves(call: &Call, reply: &Reply, other: &Call) -> bool
    ensures { IsTrue result ↔ Contains (left_by call.now reply.now) other.now }
{
    match call.after(reply) {
        Some(left) => left.is_same(other),
        None => false,
    }
}
