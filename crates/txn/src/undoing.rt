// What the undoing of the live transactions takes.
ghost use Rattle.std.specs.Prelude.{◌≡◌, ℕ, ◌<◌, ◌^◌, length};
ghost use Rattle.std.specs.List.{AllByRecursion, filter};
ghost use Rattle.undo_log.specs.Entries.{stamped_entry};
ghost use Rattle.undo_log.specs.Logs.{Lives};
ghost use Rattle.records.specs.Records.{IsNumber};
ghost use Rattle.txn.specs.Undoings.{is_journalled_call, journalled_calls};

use undo_log::{Entry, Handle, Live, Stamped};

// How many calls of the live transactions do not only read: each takes a record to be undone. It
// looks at what each transaction asked for, and takes no memory.
pub(crate) fn count_journalled(live: &Live) -> u64
    requires numbers { (n : ℕ) → Lives live.now.live n → IsNumber n }
    requires owned { AllByRecursion (λ e. Lives live.now.live e.0) live.now.entries }
    requires few { length live.now.entries < 2 ^ 62 }
    ensures { result ≡ length (journalled_calls live.now.entries) }
{
    let mut count = 0;
    let mut last = 0;
    while let Some(number) = live.next_live(last) {
        let slot = live.slot(number);
        count += count_calls(live.entries_of(Handle { number, slot })) as u64;
        last = number;
    }
    count
}

// How many of the entries are calls that do not only read.
fn count_calls(entries: &[Stamped]) -> usize
    ensures { result ≡ length (filter (λ s. is_journalled_call (stamped_entry s)) entries.now) }
{
    entries
        .iter()
        .filter(|stamped| is_journalled_call(stamped))
        .count()
}

// Whether it is a call that does not only read.
fn is_journalled_call(stamped: &Stamped) -> bool
    ensures { result ≡ is_journalled_call (stamped_entry stamped.now) }
{
    match &stamped.entry {
        Entry::Asked(logged) => !logged.call.reads(&logged.reply),
        Entry::Deferred(_) => false,
    }
}
