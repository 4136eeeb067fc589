// Calls that are taken back exactly as they were done, and made again.
ghost use Rattle.std.specs.Prelude.{◌≡◌, ◌∷◌, [], map, IfOk, OnOk, IsOkUnless, Some};
ghost use Rattle.calls.specs.Rules.{inverse_of};
ghost use Rattle.calls.specs.Transactions.{Leads, calls_of};
ghost use Rattle.undo_log.specs.Entries.{entry_of, event_of};
ghost use Rattle.steps.specs.Machine.{Does};
ghost use Rattle.replay.specs.Loading.{calls_in, HasRoomBack, HasLed, TakenBack, DoneAgain};

use calls::{Call, Refusal};
use catalog::Parts;
use records::Coded;
use undo_log::{Entry, Live, Logged, Owned};

// Whether the calls of live transactions lead from some content to what is there now: they are
// taken back, newest first, and made again.
pub(crate) fn redo<B: Parts + Coded>(parts: &mut B, live: &Live) -> Result<bool, Refusal>
    requires { HasRoomBack B.meaning (calls_of (map (λ e. e.1) live.now.entries)) parts.old }
    ensures ok { IfOk result (λ done. DoneAgain B.meaning
        (calls_of (map (λ e. e.1) live.now.entries)) done parts.old parts.new) }
    ensures refusal { IsOkUnless result Refusal.NoMemory }
{
    let entries = live.in_order()?;
    if !take_all_back(parts, &entries)? {
        return Ok(false);
    }
    make_all_again(parts, &entries)?;
    Ok(true)
}

// Takes all calls back, newest first. False where one was not done so.
fn take_all_back<B: Parts + Coded>(parts: &mut B, entries: &[Owned<'_>]) -> Result<bool, Refusal>
    requires { HasRoomBack B.meaning (calls_in entries.now) parts.old }
    ensures ok { IfOk result (λ taken. TakenBack B.meaning (calls_in entries.now) taken parts.old
        parts.new) }
    ensures refusal { IsOkUnless result Refusal.NoMemory }
{
    let mut place = entries.len();
    while place > 0 {
        place -= 1;
        if !take_entry_back(parts, entries[place].entry)? {
            return Ok(false);
        }
    }
    Ok(true)
}

// Takes the call back, if the entry is one: what was deferred has done nothing yet.
fn take_entry_back<B: Parts + Coded>(parts: &mut B, entry: &Entry) -> Result<bool, Refusal>
    requires { HasRoomBack B.meaning (calls_of (entry_of entry.now ∷ [])) parts.old }
    ensures ok { IfOk result (λ taken. TakenBack B.meaning (calls_of (entry_of entry.now ∷ []))
        taken parts.old parts.new) }
    ensures refusal { IsOkUnless result Refusal.NoMemory }
{
    match entry {
        Entry::Asked(asked) => take_back(parts, asked),
        Entry::Deferred(_) => Ok(true),
    }
}

// Takes the call back, if it was done last. One without an inverse changed nothing: it was, where
// it gets its reply now.
fn take_back<B: Parts + Coded>(parts: &mut B, asked: &Logged) -> Result<bool, Refusal>
    requires { HasRoomBack B.meaning (event_of asked.now ∷ []) parts.old }
    ensures ok { IfOk result (λ taken. TakenBack B.meaning (event_of asked.now ∷ []) taken parts.old
        parts.new) }
    ensures refusal { IsOkUnless result Refusal.NoMemory }
{
    match asked.call.inverse(&asked.reply)? {
        Some(back) => run_back(parts, asked, &back),
        None => Ok(parts.fits(asked.at, &asked.call, &asked.reply)),
    }
}

// Takes the call back by its inverse, if that is answered as the call is undone, and the call gets
// its reply again.
fn run_back<B: Parts + Coded>(parts: &mut B, asked: &Logged, back: &Call) -> Result<bool, Refusal>
    requires inverse { inverse_of asked.now.call asked.now.reply ≡ Some back.now }
    requires room { HasRoomBack B.meaning (event_of asked.now ∷ []) parts.old }
    ensures ok { IfOk result (λ taken. TakenBack B.meaning (event_of asked.now ∷ []) taken parts.old
        parts.new) }
    ensures refusal { IsOkUnless result Refusal.NoMemory }
{
    let reply = asked.call.undone_by(&asked.reply)?;
    if !parts.fits(asked.at, back, &reply) {
        return Ok(false);
    }
    parts.run(asked.at, back, &reply)?;
    Ok(parts.fits(asked.at, &asked.call, &asked.reply))
}

// Makes all calls again, in their order.
fn make_all_again<B: Parts + Coded>(parts: &mut B, entries: &[Owned<'_>]) -> Result<(), Refusal>
    requires { HasLed B.meaning (calls_in entries.now) parts.old }
    ensures ok { OnOk result (Leads (Does B.meaning) (calls_in entries.now) parts.old parts.new) }
    ensures refusal { IsOkUnless result Refusal.NoMemory }
{
    for owned in entries {
        make_again(parts, owned.entry)?;
    }
    Ok(())
}

// Makes the call again, if the entry is one.
fn make_again<B: Parts + Coded>(parts: &mut B, entry: &Entry) -> Result<(), Refusal>
    requires { HasLed B.meaning (calls_of (entry_of entry.now ∷ [])) parts.old }
    ensures ok { OnOk result (Leads (Does B.meaning) (calls_of (entry_of entry.now ∷ [])) parts.old
        parts.new) }
    ensures refusal { IsOkUnless result Refusal.NoMemory }
{
    match entry {
        Entry::Asked(asked) => parts.run(asked.at, &asked.call, &asked.reply),
        Entry::Deferred(_) => Ok(()),
    }
}
