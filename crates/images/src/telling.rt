// The records that tell of live transactions.
ghost use Rattle.std.specs.Prelude.{◌≡◌, ℕ, ◌++◌, ◌∷◌, [], Option, OnOk, IfOk, IsOkUnless};
ghost use Rattle.calls.specs.Formats.{widest};
ghost use Rattle.std.specs.List.{AllByRecursion, flat_map};
ghost use Rattle.calls.specs.declared.kind.Kind.{Kind};
ghost use Rattle.calls.specs.Rules.{Deferrable, inverse_of};
ghost use Rattle.calls.specs.Transactions.{Asked};
ghost use Rattle.undo_log.specs.Entries.{event_of, entry_of, owned_entry};
ghost use Rattle.undo_log.specs.Logs.{Lives};
ghost use Rattle.records.specs.Records.{call_record, IsNumber, AreRecords};
ghost use Rattle.records.specs.Packings.{Writes};
ghost use Rattle.steps.specs.Machines.{IsAskedEntry};
ghost use Rattle.images.specs.Images.{TellsLive, TellsTransactions};
ghost use Rattle.images.specs.LiveRecords.{live_record};

use calls::Refusal;
use records::{CallRecord, LaterRecord, Record, fits_call, fits_reply};
use std::alloc::Global;
use undo_log::{Entry, Handle, Later, Live, Logged, Owned};

/// The records that tell of the live transactions: that each began, by rising number, and then what
/// they asked for, in the order asked. It takes time and memory in proportion to that.
///
/// NoMemory.
pub fn live_records(alloc: Global, live: &Live) -> Result<Vec<Record>, Refusal>
    requires numbers { (n : ℕ) → Lives live.now.live n → IsNumber n }
    requires asked { AllByRecursion (λ e. IsNumber e.0 × IsAskedEntry widest e.1) live.now.entries }
    ensures told { IfOk result (λ told.
        TellsTransactions live.now.live live.now.entries told.items) }
    ensures good { IfOk result (λ told. (last : Option Kind) → AreRecords last told.items) }
    ensures refusal { IsOkUnless result Refusal.NoMemory }
{
    let mut told = Vec::new(alloc);
    tell_begins(live, &mut told)?;
    tell_entries(live, &mut told)?;
    Ok(told)
}

// Tells that the live transactions began, by rising number.
fn tell_begins(live: &Live, told: &mut Vec<Record>) -> Result<(), Refusal>
    requires { (n : ℕ) → Lives live.now.live n → IsNumber n }
    ensures told { OnOk result (Writes told.old.items told.new.items (TellsLive live.now.live)) }
    ensures refusal { IsOkUnless result Refusal.NoMemory }
{
    let mut last = 0;
    while let Some(number) = live.next_live(last) {
        tell(Record::Begin(number), told)?;
        last = number;
    }
    Ok(())
}

// Tells what the live transactions asked for, in the order asked.
fn tell_entries(live: &Live, told: &mut Vec<Record>) -> Result<(), Refusal>
    requires { AllByRecursion (λ e. IsNumber e.0 × IsAskedEntry widest e.1) live.now.entries }
    ensures told { OnOk result (Writes told.old.items told.new.items
        (λ rs. rs ≡ flat_map (live_record live.now.live) live.now.entries)) }
    ensures refusal { IsOkUnless result Refusal.NoMemory }
{
    let entries = live.in_order()?;
    for owned in &entries {
        tell_entry(live, owned, told)?;
    }
    Ok(())
}

// Tells what was asked for, but for calls that only read and what a falling transaction deferred.
fn tell_entry(live: &Live, owned: &Owned<'_>, told: &mut Vec<Record>) -> Result<(), Refusal>
    requires { IsNumber owned.now.owner × IsAskedEntry widest (entry_of owned.now.entry.now) }
    ensures told { OnOk result (Writes told.old.items told.new.items
        (λ rs. rs ≡ live_record live.now.live (owned_entry owned.now))) }
    ensures refusal { IsOkUnless result Refusal.NoMemory }
{
    match owned.entry {
        Entry::Asked(logged) => {
            if logged.call.reads(&logged.reply) {
                return Ok(());
            }
            tell_call(owned.owner, logged, told)
        }
        Entry::Deferred(later) => {
            let number = owned.owner;
            let slot = live.slot(number);
            if live.is_falling(Handle { number, slot }) {
                return Ok(());
            }
            tell_later(owned.owner, later, told)
        }
    }
}

// Tells a call of a live transaction.
fn tell_call(number: u64, logged: &Logged, told: &mut Vec<Record>) -> Result<(), Refusal>
    requires number { IsNumber number }
    requires asked { IsAskedEntry widest (Asked (event_of logged.now)) }
    ensures told { OnOk result (Writes told.old.items told.new.items
        (λ rs. rs ≡ Record.LiveCall (call_record number logged.now.at logged.now.call
        logged.now.reply (inverse_of logged.now.call logged.now.reply)) ∷ [])) }
    ensures refusal { IsOkUnless result Refusal.NoMemory }
{
    let collection = logged.at;
    prove!(collection <= u8::MAX);
    prove!(fits_call(&logged.call));
    prove!(fits_reply(&logged.reply));
    let back = logged.call.inverse(&logged.reply)?;
    let called = CallRecord {
        number,
        collection,
        call: logged.call.copy()?,
        reply: logged.reply.copy()?,
        inverse: back,
    };
    tell(Record::LiveCall(called), told)
}

// Tells a call that a live transaction deferred.
fn tell_later(number: u64, later: &Later, told: &mut Vec<Record>) -> Result<(), Refusal>
    requires number { IsNumber number }
    requires deferred { Deferrable later.now.call }
    ensures told { OnOk result (Writes told.old.items told.new.items
        (λ rs. rs ≡ Record.LiveLater (record {
          number = number;
          collection = later.now.at;
          call = later.now.call;
        }) ∷ [])) }
    ensures refusal { IsOkUnless result Refusal.NoMemory }
{
    let collection = later.at;
    prove!(collection <= u8::MAX);
    let put = LaterRecord {
        number,
        collection,
        call: later.call.copy()?,
    };
    tell(Record::LiveLater(put), told)
}

// Puts the record behind the others.
fn tell(entry: Record, told: &mut Vec<Record>) -> Result<(), Refusal>
    ensures told { OnOk result (told.new.items ≡ told.old.items ++ entry ∷ []) }
    ensures refusal { IsOkUnless result Refusal.NoMemory }
{
    told.push(entry)?;
    Ok(())
}
