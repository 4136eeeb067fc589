// The losers: transactions that were live when the store stopped. They are undone in memory first.
ghost use Rattle.std.specs.Prelude.{◌≡◌, ◌++◌, IfOk, OnOk, IsOkUnless};
ghost use Rattle.std.specs.List.{AllByRecursion};
ghost use Rattle.undo_log.specs.Logs.{Lives};
ghost use Rattle.replay.specs.Undoing.{Undo, IsOver, IsUndoRecord, undo_of};

use crate::machine::Machine;
use calls::Refusal;
use catalog::Catalog;
use records::Record;
use std::alloc::Global;

/// Undoes each live transaction, by rising number, its newest call first. Answers the records of
/// that, which are still to be written: for each call a Back, and then an Ended.
///
/// Refused only for want of memory.
pub fn undo_all(alloc: Global, machine: &mut Machine<Catalog>) -> Result<Vec<Record>, Refusal>
    ensures undo { IfOk result (λ records. Undo machine.old records.items machine.new) }
    ensures records { IfOk result (λ records. AllByRecursion IsUndoRecord records.items) }
    ensures refusal { IsOkUnless result Refusal.NoMemory }
{
    let mut records = Vec::new(alloc);
    while let Some(number) = machine.least() {
        undo_one(machine, number, &mut records)?;
    }
    Ok(records)
}

// Undoes the transaction, and notes the records of that behind the others.
fn undo_one(
    machine: &mut Machine<Catalog>,
    number: u64,
    records: &mut Vec<Record>,
) -> Result<(), Refusal>
    requires live { Lives machine.old.live number }
    requires undo { AllByRecursion IsUndoRecord records.old.items }
    ensures over { OnOk result (IsOver number machine.old machine.new) }
    ensures noted { OnOk result (records.new.items ≡ records.old.items ++
        undo_of number machine.old.entries) }
    ensures undo { OnOk result (AllByRecursion IsUndoRecord records.new.items) }
    ensures refusal { IsOkUnless result Refusal.NoMemory }
{
    machine.upheld();
    while machine.has_call(number) {
        machine.back(number)?;
        records.push(Record::Back(number))?;
    }
    machine.ended(number);
    records.push(Record::Ended(number))?;
    Ok(())
}
