// The calls that a step runs on the collections.
ghost use Rattle.std.specs.Prelude.{◌≡◌, [], ◌∷◌, map, IfOk, IsOkUnless};
ghost use Rattle.std.specs.Option.{option_to_list};
ghost use Rattle.calls.specs.Formats.{widest};
ghost use Rattle.calls.specs.Rules.{Askable};
ghost use Rattle.calls.specs.Transactions.{laters_of};
ghost use Rattle.boosted.specs.Meaning.{Undoes};
ghost use Rattle.records.specs.Short.{IsShortReply};
ghost use Rattle.undo_log.specs.Entries.{event_of, entry_of, stamped_entry};
ghost use Rattle.images.specs.Gatherings.{effect_at, TakesBack};

use crate::Effect;
use boosted::Boosted;
use calls::{Refusal, Reply};
use std::alloc::Global;
use std::collections::VecDeque;
use undo_log::{Entry, Logged, Stamped};

// The call once more, which the record at the LSN tells of.
pub(crate) fn effect_of(logged: &Logged, lsn: u64) -> Result<Effect, Refusal>
    ensures ok { IfOk result (λ effect. effect ≡ effect_at lsn (event_of logged.now)) }
    ensures refusal { IsOkUnless result Refusal.NoMemory }
{
    Ok(Effect {
        lsn,
        collection: logged.at,
        call: logged.call.copy()?,
        reply: logged.reply.copy()?,
    })
}

// The call that takes this one back; none where that had changed nothing.
pub(crate) fn undoing_of<C: Boosted<At = u8>>(
    collections: &C,
    newest: &Logged,
    lsn: u64,
) -> Result<Option<Effect>, Refusal>
    requires askable { Askable newest.now.call }
    requires told { IsShortReply widest newest.now.reply }
    requires undoes { (before : C) ×
        Undoes C.meaning collections.now newest.now.at newest.now.call newest.now.reply before }
    ensures ok { IfOk result (λ undoing. (before : C) × TakesBack C.meaning lsn
        (event_of newest.now) (option_to_list undoing) collections.now before) }
    ensures refusal { IsOkUnless result Refusal.NoMemory }
{
    let Some(call) = newest.call.inverse(&newest.reply)? else {
        return Ok(None);
    };
    let reply = collections.look(newest.at, &call)?;
    Ok(Some(Effect {
        lsn,
        collection: newest.at,
        call,
        reply,
    }))
}

// What a commit runs of these entries: what they deferred, and what their calls left, in the order
// asked.
pub(crate) fn laters_in(
    alloc: Global,
    entries: &[Stamped],
    lsn: u64,
) -> Result<VecDeque<Effect>, Refusal>
    ensures ok { IfOk result (λ effects. effects.items ≡
        map (effect_at lsn) (laters_of (map stamped_entry entries.now))) }
    ensures refusal { IsOkUnless result Refusal.NoMemory }
{
    let mut effects = VecDeque::new(alloc);
    for stamped in entries {
        if let Some(effect) = later_in(&stamped.entry, lsn)? {
            effects.push_back(effect)?;
        }
    }
    Ok(effects)
}

// What a commit runs of one entry.
fn later_in(entry: &Entry, lsn: u64) -> Result<Option<Effect>, Refusal>
    ensures ok { IfOk result (λ effect. option_to_list effect ≡
        map (effect_at lsn) (laters_of (entry_of entry.now ∷ []))) }
    ensures refusal { IsOkUnless result Refusal.NoMemory }
{
    let (collection, call) = match entry {
        Entry::Asked(logged) => match logged.call.after(&logged.reply) {
            Some(left) => (logged.at, left),
            None => return Ok(None),
        },
        Entry::Deferred(later) => (later.at, later.call.copy()?),
    };
    Ok(Some(Effect {
        lsn,
        collection,
        call,
        reply: Reply::Done,
    }))
}
