// The record at the front of bytes.
ghost use Rattle.std.specs.Prelude.{◌≡◌, ℕ, List, Option, IfOk, IfErr, MatchResult};
ghost use Rattle.calls.specs.declared.kind.Kind.{Kind};
ghost use Rattle.records.specs.declared.record.Record.{Record};
ghost use Rattle.records.specs.Records.{Begins};
ghost use Rattle.records.specs.Records.{IsWhy};

use crate::sound::is_sound;
use crate::{Record, Unread, read_record};
use calls::{Kind, Refusal};
use std::alloc::Global;

/// The record at the front of the bytes, and the bytes behind it. `last` is the kind that was named
/// last before them:
/// an item is one of that kind, and where there is none no item begins them. Only names and values
/// are copied.
///
/// Damaged with the place that was handed in, exactly where no record begins the bytes; NoMemory.
pub fn decode(
    alloc: Global,
    bytes: &[u8],
    last: Option<Kind>,
    place: u64,
) -> Result<(Record, &[u8]), Refusal>
    ensures found { IfOk result (λ x. Begins last bytes.now x.0 x.1.now) }
    ensures refused { IfErr result (λ why. IsWhy last place bytes.now why) }
    ensures again { (r : Record) (rest : List ℕ) → Begins last bytes.now r rest →
        MatchResult result (λ x. (x.0 ≡ r) × (x.1.now ≡ rest)) (λ why. why ≡ Refusal.NoMemory) }
{
    match read_record(alloc, last, bytes) {
        Ok((found, rest)) => match is_sound(&found) {
            Ok(true) => Ok((found, rest)),
            Ok(false) => {
                drop(found);
                Err(Refusal::Damaged(place))
            }
            Err(refusal) => {
                drop(found);
                Err(refusal)
            }
        },
        Err(Unread::Memory) => Err(Refusal::NoMemory),
        Err(Unread::Damage) => Err(Refusal::Damaged(place)),
    }
}
