// Which calls a client can ask of a collection of a kind, or deferred there.
ghost use Rattle.std.specs.Prelude.{◌↔◌, IsOk, IfErr};
ghost use Rattle.calls.specs.Formats.{widest};
ghost use Rattle.calls.specs.Rules.{Askable, IsShort, Deferrable};
ghost use Rattle.boosted.specs.Kinds.{IsOf, IsWrong};
ghost use Rattle.boosted.specs.Meaning.{AskRefusal, DeferRefusal};

use calls::{Call, Kind, Refusal, check_call};

/// Whether a client can ask a collection of the kind for the call. It takes no memory.
///
/// WrongKind for a call of another kind, else BadArg for one that no client can ask, else TooLong
/// for a value over 1,024 bytes.
pub fn check_asked(kind: Kind, call: &Call) -> Result<(), Refusal>
    ensures ok { IsOk result ↔ (IsOf kind call.now × Askable call.now × IsShort widest call.now) }
    ensures err { IfErr result (AskRefusal widest (IsOf kind call.now) (IsWrong kind call.now)
        call.now) }
{
    if call.kind() != kind {
        return Err(Refusal::WrongKind);
    }
    check_call(call)
}

/// Whether a client can defer the call to a collection of the kind. It takes no memory.
///
/// WrongKind for a call of another kind, else BadArg for one that cannot be deferred.
pub fn check_deferred(kind: Kind, call: &Call) -> Result<(), Refusal>
    ensures ok { IsOk result ↔ (IsOf kind call.now × Deferrable call.now) }
    ensures err { IfErr result (DeferRefusal (IsOf kind call.now) (IsWrong kind call.now)
        call.now) }
{
    if call.kind() != kind {
        return Err(Refusal::WrongKind);
    }
    if !call.is_deferrable() {
        return Err(Refusal::BadArg);
    }
    Ok(())
}
