// What a collection may be named.
ghost use Rattle.std.specs.Prelude.{◌↔◌, ◌<◌, IsTrue, IsOk, IfErr, IsErrOf, length};
ghost use Rattle.calls.specs.Names.{IsNameByte, IsSpelt, IsName, RefusesName};
ghost use Rattle.calls.specs.Limits.{max_name};

use crate::Refusal;
use crate::limits::MAX_NAME;

/// Whether a collection may have the name: 1 to 64 bytes, each of them from `a-z 0-9 _ - .`. It
/// takes no memory.
///
/// BadName where the name is empty or has another byte, else TooLong over 64 bytes.
pub fn check_name(name: &str) -> Result<(), Refusal>
    ensures ok { IsOk result ↔ IsName name.now }
    ensures bad_name { IsErrOf result Refusal.BadName ↔ (IsSpelt name.now → ⊥) }
    ensures too_long { IsErrOf result Refusal.TooLong ↔
        (IsSpelt name.now × (max_name < length name.now)) }
    ensures err { IfErr result (RefusesName name.now) }
{
    if !is_spelt(name) {
        return Err(Refusal::BadName);
    }
    if name.len() > MAX_NAME {
        return Err(Refusal::TooLong);
    }
    Ok(())
}

// Whether the name has a byte, and only bytes that a name may have.
fn is_spelt(name: &str) -> bool
    ensures { IsTrue result ↔ IsSpelt name.now }
{
    !name.is_empty() && name.as_bytes().iter().all(|byte| is_name_byte(*byte))
}

// Whether a name may have this byte.
fn is_name_byte(byte: u8) -> bool
    ensures { IsTrue result ↔ IsNameByte byte }
{
    matches!(byte, b'a'..=b'z' | b'0'..=b'9' | b'_' | b'-' | b'.')
}
