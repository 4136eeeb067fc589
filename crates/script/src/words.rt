// The words of a line.
ghost use Rattle.std.specs.Prelude.{◌≡◌, ◌≢◌, ℕ, ◌+◌, ◌<◌, ◌^◌, ◌++◌, ◌∷◌, List, ℤ, All};
ghost use Rattle.std.specs.Prelude.{IfOk, IfSome, IfNone, MatchOption, IsTrue, ◌↔◌, Ok};
ghost use Rattle.std.specs.Int.{w64};
ghost use Rattle.std.specs.Int.RustNames.{FitsSigned};
ghost use Rattle.std.specs.Fmt.{decimal, signed_decimal};
ghost use Rattle.hex.specs.Hex.{decode_of};
ghost use Rattle.script.specs.ScriptTexts.{IsWord, IsClient, value_text};

use calls::limits::MAX_LIVE;
use calls::{Bytes, Name};
use hex::FromHexError;
use itoa::Buffer;
use memchr::memchr;
use std::alloc::{AllocError, Global};

// Whether two texts are one.
pub fn same(a: &[u8], b: &[u8]) -> bool
    ensures { IsTrue result ↔ (a.now ≡ b.now) }
{
    a == b
}

// What stands behind the front, where the text begins with it.
pub fn behind<'a>(text: &'a [u8], front: &[u8]) -> Option<&'a [u8]>
    ensures some { IfSome result (λ rest. text.entry.now ≡ front.now ++ rest.now) }
    ensures none { IfNone result ((rest : List ℕ) → text.entry.now ≡ front.now ++ rest → ⊥) }
{
    if text.len() < front.len() {
        return None;
    }
    let (head, rest) = text.split_at(front.len());
    if same(head, front) { Some(rest) } else { None }
}

// What stands before the byte's first place and what stands behind it.
pub fn split_at_byte(text: &[u8], byte: u8) -> Option<(&[u8], &[u8])>
    ensures some { IfSome result (λ x. text.now ≡ x.0.now ++ byte ∷ x.1.now) }
    ensures first { IfSome result (λ x. All (λ b. b ≢ byte) x.0.now) }
    ensures none { IfNone result (All (λ b. b ≢ byte) text.now) }
{
    let at = memchr(byte, text)?;
    Some((&text[..at], &text[at + 1..]))
}

// The text as a name, where it is a word.
pub fn word(alloc: Global, text: &[u8]) -> Result<Option<Name>, AllocError>
    ensures { IfOk result (λ found. MatchOption found (IsWord text.now → ⊥)
        (λ name. (name ≡ text.now) × IsWord name)) }
{
    if text.is_empty() {
        return Ok(None);
    }
    if let Some(_) = split_at_byte(text, b' ') {
        return Ok(None);
    }
    match std::str::from_utf8(text) {
        Ok(word) => Ok(Some(Name::new(String::from_str(alloc, word)?))),
        Err(_) => Ok(None),
    }
}

// The number that the text writes in the one way that is understood: no sign but a minus, and no
// digit too many.
pub fn number(text: &[u8]) -> Option<i64>
    ensures { MatchOption result ((n : ℤ) → FitsSigned w64 n → text.now ≡ signed_decimal n → ⊥)
        (λ n. FitsSigned w64 n × (text.now ≡ signed_decimal n)) }
{
    let Ok(word) = std::str::from_utf8(text) else {
        return None;
    };
    let Ok(n) = word.parse::<i64>() else {
        return None;
    };
    let mut buffer = Buffer::new();
    let again = buffer.format(n);
    if same(again.as_bytes(), text) {
        Some(n)
    } else {
        None
    }
}

// The natural number that the text writes in the one way that is understood: no sign, and no digit
// too many.
pub fn natural(text: &[u8]) -> Option<u64>
    ensures { MatchOption result ((n : ℕ) → n < 2 ^ 64 → text.now ≡ decimal n → ⊥)
        (λ n. text.now ≡ decimal n) }
{
    let Ok(word) = std::str::from_utf8(text) else {
        return None;
    };
    let Ok(whole) = word.parse::<u64>() else {
        return None;
    };
    let mut buffer = Buffer::new();
    let again = buffer.format(whole);
    if same(again.as_bytes(), text) {
        Some(whole)
    } else {
        None
    }
}

// Whether a client has the number.
fn is_client(number: u64) -> bool
    ensures { IsTrue result ↔ IsClient number }
{
    1 <= number && number <= MAX_LIVE as u64
}

// The number of the client that the text names: from 1 to 64.
pub fn client(text: &[u8]) -> Option<u8>
    ensures { MatchOption result ((n : ℕ) → IsClient n → text.now ≡ decimal n → ⊥)
        (λ n. IsClient n × (text.now ≡ decimal n)) }
{
    let Some(number) = natural(text) else {
        return None;
    };
    prove!(number <= u64::MAX);
    if is_client(number) {
        Some(number as u8)
    } else {
        None
    }
}

// The bytes of pairs of digits, whatever the case of their letters.
fn digits(alloc: Global, text: &[u8]) -> Result<Option<Vec<u8>>, AllocError>
    ensures { IfOk result (λ found. MatchOption found ((v : List ℕ) → decode_of text.now ≡ Ok v → ⊥)
        (λ v. decode_of text.now ≡ Ok v.items)) }
{
    match hex::decode(alloc, text) {
        Ok(bytes) => Ok(Some(bytes)),
        Err(FromHexError::OutOfMemory) => Err(AllocError),
        Err(_) => Ok(None),
    }
}

// The bytes that pairs of digits write, none of them for a dash alone.
pub fn value(alloc: Global, text: &[u8]) -> Result<Option<Bytes>, AllocError>
    ensures { IfOk result (λ found. MatchOption found
        ((v : List ℕ) → All (λ b. b < 256) v → text.now ≡ value_text v → ⊥)
        (λ v. All (λ b. b < 256) v × (text.now ≡ value_text v))) }
{
    if same(text, b"-") {
        return Ok(Some(Bytes::new(Vec::new(alloc))));
    }
    if text.is_empty() {
        return Ok(None);
    }
    let Some(bytes) = digits(alloc, text)? else {
        return Ok(None);
    };
    let again = hex::encode(alloc, bytes.as_slice())?;
    if same(again.as_bytes(), text) {
        Ok(Some(Bytes::new(bytes)))
    } else {
        Ok(None)
    }
}
