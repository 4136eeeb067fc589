// Values of maps, from numbers and texts and to them.
ghost use Rattle.std.specs.Prelude.{◌≡◌, IfOk, IfSome};
ghost use Rattle.std.specs.Int.{to_be_bytes, w64};

use calls::Bytes;
use std::alloc::{AllocError, Global};

/// The value of a number: its eight bytes, the highest first. Refused only for want of memory.
pub fn value_of_number(alloc: Global, number: u64) -> Result<Bytes, AllocError>
    ensures { IfOk result (λ value. value ≡ to_be_bytes w64 number) }
{
    value_of(alloc, &number.to_be_bytes())
}

/// The number of a value of eight bytes, the highest first; none of another length.
pub fn number_of(value: &Bytes) -> Option<u64>
    ensures { IfSome result (λ number. value.now ≡ to_be_bytes w64 number) }
{
    let [a, b, c, d, e, f, g, h] = value.as_slice() else {
        return None;
    };
    Some(u64::from_be_bytes([*a, *b, *c, *d, *e, *f, *g, *h]))
}

/// The value of a text: its bytes. A map takes 256 bytes at most, in a store of format 2 1,024.
/// Refused only for want of memory.
pub fn value_of_text(alloc: Global, text: &str) -> Result<Bytes, AllocError>
    ensures { IfOk result (λ value. value ≡ text.now) }
{
    value_of(alloc, text.as_bytes())
}

/// The text of a value; none where its bytes are no UTF-8.
pub fn text_of(value: &Bytes) -> Option<&str>
    ensures { IfSome result (λ text. text.now ≡ value.now) }
{
    match str::from_utf8(value.as_slice()) {
        Ok(text) => Some(text),
        Err(_) => None,
    }
}

// The value with these bytes.
fn value_of(alloc: Global, bytes: &[u8]) -> Result<Bytes, AllocError>
    ensures { IfOk result (λ value. value ≡ bytes.now) }
{
    let mut items = Vec::new(alloc);
    items.extend_from_slice(bytes)?;
    Ok(Bytes::new(items))
}
