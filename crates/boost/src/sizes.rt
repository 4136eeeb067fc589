// Numbers of bytes, as people write them.
ghost use Rattle.std.specs.Prelude.{◌≡◌, ◌++◌, ◌^◌, ◌<◌, ℕ, List, IfSome, IsTrue, ◌↔◌};
ghost use Rattle.std.specs.Fmt.{decimal};
ghost use Rattle.boost.specs.Sizes.{IsSizeOf, IsUnit};

use itoa::Buffer;

/// The number of bytes that a text writes: a number with no sign and no zero in front, and behind
/// it nothing, or K, M or G for so many times 2^10, 2^20 or 2^30. None for another text, and for a
/// number of 2^64 or more.
pub fn size(text: &str) -> Option<u64>
    ensures { IfSome result (λ n. IsSizeOf n text.now) }
{
    let (digits, unit) = split_unit(text.as_bytes());
    let count = natural(digits)?;
    count.checked_mul(unit)
}

// What stands before the unit, and how many bytes that is.
fn split_unit(text: &[u8]) -> (&[u8], u64)
    ensures { (letters : List ℕ) × (text.now ≡ result.0.now ++ letters) × IsUnit letters result.1 }
{
    match text.split_last() {
        Some((b'K', digits)) => (digits, 1 << 10),
        Some((b'M', digits)) => (digits, 1 << 20),
        Some((b'G', digits)) => (digits, 1 << 30),
        _ => (text, 1),
    }
}

// Whether two texts are one.
fn same(a: &[u8], b: &[u8]) -> bool
    ensures { IsTrue result ↔ (a.now ≡ b.now) }
{
    a == b
}

// The number that the text writes in the one way that is understood.
fn natural(text: &[u8]) -> Option<u64>
    ensures { IfSome result (λ n. text.now ≡ decimal n) }
{
    let Ok(word) = std::str::from_utf8(text) else {
        return None;
    };
    let Ok(number) = word.parse::<u64>() else {
        return None;
    };
    let mut buffer = Buffer::new();
    let again = buffer.format(number);
    if same(again.as_bytes(), text) {
        Some(number)
    } else {
        None
    }
}
