// How long a line may wait.
ghost use Rattle.std.specs.Prelude.{◌≡◌, ℕ, ◌<◌, ◌≤◌, ◌+◌, ◌*◌, ◌∷◌, [], MatchOption};
ghost use Rattle.script.specs.Waits.{IsDigit, ArePlaces, IsSeconds, AreWholeSeconds};
ghost use Rattle.script.specs.Waits.{AreWithPlaces};

use crate::words::{natural, split_at_byte};

/// How long the calls of a line may wait, and what tells them from others.
#[derive(Clone, Copy)]
pub struct Limit {
    /// So many thousandths of a second at most.
    pub thousandths: u64,
    /// A number that is the same for calls that are written in the same way, and mostly another one
    /// for others.
    pub alike: u64,
}

impl Limit {
    // The limit of calls that are written so.
    pub(crate) fn of(thousandths: u64, calls: &[u8]) -> Self
        ensures { result.thousandths ≡ thousandths }
    {
        Self {
            thousandths,
            alike: number_of(calls),
        }
    }
}

// The most thousandths of a second that a line may wait: a day.
const MOST: u64 = 86_400_000;

// The number of a digit.
fn digit(byte: u8) -> Option<u64>
    ensures { MatchOption result ((d : ℕ) → IsDigit d byte → ⊥) (λ d. IsDigit d byte) }
{
    if byte < b'0' || byte > b'9' {
        return None;
    }
    Some(u64::from(byte - b'0'))
}

// The thousandths that three places write.
fn thousandths(a: u8, b: u8, c: u8) -> Option<u64>
    ensures { MatchOption result ((m : ℕ) → ArePlaces m (a ∷ b ∷ c ∷ []) → ⊥)
        (λ m. (m < 1000) × ArePlaces m (a ∷ b ∷ c ∷ [])) }
{
    let Some(tenths) = digit(a) else {
        return None;
    };
    let Some(hundredths) = digit(b) else {
        return None;
    };
    match digit(c) {
        Some(last) => Some(100 * tenths + 10 * hundredths + last),
        None => None,
    }
}

// The thousandths that one to three places write.
fn places(text: &[u8]) -> Option<u64>
    ensures { MatchOption result ((m : ℕ) → ArePlaces m text.now → ⊥)
        (λ m. (m < 1000) × ArePlaces m text.now) }
{
    match text {
        [a] => thousandths(*a, b'0', b'0'),
        [a, b] => thousandths(*a, *b, b'0'),
        [a, b, c] => thousandths(*a, *b, *c),
        _ => None,
    }
}

// So many seconds and thousandths, in thousandths, where that is a day at most.
fn bounded(whole: u64, more: u64) -> Option<u64>
    requires { more < 1000 }
    ensures { MatchOption result (1000 * whole + more ≤ 86400000 → ⊥)
        (λ ms. (ms ≡ 1000 * whole + more) × (ms ≤ 86400000)) }
{
    if whole > MOST / 1000 {
        return None;
    }
    let all = 1000 * whole + more;
    if all <= MOST { Some(all) } else { None }
}

// The thousandths of a whole number of seconds: a day at most.
fn whole_seconds(text: &[u8]) -> Option<u64>
    ensures { MatchOption result ((ms : ℕ) → ms ≤ 86400000 → AreWholeSeconds ms text.now → ⊥)
        (λ ms. (ms ≤ 86400000) × AreWholeSeconds ms text.now) }
{
    match natural(text) {
        Some(whole) => {
            prove!(whole <= u64::MAX);
            bounded(whole, 0)
        }
        None => None,
    }
}

// The thousandths of a number of seconds with places behind its point: a day at most.
fn with_places(front: &[u8], back: &[u8]) -> Option<u64>
    ensures { MatchOption result ((ms : ℕ) → ms ≤ 86400000 → AreWithPlaces ms front.now back.now → ⊥)
        (λ ms. (ms ≤ 86400000) × AreWithPlaces ms front.now back.now) }
{
    let Some(more) = places(back) else {
        return None;
    };
    match natural(front) {
        Some(whole) => {
            prove!(whole <= u64::MAX);
            bounded(whole, more)
        }
        None => None,
    }
}

// The thousandths of a second that a text writes as a number of seconds, with a point and up to
// three places or with none: a day at most.
pub fn seconds(text: &[u8]) -> Option<u64>
    ensures { MatchOption result ((ms : ℕ) → IsSeconds ms text.now → ⊥)
        (λ ms. IsSeconds ms text.now) }
{
    match split_at_byte(text, b'.') {
        Some((front, back)) => with_places(front, back),
        None => whole_seconds(text),
    }
}

// The number of a text: the hash FNV-1a.
fn number_of(text: &[u8]) -> u64 {
    let mut number: u64 = 0xcbf2_9ce4_8422_2325;
    for byte in text {
        number = (number ^ u64::from(*byte)).wrapping_mul(0x100_0000_01b3);
    }
    number
}
