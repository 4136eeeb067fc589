// Whose a line is, among those of many clients.
ghost use Rattle.std.specs.Prelude.{ℕ, List, MatchOption};
ghost use Rattle.script.specs.Addresses.{IsOfClient};

use crate::words::{behind, client, split_at_byte};

/// The number of the client that a line is of, from 1 to 64, and what stands behind it: `c12 begin`
/// is client 12's `begin`. None where the line does not begin so. It takes no memory.
pub fn addressed(line: &[u8]) -> Option<(u8, &[u8])>
    ensures { MatchOption result ((n : ℕ) (rest : List ℕ) → IsOfClient n rest line.now → ⊥)
        (λ x. IsOfClient x.0 x.1.now line.now) }
{
    let Some(text) = behind(line, b"c") else {
        return None;
    };
    let Some((front, back)) = split_at_byte(text, b' ') else {
        return None;
    };
    match client(front) {
        Some(number) => Some((number, back)),
        None => None,
    }
}
