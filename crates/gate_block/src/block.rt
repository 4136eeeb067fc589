// A whole block: an open gate, the length of its body, the body, and a closed gate behind it.
ghost use Rattle.std.specs.Prelude.{◌≡◌, ◌+◌, ◌-◌, ◌≤◌, ◌<◌, ◌∷◌, ◌++◌, [], length, drop, vec_len};
ghost use Rattle.std.specs.Prelude.{vec_capacity};
ghost use Rattle.std.specs.Int.{w32, to_be_bytes};
ghost use Rattle.gate_block.specs.Row.{block_head, open_gate};
ghost use Rattle.calls.specs.Limits.{max_body};

use crate::layout::OPEN;

/// How many bytes stand before the body of a block: its gate and its length.
pub const BLOCK_HEAD: usize = 5;

/// Makes bytes a whole block, whose body stands behind room for the head: writes an open gate and
/// the body's length into that room, and a closed gate behind the body. It takes no memory, and
/// copies nothing of the body.
pub fn close_block(bytes: &mut Vec<u8>)
    requires head { block_head ≤ length bytes.old.items }
    requires short { length bytes.old.items ≤ block_head + max_body }
    requires room { vec_len bytes.old < vec_capacity bytes.old }
    ensures block { bytes.new.items ≡ open_gate ∷
        (to_be_bytes w32 (length bytes.old.items - 5) ++ (drop 5 bytes.old.items ++ 0 ∷ [])) }
    ensures capacity { vec_capacity bytes.new ≡ vec_capacity bytes.old }
{
    let len = (bytes.len() - BLOCK_HEAD) as u32;
    bytes.push_reserved(0);
    bytes[0] = OPEN;
    bytes[1..BLOCK_HEAD].copy_from_slice(&len.to_be_bytes());
}
