// Why a line is not understood, as its client is told.
ghost use Rattle.std.specs.Prelude.{IfSome, IsTrue, string_bytes};
ghost use Rattle.talks.specs.Talks.{IsReason};

use script::{Why, doubt_wish};
use std::alloc::{AllocError, Global};
use std::fmt::Write;

// The most letters of a word that are told, each of which has ten bytes at most.
const LONGEST_WORD: usize = 64;
// The most bytes that are told.
const LONGEST: usize = 1_000;

// Whether nothing in a line is doubted. `doubt_wish` says then that a space stands behind its verb,
// which is one of several calls.
fn is_undoubted(line: &str, word: &str, why: Why) -> bool {
    matches!((word, why), ("do" | "keep", Why::EndsInSpace)) && line.starts_with(word)
}

// A word and why it is doubted. What does not print is written as in a text of Rust.
//
// Refused for want of memory alone.
fn text_of(alloc: Global, word: &str, why: Why) -> Result<String, AllocError> {
    let mut text = String::new(alloc);
    for letter in word.chars().take(LONGEST_WORD) {
        write!(text, "{}", letter.escape_debug())?;
    }
    write!(text, ": {why}")?;
    Ok(text)
}

// Whether a text stands in one line, and is no longer than a client has to read.
fn is_short_line(text: &str) -> bool
    ensures { IsTrue result → IsReason text.now }
{
    text.len() <= LONGEST && !text.as_bytes().contains(&b'\n')
}

// The word at which a line that is not understood ceases to be, and why: in one line of a thousand
// bytes at most. None where the line is not UTF-8, where nothing in it is doubted, and for want of
// memory. It takes the time of the line.
pub fn reason(alloc: Global, line: &[u8]) -> Option<String>
    ensures { IfSome result (λ text. IsReason (string_bytes text)) }
{
    let line = str::from_utf8(line).ok()?;
    let (word, why) = doubt_wish(line);
    if is_undoubted(line, word, why) {
        return None;
    }
    let text = text_of(alloc, word, why).ok()?;
    is_short_line(text.as_str()).then_some(text)
}
