// The lines of a script, looked at one by one.
ghost use Rattle.std.specs.Prelude.{◌≡◌, ◌≢◌, ◌<◌, ◌≤◌, ◌++◌, ◌∷◌, All, IfOk, OnOk, IfSome, IfNone};
ghost use Rattle.script.specs.Reviews.{IsReviewOf, ReviewsLine, numbers_of};

use crate::doubts::{Why, doubt};
use crate::{ScriptError, parse};
use std::alloc::{AllocError, Global};

/// A line that is not understood.
#[derive(Clone, Copy)]
pub struct Finding<'a> {
    /// The number of the line, from 1, those that are passed over counted.
    pub number: u64,
    /// The word at which it is not understood.
    pub word: &'a str,
    pub why: Why,
}

/// What was found in a script.
#[derive(Drop)]
pub struct Findings<'a> {
    /// How many lines ask for something.
    pub understood: u64,
    /// The lines that are not understood, in their order.
    pub unclear: Vec<Finding<'a>>,
}

// The first line of a text, and what stands behind its line feed, where it has one.
fn split_at_line_feed(text: &[u8]) -> Option<(&[u8], &[u8])>
    ensures some { IfSome result (λ x. text.now ≡ x.0.now ++ 10 ∷ x.1.now) }
    ensures first { IfSome result (λ x. All (λ b. b ≢ 10) x.0.now) }
    ensures none { IfNone result (All (λ b. b ≢ 10) text.now) }
{
    for (i, b) in text.iter().enumerate() {
        if *b == b'\n' {
            return Some((&text[..i], &text[i + 1..]));
        }
    }
    None
}

// A line of the number that is not understood, with the word and why.
fn finding_in(number: u64, line: &[u8]) -> Finding<'_>
    ensures { result.number ≡ number }
{
    let (word, why) = match std::str::from_utf8(line) {
        Ok(text) => doubt(text),
        Err(_) => ("", Why::IsNoText),
    };
    Finding { number, word, why }
}

// Looks at one line more, which is a script of its own.
fn review_line<'a>(
    found: &mut Findings<'a>,
    alloc: Global,
    number: u64,
    line: &'a [u8],
) -> Result<(), AllocError>
    requires fewer { found.old.understood < number }
    requires whole { All (λ b. b ≢ 10) line.now }
    ensures reviews { OnOk result (ReviewsLine number line.entry.now found.old.understood
        (numbers_of found.old.unclear.items) found.new.understood
        (numbers_of found.new.unclear.items)) }
    ensures fewer { OnOk result (found.new.understood ≤ number) }
{
    match parse(alloc, line) {
        Ok(said) if said.is_empty() => {}
        Ok(_) => found.understood += 1,
        Err(ScriptError::NotUnderstood(_)) => found.unclear.push(finding_in(number, line))?,
        Err(ScriptError::NoMemory) => return Err(AllocError),
    }
    Ok(())
}

/// Looks at each line of a script: those that are not understood, and how many ask for something. A
/// line that is not UTF-8 is not understood, a remark either.
///
/// Refused for want of memory alone.
pub fn review(alloc: Global, script: &[u8]) -> Result<Findings<'_>, AllocError>
    ensures { IfOk result (λ found.
        IsReviewOf found.understood (numbers_of found.unclear.items) script.now) }
{
    let mut found = Findings {
        understood: 0,
        unclear: Vec::new(alloc),
    };
    let mut rest = script;
    let mut number: u64 = 1;
    while let Some((line, behind)) = split_at_line_feed(rest) {
        review_line(&mut found, alloc, number, line)?;
        rest = behind;
        number += 1;
    }
    review_line(&mut found, alloc, number, rest)?;
    Ok(found)
}
