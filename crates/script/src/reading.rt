// Scripts, line by line.
ghost use Rattle.std.specs.Prelude.{◌+◌, ◌<◌, IfOk, IfErr, OnOk};
ghost use Rattle.script.specs.Scripts.{lines_of, SaysMore, Says, IsScriptOf, IsWhy, IsWhyLine};
ghost use Rattle.script.specs.Scripts.{IsWhyLines};

use crate::line::{Line, ScriptError};
use crate::phrases::action;
use crate::words::split_at_byte;
use std::alloc::Global;

// Puts what the line of the number says, if it is not passed over, behind the lines before it.
fn read_line(
    lines: &mut Vec<Line>,
    alloc: Global,
    number: u64,
    text: &[u8],
) -> Result<(), ScriptError>
    ensures read { OnOk result (SaysMore number text.now lines.old.items lines.new.items) }
    ensures refused { IfErr result (λ why. IsWhyLine number text.now why) }
{
    if let [] | [b'#', ..] = text {
        return Ok(());
    }
    match action(alloc, text)? {
        Some(what) => {
            lines.push(Line { number, what })?;
            Ok(())
        }
        None => Err(ScriptError::NotUnderstood(number)),
    }
}

// What the lines of a text say.
fn read_lines(alloc: Global, text: &[u8]) -> Result<Vec<Line>, ScriptError>
    ensures read { IfOk result (λ lines. Says 1 (lines_of text.now) lines.items) }
    ensures refused { IfErr result (λ why. IsWhyLines (lines_of text.now) why) }
{
    let mut lines = Vec::new(alloc);
    let mut rest = text;
    let mut number: u64 = 1;
    while let Some((front, back)) = split_at_byte(rest, b'\n') {
        read_line(&mut lines, alloc, number, front)?;
        rest = back;
        number += 1;
    }
    read_line(&mut lines, alloc, number, rest)?;
    Ok(lines)
}

/// What the lines of a script ask for, in their order. No line is understood but those that this
/// program knows, word for word, with one space between two words. Lines end with a line feed; an
/// empty line and one that begins with `#` are passed over and counted.
///
/// Refused NotUnderstood with the number of the first line that is not understood, which is 1 where
/// the script is not UTF-8; and NoMemory.
pub fn parse(alloc: Global, script: &[u8]) -> Result<Vec<Line>, ScriptError>
    ensures read { IfOk result (λ lines. IsScriptOf lines.items script.now) }
    ensures refused { IfErr result (λ why. IsWhy script.now why) }
{
    if std::str::from_utf8(script).is_err() {
        return Err(ScriptError::NotUnderstood(1));
    }
    read_lines(alloc, script)
}
