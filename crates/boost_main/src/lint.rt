// Telling what is wrong with a script.
use boost::{Failure, report};
use script::{Finding, Findings, Why, review};
use std::alloc::{AllocError, Global};
use std::io::{self, Write};

// The most of a word that is told.
const LONGEST_WORD: usize = 64;

// Writes what is wrong with a line: its number, the word where it is wrong, and why.
fn write_finding(finding: &Finding<'_>, out: &mut impl Write) -> io::Result<()> {
    write!(out, "line {}: ", finding.number)?;
    if !matches!(finding.why, Why::IsNoText) {
        for letter in finding.word.chars().take(LONGEST_WORD) {
            write!(out, "{}", letter.escape_debug())?;
        }
        write!(out, ": ")?;
    }
    writeln!(out, "{}", finding.why)
}

// Writes what was found in a script, and answers the status.
fn write_findings(findings: &Findings<'_>, out: &mut impl Write) -> io::Result<u8> {
    for finding in &findings.unclear {
        write_finding(finding, out)?;
    }
    let status = if findings.unclear.is_empty() {
        writeln!(out, "{} lines", findings.understood)?;
        0
    } else {
        3
    };
    out.flush()?;
    Ok(status)
}

/// Tells each line of a script that is not understood, with the word and why, and answers 3; or how
/// many lines ask for something, and answers 0. Answers 4 where that cannot be written.
pub fn lint(
    alloc: Global,
    script: &[u8],
    out: &mut impl Write,
    err: &mut impl Write,
) -> Result<u8, AllocError> {
    let findings = review(alloc, script)?;
    Ok(match write_findings(&findings, out) {
        Ok(status) => status,
        Err(_) => report(&Failure::Unwritten, err),
    })
}

/// Tells the first line of a script that is not understood, with the word and why, where there is
/// one. Where that cannot be written, that changes nothing.
pub fn tell_first_unclear(alloc: Global, script: &[u8], err: &mut impl Write) {
    let Ok(findings) = review(alloc, script) else {
        return;
    };
    if let Some(finding) = findings.unclear.first() {
        let _written = write!(err, "boost: ");
        let _told = write_finding(finding, err);
        let _flushed = err.flush();
    }
}
