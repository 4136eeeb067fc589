// Values as the lines of cases spell them.
use std::alloc::Global;
use std::io::{self, ErrorKind};

/// Why a line is no question.
pub fn not_understood() -> io::Error {
    io::Error::from(ErrorKind::InvalidInput)
}

/// A number of base 10.
pub fn number(text: &str) -> io::Result<u64> {
    match text.parse() {
        Ok(value) => Ok(value),
        Err(_) => Err(not_understood()),
    }
}

/// A byte as two digits of base 16.
pub fn byte(text: &str) -> io::Result<u8> {
    match u8::from_str_radix(text, 16) {
        Ok(value) => Ok(value),
        Err(_) => Err(not_understood()),
    }
}

/// Two words with a mark between them.
pub fn pair<'a>(text: &'a str, mark: &str) -> io::Result<(&'a str, &'a str)> {
    match text.split_once(mark) {
        Some(parts) => Ok(parts),
        None => Err(not_understood()),
    }
}

/// Two words and what stands behind them.
pub fn three(text: &str) -> io::Result<(&str, &str, &str)> {
    let (first, rest) = pair(text, " ")?;
    let (second, rest) = pair(rest, " ")?;
    Ok((first, second, rest))
}

/// Two numbers.
pub fn numbers(text: &str) -> io::Result<(u64, u64)> {
    let (first, second) = pair(text, " ")?;
    Ok((number(first)?, number(second)?))
}

/// How many bytes an area has, and the number of a format, which is 1 where none stands there.
pub fn area_and_version(text: &str) -> io::Result<(u64, u8)> {
    let Some((area, version)) = text.split_once(" ") else {
        return Ok((number(text)?, 1));
    };
    match version.parse() {
        Ok(version) => Ok((number(area)?, version)),
        Err(_) => Err(not_understood()),
    }
}

/// The bytes of words of base 16, of which each has whole bytes.
pub fn bytes(alloc: Global, text: &str) -> io::Result<Vec<u8>> {
    let mut all = Vec::new(alloc);
    for word in text.split(' ') {
        add_bytes(alloc, &mut all, word)?;
    }
    Ok(all)
}

fn add_bytes(alloc: Global, all: &mut Vec<u8>, word: &str) -> io::Result<()> {
    match hex::decode(alloc, word.as_bytes()) {
        Ok(bytes) => Ok(all.extend_from_slice(bytes.as_slice())?),
        Err(_) => Err(not_understood()),
    }
}
