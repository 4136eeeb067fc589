// The words of clients at a door, and their FIFOs.
use crate::fifos::Fifos;
use std::alloc::{AllocError, Global};
use std::fs::{File, TryLockError};
use std::io;

// How many bytes a client's word has at most.
const MAX_WORD: usize = 64;

// What a line at the door begins with: that of a client, and that of one who asks how the store
// stands.
const HELLO: &[u8] = b"hello ";

const STATUS: &[u8] = b"status ";

/// What a line at the door asks for, with the word of who does.
#[derive(Drop)]
pub enum Request {
    /// To be served.
    Hello(String),
    /// To be told how the store stands.
    Status(String),
}

/// What a line at the door asks for; none, where it is another line.
pub fn request_of(alloc: Global, line: &[u8]) -> Result<Option<Request>, AllocError> {
    if let Some(word) = word_behind(alloc, line, HELLO)? {
        return Ok(Some(Request::Hello(word)));
    }
    match word_behind(alloc, line, STATUS)? {
        Some(word) => Ok(Some(Request::Status(word))),
        None => Ok(None),
    }
}

// The word of a line that begins so. None of another line.
fn word_behind(alloc: Global, line: &[u8], begin: &[u8]) -> Result<Option<String>, AllocError> {
    let Some(word) = line.strip_prefix(begin) else {
        return Ok(None);
    };
    match std::str::from_utf8(word) {
        Ok(word) if is_word(word) => Ok(Some(String::from_str(alloc, word)?)),
        _ => Ok(None),
    }
}

/// The FIFOs of clients in a folder, as they stand there now.
pub fn leftovers(fifos: &impl Fifos, folder: &str) -> io::Result<Vec<String>> {
    let mut names = fifos.names(folder)?;
    names.retain(|name| is_of_client(name.as_str()));
    Ok(names)
}

/// Removes FIFOs of a folder, but for those whose lock somebody has. What cannot be removed is in
/// nobody's way.
pub fn remove_all(
    fifos: &impl Fifos,
    alloc: Global,
    folder: &str,
    names: Vec<String>,
) -> Result<(), AllocError> {
    for name in names {
        let path = format!(in alloc; "{folder}/{name}")?;
        remove(fifos, path.as_str());
    }
    Ok(())
}

// Removes a FIFO, unless somebody has its lock. One that cannot be opened or locked is removed too.
fn remove(fifos: &impl Fifos, path: &str) {
    let found = fifos.open_both(path);
    if !is_locked(&found) {
        let _removed = fifos.remove(path);
    }
    // who made it just now does not get its lock before its name is gone
    drop(found);
}

// Whether somebody has the lock of a file. Where nobody has, it is taken, up to the file's end.
fn is_locked(found: &io::Result<File>) -> bool {
    match found {
        Ok(file) => matches!(file.try_lock(), Err(TryLockError::WouldBlock)),
        Err(_) => false,
    }
}

// Whether a file has a name of a client's FIFO.
fn is_of_client(name: &str) -> bool {
    match name.rsplit_once(".") {
        Some((word, "to" | "from")) => is_word(word),
        _ => false,
    }
}

// Whether a text is a word.
fn is_word(text: &str) -> bool {
    !text.is_empty() && text.len() <= MAX_WORD && text.bytes().all(is_of_word)
}

// Whether a word may have the byte.
fn is_of_word(byte: u8) -> bool {
    byte.is_ascii_lowercase() || byte.is_ascii_digit() || byte == b'-' || byte == b'_'
}
