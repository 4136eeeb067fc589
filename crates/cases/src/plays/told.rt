// What is told of cases: one text in memory, until it is printed.
use std::alloc::{AllocError, Global};
use std::fmt;
use std::io::{self, ErrorKind, Write};

// So many bytes are told without more memory.
const ROOM: usize = 1 << 16;

// The longest run of one character that is written out.
const LONGEST: u64 = 16;

/// A text to which lines are added. Where memory is refused for a part of it, that part is left
/// out, and the text is not whole from then on.
#[derive(Drop)]
pub struct Told {
    pub bytes: Vec<u8>,
    pub is_whole: bool,
}

impl Told {
    /// No text, with room for 65,536 bytes.
    pub fn new(alloc: Global) -> Result<Self, AllocError> {
        Ok(Self {
            bytes: Vec::with_capacity(alloc, ROOM)?,
            is_whole: true,
        })
    }

    /// Adds bytes.
    pub fn add(&mut self, bytes: &[u8]) {
        self.is_whole &= self.bytes.extend_from_slice(bytes).is_ok();
    }

    /// Adds a text that is put together, without an end of line.
    pub fn add_text(&mut self, parts: impl fmt::Display + Drop) {
        self.is_whole &= write!(self.bytes, "{parts}").is_ok();
    }

    /// Adds a line that is put together.
    pub fn tell(&mut self, parts: impl fmt::Display + Drop) {
        self.is_whole &= writeln!(self.bytes, "{parts}").is_ok();
    }

    // Adds a byte that stands so many times on end.
    fn add_run(&mut self, byte: u8, count: u64) {
        if count > LONGEST {
            self.add(&[byte]);
            return self.add_text(format_args!("{{{count}}}"));
        }
        for _ in 0..count {
            self.add(&[byte]);
        }
    }

    /// Adds a line. A byte that stands more than 16 times on end is told once, with the count in
    /// braces.
    pub fn tell_brief(&mut self, line: &str) {
        let mut last = 0;
        let mut count = 0u64;
        for byte in line.as_bytes() {
            if *byte != last {
                self.add_run(last, count);
                last = *byte;
                count = 0;
            }
            count = count.saturating_add(1);
        }
        self.add_run(last, count);
        self.add(b"\n");
    }

    /// Adds the last lines of a text, so many of them, each behind a mark, and how many stand
    /// before them.
    pub fn tell_last(&mut self, text: &str, last: usize, mark: &str) {
        let before = text.lines().count().saturating_sub(last);
        if before > 0 {
            self.tell(format_args!("({before} lines)"));
        }
        for line in text.lines().skip(before) {
            self.add(mark.as_bytes());
            self.tell_brief(line);
        }
    }

    /// Adds a line of bytes, each by two digits of base 16.
    pub fn tell_bytes(&mut self, bytes: &[u8]) {
        for byte in bytes {
            self.add_text(format_args!("{byte:02x}"));
        }
        self.add(b"\n");
    }

    /// Refused as OutOfMemory where the text is not whole.
    pub fn check(&self) -> io::Result<()> {
        if self.is_whole {
            return Ok(());
        }
        Err(io::Error::from(ErrorKind::OutOfMemory))
    }

    /// Prints the text, which is empty then.
    pub fn print(&mut self, out: &mut impl Write) -> io::Result<()> {
        let printed = out.write_all(self.bytes.as_slice());
        self.bytes.clear();
        printed
    }
}
