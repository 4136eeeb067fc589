// Lines of a client, read one by one and no longer than they may be.
ghost use Rattle.std.specs.Prelude.{◌≡◌, ◌≢◌, ◌≤◌, ◌+◌, ◌<◌, ◌++◌, List, ℕ, All, IfOk, OnOk};
ghost use Rattle.std.specs.Prelude.{length};
ghost use Rattle.std.specs.Prelude.{take, get_or, IfSome, IfNone};
ghost use Rattle.talks.specs.declared.lines.Piece.{Piece};
ghost use Rattle.talks.specs.Lines.{Begins, Finds, Takes, Ends, IsPiece, IsEmpty, piece_without};

use memchr::memchr;
use std::io::{self, BufRead, ErrorKind};

/// How many bytes a line has at most, without its line feed.
pub const LONGEST: usize = 4095;

/// What came.
#[derive(Clone, Copy)]
pub enum Found {
    /// A line with the line feed behind it, which was taken and is not given.
    Line,
    /// A line that is longer than may be: it was taken, with its line feed, and its first
    /// `LONGEST + 1` bytes are given.
    TooLong,
    /// The input ended in the middle of a line, which was passed over.
    Cut,
    /// The input ended.
    End,
    /// Nothing came for as long as the reader waits, whose error is `TimedOut`. What has come of
    /// the line is kept: the next call goes on with it.
    Silence,
}

// What one look at a reader brought of a line.
#[derive(Clone, Copy)]
enum Piece {
    // Bytes of the line, and not its end.
    Part,
    // The last bytes of the line, and its line feed.
    Whole,
    // Nothing, as the input ended.
    Last,
    // Nothing, as the reader waits no longer.
    Silence,
}

/// Reads the next line of a reader into `line`, which holds that line alone then, the beginning of
/// one that is too long, and nothing where none was found. Of bytes that are known it takes the line
/// with its line feed, and no more.
///
/// What `line` holds already is the beginning of the line: nothing, so the caller clears it behind
/// a line; or what a call kept that found a silence.
///
/// Refused as the reader refuses, but for `TimedOut`, and for want of memory: `line` holds a
/// beginning of the line then, which the reader has lost. It takes the memory of a line of
/// `LONGEST` bytes, whatever comes.
pub fn read_line<B: BufRead>(reader: &mut B, line: &mut Vec<u8>) -> io::Result<Found>
    ensures { IfOk result (λ found. (begun : List ℕ) → Begins LONGEST begun line.old.items →
        Finds LONGEST begun (B.remaining reader.old) (B.remaining reader.new) found
        line.new.items) }
{
    line.truncate(LONGEST + 1);
    for _ in 0..u64::MAX {
        if let Some(found) = found_behind(take_piece(reader, line)?, line) {
            return Ok(found);
        }
    }
    Err(io::Error::from(ErrorKind::Other))
}

// What was found, if this piece is the last one. Only a line stays, the beginning of one that is too
// long, and that of one behind which nothing came.
fn found_behind(piece: Piece, line: &mut Vec<u8>) -> Option<Found>
    ensures some { IfSome result (λ found.
        Ends LONGEST piece line.old.items found line.new.items) }
    ensures none { IfNone result ((piece ≡ Piece.Part) × (line.new ≡ line.old)) }
{
    let length = line.len();
    let found = match piece {
        Piece::Part => return None,
        Piece::Whole if length <= LONGEST => return Some(Found::Line),
        Piece::Whole => return Some(Found::TooLong),
        Piece::Silence => return Some(Found::Silence),
        Piece::Last if length == 0 => Found::End,
        Piece::Last => Found::Cut,
    };
    line.clear();
    Some(found)
}

// Takes what the reader has at hand of a line, and puts it behind the bytes of the line before, as
// far as a line with its line feed may be long.
fn take_piece<B: BufRead>(reader: &mut B, line: &mut Vec<u8>) -> io::Result<Piece>
    requires { length line.old.items ≤ LONGEST + 1 }
    ensures { IfOk result (λ piece. (bs : List ℕ) × All (λ b. b ≢ 10) bs
        × (line.new.items ≡ take (LONGEST + 1) (line.old.items ++ bs))
        × Takes (B.remaining reader.old) (B.remaining reader.new) bs piece) }
{
    let available = match reader.fill_buf() {
        Ok(available) => available,
        Err(error) => {
            return match without_bytes(error.kind()) {
                Some(piece) => Ok(piece),
                None => Err(error),
            };
        }
    };
    let seen = available.len();
    let front = len_of_front(available);
    keep(line, &available[..front])?;
    reader.consume(seen.min(front + 1));
    Ok(piece_of(front, seen))
}

// Which piece it is, of which so many bytes are at hand, and so many stand before a line feed.
fn piece_of(front: usize, seen: usize) -> Piece
    requires { front ≤ seen }
    ensures { IsPiece front seen result }
{
    if seen == 0 {
        Piece::Last
    } else if front < seen {
        Piece::Whole
    } else {
        Piece::Part
    }
}

// Puts bytes behind a line, as far as a line with its line feed may be long.
fn keep(line: &mut Vec<u8>, more: &[u8]) -> io::Result<()>
    requires { length line.old.items ≤ LONGEST + 1 }
    ensures { OnOk result
        (line.new.items ≡ take (LONGEST + 1) (line.old.items ++ more.now)) }
{
    let room = LONGEST + 1 - line.len();
    line.extend_from_slice(&more[..more.len().min(room)])?;
    Ok(())
}

// How many bytes stand before the first line feed.
fn len_of_front(bytes: &[u8]) -> usize
    ensures within { result ≤ length bytes.now }
    ensures front { All (λ b. b ≢ 10) (take result bytes.now) }
    ensures feed { result < length bytes.now → get_or bytes.now result 0 ≡ 10 }
{
    memchr(b'\n', bytes).unwrap_or(bytes.len())
}

// The piece that a reader gives which fails so, if it may be read on.
fn without_bytes(kind: ErrorKind) -> Option<Piece>
    ensures kind { result ≡ piece_without kind }
    ensures empty { IfSome result IsEmpty }
{
    match kind {
        ErrorKind::Interrupted => Some(Piece::Part),
        ErrorKind::TimedOut => Some(Piece::Silence),
        _ => None,
    }
}
