// What the lines of a script answer, as texts.
use calls::{Refusal, Reply};
use checkpoint::Turn;
use std::fmt;

/// What a line answers.
#[derive(Drop)]
pub enum Response {
    /// The count of commits and makes since the store was opened, this one included.
    Placed(u64),
    /// The number of the transaction that begins.
    Begun(u64),
    /// The reply; Done to a call that will run at the commit.
    Replied(Reply),
    /// The transaction was taken back.
    Aborted,
    /// The client's ticket is kept.
    Kept,
    /// The client's ticket is not kept yet.
    NotYet,
    /// The client has no ticket.
    NoTicket,
    Turned(Turn),
    /// An image is the store, and so many commits are kept.
    Flipped(u64),
    Refused(Refusal),
}

impl fmt::Display for Response {
    fn fmt<W: fmt::Write>(&self, f: &mut fmt::Formatter<W>) -> fmt::Result {
        let (text, number) = match self {
            Response::Placed(place) => ("place", Some(*place)),
            Response::Begun(number) => ("begun", Some(*number)),
            Response::Replied(reply) => return write_reply(f, reply),
            Response::Aborted => ("aborted", None),
            Response::Kept => ("kept", None),
            Response::NotYet => ("not yet", None),
            Response::NoTicket => ("no ticket", None),
            Response::Turned(Turn::Idle) => ("idle", None),
            Response::Turned(Turn::Kept(place)) => ("kept", Some(*place)),
            Response::Turned(Turn::Held) => ("held", None),
            Response::Flipped(mark) => ("flipped", Some(*mark)),
            Response::Refused(refusal) => {
                let number = refusal.number();
                return write!(f, "refused {number} {refusal}");
            }
        };
        match number {
            Some(number) => write!(f, "{text} {number}"),
            None => f.write_str(text),
        }
    }
}

// Writes a reply, its bytes in hexadecimal digits.
fn write_reply<W: fmt::Write>(f: &mut fmt::Formatter<W>, reply: &Reply) -> fmt::Result {
    let text = match reply {
        Reply::Done => "done",
        Reply::No => "no",
        Reply::Yes => "yes",
        Reply::Nothing => "nothing",
        Reply::Value(value) => return write!(f, "value {}", Hex(value.as_slice())),
        Reply::Entry(key, value) => return write!(f, "entry {key} {}", Hex(value.as_slice())),
        Reply::Item(priority, tag) => return write!(f, "item {priority} {tag}"),
        Reply::Total(total) => return write!(f, "total {total}"),
        Reply::Id(id) => return write!(f, "id {id}"),
        Reply::Queued => "queued",
        Reply::Absent => "absent",
    };
    f.write_str(text)
}

// How many bytes are written at once as digits.
const AT_ONCE: usize = 64;

/// Bytes in pairs of digits, or a dash for none.
#[derive(Clone, Copy)]
pub struct Hex<'a>(pub &'a [u8]);

impl fmt::Display for Hex<'_> {
    fn fmt<W: fmt::Write>(&self, f: &mut fmt::Formatter<W>) -> fmt::Result {
        if self.0.is_empty() {
            return f.write_str("-");
        }
        for part in self.0.chunks(AT_ONCE) {
            write_digits(f, part)?;
        }
        Ok(())
    }
}

// Writes bytes in pairs of digits: so many as are written at once, and no more.
fn write_digits<W: fmt::Write>(f: &mut fmt::Formatter<W>, bytes: &[u8]) -> fmt::Result {
    let mut room = [0; 2 * AT_ONCE];
    let bytes = &bytes[..bytes.len().min(AT_ONCE)];
    let digits = &mut room[..2 * bytes.len()];
    let Ok(()) = hex::encode_to_slice(bytes, digits) else {
        return Err(fmt::Error);
    };
    match str::from_utf8(digits) {
        Ok(text) => f.write_str(text),
        Err(_) => Err(fmt::Error),
    }
}
