// What a script is answered through the store where a call of the disk fails.
use crate::plays::runs::text;
use crate::plays::through_store::Played;
use boost::{Action, Line, Request};
use std::alloc::{AllocError, Global};
use std::io::{self, Write};

// Clients are numbered from 1 to 64.
const CLIENTS: usize = 65;

// What is known of a store while its answers are looked at, line by line.
#[derive(Clone, Copy)]
struct Watch {
    // A call of the disk has failed.
    has_failed: bool,
    // So many commits and makings were told as kept.
    mark: u64,
    // The place of the last ticket of each client, 0 for none.
    tickets: [u64; CLIENTS],
}

// The number behind a word, or 0.
fn number_behind(answer: &str, word: &str) -> u64 {
    match answer.strip_prefix(word) {
        Some(number) => number.parse().unwrap_or(0),
        None => 0,
    }
}

// What a client is told of a ticket.
fn told_of(ticket: u64, mark: u64) -> &'static str {
    match ticket {
        0 => "no ticket",
        _ if ticket <= mark => "kept",
        _ => "not yet",
    }
}

impl Watch {
    const NEW: Watch = Watch {
        has_failed: false,
        mark: 0,
        tickets: [0; CLIENTS],
    };

    // Whether a turn's answer is as it must be: the ordinary one, and Fault once, then Failed.
    fn is_turned(&mut self, ordinary: &str, found: &str) -> bool {
        if self.has_failed {
            return found == "refused 20 Failed";
        }
        if found == "refused 19 Fault" {
            self.has_failed = true;
            return true;
        }
        let kept = number_behind(found, "kept ").max(number_behind(found, "flipped "));
        self.mark = self.mark.max(kept);
        found == ordinary
    }

    // Whether a client's answer is as it must be: the ordinary one, but for a ticket that is not
    // kept, since the disk has failed.
    fn is_answered(&mut self, client: u8, request: &Request, ordinary: &str, found: &str) -> bool {
        let ticket = &mut self.tickets[usize::from(client) % CLIENTS];
        let place = number_behind(found, "place ");
        if place > 0 {
            *ticket = place;
        }
        match request {
            Request::Kept if self.has_failed => found == told_of(*ticket, self.mark),
            _ => found == ordinary,
        }
    }

    // Whether the answer of a line is as it must be.
    fn is_line(&mut self, line: &Line, ordinary: &str, found: &str) -> bool {
        match &line.what {
            Action::Turn | Action::Checkpoint => self.is_turned(ordinary, found),
            Action::Client(client, request) => {
                self.is_answered(*client, request, ordinary, found)
            }
        }
    }

    // What the clients that have a ticket are to be told of it at the end.
    fn write_ends(&self, out: &mut Vec<u8>) -> io::Result<()> {
        let mut client = 0u64;
        for ticket in self.tickets.iter() {
            if *ticket > 0 {
                let end = if *ticket <= self.mark { "kept" } else { "lost" };
                writeln!(out, "c{client}: {end}")?;
            }
            client = client.wrapping_add(1);
        }
        Ok(())
    }
}

// The answer of a line, behind its number.
fn answer_of(line: &str) -> &str {
    match line.split_once(": ") {
        Some((_, answer)) => answer,
        None => line,
    }
}

// Whether all lines were answered, and each as it must be.
fn are_answered(watch: &mut Watch, lines: &[Line], ordinary: &str, found: &str) -> bool {
    let mut ordinary = ordinary.lines();
    let mut found = found.lines();
    for line in lines {
        match (ordinary.next(), found.next()) {
            (Some(one), Some(other)) => {
                if !watch.is_line(line, answer_of(one), answer_of(other)) {
                    return false;
                }
            }
            _ => return false,
        }
    }
    found.next().is_none()
}

/// Whether what a script was answered is as it must be where one call of the disk has failed.
/// Either the opening is refused as a Fault, or one turn is, and each turn behind it as Failed;
/// then a client that waits is told Lost, unless its ticket was kept before. All else is answered
/// as it is without a failure.
pub fn is_told(alloc: Global, lines: &[Line], ordinary: &str, played: &Played) -> io::Result<bool> {
    let ran = &played.ran;
    if ran.status != 0 {
        return Ok(text(&ran.err) == "boost: refused 19 Fault\n" && ran.out.is_empty());
    }
    let mut watch = Watch::NEW;
    let are_answered = are_answered(&mut watch, lines, ordinary, text(&ran.out));
    let mut ends = Vec::new(alloc);
    watch.write_ends(&mut ends)?;
    Ok(are_answered && watch.has_failed && text(&ends) == text(&played.ends))
}
