// What is answered otherwise than by the program.
use crate::plays::runs::{Ran, text};
use crate::plays::told::Told;
use std::str::Lines;

/// How many scripts and lines were compared, and how much was answered otherwise.
#[derive(Clone, Copy)]
pub struct Compared {
    /// The way on which scripts are played once more.
    pub way: &'static str,
    pub scripts: u64,
    pub lines: u64,
    pub unlike: u64,
}

impl Compared {
    /// Before the first script.
    pub fn new(way: &'static str) -> Self {
        Self {
            way,
            scripts: 0,
            lines: 0,
            unlike: 0,
        }
    }

    /// Compares what a script was answered by the program with what it was answered through the
    /// store. Tells what is not the same.
    pub fn compare(&mut self, one: &Ran, other: &Ran, told: &mut Told) {
        self.scripts = self.scripts.saturating_add(1);
        if one.status != other.status {
            self.note("another status", told);
        }
        self.compare_lines(text(&one.out), text(&other.out), told);
        self.compare_lines(text(&one.err), text(&other.err), told);
    }

    /// Compares what the requests of a script were answered by the program with what they were
    /// answered otherwise. Tells what is not the same.
    pub fn compare_texts(&mut self, one: &str, other: &str, told: &mut Told) {
        self.scripts = self.scripts.saturating_add(1);
        self.compare_lines(one, other, told);
    }

    // Compares lines one by one.
    fn compare_lines(&mut self, one: &str, other: &str, told: &mut Told) {
        let mut others = other.lines();
        for line in one.lines() {
            self.lines = self.lines.saturating_add(1);
            let found = others.next().unwrap_or("nothing");
            if found != line {
                self.note(found, told);
            }
        }
        self.note_more(others, told);
    }

    // Notes lines that the program did not answer.
    fn note_more(&mut self, more: Lines<'_>, told: &mut Told) {
        for found in more {
            self.note(found, told);
        }
    }

    /// Compares what two disks hold. Tells where it is not the same.
    pub fn compare_disks(&mut self, one: &[u8], other: &[u8], told: &mut Told) {
        if one != other {
            self.note("another disk", told);
        }
    }

    // Notes that something was answered otherwise, and tells it.
    fn note(&mut self, found: &str, told: &mut Told) {
        self.unlike = self.unlike.saturating_add(1);
        told.tell(format_args!("{}: {found}", self.way));
    }

    /// Tells how much was compared, unless nothing was.
    pub fn tell(&self, told: &mut Told) {
        let Compared {
            way,
            scripts,
            lines,
            unlike,
        } = *self;
        if scripts > 0 {
            told.tell(format_args!(
                "{way}: {scripts} scripts, {lines} lines, {unlike} answered otherwise"
            ));
        }
    }
}
