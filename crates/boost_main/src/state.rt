// How a server stands, for who is told of it.
ghost use Rattle.std.specs.Prelude.{[], ◌∷◌, None};
ghost use Rattle.talks.specs.Hearing.{Hears};
ghost use Rattle.talks.specs.declared.texts.Response.{Response};

use crate::counts::ServerCounts;
use crate::events::Event;
use calls::Refusal;
use std::alloc::Global;
use std::io;
use std::rt::Clock;
use std::sync::Wait;
use std::time::{Duration, Instant};
use store::{Client, Naming};
use talks::{Attention, Hearer, KeepingState, Output, Printer, Response, Told};

/// How a server stands: how keeping goes, whom it serves, and what its disk has done.
#[derive(Drop)]
pub struct ServerState<'a> {
    pub keeping: KeepingState<'a>,
    pub counts: &'a ServerCounts,
    /// When its opening began, where it is to tell what happens.
    pub began: Option<Instant>,
}

impl ServerState<'_> {
    /// That the store is open now, where that is to be told. Zero where the clock cannot be read.
    pub fn opened<R: Clock>(&self, rt: &R) -> Option<Event<'static>> {
        let took = self.began?.elapsed(rt).unwrap_or(Duration::ZERO);
        Some(Event::Opened(took))
    }

    /// Counts the client of a word, which is served from now on, and answers that where it is to be
    /// told.
    pub fn came<'w>(&self, word: &'w str) -> Option<Event<'w>> {
        self.counts.note_came();
        self.began.map(|_| Event::Came(word))
    }

    /// Counts it no more, and answers that where it is to be told.
    pub fn went<'w>(&self, word: &'w str) -> Option<Event<'w>> {
        self.counts.note_went();
        self.began.map(|_| Event::Went(word))
    }

    /// Counts a checkpoint that took so long, and answers it where it is to be told.
    pub fn checkpoint_taken(&self, took: Duration) -> Option<Event<'static>> {
        self.counts.note_checkpoint(took);
        self.began.map(|_| Event::Checkpoint(took))
    }

    /// Who writes what a client is told, with what is to be told of keeping and of what was counted.
    pub fn printer<O: Output + Drop>(
        &self,
        alloc: Global,
        output: O,
    ) -> WithCounts<'_, Printer<'_, O>> {
        WithCounts {
            alloc,
            counts: self.counts,
            hearer: Printer::new(alloc, output).with_state(&self.keeping),
        }
    }

    /// How the store stands, as `Client::status` tells it, and whether keeping has failed; or that
    /// memory is refused.
    pub fn status<J: Naming, R: Wait>(
        &self,
        rt: &R,
        alloc: Global,
        client: &Client<'_, J>,
    ) -> Told<Response> {
        let status = match client.status(rt, alloc) {
            Ok(status) => status,
            Err(refusal) => return Told::Refused(refusal),
        };
        match format!(in alloc; "{status}") {
            Ok(text) => Told::Status(text, self.keeping.is_noted()),
            Err(_) => Told::Refused(Refusal::NoMemory),
        }
    }
}

/// A hearer that is told, behind how the store stands, what was counted; where memory for that is
/// refused, how the store stands alone.
#[derive(Drop)]
pub struct WithCounts<'a, H> {
    alloc: Global,
    counts: &'a ServerCounts,
    hearer: H,
}

impl<H> WithCounts<'_, H> {
    // How the store stands, with what was counted behind it.
    fn behind(&self, text: String) -> String {
        let counts = self.counts;
        match format!(in self.alloc; "{text}; {counts}") {
            Ok(both) => both,
            Err(_) => text,
        }
    }
}

impl<H: Hearer<Response>> Hearer<Response> for WithCounts<'_, H> {
    fn hear(&mut self, told: Told<Response>) -> io::Result<()>
        ensures { Hears {S = Response} None None (told ∷ []) }
    {
        match told {
            Told::Status(text, has_failed) => {
                let text = self.behind(text);
                self.hearer.hear(Told::Status(text, has_failed))
            }
            other => self.hearer.hear(other),
        }
    }

    fn send(&mut self) -> io::Result<()>
        ensures { Hears {S = Response} None None [] }
    {
        self.hearer.send()
    }

    fn attention(&mut self) -> Attention
        ensures { Hears {S = Response} None None [] }
    {
        self.hearer.attention()
    }
}
