// What clients were told, for clauses alone.
ghost use Rattle.std.specs.Prelude.{◌≡◌, List, [], ◌∷◌, ◌++◌, Some};
ghost use Rattle.std.specs.Borrow.{ftrue};
ghost use Rattle.talks.specs.declared.told.Told.{Told};
ghost use Rattle.talks.specs.declared.texts.Response.{Response};
ghost use Rattle.talks.specs.Hearing.{Hears};

use crate::hearing::{Attention, Hearer};
use crate::texts::Response;
use crate::told::Told;
use std::io;
use std::marker::Model;

/// What a client was told, in its order. It has no bytes, and noting does nothing at run time.
#[derive(Drop)]
pub struct Noted {
    pub ghost told: { List (Told Response) },
}

impl Model for Noted {
    ghost also_owns = { λ _. ftrue };
}

impl Noted {
    /// Nothing was told.
    pub fn new() -> Noted
        ensures { result.told ≡ [] }
    {
        Noted {}
    }

    // This was told behind all before it.
    fn with(_before: &Noted, _told: &Told<Response>) -> Noted
        ensures { result.told ≡ _before.now.told ++ _told.now ∷ [] }
    {
        Noted {}
    }
}

/// A hearer that notes what it is given to hear, and then gives it to another one.
#[derive(Drop)]
pub struct Noting<H> {
    pub hearer: H,
    pub noted: Noted,
}

impl<H: Hearer<Response>> Hearer<Response> for Noting<H> {
    ghost use Rattle.std.specs.Prelude.{Some};

    ghost heard = { λ n. Some n.noted.told };

    fn hear(&mut self, told: Told<Response>) -> io::Result<()>
        ensures { Hears (Some self.old.noted.told) (Some self.new.noted.told) (told ∷ []) }
    {
        self.noted = Noted::with(&self.noted, &told);
        self.hearer.hear(told)
    }

    fn send(&mut self) -> io::Result<()>
        ensures { Hears (Some self.old.noted.told) (Some self.new.noted.told) [] }
    {
        self.hearer.send()
    }

    fn attention(&mut self) -> Attention
        ensures { Hears (Some self.old.noted.told) (Some self.new.noted.told) [] }
    {
        self.hearer.attention()
    }
}
