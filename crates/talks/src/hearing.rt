// Who hears what a client is told.
use crate::told::Told;
use std::io;

/// Whether somebody still waits for what it is to be told.
#[derive(Clone, Copy)]
pub enum Attention {
    /// Somebody does.
    Patient,
    /// Somebody does, but not for long: all is to end soon.
    Hurried,
    /// Nobody does any more.
    Gone,
}

/// Who hears what a client is told.
pub trait Hearer<S> {
    ghost use Rattle.std.specs.Prelude.{List, [], ◌∷◌, Option, None};
    ghost use Rattle.talks.specs.declared.told.Told.{Told};
    ghost use Rattle.talks.specs.Hearing.{Hears};

    /// What it was given to hear so far, where that is known.
    ghost heard: { Self → Option (List (Told S)) } = { λ _. None };

    /// Hears this behind all before it. It may be kept back until `send`. Where it is refused, it
    /// is not known how much of this came to the one who was to hear it.
    fn hear(&mut self, told: Told<S>) -> io::Result<()>
        ensures { Hears (heard self.old) (heard self.new) (told ∷ []) };

    /// Sends on what was kept back.
    fn send(&mut self) -> io::Result<()>
        ensures { Hears (heard self.old) (heard self.new) [] };

    /// Whether it still waits for what it is to hear.
    fn attention(&mut self) -> Attention
        ensures { Hears (heard self.old) (heard self.new) [] };
}
