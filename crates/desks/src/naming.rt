// Which store it is.
use std::marker::Brand;

/// Which store it is. What lies under a lock is known by its type alone, so the type of a store
/// names it. A program picks the name once, for a store that was just opened: it passes `Brand` to
/// a function that is generic in it. The crate's page shows how. No value of it is made.
pub trait Naming {
    ghost use Rattle.std.specs.Prelude.{ℕ, List};
    ghost use Rattle.atomic_table.specs.Seated.{TableId};
    ghost use Rattle.catalog.specs.declared.four.Four.{Four};
    ghost use Rattle.desks.specs.Origins.{Origin};

    /// The tables of the line, of the mark, of the numbers and of the hand-off, and of the accords
    /// on what is gathered of the book and on the image that the keeper awaits.
    ghost line: { TableId };

    ghost mark: { TableId };

    ghost numbers: { TableId };

    ghost handoff: { TableId };

    ghost gathering: { TableId };

    ghost awaited: { TableId };

    /// The tables of the twins, one for each shelf.
    ghost shelves: { Four TableId };

    /// What the store was opened with.
    ghost origin: { Origin };

    /// The moment of the disk at which it was open, and what a stop at a moment since an earlier
    /// one might have left then.
    ghost opened_at: { ℕ };

    ghost left_since: { ℕ → List ℕ → Type 0 };

    /// What is taken for granted of the disk at the opening: the clauses on what a stop leaves
    /// stand under it.
    ghost sound: { Type 0 };
}

impl Naming for Brand {
    ghost use Rattle.std.specs.Prelude.{[]};
    ghost use Rattle.calls.specs.declared.format.Format.{Format};
    ghost use Rattle.desks.specs.NoStore.{no_table};

    ghost line = { no_table };

    ghost mark = { no_table };

    ghost numbers = { no_table };

    ghost handoff = { no_table };

    ghost gathering = { no_table };

    ghost awaited = { no_table };

    ghost shelves = { record {
      first = no_table;
      second = no_table;
      third = no_table;
      fourth = no_table;
    } };

    ghost origin = { record {
      start = [];
      format = Format.One;
      wear = 0;
      next = 0;
    } };

    ghost opened_at = { 0 };

    ghost left_since = { λ t bytes. ⊥ };

    ghost sound = { ⊥ };
}
