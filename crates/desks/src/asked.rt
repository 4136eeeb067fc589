// What a client asked for.
ghost use Rattle.std.specs.Prelude.{◌≡◌, ◌≢◌, ◌↔◌, IsTrue};

/// What a client asked for since it last forgot: sets of collections, a bit for each number modulo
/// 64.
#[derive(Clone, Copy, Default)]
pub struct Asked {
    /// Those of which it asked for anything.
    pub asked: u64,
    /// Those that it changed.
    pub changed: u64,
    /// The number of the transaction that was in its way; 0 where none was.
    pub blocker: u64,
}

impl Asked {
    /// Nothing was asked for.
    pub fn new() -> Asked
        ensures { result ≡ record { asked = 0; changed = 0; blocker = 0 } }
    {
        Asked {
            asked: 0,
            changed: 0,
            blocker: 0,
        }
    }

    /// Something of the collection was asked for.
    pub fn note(&mut self, at: u8)
        ensures changed { self.new.changed ≡ self.old.changed }
        ensures blocker { self.new.blocker ≡ self.old.blocker }
    {
        self.asked |= bit_of(at);
    }

    /// It changed the collection.
    pub fn note_change(&mut self, at: u8)
        ensures asked { self.new.asked ≡ self.old.asked }
        ensures blocker { self.new.blocker ≡ self.old.blocker }
    {
        self.changed |= bit_of(at);
    }

    /// The transaction of the number was in its way.
    pub fn note_blocker(&mut self, number: u64)
        ensures { self.new ≡ record self.old { blocker = number } }
    {
        self.blocker = number;
    }

    /// Whether somebody was in its way.
    pub(crate) fn is_blocked(&self) -> bool
        ensures { IsTrue result ↔ (self.now.blocker ≢ 0) }
    {
        self.blocker != 0
    }
}

/// A transaction that ended: its number, the collections that it changed, and whether it was
/// committed.
#[derive(Clone, Copy)]
pub struct Ended {
    pub number: u64,
    pub changed: u64,
    pub is_commit: bool,
}

impl Ended {
    /// Whether another try may be worth it for one whose last try asked for this: where somebody
    /// was in its way, once that one has ended; where nobody was, once something has changed.
    pub(crate) fn serves(&self, asked: &Asked) -> bool
        ensures blocked { asked.now.blocker ≢ 0 →
            (IsTrue result ↔ (asked.now.blocker ≡ self.now.number)) }
    {
        if asked.is_blocked() {
            return asked.blocker == self.number;
        }
        meets(asked.asked, self.changed)
    }
}

/// The set of the collection of the number, or of the seat.
pub(crate) fn bit_of(at: u8) -> u64 {
    1 << (at % 64)
}

/// Whether the sets have something in common.
pub(crate) fn meets(one: u64, other: u64) -> bool {
    one & other != 0
}
