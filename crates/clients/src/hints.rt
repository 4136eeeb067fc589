// Where a client last found the collections of names.
ghost use Rattle.std.specs.Prelude.{◌<◌};

// How many names have a place of their own, at most.
const SLOTS: usize = 64;

// The number that tells nothing. A collection of this number is never told.
const NONE: u8 = 255;

/// Where a client last found the collections of names: a table of a few slots, which a name shares
/// with others. It may tell a wrong number, so who goes by it looks whether the name is there.
/// Contracts say nothing of it.
#[derive(Drop)]
pub(crate) struct Hints {
    places: [u8; SLOTS],
}

impl Hints {
    /// Nothing was found yet.
    pub(crate) fn new() -> Self {
        Self {
            places: [NONE; SLOTS],
        }
    }

    /// The number that was last found for a name of this slot.
    pub(crate) fn told(&self, name: &str) -> Option<u8> {
        let at = self.places[slot(name)];
        (at != NONE).then_some(at)
    }

    /// The collection of the name was found at the number.
    pub(crate) fn tell(&mut self, name: &str, at: u8) {
        self.places[slot(name)] = at;
    }
}

// The slot of the name, by its length and its ends.
fn slot(name: &str) -> usize
    ensures { result < 64 }
{
    let bytes = name.as_bytes();
    let (Some(first), Some(last)) = (bytes.first(), bytes.last()) else {
        return 0;
    };
    (bytes.len() % SLOTS + usize::from(*first) * 7 + usize::from(*last) * 31) % SLOTS
}
