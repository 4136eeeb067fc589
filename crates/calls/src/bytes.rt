// A value of a map.
ghost use Rattle.std.specs.Prelude.{◌≡◌, ◌↔◌, IsTrue};

use std::alloc::AllocError;
use std::marker::Model;

/// A value of a map: a list of bytes. Contracts see the list.
#[derive(Debug)]
pub struct Bytes {
    items: Vec<u8>,
}

// Written out, so that the crates above call it in place of proving it again.
impl Drop for Bytes {
    fn drop(self) {
        let Self { items } = self;
        drop(items);
    }
}

impl Model for Bytes {
    ghost use Rattle.std.specs.Prelude.{List, ℕ};

    ghost Value = { List ℕ };

    ghost view = { λ bytes. bytes.items.items };
}

impl Bytes {
    /// The bytes of a vector, which are not copied.
    pub fn new(items: Vec<u8>) -> Self
        ensures { result ≡ items.items }
    {
        Bytes { items }
    }

    /// Whether the bytes are the same. It takes no memory.
    pub fn is_same(&self, other: &Bytes) -> bool
        ensures { IsTrue result ↔ self.now ≡ other.now }
    {
        self.as_slice() == other.as_slice()
    }

    /// The bytes.
    pub fn as_slice(&self) -> &[u8]
        ensures { result.now ≡ self.now }
    {
        self.items.as_slice()
    }
}

/// The same bytes once more. Refused only for want of memory.
impl Clone for Bytes {
    ghost use Rattle.std.specs.Prelude.{◌≡◌};

    ghost is_clone = { λ bytes copy. copy ≡ bytes };

    fn clone(&self) -> Result<Self, AllocError> {
        Ok(Self {
            items: self.items.clone()?,
        })
    }
}
