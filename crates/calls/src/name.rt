// The name of a collection.
ghost use Rattle.std.specs.Prelude.{◌≡◌, IfOk, string_bytes};

use std::alloc::AllocError;
use std::marker::Model;

/// The name of a collection. Contracts see the list of its bytes. Whether it is a good name says
/// `check_name`.
#[derive(Debug)]
pub struct Name {
    text: String,
}

// Written out, so that the crates above call it in place of proving it again.
impl Drop for Name {
    fn drop(self) {
        let Self { text } = self;
        drop(text);
    }
}

impl Model for Name {
    ghost use Rattle.std.specs.Prelude.{List, ℕ, string_bytes};

    ghost Value = { List ℕ };

    ghost view = { λ name. string_bytes name.text };
}

impl Name {
    /// The name that a text spells, which is not copied.
    pub fn new(text: String) -> Self
        ensures { result ≡ string_bytes text }
    {
        Self { text }
    }

    /// The same name once more. Refused only for want of memory.
    pub fn copy(&self) -> Result<Self, AllocError>
        ensures { IfOk result (λ name. name ≡ self.now) }
    {
        Ok(Self {
            text: self.text.clone()?,
        })
    }

    /// The text of the name.
    pub fn as_str(&self) -> &str
        ensures { result.now ≡ self.now }
    {
        self.text.as_str()
    }
}
