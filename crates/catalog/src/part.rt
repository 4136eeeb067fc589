// A copy of one collection, with its name.
ghost use Rattle.std.specs.Prelude.{◌≡◌, IsOk, IfOk, OnOk, OnErr, IsOkUnless, string_bytes};
ghost use Rattle.calls.specs.Contents.{Collection, Answers, after};
ghost use Rattle.calls.specs.Names.{IsName};
ghost use Rattle.calls.specs.Rules.{TakesNoMemory};
ghost use Rattle.boosted.specs.Meaning.{IsRoomy};
ghost use Rattle.catalog.specs.Holdings.{content_of, Shows};
ghost use Rattle.catalog.specs.Places.{Reaches};

use crate::shown::shown_of;
use crate::{Holding, Shown};
use calls::{Call, Refusal, Reply};
use std::marker::Model;

/// A copy of one collection, with its name, on which calls go on.
pub trait Part: Drop {
    /// The name, and what it holds.
    ghost collection: { Self → Collection };

    /// Makes the call, answered so. NoMemory leaves the content as before, and comes only for a
    /// call that puts something in.
    fn run(&mut self, call: &Call, reply: &Reply) -> Result<(), Refusal>
        requires can { Answers (collection self.old).content call.now reply.now }
        requires room { IsRoomy (Reaches (collection self.old).content) }
        ensures ok { OnOk result (collection self.new ≡ record (collection self.old) {
          content = after (collection self.old).content call.now reply.now;
        }) }
        ensures err { OnErr result (collection self.new ≡ collection self.old) }
        ensures refusal { IsOkUnless result Refusal.NoMemory }
        ensures no_memory { TakesNoMemory call.now → IsOk result };

    /// The name, which is a good one, the kind, and the items in their order.
    ///
    /// NoMemory.
    fn shown(&self) -> Result<Shown, Refusal>
        ensures ok { IfOk result (λ shown. Shows (collection self.now) shown) }
        ensures refusal { IsOkUnless result Refusal.NoMemory };
}

/// A collection of any kind, with its name. Contracts see what it holds.
pub struct NamedHolding {
    name: String,
    holding: Holding,
}

// Written out, so that the crates above call it in place of proving it again.
impl Drop for NamedHolding {
    fn drop(self) {
        let Self { name, holding } = self;
        drop(name);
        drop(holding);
    }
}

impl Model for NamedHolding {
    ghost use Rattle.std.specs.Prelude.{string_bytes};
    ghost use Rattle.calls.specs.Contents.{Collection};
    ghost use Rattle.calls.specs.Names.{IsName};
    ghost use Rattle.catalog.specs.Holdings.{collection_code, content_of};

    ghost Value = { Collection };

    ghost coded = { collection_code };

    ghost view = { λ part. record {
      name = string_bytes part.name;
      content = content_of part.holding;
    } };

    ghost invariant = { λ part. IsName (string_bytes part.name) };
}

impl NamedHolding {
    // A copy of the holding, under the name. NoMemory alone is refused.
    pub(crate) fn copy_of(name: &String, holding: &Holding) -> Result<Self, Refusal>
        requires { IsName (string_bytes name.now) }
        ensures ok { IfOk result (λ part. part ≡
            record { name = string_bytes name.now; content = content_of holding.now }) }
        ensures refusal { IsOkUnless result Refusal.NoMemory }
    {
        let text = name.clone()?;
        let holding = holding.copy()?;
        Ok(Self {
            name: text,
            holding,
        })
    }
}

impl Part for NamedHolding {
    ghost collection = { λ part. part };

    fn run(&mut self, call: &Call, reply: &Reply) -> Result<(), Refusal> {
        self.holding.run(call, reply)
    }

    fn shown(&self) -> Result<Shown, Refusal> {
        Ok(shown_of(&self.name, &self.holding)?)
    }
}
