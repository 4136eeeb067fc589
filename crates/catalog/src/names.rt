// The names of collections, with their kinds.
ghost use Rattle.std.specs.Prelude.{◌≡◌, ◌↔◌, ◌≤◌, [], ◌∷◌, ◌++◌, List, Some, length, slice_get};
ghost use Rattle.std.specs.Prelude.{IsTrue, IfOk, IfErr, IfSome, OnOk, OnErr, IsOkUnless};
ghost use Rattle.std.specs.Prelude.{string_bytes};
ghost use Rattle.std.specs.Option.{option_map};
ghost use Rattle.calls.specs.Limits.{max_collections};
ghost use Rattle.calls.specs.Names.{IsName};
ghost use Rattle.catalog.specs.Making.{IsPlaceOf, FindRefused, IsNew, NewRefused, AreDistinct};
ghost use Rattle.catalog.specs.Woven.{Label, names_in};

use calls::limits::MAX_COLLECTIONS;
use calls::{Kind, Refusal, check_name};
use indexmap::IndexMap;
use std::alloc::Global;
use std::marker::Model;

/// Names of collections, each with its kind, in the order of making: the place of a name is the
/// number of its collection.
pub trait Named: Drop {
    /// The names and the kinds, in the order of making.
    ghost labels: { Self → List Label };

    /// The place of the name. One search; it takes no memory.
    ///
    /// BadName and TooLong as `check_name` says, then NoSuchCollection where no collection has the
    /// name.
    fn find(&self, name: &str) -> Result<u8, Refusal>
        ensures ok { IfOk result (λ at. IsName name.now ×
            IsPlaceOf (names_in (labels self.now)) name.now at) }
        ensures err { IfErr result (FindRefused (names_in (labels self.now)) name.now) };

    /// Whether a collection can be made under the name. One search; it takes no memory.
    ///
    /// BadName and TooLong as `check_name` says, then NameTaken, TooManyCollections where there are
    /// 256.
    fn check_new(&self, name: &str) -> Result<(), Refusal>
        ensures ok { OnOk result (IsNew (names_in (labels self.now)) name.now) }
        ensures err { IfErr result (NewRefused (names_in (labels self.now)) name.now) };

    /// Whether the name stands at the place. One index.
    fn is_at(&self, name: &str, at: u8) -> bool
        ensures { IsTrue result ↔ (slice_get (names_in (labels self.now)) at ≡ Some name.now) };

    /// The kind of the collection at the place, if there is one. One index.
    fn kind(&self, at: u8) -> Option<Kind>
        ensures { result ≡ option_map (λ x. x.kind) (slice_get (labels self.now) at) };

    /// The name of the collection at the place, if there is one. One index.
    fn name(&self, at: u8) -> Option<&String>
        ensures there { option_map (λ name. string_bytes name.now) result ≡
            option_map (λ x. x.name) (slice_get (labels self.now) at) }
        ensures good { IfSome result (λ name. IsName (string_bytes name.now)) };

    /// How many there are.
    fn count(&self) -> usize
        ensures len { result ≡ length (labels self.now) }
        ensures few { result ≤ max_collections }
        ensures distinct { AreDistinct (names_in (labels self.now)) };
}

/// The names of a catalog, at most 256, with the kinds. Contracts see the list of both.
pub struct Names {
    kinds: IndexMap<String, Kind>,
}

// Written out, so that the crates above call it in place of proving it again.
impl Drop for Names {
    fn drop(self) {
        let Self { kinds } = self;
        drop(kinds);
    }
}

impl Model for Names {
    ghost use Rattle.std.specs.Prelude.{List, ◌≤◌};
    ghost use Rattle.indexmap.specs.IndexMap.{index_map_len};
    ghost use Rattle.calls.specs.Limits.{max_collections};
    ghost use Rattle.catalog.specs.Woven.{Label, labels_of, AreGood};

    ghost Value = { List Label };

    ghost view = { λ names. labels_of names.kinds.entries };

    ghost invariant = { λ names. (index_map_len names.kinds ≤ max_collections) ×
        AreGood (labels_of names.kinds.entries) };
}

impl Names {
    // No names. It takes no memory.
    pub(crate) fn new(alloc: Global) -> Self
        ensures { result ≡ [] }
    {
        Self {
            kinds: IndexMap::new(alloc),
        }
    }

    // The allocator.
    pub(crate) fn alloc(&self) -> Global {
        *self.kinds.allocator()
    }

    // Puts a name at the end.
    pub(crate) fn add(&mut self, name: &str, kind: Kind) -> Result<(), Refusal>
        requires { IsNew (names_in self.old) name.now }
        ensures ok { OnOk result (self.new ≡ self.old ++
            record { name = name.now; kind = kind } ∷ []) }
        ensures err { OnErr result (self.new ≡ self.old) }
        ensures refusal { IsOkUnless result Refusal.NoMemory }
    {
        let alloc = *self.kinds.allocator();
        let key = name.to_string(alloc)?;
        self.kinds.insert(key, kind)?;
        Ok(())
    }
}

impl Named for Names {
    ghost labels = { λ names. names };

    fn find(&self, name: &str) -> Result<u8, Refusal> {
        check_name(name)?;
        match self.kinds.get_index_of(name) {
            Some(at) => Ok(at as u8),
            None => Err(Refusal::NoSuchCollection),
        }
    }

    fn check_new(&self, name: &str) -> Result<(), Refusal> {
        check_name(name)?;
        if self.kinds.contains_key(name) {
            return Err(Refusal::NameTaken);
        }
        if self.kinds.len() >= MAX_COLLECTIONS {
            return Err(Refusal::TooManyCollections);
        }
        Ok(())
    }

    fn is_at(&self, name: &str, at: u8) -> bool {
        match self.kinds.get_index(usize::from(at)) {
            Some((key, _)) => key.as_str() == name,
            None => false,
        }
    }

    fn kind(&self, at: u8) -> Option<Kind> {
        match self.kinds.get_index(usize::from(at)) {
            Some((_, kind)) => Some(*kind),
            None => None,
        }
    }

    fn name(&self, at: u8) -> Option<&String> {
        match self.kinds.get_index(usize::from(at)) {
            Some((name, _)) => Some(name),
            None => None,
        }
    }

    fn count(&self) -> usize {
        self.kinds.len()
    }
}
