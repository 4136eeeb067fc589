// Leaving collections out of a copy, and naming them otherwise.
ghost use Rattle.std.specs.Prelude.{◌≡◌, List, []};
ghost use Rattle.std.specs.Prelude.{OnOk, IfOk, IfErr, IsOkUnless};
ghost use Rattle.std.specs.List.{AllByRecursion};
ghost use Rattle.calls.specs.declared.refusal.Refusal.{Refusal};
ghost use Rattle.calls.specs.Contents.{Collection};
ghost use Rattle.calls.specs.Names.{IsName};
ghost use Rattle.catalog.specs.Making.{IsFree, AreDistinct};
ghost use Rattle.catalog.specs.Woven.{names_in};
ghost use Rattle.recovery.specs.Edits.{edited_once, CanEdit, RefusesNew, RefusesEdit};
ghost use Rattle.recovery.specs.Kept.{kept_names, AreKept, Keeps, Refuses, OrStarved};
ghost use Rattle.recovery.specs.Kept.{IsNamedAt, HasNone};

use calls::{Name, Refusal, check_name};
use catalog::{Named, Names};
use std::alloc::Global;

/// What a copy changes of the collections of a store.
#[derive(Drop, Debug)]
pub enum Edit {
    /// Leaves the collection of the name out.
    Without(Name),
    /// Gives the collection that is named `from` the name `to`.
    Rename { from: Name, to: Name },
}

/// A collection that a copy has: its place in the store, and its name in the copy.
#[derive(Drop)]
pub(crate) struct Kept {
    pub(crate) at: u8,
    pub(crate) name: Name,
}

/// The collections of these names that are left once the edits are made, one after another.
///
/// Refused for an edit as `copy` says, and NoMemory. It takes time in proportion to the names for
/// each edit.
pub(crate) fn keep(alloc: Global, names: &Names, edits: &[Edit]) -> Result<Vec<Kept>, Refusal>
    ensures kept { IfOk result (λ kept. Keeps edits.now (names_in names.now) kept.items) }
    ensures good { IfOk result (λ kept. AllByRecursion IsName (kept_names kept.items)) }
    ensures distinct { IfOk result (λ kept. AreDistinct (kept_names kept.items)) }
    ensures refused { IfErr result (OrStarved (Refuses edits.now (names_in names.now))) }
{
    let mut kept = all_of(alloc, names)?;
    for edit in edits {
        make(edit, &mut kept)?;
    }
    Ok(kept)
}

// All collections of the names, in their order.
fn all_of(alloc: Global, names: &Names) -> Result<Vec<Kept>, Refusal>
    ensures all { IfOk result (λ kept. Keeps [] (names_in names.now) kept.items) }
    ensures good { IfOk result (λ kept. AllByRecursion IsName (kept_names kept.items)) }
    ensures distinct { IfOk result (λ kept. AreDistinct (kept_names kept.items)) }
    ensures refusal { IsOkUnless result Refusal.NoMemory }
{
    let mut kept = Vec::new(alloc);
    for at in 0..names.count() {
        let at = at as u8;
        let Some(name) = names.name(at) else {
            unreachable!();
        };
        let name = Name::new(name.clone()?);
        kept.push(Kept { at, name })?;
    }
    Ok(kept)
}

// Makes the edit.
fn make(edit: &Edit, kept: &mut Vec<Kept>) -> Result<(), Refusal>
    requires good { AllByRecursion IsName (kept_names kept.old.items) }
    requires distinct { AreDistinct (kept_names kept.old.items) }
    ensures can { OnOk result (CanEdit edit.now (kept_names kept.old.items)) }
    ensures made { OnOk result ((s xs : List Collection) → AreKept s kept.old.items xs →
        AreKept s kept.new.items (edited_once edit.now xs)) }
    ensures good { OnOk result (AllByRecursion IsName (kept_names kept.new.items)) }
    ensures distinct { OnOk result (AreDistinct (kept_names kept.new.items)) }
    ensures refused { IfErr result
        (OrStarved (RefusesEdit edit.now (kept_names kept.old.items))) }
{
    match edit {
        Edit::Without(name) => {
            let place = place_of(kept, name)?;
            drop(kept.remove(place));
        }
        Edit::Rename { from, to } => {
            let place = place_of(kept, from)?;
            check_new(kept, to)?;
            kept[place].name = to.copy()?;
        }
    }
    Ok(())
}

// The place of the one that has the name in the copy.
fn place_of(kept: &[Kept], name: &Name) -> Result<usize, Refusal>
    ensures there { IfOk result (IsNamedAt kept.now name.now) }
    ensures refused { IfErr result (λ e. (e ≡ Refusal.NoSuchCollection) ×
        HasNone kept.now name.now) }
{
    match kept
        .iter()
        .position(|other| other.name.as_str() == name.as_str())
    {
        Some(place) => Ok(place),
        None => Err(Refusal::NoSuchCollection),
    }
}

// Whether one of them may get the name.
fn check_new(kept: &[Kept], name: &Name) -> Result<(), Refusal>
    ensures ok { OnOk result (IsName name.now × IsFree (kept_names kept.now) name.now) }
    ensures err { IfErr result (RefusesNew (kept_names kept.now) name.now) }
{
    check_name(name.as_str())?;
    match place_of(kept, name) {
        Ok(_) => Err(Refusal::NameTaken),
        Err(_) => Ok(()),
    }
}
