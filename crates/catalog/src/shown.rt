// What is shown of a collection.
ghost use Rattle.std.specs.Prelude.{string_bytes, IfOk};
ghost use Rattle.calls.specs.Names.{IsName};
ghost use Rattle.catalog.specs.Holdings.{content_of, Shows};

use crate::Holding;
use calls::{Item, Kind, Name};
use std::alloc::AllocError;

/// What is shown of a collection: its name, its kind, and its items in their order.
#[derive(Drop)]
pub struct Shown {
    pub name: Name,
    pub kind: Kind,
    pub items: Vec<Item>,
}

// What is shown of the holding, under the name. NoMemory alone is refused.
pub(crate) fn shown_of(name: &String, holding: &Holding) -> Result<Shown, AllocError>
    requires { IsName (string_bytes name.now) }
    ensures { IfOk result (λ shown. Shows
        (record { name = string_bytes name.now; content = content_of holding.now }) shown) }
{
    let text = name.clone()?;
    let items = holding.items(*name.allocator())?;
    Ok(Shown {
        name: Name::new(text),
        kind: holding.kind(),
        items,
    })
}
