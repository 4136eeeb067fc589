// How large a collection is.
ghost use Rattle.std.specs.Prelude.{string_bytes, IfOk};
ghost use Rattle.catalog.specs.Holdings.{content_of, Measures};

use crate::Holding;
use calls::{Kind, Name};
use std::alloc::AllocError;

/// How large a collection is: its name, its kind, and how many items it has.
#[derive(Drop)]
pub struct Measured {
    pub name: Name,
    pub kind: Kind,
    /// As many as `Catalog::show` lists: one of a counter and of a stock.
    pub items: usize,
}

// How large the holding is, under the name. NoMemory alone is refused.
pub(crate) fn measured_of(name: &String, holding: &Holding) -> Result<Measured, AllocError>
    ensures { IfOk result (λ measured. Measures
        (record { name = string_bytes name.now; content = content_of holding.now }) measured) }
{
    Ok(Measured {
        name: Name::new(name.clone()?),
        kind: holding.kind(),
        items: holding.count(),
    })
}
