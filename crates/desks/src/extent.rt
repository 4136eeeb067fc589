// How far an area is filled.
ghost use Rattle.desks.specs.Statuses.{IsExtentOf};

use gate_block::Area;
use gate_block::layout::AREAS_AT;

/// How far the area in use is filled.
#[derive(Clone, Copy)]
pub struct Extent {
    /// The size of each of the two areas.
    pub area: u64,
    /// Whether the first area is the one in use.
    pub first: bool,
    /// What image and journal take of it, with the closed gate behind them.
    pub used: u64,
}

impl Extent {
    /// How far an area is filled that is in use. It takes no memory.
    pub fn of(area: &Area) -> Self
        ensures { IsExtentOf area.now result }
    {
        let size = area.size();
        Self {
            area: size,
            first: area.base() == AREAS_AT,
            used: size - area.room() + 1,
        }
    }
}
