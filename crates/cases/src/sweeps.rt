// A disk that fails and is stopped at each of its calls, or holds bytes of a generator.
pub mod any_areas;
pub mod copies;
mod faults;
pub mod stops;
pub mod sweeping;
pub mod upgrades;
