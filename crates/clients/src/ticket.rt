// Tickets of commits.

/// The ticket of a commit or of a making. It tells its place among those since the store was
/// opened, from 1 on. `Client::kept` and `Client::wait` say whether it is kept through a stop. A
/// ticket speaks of the store that gave it, and of no other.
#[derive(Clone, Copy)]
pub struct Ticket {
    /// The count of commits and makes, this one included.
    pub place: u64,
}
