// What a shelf shows of a call.
use calls::{Need, Refusal, Reply};

/// What a shelf shows of a call that a transaction wants to make there, or to defer.
#[derive(Drop)]
pub enum Looked {
    /// The call cannot be asked for there.
    Refused(Refusal),
    /// There was no memory for the value in its reply.
    Starved,
    /// The reply that it gets now, the need that it has with that reply, and whether no other
    /// transaction holds a need in the way: Busy with the least that does.
    Answered {
        reply: Reply,
        need: Need,
        clear: Result<(), Refusal>,
    },
}
