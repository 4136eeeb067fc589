// Calls of an attempt, whether they are made at once or deferred.
use calls::{Call, Refusal, Reply};
use store::Attempt;

/// Makes a call on the collection of the name, in an attempt at a transaction. A fill, which no
/// attempt makes at once, is deferred to the commit and answered Done.
///
/// The refusals of `Attempt::call`, or of `Attempt::later`.
pub fn ask<A: Attempt>(attempt: &mut A, name: &str, call: &Call) -> Result<Reply, Refusal> {
    match call {
        Call::Fill(_) => {
            attempt.later(name, call)?;
            Ok(Reply::Done)
        }
        _ => attempt.call(name, call),
    }
}
