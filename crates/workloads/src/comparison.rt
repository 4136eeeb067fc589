// Fast structures beside plain lists, and images of what was gathered beside images taken at once,
// over fixed sequences of calls.
mod gatherings;
mod needs;
mod queues;
mod sequence;
mod tally;

use crate::trouble::Trouble;
use std::alloc::Global;
use std::io::Write;

/// Compares what is named, and writes how many calls were made and how often the two differed.
pub fn compare(alloc: Global, name: &str, out: &mut impl Write) -> Result<(), Trouble> {
    match name {
        "queue" => writeln!(out, "{name}: {}", queues::compare(alloc)?)?,
        "needs" => writeln!(out, "{name}: {}", needs::compare(alloc)?)?,
        "images" => writeln!(out, "{name}: {}", gatherings::compare(alloc)?)?,
        _ => return Err(Trouble::Usage),
    }
    Ok(())
}
