// What is counted of the system's calls.
use std::rt::{Env, Files};
use std::{env, fs};

/// How often files were synced, and how many bytes were written, as the file says that the
/// environment's `PEERSTAT` names; nothing without one.
#[derive(Clone, Copy)]
pub struct Counts {
    pub syncs: u64,
    pub bytes: u64,
}

// Nothing.
const NONE: Counts = Counts { syncs: 0, bytes: 0 };

impl Counts {
    /// What was counted so far.
    pub fn read(rt: &(impl Env + Files + AllocGlobal)) -> Counts {
        let Ok(path) = env::var(rt, "PEERSTAT") else {
            return NONE;
        };
        let Ok(bytes) = fs::read(rt, path) else {
            return NONE;
        };
        Counts {
            syncs: (0..5)
                .map(|place| word(bytes.as_slice(), place))
                .fold(0, u64::wrapping_add),
            bytes: word(bytes.as_slice(), 6),
        }
    }

    /// What was counted since.
    pub fn since(self, earlier: Counts) -> Counts {
        Counts {
            syncs: self.syncs.saturating_sub(earlier.syncs),
            bytes: self.bytes.saturating_sub(earlier.bytes),
        }
    }
}

// The word of that place, or 0.
fn word(bytes: &[u8], place: usize) -> u64 {
    let (words, _) = bytes.as_chunks::<8>();
    match words.get(place) {
        Some(word) => u64::from_le_bytes(*word),
        None => 0,
    }
}
