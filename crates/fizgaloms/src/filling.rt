// When a checkpoint is asked for.
use crate::checkpoints::Checkpoints;
use store::Signal;

// A checkpoint is asked for once no more than a part of what was free behind the last one is, or
// once so much was added to the next image that clients would soon have to wait.
const PART: u64 = 2;

// How far the journal has filled what the area had behind its image.
#[derive(Drop)]
pub(crate) struct Filling {
    // how many bytes were free behind the last checkpoint, or at the opening
    free: u64,
    // whether a checkpoint was asked for that is not over
    is_asked: bool,
    // up to which wish of clients one was asked for
    wished: u64,
}

impl Filling {
    pub(crate) fn new(free: u64) -> Filling {
        Filling {
            free,
            is_asked: false,
            wished: 0,
        }
    }

    // Whether clients sleep for want of room for whom no checkpoint was asked for yet.
    pub(crate) fn is_wished(&self, signal: &Signal) -> bool {
        signal.wishes() > self.wished
    }

    // A checkpoint is asked for, for clients that sleep for want of room. One that is under way may
    // have begun before what they wait for.
    pub(crate) fn hear(&mut self, signal: &Signal, checkpoints: &Checkpoints) {
        if self.is_wished(signal) {
            self.wished = signal.wishes();
            checkpoints.ask();
            self.is_asked = true;
        }
    }

    // So many bytes are free behind a block. A checkpoint that made no room is not asked for again
    // before a part of what is left is filled too.
    pub(crate) fn note(&mut self, free: u64, signal: &Signal, checkpoints: &Checkpoints) {
        if checkpoints.is_asked() {
            return;
        }
        if self.is_asked {
            self.is_asked = false;
            self.free = free;
        }
        if free < self.free / PART || signal.is_filling() {
            checkpoints.ask();
            self.is_asked = true;
        }
    }
}
