// What a committer and a checkpointer tell each other.
use calls::Refusal;
use crossbeam_utils::sync::EventCount;
use std::sync::atomic::{AtomicBool, AtomicU64, Ordering};
use std::sync::{OnceLock, Wait};

// What a committer asks of a checkpointer, and what became of it. Requests are numbered from 1 on.
// The committer's thread alone asks, and the checkpointer's alone answers.
#[derive(Drop)]
pub(crate) struct Checkpoints {
    // the last request, the last one that was answered, and the last one that made no room
    asked: AtomicU64,
    answered: AtomicU64,
    in_vain: AtomicU64,
    is_over: AtomicBool,
    // on which both sleep
    events: EventCount,
    // what ended keeping early
    ended_by: OnceLock<Refusal>,
}

impl Checkpoints {
    pub(crate) fn new() -> Checkpoints {
        Checkpoints {
            asked: AtomicU64::new(0),
            answered: AtomicU64::new(0),
            in_vain: AtomicU64::new(0),
            is_over: AtomicBool::new(false),
            events: EventCount::new(),
            ended_by: OnceLock::new(),
        }
    }

    // Asks for a checkpoint that begins from here on, and answers the number of the request.
    pub(crate) fn ask(&self) -> u64 {
        let asked = self.asked.fetch_add(1, Ordering::SeqCst).wrapping_add(1);
        self.events.notify_all();
        asked
    }

    // Whether a request is not answered yet.
    pub(crate) fn is_asked(&self) -> bool {
        self.answered.load(Ordering::SeqCst) < self.asked.load(Ordering::SeqCst)
    }

    // Asks for a checkpoint, and sleeps until it is there. Whether it made room.
    pub(crate) fn has_made_room<R: Wait>(&self, rt: &R) -> bool {
        let asked = self.ask();
        for _ in rt.forever() {
            let events = self.events.prepare_wait();
            if self.answered.load(Ordering::SeqCst) >= asked {
                break;
            }
            events.wait(rt);
        }
        self.in_vain.load(Ordering::SeqCst) < asked
    }

    // Sleeps until a checkpoint is asked for, and answers the number of the last request; none once
    // no more comes.
    pub(crate) fn next<R: Wait>(&self, rt: &R) -> Option<u64> {
        for _ in rt.forever() {
            let events = self.events.prepare_wait();
            if self.is_over() {
                return None;
            }
            let asked = self.asked.load(Ordering::SeqCst);
            if asked > self.answered.load(Ordering::SeqCst) {
                return Some(asked);
            }
            events.wait(rt);
        }
        unreachable!()
    }

    // All requests up to this one are answered by one checkpoint, which made room, or did not.
    pub(crate) fn answer(&self, asked: u64, made_room: bool) {
        if !made_room {
            self.in_vain.store(asked, Ordering::SeqCst);
        }
        self.answered.store(asked, Ordering::SeqCst);
        self.events.notify_all();
    }

    // No more checkpoints are asked for.
    pub(crate) fn end(&self) {
        self.is_over.store(true, Ordering::SeqCst);
        self.events.notify_all();
    }

    // Whether no more checkpoints are asked for.
    pub(crate) fn is_over(&self) -> bool {
        self.is_over.load(Ordering::SeqCst)
    }

    // Keeping ends early, for this refusal. Whether it is the first one.
    pub(crate) fn end_by(&self, refusal: Refusal) -> bool {
        self.ended_by.try_set(refusal).is_ok()
    }

    // What ended keeping early, if something did.
    pub(crate) fn ended_by(&self) -> Option<Refusal> {
        self.ended_by.get().copied()
    }
}
