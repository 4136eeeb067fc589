// What is there before the clients are measured.
use crate::bench::calling::Content;
use crate::bench::committing::commit_all;
use crate::bench::workload::Workload;
use calls::Refusal;
use fizgaloms::Work;
use std::alloc::AllocGlobal;
use std::rt::Clock;
use std::sync::Wait;
use store::{Client, Naming};

/// Makes the collections of a workload, one after another, with what they hold at the start.
#[derive(Clone, Copy)]
pub struct Preparing {
    pub workload: Workload,
}

impl Work for Preparing {
    type Output = Result<(), Refusal>;

    fn work<J: Naming, R: Wait + Clock + AllocGlobal>(
        &self,
        rt: &R,
        client: &mut Client<'_, J>,
        _thread: usize,
    ) -> Result<(), Refusal> {
        for number in 0..self.workload.collections() {
            fill(rt, client, self.workload.content(number))?;
        }
        Ok(())
    }
}

// Makes the collection of a content, and fills it.
fn fill<J: Naming, R: Wait + Clock + AllocGlobal>(
    rt: &R,
    client: &mut Client<'_, J>,
    content: Content,
) -> Result<(), Refusal> {
    let ticket = client.make(rt, content.collection, content.kind)?;
    client.wait(rt, &ticket)?;
    commit_all(rt, client, content, u64::from(content.size))
}
