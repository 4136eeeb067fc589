//! Three examples of programs that stand on a store in a file, to be copied. They run one after
//! another, each on a file of its own, and each prints the same whatever the schedule of its
//! threads.
#![tactic(auto)]

mod id_service;
mod job_queue;
mod quota;

fn main(rt: HostRuntime) -> anyhow::Result<()> {
    println!(rt; "job_queue:")?;
    job_queue::run(&rt)?;
    println!(rt; "quota:")?;
    quota::run(&rt)?;
    println!(rt; "id_service:")?;
    id_service::run(&rt)
}
