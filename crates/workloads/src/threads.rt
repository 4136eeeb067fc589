// What clients in threads of their own are answered.
pub mod load;
pub mod looks_on_two_shelves;
pub mod second_call_during_sync;
pub mod waits_for_a_job;
