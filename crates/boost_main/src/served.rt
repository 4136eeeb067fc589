// What a thread of a server answers.
use crate::trouble::Trouble;
use talks::Noted;

/// How a thread's part in serving clients ended, and what its client was told in its talks.
#[derive(Drop)]
pub struct Served {
    pub ended: Result<(), Trouble>,
    pub told: Noted,
}
