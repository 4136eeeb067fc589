// The texts of refusals, and the room of what clauses alone read.
use crate::plays::told::Told;
use boost::Response;
use calls::Refusal;
use disk_model::{FileDisk, Past, Unknown};
use std::fs::File;
use std::mem::size_of;

/// Each refusal, by rising number.
const REFUSALS: [Refusal; 27] = [
    Refusal::BadName,
    Refusal::BadArg,
    Refusal::TooLong,
    Refusal::NoMemory,
    Refusal::NameTaken,
    Refusal::NoSuchCollection,
    Refusal::WrongKind,
    Refusal::TooManyCollections,
    Refusal::Busy(3),
    Refusal::NoSuchTxn,
    Refusal::Falling,
    Refusal::TooManyLive,
    Refusal::TooManyCalls,
    Refusal::Backlog,
    Refusal::AlreadyGoing,
    Refusal::Worn,
    Refusal::Damaged(4119),
    Refusal::Full,
    Refusal::Fault,
    Refusal::Failed,
    Refusal::NotAStore,
    Refusal::NotNow,
    Refusal::Lost,
    Refusal::Unfinished,
    Refusal::AlreadyLive,
    Refusal::Imaging,
    Refusal::Outrun,
];

/// Tells how a line of a script is answered that is refused, for each refusal.
pub fn tell_all(told: &mut Told) {
    for refusal in &REFUSALS {
        told.tell(Response::Refused(*refusal));
    }
}

/// Tells why something was refused, where it was.
pub fn tell_refusal(done: Result<(), Refusal>, told: &mut Told) {
    if let Err(refusal) = done {
        told.tell(format_args!("refused {refusal}"));
    }
}

/// Tells how many bytes a disk's past takes, a file, and a disk that is a file.
pub fn tell_sizes(told: &mut Told) {
    let (past, file) = (size_of::<Past>(), size_of::<File>());
    let file_disk = size_of::<FileDisk<Unknown>>();
    told.tell(format_args!("{past} {file} {file_disk}"));
}
