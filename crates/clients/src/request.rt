// What is asked of a collection.
use calls::{Call, When};

/// A call that the collection of a name is asked for, and when it is to be made.
#[derive(Drop)]
pub(crate) struct Request<'a> {
    pub name: &'a str,
    pub call: &'a Call,
    pub when: When,
}
