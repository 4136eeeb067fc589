// Why a step is not taken yet.

/// Why a step was not taken under the locks: there was no room for what it adds.
#[derive(Clone, Copy)]
pub(crate) enum Miss {
    /// What it adds fits behind a checkpoint, perhaps.
    NoRoomYet,
    /// What it adds does not fit.
    NoRoom,
}
