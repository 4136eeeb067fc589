// A call of a file, as it is noted.

/// A call of a file: where it was, and whether it was answered well.
#[derive(Drop)]
pub enum DeviceCall {
    Read(u64),
    Write(u64, bool),
    Sync(bool),
}
