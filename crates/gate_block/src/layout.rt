//! Where the parts of a store's disk stand.

/// Where the gate of the head stands.
pub const GATE_AT: u64 = 8;

/// Where the size of an area stands, in eight bytes.
pub const SIZE_AT: u64 = 9;

/// Where the root byte stands, whose lowest bit picks the area in use.
pub const ROOT_AT: u64 = 512;

/// Where the first area begins; the second one follows it.
pub const AREAS_AT: u64 = 4096;

/// A gate that is open. Every other value is a closed one.
pub const OPEN: u8 = 0xA7;
