// The limits of a store.

/// The most bytes of a name.
pub const MAX_NAME: usize = 64;

/// The most bytes of a value of a map in any format.
pub const MAX_VALUE: usize = 1_024;

/// The most that is taken out of a stock or of a quota, or added to it, at once: 2 to the 63, less
/// one.
pub const MAX_AMOUNT: u64 = 9_223_372_036_854_775_807;

/// The most collections of a store.
pub const MAX_COLLECTIONS: usize = 256;

/// The most live transactions.
pub const MAX_LIVE: usize = 64;

/// The most calls and laters of one transaction together, a release and its later being one.
pub const MAX_CALLS: usize = 1_024;

/// The most records that wait for a block.
pub const MAX_PENDING: usize = 16_384;

/// The most blocks that wait for the disk.
pub const MAX_TRANSIT: usize = 4;

/// The most bytes of a block's body.
pub const MAX_BODY: usize = 65_535;

/// The fewest bytes of an area.
pub const MIN_AREA: u64 = 65_536;

/// The most bytes of an area of a store of the first format.
pub const MAX_AREA: u64 = 1_073_741_824;

/// Numbers of transactions lie below it, and steps that wear a book are refused from it on: 2 to
/// the 61.
pub const NUMBER_END: u64 = 2_305_843_009_213_693_952;

/// The most wear of a book: 2 to the 61, and 65,536 more.
pub const MAX_WEAR: u64 = 2_305_843_009_213_759_488;

/// The most clients made in a store's life.
pub const MAX_CLIENTS: u64 = 65_536;

/// The most transactions that one client begins: 2 to the 40.
pub const MAX_BEGINS: u64 = 1_099_511_627_776;
