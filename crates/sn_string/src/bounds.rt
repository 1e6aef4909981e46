//! Bounds that several crates keep to.

/// The last stamp: the last microsecond of the year 9999, counted from the first of 1970 in UTC.
pub const LAST_STAMP: u64 = 253_402_300_799_999_999;

/// The most bytes of a content.
pub const LONGEST_CONTENT: usize = 700_000;

/// The most bytes of a string of an item on a server.
pub const MOST_STRING: usize = 1_048_576;

/// The most bytes of the strings of a request's items, of a page, and of the stored items of an answer.
pub const MOST_BYTES: u64 = 4_194_304;

/// The most accounts of a server.
pub const MOST_ACCOUNTS: u64 = 1_000_000;
