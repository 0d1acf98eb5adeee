//! How large a set of events may be.

/// The greatest number of callers of one set.
pub const MOST_WORKERS: u32 = 16;
/// The greatest number of rows of each caller: 7 words each, so that 16 callers have about 118 MB of them.
pub const MOST_ROWS: u32 = 131_072;
