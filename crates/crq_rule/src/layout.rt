//! The place of each word of the table.

ghost use Rattle.std.specs.Prelude.{◌≡◌, ◌+◌, ◌*◌, ◌≤◌};
ghost use Rattle.crq_base.specs.Sizes.{IsTeam, AreRows};

use crq_base::First;

/// How many heads a bank has.
pub const BANK: u32 = 32768;

/// How many callers and rows a table has.
///
/// Word 0 is spare. Then come the epoch, an announcement for each caller, the control word, current and the pin, each 16
/// words behind the one before, and 16 behind the pin two banks of 32,768 heads, and the rows, of seven words each: link,
/// stamp, twin, and the four words of an event. The words between are unused.
#[derive(Clone, Copy)]
pub struct Layout {
    /// The number of callers, 1 to `MOST_WORKERS` of `crq_base`.
    pub workers: u32,
    /// How many rows each caller may use, 4 to `MOST_ROWS` of `crq_base`.
    pub rows: u32,
    /// How many rows have their home with each caller. Those beyond `rows` make up for rows that others have yet to cut.
    pub home: u32,
    /// How many rows there are.
    pub all: u32,
    ghost few: { IsTeam workers },
    ghost some_rows: { AreRows rows },
    ghost home_is: { home ≡ rows + 2 * workers },
    ghost all_is: { all ≡ workers * home },
    ghost all_fit: { all ≤ 2097664 },
}

/// What a table starts with.
#[derive(Clone, Copy)]
pub struct Start {
    /// The places of its words.
    pub layout: Layout,
    /// Where its counters begin.
    pub first: First,
    /// Whether it may move into a table of another size.
    pub moves: bool,
}
