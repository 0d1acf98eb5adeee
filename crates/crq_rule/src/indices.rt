//! The number of each word.

ghost use Rattle.std.specs.Prelude.{◌≡◌, ◌+◌, ◌*◌, ◌<◌};
ghost use Rattle.crq_base.specs.Sizes.{IsTeam, AreRows};
ghost use Rattle.crq_rule.specs.Places.{index, IsRow, epoch, announced, control, current, pin, head, stamp};
ghost use Rattle.crq_rule.specs.ListKinds.{row_place};
ghost use Rattle.crq_rule.specs.Widths.{width};

use crate::layout::Layout;

/// How far apart the words stand that callers write often: 128 bytes, so that no two of them are in one cache line.
const APART: usize = 16;

/// The number of the first word of row 0, which there isn't, in a table of no callers.
const ROWS: usize = 65609;

/// The number of words of a table of no callers and no rows.
const LEAST: usize = 65616;

impl Layout {
    /// The layout for this many callers, and so many rows for each.
    pub fn of(workers: u32, rows: u32) -> Layout
        requires workers { IsTeam workers }
        requires rows { AreRows rows }
        ensures { (result.workers ≡ workers) × (result.rows ≡ rows) }
    {
        let home = rows + 2 * workers;
        Layout {
            workers,
            rows,
            home,
            all: workers * home,
        }
    }

    /// The epoch word.
    pub fn epoch(&self) -> usize
        ensures { result ≡ index self.now epoch }
    {
        APART
    }

    /// The announcement of a caller.
    pub fn announced(&self, number: u32) -> usize
        requires { number < self.now.workers }
        ensures { result ≡ index self.now (announced number) }
    {
        APART * (number as usize + 2)
    }

    /// How many words there are.
    pub fn width(&self) -> usize
        ensures { result ≡ width self.now }
    {
        LEAST + APART * self.workers as usize + 7 * self.all as usize
    }

    /// The control word.
    pub fn control(&self) -> usize
        ensures { result ≡ index self.now control }
    {
        APART * (self.workers as usize + 2)
    }

    /// The current word.
    pub fn current(&self) -> usize
        ensures { result ≡ index self.now current }
    {
        APART * (self.workers as usize + 3)
    }

    /// The pin.
    pub fn pin(&self) -> usize
        ensures { result ≡ index self.now pin }
    {
        APART * (self.workers as usize + 4)
    }

    /// A head, numbered over both banks.
    pub fn head(&self, number: usize) -> usize
        requires { number < 65536 }
        ensures { result ≡ index self.now (head number) }
    {
        APART * (self.workers as usize + 5) + number
    }

    /// The stamp of a row.
    pub fn stamp(&self, row: u32) -> usize
        requires { IsRow self.now row }
        ensures { result ≡ index self.now (stamp row) }
    {
        ROWS + APART * self.workers as usize + 7 * row as usize + 1
    }

    /// A word of a row by its place: 0 is the link, 1 the twin, 2 to 5 are the words of the event.
    pub fn row_word(&self, row: u32, place: u32) -> usize
        requires row { IsRow self.now row }
        requires place { place < 6 }
        ensures { result ≡ index self.now (row_place row place) }
    {
        let first = ROWS + APART * self.workers as usize + 7 * row as usize;
        // The stamp stands between the link and the other words.
        if place == 0 {
            first
        } else {
            first + 1 + place as usize
        }
    }

    /// The first home row of a caller.
    pub fn first_home(&self, number: u32) -> u32
        requires { number < self.now.workers }
        ensures { result ≡ number * self.now.home + 1 }
    {
        number * self.home + 1
    }

    /// The last home row of a caller.
    pub fn last_home(&self, number: u32) -> u32
        requires { number < self.now.workers }
        ensures { result ≡ number * self.now.home + self.now.home }
    {
        number * self.home + self.home
    }
}
