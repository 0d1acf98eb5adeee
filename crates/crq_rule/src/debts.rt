//! What a pass may owe between two calls.

use crq_base::{Event, Link};

/// An event that this pass linked, and that isn't settled yet.
#[derive(Clone, Copy)]
pub struct SettleDebt {
    /// The event.
    pub event: Event,
    /// The generation of the table in which it was linked.
    pub generation: u32,
    /// A bucket of that table is 2^shift ticks wide.
    pub shift: u32,
}

/// A dead row that this pass still has to cut, named by its place in a list.
#[derive(Clone, Copy)]
pub struct CutDebt {
    /// The generation of the list's table.
    pub generation: u32,
    /// The list's head, numbered over both banks.
    pub head: u32,
    /// The event that the row held; the list is sorted by its key, and then by row.
    pub event: Event,
    /// The row.
    pub row: u32,
    /// Whether it is a copy that was discarded as the first row of a frozen list.
    pub front: bool,
}

/// A copy that this pass linked into the new table, and that isn't bound yet.
#[derive(Clone, Copy)]
pub struct CopyDebt {
    /// The frozen row of the old table.
    pub old: u32,
    /// The copy.
    pub copy: u32,
    /// The event that both hold.
    pub event: Event,
    /// The generation of the new table.
    pub generation: u32,
    /// The head of the copy's list, numbered over both banks.
    pub head: u32,
    /// The frozen row's last link.
    pub last: Link,
}

/// All that a pass owes. It never names more than two dead rows.
#[derive(Clone, Copy)]
pub struct Debts {
    /// The event to settle.
    pub settle: Option<SettleDebt>,
    /// The copy to bind or to discard.
    pub copy: Option<CopyDebt>,
    /// The dead row that was named first.
    pub cut: Option<CutDebt>,
    /// The dead row that was named after it.
    pub second_cut: Option<CutDebt>,
}
