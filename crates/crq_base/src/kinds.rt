//! The kinds of atomic step on the shared table.

/// One kind of atomic step: each loads, stores or exchanges one word of the table.
#[derive(Clone, Copy, Debug, PartialEq, Eq)]
pub enum StepKind {
    /// A pass is split in two; a load of word 0.
    Split,
    /// Two passes are joined; a load of word 0.
    Join,
    /// Loads the epoch word.
    EpochLoad,
    /// Announces an epoch that was loaded.
    Enter,
    /// Loads the epoch word again; the guard is on.
    Confirm,
    /// Takes the announcement back.
    Leave,
    /// Loads another caller's announcement.
    Scan,
    /// Raises the epoch by 1.
    Tick,
    /// Stamps a row that was cut with a tag.
    Retire,
    /// Loads the stamp of a home row.
    Look,
    /// Takes a ripe home row for use.
    Claim,
    /// Stores one word of a row in hand.
    Write,
    /// Loads one event word of a covered row.
    Read,
    /// Loads the control word as a search or a call begins.
    Begin,
    /// Loads a head, or the link of a covered row.
    Walk,
    /// Links a row into a list, which puts its event.
    Link,
    /// Marks a row as deleted, which takes its event.
    Mark,
    /// Cuts a deleted row out of its list.
    Cut,
    /// Loads the control word as a search ends with nothing.
    Miss,
    /// Loads the control word.
    ControlLoad,
    /// Loads current.
    CurrentLoad,
    /// Loads current for an event that may lie behind it.
    SettleLoad,
    /// Moves current back to an event's bucket.
    Settle,
    /// Moves current on to the next bucket.
    Raise,
    /// Begins a move into the next table.
    Announce,
    /// Opens a head of the next table's bank.
    Prepare,
    /// Freezes a head of the old table's bank.
    FreezeHead,
    /// Freezes the first row of a frozen head.
    FreezeNode,
    /// Loads the twin word of a frozen row.
    TwinLoad,
    /// Links a copy into the next table.
    Copy,
    /// Binds a frozen row to its copy.
    Bind,
    /// Makes the bound copy valid.
    Validate,
    /// Discards a copy that was not bound.
    Discard,
    /// Takes the first row off a frozen head.
    Pop,
    /// Loads the pin word.
    PinLoad,
    /// Pins the next generation to current's epoch.
    Pin,
    /// Raises current's epoch past the pin's.
    Pass,
    /// Opens the next table.
    Finish,
}
