//! How a part of a move ends.

/// How a part of a move ends for one of its helpers.
#[derive(Clone, Copy, Debug, PartialEq, Eq)]
pub enum PartEnd {
    /// Each head was found as the part leaves it.
    Done,
    /// The copy of an event wants a row, and the pass has none free. Only the emptying of lists ends so.
    NeedRow,
    /// A head of the table that moved was found of a later table, a list of the new one was found frozen, or two dead rows
    /// are still owed: control has to be loaded again.
    Passed,
}
