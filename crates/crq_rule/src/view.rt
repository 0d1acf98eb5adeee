//! What each caller knows of the table, as far as proofs follow it. No value of these types is made.

use crate::debts::Debts;
use crate::layout::Start;
use crq_base::{Control, Current, Entry, Event, Link, Pin, StepKind};
use std::collections::LinkedList;

/// A caller's guard. While it is on, it covers the rows that the caller stands on, and all that they lead to.
pub enum Guard {
    Off,
    /// The epoch was announced, and not yet loaded again.
    Entering(u64),
    /// The load that turned the guard on found this epoch.
    On(u64),
}

/// What an attempt to raise the epoch has found.
pub struct Tick {
    /// The epoch that it loaded.
    pub loaded: u64,
    /// The callers scanned since then, each with the word of its announcement.
    pub found: LinkedList<(u64, u64)>,
}

/// A row that the caller cut out of its list and hasn't retired.
pub struct CutRow {
    pub row: u64,
    /// The epochs loaded since the cut. Each may be the tag.
    pub tags: LinkedList<u64>,
}

/// What all callers were dealt alike: the history so far, and how many sources in a row belong to each caller.
pub struct Deal {
    pub history: LinkedList<Entry>,
    pub span: u64,
}

/// A row that a caller stands on, and the event that it holds.
pub struct Stand {
    pub row: u64,
    pub event: Event,
    /// The generation of its table.
    pub generation: u64,
    /// Its link, where that was found dead or frozen: then it is the last one, which never changes again.
    pub last: Option<Link>,
    /// The row's copy in the next table, if it was found.
    pub twin: Option<u64>,
    /// Whether the row was found not to be a copy that isn't valid yet.
    pub valid: bool,
    /// The frozen head of which the row was found to be the first.
    pub front: Option<u64>,
}

/// The rows of a list that a caller stands on, the one found last first, and the frozen row whose copy it hasn't linked
/// yet, with what it knew of that row.
pub struct Position {
    pub rows: LinkedList<Stand>,
    pub old: Option<Stand>,
}

/// Words that the present call has read, and that it may rely on: the last control word and current.
pub struct Found {
    pub control: Option<Control>,
    pub current: Option<Current>,
}

/// A word that the caller wrote into a row in hand: 0 is the row's link, 1 its twin, 2 to 5 the words of its event.
pub struct Wrote {
    pub row: u64,
    pub place: u64,
    pub word: u64,
}

/// Where a recovery of rows began: what the epoch load of its first tick found, and how far the recovery came since.
pub struct Base {
    /// The epoch that was loaded.
    pub epoch: u64,
    /// How many entries the history had then.
    pub place: u64,
    /// The events that were pending then.
    pub events: LinkedList<Event>,
    /// How many home rows, in order, were looked at since the epoch rose by three, and found not to be ripe under that.
    pub looked: u64,
}

/// What a take knows of the table in which it walks.
pub struct Sight {
    /// The control word that it had found when it read the table; the table didn't move.
    pub table: Control,
    /// Current, as the take loaded it for that table.
    pub current: Current,
}

/// How far a take walked the list of a head: to the row `at`, or to the end where that is 0. What it passed was dead.
pub struct Walk {
    pub head: u64,
    pub at: u64,
    /// The bucket up to which it walks. None in a search, which has walked the lists of all heads before this one.
    pub bucket: Option<u64>,
    /// The least row, with its event, at which the search came to stand in those lists.
    pub least: Option<(u64, Event)>,
}

/// How far a caller's sweep came along the list of a head. What it has not passed yet is of this place in the list's order or
/// comes after it.
pub struct Sweep {
    pub head: u64,
    pub rank: u64,
}

/// What a helper of a migration has passed. Heads are passed in order, so their number says which.
pub struct Help {
    /// The generation of the table that moves.
    pub generation: u64,
    /// How many new heads it found prepared.
    pub prepared: u64,
    /// How many old heads it found frozen.
    pub frozen: u64,
    /// How many old heads it found frozen and empty.
    pub emptied: u64,
    /// Current's epoch, as it loaded it for the pin.
    pub epoch: Option<u64>,
    /// The pin that names the new table.
    pub pin: Option<Pin>,
}

/// The least numbers of entries that the caller's answers since the deal told the history to have: of new tables, and
/// of new tables and settled events together.
pub struct Told {
    pub tables: u64,
    pub settled: u64,
}

/// One atomic step that the caller made: its kind, the number of its word, its operands (of a store the word stored, of
/// an exchange the word expected and the new one, else 0), and the word that it found.
pub struct Made {
    pub kind: StepKind,
    pub word: u64,
    pub first: u64,
    pub second: u64,
    pub found: u64,
}

/// All that is known of one caller.
pub struct Caller {
    /// The caller's number, from 0.
    pub number: u64,
    /// What the table started with.
    pub start: Start,
    pub deal: Deal,
    /// The entries that the caller added to the history since the deal.
    pub own: LinkedList<Entry>,
    /// The atomic steps that the caller made, in order.
    pub made: LinkedList<Made>,
    /// The epochs that the caller loaded, or made by a tick of its own; the last one first.
    pub epochs: LinkedList<u64>,
    pub guard: Guard,
    pub tick: Tick,
    /// The free home rows, and those being written.
    pub hand: LinkedList<u64>,
    /// The home rows that were looked at and not claimed since, each with its tag.
    pub ripening: LinkedList<(u64, u64)>,
    pub cut: Option<CutRow>,
    /// Where the caller's last recovery of rows began, if it has neither begun a call nor linked a row since.
    pub base: Option<Base>,
    pub debts: Debts,
    /// Whether the caller may raise current's epoch once.
    pub permit: bool,
    pub position: Position,
    pub found: Found,
    /// The words that the caller wrote into rows that are still in hand.
    pub written: LinkedList<Wrote>,
    /// The table that the caller's take has read since its last Begin.
    pub sight: Option<Sight>,
    pub walk: Option<Walk>,
    pub help: Option<Help>,
    pub sweep: Option<Sweep>,
    /// The heads whose lists the caller swept to the end since its last Begin.
    pub clean: LinkedList<u64>,
    /// The events that the last refusal for want of rows counted, if the caller has begun no call since.
    pub refused: LinkedList<Event>,
    pub told: Told,
}

/// What a seat knows: the callers whose parts it carries. A seat that was joined into another carries none.
pub struct View {
    pub parts: LinkedList<Caller>,
}
