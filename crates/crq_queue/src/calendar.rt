//! A calendar, how it begins and how it ends.
ghost use Rattle.std.specs.Prelude.{◌≡◌, false, [], IfOk};
ghost use Rattle.crq_base.specs.Sizes.{IsTeam, AreRows};
ghost use Rattle.crq_base.specs.Starts.{IsFirst};
ghost use Rattle.crq_rule.specs.Opening.{AreFresh};
ghost use Rattle.crq_queue.specs.Wholes.{IsWhole, history_of, last_history};

use atomic_table::Seat;
use crq_base::Memory;
use crq_rule::{First, Layout, Opened, Seating, Table, View, open_table};
use std::alloc::Global;

/// A set of events that callers put into and take from, each with a pass of its own.
#[derive(Drop)]
pub struct Calendar {
    /// The shared table.
    pub table: Table,
    // Its table doesn't move into one of another size.
    ghost still: { table.start.moves ≡ false },
}

/// The passes of a calendar, made one: nobody is at work, and the history stands still.
#[derive(Drop)]
pub struct Whole {
    /// The one seat.
    pub seat: Seat<(), View>,
    /// What stays of each caller.
    pub places: Vec<Seating>,
}

/// What is left of a calendar that was closed: its history, for proofs.
#[derive(Drop)]
pub struct Closed {
    /// The one seat.
    pub seat: Seat<(), View>,
}

impl Calendar {
    /// An empty calendar for this many callers and so many rows for each, and all its passes as one. It takes all memory
    /// that the calendar ever takes, and answers an error only where memory is refused.
    pub fn make(
        alloc: Global,
        workers: u32,
        rows: u32,
        first: First,
    ) -> Result<(Calendar, Whole), Memory>
        requires workers { IsTeam workers }
        requires rows { AreRows rows }
        requires first { IsFirst first }
        ensures whole { IfOk result (λ made. IsWhole made.0.table made.1) }
        ensures empty { IfOk result (λ made. history_of made.1 ≡ []) }
        ensures fresh { IfOk result (λ made. AreFresh made.0.table.start.layout workers made.1.places.items) }
        ensures size { IfOk result (λ made. (made.0.table.start.layout.workers ≡ workers) × (made.0.table.start.layout.rows ≡ rows)) }
        ensures start { IfOk result (λ made. made.0.table.start.first ≡ first) }
    {
        let layout = Layout::of(workers, rows);
        let Opened {
            table,
            seat,
            places,
        } = open_table(alloc, &layout, first, false)?;
        Ok((Calendar { table }, Whole { seat, places }))
    }

    /// Ends a calendar. Its history stays as it is.
    pub fn close(self, whole: Whole) -> Closed
        requires { IsWhole self.table whole }
        ensures { last_history result ≡ history_of whole }
    {
        let Whole { seat, places: _ } = whole;
        Closed { seat }
    }
}
