//! What makes calendars, and keeps the histories of those that it closed.
ghost use Rattle.std.specs.Prelude.{◌≡◌, ◌≤◌, ◌+◌, ◌++◌, [], ◌∷◌, IfOk, OnOk, OnErr, vec_len, vec_capacity};
ghost use Rattle.crq_base.specs.Sizes.{AreRows, IsTeam};
ghost use Rattle.crq_rule.specs.Opening.{AreFresh};
ghost use Rattle.crq_queue.specs.Wholes.{IsWhole, history_of};

use crate::calendar::{Calendar, Closed, Whole};
use crq_base::Memory;
use crq_rule::First;
use std::alloc::Global;

/// Makes the calendars of a program, and keeps the history of each that it closed. Room for a history is taken when its
/// calendar is made, so that a calendar can be closed where memory is refused.
#[derive(Drop)]
pub struct CalendarMaker {
    closed: Vec<Closed>,
    free: usize,
    ghost fits: { vec_len closed + free ≤ vec_capacity closed },
}

impl CalendarMaker {
    ghost use Rattle.crq_queue.specs.Makers.{closed_histories, room};

    /// A maker that has closed no calendar and has room for no history. It keeps the allocator for the list of these, and
    /// allocates nothing.
    pub fn new(alloc: Global) -> CalendarMaker
        ensures closed { closed_histories result ≡ [] }
        ensures room { room result ≡ 0 }
    {
        CalendarMaker {
            closed: Vec::new(alloc),
            free: 0,
        }
    }

    /// An empty calendar for this many callers and so many rows for each, and all its passes as one. It takes room for one more
    /// closed history, and all memory that the calendar ever takes. It answers an error only where memory is refused; then
    /// the histories stay, and so does the room for more.
    pub fn make(
        &mut self,
        alloc: Global,
        workers: u32,
        rows: u32,
    ) -> Result<(Calendar, Whole), Memory>
        requires workers { IsTeam workers }
        requires rows { AreRows rows }
        ensures whole { IfOk result (λ made. IsWhole made.0.table made.1) }
        ensures empty { IfOk result (λ made. history_of made.1 ≡ []) }
        ensures fresh { IfOk result (λ made. AreFresh made.0.table.start.layout workers made.1.places.items) }
        ensures size { IfOk result (λ made. (made.0.table.start.layout.workers ≡ workers) × (made.0.table.start.layout.rows ≡ rows)) }
        ensures start { IfOk result (λ made. made.0.table.start.first ≡ record { epoch = 0; generation = 1; guard = 0 }) }
        ensures closed { closed_histories self.new ≡ closed_histories self.old }
        ensures room { OnOk result (room self.new ≡ room self.old + 1) }
        ensures none { OnErr result (room self.new ≡ room self.old) }
    {
        self.closed.reserve(self.free + 1)?;
        let made = Calendar::make(alloc, workers, rows, First::of_program())?;
        self.free += 1;
        Ok(made)
    }

    /// Ends a calendar, and keeps its history behind those that it has. It takes no memory.
    pub fn close(&mut self, calendar: Calendar, whole: Whole)
        requires whole { IsWhole calendar.table whole }
        requires room { 1 ≤ room self.old }
        ensures closed { closed_histories self.new ≡ closed_histories self.old ++ (history_of whole ∷ []) }
        ensures room { room self.new + 1 ≡ room self.old }
    {
        self.free -= 1;
        self.closed.push_reserved(calendar.close(whole));
    }
}
