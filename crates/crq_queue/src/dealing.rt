//! One made all passes.
ghost use Rattle.std.specs.Prelude.{◌≤◌};
ghost use Rattle.crq_queue.specs.Wholes.{AreResting, IsWhole, AreDealt};

use crate::calendar::{Calendar, Whole};
use crq_rows::{Passes, span_step, wake_all};

impl Calendar {
    /// Makes a pass for each caller, each with the same history. Each may put the events of `span` sources in a row, and
    /// the last one those of all greater sources too. It takes no memory.
    pub fn deal(&self, whole: Whole, span: u32) -> Passes
        requires whole { IsWhole self.now.table whole }
        requires span { 1 ≤ span }
        ensures resting { AreResting self.now.table result.places.items }
        ensures dealt { AreDealt self.now.table whole span result.places.items }
    {
        let Whole { mut seat, places } = whole;
        span_step(&self.table, &mut seat, span);
        wake_all(&self.table, seat, places)
    }
}
