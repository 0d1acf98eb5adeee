//! A maker of calendars makes sets of events.

use crate::calendar::{Calendar, Whole};
use crate::maker::CalendarMaker;
use crq_base::{MOST_WORKERS, Memory};
use crq_set::SetMaker;
use std::alloc::Global;

impl SetMaker for CalendarMaker {
    ghost use Rattle.crq_base.specs.declared.limits.TheConstants.{MOST_WORKERS};
    ghost use Rattle.crq_queue.specs.Makers.{closed_histories, room, most_is_a_team};

    type Set = Calendar;

    const MOST: u32 = MOST_WORKERS;

    ghost MOST = { MOST_WORKERS };

    ghost team = { most_is_a_team };

    ghost closed = { λ m. closed_histories m };

    ghost room = { λ m. room m };

    fn make(
        &mut self,
        alloc: Global,
        workers: u32,
        rows: u32,
    ) -> Result<(Calendar, Whole), Memory> {
        CalendarMaker::make(self, alloc, workers, rows)
    }

    fn close(&mut self, calendar: Calendar, whole: Whole) {
        CalendarMaker::close(self, calendar, whole);
    }
}
