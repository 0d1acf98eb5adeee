//! All passes made one.
ghost use Rattle.crq_queue.specs.Wholes.{AreResting, IsWhole, IsGathered};

use crate::calendar::{Calendar, Whole};
use crq_rows::{Passes, gather_step};
use crq_rule::JoinedParts;

impl Calendar {
    /// Makes one of all passes, once each has ended its calls and owes nothing but dead rows to cut. It tells the one
    /// history that all calls made together, and of the events that a refusal for want of rows keeps that they were put and
    /// not taken before that call began. It takes no memory.
    pub fn gather(&self, mut passes: Passes) -> Whole
        requires { AreResting self.now.table passes.places.items }
        ensures whole { IsWhole self.now.table result }
        ensures history { IsGathered self.now.table passes.places.items result }
    {
        let mut seat = passes.rest(0);
        for number in 1..self.table.start.layout.workers {
            let other = passes.rest(number);
            self.table
                .inner
                .shared
                .join_seat::<JoinedParts>(&mut seat, other);
        }
        gather_step(&self.table, &mut seat);
        Whole {
            seat,
            places: passes.places,
        }
    }
}
