//! Making passes of callers that rest, as those of a new table do.
ghost use Rattle.std.specs.Prelude.{◌≡◌};
ghost use Rattle.crq_rule.specs.Opening.{IsOpening};
ghost use Rattle.crq_rows.specs.Passes.{AreNew};
ghost use Rattle.crq_rows.specs.Waking.{AllRest, AllWoken};

use crate::places::Passes;
use atomic_table::Seat;
use crq_rule::{FirstPart, Opened, Seating, Table, View};

/// Makes the pass of each caller that rests, of the seat that carries them all. It takes no memory.
pub fn wake_all(table: &Table, seat: Seat<(), View>, places: Vec<Seating>) -> Passes
    requires { AllRest table.now seat places.items }
    ensures { AllWoken table.now seat places.items result.places.items }
{
    let mut left = seat;
    let mut passes = Passes { places };
    let last = table.start.layout.workers - 1;
    for number in 0..last {
        let rest = table.inner.shared.split_seat::<FirstPart>(&mut left);
        passes.wake(number, left);
        left = rest;
    }
    passes.wake(last, left);
    passes
}

/// The table, and a pass for each caller, none of which has made a step. Each pass may put the events of one source, that
/// of its number, and the last one those of all greater sources too. It takes no memory.
pub fn passes(opened: Opened) -> (Table, Passes)
    requires { IsOpening opened.table.start opened.table opened.seat opened.places.items }
    ensures start { result.0.start ≡ opened.table.start }
    ensures new { AreNew result.0 result.1.places.items }
{
    let Opened {
        table,
        seat,
        places,
    } = opened;
    let passes = wake_all(&table, seat, places);
    (table, passes)
}
