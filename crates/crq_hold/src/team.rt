//! The workers of all callers of a calendar.
ghost use Rattle.std.specs.Prelude.{◌≡◌, length, IfOk};
ghost use Rattle.crq_base.specs.Sizes.{IsTeam, AreRows};
ghost use Rattle.crq_base.specs.Starts.{IsFirst};
ghost use Rattle.crq_hold.specs.Teams.{AreAtHome, AreFree, AreInOrder, AreLifted, AreLowered, AreNew, AreSettled, AreWorkers};

use crate::worker::Worker;
use crq_base::First;
use crq_queue::{Calendar, Memory, Passes};
use std::alloc::{AllocError, Global};

/// Takes all passes out of their places, each for a worker whose next event has this number.
pub fn lift_all(
    alloc: Global,
    callers: u32,
    passes: &mut Passes,
    next: u64,
) -> Result<Vec<Worker>, AllocError>
    requires { AreAtHome callers passes.old.places.items }
    ensures { IfOk result (λ workers. AreLifted next passes.old.places.items passes.new.places.items workers.items callers) }
{
    let mut workers = Vec::with_capacity(alloc, callers as usize)?;
    for number in 0..callers {
        let pass = passes.lift(number);
        workers.push(Worker {
            pass,
            next,
            holds: 0,
        })?;
    }
    Ok(workers)
}

/// Puts the passes of all workers back in their places.
pub fn lower_all(passes: &mut Passes, workers: Vec<Worker>)
    requires order { AreInOrder workers.items }
    requires free { AreFree (length workers.items) passes.old.places.items }
    ensures { AreLowered passes.old.places.items passes.new.places.items workers.items (length workers.items) }
{
    for worker in workers {
        passes.lower(worker.pass);
    }
}

/// A new calendar, and a worker for each of its callers. The places of their passes stay free.
pub fn team(
    alloc: Global,
    callers: u32,
    rows: u32,
    first: First,
) -> Result<(Calendar, Passes, Vec<Worker>), Memory>
    requires callers { IsTeam callers }
    requires rows { AreRows rows }
    requires first { IsFirst first }
    ensures workers { IfOk result (λ made. AreWorkers made.0.table made.2.items) }
    ensures new { IfOk result (λ made. AreNew made.0.table made.2.items) }
    ensures settled { IfOk result (λ made. AreSettled made.2.items) }
    ensures count { IfOk result (λ made. length made.2.items ≡ callers) }
    ensures free { IfOk result (λ made. (length made.1.places.items ≡ callers) × AreFree callers made.1.places.items) }
{
    let (queue, whole) = Calendar::make(alloc, callers, rows, first)?;
    let mut passes = queue.deal(whole, 1);
    let workers = lift_all(alloc, callers, &mut passes, 0)?;
    Ok((queue, passes, workers))
}
