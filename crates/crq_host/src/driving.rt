//! A model driven in windows over a set of events.

ghost use Rattle.std.specs.Prelude.{◌≡◌, ◌≤◌, ◌<◌, ◌*◌, ◌+◌, length};
ghost use Rattle.crq_base.specs.Sizes.{AreRows};
ghost use Rattle.crq_sim.specs.declared.run.TheConstants.{MOST_EVENTS};
ghost use Rattle.crq_host.specs.Drives.{Drives};

use crate::course::{Course, Plan};
use crate::drive_end::DriveEnd;
use crate::gate::Gate;
use crate::window::run_all;
use crq_set::SetMaker;
use crq_sim::{Model, Outcome, starts_before};
use std::alloc::Global;
use std::sync::Wait;
use std::thread::Threads;

/// How many sources in a row each worker owns: the model's file, which is source 0, and the objects are shared evenly.
fn span_of(model: &Model, workers: u32) -> u32
    requires { 1 ≤ workers }
    ensures { 1 ≤ result }
{
    model.is_model();
    1 + model.objects().len() as u32 / workers
}

/// Runs a model in lookahead windows over a set that the maker makes for `workers` callers, each with `rows` rows, and closes
/// the set. In each window the workers, each on a thread of its own, take the events, run them object by object and put what
/// they sent. The outcome has no tables, as a set has one table.
///
/// `cap` is how many events the model may have: `Events` names the window with the first one that is too many. `Rows` names
/// the window after which more events are pending than the rows are for, and 0 before the first window, where no set is made.
/// `Memory` means that memory was refused; where the set was made by then, its history is as far as the run came.
pub fn drive<M: SetMaker, G: Gate, R: Threads + Wait + Sync>(
    rt: &R,
    alloc: Global,
    model: &Model,
    cap: u32,
    workers: u32,
    rows: u32,
    maker: &mut M,
    gate: &G,
) -> Result<Outcome, DriveEnd>
    requires workers { (1 ≤ workers) × (workers ≤ M.MOST) }
    requires rows { AreRows rows }
    requires cap { (1 ≤ cap) × (cap ≤ MOST_EVENTS) }
    ensures drives { Drives model.now (record { events = cap; rows = rows }) (M.closed maker.old) (M.closed maker.new) result }
    ensures room { M.room maker.new ≡ M.room maker.old }
{
    model.is_model();
    let starts = starts_before(alloc, model)?;
    if 2 * starts.len() + 2 > rows as usize {
        return Err(DriveEnd::Rows(0, starts.len() as u32));
    }
    let span = span_of(model, workers);
    let plan = Plan { cap, rows, span };
    let mut course = Course::begin(alloc, model, workers, starts)?;
    let (set, whole) = maker.make(alloc, workers, rows)?;
    let (whole, end) = run_all(rt, gate, alloc, model, &set, whole, plan, &mut course);
    maker.close(set, whole);
    end?;
    Ok(course.into_outcome(alloc, model)?)
}
