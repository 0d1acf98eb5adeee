//! The events of a window: run by all workers, and what comes of them.

ghost use Rattle.std.specs.Prelude.{◌≡◌, ◌<◌, ◌^◌, [], length, All, OnOk};
ghost use Rattle.crq_host.specs.Shares.{CanRunAll, IsReady, AreEach, KeepsPass, WindowDone};
ghost use Rattle.crq_host.specs.declared.worker.Worker.{Worker};

use crate::crew::first_short;
use crate::gate::Gate;
use crate::merging::{merge, share_out};
use crate::running::run_groups;
use crate::worker::Worker;
use crq_base::{Event, Memory};
use crq_sim::{Model, ObjectState, Step};
use crq_windows::Group;
use std::sync::Wait;
use std::thread::Threads;

/// Runs all events of a window, each at its object, by all workers at once. The states and the log go on to the window's end,
/// and each worker has to put what was sent by the `span` sources that it owns.
///
/// Where memory is refused, the states, the log and what is due are of no use any more.
pub fn run_window<P: Send + Drop, G: Gate, R: Threads + Wait + Sync>(
    rt: &R,
    gate: &G,
    model: &Model,
    window: u32,
    span: u32,
    states: &mut Vec<ObjectState>,
    log: &mut Vec<Step>,
    events: &[Event],
    groups: &[Group],
    workers: &mut [Worker<P>],
) -> Result<(), Memory>
    requires some { 0 < length workers.old }
    requires few { length workers.old < 2 ^ 32 }
    requires span { 0 < span }
    requires can { CanRunAll (record { model = model.now; states = states.old.items; events = events.now; groups = groups.now }) }
    requires ready { All (λ (w : Worker P). IsReady w) workers.old }
    ensures passes { AreEach KeepsPass workers.old workers.new }
    ensures done { OnOk result (WindowDone (record { model = model.now; states = states.old.items; events = events.now; groups = groups.now }) span states.new.items log.old.items log.new.items workers.new) }
{
    run_groups(
        rt,
        gate,
        model,
        window,
        states.as_slice(),
        events,
        groups,
        workers,
    );
    match first_short(workers) {
        Err(_) => Err(Memory),
        Ok(()) => {
            merge(states, log, workers)?;
            share_out(workers, span)?;
            Ok(())
        }
    }
}
