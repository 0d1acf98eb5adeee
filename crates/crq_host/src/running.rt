//! The Run phase of a window: each worker runs its share of the groups.

ghost use Rattle.std.specs.Prelude.{◌≡◌, ℕ, ◌<◌, ◌≤◌, ◌^◌, [], ◌∷◌, length, slice_index_or, All, OnOk, None};
ghost use Rattle.crq_windows.specs.Groups.{IsGroup, group_events};
ghost use Rattle.crq_sim.specs.Runs.{state_of};
ghost use Rattle.crq_host.specs.Shares.{Begun, CanRunAt, CanRunAll, IsIdle, KeepsOthers, RanEvents, RanGroup, RanMore, RanShare, RanShares, every};
ghost use Rattle.crq_host.specs.declared.worker.Worker.{Worker};

use crate::gate::{Gate, Phase};
use crate::worker::{Changed, Worker};
use crq_base::{Event, Short};
use crq_sim::{Model, ObjectState, Step};
use crq_windows::Group;
use std::alloc::AllocError;
use std::sync::Wait;
use std::thread;
use std::thread::Threads;

/// Runs an event at an object whose state is `running`.
fn run_event<P: Drop, G: Gate>(
    gate: &G,
    number: u32,
    model: &Model,
    running: &mut Changed,
    event: &Event,
    worker: &mut Worker<P>,
) -> Result<(), AllocError>
    requires { CanRunAt model.now running.old.object running.old.state (event.now ∷ []) }
    ensures others { KeepsOthers worker.old worker.new }
    ensures ran { OnOk result (RanEvents model.now (event.now ∷ []) running.old running.new worker.old worker.new) }
{
    let sends = gate.react(number, model, running.object, &mut running.state, event);
    let step = Step {
        event: *event,
        count: running.state.count,
        word: running.state.word,
    };
    worker.steps.push(step)?;
    worker.sends.extend_from_slice(sends.as_slice())?;
    Ok(())
}

/// Runs an object's events in order.
fn run_events<P: Drop, G: Gate>(
    gate: &G,
    number: u32,
    model: &Model,
    running: &mut Changed,
    events: &[Event],
    worker: &mut Worker<P>,
) -> Result<(), AllocError>
    requires { CanRunAt model.now running.old.object running.old.state events.now }
    ensures others { KeepsOthers worker.old worker.new }
    ensures ran { OnOk result (RanEvents model.now events.now running.old running.new worker.old worker.new) }
{
    model.is_model();
    for event in events {
        run_event(gate, number, model, running, event, worker)?;
    }
    Ok(())
}

/// Runs the events of a group.
fn run_group<P: Drop, G: Gate>(
    gate: &G,
    number: u32,
    model: &Model,
    states: &[ObjectState],
    events: &[Event],
    group: &Group,
    worker: &mut Worker<P>,
) -> Result<(), AllocError>
    requires group { IsGroup (length model.now.objects) events.now group.now }
    requires many { length states.now ≡ length model.now.objects }
    requires can { CanRunAt model.now group.now.object (state_of states.now group.now.object) (group_events events.now group.now) }
    ensures others { KeepsOthers worker.old worker.new }
    ensures ran { OnOk result (RanGroup model.now states.now events.now group.now worker.old worker.new) }
{
    let mut running = Changed {
        object: group.object,
        state: states[group.object as usize - 1],
    };
    let own = &events[group.from..group.upto];
    run_events(gate, number, model, &mut running, own, worker)?;
    worker.changed.push(running)?;
    Ok(())
}

/// Runs the groups with index `number`, `number + count` and so on, where there are `count` workers.
fn run_share<P: Drop, G: Gate>(
    gate: &G,
    number: u32,
    count: u32,
    model: &Model,
    states: &[ObjectState],
    events: &[Event],
    groups: &[Group],
    worker: &mut Worker<P>,
) -> Result<(), AllocError>
    requires count { 0 < count }
    requires can { CanRunAll (record { model = model.now; states = states.now; events = events.now; groups = groups.now }) }
    ensures others { KeepsOthers worker.old worker.new }
    ensures ran { OnOk result (let b : Begun = record { model = model.now; states = states.now; events = events.now; groups = groups.now } in RanMore b (every count number groups.now) worker.old worker.new) }
{
    let mut at = number as usize;
    while at < groups.len() {
        run_group(gate, number, model, states, events, &groups[at], worker)?;
        at += count as usize;
    }
    Ok(())
}

/// Runs a worker's share of the groups. Where memory is refused, the worker is short of it.
fn run_own<P: Drop, G: Gate>(
    gate: &G,
    number: u32,
    count: u32,
    model: &Model,
    states: &[ObjectState],
    events: &[Event],
    groups: &[Group],
    worker: &mut Worker<P>,
)
    requires count { 0 < count }
    requires can { CanRunAll (record { model = model.now; states = states.now; events = events.now; groups = groups.now }) }
    requires idle { IsIdle worker.old }
    ensures others { KeepsOthers worker.old worker.new }
    ensures ran { let b : Begun = record { model = model.now; states = states.now; events = events.now; groups = groups.now } in RanShare b count number worker.new }
{
    if run_share(gate, number, count, model, states, events, groups, worker).is_err() {
        worker.short = Some(Short::Memory);
    }
}

/// Runs all events of a window, each at its object, by all workers at once: of n workers, the groups with index i, i + n and
/// so on are the share of the worker with index i. A worker that is refused memory is short, and others may be done.
pub fn run_groups<P: Send + Drop, G: Gate, R: Threads + Wait + Sync>(
    rt: &R,
    gate: &G,
    model: &Model,
    window: u32,
    states: &[ObjectState],
    events: &[Event],
    groups: &[Group],
    workers: &mut [Worker<P>],
)
    requires some { 0 < length workers.old }
    requires few { length workers.old < 2 ^ 32 }
    requires can { CanRunAll (record { model = model.now; states = states.now; events = events.now; groups = groups.now }) }
    requires idle { All (λ (w : Worker P). IsIdle w) workers.old }
    ensures count { length workers.new ≡ length workers.old }
    ensures others { (i : ℕ) (d : Worker P) → i < length workers.old → KeepsOthers (slice_index_or workers.old i d) (slice_index_or workers.new i d) }
    ensures ran { RanShares (record { model = model.now; states = states.now; events = events.now; groups = groups.now }) workers.old workers.new }
{
    let threads = workers.len();
    let count = threads as u32;
    thread::for_each_mut(
        rt,
        workers,
        threads,
        &|i: usize, worker: &mut Worker<P>|
            requires idle { IsIdle worker.now }
            requires here { (i < count) × (count < 2 ^ 32) }
            requires can { CanRunAll (record { model = model.now; states = states.now; events = events.now; groups = groups.now }) }
            ensures others { KeepsOthers worker.entry.now worker.exit.now }
            ensures ran { let b : Begun = record { model = model.entry.now; states = states.entry.now; events = events.entry.now; groups = groups.entry.now } in RanShare b count i worker.exit.now }
        {
            let number = i as u32;
            gate.pass(rt, number, window, Phase::Run);
            run_own(gate, number, count, model, states, events, groups, worker)
        },
    );
}
