//! What comes of the Run phase: the objects' states, their steps, and what is to be put by whom.

ghost use Rattle.std.specs.Prelude.{◌≡◌, ◌<◌, ◌+◌, ◌++◌, ◌∷◌, [], ℕ, length, slice_index_or, All, OnOk};
ghost use Rattle.crq_host.specs.Shares.{Begun, IsRun, AreChanges, AreSet, AreEach, AreDue, KeepsButDue, IsCleared, WindowRan, all_changed, all_steps, all_sends};
ghost use Rattle.crq_host.specs.declared.worker.Changed.{Changed};
ghost use Rattle.crq_host.specs.declared.worker.Worker.{Worker};

use crate::worker::{Changed, Worker};
use crq_base::Event;
use crq_sim::{ObjectState, Step};
use std::alloc::AllocError;

/// Sets the states of objects.
fn set_states(states: &mut Vec<ObjectState>, changed: &[Changed])
    requires { AreChanges (length states.old.items) changed.now }
    ensures { AreSet changed.now states.old.items states.new.items }
{
    for change in changed {
        states[change.object as usize - 1] = change.state;
    }
}

/// Sets the states of the objects that workers ran.
fn merge_states<P: Drop>(states: &mut Vec<ObjectState>, workers: &[Worker<P>])
    requires { All (λ (w : Worker P). AreChanges (length states.old.items) w.changed.items) workers.now }
    ensures { AreSet (all_changed workers.now) states.old.items states.new.items }
{
    for worker in workers {
        set_states(states, worker.changed.as_slice());
    }
}

/// Adds the workers' steps to the log.
fn merge_steps<P: Drop>(log: &mut Vec<Step>, workers: &[Worker<P>]) -> Result<(), AllocError>
    ensures { OnOk result (log.new.items ≡ log.old.items ++ all_steps workers.now) }
{
    for worker in workers {
        log.extend_from_slice(worker.steps.as_slice())?;
    }
    Ok(())
}

/// Takes the states and the steps of a window from its workers, all of which ran their shares.
pub fn merge<P: Drop>(
    states: &mut Vec<ObjectState>,
    log: &mut Vec<Step>,
    workers: &[Worker<P>],
) -> Result<(), AllocError>
    requires { (b : Begun) × IsRun b states.old.items workers.now }
    ensures { OnOk result ((b : Begun) → IsRun b states.old.items workers.now → WindowRan b states.new.items log.old.items log.new.items (all_sends workers.now)) }
{
    merge_states(states, workers);
    merge_steps(log, workers)?;
    Ok(())
}

/// Gives an event to the worker that owns its source.
fn give<P: Drop>(workers: &mut [Worker<P>], span: u32, event: Event) -> Result<(), AllocError>
    requires some { 0 < length workers.old }
    requires span { 0 < span }
    ensures kept { AreEach KeepsButDue workers.old workers.new }
    ensures due { OnOk result (AreDue span (event ∷ []) workers.old workers.new) }
{
    let last = workers.len() - 1;
    let owner = ((event.src / span) as usize).min(last);
    workers[owner].due.push(event)?;
    Ok(())
}

/// Gives what one worker's objects sent to the workers that own the sources.
fn give_sends<P: Drop>(workers: &mut [Worker<P>], from: usize, span: u32) -> Result<(), AllocError>
    requires from { from < length workers.old }
    requires span { 0 < span }
    ensures kept { AreEach KeepsButDue workers.old workers.new }
    ensures due { OnOk result ((d : Worker P) → AreDue span (slice_index_or workers.old from d).sends.items workers.old workers.new) }
{
    for at in 0..workers[from].sends.len() {
        let event = workers[from].sends[at];
        give(workers, span, event)?;
    }
    Ok(())
}

/// Gives all that was sent to the workers that own the sources, each of which has `span` sources in a row.
pub fn share_out<P: Drop>(workers: &mut [Worker<P>], span: u32) -> Result<(), AllocError>
    requires some { 0 < length workers.old }
    requires span { 0 < span }
    ensures kept { AreEach KeepsButDue workers.old workers.new }
    ensures due { OnOk result (AreDue span (all_sends workers.old) workers.old workers.new) }
{
    for from in 0..workers.len() {
        give_sends(workers, from, span)?;
    }
    Ok(())
}

/// Empties a worker's lists, and keeps their memory.
fn clear_lists<P: Drop>(worker: &mut Worker<P>)
    ensures { IsCleared worker.old worker.new }
{
    worker.taken.clear();
    worker.changed.clear();
    worker.steps.clear();
    worker.sends.clear();
    worker.due.clear();
}

/// Empties the workers' lists for the next window, and keeps their memory.
pub fn clear<P: Drop>(workers: &mut [Worker<P>])
    ensures { AreEach IsCleared workers.old workers.new }
{
    for i in 0..workers.len() {
        clear_lists(&mut workers[i]);
    }
}
