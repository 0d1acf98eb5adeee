//! The workers put the events that are due to them.

ghost use Rattle.std.specs.Prelude.{◌≡◌, ◌<◌, ◌≤◌, ℕ, length, slice_index_or, slice_get, IsSomeAnd, IfSome, Some, All, flat_map};
ghost use Rattle.crq_base.specs.declared.limits.TheConstants.{MOST_WORKERS};
ghost use Rattle.crq_base.specs.Sizes.{IsTeam};
ghost use Rattle.crq_base.specs.Histories.{table_count};
ghost use Rattle.crq_host.specs.declared.worker.Worker.{Worker};
ghost use Rattle.crq_host.specs.Histories.{IsCalm};
ghost use Rattle.crq_host.specs.Phases.{PutsEnd};
ghost use Rattle.crq_host.specs.Workers.{AreIdle, MayPutAll, IsDue, PutInTurn, WorkerPut, AreKept};

use crate::crew::{first_short, lift_all, lower_all};
use crate::gate::{Gate, Phase};
use crate::worker::Worker;
use crq_base::{Event, Short};
use crq_set::EventSet;
use std::sync::Wait;
use std::thread;
use std::thread::Threads;

/// Puts these events in turn, unless it answers why it stopped.
fn put_due<S: EventSet, R: Wait>(
    rt: &R,
    set: &S,
    pass: &mut S::Pass,
    due: &[Event],
) -> Option<Short>
    requires of { S.is_of set.now pass.old }
    requires may { MayPutAll (S.setup set.now) (S.view pass.old) due.now }
    ensures of { S.is_of set.now pass.new }
    ensures put { PutInTurn (S.setup set.now) (S.view pass.old) (S.view pass.new) due.now result }
{
    for event in due {
        if let Err(short) = set.put(rt, pass, event) {
            return Some(short);
        }
    }
    None
}

/// One worker passes the gate and puts what is due to it.
fn put_by<S: EventSet, G: Gate, R: Wait>(
    rt: &R,
    gate: &G,
    set: &S,
    worker: &mut Worker<S::Pass>,
    number: u32,
    window: u32,
)
    requires of { IsSomeAnd worker.old.pass (λ pass. S.is_of set.now pass × MayPutAll (S.setup set.now) (S.view pass) worker.old.due.items) }
    ensures of { IfSome worker.new.pass (S.is_of set.now) }
    ensures put { WorkerPut S.view (S.setup set.now) worker.old worker.new }
{
    gate.pass(rt, number, window, Phase::Put);
    let Some(mut pass) = worker.pass.take() else {
        unreachable!()
    };
    worker.short = put_due(rt, set, &mut pass, &worker.due);
    worker.pass = Some(pass);
}

/// All workers put what is due to them, each on a thread of its own.
fn put_by_all<S: EventSet, G: Gate, R: Threads + Wait + Sync>(
    rt: &R,
    gate: &G,
    set: &S,
    workers: &mut [Worker<S::Pass>],
    window: u32,
)
    requires some { 1 ≤ length workers.old }
    requires few { length workers.old ≤ MOST_WORKERS }
    requires passes { All (λ w. IsSomeAnd w.pass (λ pass. S.is_of set.now pass × MayPutAll (S.setup set.now) (S.view pass) w.due.items)) workers.old }
    ensures passes { All (λ w. IfSome w.pass (S.is_of set.now)) workers.new }
    ensures put { (i : ℕ) (d : Worker S.Pass) → i < length workers.old → WorkerPut S.view (S.setup set.now) (slice_index_or workers.old i d) (slice_index_or workers.new i d) }
{
    let threads = workers.len();
    thread::for_each_mut(
        rt,
        workers,
        threads,
        &|number: usize, worker: &mut Worker<S::Pass>|
            requires { (number < MOST_WORKERS) × IsSomeAnd worker.now.pass (λ pass. S.is_of set.now pass × MayPutAll (S.setup set.now) (S.view pass) worker.now.due.items) }
        { put_by(rt, gate, set, worker, number as u32, window) },
    );
}

/// Puts what is due to the workers, each event by the one whose source it is of, where each has `span` sources in a row.
pub(crate) fn put_all<S: EventSet, G: Gate, R: Threads + Wait + Sync>(
    rt: &R,
    gate: &G,
    set: &S,
    whole: S::Whole,
    workers: &mut [Worker<S::Pass>],
    window: u32,
    span: u32,
) -> (S::Whole, Result<(), Short>)
    requires whole { S.is_whole set.now whole }
    requires calm { IsCalm (S.history whole) }
    requires tables { table_count (S.history whole) ≡ 0 }
    requires span { 1 ≤ span }
    requires team { IsTeam (S.setup set.now).workers }
    requires count { length workers.old ≡ (S.setup set.now).workers }
    requires due { (k : ℕ) (w : Worker S.Pass) → slice_get workers.old k ≡ Some w → IsDue (S.setup set.now).workers span (S.history whole) k w.due.items }
    ensures whole { S.is_whole set.now result.0 }
    ensures put { PutsEnd (S.setup set.now) (flat_map (λ w. w.due.items) workers.old) (S.history whole) (S.history result.0) result.1 }
    ensures idle { AreIdle workers.new }
    ensures kept { AreKept workers.old workers.new }
{
    let mut passes = set.deal(whole, span);
    lift_all(set, &mut passes, workers);
    put_by_all(rt, gate, set, workers, window);
    lower_all(set, &mut passes, workers);
    (set.gather(passes), first_short(workers))
}
