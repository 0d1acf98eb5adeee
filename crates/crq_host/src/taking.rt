//! The workers take the events of a window, and one pass looks for the least event.

ghost use Rattle.std.specs.Prelude.{◌≡◌, ◌<◌, ◌≤◌, ◌^◌, ◌++◌, ℕ, List, length, slice_index_or, IsSomeAnd, IfSome, OnOk, All, None};
ghost use Rattle.crq_base.specs.declared.event.Event.{Event};
ghost use Rattle.crq_base.specs.declared.entry.Entry.{Entry};
ghost use Rattle.crq_base.specs.declared.limits.TheConstants.{MOST_WORKERS};
ghost use Rattle.crq_base.specs.Histories.{IsPending, table_count};
ghost use Rattle.crq_base.specs.Sizes.{IsTeam};
ghost use Rattle.crq_host.specs.declared.worker.Worker.{Worker};
ghost use Rattle.crq_host.specs.Histories.{IsCalm};
ghost use Rattle.crq_host.specs.Phases.{LeastEnds, DrainEnds};
ghost use Rattle.crq_host.specs.Workers.{AreIdle, Took, WorkerTook, AreTakenBy, found_in};

use crate::crew::{first_short, lift_all, lower_all};
use crate::gate::{Gate, Phase};
use crate::worker::Worker;
use crq_base::{Event, Short, TakeEnd};
use crq_set::EventSet;
use std::sync::Wait;
use std::thread;
use std::thread::Threads;

/// Above all times of events.
const LATEST: u64 = 1 << 32;

/// The event of a take's answer.
fn found_in(answer: Result<TakeEnd, Short>) -> Result<Option<Event>, Short>
    ensures { result ≡ found_in answer }
{
    match answer {
        Ok(TakeEnd::Taken(event, _)) => Ok(Some(event)),
        Ok(TakeEnd::Missed) => Ok(None),
        Err(short) => Err(short),
    }
}

/// Takes the least event, if there is one, on the thread of the caller and by the first pass.
pub(crate) fn take_least<S: EventSet, R: Wait>(
    rt: &R,
    set: &S,
    whole: S::Whole,
    span: u32,
) -> (S::Whole, Result<Option<Event>, Short>)
    requires whole { S.is_whole set.now whole }
    requires calm { IsCalm (S.history whole) }
    requires tables { table_count (S.history whole) ≡ 0 }
    requires times { (e : Event) → IsPending (S.history whole) e → e.time < 2 ^ 32 }
    requires span { 1 ≤ span }
    requires workers { 1 ≤ (S.setup set.now).workers }
    ensures whole { S.is_whole set.now result.0 }
    ensures least { LeastEnds (S.setup set.now) (S.history whole) (S.history result.0) result.1 }
{
    let mut passes = set.deal(whole, span);
    let mut pass = set.lift(&mut passes, 0);
    let answer = set.take(rt, &mut pass, LATEST);
    set.lower(&mut passes, pass);
    (set.gather(passes), found_in(answer))
}

/// Takes all events below the limit, unless it answers why it stopped.
fn take_below<S: EventSet, R: Wait>(
    rt: &R,
    set: &S,
    pass: &mut S::Pass,
    taken: &mut Vec<Event>,
    limit: u64,
) -> Option<Short>
    requires of { S.is_of set.now pass.old }
    ensures of { S.is_of set.now pass.new }
    ensures took { (events : List Event) × (taken.new.items ≡ taken.old.items ++ events) × Took (S.setup set.now) limit (S.view pass.old) (S.view pass.new) events result }
{
    for _ in rt.forever() {
        if taken.reserve(1).is_err() {
            return Some(Short::Memory);
        }
        match set.take(rt, pass, limit) {
            Ok(TakeEnd::Taken(event, _)) => taken.push_reserved(event),
            Ok(TakeEnd::Missed) => return None,
            Err(short) => return Some(short),
        }
    }
    unreachable!()
}

/// One worker passes the gate and takes all events below the limit.
fn take_by<S: EventSet, G: Gate, R: Wait>(
    rt: &R,
    gate: &G,
    set: &S,
    worker: &mut Worker<S::Pass>,
    number: u32,
    window: u32,
    limit: u64,
)
    requires of { IsSomeAnd worker.old.pass (S.is_of set.now) }
    ensures of { IfSome worker.new.pass (S.is_of set.now) }
    ensures took { WorkerTook S.view (S.setup set.now) limit worker.old worker.new }
{
    gate.pass(rt, number, window, Phase::Drain);
    let Some(mut pass) = worker.pass.take() else {
        unreachable!()
    };
    worker.short = take_below(rt, set, &mut pass, &mut worker.taken, limit);
    worker.pass = Some(pass);
}

/// All workers take what is below the limit, each on a thread of its own.
fn take_by_all<S: EventSet, G: Gate, R: Threads + Wait + Sync>(
    rt: &R,
    gate: &G,
    set: &S,
    workers: &mut [Worker<S::Pass>],
    window: u32,
    limit: u64,
)
    requires some { 1 ≤ length workers.old }
    requires few { length workers.old ≤ MOST_WORKERS }
    requires passes { All (λ w. IsSomeAnd w.pass (S.is_of set.now)) workers.old }
    ensures passes { All (λ w. IfSome w.pass (S.is_of set.now)) workers.new }
    ensures took { (i : ℕ) (d : Worker S.Pass) → i < length workers.old → WorkerTook S.view (S.setup set.now) limit (slice_index_or workers.old i d) (slice_index_or workers.new i d) }
{
    let threads = workers.len();
    thread::for_each_mut(
        rt,
        workers,
        threads,
        &|number: usize, worker: &mut Worker<S::Pass>|
            requires { (number < MOST_WORKERS) × IsSomeAnd worker.now.pass (S.is_of set.now) }
        { take_by(rt, gate, set, worker, number as u32, window, limit) },
    );
}

/// Takes all events before the edge, each worker those that its pass finds, and adds them to its list.
pub(crate) fn drain<S: EventSet, G: Gate, R: Threads + Wait + Sync>(
    rt: &R,
    gate: &G,
    set: &S,
    whole: S::Whole,
    workers: &mut [Worker<S::Pass>],
    window: u32,
    edge: u64,
) -> (S::Whole, Result<(), Short>)
    requires whole { S.is_whole set.now whole }
    requires calm { IsCalm (S.history whole) }
    requires tables { table_count (S.history whole) ≡ 0 }
    requires team { IsTeam (S.setup set.now).workers }
    requires count { length workers.old ≡ (S.setup set.now).workers }
    ensures whole { S.is_whole set.now result.0 }
    ensures drained { DrainEnds (S.setup set.now) edge (S.history whole) (S.history result.0) result.1 }
    ensures idle { AreIdle workers.new }
    ensures fine { OnOk result.1 (All (λ (w : Worker S.Pass). w.short ≡ None) workers.new) }
    ensures taken { (since : List Entry) → S.history result.0 ≡ S.history whole ++ since → AreTakenBy workers.old workers.new since }
{
    let mut passes = set.deal(whole, 1);
    lift_all(set, &mut passes, workers);
    take_by_all(rt, gate, set, workers, window, edge);
    lower_all(set, &mut passes, workers);
    (set.gather(passes), first_short(workers))
}
