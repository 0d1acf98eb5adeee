//! One window after another over a set: its events are taken, run, and what they sent is put.

ghost use Rattle.std.specs.Prelude.{◌≡◌, ◌+◌, ◌≤◌, length, List, OnOk};
ghost use Rattle.crq_base.specs.declared.answers.Short.TheVariants.{Memory as OfMemory};
ghost use Rattle.crq_base.specs.declared.entry.Entry.{Entry};
ghost use Rattle.crq_set.specs.Views.{Setup};
ghost use Rattle.crq_host.specs.Courses.{IsBetween, HasFirst, IsTaken, HasRun, IsToPut, TakenEnds, RunEnds, PutEnds, WindowEnds, AllEnd};

use crate::course::{Course, Plan};
use crate::drive_end::DriveEnd;
use crate::gate::Gate;
use crate::putting::put_all;
use crate::taking::{drain, take_least};
use crate::window_run::run_window;
use crq_base::{Event, Memory, Short};
use crq_set::EventSet;
use crq_sim::Model;
use crq_windows::{edge, group_by_object};
use std::alloc::Global;
use std::sync::Wait;
use std::thread::Threads;

/// What is short where rows and epochs are enough.
fn only_memory(short: Short) -> Memory
    requires { short ≡ OfMemory }
{
    match short {
        Short::Memory => Memory,
        _ => unreachable!(),
    }
}

/// Takes the events of a window whose first one was taken.
fn take_rest<S: EventSet, G: Gate, R: Threads + Wait + Sync>(
    rt: &R,
    gate: &G,
    model: &Model,
    set: &S,
    whole: S::Whole,
    plan: Plan,
    course: &mut Course<S::Pass>,
    first: Event,
) -> (S::Whole, Result<bool, Memory>)
    requires whole { S.is_whole set.now whole }
    requires first { HasFirst model.now plan (S.setup set.now) (S.history whole) course.old first }
    ensures whole { S.is_whole set.now result.0 }
    ensures taken { TakenEnds model.now plan (S.setup set.now) (S.history result.0) course.new result.1 }
{
    model.is_model();
    let limit = edge(first.time, model.lookahead());
    let window = course.window + 1;
    let (whole, drained) = drain(
        rt,
        gate,
        set,
        whole,
        course.workers.as_mut_slice(),
        window,
        limit,
    );
    if let Err(short) = drained {
        return (whole, Err(only_memory(short)));
    }
    match course.collect(first) {
        Ok(()) => (whole, Ok(true)),
        Err(Memory) => (whole, Err(Memory)),
    }
}

/// Takes the events of the next window: the least one alone, and by all workers at once those before the edge that it makes.
/// Answers false where nothing is pending. `Memory` means that memory was refused; then the course is of no use any more.
pub(crate) fn take_window<S: EventSet, G: Gate, R: Threads + Wait + Sync>(
    rt: &R,
    gate: &G,
    model: &Model,
    set: &S,
    whole: S::Whole,
    plan: Plan,
    course: &mut Course<S::Pass>,
) -> (S::Whole, Result<bool, Memory>)
    requires whole { S.is_whole set.now whole }
    requires between { IsBetween model.now plan (S.setup set.now) (S.history whole) course.old }
    ensures whole { S.is_whole set.now result.0 }
    ensures taken { TakenEnds model.now plan (S.setup set.now) (S.history result.0) course.new result.1 }
{
    model.is_model();
    let (whole, least) = take_least(rt, set, whole, 1);
    let found = match least {
        Ok(found) => found,
        Err(short) => return (whole, Err(only_memory(short))),
    };
    let Some(first) = found else {
        return (whole, Ok(false));
    };
    take_rest(rt, gate, model, set, whole, plan, course, first)
}

/// Runs the events of a window that were taken, object by object.
fn run_events<P: Send + Drop, G: Gate, R: Threads + Wait + Sync>(
    rt: &R,
    gate: &G,
    alloc: Global,
    model: &Model,
    plan: Plan,
    course: &mut Course<P>,
) -> Result<(), Memory>
    requires taken { (setup : Setup) × (history : List Entry) × IsTaken model.now plan setup history course.old }
    requires few { course.old.made + length course.old.events.items ≤ plan.cap }
    ensures ran { OnOk result ((setup : Setup) (history : List Entry) → IsTaken model.now plan setup history course.old → HasRun model.now plan setup history course.new) }
{
    model.is_model();
    let objects = model.objects().len() as u32;
    let groups = group_by_object(alloc, &mut course.events, objects)?;
    run_window(
        rt,
        gate,
        model,
        course.window + 1,
        plan.span,
        &mut course.states,
        &mut course.log,
        course.events.as_slice(),
        groups.as_slice(),
        course.workers.as_mut_slice(),
    )
}

/// Runs the events of a window that were taken and counts them, unless they are too many, or the rows too few for what is
/// pending then.
fn run_taken<P: Send + Drop, G: Gate, R: Threads + Wait + Sync>(
    rt: &R,
    gate: &G,
    alloc: Global,
    model: &Model,
    plan: Plan,
    course: &mut Course<P>,
) -> Result<(), DriveEnd>
    requires taken { (setup : Setup) × (history : List Entry) × IsTaken model.now plan setup history course.old }
    ensures ran { (setup : Setup) (history : List Entry) → IsTaken model.now plan setup history course.old → RunEnds model.now plan setup history course.new result }
{
    model.is_model();
    if course.events.len() > (plan.cap - course.made) as usize {
        return Err(DriveEnd::Events(course.window + 1));
    }
    run_events(rt, gate, alloc, model, plan, course)?;
    course.count(plan)
}

/// Puts what a window sent, or before the first one the starts.
pub(crate) fn put_window<S: EventSet, G: Gate, R: Threads + Wait + Sync>(
    rt: &R,
    gate: &G,
    model: &Model,
    set: &S,
    whole: S::Whole,
    plan: Plan,
    course: &mut Course<S::Pass>,
) -> (S::Whole, Result<(), Memory>)
    requires whole { S.is_whole set.now whole }
    requires to_put { IsToPut model.now plan (S.setup set.now) (S.history whole) course.old }
    ensures whole { S.is_whole set.now result.0 }
    ensures put { PutEnds model.now plan (S.setup set.now) (S.history result.0) course.new result.1 }
{
    model.is_model();
    let window = course.window;
    let (whole, put) = put_all(
        rt,
        gate,
        set,
        whole,
        course.workers.as_mut_slice(),
        window,
        plan.span,
    );
    match put {
        Ok(()) => (whole, Ok(())),
        Err(short) => (whole, Err(only_memory(short))),
    }
}

/// One window: its events are taken, run, and what they sent is put. Answers false where nothing is pending.
pub(crate) fn next_window<S: EventSet, G: Gate, R: Threads + Wait + Sync>(
    rt: &R,
    gate: &G,
    alloc: Global,
    model: &Model,
    set: &S,
    whole: S::Whole,
    plan: Plan,
    course: &mut Course<S::Pass>,
) -> (S::Whole, Result<bool, DriveEnd>)
    requires whole { S.is_whole set.now whole }
    requires between { IsBetween model.now plan (S.setup set.now) (S.history whole) course.old }
    ensures whole { S.is_whole set.now result.0 }
    ensures window { WindowEnds model.now plan (S.setup set.now) (S.history result.0) course.new result.1 }
{
    let (whole, taken) = take_window(rt, gate, model, set, whole, plan, course);
    match taken {
        Ok(true) => {}
        Ok(false) => return (whole, Ok(false)),
        Err(Memory) => return (whole, Err(DriveEnd::Memory)),
    }
    if let Err(end) = run_taken(rt, gate, alloc, model, plan, course) {
        return (whole, Err(end));
    }
    let (whole, put) = put_window(rt, gate, model, set, whole, plan, course);
    match put {
        Ok(()) => (whole, Ok(true)),
        Err(Memory) => (whole, Err(DriveEnd::Memory)),
    }
}

/// Runs one window after another until nothing is pending.
fn run_windows<S: EventSet, G: Gate, R: Threads + Wait + Sync>(
    rt: &R,
    gate: &G,
    alloc: Global,
    model: &Model,
    set: &S,
    whole: S::Whole,
    plan: Plan,
    course: &mut Course<S::Pass>,
) -> (S::Whole, Result<(), DriveEnd>)
    requires whole { S.is_whole set.now whole }
    requires between { IsBetween model.now plan (S.setup set.now) (S.history whole) course.old }
    ensures whole { S.is_whole set.now result.0 }
    ensures all { AllEnd model.now plan (S.history result.0) course.new result.1 }
{
    let mut whole = whole;
    for _ in rt.forever() {
        let (after, more) = next_window(rt, gate, alloc, model, set, whole, plan, course);
        match more {
            Ok(true) => whole = after,
            Ok(false) => return (after, Ok(())),
            Err(end) => return (after, Err(end)),
        }
    }
    unreachable!()
}

/// The whole run: the starts are put, and then one window runs after another.
pub(crate) fn run_all<S: EventSet, G: Gate, R: Threads + Wait + Sync>(
    rt: &R,
    gate: &G,
    alloc: Global,
    model: &Model,
    set: &S,
    whole: S::Whole,
    plan: Plan,
    course: &mut Course<S::Pass>,
) -> (S::Whole, Result<(), DriveEnd>)
    requires whole { S.is_whole set.now whole }
    requires to_put { IsToPut model.now plan (S.setup set.now) (S.history whole) course.old }
    ensures whole { S.is_whole set.now result.0 }
    ensures all { AllEnd model.now plan (S.history result.0) course.new result.1 }
{
    let (whole, put) = put_window(rt, gate, model, set, whole, plan, course);
    match put {
        Ok(()) => run_windows(rt, gate, alloc, model, set, whole, plan, course),
        Err(Memory) => (whole, Err(DriveEnd::Memory)),
    }
}
