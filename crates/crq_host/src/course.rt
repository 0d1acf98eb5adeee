//! The course of a run in windows, beside its set.

ghost use Rattle.std.specs.Prelude.{◌≡◌, ◌++◌, ◌+◌, ◌<◌, ◌≤◌, ◌^◌, length, OnOk, IfOk, All};
ghost use Rattle.crq_sim.specs.declared.traces.Step.{Step};
ghost use Rattle.crq_sim.specs.Models.{IsObject};
ghost use Rattle.crq_host.specs.Courses.{Begins, Collects, CountEnds, IsBlank, Tells, all_taken, all_due};
ghost use Rattle.crq_host.specs.declared.worker.Worker.{Worker};

use crate::drive_end::DriveEnd;
use crate::merging::clear;
use crate::worker::Worker;
use crq_base::{Event, Memory};
use crq_sim::{Model, ObjectState, Outcome, Sequence, Step, states_before, traces_by};
use std::alloc::{AllocError, Global};

/// What a run is bounded by, and how its sources are shared.
#[derive(Clone, Copy)]
pub struct Plan {
    /// How many events the run may have, up to `crq_sim::MOST_EVENTS`.
    pub cap: u32,
    /// How many rows each worker has.
    pub rows: u32,
    /// How many sources in a row each worker owns, 1 at least.
    pub span: u32,
}

/// What a run in windows keeps from one window to the next.
#[derive(Drop)]
pub struct Course<P> {
    /// The number of the last window that was run, and 0 before the first one.
    pub window: u32,
    /// How many events were run.
    pub made: u32,
    /// How many events are pending after that window.
    pub pending: u32,
    /// The greatest number of events that were pending after a window.
    pub peak: u32,
    /// The objects' states.
    pub states: Vec<ObjectState>,
    /// The steps that were made, those of each object in order.
    pub log: Vec<Step>,
    /// The events of a window.
    pub events: Vec<Event>,
    /// The workers.
    pub workers: Vec<Worker<P>>,
}

/// Adds what the workers took to the events.
fn add_taken<P: Drop>(events: &mut Vec<Event>, workers: &[Worker<P>]) -> Result<(), Memory>
    ensures { OnOk result (events.new.items ≡ events.old.items ++ all_taken workers.now) }
{
    for worker in workers {
        events.extend_from_slice(worker.taken.as_slice())?;
    }
    Ok(())
}

/// How many events the workers have to put.
fn due_count<P: Drop>(workers: &[Worker<P>]) -> usize
    requires { length (all_due workers.now) < 2 ^ 32 }
    ensures { result ≡ length (all_due workers.now) }
{
    let mut count = 0;
    for worker in workers {
        count += worker.due.len();
    }
    count
}

/// A worker without a pass, whose lists are empty.
fn blank_worker<P: Drop>(alloc: Global) -> Worker<P>
    ensures { IsBlank result }
{
    Worker {
        pass: None,
        taken: Vec::new(alloc),
        changed: Vec::new(alloc),
        steps: Vec::new(alloc),
        sends: Vec::new(alloc),
        due: Vec::new(alloc),
        short: None,
    }
}

/// So many workers without passes, whose lists are empty.
fn blank_workers<P: Drop>(alloc: Global, count: u32) -> Result<Vec<Worker<P>>, AllocError>
    ensures count { IfOk result (λ ws. length ws.items ≡ count) }
    ensures blank { IfOk result (λ ws. All (λ (w : Worker P). IsBlank w) ws.items) }
{
    let mut workers = Vec::with_capacity(alloc, count as usize)?;
    for _number in 0..count {
        workers.push(blank_worker(alloc))?;
    }
    Ok(workers)
}

impl<P: Drop> Course<P> {
    /// The course before the first window, where the starts are still to be put.
    pub fn begin(
        alloc: Global,
        model: &Model,
        workers: u32,
        starts: Vec<Event>,
    ) -> Result<Course<P>, AllocError>
        requires some { 1 ≤ workers }
        requires few { length starts.items < 2 ^ 32 }
        ensures begins { IfOk result (λ c. Begins model.now workers starts.items c) }
    {
        let pending = starts.len() as u32;
        let states = states_before(alloc, model)?;
        let mut workers = blank_workers(alloc, workers)?;
        workers[0].due = starts;
        Ok(Course {
            window: 0,
            made: 0,
            pending,
            peak: pending,
            states,
            log: Vec::new(alloc),
            events: Vec::new(alloc),
            workers,
        })
    }

    /// What the run came to, once nothing is pending.
    pub fn into_outcome(self, alloc: Global, model: &Model) -> Result<Outcome, AllocError>
        requires { All (λ (s : Step). IsObject (length model.now.objects) s.event.dst) self.log.items }
        ensures { IfOk result (λ outcome. Tells model.now self outcome) }
    {
        Ok(Outcome {
            traces: traces_by(alloc, model, self.log.as_slice())?,
            windows: self.window,
            peak: self.peak,
            tables: Sequence::from_vec(Vec::new(alloc)),
        })
    }

    /// Puts the events of a window together, of which the first one was taken alone, and empties the workers' lists.
    pub fn collect(&mut self, first: Event) -> Result<(), Memory>
        ensures { OnOk result (Collects first self.old self.new) }
    {
        self.events.clear();
        self.events.reserve(1)?;
        self.events.push_reserved(first);
        add_taken(&mut self.events, self.workers.as_slice())?;
        clear(self.workers.as_mut_slice());
        Ok(())
    }
    /// Counts a window that was run. Answers `Rows` where its rows are too few for what is pending after it.
    pub fn count(&mut self, plan: Plan) -> Result<(), DriveEnd>
        requires window { self.old.window < 2 ^ 24 }
        requires made { self.old.made + length self.old.events.items < 2 ^ 24 }
        requires events { length self.old.events.items ≤ self.old.pending }
        requires pending { self.old.pending < 2 ^ 25 }
        requires due { length (all_due self.old.workers.items) < 2 ^ 25 }
        ensures { CountEnds plan self.old self.new result }
    {
        let events = self.events.len() as u32;
        let sends = due_count(self.workers.as_slice()) as u32;
        self.window += 1;
        self.made += events;
        self.pending = self.pending - events + sends;
        if 2 * self.pending + 2 > plan.rows {
            return Err(DriveEnd::Rows(self.window, self.pending));
        }
        self.peak = self.peak.max(self.pending);
        Ok(())
    }
}
