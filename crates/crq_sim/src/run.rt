//! The variables of a serial run, and its steps.

ghost use Rattle.std.specs.Prelude.{◌≡◌, ℕ, ◌+◌, ◌-◌, ◌<◌, ◌≤◌, length, IfOk, OnOk, MatchOption, [], slice_index_or, vec_len, All};
ghost use Rattle.crq_base.specs.declared.event.Event.{Event};
ghost use Rattle.crq_sim.specs.EventLists.{IsHead};
ghost use Rattle.crq_sim.specs.Models.{ModelData, IsModel, IsObject};
ghost use Rattle.crq_sim.specs.Kinds.{kind_of};
ghost use Rattle.crq_sim.specs.Runs.{simulation_at, first_states, scheduled_starts, traces_of};
ghost use Rattle.crq_sim.specs.Shown.{Shows, IsNext, Advances, with_step};
ghost use Rattle.crq_sim.specs.declared.model.Object.{Object};
ghost use Rattle.crq_sim.specs.declared.run.Run.{Run};
ghost use Rattle.crq_sim.specs.declared.traces.ObjectTrace.{ObjectTrace};
ghost use Rattle.crq_sim.specs.declared.traces.Step.{Step};

use crate::model::{MOST_STARTS, Model, Object, Start};
use crate::pending::Pending;
use crate::reaction::{ObjectState, react};
use crate::sequence::Sequence;
use crate::traces::{ObjectTrace, Step, Traces};
use crq_base::Event;
use std::alloc::{AllocError, Global};

/// How many events a run has at most.
pub const MOST_EVENTS: u32 = 4_194_304;

/// A serial run after `made` events.
#[derive(Drop)]
pub struct Run {
    pub made: u32,
    pub states: Vec<ObjectState>,
    pub pending: Pending,
    /// The steps of all objects, in the order in which they were made.
    pub log: Vec<Step>,
}

/// The states of the objects before the first event.
fn states_of(alloc: Global, objects: &[Object]) -> Result<Vec<ObjectState>, AllocError>
    ensures { IfOk result (λ s. s.items ≡ first_states objects.now) }
{
    let mut states = Vec::with_capacity(alloc, objects.len())?;
    for object in objects {
        states.push(ObjectState::before(object))?;
    }
    Ok(states)
}

/// The trace of an object that made no step.
fn trace_without_steps(alloc: Global, object: &Object) -> Result<ObjectTrace, AllocError>
    ensures { IfOk result (λ t. t ≡ record { name = object.now.name; behaviour = kind_of object.now.behaviour; steps = [] }) }
{
    Ok(ObjectTrace {
        name: object.name.copied(alloc)?,
        behaviour: object.behaviour.kind(),
        steps: Sequence::from_vec(Vec::new(alloc)),
    })
}

/// A trace without steps for each object.
fn traces_without_steps(alloc: Global, objects: &[Object]) -> Result<Vec<ObjectTrace>, AllocError>
    ensures { IfOk result (λ t. t.items ≡ traces_of objects.now []) }
{
    let mut traces = Vec::with_capacity(alloc, objects.len())?;
    for object in objects {
        traces.push(trace_without_steps(alloc, object)?)?;
    }
    Ok(traces)
}

/// The starts up to the end as events, numbered in their order.
fn starts_of(alloc: Global, until: u32, starts: &[Start]) -> Result<Vec<Event>, AllocError>
    requires { length starts.now ≤ MOST_STARTS }
    ensures { IfOk result (λ events. events.items ≡ scheduled_starts until 0 starts.now) }
{
    let mut events = Vec::new(alloc);
    let mut seq = 0;
    for start in starts {
        if start.time <= until {
            events.push(Event {
                time: start.time,
                src: 0,
                seq,
                dst: start.object,
                load: start.load,
            })?;
            seq += 1;
        }
    }
    Ok(events)
}

/// The states of a model's objects before the first event.
pub fn states_before(alloc: Global, model: &Model) -> Result<Vec<ObjectState>, AllocError>
    ensures { IfOk result (λ states. states.items ≡ first_states model.now.objects) }
{
    states_of(alloc, model.objects())
}

/// A model's starts up to its end, as the events of source 0 that are pending before the first event.
pub fn starts_before(alloc: Global, model: &Model) -> Result<Vec<Event>, AllocError>
    ensures { IfOk result (λ events. events.items ≡ scheduled_starts model.now.until 0 model.now.starts) }
{
    model.is_model();
    starts_of(alloc, model.until(), model.starts())
}

/// The traces of a model's objects by the steps that were made, in whatever order those of different objects stand.
pub fn traces_by(alloc: Global, model: &Model, log: &[Step]) -> Result<Traces, AllocError>
    requires { All (λ (s : Step). IsObject (length model.now.objects) s.event.dst) log.now }
    ensures { IfOk result (λ t. t ≡ traces_of model.now.objects log.now) }
{
    gathered(alloc, model.objects(), log)
}

/// Adds a step to the trace of its object.
fn push_step(traces: &mut Vec<ObjectTrace>, step: Step) -> Result<(), AllocError>
    requires { (0 < step.event.dst) × (step.event.dst ≤ vec_len traces.old) }
    ensures { OnOk result ((d : ObjectTrace) → traces.new.items ≡ with_step traces.old.items (slice_index_or traces.old.items (step.event.dst - 1) d) step) }
{
    let trace = &mut traces[step.event.dst as usize - 1];
    trace.steps.push(step)
}

/// The traces of the objects, each with its own steps of all that were made.
fn gathered(alloc: Global, objects: &[Object], log: &[Step]) -> Result<Traces, AllocError>
    requires { All (λ (s : Step). IsObject (length objects.now) s.event.dst) log.now }
    ensures { IfOk result (λ t. t ≡ traces_of objects.now log.now) }
{
    let mut traces = traces_without_steps(alloc, objects)?;
    for step in log {
        push_step(&mut traces, *step)?;
    }
    Ok(Sequence::from_vec(traces))
}

impl Run {
    /// The run before its first event.
    pub fn begin(alloc: Global, model: &Model) -> Result<Run, AllocError>
        ensures shows { IfOk result (λ r. Shows model.now r) }
        ensures none { IfOk result (λ r. r.made ≡ 0) }
    {
        let starts = starts_before(alloc, model)?;
        let mut pending = Pending::new(alloc);
        pending.insert_each(starts.as_slice())?;
        Ok(Run {
            made: 0,
            states: states_before(alloc, model)?,
            pending,
            log: Vec::new(alloc),
        })
    }

    /// Runs the least pending event and answers its time, or answers None where nothing is pending.
    pub fn step(&mut self, model: &Model) -> Result<Option<u32>, AllocError>
        requires shows { Shows model.now self.old }
        requires few { self.old.made < MOST_EVENTS }
        ensures { IfOk result (λ time. Advances model.now self.old self.new time) }
    {
        let Some(event) = self.pending.pop_first() else {
            return Ok(None);
        };
        self.run(model, event)?;
        Ok(Some(event.time))
    }

    /// The time of the least pending event.
    pub fn next_time(&self) -> Option<u32>
        ensures { MatchOption result (self.now.pending ≡ []) (λ time. (e : Event) × IsHead e self.now.pending × (e.time ≡ time)) }
    {
        let event = self.pending.first()?;
        Some(event.time)
    }

    /// The traces of the steps that were made.
    pub fn into_traces(self, alloc: Global, model: &Model) -> Result<Traces, AllocError>
        requires { Shows model.now self }
        ensures { IfOk result (λ t. t ≡ traces_of model.now.objects (simulation_at model.now self.made).log) }
    {
        model.is_model();
        traces_by(alloc, model, self.log.as_slice())
    }

    /// Runs an event that was taken from the pending ones.
    fn run(&mut self, model: &Model, event: Event) -> Result<(), AllocError>
        requires next { IsNext model.now self.old event }
        requires few { self.old.made < MOST_EVENTS }
        ensures { OnOk result (Shows model.now self.new × (self.new.made ≡ self.old.made + 1)) }
    {
        model.is_model();
        let at = event.dst as usize - 1;
        let mut state = self.states[at];
        let sends = react(model, event.dst, &mut state, &event);
        self.states[at] = state;
        let step = Step {
            event,
            count: state.count,
            word: state.word,
        };
        self.log.push(step)?;
        self.pending.insert_each(sends.as_slice())?;
        self.made += 1;
        Ok(())
    }
}
