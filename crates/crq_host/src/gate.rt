//! What workers pass on their way through a window, and how they run an event.

ghost use Rattle.std.specs.Prelude.{◌≡◌, ◌<◌, ◌≤◌, ◌^◌, length};
ghost use Rattle.crq_sim.specs.Models.{ModelData, IsObject};
ghost use Rattle.crq_sim.specs.Reactions.{behaviour_at, reaction_of, IsWordOf};

use crq_base::Event;
use crq_sim::{Model, ObjectState, Sends, react};
use std::sync::Wait;

/// The phases of a window in which all workers are at work.
#[derive(Clone, Copy, Debug, PartialEq, Eq)]
pub enum Phase {
    /// They take the events of the window.
    Drain,
    /// They run them, object by object.
    Run,
    /// They help to open a new table. No worker passes it yet, since a set has one table.
    Help,
    /// They put what the events sent, or the starts of the model.
    Put,
}

/// What each worker passes at the beginning of a phase, and how it runs an event.
pub trait Gate: Sync {
    /// Each worker passes the gate once at the beginning of each phase. Windows are numbered from 1; window 0 is the put of
    /// the model's starts.
    fn pass<R: Wait>(&self, rt: &R, worker: u32, window: u32, phase: Phase);

    /// Runs an event at its object, as `crq_sim::react` does: changes the object's state and answers what it schedules. It
    /// takes no memory.
    fn react(
        &self,
        worker: u32,
        model: &Model,
        object: u32,
        state: &mut ObjectState,
        event: &Event,
    ) -> Sends
        requires there { IsObject (length model.now.objects) object }
        requires here { event.now.dst ≡ object }
        requires time { event.now.time ≤ model.now.until }
        requires count { state.old.count < 2 ^ 62 }
        requires sent { state.old.sent < 2 ^ 62 }
        requires word { IsWordOf (behaviour_at model.now object) state.old.word }
        ensures state { state.new ≡ (reaction_of model.now object state.old event.now).state }
        ensures sends { result ≡ (reaction_of model.now object state.old event.now).sends };
}

/// The gate of a program: it is open, and runs events as they are.
#[derive(Clone, Copy)]
pub struct OpenGate;

impl Gate for OpenGate {
    fn pass<R: Wait>(&self, _rt: &R, _worker: u32, _window: u32, _phase: Phase) {}

    fn react(
        &self,
        _worker: u32,
        model: &Model,
        object: u32,
        state: &mut ObjectState,
        event: &Event,
    ) -> Sends {
        react(model, object, state, event)
    }
}
