//! What a worker has.

use crq_base::{Event, Short};
use crq_sim::{ObjectState, Step};

/// An object, and its state after its events of a window.
#[derive(Clone, Copy)]
pub struct Changed {
    /// The object's number, from 1.
    pub object: u32,
    /// The state after its events.
    pub state: ObjectState,
}

/// A worker's pass, and the lists that it fills in a window. The lists are used again in the next one.
#[derive(Drop)]
pub struct Worker<P> {
    /// The worker's pass, while the passes are dealt.
    pub pass: Option<P>,
    /// The events that it took.
    pub taken: Vec<Event>,
    /// The objects whose events it ran, with their states after them.
    pub changed: Vec<Changed>,
    /// The steps of these objects.
    pub steps: Vec<Step>,
    /// What these objects sent.
    pub sends: Vec<Event>,
    /// What it has to put: the events of its own sources.
    pub due: Vec<Event>,
    /// Why it stopped before the end of a phase.
    pub short: Option<Short>,
}
