//! What a run leaves: the steps of each object.

use crate::model::BehaviourName;
use crate::name::Name;
use crate::sequence::Sequence;
use crq_base::Event;

/// An event that was run, with the object's count and word after it.
#[derive(Clone, Copy, Debug, PartialEq, Eq)]
pub struct Step {
    pub event: Event,
    pub count: u64,
    pub word: u64,
}

/// The steps of one object in the order in which they were made.
pub type Steps = Sequence<Step>;

/// What one object did.
#[derive(Debug, Drop)]
pub struct ObjectTrace {
    pub name: Name,
    pub behaviour: BehaviourName,
    pub steps: Steps,
}

/// The traces of all objects in order; the first one is that of object 1.
pub type Traces = Sequence<ObjectTrace>;
