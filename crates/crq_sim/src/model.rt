//! Simulation models.

ghost use Rattle.std.specs.Prelude.{◌≡◌};
ghost use Rattle.crq_sim.specs.Models.{ModelData, IsModel};

use crate::name::Name;
use crate::sequence::Sequence;
use crate::targets::Targets;
use std::marker;

/// How many objects a model has at most.
pub const MOST_OBJECTS: usize = 65_535;

/// How many starts a model has at most.
pub const MOST_STARTS: usize = 65_535;

/// What an object does at each of its events. Delays and services are in ticks, objects are numbered from 1.
#[derive(Debug, Drop)]
pub enum Behaviour {
    /// Sends the event on, with a load that is one more.
    Relay { delay: u32, next: u32 },
    /// Sends the event to an object that it draws, after the lookahead and a drawn delay of up to `spread` ticks.
    Phold { seed: u64, spread: u32 },
    /// Serves one event at a time, each for `service` ticks, and then sends it on.
    Station { service: u32, next: u32 },
    /// Sends a copy of the event to each target.
    Fan { delay: u32, targets: Targets },
    /// Adds up the loads and sends nothing.
    Sink,
}

/// A behaviour without its numbers.
#[derive(Clone, Copy, Debug, PartialEq, Eq)]
pub enum BehaviourName {
    Relay,
    Phold,
    Station,
    Fan,
    Sink,
}

/// A logical process of the model.
#[derive(Debug, Drop)]
pub struct Object {
    pub name: Name,
    pub behaviour: Behaviour,
}

/// An event that the model begins with: when it happens, at which object, and what it carries.
#[derive(Clone, Copy, Debug, PartialEq, Eq)]
pub struct Start {
    pub time: u32,
    pub object: u32,
    pub load: u64,
}

/// The objects of a model in order; the first one has number 1.
pub type Objects = Sequence<Object>;

/// The starts of a model in the order of its file.
pub type Starts = Sequence<Start>;

/// A simulation model: no object sends earlier than the lookahead after its event, and nothing is scheduled after `until`.
#[derive(Debug, Drop)]
pub struct Model {
    lookahead: u32,
    until: u32,
    objects: Objects,
    starts: Starts,
}

impl marker::Model for Model {
    ghost use Rattle.crq_sim.specs.Models.{ModelData, IsModel};

    ghost Value = { ModelData };

    ghost view = { λ m. record { lookahead = m.lookahead; until = m.until; objects = m.objects; starts = m.starts } };

    ghost invariant = { λ m. IsModel (record { lookahead = m.lookahead; until = m.until; objects = m.objects; starts = m.starts }) };
}

impl Model {
    /// Puts a model together, which takes no memory.
    pub fn new(lookahead: u32, until: u32, objects: Objects, starts: Starts) -> Model
        requires { IsModel (record { lookahead = lookahead; until = until; objects = objects; starts = starts }) }
        ensures { result ≡ record { lookahead = lookahead; until = until; objects = objects; starts = starts } }
    {
        Model {
            lookahead,
            until,
            objects,
            starts,
        }
    }

    /// The least delay between an event and what it sends, in ticks.
    pub fn lookahead(&self) -> u32
        ensures { result ≡ self.now.lookahead }
    {
        self.lookahead
    }

    /// The last tick at which an event may happen.
    pub fn until(&self) -> u32
        ensures { result ≡ self.now.until }
    {
        self.until
    }

    /// The objects in order.
    pub fn objects(&self) -> &[Object]
        ensures { result.now ≡ self.now.objects }
    {
        self.objects.as_slice()
    }

    /// The starts in the order of the file.
    pub fn starts(&self) -> &[Start]
        ensures { result.now ≡ self.now.starts }
    {
        self.starts.as_slice()
    }

    /// What is true of each model.
    pub fn is_model(&self)
        ensures { IsModel self.now }
    {
        let _ = &self.objects;
    }
}
