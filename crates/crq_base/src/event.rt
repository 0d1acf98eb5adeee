//! Simulation events, and the order in which one event list takes them.

ghost use Rattle.std.specs.Prelude.{◌≡◌, ◌↔◌, IsTrue};
ghost use Rattle.std.specs.Cmp.{IsTotalOrder};
ghost use Rattle.std.specs.Ordering.{ordering_then};
ghost use Rattle.crq_base.specs.Keys.{key_cmp, event_cmp, tie_cmp, IsBefore};
ghost use Rattle.crq_base.specs.declared.event.Event.{Event};

use std::cmp::Ordering;

/// One scheduled event of a simulation.
///
/// Events are ordered by their key, which is the time, then the source, then the source's number. No two events of
/// one run have the same key. Where two events have it all the same, the destination and then the load decide, so
/// that the order is total.
#[derive(Clone, Copy, Debug, PartialEq, Eq, PartialOrd, Ord)]
pub struct Event {
    /// When the event happens, in ticks.
    pub time: u32,
    /// The object that scheduled it, numbered from 1; 0 is the model file.
    pub src: u32,
    /// How many events that source had scheduled before.
    pub seq: u64,
    /// The object at which it happens, numbered from 1.
    pub dst: u32,
    /// What it carries.
    pub load: u64,
}

impl Event {
    /// Compares the keys alone: time, then source, then the source's number.
    pub fn key_cmp(&self, other: &Event) -> Ordering
        ensures { result ≡ key_cmp self.now other.now }
    {
        self.time
            .cmp(&other.time)
            .then(self.src.cmp(&other.src))
            .then(self.seq.cmp(&other.seq))
    }

    /// Whether this event is taken before the other one.
    pub fn is_before(&self, other: &Event) -> bool
        ensures { IsTrue result ↔ IsBefore self.now other.now }
    {
        self < other
    }
}

/// The order of events is total, and it refines the order of keys by destination and load.
pub fn order_law()
    ensures total { IsTotalOrder event_cmp }
    ensures refines { (a b : Event) → event_cmp a b ≡ ordering_then (key_cmp a b) (tie_cmp a b) }
{}
