//! The event list of a serial run.

ghost use Rattle.std.specs.Prelude.{◌≡◌, [], ◌∷◌, OnOk, MatchOption};
ghost use Rattle.crq_sim.specs.EventLists.{with_event, with_events, IsHead};

use crq_base::Event;
use std::alloc::{AllocError, Global};
use std::cmp::Reverse;
use std::collections::BinaryHeap;
use std::marker;

/// Pending events. Contracts see them in order, the least one first.
#[derive(Drop)]
pub struct Pending {
    /// A heap gives its greatest element first.
    events: BinaryHeap<Reverse<Event>>,
}

impl marker::Model for Pending {
    ghost use Rattle.std.specs.Prelude.{List};
    ghost use Rattle.std.specs.BinaryHeap.{heap_items, IsHeap};
    ghost use Rattle.crq_base.specs.declared.event.Event.{Event};
    ghost use Rattle.crq_sim.specs.Heaps.{reverse_cmp, listed};

    ghost Value = { List Event };

    ghost view = { λ p. listed (heap_items p.events) };

    ghost invariant = { λ p. IsHeap reverse_cmp (heap_items p.events) };
}

impl Pending {
    /// No event.
    pub fn new(alloc: Global) -> Pending
        ensures { result ≡ [] }
    {
        Pending {
            events: BinaryHeap::new(alloc),
        }
    }

    /// Adds an event.
    pub fn insert(&mut self, event: Event) -> Result<(), AllocError>
        ensures { OnOk result (self.new ≡ with_event event self.old) }
    {
        self.events.push(Reverse(event))?;
        Ok(())
    }

    /// Adds events.
    pub fn insert_each(&mut self, events: &[Event]) -> Result<(), AllocError>
        ensures { OnOk result (self.new ≡ with_events events.now self.old) }
    {
        for event in events {
            self.insert(*event)?;
        }
        Ok(())
    }

    /// Takes the least event.
    pub fn pop_first(&mut self) -> Option<Event>
        ensures { MatchOption result ((self.old ≡ []) × (self.new ≡ [])) (λ e. self.old ≡ e ∷ self.new) }
    {
        let item = self.events.pop()?;
        Some(item.0)
    }

    /// The least event.
    pub fn first(&self) -> Option<Event>
        ensures { MatchOption result (self.now ≡ []) (λ e. IsHead e self.now) }
    {
        let item = self.events.peek()?;
        Some(item.0)
    }
}
