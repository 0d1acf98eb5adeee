//! The run of a model over one event list.

ghost use Rattle.std.specs.Prelude.{◌≡◌, ◌+◌, ◌≤◌, ◌<◌, IfOk, IfErr, IfSome, MatchOption, []};
ghost use Rattle.crq_base.specs.declared.event.Event.{Event};
ghost use Rattle.crq_sim.specs.Ends.{IsEndOf};
ghost use Rattle.crq_sim.specs.EventLists.{IsHead};
ghost use Rattle.crq_sim.specs.Models.{IsModel};
ghost use Rattle.crq_sim.specs.Runs.{simulation_at, IsOverWithin, traces_within};
ghost use Rattle.crq_sim.specs.Shown.{Tracks};

use crate::model::Model;
use crate::run::{MOST_EVENTS, Run};
use crate::sequence::Sequence;
use crate::traces::Traces;
use std::alloc::{AllocError, Global};

/// Why a run leaves no traces.
#[derive(Clone, Copy, Debug, PartialEq, Eq)]
pub enum SimEnd {
    /// Memory was refused.
    Memory,
    /// The run has more events than the cap allows; the first event past the cap is in the window with this number.
    Events(u32),
}

impl From<AllocError> for SimEnd {
    ghost use Rattle.std.specs.Prelude.{◌≡◌};
    ghost use Rattle.crq_sim.specs.declared.serial_run.SimEnd.TheVariants.{Memory};

    ghost from_gives = { λ _ e. e ≡ Memory };

    fn from(_error: AllocError) -> SimEnd {
        SimEnd::Memory
    }
}

/// The lookahead window (Nicol's YAWNS) of the last event that was passed.
#[derive(Clone, Copy)]
struct Window {
    /// How many events were passed.
    events: u32,
    /// Windows are numbered from 1; 0 is before the first event.
    number: u32,
    /// The window's events are below it, in ticks.
    edge: u64,
}

impl Window {
    /// Before the first event.
    fn before_all() -> Window
        ensures { result ≡ record { events = 0; number = 0; edge = 0 } }
    {
        Window {
            events: 0,
            number: 0,
            edge: 0,
        }
    }

    /// Passes the next event, which has this time.
    fn pass(&mut self, model: &Model, time: u32)
        requires tracks { Tracks model.now self.old.events self.old.number self.old.edge }
        requires next { (e : Event) × IsHead e (simulation_at model.now self.old.events).pending × (e.time ≡ time) }
        requires few { self.old.events ≤ MOST_EVENTS }
        ensures tracks { Tracks model.now self.new.events self.new.number self.new.edge }
        ensures passed { self.new.events ≡ self.old.events + 1 }
    {
        model.is_model();
        if u64::from(time) >= self.edge {
            self.number += 1;
            self.edge = u64::from(time) + u64::from(model.lookahead());
        }
        self.events += 1;
    }
}

/// The traces of the serial run of a model: the least pending event is taken and run until nothing is pending.
///
/// Answers `SimEnd::Events` exactly where the run has more than `cap` events.
pub fn serial(alloc: Global, model: &Model, cap: u32) -> Result<Traces, SimEnd>
    requires { cap ≤ MOST_EVENTS }
    ensures traces { IfOk result (λ t. IsOverWithin model.now cap × (t ≡ traces_within model.now cap)) }
    ensures ends { IfErr result (λ e. IsEndOf model.now cap e) }
{
    let mut run = Run::begin(alloc, model)?;
    let mut window = Window::before_all();
    for _event in 0..cap {
        match run.step(model)? {
            Some(time) => window.pass(model, time),
            None => return Ok(run.into_traces(alloc, model)?),
        }
    }
    match run.next_time() {
        Some(time) => {
            window.pass(model, time);
            Err(SimEnd::Events(window.number))
        }
        None => Ok(run.into_traces(alloc, model)?),
    }
}
