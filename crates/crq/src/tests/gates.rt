//! Two workers meet: those of a phase are at work at once, and events are run by the gate.

ghost use Rattle.std.specs.Prelude.{◌≡◌, ◌<◌, ◌^◌, length};
ghost use Rattle.crq_sim.specs.Models.{IsObject};
ghost use Rattle.crq_sim.specs.Reactions.{behaviour_at, reaction_of, IsWordOf};

use crate::tests::answer;
use crate::tests::models::{MEETING_TEXT, PAIR_TEXT, models};
use crossbeam_utils::atomic::AtomicCell;
use crq_base::Event;
use crq_host::{Gate, Phase};
use crq_queue::CalendarMaker;
use crq_sim::{Model, ObjectState, Sends, react};
use std::sync::Wait;
use std::test::Fail;

/// How often a worker looks for the other one before it gives up.
const TURNS: u32 = 200_000_000;

/// A point that each of two workers passes only once the other one has reached it.
#[derive(Drop)]
struct Meeting {
    first: AtomicCell<bool>,
    second: AtomicCell<bool>,
    /// Whether one of them gave up.
    missed: AtomicCell<bool>,
}

impl Meeting {
    fn new() -> Meeting {
        Meeting {
            first: AtomicCell::new(false),
            second: AtomicCell::new(false),
            missed: AtomicCell::new(false),
        }
    }

    /// Reaches it, and looks for the other worker.
    fn reach(&self, worker: u32) {
        let (own, other) = match worker {
            0 => (&self.first, &self.second),
            _ => (&self.second, &self.first),
        };
        own.store(true);
        for _turn in 0..TURNS {
            if other.load() {
                return;
            }
        }
        self.missed.store(true);
    }

    /// Whether both workers reached it and none gave up.
    fn was_kept(&self) -> bool {
        self.first.load() && self.second.load() && !self.missed.load()
    }
}

/// The workers meet in each phase of window 1.
#[derive(Drop)]
struct PhaseGate {
    drain: Meeting,
    run: Meeting,
    put: Meeting,
}

impl Gate for PhaseGate {
    fn pass<R: Wait>(&self, _rt: &R, worker: u32, window: u32, phase: Phase) {
        if window == 1 {
            match phase {
                Phase::Drain => self.drain.reach(worker),
                Phase::Run => self.run.reach(worker),
                Phase::Help => {}
                Phase::Put => self.put.reach(worker),
            }
        }
    }

    fn react(
        &self,
        _worker: u32,
        model: &Model,
        object: u32,
        state: &mut ObjectState,
        event: &Event,
    ) -> Sends {
        react(model, object, state, event)
    }
}

#[test]
fn workers_of_a_phase_meet(rt: HostRuntime) -> Result<(), Fail> {
    let alloc = rt.alloc();
    let gate = PhaseGate {
        drain: Meeting::new(),
        run: Meeting::new(),
        put: Meeting::new(),
    };
    let mut maker = CalendarMaker::new(alloc);
    let got = answer(
        &rt,
        alloc,
        "run pair 2 16 100",
        &mut models(alloc)?,
        &mut maker,
        &gate,
    )?;
    assert_eq!(rt; got.0, 0);
    assert_eq!(rt; got.1.as_slice(), PAIR_TEXT.as_bytes());
    assert!(rt; gate.drain.was_kept());
    assert!(rt; gate.run.was_kept());
    assert!(rt; gate.put.was_kept());
    Ok(())
}

/// The workers meet in their first events, and all events are counted.
#[derive(Drop)]
struct EventGate {
    start: Meeting,
    first: AtomicCell<u32>,
    second: AtomicCell<u32>,
}

impl Gate for EventGate {
    fn pass<R: Wait>(&self, _rt: &R, _worker: u32, _window: u32, _phase: Phase) {}

    fn react(
        &self,
        worker: u32,
        model: &Model,
        object: u32,
        state: &mut ObjectState,
        event: &Event,
    ) -> Sends {
        let count = match worker {
            0 => self.first.fetch_add(1),
            _ => self.second.fetch_add(1),
        };
        if count == 0 {
            self.start.reach(worker);
        }
        react(model, object, state, event)
    }
}

#[test]
fn workers_meet_in_their_events(rt: HostRuntime) -> Result<(), Fail> {
    let alloc = rt.alloc();
    let gate = EventGate {
        start: Meeting::new(),
        first: AtomicCell::new(0),
        second: AtomicCell::new(0),
    };
    let mut maker = CalendarMaker::new(alloc);
    let got = answer(
        &rt,
        alloc,
        "run meeting 2 16 100",
        &mut models(alloc)?,
        &mut maker,
        &gate,
    )?;
    assert_eq!(rt; got.0, 0);
    assert_eq!(rt; got.1.as_slice(), MEETING_TEXT.as_bytes());
    assert!(rt; gate.start.was_kept());
    assert_eq!(rt; (gate.first.load(), gate.second.load()), (3, 1));
    Ok(())
}
