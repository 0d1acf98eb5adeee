//! The text of a run over a set of events, or why there is none.

ghost use Rattle.std.specs.Prelude.{◌≡◌, ℕ, ◌≤◌, IfOk, IfErr, List};
ghost use Rattle.crq_top.specs.Commands.{asked_of, call_of, IsInRange};
ghost use Rattle.crq_top.specs.Meanings.{IsTextOf, IsCause};
ghost use Rattle.crq_top.specs.Runs.{AreLimits, LeavesText, LeavesNone, caps_of, ending_after};
ghost use Rattle.crq_top.specs.Sessions.{resources};

use crate::command::{Call, Command};
use crate::ending::Ending;
use crate::texts::model_of;
use crq_host::{DriveEnd, Gate, drive};
use crq_io::Files;
use crq_printer::trace_text;
use crq_set::SetMaker;
use crq_sim::{Memory, Model};
use std::alloc::Global;
use std::sync::Wait;
use std::thread::Threads;

/// What a run over a set has to work with.
#[derive(Clone, Copy)]
pub(crate) struct Limits {
    /// How many workers.
    pub workers: u32,
    /// How many rows each of them has.
    pub rows: u32,
    /// How many events the run may have.
    pub events: u32,
}

/// The ending of a drive that has no outcome.
fn ending_after(end: DriveEnd) -> Ending
    ensures { result ≡ ending_after end }
{
    match end {
        DriveEnd::Memory => Ending::Memory,
        DriveEnd::Events(window) => Ending::Events(window),
        DriveEnd::Rows(window, pending) => Ending::Rows(window, pending),
    }
}

/// Drives the model over a set of the maker, and makes the text of its traces. The set is closed in any case.
fn driven_text<M: SetMaker, G: Gate, R: Threads + Wait + Sync>(
    rt: &R,
    alloc: Global,
    model: &Model,
    limits: Limits,
    maker: &mut M,
    gate: &G,
) -> Result<Vec<u8>, Ending>
    requires { AreLimits M.MOST limits }
    ensures ok { IfOk result (λ t. LeavesText model.now (caps_of limits) (M.closed maker.old) (M.closed maker.new) t.items) }
    ensures err { IfErr result (λ e. LeavesNone model.now (caps_of limits) (M.closed maker.old) (M.closed maker.new) e) }
    ensures room { M.room maker.new ≡ M.room maker.old }
{
    let Limits {
        workers,
        rows,
        events,
    } = limits;
    match drive(rt, alloc, model, events, workers, rows, maker, gate) {
        Err(end) => Err(ending_after(end)),
        Ok(outcome) => match trace_text(rt, alloc, &outcome.traces) {
            Ok(text) => Ok(text),
            Err(Memory) => Err(Ending::Memory),
        },
    }
}

/// The text of the command `run`, or why it has none: reads the model, and drives it.
pub(crate) fn run_text<F: Files, M: SetMaker, G: Gate, R: Threads + Wait + Sync>(
    rt: &R,
    alloc: Global,
    command: &Command,
    files: &mut F,
    maker: &mut M,
    gate: &G,
) -> Result<Vec<u8>, Ending>
    requires call { call_of (asked_of command.now) ≡ Call.Run }
    requires in_range { IsInRange M.MOST (asked_of command.now) }
    ensures ok { IfOk result (λ t. IsTextOf (resources F.found F.faults files.old files.new (M.closed maker.old) (M.closed maker.new)) (asked_of command.now) t.items) }
    ensures err { IfErr result (λ e. IsCause (resources F.found F.faults files.old files.new (M.closed maker.old) (M.closed maker.new)) (asked_of command.now) e) }
    ensures kept { (other : List ℕ) → F.found files.new other ≡ F.found files.old other }
    ensures later { F.faults files.old ≤ F.faults files.new }
    ensures room { M.room maker.new ≡ M.room maker.old }
{
    let Command::Run {
        model,
        workers,
        rows,
        events,
    } = *command
    else {
        unreachable!()
    };
    let limits = Limits {
        workers,
        rows,
        events,
    };
    match model_of(alloc, files, model, command) {
        Ok(model) => driven_text(rt, alloc, &model, limits, maker, gate),
        Err(ending) => Err(ending),
    }
}
