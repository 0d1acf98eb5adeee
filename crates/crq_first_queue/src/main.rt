//! The program `crq_first_queue`: two callers put events into one queue, and one of them takes them in order.
#![tactic(auto)]

ghost use Rattle.std.specs.Prelude.{◌≡◌, [], IfOk};
ghost use Rattle.crq_rows.specs.Passes.{caller};
ghost use Rattle.crq_queue.specs.Wholes.{MayGather, last_history};
ghost use Rattle.crq_first_queue.specs.Deeds.{IsNew, Did, EndsEmpty, HasPlayed, named, if_put};

use crq_base::{Event, First, TakeEnd};
use crq_queue::{Calendar, Closed, Pass};
use std::alloc::Global;
use std::process::ExitCode;
use std::sync::Wait;

/// The rows of each caller: an event that is pending is in a row.
const ROWS: u32 = 16;
/// Events before this time are taken.
const LIMIT: u64 = 100;

/// Why the program ends early.
#[derive(Drop)]
enum Trouble {
    /// There is no memory for the queue.
    Memory,
    /// The event can't be put: no row is free, since too many events are pending, or no epoch is left to settle it.
    Full,
    /// The output can't be written.
    Output,
}

/// An event for object 1. Its key, by which events are ordered, is its time, its source and its number.
fn event(src: u32, seq: u64, time: u32) -> Event
    ensures { result ≡ named src seq time }
{
    Event {
        time,
        src,
        seq,
        dst: 1,
        load: 0,
    }
}

/// Puts an event. It waits while other callers are in the way.
fn put(rt: &impl Wait, calendar: &Calendar, pass: &mut Pass, event: &Event) -> Result<(), Trouble>
    requires rests { MayGather calendar.now.table pass.old }
    requires new { IsNew calendar.now.table pass.old event.now }
    ensures { Did calendar.now.table pass.old pass.new (if_put result event.now) }
{
    match calendar.put(rt, pass, event) {
        Ok(()) => Ok(()),
        Err(_) => Err(Trouble::Full),
    }
}

/// Prints an event.
fn tell(rt: &impl Print, event: &Event) -> Result<(), Trouble> {
    match println!(rt; "time {}, source {}", event.time, event.src) {
        Ok(()) => Ok(()),
        Err(_) => Err(Trouble::Output),
    }
}

/// Takes events until there is none below the limit, and prints each.
fn print(rt: &(impl Print + Wait), calendar: &Calendar, pass: &mut Pass) -> Result<(), Trouble>
    requires { MayGather calendar.now.table pass.old }
    ensures did { Did calendar.now.table pass.old pass.new [] }
    ensures all { IfOk result (λ u. EndsEmpty pass.old.number 100 (caller calendar.now.table pass.new).own) }
{
    for _ in rt.forever() {
        match calendar.take(rt, pass, LIMIT) {
            Ok(TakeEnd::Taken(event, _)) => tell(rt, &event)?,
            Ok(TakeEnd::Missed) => return Ok(()),
            // A take that waits gives no error.
            Err(_) => unreachable!(),
        }
    }
    unreachable!()
}

/// Puts two events by each of two callers, and takes them in order. It answers the history of all calls, for proofs.
fn run(rt: &(impl Print + Wait), alloc: Global) -> Result<Closed, Trouble>
    ensures { IfOk result (λ closed. HasPlayed (last_history closed)) }
{
    let Ok((calendar, whole)) = Calendar::make(alloc, 2, ROWS, First::of_program()) else {
        return Err(Trouble::Memory);
    };
    // Each caller makes its calls with a pass of its own, which may go to another thread.
    let mut passes = calendar.deal(whole, 1);
    let mut first = passes.lift(0);
    let mut second = passes.lift(1);
    put(rt, &calendar, &mut first, &event(0, 0, 7))?;
    put(rt, &calendar, &mut first, &event(0, 1, 2))?;
    put(rt, &calendar, &mut second, &event(1, 0, 3))?;
    put(rt, &calendar, &mut second, &event(1, 1, 7))?;
    print(rt, &calendar, &mut first)?;
    // All passes are made one again. The history that they made together is legal.
    passes.lower(first);
    passes.lower(second);
    let whole = calendar.gather(passes);
    Ok(calendar.close(whole))
}

fn main(rt: HostRuntime) -> ExitCode {
    match run(&rt, rt.alloc()) {
        Ok(_) => ExitCode::from(0),
        Err(_) => ExitCode::from(1),
    }
}
