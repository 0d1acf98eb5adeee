//! Worked examples of a calendar, by one caller.
ghost use Rattle.std.specs.Prelude.{◌≡◌, ◌≤◌, ◌^◌, length, IfOk};
ghost use Rattle.crq_base.specs.Sizes.{AreRows};
ghost use Rattle.crq_hold.specs.Workers.{IsWorker};
ghost use Rattle.crq_hold.specs.Teams.{AreFree};

mod buckets;
mod churning;
mod epochs;
mod one_caller;
mod owing;
mod phases;
mod scarcity;
mod stopping;
mod ways;

use crate::team::team;
use crate::words::job_of;
use crate::worker::Worker;
use crq_base::{Event, First, Holder, PutEnd, Refusal, Route, TakeEnd};
use crq_queue::{Calendar, Memory, Passes};
use crq_rows::Owes;
use std::alloc::{AllocError, Global};
use std::test::Fail;

/// A limit above the time of each event.
pub(crate) const LIMIT: u64 = 1 << 32;

/// A calendar of one caller, the free place of its pass, and its worker.
fn alone(alloc: Global, rows: u32, guard: u64) -> Result<(Calendar, Passes, Worker), Memory>
    requires rows { AreRows rows }
    requires guard { guard ≤ 2 ^ 62 }
    ensures worker { IfOk result (λ made. IsWorker made.0.table made.2) }
    ensures one { IfOk result (λ made. (made.0.table.start.layout.workers ≡ 1) × (made.2.pass.number ≡ 0)) }
    ensures free { IfOk result (λ made. (length made.1.places.items ≡ 1) × AreFree 1 made.1.places.items) }
{
    let first = First {
        epoch: 0,
        generation: 1,
        guard,
    };
    let (queue, places, mut workers) = team(alloc, 1, rows, first)?;
    let Some(worker) = workers.pop() else {
        unreachable!()
    };
    Ok((queue, places, worker))
}

/// The answer of a take that took this event of source 0, where current was found at the event's tick.
fn taken(time: u32, seq: u64) -> Result<TakeEnd, Refusal> {
    let event = Event {
        time,
        src: 0,
        seq,
        dst: 1,
        load: 0,
    };
    Ok(TakeEnd::Taken(event, Route::Bucket(time)))
}

#[test]
fn no_row_gets_ripe(rt: HostRuntime) -> Result<(), Fail> {
    let (queue, _places, mut worker) = alone(rt.alloc(), 4, 1 << 62)?;
    for seq in 0..6u64 {
        assert_eq!(rt; worker.put(&queue, 0, 0, 64), Ok(PutEnd::Settled));
        assert_eq!(rt; worker.take(&queue, LIMIT, 64), taken(0, seq));
    }
    let refused = Err(Refusal::Held(Holder::Last));
    assert_eq!(rt; worker.put(&queue, 0, 0, 64), refused);
    Ok(())
}

#[test]
fn no_row_is_left(rt: HostRuntime) -> Result<(), Fail> {
    let (queue, _places, mut worker) = alone(rt.alloc(), 4, 0)?;
    for time in 0..6u32 {
        assert_eq!(rt; worker.put(&queue, time, 0, 64), Ok(PutEnd::Settled));
    }
    assert_eq!(rt; worker.put(&queue, 6, 0, 64), Err(Refusal::Rows));
    Ok(())
}

#[test]
fn cuts_are_owed(rt: HostRuntime) -> Result<(), Fail> {
    let (queue, mut places, mut worker) = alone(rt.alloc(), 16, 0)?;
    assert_eq!(rt; worker.put(&queue, 5, 0, 64), Ok(PutEnd::Settled));
    // Five raises, and the mark.
    assert_eq!(rt; worker.take(&queue, LIMIT, 6), taken(5, 0));
    assert_eq!(rt; worker.pass.owes(), Owes::Cut);
    if worker.pass.debts.settle.is_some() {
        return Err(Fail::from(Memory));
    }
    places.lower(worker.pass);
    let whole = queue.gather(places);
    let mut places = queue.deal(whole, 1);
    let mut pass = places.lift(0);
    assert_eq!(rt; pass.owes(), Owes::Cut);
    assert_eq!(rt; queue.try_settle(&mut pass, 64), Ok(()));
    assert_eq!(rt; pass.owes(), Owes::Nothing);
    assert_eq!(rt; queue.try_settle(&mut pass, 64), Ok(()));
    assert_eq!(rt; pass.owes(), Owes::Nothing);
    Ok(())
}

/// The words of a line, which one space parts.
fn words_of(alloc: Global, line: &str) -> Result<Vec<String>, AllocError> {
    let mut words = Vec::new(alloc);
    for word in line.split(' ') {
        words.push(String::from_str(alloc, word)?)?;
    }
    Ok(words)
}

/// Lines of words, and whether they are a job.
const LINES: [(&str, bool); 16] = [
    ("2 16 1000 7 4", true),
    ("1 1 0 18446744073709551615 1", true),
    ("16 256 18446744073709551615 0 1024", true),
    ("2 16 1000 7", false),
    ("2 16 1000 7 4 4", false),
    ("0 16 1000 7 4", false),
    ("17 16 1000 7 4", false),
    ("2 0 1000 7 4", false),
    ("2 257 1000 7 4", false),
    ("02 16 1000 7 4", false),
    ("+2 16 1000 7 4", false),
    ("2 16 1000 -7 4", false),
    ("2 16 1000 18446744073709551616 4", false),
    ("2 16  7 4", false),
    ("2 16 1000 7 0", false),
    ("2 16 1000 7 1025", false),
];

#[test]
fn reads_words(rt: HostRuntime) -> Result<(), Fail> {
    for (line, reads) in LINES {
        let words = words_of(rt.alloc(), line)?;
        assert_eq!(rt; job_of(words.as_slice()).is_some(), reads, "{line}");
    }
    Ok(())
}
