//! Rounds of puts, a gather, takes and a gather: what the callers did is one legal history.
ghost use Rattle.std.specs.Prelude.{◌≡◌, ◌<◌, ◌≤◌, ℕ, length, IfOk, Some, slice_get};
ghost use Rattle.crq_base.specs.Sizes.{IsTeam};
ghost use Rattle.crq_hold.specs.declared.worker.Worker.{Worker};
ghost use Rattle.crq_hold.specs.Workers.{IsWorker, IsSettled, WorksOn};
ghost use Rattle.crq_hold.specs.Teams.{AreFree, AreSettled, AreWorkers};

use crate::team::{lift_all, lower_all, team};
use crate::tests::LIMIT;
use crate::tests::ways::{Way, put_once, settle_surely, take_once};
use crate::worker::Worker;
use crq_base::{Entry, Event, First, MOST_WORKERS, TakeEnd, judge};
use crq_queue::{Calendar, Memory, Passes};
use crq_sim::draw;
use std::alloc::{AllocError, Global};
use std::process::Abort;
use std::sync::{Mutex, Wait};
use std::test::Fail;
use std::thread::{self, Threads};

/// How often a refused call is tried again.
const TRIES: u32 = 1_000_000;
/// How many events are put in a round.
const EVENTS: u32 = 48;
/// The ticks on which most events of a round fall.
const SPAN: u64 = 128;
/// How much later one of sixteen falls.
const FAR: u32 = 1 << 24;

/// Where the times of a round's events begin, and the limit below which its callers take.
#[derive(Clone, Copy)]
struct Round {
    /// The first tick on which an event can fall.
    start: u32,
    /// The limit of its takes.
    limit: u64,
}

/// The rounds. Each but the last leaves events, and the next one puts at earlier times than current's.
const ROUNDS: [Round; 4] = [
    Round {
        start: 600,
        limit: 664,
    },
    Round {
        start: 300,
        limit: 400,
    },
    Round {
        start: 0,
        limit: 700,
    },
    Round {
        start: 40,
        limit: LIMIT,
    },
];

/// The event that a source puts in a round under this number.
fn planned(round: Round, src: u32, seq: u64) -> Event
    requires { round.start < 1024 }
{
    let (value, _) = draw(seq.wrapping_mul(16).wrapping_add(u64::from(src)));
    let near = round.start + (value % SPAN) as u32;
    let is_far = value / SPAN % 16 == 0;
    let time = if is_far { FAR + near } else { near };
    Event {
        time,
        src,
        seq,
        dst: 1,
        load: 0,
    }
}

/// Puts the worker's next event.
fn put_next<R: Wait>(rt: &R, queue: &Calendar, worker: &mut Worker, round: Round, way: Way)
    requires worker { IsWorker queue.now.table worker.old }
    requires start { round.start < 1024 }
    ensures { WorksOn queue.now.table worker.old worker.new }
{
    let event = planned(round, worker.pass.number, worker.next);
    for _ in 0..TRIES {
        if put_once(rt, queue, worker, &event, way) {
            return;
        }
        thread::yield_now();
    }
}

/// Puts so many events by one worker, and settles the last one.
fn put_some<R: Wait>(
    rt: &R,
    queue: &Calendar,
    worker: &mut Worker,
    each: u32,
    round: Round,
    way: Way,
)
    requires worker { IsWorker queue.now.table worker.old }
    requires start { round.start < 1024 }
    ensures on { WorksOn queue.now.table worker.old worker.new }
    ensures settled { IsSettled worker.new }
{
    for _ in 0..each {
        put_next(rt, queue, worker, round, way);
    }
    settle_surely(rt, queue, worker);
}

/// Has each worker put so many events, all at once.
fn put_all<R: Threads + Wait + Sync>(
    rt: &R,
    queue: &Calendar,
    workers: &mut [Worker],
    each: u32,
    round: Round,
    way: Way,
)
    requires workers { AreWorkers queue.now.table workers.old }
    requires start { round.start < 1024 }
    ensures workers { AreWorkers queue.now.table workers.new }
    ensures settled { AreSettled workers.new }
{
    thread::for_each_mut(
        rt,
        workers,
        MOST_WORKERS as usize,
        &|_, worker: &mut Worker|
            requires { IsWorker queue.now.table worker.now × (round.start < 1024) }
            ensures { WorksOn queue.entry.now.table worker.entry.now worker.exit.now × IsSettled worker.exit.now }
        { put_some(rt, queue, worker, each, round, way) },
    );
}

/// What one worker took in a round.
#[derive(Drop)]
struct Record {
    /// Its number.
    number: u32,
    /// The events that it took, in order.
    taken: Vec<Event>,
    /// Whether it then found nothing.
    missed: bool,
}

/// Takes below the limit until the worker finds nothing, and settles the event that it owes.
fn take_some<R: Wait>(
    rt: &R,
    alloc: Global,
    queue: &Calendar,
    worker: &mut Worker,
    limit: u64,
    way: Way,
) -> Record
    requires { IsWorker queue.now.table worker.old }
    ensures on { WorksOn queue.now.table worker.old worker.new }
    ensures settled { IsSettled worker.new }
{
    let mut taken = Vec::new(alloc);
    let mut missed = false;
    for _ in 0..TRIES {
        match take_once(rt, queue, worker, limit, way) {
            Some(TakeEnd::Taken(event, _)) => {
                if taken.push(event).is_err() {
                    break;
                }
            }
            Some(TakeEnd::Missed) => {
                missed = true;
                break;
            }
            None => thread::yield_now(),
        }
    }
    settle_surely(rt, queue, worker);
    Record {
        number: worker.pass.number,
        taken,
        missed,
    }
}

/// Has each worker take below the limit, all at once, and notes what each took.
fn take_all<R: Threads + Wait + Sync>(
    rt: &R,
    alloc: Global,
    queue: &Calendar,
    workers: &mut [Worker],
    limit: u64,
    way: Way,
    records: &Mutex<Vec<Record>>,
)
    requires { AreWorkers queue.now.table workers.old }
    ensures workers { AreWorkers queue.now.table workers.new }
    ensures settled { AreSettled workers.new }
{
    thread::for_each_mut(
        rt,
        workers,
        MOST_WORKERS as usize,
        &|_, worker: &mut Worker|
            requires { IsWorker queue.now.table worker.now }
            ensures { WorksOn queue.entry.now.table worker.entry.now worker.exit.now × IsSettled worker.exit.now }
        {
            let record = take_some(rt, alloc, queue, worker, limit, way);
            let _ = records.lock(rt).push(record);
        },
    );
}

/// A number that is neither below the first nor below the second.
fn later(first: u64, second: u64) -> u64
    ensures { (first ≤ result) × (second ≤ result) }
{
    if first < second { second } else { first }
}

/// A number that none of these workers has used.
fn unused(workers: &[Worker]) -> u64
    ensures { (k : ℕ) (w : Worker) → slice_get workers.now k ≡ Some w → w.next ≤ result }
{
    let mut next = 0;
    for worker in workers {
        next = later(worker.next, next);
    }
    next
}

/// Makes the passes of all workers one, and deals them again. Each worker goes on with numbers that none has used.
fn regroup(
    alloc: Global,
    queue: &Calendar,
    places: Passes,
    workers: Vec<Worker>,
) -> Result<(Passes, Vec<Worker>), AllocError>
    requires workers { AreWorkers queue.now.table workers.items }
    requires settled { AreSettled workers.items }
    requires free { (length places.places.items ≡ length workers.items) × AreFree (length workers.items) places.places.items }
    ensures workers { IfOk result (λ made. AreWorkers queue.now.table made.1.items) }
    ensures free { IfOk result (λ made. (length made.0.places.items ≡ length made.1.items) × AreFree (length made.1.items) made.0.places.items) }
{
    let callers = queue.table.start.layout.workers;
    let next = unused(workers.as_slice());
    let mut places = places;
    lower_all(&mut places, workers);
    let whole = queue.gather(places);
    let mut places = queue.deal(whole, 1);
    let workers = lift_all(alloc, callers, &mut places, next)?;
    Ok((places, workers))
}

/// Plays a round: all puts, a gather, all takes, and a gather.
fn play<R: Threads + Wait + Sync>(
    rt: &R,
    alloc: Global,
    queue: &Calendar,
    made: (Passes, Vec<Worker>),
    round: Round,
    each: u32,
    way: Way,
    records: &Mutex<Vec<Record>>,
) -> Result<(Passes, Vec<Worker>), AllocError>
    requires workers { AreWorkers queue.now.table made.1.items }
    requires free { (length made.0.places.items ≡ length made.1.items) × AreFree (length made.1.items) made.0.places.items }
    requires start { round.start < 1024 }
    ensures workers { IfOk result (λ made. AreWorkers queue.now.table made.1.items) }
    ensures free { IfOk result (λ made. (length made.0.places.items ≡ length made.1.items) × AreFree (length made.1.items) made.0.places.items) }
{
    let (places, mut workers) = made;
    put_all(rt, queue, workers.as_mut_slice(), each, round, way);
    let (places, mut workers) = regroup(alloc, queue, places, workers)?;
    let workers_now = workers.as_mut_slice();
    take_all(rt, alloc, queue, workers_now, round.limit, way, records);
    regroup(alloc, queue, places, workers)
}

/// Adds the entries of all puts of a round, one caller after another.
fn push_puts(
    history: &mut Vec<Entry>,
    round: Round,
    callers: u32,
    first: u64,
    each: u32,
) -> Result<(), AllocError>
    requires { round.start < 1024 }
{
    for src in 0..callers {
        for more in 0..each {
            let event = planned(round, src, first.wrapping_add(u64::from(more)));
            history.push(Entry::Begin(src))?;
            history.push(Entry::Put(src, event))?;
            history.push(Entry::Settled(src, event))?;
        }
    }
    Ok(())
}

/// Adds the entries of all takes of a round, by rising keys.
fn push_takes(
    alloc: Global,
    history: &mut Vec<Entry>,
    records: &[Record],
) -> Result<(), AllocError> {
    let mut takes = Vec::new(alloc);
    for record in records {
        for event in record.taken.as_slice() {
            takes.push((*event, record.number))?;
        }
    }
    takes.as_mut_slice().sort_unstable();
    for (event, number) in takes {
        history.push(Entry::Begin(number))?;
        history.push(Entry::Take(number, event))?;
    }
    Ok(())
}

/// Adds the entries of all takes of a round that found nothing.
fn push_misses(history: &mut Vec<Entry>, records: &[Record], limit: u64) -> Result<(), AllocError> {
    for record in records {
        history.push(Entry::Begin(record.number))?;
        history.push(Entry::Miss(record.number, limit))?;
    }
    Ok(())
}

/// Checks what each caller took in a round. It answers how many events all of them took.
fn rises<R: Abort>(rt: &R, records: &[Record], callers: u32) -> usize {
    let mut count = 0usize;
    assert_eq!(rt; records.len(), callers as usize, "{callers} callers");
    for record in records {
        assert!(rt; record.missed, "{callers} callers: one gave up");
        let rises = record.taken.as_slice().is_sorted_by(|a, b| a.is_before(b));
        assert!(rt; rises, "{callers} callers: the keys of one don't rise");
        count = count.wrapping_add(record.taken.len());
    }
    count
}

/// Checks what so many callers do in all rounds.
fn is_legal<R: Threads + Wait + Abort + Sync>(
    rt: &R,
    alloc: Global,
    callers: u32,
    way: Way,
) -> Result<(), Fail>
    requires { IsTeam callers }
{
    let each = EVENTS / callers;
    let (queue, places, workers) = team(alloc, callers, EVENTS * 4, First::of_program())?;
    let mut made = (places, workers);
    let mut history = Vec::new(alloc);
    let mut count = 0usize;
    let mut first = 0u64;
    for round in ROUNDS {
        let records = Mutex::new(Vec::new(alloc));
        made = play(rt, alloc, &queue, made, round, each, way, &records)?;
        let records = records.into_inner();
        count = count.wrapping_add(rises(rt, records.as_slice(), callers));
        push_puts(&mut history, round, callers, first, each)?;
        push_takes(alloc, &mut history, records.as_slice())?;
        push_misses(&mut history, records.as_slice(), round.limit)?;
        first = first.wrapping_add(u64::from(each));
    }
    let put = (each * callers) as usize * ROUNDS.len();
    assert_eq!(rt; count, put, "{callers} callers: how many came out");
    assert_eq!(rt; judge(history.as_slice()), Ok(()), "{callers} callers");
    Ok(())
}

#[test]
fn makes_a_legal_history(rt: HostRuntime) -> Result<(), Fail> {
    is_legal(&rt, rt.alloc(), 2, Way::Tries)?;
    is_legal(&rt, rt.alloc(), 4, Way::Tries)?;
    is_legal(&rt, rt.alloc(), MOST_WORKERS, Way::Tries)?;
    Ok(())
}

#[test]
fn makes_a_legal_history_by_waiting(rt: HostRuntime) -> Result<(), Fail> {
    is_legal(&rt, rt.alloc(), 2, Way::Waits)?;
    is_legal(&rt, rt.alloc(), 4, Way::Waits)?;
    is_legal(&rt, rt.alloc(), MOST_WORKERS, Way::Waits)?;
    Ok(())
}
