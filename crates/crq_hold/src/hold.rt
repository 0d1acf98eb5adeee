//! The hold model: each worker takes the least event and puts it back later.
ghost use Rattle.std.specs.Prelude.{◌≡◌, ◌≤◌, ◌<◌, ◌+◌, ◌-◌, ◌*◌, ◌/◌, ◌%◌, ◌^◌, length, IfOk};
ghost use Rattle.crq_base.specs.Sizes.{IsTeam};
ghost use Rattle.crq_queue.specs.Wholes.{last_history};
ghost use Rattle.crq_hold.specs.Workers.{IsWorker, IsSettled, PutAndTook};
ghost use Rattle.crq_hold.specs.Teams.{AreWorkers, AreSettled, AllHeld, AllWent, HasHeld, total_holds};

use crate::team::{lower_all, team};
use crate::worker::Worker;
use crq_base::{Event, First, MOST_WORKERS, TakeEnd};
use crq_queue::{Calendar, Closed, Memory};
use crq_sim::draw;
use std::alloc::Global;
use std::sync::Wait;
use std::thread::{self, Threads};

/// The rows of each worker.
const ROWS: u32 = 1024;
/// A limit above the time of each event.
const LIMIT: u64 = 1 << 32;

/// What the program is to do.
#[derive(Clone, Copy)]
pub struct Job {
    /// The number of threads, 1 to `MOST_WORKERS` of `crq_base`.
    pub threads: u32,
    /// The number of events that are pending, 1 to 256.
    pub pending: u32,
    /// The number of holds of all threads together.
    pub holds: u64,
    /// Where the draws begin.
    pub seed: u64,
    /// How many ticks a new event can fall on, and how many ticks later an event can be put back, at least 1.
    pub span: u32,
}

/// What came of it.
#[derive(Drop)]
pub struct Held {
    /// The number of holds made.
    pub holds: u64,
    /// The loads of all events that are pending in the end, added up modulo 2^64.
    pub sum: u64,
    /// The history of all calls, for proofs.
    pub closed: Closed,
}

/// Puts an event. It waits while no row is to be had, too, since the others go on to take events.
fn put_surely<R: Wait>(rt: &R, queue: &Calendar, worker: &mut Worker, time: u32, load: u64)
    requires worker { IsWorker queue.now.table worker.old }
    requires settled { IsSettled worker.old }
    ensures put { PutAndTook queue.now.table worker.old worker.new 1 0 }
    ensures settled { IsSettled worker.new }
{
    for _ in rt.forever() {
        if worker.put_waiting(rt, queue, time, load).is_ok() {
            return;
        }
        thread::yield_now();
    }
    unreachable!()
}

/// Takes the least event. It waits while the others have them all.
fn take_surely<R: Wait>(rt: &R, queue: &Calendar, worker: &mut Worker) -> Event
    requires { IsWorker queue.now.table worker.old }
    ensures taken { PutAndTook queue.now.table worker.old worker.new 0 1 }
    ensures settled { IsSettled worker.new }
{
    for _ in rt.forever() {
        if let Ok(TakeEnd::Taken(event, _)) = worker.take_waiting(rt, queue, LIMIT) {
            return event;
        }
        thread::yield_now();
    }
    unreachable!()
}

/// A time that falls among so many ticks.
fn spread(value: u64, span: u32) -> u32
    requires { 0 < span }
    ensures { result < span }
{
    (value % u64::from(span)) as u32
}

/// Takes the least event and puts its load back, 1 to `span` ticks later. It answers where the draws go on.
fn hold<R: Wait>(rt: &R, queue: &Calendar, worker: &mut Worker, state: u64, span: u32) -> u64
    requires worker { IsWorker queue.now.table worker.old }
    requires span { 0 < span }
    ensures held { PutAndTook queue.now.table worker.old worker.new 1 1 }
    ensures settled { IsSettled worker.new }
{
    let least = take_surely(rt, queue, worker);
    let (value, next) = draw(state);
    let time = least.time.saturating_add(1 + spread(value, span));
    put_surely(rt, queue, worker, time, least.load);
    next
}

/// Makes the share of the job's holds that is due to this worker, and counts them by the events that it put.
fn hold_often<R: Wait>(rt: &R, queue: &Calendar, worker: &mut Worker, holds: u64, job: &Job)
    requires worker { IsWorker queue.now.table worker.old }
    requires settled { IsSettled worker.old }
    requires span { 0 < job.now.span }
    ensures made { PutAndTook queue.now.table worker.old worker.new holds holds }
    ensures counts { worker.new.holds ≡ holds }
    ensures settled { IsSettled worker.new }
{
    let mut state = job.seed.wrapping_add(1 + u64::from(worker.pass.number));
    let before = worker.next;
    for _ in 0..holds {
        state = hold(rt, queue, worker, state, job.span);
    }
    worker.holds = worker.next - before;
}

/// Makes so many holds by each worker, all workers at once, each on a thread of its own.
fn hold_all<R: Threads + Wait + Sync>(
    rt: &R,
    queue: &Calendar,
    workers: &mut [Worker],
    holds: u64,
    job: &Job,
)
    requires workers { AreWorkers queue.now.table workers.old }
    requires settled { AreSettled workers.old }
    requires span { 0 < job.now.span }
    ensures workers { AreWorkers queue.now.table workers.new }
    ensures held { AllHeld queue.now.table workers.old workers.new holds }
    ensures settled { AreSettled workers.new }
{
    thread::for_each_mut(
        rt,
        workers,
        MOST_WORKERS as usize,
        &|_, worker: &mut Worker|
            requires { IsWorker queue.now.table worker.now × IsSettled worker.now × (0 < job.now.span) }
            ensures { PutAndTook queue.entry.now.table worker.entry.now worker.exit.now holds holds × (worker.exit.now.holds ≡ holds) × IsSettled worker.exit.now }
        { hold_often(rt, queue, worker, holds, job) },
    );
}

/// Puts the first events, by one worker after the other in turn.
fn fill<R: Wait>(rt: &R, queue: &Calendar, workers: &mut [Worker], job: &Job)
    requires workers { AreWorkers queue.now.table workers.old }
    requires settled { AreSettled workers.old }
    requires span { 0 < job.now.span }
    ensures went { AllWent queue.now.table workers.old workers.new job.now.pending 0 }
    ensures settled { AreSettled workers.new }
{
    let mut state = job.seed;
    for i in 0..job.pending as usize {
        let (time, next) = draw(state);
        let (load, next) = draw(next);
        state = next;
        let turn = i % workers.len();
        put_surely(rt, queue, &mut workers[turn], spread(time, job.span), load);
    }
}

/// Takes so many events. It answers the sum of their loads modulo 2^64.
fn drain<R: Wait>(rt: &R, queue: &Calendar, worker: &mut Worker, pending: u32) -> u64
    requires worker { IsWorker queue.now.table worker.old }
    requires settled { IsSettled worker.old }
    ensures taken { PutAndTook queue.now.table worker.old worker.new 0 pending }
    ensures settled { IsSettled worker.new }
{
    let mut sum = 0u64;
    for _ in 0..pending {
        let event = take_surely(rt, queue, worker);
        sum = sum.wrapping_add(event.load);
    }
    sum
}

/// The number of holds that all workers made.
fn total(workers: &[Worker]) -> u64
    requires { total_holds workers.now < 2 ^ 64 }
    ensures { result ≡ total_holds workers.now }
{
    let mut holds = 0;
    for worker in workers {
        holds += worker.holds;
    }
    holds
}

/// Puts the events of a job, makes its holds, and takes all events again. It answers the number of holds and the sum of the
/// loads of the events that were pending in the end.
fn work<R: Threads + Wait + Sync>(
    rt: &R,
    queue: &Calendar,
    workers: &mut [Worker],
    job: &Job,
) -> (u64, u64)
    requires workers { AreWorkers queue.now.table workers.old }
    requires settled { AreSettled workers.old }
    requires threads { (1 ≤ job.now.threads) × (job.now.threads ≡ length workers.old) }
    requires span { 0 < job.now.span }
    ensures went { AllWent queue.now.table workers.old workers.new (job.now.pending + result.0) (job.now.pending + result.0) }
    ensures due { result.0 ≡ job.now.holds - job.now.holds % job.now.threads }
    ensures settled { AreSettled workers.new }
{
    fill(rt, queue, workers, job);
    hold_all(rt, queue, workers, job.holds / u64::from(job.threads), job);
    let holds = total(workers);
    let sum = drain(rt, queue, &mut workers[0], job.pending);
    (holds, sum)
}

/// Makes the holds of a job. The number that it answers is that of the events that its workers put back. The one history of
/// all calls, which is legal, has as many puts and takes as there are events and holds.
pub fn run<R: Threads + Wait + Sync>(rt: &R, alloc: Global, job: &Job) -> Result<Held, Memory>
    requires threads { IsTeam job.now.threads }
    requires span { 0 < job.now.span }
    ensures due { IfOk result (λ held. held.holds ≡ job.now.holds - job.now.holds % job.now.threads) }
    ensures history { IfOk result (λ held. HasHeld (last_history held.closed) job.now.pending held.holds) }
{
    let first = First::of_program();
    let (queue, mut places, mut workers) = team(alloc, job.threads, ROWS, first)?;
    let (holds, sum) = work(rt, &queue, workers.as_mut_slice(), job);
    lower_all(&mut places, workers);
    let whole = queue.gather(places);
    let closed = queue.close(whole);
    Ok(Held { holds, sum, closed })
}
