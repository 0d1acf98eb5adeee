//! Callers that put and take at once: what they put comes out, each event once.
ghost use Rattle.crq_base.specs.Sizes.{IsTeam};
ghost use Rattle.crq_hold.specs.Workers.{IsWorker, WorksOn};

use crate::team::team;
use crate::tests::LIMIT;
use crate::tests::ways::{Way, put_once, take_once};
use crate::worker::Worker;
use crq_base::{Event, First, MOST_WORKERS, TakeEnd};
use crq_queue::{Calendar, Memory};
use crq_sim::draw;
use std::alloc::{AllocError, Global};
use std::process::Abort;
use std::sync::Wait;
use std::test::Fail;
use std::thread::{self, Threads};

/// How often a refused call is tried again.
const TRIES: u32 = 1_000_000;
/// How many events a caller puts before it takes as many.
const BATCH: u32 = 8;

/// What came of one worker's calls.
#[derive(Drop)]
struct Record {
    /// How many events it put.
    puts: u64,
    /// The events that it took, in order.
    taken: Vec<Event>,
    /// Whether it came to its end.
    whole: bool,
}

/// The ticks on which most events fall.
const SPAN: u64 = 256;
/// How much later one of sixteen falls.
const FAR: u32 = 1 << 24;

/// The event that a source puts under this number: most fall on a few ticks, so that many lie behind current as it then is,
/// and some come much later, which only a search finds.
fn planned(src: u32, seq: u64) -> Event {
    let (value, _) = draw(seq.wrapping_mul(16).wrapping_add(u64::from(src)));
    let near = (value % SPAN) as u32;
    let is_far = value / SPAN % 16 == 0;
    let time = if is_far { FAR + near } else { near };
    Event {
        time,
        src,
        seq,
        dst: 1,
        load: 0,
    }
}

/// All events that so many callers put, each so many of them.
fn all_planned(alloc: Global, callers: u32, each: u64) -> Result<Vec<Event>, AllocError> {
    let mut events = Vec::new(alloc);
    for src in 0..callers {
        for seq in 0..each {
            events.push(planned(src, seq))?;
        }
    }
    Ok(events)
}

/// Puts the worker's next event, and says whether that was done.
fn put_next<R: Wait>(rt: &R, queue: &Calendar, worker: &mut Worker, way: Way) -> bool
    requires { IsWorker queue.now.table worker.old }
    ensures { WorksOn queue.now.table worker.old worker.new }
{
    let event = planned(worker.pass.number, worker.next);
    for _ in 0..TRIES {
        if put_once(rt, queue, worker, &event, way) {
            return true;
        }
        thread::yield_now();
    }
    false
}

/// Puts the worker's next events, and says whether all were put.
fn put_some<R: Wait>(rt: &R, queue: &Calendar, worker: &mut Worker, count: u32, way: Way) -> bool
    requires { IsWorker queue.now.table worker.old }
    ensures { WorksOn queue.now.table worker.old worker.new }
{
    for _ in 0..count {
        if !put_next(rt, queue, worker, way) {
            return false;
        }
    }
    true
}

/// Takes an event, where one comes in time.
fn take_next<R: Wait>(rt: &R, queue: &Calendar, worker: &mut Worker, way: Way) -> Option<Event>
    requires { IsWorker queue.now.table worker.old }
    ensures { WorksOn queue.now.table worker.old worker.new }
{
    for _ in 0..TRIES {
        if let Some(TakeEnd::Taken(event, _)) = take_once(rt, queue, worker, LIMIT, way) {
            return Some(event);
        }
        thread::yield_now();
    }
    None
}

/// Takes a batch of events, and says whether all were taken and noted.
fn take_some<R: Wait>(
    rt: &R,
    queue: &Calendar,
    worker: &mut Worker,
    taken: &mut Vec<Event>,
    way: Way,
) -> bool
    requires { IsWorker queue.now.table worker.old }
    ensures { WorksOn queue.now.table worker.old worker.new }
{
    for _ in 0..BATCH {
        let Some(event) = take_next(rt, queue, worker, way) else {
            return false;
        };
        if taken.push(event).is_err() {
            return false;
        }
    }
    true
}

/// Puts and takes so many batches of events.
fn churn<R: Wait>(
    rt: &R,
    alloc: Global,
    queue: &Calendar,
    mut worker: Worker,
    batches: u32,
    way: Way,
) -> Record
    requires { IsWorker queue.now.table worker }
{
    let mut taken = Vec::new(alloc);
    let mut whole = true;
    for _ in 0..batches {
        whole = put_some(rt, queue, &mut worker, BATCH, way)
            && take_some(rt, queue, &mut worker, &mut taken, way)
            && whole;
    }
    Record {
        puts: worker.next,
        taken,
        whole,
    }
}

/// Has so many callers put and take so many batches each, all at once.
fn churn_all<R: Threads + Wait + Sync>(
    rt: &R,
    alloc: Global,
    callers: u32,
    batches: u32,
    way: Way,
) -> Result<Vec<Record>, Memory>
    requires { IsTeam callers }
{
    let (queue, _places, workers) = team(alloc, callers, 64, First::of_program())?;
    let queue = &queue;
    let records = thread::map_vec(
        rt,
        workers,
        &|worker: Worker| -> Record
            requires { IsWorker queue.now.table worker }
        { churn(rt, alloc, queue, worker, batches, way) },
    )?;
    Ok(records)
}

/// Checks that what so many callers put comes out, each event once.
fn nothing_is_lost<R: Threads + Wait + Abort + Sync>(
    rt: &R,
    alloc: Global,
    callers: u32,
    way: Way,
) -> Result<(), Fail>
    requires { IsTeam callers }
{
    let batches = match way {
        Way::Tries => 400u32.div_ceil(callers),
        Way::Waits => 2500u32.div_ceil(callers),
    };
    let each = u64::from(batches) * u64::from(BATCH);
    let mut all = Vec::new(alloc);
    for record in churn_all(rt, alloc, callers, batches, way)? {
        assert!(rt; record.whole, "{callers} callers: one gave up");
        assert_eq!(rt; record.puts, each, "{callers} callers");
        assert_eq!(rt; record.taken.len() as u64, each, "{callers} callers");
        for event in record.taken.as_slice() {
            all.push(*event)?;
        }
    }
    all.as_mut_slice().sort_unstable();
    let mut planned = all_planned(alloc, callers, each)?;
    planned.as_mut_slice().sort_unstable();
    assert!(rt;
        all.as_slice() == planned.as_slice(),
        "{callers} callers: other events came out"
    );
    Ok(())
}

#[test]
fn nothing_is_lost_or_invented(rt: HostRuntime) -> Result<(), Fail> {
    nothing_is_lost(&rt, rt.alloc(), 2, Way::Tries)?;
    nothing_is_lost(&rt, rt.alloc(), 4, Way::Tries)?;
    nothing_is_lost(&rt, rt.alloc(), MOST_WORKERS, Way::Tries)?;
    Ok(())
}

#[test]
fn nothing_is_lost_by_waiting(rt: HostRuntime) -> Result<(), Fail> {
    nothing_is_lost(&rt, rt.alloc(), 2, Way::Waits)?;
    nothing_is_lost(&rt, rt.alloc(), 4, Way::Waits)?;
    nothing_is_lost(&rt, rt.alloc(), MOST_WORKERS, Way::Waits)?;
    Ok(())
}
