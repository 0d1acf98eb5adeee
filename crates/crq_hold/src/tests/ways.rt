//! The two ways to make a call: to try it within a budget of exchanges, and to wait for it.
ghost use Rattle.crq_hold.specs.Workers.{IsWorker, IsSettled, WorksOn};

use crate::worker::Worker;
use crq_base::{Event, TakeEnd};
use crq_queue::Calendar;
use std::sync::Wait;
use std::thread;

/// The exchanges that a try to put may make: so few that it is often refused, or leaves its event to be settled.
const FOR_PUT: u32 = 1;
/// Those that a try to take may make: enough to raise current as often as there are buckets, while nobody else steps.
const FOR_TAKE: u32 = 10;

/// How the callers of a test make their calls.
#[derive(Clone, Copy)]
pub(crate) enum Way {
    /// By tries with a small budget.
    Tries,
    /// By the calls that wait.
    Waits,
}

/// Puts an event of the worker's, and says whether that was done.
pub(crate) fn put_once<R: Wait>(
    rt: &R,
    queue: &Calendar,
    worker: &mut Worker,
    event: &Event,
    way: Way,
) -> bool
    requires { IsWorker queue.now.table worker.old }
    ensures { WorksOn queue.now.table worker.old worker.new }
{
    let (time, load) = (event.time, event.load);
    match way {
        Way::Tries => worker.put(queue, time, load, FOR_PUT).is_ok(),
        Way::Waits => worker.put_waiting(rt, queue, time, load).is_ok(),
    }
}

/// Takes the least event below the limit, or finds none. It answers nothing where the call was refused.
pub(crate) fn take_once<R: Wait>(
    rt: &R,
    queue: &Calendar,
    worker: &mut Worker,
    limit: u64,
    way: Way,
) -> Option<TakeEnd>
    requires { IsWorker queue.now.table worker.old }
    ensures { WorksOn queue.now.table worker.old worker.new }
{
    match way {
        Way::Tries => worker.take(queue, limit, FOR_TAKE).ok(),
        Way::Waits => worker.take_waiting(rt, queue, limit).ok(),
    }
}

/// Settles the event that the worker owes, if it owes one.
pub(crate) fn settle_surely<R: Wait>(rt: &R, queue: &Calendar, worker: &mut Worker)
    requires { IsWorker queue.now.table worker.old }
    ensures on { WorksOn queue.now.table worker.old worker.new }
    ensures settled { IsSettled worker.new }
{
    for _ in rt.forever() {
        match queue.try_settle(&mut worker.pass, FOR_PUT) {
            Ok(()) => return,
            Err(_) => thread::yield_now(),
        }
    }
    unreachable!()
}
