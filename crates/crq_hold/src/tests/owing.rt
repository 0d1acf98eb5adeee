//! What a call did, and what a pass owes after it.
ghost use Rattle.std.specs.Prelude.{◌≤◌};
ghost use Rattle.crq_hold.specs.Workers.{IsWorker, WorksOn};
ghost use Rattle.crq_hold.specs.Teams.{AreWorkers};

use crate::team::team;
use crate::tests::LIMIT;
use crate::worker::Worker;
use crq_base::{Current, First, PutEnd, Refusal, Route, TakeEnd};
use crq_current::current_step;
use crq_queue::Calendar;
use crq_rows::Owes;
use std::process::Abort;
use std::test::Fail;

/// A call of a worker.
#[derive(Clone, Copy, Debug)]
pub(crate) enum Call {
    /// Puts an event with this time.
    Put(u32),
    /// Takes below this limit.
    Take(u64),
    /// Settles.
    Settle,
}

/// What a call did that wasn't refused.
#[derive(Clone, Copy, Debug, PartialEq, Eq)]
pub(crate) enum Did {
    /// It put its event.
    Put(PutEnd),
    /// It took the event of this time, source and number, and found it so.
    Took(u32, u32, u64, Route),
    /// It found no event below its limit.
    Missed,
    /// It finished what was owed.
    Finished,
}

use Did::{Finished, Missed, Put, Took};
use Owes::{Cut, Nothing, Settle};
use PutEnd::{Owed, Settled};
use Route::Bucket;

/// What a take did.
fn take_did(end: TakeEnd) -> Did {
    match end {
        TakeEnd::Taken(event, route) => Took(event.time, event.src, event.seq, route),
        TakeEnd::Missed => Missed,
    }
}

/// Makes a call, and answers what it did.
pub(crate) fn answer(
    queue: &Calendar,
    worker: &mut Worker,
    call: Call,
    budget: u32,
) -> Result<Did, Refusal>
    requires worker { IsWorker queue.now.table worker.old }
    requires budget { 1 ≤ budget }
    ensures { WorksOn queue.now.table worker.old worker.new }
{
    match call {
        Call::Put(time) => worker.put(queue, time, 0, budget).map(Put),
        Call::Take(limit) => worker.take(queue, limit, budget).map(take_did),
        Call::Settle => queue
            .try_settle(&mut worker.pass, budget)
            .map(|()| Finished),
    }
}

/// Current, as a load with the worker's pass finds it.
pub(crate) fn current_of(queue: &Calendar, worker: &mut Worker) -> Current
    requires { IsWorker queue.now.table worker.old }
    ensures { WorksOn queue.now.table worker.old worker.new }
{
    current_step(&queue.table, &mut worker.pass, false)
}

/// A call of a test's table: whose it is, the call, how many exchanges it may make, its answer, what the pass owes after it,
/// and the tick of current then.
pub(crate) type Row = (usize, Call, u32, Result<Did, Refusal>, Owes, u32);

/// Makes the calls of a table by a team's workers, and checks what it says of each.
pub(crate) fn answers_so<R: Abort>(rt: &R, queue: &Calendar, workers: &mut [Worker], calls: &[Row])
    requires { AreWorkers queue.now.table workers.old }
    ensures { AreWorkers queue.now.table workers.new }
{
    for (caller, call, budget, expected, owes, tick) in calls {
        let turn = *caller % workers.len();
        let answered = answer(queue, &mut workers[turn], *call, (*budget).max(1));
        assert_eq!(rt; answered, *expected, "{call:?} by {caller}");
        assert_eq!(rt; workers[turn].pass.owes(), *owes, "{call:?} by {caller}");
        let found = current_of(queue, &mut workers[turn]).tick;
        assert_eq!(rt; found, *tick, "{call:?} by {caller}");
    }
}

// The refusals of calls whose budget of so many exchanges is used up.
const AGAIN_1: Result<Did, Refusal> = Err(Refusal::Again { turns: 1 });

const AGAIN_2: Result<Did, Refusal> = Err(Refusal::Again { turns: 2 });

const AGAIN_3: Result<Did, Refusal> = Err(Refusal::Again { turns: 3 });

const AGAIN_7: Result<Did, Refusal> = Err(Refusal::Again { turns: 7 });

/// Calls of two workers in turn, by a budget of one exchange or a few.
const OWING: [Row; 46] = [
    (0, Call::Settle, 64, Ok(Finished), Nothing, 0),
    (0, Call::Put(3), 64, Ok(Put(Settled)), Nothing, 0),
    (1, Call::Put(5), 64, Ok(Put(Settled)), Nothing, 0),
    (
        0,
        Call::Take(LIMIT),
        64,
        Ok(Took(3, 0, 0, Bucket(3))),
        Nothing,
        3,
    ),
    (0, Call::Take(5), 64, Ok(Missed), Nothing, 5),
    // It lies behind current, which goes back to it.
    (0, Call::Put(4), 64, Ok(Put(Settled)), Nothing, 4),
    (1, Call::Put(6), 64, Ok(Put(Settled)), Nothing, 4),
    // The row of a take is cut by the next call.
    (
        0,
        Call::Take(LIMIT),
        1,
        Ok(Took(4, 0, 1, Bucket(4))),
        Cut,
        4,
    ),
    (0, Call::Put(7), 1, AGAIN_1, Nothing, 4),
    // A take that raised current once.
    (0, Call::Take(LIMIT), 1, AGAIN_1, Nothing, 5),
    (
        0,
        Call::Take(LIMIT),
        1,
        Ok(Took(5, 1, 0, Bucket(5))),
        Cut,
        5,
    ),
    (0, Call::Take(LIMIT), 1, AGAIN_1, Nothing, 5),
    (0, Call::Take(LIMIT), 1, AGAIN_1, Nothing, 6),
    (
        0,
        Call::Take(LIMIT),
        1,
        Ok(Took(6, 1, 1, Bucket(6))),
        Cut,
        6,
    ),
    (0, Call::Put(7), 64, Ok(Put(Settled)), Nothing, 6),
    (1, Call::Put(7), 64, Ok(Put(Settled)), Nothing, 6),
    // Two rows are dead, and who has to cut the second one needs two exchanges for that.
    (
        0,
        Call::Take(LIMIT),
        2,
        Ok(Took(7, 0, 2, Bucket(7))),
        Cut,
        7,
    ),
    (
        1,
        Call::Take(LIMIT),
        1,
        Ok(Took(7, 1, 2, Bucket(7))),
        Cut,
        7,
    ),
    (1, Call::Put(9), 1, AGAIN_1, Cut, 7),
    (1, Call::Settle, 1, Ok(Finished), Nothing, 7),
    (0, Call::Take(7), 1, Ok(Missed), Nothing, 7),
    // An event at current or behind it is owed where the link was the last exchange, and the next call settles it first.
    (0, Call::Put(7), 1, Ok(Put(Owed)), Settle, 7),
    (0, Call::Put(10), 1, AGAIN_1, Nothing, 7),
    (0, Call::Put(6), 1, Ok(Put(Owed)), Settle, 7),
    // It counts for no take until it is settled.
    (
        1,
        Call::Take(LIMIT),
        64,
        Ok(Took(7, 0, 3, Bucket(7))),
        Nothing,
        7,
    ),
    (0, Call::Settle, 1, Ok(Finished), Nothing, 6),
    (
        0,
        Call::Take(LIMIT),
        64,
        Ok(Took(6, 0, 4, Bucket(6))),
        Nothing,
        6,
    ),
    // An event that is owed is settled without an exchange once current lies before it.
    (0, Call::Put(6), 1, Ok(Put(Owed)), Settle, 6),
    (1, Call::Put(2), 64, Ok(Put(Settled)), Nothing, 2),
    (0, Call::Put(11), 1, Ok(Put(Settled)), Nothing, 2),
    (
        1,
        Call::Take(LIMIT),
        64,
        Ok(Took(2, 1, 3, Bucket(2))),
        Nothing,
        2,
    ),
    // A take between two raises.
    (0, Call::Take(LIMIT), 2, AGAIN_2, Nothing, 4),
    (0, Call::Take(LIMIT), 2, AGAIN_2, Nothing, 6),
    (
        0,
        Call::Take(LIMIT),
        2,
        Ok(Took(6, 0, 5, Bucket(6))),
        Nothing,
        6,
    ),
    (1, Call::Take(LIMIT), 3, AGAIN_3, Nothing, 9),
    (1, Call::Take(11), 64, Ok(Missed), Nothing, 11),
    (
        1,
        Call::Take(LIMIT),
        64,
        Ok(Took(11, 0, 6, Bucket(11))),
        Nothing,
        11,
    ),
    // A take settles the event that its own pass owes, and then needs one more exchange to mark it.
    (1, Call::Put(11), 1, Ok(Put(Owed)), Settle, 11),
    (1, Call::Take(LIMIT), 1, AGAIN_1, Nothing, 11),
    (
        1,
        Call::Take(LIMIT),
        1,
        Ok(Took(11, 1, 4, Bucket(11))),
        Cut,
        11,
    ),
    // So does a put, after the row.
    (1, Call::Put(11), 2, Ok(Put(Owed)), Settle, 11),
    // Another takes an event that isn't settled yet, and its caller settles it after that.
    (
        0,
        Call::Take(LIMIT),
        2,
        Ok(Took(11, 1, 5, Bucket(11))),
        Nothing,
        11,
    ),
    (1, Call::Settle, 1, Ok(Finished), Nothing, 11),
    // A take that raised current as often as there are buckets, and found nothing.
    (0, Call::Take(LIMIT), 7, AGAIN_7, Nothing, 18),
    (0, Call::Take(LIMIT), 8, Ok(Missed), Nothing, 26),
    (1, Call::Settle, 1, Ok(Finished), Nothing, 26),
];

/// What each call of the table answers, and what is owed after it.
#[test]
fn owes_after_each_call(rt: HostRuntime) -> Result<(), Fail> {
    let (queue, _places, mut workers) = team(rt.alloc(), 2, 16, First::of_program())?;
    answers_so(&rt, &queue, workers.as_mut_slice(), &OWING);
    Ok(())
}
