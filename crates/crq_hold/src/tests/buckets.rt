//! Worked examples of a calendar of eight buckets, each one tick wide.
ghost use Rattle.std.specs.Prelude.{IfOk};
ghost use Rattle.crq_hold.specs.Teams.{AreWorkers};

use crate::team::team;
use crate::tests::LIMIT;
use crate::tests::owing::Did::{Finished, Missed, Put, Took};
use crate::tests::owing::{Call, Did, answers_so};
use crate::worker::Worker;
use crq_base::PutEnd::{Owed, Settled};
use crq_base::Route::{Bucket, Search};
use crq_base::{First, Refusal};
use crq_queue::{Calendar, Memory};
use crq_rows::Owes::{Nothing, Settle};
use std::alloc::Global;
use std::process::Abort;
use std::test::Fail;

#[test]
fn takes_the_least(rt: HostRuntime) -> Result<(), Fail> {
    let (queue, _places, mut workers) = team(rt.alloc(), 1, 16, First::of_program())?;
    let calls = [
        (0, Call::Put(9), 64, Ok(Put(Settled)), Nothing, 0),
        (0, Call::Put(3), 64, Ok(Put(Settled)), Nothing, 0),
        (
            0,
            Call::Take(LIMIT),
            64,
            Ok(Took(3, 0, 1, Bucket(3))),
            Nothing,
            3,
        ),
        (0, Call::Take(9), 64, Ok(Missed), Nothing, 9),
        (
            0,
            Call::Take(LIMIT),
            64,
            Ok(Took(9, 0, 0, Bucket(9))),
            Nothing,
            9,
        ),
        (0, Call::Take(LIMIT), 64, Ok(Missed), Nothing, 17),
        (0, Call::Put(1), 64, Ok(Put(Settled)), Nothing, 1),
        (
            0,
            Call::Take(LIMIT),
            64,
            Ok(Took(1, 0, 2, Bucket(1))),
            Nothing,
            1,
        ),
    ];
    answers_so(&rt, &queue, workers.as_mut_slice(), &calls);
    Ok(())
}

/// Events that are further apart than there are buckets: a search finds the next one.
#[test]
fn searches_for_what_is_far(rt: HostRuntime) -> Result<(), Fail> {
    let (queue, _places, mut workers) = team(rt.alloc(), 1, 16, First::of_program())?;
    let far = 2_147_483_648;
    let calls = [
        (0, Call::Put(0), 64, Ok(Put(Settled)), Nothing, 0),
        (0, Call::Put(far), 64, Ok(Put(Settled)), Nothing, 0),
        (
            0,
            Call::Take(LIMIT),
            64,
            Ok(Took(0, 0, 0, Bucket(0))),
            Nothing,
            0,
        ),
        (
            0,
            Call::Take(LIMIT),
            64,
            Ok(Took(far, 0, 1, Search(8))),
            Nothing,
            8,
        ),
    ];
    answers_so(&rt, &queue, workers.as_mut_slice(), &calls);
    Ok(())
}

/// Where the epoch of current has no room left nothing is put, and takes go on.
#[test]
fn epochs_run_out(rt: HostRuntime) -> Result<(), Fail> {
    let first = First {
        epoch: 4_294_967_232,
        generation: 1,
        guard: 0,
    };
    let (queue, _places, mut workers) = team(rt.alloc(), 1, 16, first)?;
    let calls = [
        (0, Call::Put(0), 64, Err(Refusal::Epochs), Nothing, 0),
        (0, Call::Take(LIMIT), 64, Ok(Missed), Nothing, 8),
        (0, Call::Settle, 64, Ok(Finished), Nothing, 8),
    ];
    answers_so(&rt, &queue, workers.as_mut_slice(), &calls);
    Ok(())
}

/// One exchange links an event, and the next one settles it, unless it lies ahead of current.
#[test]
fn one_exchange_links(rt: HostRuntime) -> Result<(), Fail> {
    let (queue, _places, mut workers) = team(rt.alloc(), 1, 16, First::of_program())?;
    let calls = [
        (0, Call::Put(0), 1, Ok(Put(Owed)), Settle, 0),
        (0, Call::Settle, 1, Ok(Finished), Nothing, 0),
        (0, Call::Put(5), 1, Ok(Put(Settled)), Nothing, 0),
    ];
    answers_so(&rt, &queue, workers.as_mut_slice(), &calls);
    Ok(())
}

/// The exchanges that are enough for a put while nobody else steps and nothing is owed: three ticks, the link and the
/// settling.
const FOR_PUT: u32 = 5;
/// Those that are enough for a take: as many raises as there are buckets, the mark and the cut.
const FOR_TAKE: u32 = 10;
/// The tick of current in the states of the test below.
const HERE: u32 = 16;

/// A calendar of two workers whose current is at `HERE`. Worker 1 put an event with this time, if one is given: ahead of
/// current it is settled, and behind it it isn't.
fn at_here<R: Abort>(
    rt: &R,
    alloc: Global,
    time: Option<u32>,
) -> Result<(Calendar, Vec<Worker>), Memory>
    ensures { IfOk result (λ made. AreWorkers made.0.table made.1.items) }
{
    let (queue, _places, mut workers) = team(alloc, 2, 16, First::of_program())?;
    let last = match time {
        None => (1, Call::Settle, 64, Ok(Finished), Nothing, HERE),
        Some(time) if time < HERE => (1, Call::Put(time), 1, Ok(Put(Owed)), Settle, HERE),
        Some(time) => (1, Call::Put(time), 64, Ok(Put(Settled)), Nothing, HERE),
    };
    let calls = [
        (1, Call::Take(LIMIT), 64, Ok(Missed), Nothing, 8),
        (1, Call::Take(LIMIT), 64, Ok(Missed), Nothing, HERE),
        last,
    ];
    answers_so(rt, &queue, workers.as_mut_slice(), &calls);
    Ok((queue, workers))
}

/// Checks that so many exchanges are enough in each of these states.
fn are_enough<R: Abort>(
    rt: &R,
    alloc: Global,
    states: &[(Option<u32>, Did, u32)],
) -> Result<(), Fail> {
    for state in states {
        let (time, took, tick) = *state;
        let (queue, mut workers) = at_here(rt, alloc, time)?;
        let takes = [(0, Call::Take(LIMIT), FOR_TAKE, Ok(took), Nothing, tick)];
        answers_so(rt, &queue, workers.as_mut_slice(), &takes);
        for later in 14..26u32 {
            let (queue, mut workers) = at_here(rt, alloc, time)?;
            let tick = later.min(HERE);
            let puts = [(
                0,
                Call::Put(later),
                FOR_PUT,
                Ok(Put(Settled)),
                Nothing,
                tick,
            )];
            answers_so(rt, &queue, workers.as_mut_slice(), &puts);
        }
    }
    Ok(())
}

/// The time of the one event, how a take finds it, and the tick of current after that.
const STATES: [(Option<u32>, Did, u32); 14] = [
    (None, Missed, 24),
    (Some(8), Took(8, 1, 0, Bucket(16)), 16),
    (Some(9), Took(9, 1, 0, Bucket(17)), 17),
    (Some(15), Took(15, 1, 0, Bucket(23)), 23),
    (Some(16), Took(16, 1, 0, Bucket(16)), 16),
    (Some(17), Took(17, 1, 0, Bucket(17)), 17),
    (Some(18), Took(18, 1, 0, Bucket(18)), 18),
    (Some(19), Took(19, 1, 0, Bucket(19)), 19),
    (Some(20), Took(20, 1, 0, Bucket(20)), 20),
    (Some(21), Took(21, 1, 0, Bucket(21)), 21),
    (Some(22), Took(22, 1, 0, Bucket(22)), 22),
    (Some(23), Took(23, 1, 0, Bucket(23)), 23),
    (Some(24), Took(24, 1, 0, Search(8)), 24),
    (Some(25), Took(25, 1, 0, Search(8)), 24),
];

/// While nobody else steps no call of a pass that owes nothing is refused for want of exchanges.
#[test]
fn so_many_exchanges_are_enough(rt: HostRuntime) -> Result<(), Fail> {
    are_enough(&rt, rt.alloc(), &STATES)
}

/// The same where each put uses a row, and no more rows are free than a caller has: some puts make ticks.
#[test]
fn they_are_enough_for_a_recovery(rt: HostRuntime) -> Result<(), Fail> {
    let (queue, _places, mut workers) = team(rt.alloc(), 1, 4, First::of_program())?;
    let workers = workers.as_mut_slice();
    for seq in 0..40u64 {
        let calls = [
            (0, Call::Put(0), FOR_PUT, Ok(Put(Settled)), Nothing, 0),
            (
                0,
                Call::Take(LIMIT),
                FOR_TAKE,
                Ok(Took(0, 0, seq, Bucket(0))),
                Nothing,
                0,
            ),
        ];
        answers_so(&rt, &queue, workers, &calls);
    }
    Ok(())
}
