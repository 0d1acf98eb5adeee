//! Callers whose rows run out: who keeps the epoch then, and how many events are pending where no row is left.
ghost use Rattle.std.specs.Prelude.{◌≡◌, Some, None, IfOk};
ghost use Rattle.crq_base.specs.Sizes.{IsTeam, AreRows};
ghost use Rattle.crq_base.specs.declared.words.Control.{Control};
ghost use Rattle.crq_rows.specs.Passes.{caller, IsPassOf};
ghost use Rattle.crq_queue.specs.Wholes.{IsResting};
ghost use Rattle.crq_queue.specs.Runs.{IsInside};
ghost use Rattle.crq_hold.specs.declared.worker.Worker.{Worker};
ghost use Rattle.crq_hold.specs.Workers.{IsWorker, WorksOn};

use crate::team::team;
use crate::tests::LIMIT;
use crate::worker::Worker;
use crq_base::{First, Holder, PutEnd, Refusal, TakeEnd};
use crq_queue::{Calendar, Memory, Pass};
use crq_rows::{Owes, confirm_step, enter_step, epoch_step, leave_step};
use std::alloc::Global;
use std::process::Abort;
use std::test::Fail;

/// The exchanges that a call may make.
pub(crate) const BUDGET: u32 = 64;
/// How often a put is made that is refused with Again.
const TRIES: u32 = 10;
/// More events than a caller of any table here has rows for.
const MANY: u32 = 64;

/// A calendar, its last worker, and the one before that, where there is one.
fn pair(
    alloc: Global,
    callers: u32,
    rows: u32,
) -> Result<(Calendar, Worker, Option<Worker>), Memory>
    requires callers { IsTeam callers }
    requires rows { AreRows rows }
    ensures last { IfOk result (λ made. IsWorker made.0.table made.1) }
    ensures other { IfOk result (λ made. (w : Worker) → made.2 ≡ Some w → IsWorker made.0.table w) }
{
    let (queue, _places, mut workers) = team(alloc, callers, rows, First::of_program())?;
    let Some(last) = workers.pop() else {
        unreachable!()
    };
    let other = workers.pop();
    Ok((queue, last, other))
}

/// Turns the guard of a resting pass on.
pub(crate) fn enter(queue: &Calendar, pass: &mut Pass)
    requires { IsResting queue.now.table pass.old }
    ensures of { IsPassOf queue.now.table pass.new }
    ensures uncut { (caller queue.now.table pass.new).cut ≡ None }
    ensures uncopied { pass.new.debts.copy ≡ None }
    ensures inside { (x : Control) → (caller queue.now.table pass.old).found.control ≡ Some x → IsInside queue.now.table x pass.new }
    ensures own { (caller queue.now.table pass.new).own ≡ (caller queue.now.table pass.old).own }
    ensures debts { pass.new.debts ≡ pass.old.debts }
{
    let epoch = epoch_step(&queue.table, pass);
    enter_step(&queue.table, pass, epoch);
    confirm_step(&queue.table, pass);
}

/// Loads the epoch with a worker's pass.
fn epoch_of(queue: &Calendar, worker: &mut Worker) -> u64
    requires { IsWorker queue.now.table worker.old }
    ensures { WorksOn queue.now.table worker.old worker.new }
{
    epoch_step(&queue.table, &mut worker.pass)
}

/// Puts an event and takes one, and says whether both were done.
pub(crate) fn put_and_take(queue: &Calendar, worker: &mut Worker) -> bool
    requires { IsWorker queue.now.table worker.old }
    ensures { WorksOn queue.now.table worker.old worker.new }
{
    let put = worker.put(queue, 0, 0, BUDGET);
    let end = worker.take(queue, LIMIT, BUDGET);
    put == Ok(PutEnd::Settled) && matches!(end, Ok(TakeEnd::Taken(_, _)))
}

/// While one worker keeps its guard on, the other uses up its rows: they get ripe only after the guard is off.
#[test]
fn a_guard_keeps_the_epoch(rt: HostRuntime) -> Result<(), Fail> {
    let (queue, mut one, zero) = pair(rt.alloc(), 2, 4)?;
    assert!(rt; zero.is_some());
    if let Some(mut zero) = zero {
        enter(&queue, &mut zero.pass);
        for turn in 0..8u32 {
            assert!(rt; put_and_take(&queue, &mut one), "turn {turn}");
        }
        let held = Err(Refusal::Held(Holder::Seat(0, 0)));
        assert_eq!(rt; one.put(&queue, 0, 0, BUDGET), held);
        assert_eq!(rt; epoch_of(&queue, &mut one), 1);
        leave_step(&queue.table, &mut zero.pass);
        assert_eq!(rt; one.put(&queue, 0, 0, BUDGET), Ok(PutEnd::Settled));
    }
    Ok(())
}

/// Puts an event, and does so again where the budget was used up.
fn put_again(queue: &Calendar, worker: &mut Worker, time: u32) -> Result<PutEnd, Refusal>
    requires { IsWorker queue.now.table worker.old }
    ensures { WorksOn queue.now.table worker.old worker.new }
{
    for _ in 0..TRIES {
        match worker.put(queue, time, 0, BUDGET) {
            Err(Refusal::Again { turns: _ }) => {}
            end => return end,
        }
    }
    worker.put(queue, time, 0, BUDGET)
}

/// Puts events until that is refused. It answers how many were put, and the refusal.
pub(crate) fn fill(queue: &Calendar, worker: &mut Worker) -> (u32, Option<Refusal>)
    requires { IsWorker queue.now.table worker.old }
{
    for pending in 0..MANY {
        if let Err(refusal) = put_again(queue, worker, pending) {
            return (pending, Some(refusal));
        }
    }
    (MANY, None)
}

/// Where that is asked, has a worker put an event that the other one, if there is one, takes without cutting its row. It
/// says whether the other owes that.
fn owe(queue: &Calendar, worker: &mut Worker, other: Option<Worker>, asked: bool) -> bool
    requires worker { IsWorker queue.now.table worker.old }
    requires other { (w : Worker) → other ≡ Some w → IsWorker queue.now.table w }
    ensures { WorksOn queue.now.table worker.old worker.new }
{
    if !asked {
        return false;
    }
    let put = worker.put(queue, 0, 0, BUDGET);
    let Some(mut other) = other else {
        return false;
    };
    let end = other.take(queue, LIMIT, 1);
    put == Ok(PutEnd::Settled) && end.is_ok() && other.pass.owes() == Owes::Cut
}

/// What comes of a worker's puts in a new calendar: whether another worker owes the cut of one of its rows, how many
/// events were put, and why the next one wasn't.
fn filled(
    alloc: Global,
    callers: u32,
    rows: u32,
    owing: bool,
) -> Result<(bool, u32, Option<Refusal>), Memory>
    requires callers { IsTeam callers }
    requires rows { AreRows rows }
{
    let (queue, mut worker, other) = pair(alloc, callers, rows)?;
    let owes = owe(&queue, &mut worker, other, owing);
    let (pending, refusal) = fill(&queue, &mut worker);
    Ok((owes, pending, refusal))
}

/// Checks what comes of a worker's puts for each row of a table.
fn run_out<R: Abort>(rt: &R, alloc: Global, table: &[(u32, u32, bool, u32)]) -> Result<(), Fail> {
    for row in table {
        let (callers, rows, owing, puts) = *row;
        let (callers, rows) = (callers.clamp(1, 4), rows.clamp(4, 8));
        let end = filled(alloc, callers, rows, owing)?;
        assert_eq!(rt;
            end,
            (owing, puts, Some(Refusal::Rows)),
            "{callers} callers, {rows} rows"
        );
    }
    Ok(())
}

/// The numbers of callers and rows, whether another caller owes a cut, and how many events are put.
const RUNNING_OUT: [(u32, u32, bool, u32); 11] = [
    (1, 4, false, 6),
    (1, 5, false, 7),
    (1, 8, false, 10),
    (2, 4, false, 8),
    (2, 4, true, 8),
    (2, 7, true, 11),
    (3, 5, false, 11),
    (3, 5, true, 11),
    (4, 4, true, 12),
    (4, 8, false, 16),
    (4, 8, true, 16),
];

/// No row is left only where twice the pending events are at least a caller's rows.
#[test]
fn rows_run_out_late(rt: HostRuntime) -> Result<(), Fail> {
    run_out(&rt, rt.alloc(), &RUNNING_OUT)
}
