//! Callers that are stopped midway, and what the one that goes on is told once its rows are used up.
ghost use Rattle.std.specs.Prelude.{◌≡◌, ℕ, false, Some, None, slice_get};
ghost use Rattle.crq_base.specs.Sizes.{IsTeam, AreRows};
ghost use Rattle.crq_base.specs.Words.{IsControl};
ghost use Rattle.crq_rule.specs.HistoryParts.{EndsInBegin};
ghost use Rattle.crq_rule.specs.Ranks.{bucket, shape_of};
ghost use Rattle.crq_rows.specs.Passes.{caller, IsPassOf};
ghost use Rattle.crq_list.specs.declared.parts.Place.TheVariants.{Bucket};
ghost use Rattle.crq_list.specs.Taking.{IsTaking};
ghost use Rattle.crq_queue.specs.Wholes.{IsResting};
ghost use Rattle.crq_queue.specs.Runs.{IsInside};
ghost use Rattle.crq_hold.specs.declared.worker.Worker.{Worker};
ghost use Rattle.crq_hold.specs.Workers.{IsWorker, WorksOn};

use crate::team::team;
use crate::tests::LIMIT;
use crate::tests::scarcity::{BUDGET, enter, fill, put_and_take};
use crate::worker::Worker;
use crq_base::{Control, Current, Event, First, Holder, PutEnd, Refusal};
use crq_current::{current_step, next_position, raise_step};
use crq_list::{CutOp, ListAt, MarkEnd, Place, Progress, TakeOp, begin_step, head_of};
use crq_queue::{Calendar, Memory, Pass};
use crq_rows::Owes;
use std::alloc::Global;
use std::process::Abort;
use std::test::Fail;

/// More steps than an operation makes on any list here.
const STEPS: u32 = 256;

/// How a caller is stopped.
#[derive(Clone, Copy, Debug, PartialEq, Eq)]
enum Stopped {
    /// Between two calls.
    Idle,
    /// In a call, with its guard on.
    HoldsGuard,
    /// In a take, after it marked the row of an event and before it cuts it.
    Marked,
    /// In a take, after it cut a dead row and before it retires it.
    CutRow,
    /// Between two calls, with the row of the event that it took still to be cut.
    OwesCut,
    /// Between two calls, with an event that it linked and hasn't settled.
    OwesEvent,
    /// In a take, after it raised current.
    Raised,
}

use Stopped::{CutRow, HoldsGuard, Idle, Marked, OwesCut, OwesEvent, Raised};

/// Begins a call, turns the guard on, and answers the control word that the call found.
fn begin_inside(queue: &Calendar, pass: &mut Pass) -> Control
    requires { IsResting queue.now.table pass.old }
    ensures of { IsPassOf queue.now.table pass.new }
    ensures inside { IsInside queue.now.table result pass.new }
    ensures control { IsControl result }
    ensures steady { result.moving ≡ false }
    ensures began { EndsInBegin (caller queue.now.table pass.new).own }
    ensures debts { pass.new.debts ≡ pass.old.debts }
{
    let control = begin_step(&queue.table, pass);
    enter(queue, pass);
    control
}

/// Begins the take of the first event in current's bucket. It answers the take, and where current was found.
fn take_here(queue: &Calendar, pass: &mut Pass, control: &Control) -> (TakeOp, Current)
    requires of { IsPassOf queue.now.table pass.old }
    requires inside { IsInside queue.now.table control.now pass.old }
    requires control { IsControl control.now × (control.now.moving ≡ false) }
    requires began { EndsInBegin (caller queue.now.table pass.old).own }
    requires free { pass.old.debts.cut ≡ None }
    requires one { pass.old.debts.second_cut ≡ None }
    ensures of { IsPassOf queue.now.table pass.new }
    ensures free { pass.new.debts.cut ≡ None }
    ensures at { IsTaking 0 queue.now.table control.now result.0 (caller queue.now.table pass.new) }
    ensures place { result.0.place ≡ Bucket (bucket (shape_of control.now) result.1.tick) }
    ensures sees { (caller queue.now.table pass.new).sight ≡ Some (record { table = control.now; current = result.1 }) }
{
    let current = current_step(&queue.table, pass, true);
    let place = Place::Bucket(current.tick >> control.shift);
    (TakeOp::new(*control, place, LIMIT), current)
}

/// Marks the row of the first event in current's bucket, and answers that event and its row.
fn mark(queue: &Calendar, pass: &mut Pass, control: &Control) -> Option<(Event, u32)>
    requires of { IsPassOf queue.now.table pass.old }
    requires inside { IsInside queue.now.table control.now pass.old }
    requires control { IsControl control.now × (control.now.moving ≡ false) }
    requires began { EndsInBegin (caller queue.now.table pass.old).own }
    requires free { pass.old.debts.cut ≡ None }
    requires one { pass.old.debts.second_cut ≡ None }
    ensures of { IsPassOf queue.now.table pass.new }
    ensures inside { IsInside queue.now.table control.now pass.new }
{
    let (mut op, _current) = take_here(queue, pass, control);
    for _ in 0..STEPS {
        match op.step(&queue.table, pass) {
            Progress::More => {}
            Progress::Done(MarkEnd::Marked(row, event, _)) => return Some((event, row)),
            Progress::Done(_) => return None,
        }
    }
    None
}

/// Walks current's bucket, in which there is no event, and raises current. It says whether it came so far.
fn raise(queue: &Calendar, pass: &mut Pass, control: &Control) -> bool
    requires of { IsPassOf queue.now.table pass.old }
    requires inside { IsInside queue.now.table control.now pass.old }
    requires control { IsControl control.now × (control.now.moving ≡ false) }
    requires began { EndsInBegin (caller queue.now.table pass.old).own }
    requires free { pass.old.debts.cut ≡ None }
    requires one { pass.old.debts.second_cut ≡ None }
{
    let (mut op, current) = take_here(queue, pass, control);
    for _ in 0..STEPS {
        match op.step(&queue.table, pass) {
            Progress::More => {}
            Progress::Done(MarkEnd::Nothing) => {
                return match next_position(control, current) {
                    Some(to) => raise_step(&queue.table, pass, control, current, to),
                    None => false,
                };
            }
            Progress::Done(_) => return false,
        }
    }
    false
}

/// Begins to cut a row that was marked, up to the first exchange, which cuts the first dead row on the way. It says whether
/// it came so far.
fn cut(queue: &Calendar, pass: &mut Pass, control: &Control, event: Event, row: u32) -> bool
    requires of { IsPassOf queue.now.table pass.old }
    requires inside { IsInside queue.now.table control.now pass.old }
    requires control { IsControl control.now }
{
    let list = ListAt {
        generation: control.generation,
        head: head_of(control, &event),
    };
    let mut op = CutOp::new(list, Some((event, row)));
    for _ in 0..STEPS {
        let exchanges = op.exchanges();
        match op.step(&queue.table, pass) {
            Progress::More if exchanges => return true,
            Progress::More => {}
            Progress::Done(_) => return false,
        }
    }
    false
}

/// Has a caller stop in a call. It says whether it came so far.
fn stop_inside(queue: &Calendar, pass: &mut Pass, how: Stopped) -> bool
    requires { IsResting queue.now.table pass.old }
{
    if pass.debts.cut.is_some() {
        return false;
    }
    let control = begin_inside(queue, pass);
    if how == HoldsGuard {
        return true;
    }
    if how == Raised {
        return raise(queue, pass, &control);
    }
    let Some((event, row)) = mark(queue, pass, &control) else {
        return false;
    };
    how == Marked || cut(queue, pass, &control, event, row)
}

/// Has a worker stop. Where it takes an event, that is one that the running worker puts before. It says whether the worker
/// came so far.
fn stop(queue: &Calendar, running: &mut Worker, worker: Worker, how: Stopped) -> bool
    requires running { IsWorker queue.now.table running.old }
    requires worker { IsWorker queue.now.table worker }
    ensures { WorksOn queue.now.table running.old running.new }
{
    let takes = matches!(how, Marked | CutRow | OwesCut);
    if takes && running.put(queue, 0, 0, BUDGET).is_err() {
        return false;
    }
    let mut worker = worker;
    match how {
        Idle => true,
        OwesCut => {
            let end = worker.take(queue, LIMIT, 1);
            end.is_ok() && worker.pass.owes() == Owes::Cut
        }
        OwesEvent => worker.put(queue, 0, 0, 1) == Ok(PutEnd::Owed),
        HoldsGuard | Marked | CutRow | Raised => stop_inside(queue, &mut worker.pass, how),
    }
}

/// Has these workers stop, each as its number says. It says whether all came so far.
fn stop_all(
    queue: &Calendar,
    running: &mut Worker,
    workers: Vec<Worker>,
    others: [Stopped; 3],
) -> bool
    requires running { IsWorker queue.now.table running.old }
    requires workers { (k : ℕ) (w : Worker) → slice_get workers.items k ≡ Some w → IsWorker queue.now.table w }
    ensures { WorksOn queue.now.table running.old running.new }
{
    let mut all = true;
    for worker in workers {
        let how = others[worker.pass.number as usize % 3];
        all = stop(queue, running, worker, how) && all;
    }
    all
}

/// What came of the running worker's calls.
#[derive(Drop)]
struct Outcome {
    /// Whether the others stopped as they should, and the events that were to be put and taken first were.
    is_set_up: bool,
    /// How many puts were done after that.
    puts: u32,
    /// Why the next one was refused.
    refusal: Option<Refusal>,
}

/// Has all workers of a team but the last one stop. That one puts and takes so many events, and then puts events until it
/// is refused.
fn play(
    alloc: Global,
    callers: u32,
    rows: u32,
    others: [Stopped; 3],
    taken: u32,
) -> Result<Outcome, Memory>
    requires callers { IsTeam callers }
    requires rows { AreRows rows }
{
    let (queue, _places, mut workers) = team(alloc, callers, rows, First::of_program())?;
    let Some(mut running) = workers.pop() else {
        unreachable!()
    };
    let mut is_set_up = stop_all(&queue, &mut running, workers, others);
    for _ in 0..taken {
        is_set_up = put_and_take(&queue, &mut running) && is_set_up;
    }
    let (puts, refusal) = fill(&queue, &mut running);
    Ok(Outcome {
        is_set_up,
        puts,
        refusal,
    })
}

// The refusals that name a caller, which announced the first epoch.
const HELD_0: Refusal = Refusal::Held(Holder::Seat(0, 0));

const HELD_1: Refusal = Refusal::Held(Holder::Seat(1, 0));

const HELD_2: Refusal = Refusal::Held(Holder::Seat(2, 0));

/// A row of the table below: the numbers of callers and rows, how the others are stopped, how many events are put and taken
/// first, how many are put after that, and what the next put is told.
type Row = (u32, u32, [Stopped; 3], u32, u32, Refusal);

/// Plays each row of a table, and checks what the running worker was told.
fn are_told<R: Abort>(rt: &R, alloc: Global, rows: &[Row]) -> Result<(), Fail> {
    for row in rows {
        let (callers, rows, others, taken, puts, told) = *row;
        let (callers, rows) = (callers.clamp(1, 4), rows.clamp(4, 8));
        let outcome = play(alloc, callers, rows, others, taken)?;
        assert_eq!(rt;
            (outcome.is_set_up, outcome.puts, outcome.refusal),
            (true, puts, Some(told)),
            "{callers} callers, {rows} rows, {others:?}, {taken} taken"
        );
    }
    Ok(())
}

/// Who stops, and what is told then.
const WHO_IS_TOLD: [Row; 39] = [
    (1, 4, [Idle, Idle, Idle], 0, 6, Refusal::Rows),
    (1, 8, [Idle, Idle, Idle], 20, 10, Refusal::Rows),
    (2, 4, [Idle, Idle, Idle], 0, 8, Refusal::Rows),
    (2, 4, [HoldsGuard, Idle, Idle], 0, 8, HELD_0),
    (2, 4, [HoldsGuard, Idle, Idle], 8, 0, HELD_0),
    (2, 5, [Marked, Idle, Idle], 0, 8, HELD_0),
    (2, 5, [Marked, Idle, Idle], 8, 0, HELD_0),
    (2, 6, [CutRow, Idle, Idle], 0, 9, HELD_0),
    (2, 6, [CutRow, Idle, Idle], 7, 2, HELD_0),
    (2, 7, [OwesCut, Idle, Idle], 0, 11, Refusal::Rows),
    (2, 7, [OwesCut, Idle, Idle], 30, 11, Refusal::Rows),
    (2, 8, [CutRow, Idle, Idle], 11, 0, HELD_0),
    (2, 4, [Raised, Idle, Idle], 0, 8, HELD_0),
    (2, 4, [Raised, Idle, Idle], 8, 0, HELD_0),
    (2, 4, [OwesEvent, Idle, Idle], 0, 8, Refusal::Rows),
    // The event that is owed is the first that comes out, so one of the running caller's own stays.
    (2, 4, [OwesEvent, Idle, Idle], 8, 7, Refusal::Rows),
    (2, 7, [OwesEvent, Idle, Idle], 30, 10, Refusal::Rows),
    (3, 4, [Idle, Idle, Idle], 0, 10, Refusal::Rows),
    (3, 4, [OwesCut, OwesCut, Idle], 0, 10, Refusal::Rows),
    (3, 5, [OwesCut, HoldsGuard, Idle], 0, 10, HELD_1),
    (3, 5, [HoldsGuard, Marked, Idle], 4, 6, HELD_0),
    (3, 6, [Idle, CutRow, Idle], 0, 11, HELD_1),
    (3, 7, [Marked, CutRow, Idle], 11, 0, HELD_0),
    (3, 8, [OwesCut, Idle, Idle], 40, 14, Refusal::Rows),
    (3, 5, [OwesCut, Raised, Idle], 0, 10, HELD_1),
    (3, 5, [Raised, OwesEvent, Idle], 0, 11, HELD_0),
    (3, 6, [Raised, Marked, Idle], 4, 7, HELD_0),
    (3, 6, [OwesEvent, OwesEvent, Idle], 0, 12, Refusal::Rows),
    (3, 6, [OwesEvent, OwesEvent, Idle], 20, 10, Refusal::Rows),
    (4, 4, [Idle, Idle, Idle], 0, 12, Refusal::Rows),
    (4, 4, [OwesCut, OwesCut, OwesCut], 0, 12, Refusal::Rows),
    (4, 5, [Idle, Idle, HoldsGuard], 0, 13, HELD_2),
    (4, 5, [OwesCut, OwesCut, Marked], 0, 10, HELD_2),
    (4, 6, [Idle, CutRow, Marked], 5, 7, HELD_1),
    (4, 7, [Marked, Marked, Marked], 12, 0, HELD_0),
    (4, 8, [CutRow, HoldsGuard, OwesCut], 14, 0, HELD_0),
    (4, 8, [OwesCut, Idle, OwesCut], 50, 16, Refusal::Rows),
    (4, 7, [OwesCut, Raised, OwesEvent], 0, 14, HELD_1),
    (4, 5, [OwesEvent, OwesCut, Idle], 30, 12, Refusal::Rows),
];

/// Whoever is stopped with its guard on is named, as soon as the rows that were free are used up, however few events are
/// pending. Whoever is stopped between two calls is in nobody's way: then all of a caller's rows hold pending events before
/// no row is left.
#[test]
fn who_stops_is_told(rt: HostRuntime) -> Result<(), Fail> {
    are_told(&rt, rt.alloc(), &WHO_IS_TOLD)
}
