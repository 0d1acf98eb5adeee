//! Callers that help a move: a table that may move, events that stand in it, and the helpers' steps.
ghost use Rattle.std.specs.Prelude.{◌≡◌, ◌<◌, ◌+◌, ℕ, true, length, IfOk, IfSome};
ghost use Rattle.crq_base.specs.Starts.{IsFirst};
ghost use Rattle.crq_rows.specs.Passes.{IsNew};
ghost use Rattle.crq_move_trials.specs.Moving.{AreNewPlaces, HasEntered, MayHelp};

use crq_base::{Announce, Control, Event, First};
use crq_current::{EPOCHS_END, current_step};
use crq_list::{InsertEnd, InsertOp, ListAt, Progress, control_step, head_of};
use crq_move::{HelpEnd, HelpOp, announce};
use crq_rows::{Pass, Passes, Seating, Table, confirm_step, enter_step, epoch_step, passes};
use crq_rule::{Layout, open_table};
use std::alloc::{AllocError, Global};

/// More steps than one operation makes on any list here.
const STEPS: u32 = 4096;
/// The rows of a caller beyond those that a table adds: enough for the copies of all events.
const ROWS: u32 = 16;
/// The callers that put no event: one announces the new table, one looks on, and the others help.
pub(crate) const HELPERS: u32 = 6;

/// A caller: its help, while that is under way, and its pass.
pub(crate) type Helper = (Option<HelpOp>, Pass);

/// The event that the caller with this number puts at this time.
pub(crate) fn event_of(src: u32, time: u32) -> Event
    ensures { result ≡ record { time = time; src = src; seq = 0; dst = 1; load = time + 1 } }
{
    Event {
        time,
        src,
        seq: 0,
        dst: 1,
        load: u64::from(time) + 1,
    }
}

/// The pass of the last caller that has none yet.
pub(crate) fn next_pass(table: &Table, places: &mut Vec<Seating>) -> Option<Pass>
    requires { AreNewPlaces table.now places.old.items }
    ensures places { AreNewPlaces table.now places.new.items }
    ensures pass { IfSome result (λ pass. (j : ℕ) × IsNew table.now j pass) }
{
    match places.pop() {
        Some(Seating::Here(pass)) => Some(pass),
        _ => None,
    }
}

/// Turns the guard of a new pass on, and loads the control word and current. It answers the control word, unless no epochs
/// of current are left.
pub(crate) fn enter(table: &Table, pass: &mut Pass) -> Option<Control>
    requires { (j : ℕ) × IsNew table.now j pass.old }
    ensures { IfSome result (λ control. HasEntered table.now control pass.new) }
{
    let epoch = epoch_step(table, pass);
    enter_step(table, pass, epoch);
    confirm_step(table, pass);
    let control = control_step(table, pass);
    let current = current_step(table, pass, false);
    if current.epoch < EPOCHS_END {
        Some(control)
    } else {
        None
    }
}

/// Puts an event of the caller's own source at this time, and says whether it was linked.
fn put(table: &Table, pass: &mut Pass, control: &Control, time: u32) -> bool
    requires { HasEntered table.now control.now pass.old }
{
    let event = event_of(pass.number, time);
    let Some(row) = pass.free.front() else {
        return false;
    };
    let list = ListAt {
        generation: control.generation,
        head: head_of(control, &event),
    };
    let mut op = InsertOp::new(list, *row, event, None);
    for _ in 0..STEPS {
        match op.step(table, pass) {
            Progress::More => {}
            Progress::Done(end) => return end == InsertEnd::Linked,
        }
    }
    false
}

/// Puts events at these times, each by a caller of its own, from the last one on. It says whether all were linked.
fn put_all(table: &Table, places: &mut Vec<Seating>, times: &[u32]) -> bool
    requires { AreNewPlaces table.now places.old.items }
    ensures { AreNewPlaces table.now places.new.items }
{
    for time in times {
        let Some(mut pass) = next_pass(table, places) else {
            return false;
        };
        let Some(control) = enter(table, &mut pass) else {
            return false;
        };
        if !put(table, &mut pass, &control, *time) {
            return false;
        }
    }
    true
}

/// A table that may move and starts so, and the passes of so many callers, which have made no step.
pub(crate) fn table_for(
    alloc: Global,
    workers: u32,
    first: First,
) -> Result<(Table, Vec<Seating>), AllocError>
    requires workers { (0 < workers) × (workers < 17) }
    requires first { IsFirst first }
    ensures places { IfOk result (λ made. AreNewPlaces made.0 made.1.items) }
    ensures moves { IfOk result (λ made. made.0.start.moves ≡ true) }
{
    let layout = Layout::of(workers, ROWS);
    let (table, all) = passes(open_table(alloc, &layout, first, true)?);
    let Passes { places } = all;
    Ok((table, places))
}

/// What a new caller is answered that announces that the table moves into one of 2^log lists, whose buckets are 2^shift
/// ticks wide.
pub(crate) fn announces(table: &Table, mut pass: Pass, log: u32, shift: u32) -> Announce
    requires new { (j : ℕ) × IsNew table.now j pass }
    requires moves { table.now.start.moves ≡ true }
    requires log { log < 16 }
    requires shift { shift < 32 }
{
    announce(table, &mut pass, log, shift)
}

/// Whether a new caller sets such a table.
pub(crate) fn sets(table: &Table, pass: Pass, log: u32, shift: u32) -> bool
    requires new { (j : ℕ) × IsNew table.now j pass }
    requires moves { table.now.start.moves ≡ true }
    requires log { log < 16 }
    requires shift { shift < 32 }
{
    matches!(announces(table, pass, log, shift), Announce::Set(_))
}

/// A table in which events stand at these times, and that was announced to move into one of 2^log lists, whose buckets are
/// 2^shift ticks wide; and the passes of the callers that may help.
pub(crate) fn announced(
    alloc: Global,
    times: &[u32],
    log: u32,
    shift: u32,
) -> Result<Option<(Table, Vec<Seating>)>, AllocError>
    requires few { length times.now < 11 }
    requires log { log < 16 }
    requires shift { shift < 32 }
    ensures places { IfOk result (λ made. IfSome made (λ pair. AreNewPlaces pair.0 pair.1.items)) }
    ensures moves { IfOk result (λ made. IfSome made (λ pair. pair.0.start.moves ≡ true)) }
{
    let workers = times.len() as u32 + HELPERS;
    let (table, mut places) = table_for(alloc, workers, First::of_program())?;
    if !put_all(&table, &mut places, times) {
        return Ok(None);
    }
    let Some(pass) = next_pass(&table, &mut places) else {
        return Ok(None);
    };
    if sets(&table, pass, log, shift) {
        Ok(Some((table, places)))
    } else {
        Ok(None)
    }
}

/// The next caller, at the begin of its help.
pub(crate) fn helper(table: &Table, places: &mut Vec<Seating>) -> Option<Helper>
    requires { AreNewPlaces table.now places.old.items }
    ensures places { AreNewPlaces table.now places.new.items }
    ensures helper { IfSome result (λ helper. MayHelp table.now helper) }
{
    let mut pass = next_pass(table, places)?;
    let control = enter(table, &mut pass)?;
    if !control.moving || pass.debts.second_cut.is_some() {
        return None;
    }
    Some((Some(HelpOp::new(&control)), pass))
}

/// Makes a step of a helper, and answers how its help ended, where it did.
pub(crate) fn step(table: &Table, helper: &mut Helper) -> Option<HelpEnd>
    requires { MayHelp table.now helper.old }
    ensures { MayHelp table.now helper.new }
{
    let mut op = helper.0?;
    match op.step(table, &mut helper.1) {
        Progress::More => {
            helper.0 = Some(op);
            None
        }
        Progress::Done(end) => {
            helper.0 = None;
            Some(end)
        }
    }
}

/// Lets a helper go on to the end of its help, and answers that.
pub(crate) fn finish(table: &Table, helper: &mut Helper) -> Option<HelpEnd>
    requires { MayHelp table.now helper.old }
    ensures { MayHelp table.now helper.new }
{
    for _ in 0..STEPS {
        if let Some(end) = step(table, helper) {
            return Some(end);
        }
    }
    None
}

/// How a helper of the move with this control word is to end: it finds the table open into which that leads.
pub(crate) fn opened(control: &Control) -> Option<HelpEnd> {
    Some(HelpEnd::Steady(control.generation.saturating_add(1)))
}
