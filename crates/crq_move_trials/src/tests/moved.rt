//! What a move leaves in the lists of both tables.
ghost use Rattle.std.specs.Prelude.{◌<◌, ◌≤◌, ◌^◌, IfSome};
ghost use Rattle.crq_base.specs.Words.{IsControl};
ghost use Rattle.crq_move_trials.specs.Moving.{AreNewPlaces};
ghost use Rattle.crq_move_trials.specs.Looking.{IsLooker, HasCome};

use crate::tests::helping::{enter, event_of, next_pass};
use crq_base::{Control, Event, Link, Mark};
use crq_move::{head_step, row_step};
use crq_rows::{Pass, Seating, Table, read_step};
use crq_rule::BANK;
use std::alloc::{AllocError, Global};

/// More rows than any list here has.
const ROWS: u32 = 1024;

/// The next caller, with its guard on, and the control word that it found.
pub(crate) fn looker(table: &Table, places: &mut Vec<Seating>) -> Option<(Pass, Control)>
    requires { AreNewPlaces table.now places.old.items }
    ensures places { AreNewPlaces table.now places.new.items }
    ensures looker { IfSome result (λ made. IsLooker table.now made.0 × IsControl made.1) }
{
    let mut pass = next_pass(table, places)?;
    let control = enter(table, &mut pass)?;
    Some((pass, control))
}

/// The lists of a table with 2^log of them.
fn lists(log: u32) -> u32
    requires { log < 2 ^ 4 }
    ensures { result ≤ 32768 }
{
    BANK.min(1 << log)
}

/// The link of the head of a list, in a table of this generation.
fn first(table: &Table, pass: &mut Pass, generation: u32, list: u32) -> Link
    requires looker { IsLooker table.now pass.old }
    requires list { list < 32768 }
    ensures looker { IsLooker table.now pass.new }
    ensures come { HasCome table.now result.row pass.new }
{
    head_step(table, pass, generation % 2 * BANK + list)
}

/// The link of a row on which the pass stands.
fn next(table: &Table, pass: &mut Pass, row: u32) -> Link
    requires looker { IsLooker table.now pass.old }
    requires some_row { 0 < row }
    requires come { HasCome table.now row pass.old }
    ensures looker { IsLooker table.now pass.new }
    ensures come { HasCome table.now result.row pass.new }
{
    row_step(table, pass, row)
}

/// A word of the event of a row on which the pass stands.
fn word_of(table: &Table, pass: &mut Pass, row: u32, place: u32) -> u64
    requires looker { IsLooker table.now pass.old }
    requires some_row { 0 < row }
    requires come { HasCome table.now row pass.old }
    requires place { (2 ≤ place) × (place < 6) }
    ensures looker { IsLooker table.now pass.new }
    ensures come { HasCome table.now row pass.new }
{
    read_step(table, pass, row, place)
}

/// The event of a row on which the pass stands.
fn event_in(table: &Table, pass: &mut Pass, row: u32) -> Event
    requires looker { IsLooker table.now pass.old }
    requires some_row { 0 < row }
    requires come { HasCome table.now row pass.old }
    ensures looker { IsLooker table.now pass.new }
    ensures come { HasCome table.now row pass.new }
{
    let when = word_of(table, pass, row, 2);
    Event {
        time: (when >> 32) as u32,
        dst: (when % (1 << 32)) as u32,
        src: (word_of(table, pass, row, 3) % (1 << 32)) as u32,
        seq: word_of(table, pass, row, 4),
        load: word_of(table, pass, row, 5),
    }
}

/// Whether each list of the table that moves is frozen and empty.
fn are_emptied(table: &Table, pass: &mut Pass, control: &Control) -> bool
    requires looker { IsLooker table.now pass.old }
    requires control { IsControl control.now }
    ensures { IsLooker table.now pass.new }
{
    for list in 0..lists(control.log) {
        let link = first(table, pass, control.generation, list);
        if link.mark != Mark::Mov || link.row != 0 {
            return false;
        }
    }
    true
}

/// Adds what a list of the new table holds: its number, with the event of each valid row, in order.
fn walk(
    table: &Table,
    pass: &mut Pass,
    control: &Control,
    list: u32,
    found: &mut Vec<(u32, Event)>,
) -> Result<(), AllocError>
    requires looker { IsLooker table.now pass.old }
    requires control { IsControl control.now }
    requires list { list < 32768 }
    ensures { IsLooker table.now pass.new }
{
    let mut row = first(table, pass, control.generation + 1, list).row;
    for _ in 0..ROWS {
        if row == 0 {
            return Ok(());
        }
        let event = event_in(table, pass, row);
        let link = next(table, pass, row);
        if link.mark == Mark::Val {
            found.push((list, event))?;
        }
        row = link.row;
    }
    Ok(())
}

/// What all lists of the new table hold.
fn carried(
    alloc: Global,
    table: &Table,
    pass: &mut Pass,
    control: &Control,
) -> Result<Vec<(u32, Event)>, AllocError>
    requires looker { IsLooker table.now pass.old }
    requires control { IsControl control.now }
    ensures { IsLooker table.now pass.new }
{
    let mut found = Vec::new(alloc);
    for list in 0..lists(control.new_log) {
        walk(table, pass, control, list, &mut found)?;
    }
    Ok(found)
}

/// What they are to hold, where events were put at these times: each once, in the list of its bucket, in order. The
/// callers put them from the last one on, of which there are so many.
fn to_carry(
    alloc: Global,
    control: &Control,
    callers: u32,
    times: &[u32],
) -> Result<Vec<(u32, Event)>, AllocError>
    requires { IsControl control.now }
{
    let mut all = Vec::new(alloc);
    let mut src = callers;
    for time in times {
        src = src.saturating_sub(1);
        let list = (*time >> control.new_shift) % (1 << control.new_log);
        all.push((list, event_of(src, *time)))?;
    }
    all.as_mut_slice().sort_unstable();
    Ok(all)
}

/// Whether all was moved: the lists of the table that moves are frozen and empty, and each event that was put at one of
/// these times stands once in the new lists.
pub(crate) fn is_moved(
    alloc: Global,
    table: &Table,
    looker: &mut Pass,
    control: &Control,
    times: &[u32],
) -> Result<bool, AllocError>
    requires looker { IsLooker table.now looker.old }
    requires control { IsControl control.now }
    ensures { IsLooker table.now looker.new }
{
    let found = carried(alloc, table, looker, control)?;
    let all = to_carry(alloc, control, table.start.layout.workers, times)?;
    Ok(are_emptied(table, looker, control) && found == all)
}
