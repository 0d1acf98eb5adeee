//! One function for each kind of step on lists.
ghost use Rattle.std.specs.Prelude.{◌≡◌, Some, true};
ghost use Rattle.std.specs.VecDeque.{deque_capacity};
ghost use Rattle.crq_base.specs.declared.kinds.StepKind.TheVariants.{Begin, ControlLoad, Miss};
ghost use Rattle.crq_base.specs.declared.words.Control.{Control};
ghost use Rattle.crq_base.specs.declared.words.Mark.TheVariants.{Val};
ghost use Rattle.crq_base.specs.Words.{IsLink, IsControl};
ghost use Rattle.crq_rule.specs.Parts.{IsOn};
ghost use Rattle.crq_rule.specs.Places.{index, IsPlace};
ghost use Rattle.crq_rule.specs.Ranks.{at_row, cell_place, head_of};
ghost use Rattle.crq_rule.specs.ListKinds.{is_cell, MayWalk, MaySeek, MayLink, MayMark, MayCut, MayMiss, begins, misses, loads_control, unhanded};
ghost use Rattle.crq_rows.specs.Passes.{caller, IsPassOf};
ghost use Rattle.crq_list.specs.Spots.{cell, aim_of};
ghost use Rattle.crq_list.specs.Swaps.{Saw, MayOweCopy, LinkSwapped, CopySwapped, MarkSwapped, CutSwapped, Controlled};

use crate::parts::{Place, Spot};
use crq_base::{Control, Event, Link, Mark};
use crq_rows::{Pass, Table, exchange_as, exchange_seated, load_turning};
use crq_rule::{BANK, CopyDebt, CutDebt};
use std::collections::VecDeque;
use std::marker::Brand;

/// The word of the link that stands at this spot.
fn word_of(table: &Table, spot: Spot) -> usize
    requires { IsPlace table.now.start.layout (cell_place (cell spot)) }
    ensures { result ≡ index table.now.start.layout (cell_place (cell spot)) }
{
    match spot {
        Spot::Head(head) => table.start.layout.head(head as usize),
        Spot::Row(row) => table.start.layout.row_word(row, 0),
    }
}

/// Loads the link of a head, or of a row on which the pass stands. A take says what it walks.
pub(crate) fn walk_step(table: &Table, pass: &mut Pass, spot: Spot, taken: Option<Place>) -> Link
    requires of { IsPassOf table.now pass.old }
    requires on { IsOn (caller table.now pass.old).guard }
    requires may { MayWalk (caller table.now pass.old).position.rows (cell spot) }
    requires seek { MaySeek (caller table.now pass.old).sight (caller table.now pass.old).walk (cell spot) (aim_of taken) }
    ensures { Saw table.now pass.old pass.new (cell spot) (aim_of taken) result }
{
    let word = word_of(table, spot);
    let found = load_turning::<Brand, (Spot, Option<Place>)>(table, pass, word, &(spot, taken));
    Link::from_word(found)
}

/// Links a row in hand behind the spot, where its link is still this one, and answers whether it was. Then the caller owes
/// the event to be settled. The pass doesn't note that: whoever made the step does.
pub(crate) fn link_step(
    table: &Table,
    pass: &mut Pass,
    spot: Spot,
    link: Link,
    row: u32,
    event: &Event,
) -> bool
    requires of { IsPassOf table.now pass.old }
    requires may { (x : Control) × MayLink table.now.start.layout.workers x (cell spot) link row event.now (caller table.now pass.old) }
    ensures { (x : Control) → MayLink table.now.start.layout.workers x (cell spot) link row event.now (caller table.now pass.old) → LinkSwapped table.now pass.old pass.new (cell spot) link x row event.now result }
{
    let word = word_of(table, spot);
    let old = link.pack();
    let new = Link { row, ..link }.pack();
    let found = exchange_seated::<Brand, (Link, u32, Event)>(
        table,
        pass,
        word,
        old,
        new,
        &(link, row, *event),
    );
    let won = found == old;
    if won {
        forget(&mut pass.free, row);
    }
    won
}

/// Links a row in hand as a copy behind the spot, where its link is still this one, and answers whether it was. Then the
/// pass owes the copy.
pub(crate) fn copy_step(
    table: &Table,
    pass: &mut Pass,
    spot: Spot,
    link: Link,
    debt: &CopyDebt,
) -> bool
    requires of { IsPassOf table.now pass.old }
    requires may { MayOweCopy (cell spot) link debt.now (caller table.now pass.old) }
    ensures { CopySwapped table.now pass.old pass.new (cell spot) link debt.now result }
{
    let word = word_of(table, spot);
    let old = link.pack();
    let new = Link {
        row: debt.copy,
        ..link
    }
    .pack();
    let found = exchange_seated::<Brand, (Link, CopyDebt)>(
        table,
        pass,
        word,
        old,
        new,
        &(link, *debt),
    );
    let won = found == old;
    if won {
        forget(&mut pass.free, debt.copy);
        pass.debts.copy = Some(*debt);
    }
    won
}

/// Takes a row out of the free ones, of which it mostly is the first.
fn forget(free: &mut VecDeque<u32>, row: u32)
    ensures items { free.new.items ≡ unhanded row free.old.items }
    ensures room { deque_capacity free.new ≡ deque_capacity free.old }
{
    if free.front() == Some(&row) {
        free.pop_front();
        return;
    }
    for at in 0..free.len() {
        if free[at] == row {
            free.remove(at);
            return;
        }
    }
}

/// Marks dead the row that the pass's walk found to be the first, where its link is still this one, and answers whether it
/// was.
pub(crate) fn mark_step(
    table: &Table,
    pass: &mut Pass,
    control: &Control,
    row: u32,
    link: Link,
    event: &Event,
) -> bool
    requires of { IsPassOf table.now pass.old }
    requires bits { IsLink link }
    requires present { link.mark ≡ Val }
    requires may { MayMark control.now row event.now (caller table.now pass.old) }
    requires free { pass.old.debts.cut ≡ None }
    ensures { MarkSwapped table.now pass.old pass.new (at_row row) link control.now row event.now result }
{
    let word = word_of(table, Spot::Row(row));
    let old = link.pack();
    let dead = Link {
        mark: Mark::Del,
        ..link
    };
    let found = exchange_seated::<Brand, (Link, Control, u32, Event)>(
        table,
        pass,
        word,
        old,
        dead.pack(),
        &(link, *control, row, *event),
    );
    let won = found == old;
    if won {
        pass.debts.cut = Some(CutDebt {
            generation: control.generation,
            head: head_of(control, event),
            event: *event,
            row,
            front: false,
        });
    }
    won
}

/// The list of an event in the table with this control word, numbered over both banks.
pub fn head_of(control: &Control, event: &Event) -> u32
    requires { IsControl control.now }
    ensures { result ≡ head_of control.now event.now }
{
    control.generation % 2 * BANK + (event.time >> control.shift) % (1 << control.log)
}

/// Cuts the dead row that the link names out of the list, where the spot's link is still that one, and answers whether it
/// was. `last` is the dead row's own link.
pub(crate) fn cut_step(table: &Table, pass: &mut Pass, spot: Spot, link: Link, last: Link) -> bool
    requires of { IsPassOf table.now pass.old }
    requires bits { IsLink link }
    requires present { is_cell link.mark ≡ true }
    requires may { MayCut (cell spot) link.row last (caller table.now pass.old) }
    ensures { CutSwapped table.now pass.old pass.new (cell spot) link last result }
{
    let word = word_of(table, spot);
    let old = link.pack();
    let new = Link {
        row: last.row,
        ..link
    };
    let found = exchange_as::<Brand, (Link, Link)>(
        table,
        pass,
        word,
        old,
        new.pack(),
        &(link, last),
    );
    found == old
}

/// Loads the control word.
pub fn control_step(table: &Table, pass: &mut Pass) -> Control
    requires of { IsPassOf table.now pass.old }
    ensures { Controlled ControlLoad table.now pass.old pass.new loads_control result }
{
    let word = table.start.layout.control();
    let found = load_turning::<Brand, ()>(table, pass, word, &());
    Control::from_word(found)
}

/// Begins a call: it loads the control word, and adds a Begin to the history.
pub fn begin_step(table: &Table, pass: &mut Pass) -> Control
    requires of { IsPassOf table.now pass.old }
    ensures { Controlled Begin table.now pass.old pass.new begins result }
{
    let word = table.start.layout.control();
    let found = load_turning::<Brand, ()>(table, pass, word, &());
    Control::from_word(found)
}

/// Ends a take that found no event below the limit: it loads the control word, and adds a Miss to the history.
pub fn miss_step(table: &Table, pass: &mut Pass, limit: u64) -> Control
    requires of { IsPassOf table.now pass.old }
    requires may { MayMiss limit (caller table.now pass.old) }
    ensures { Controlled Miss table.now pass.old pass.new (misses limit) result }
{
    let word = table.start.layout.control();
    let found = load_turning::<Brand, u64>(table, pass, word, &limit);
    Control::from_word(found)
}
