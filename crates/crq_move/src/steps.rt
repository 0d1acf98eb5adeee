//! One function for each kind of step that moves a table.
ghost use Rattle.std.specs.Prelude.{◌≡◌, ◌==◌, ◌+◌, ◌^◌, ◌<◌, cond, Some, None};
ghost use Rattle.crq_base.specs.declared.event.Event.{Event};
ghost use Rattle.crq_base.specs.declared.kinds.StepKind.TheVariants.{Prepare, FreezeHead, FreezeNode, Pop, TwinLoad, Validate, Discard};
ghost use Rattle.crq_base.specs.declared.words.Mark.TheVariants.{Mov};
ghost use Rattle.crq_base.specs.Words.{IsLink, link_word};
ghost use Rattle.crq_rule.specs.Parts.{IsOn};
ghost use Rattle.crq_rule.specs.Places.{IsHead, index, head, link, twin};
ghost use Rattle.crq_rule.specs.Ranks.{at_head, at_row};
ghost use Rattle.crq_rule.specs.ListKinds.{no_take, cuts, StandsOn};
ghost use Rattle.crq_rule.specs.MoveKinds.{MayAnnounce, MayPrepare, MayFreezeHead, MayFreezeRow, MayPop, prepared_link, frozen_link, freezes_row};
ghost use Rattle.crq_rule.specs.CopyKinds.{MayTwin, MayValidate, MayDrop, MayDiscard, loads_twin, finds_twin, valid_link, validates, dead_link, discards, lost_name, front_name};
ghost use Rattle.crq_rule.specs.Moves.{TellsTwin};
ghost use Rattle.crq_rows.specs.Passes.{caller, IsPassOf, Stepped, load_made};
ghost use Rattle.crq_list.specs.Swaps.{Saw};
ghost use Rattle.crq_move.specs.Names.{names_lost};
ghost use Rattle.crq_move.specs.Steps.{Announced, HeadLeft, WordLeft, CopyFound, Bound};

use crate::names::name_too;
use crq_base::{Control, Event, Link, Mark};
use crq_rows::{
    Pass, Table, exchange_as, exchange_seated, exchange_turning, load_as, load_seated, load_turning,
};
use crq_rule::{CopyDebt, CutDebt};
use std::marker::Brand;

/// Announces that the table moves into one with 2^log lists, whose buckets are 2^shift ticks wide, where the control word
/// still is the one found. Where it isn't, the answer is the control word that was found instead.
pub fn announce_step(
    table: &Table,
    pass: &mut Pass,
    found: &Control,
    log: u32,
    shift: u32,
) -> Result<(), Control>
    requires of { IsPassOf table.now pass.old }
    requires may { MayAnnounce found.now log shift (caller table.now pass.old) }
    ensures { Announced table.now pass.old pass.new found.now log shift result }
{
    let word = table.start.layout.control();
    let old = found.pack();
    let next = Control {
        moving: true,
        new_log: log,
        new_shift: shift,
        ..*found
    };
    let seen = exchange_turning::<Brand, (Control, u32, u32)>(
        table,
        pass,
        word,
        old,
        next.pack(),
        &(*found, log, shift),
    );
    if seen == old {
        return Ok(());
    }
    Err(Control::from_word(seen))
}

/// Loads the link of a head.
pub fn head_step(table: &Table, pass: &mut Pass, head: u32) -> Link
    requires of { IsPassOf table.now pass.old }
    requires on { IsOn (caller table.now pass.old).guard }
    requires head { IsHead head }
    ensures { Saw table.now pass.old pass.new (at_head head) no_take result }
{
    let word = table.start.layout.head(head as usize);
    let found = load_turning::<Brand, u32>(table, pass, word, &head);
    Link::from_word(found)
}

/// Opens a head of the new table, where its link still is this one, and answers whether it was.
pub fn prepare_step(
    table: &Table,
    pass: &mut Pass,
    control: &Control,
    head: u32,
    link: Link,
) -> bool
    requires of { IsPassOf table.now pass.old }
    requires bits { IsLink link }
    requires may { MayPrepare control.now head link (caller table.now pass.old) }
    requires room { control.now.generation + 1 < 2 ^ 30 }
    ensures { HeadLeft Prepare table.now pass.old pass.new head link (prepared_link control.now) result }
{
    let word = table.start.layout.head(head as usize);
    let old = link.pack();
    let open = Link {
        mark: Mark::Val,
        row: 0,
        generation: control.generation + 1,
    };
    let found = exchange_as::<Brand, (Control, u32, Link)>(
        table,
        pass,
        word,
        old,
        open.pack(),
        &(*control, head, link),
    );
    found == old
}

/// Freezes a head of the table that moves, where its link still is this one, and answers whether it was.
pub fn freeze_head_step(
    table: &Table,
    pass: &mut Pass,
    control: &Control,
    head: u32,
    link: Link,
) -> bool
    requires of { IsPassOf table.now pass.old }
    requires bits { IsLink link }
    requires may { MayFreezeHead control.now head link (caller table.now pass.old) }
    ensures { HeadLeft FreezeHead table.now pass.old pass.new head link (frozen_link link) result }
{
    let word = table.start.layout.head(head as usize);
    let old = link.pack();
    let frozen = Link {
        mark: Mark::Mov,
        ..link
    };
    let found = exchange_as::<Brand, (Control, u32, Link)>(
        table,
        pass,
        word,
        old,
        frozen.pack(),
        &(*control, head, link),
    );
    found == old
}

/// Loads the link of a row on which the pass stands.
pub fn row_step(table: &Table, pass: &mut Pass, row: u32) -> Link
    requires of { IsPassOf table.now pass.old }
    requires on { (e : Event) × StandsOn (caller table.now pass.old).position.rows row e }
    ensures { Saw table.now pass.old pass.new (at_row row) no_take result }
{
    let word = table.start.layout.row_word(row, 0);
    let found = load_turning::<Brand, u32>(table, pass, word, &row);
    Link::from_word(found)
}

/// Freezes the first row of a frozen head, where its link still is this one, and answers whether it was.
pub fn freeze_row_step(table: &Table, pass: &mut Pass, row: u32, from: Link) -> bool
    requires of { IsPassOf table.now pass.old }
    requires bits { IsLink from }
    requires may { MayFreezeRow row from (caller table.now pass.old) }
    ensures { WordLeft FreezeNode table.now pass.old pass.new (index table.now.start.layout (link row)) (link_word from) (link_word (frozen_link from)) (freezes_row row from) pass.old.debts result }
{
    let word = table.start.layout.row_word(row, 0);
    let old = from.pack();
    let frozen = Link {
        mark: Mark::Mov,
        ..from
    };
    let found = exchange_as::<Brand, (u32, Link)>(
        table,
        pass,
        word,
        old,
        frozen.pack(),
        &(row, from),
    );
    found == old
}

/// Cuts the first row out of the list of a frozen head, where the head's link still is this one, and answers whether it was.
/// `last` is the row's own link.
pub fn pop_step(table: &Table, pass: &mut Pass, at: u32, from: Link, last: Link) -> bool
    requires of { IsPassOf table.now pass.old }
    requires bits { IsLink from }
    requires frozen { from.mark ≡ Mov }
    requires may { MayPop at from.row last (caller table.now pass.old) }
    ensures { WordLeft Pop table.now pass.old pass.new (index table.now.start.layout (head at)) (link_word from) (link_word (record from { row = last.row })) (cuts from.row) pass.old.debts result }
{
    let word = table.start.layout.head(at as usize);
    let old = from.pack();
    let next = Link {
        row: last.row,
        ..from
    };
    let found = exchange_as::<Brand, (u32, Link, Link)>(
        table,
        pass,
        word,
        old,
        next.pack(),
        &(at, from, last),
    );
    found == old
}

/// Loads the twin of a row that the pass found frozen, and answers it; 0 is none.
pub fn twin_step(table: &Table, pass: &mut Pass, row: u32) -> u32
    requires of { IsPassOf table.now pass.old }
    requires may { MayTwin row (caller table.now pass.old) }
    ensures stepped { Stepped table.now pass.old pass.new (load_made TwinLoad (index table.now.start.layout (twin row)) result) (loads_twin row result) }
    ensures told { TellsTwin result (caller table.now pass.old) }
{
    let word = table.start.layout.row_word(row, 1);
    load_as::<Brand, u32>(table, pass, word, &row) as u32
}

/// Loads the twin of the row whose copy the pass owes, and answers it; 0 is none.
pub fn owed_twin_step(table: &Table, pass: &mut Pass, debt: &CopyDebt) -> u32
    requires of { IsPassOf table.now pass.old }
    requires owes { (caller table.now pass.old).debts.copy ≡ Some debt.now }
    ensures stepped { Stepped table.now pass.old pass.new (load_made TwinLoad (index table.now.start.layout (twin debt.now.old)) result) (finds_twin debt.now result) }
    ensures told { TellsTwin result (caller table.now pass.old) }
{
    let word = table.start.layout.row_word(debt.old, 1);
    load_as::<Brand, CopyDebt>(table, pass, word, debt) as u32
}

/// Loads the link of the copy that the pass owes. Where it is dead, the pass owes it no more.
pub fn copy_link_step(table: &Table, pass: &mut Pass, debt: &CopyDebt) -> Link
    requires of { IsPassOf table.now pass.old }
    requires owes { (caller table.now pass.old).debts.copy ≡ Some debt.now }
    ensures { CopyFound table.now pass.old pass.new debt.now result }
{
    let word = table.start.layout.row_word(debt.copy, 0);
    let found = load_seated::<Brand, CopyDebt>(table, pass, word, debt);
    let link = Link::from_word(found);
    if let Mark::Del = link.mark {
        pass.debts.copy = None;
    }
    link
}

/// Binds the copy that the pass owes, where the old row has no twin, and answers the twin that was found: 0 where it was
/// bound. Then the pass owes it no more.
pub fn bind_step(table: &Table, pass: &mut Pass, debt: &CopyDebt) -> u32
    requires of { IsPassOf table.now pass.old }
    requires owes { (caller table.now pass.old).debts.copy ≡ Some debt.now }
    ensures { Bound table.now pass.old pass.new debt.now result }
{
    let word = table.start.layout.row_word(debt.old, 1);
    let found = exchange_seated::<Brand, CopyDebt>(
        table,
        pass,
        word,
        0,
        u64::from(debt.copy),
        debt,
    );
    if found == 0 {
        pass.debts.copy = None;
    }
    found as u32
}

/// Makes a bound copy valid, where its link still is this one, and answers whether it was.
pub fn validate_step(table: &Table, pass: &mut Pass, row: u32, from: Link) -> bool
    requires of { IsPassOf table.now pass.old }
    requires bits { IsLink from }
    requires may { MayValidate row from (caller table.now pass.old) }
    ensures { WordLeft Validate table.now pass.old pass.new (index table.now.start.layout (link row)) (link_word from) (link_word (valid_link from)) (validates row from) pass.old.debts result }
{
    let word = table.start.layout.row_word(row, 0);
    let old = from.pack();
    let valid = Link {
        mark: Mark::Val,
        ..from
    };
    let found = exchange_as::<Brand, (u32, Link)>(
        table,
        pass,
        word,
        old,
        valid.pack(),
        &(row, from),
    );
    found == old
}

/// Discards the copy that the pass owes, where its link still is this one, and answers whether it was. Then the pass owes it
/// to be cut.
pub fn drop_step(table: &Table, pass: &mut Pass, debt: &CopyDebt, from: Link) -> bool
    requires of { IsPassOf table.now pass.old }
    requires bits { IsLink from }
    requires may { MayDrop debt.now from (caller table.now pass.old) }
    requires room { pass.old.debts.second_cut ≡ None }
    ensures { WordLeft Discard table.now pass.old pass.new (index table.now.start.layout (link debt.now.copy)) (link_word from) (link_word (dead_link from)) (discards debt.now.copy from (lost_name debt.now) None) (cond result (names_lost (lost_name debt.now) None pass.old.debts) pass.old.debts) result }
{
    let word = table.start.layout.row_word(debt.copy, 0);
    let old = from.pack();
    let dead = Link {
        mark: Mark::Del,
        ..from
    };
    let found = exchange_seated::<Brand, (CopyDebt, Link)>(
        table,
        pass,
        word,
        old,
        dead.pack(),
        &(*debt, from),
    );
    if found != old {
        return false;
    }
    pass.debts.copy = None;
    let lost = CutDebt {
        generation: debt.generation,
        head: debt.head,
        event: debt.event,
        row: debt.copy,
        front: false,
    };
    name_too(&mut pass.debts, lost);
    true
}

/// Discards a copy that is the first row of a frozen head, where its link still is this one, and answers whether it was.
/// Then the pass owes it to be cut.
pub fn discard_step(
    table: &Table,
    pass: &mut Pass,
    at: u32,
    row: u32,
    event: &Event,
    from: Link,
) -> bool
    requires of { IsPassOf table.now pass.old }
    requires bits { IsLink from }
    requires may { MayDiscard at row event.now from (caller table.now pass.old) }
    requires room { pass.old.debts.second_cut ≡ None }
    ensures { WordLeft Discard table.now pass.old pass.new (index table.now.start.layout (link row)) (link_word from) (link_word (dead_link from)) (discards row from (front_name at row event.now from) None) (cond result (names_lost (front_name at row event.now from) pass.old.debts.copy pass.old.debts) pass.old.debts) result }
{
    let word = table.start.layout.row_word(row, 0);
    let old = from.pack();
    let dead = Link {
        mark: Mark::Del,
        ..from
    };
    let found = exchange_seated::<Brand, (u32, u32, Event, Link)>(
        table,
        pass,
        word,
        old,
        dead.pack(),
        &(at, row, *event, from),
    );
    if found != old {
        return false;
    }
    let name = CutDebt {
        generation: from.generation,
        head: at,
        event: *event,
        row,
        front: true,
    };
    name_too(&mut pass.debts, name);
    true
}
