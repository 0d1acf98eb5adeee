//! One function for each kind of step on current.
ghost use Rattle.std.specs.Prelude.{◌≡◌, ◌+◌, ◌^◌, ◌<◌, ◌≤◌, MatchOption, Some};
ghost use Rattle.crq_base.specs.declared.kinds.StepKind.TheVariants.{CurrentLoad};
ghost use Rattle.crq_base.specs.Words.{IsControl, IsCurrent, current_word};
ghost use Rattle.crq_rule.specs.CurrentKinds.{next_position, lies_ahead, owed_position, MayView, MayRaise, MaySettle};
ghost use Rattle.crq_rule.specs.Moves.{FoundCurrent};
ghost use Rattle.crq_rows.specs.Passes.{caller, IsPassOf};
ghost use Rattle.crq_current.specs.Positions.{Viewed, Raised, ViewedOwed, SettledBack};

use crq_base::{Control, Current};
use crq_rows::{Pass, Table, exchange_as, exchange_seated, load_seated, load_turning};
use crq_rule::SettleDebt;
use std::marker::Brand;

/// The epoch of current from which on no event is put and no table announced, so that enough epochs are left to settle the
/// events that were put and to end the move: 2^32 - 64.
pub const EPOCHS_END: u32 = u32::MAX - 63;

/// Loads current. A take says that it is to walk: it loads current after its Begin, for the table whose control word it
/// found, and has read that table then. What the pass knew of a table before goes.
pub fn current_step(table: &Table, pass: &mut Pass, walks: bool) -> Current
    requires of { IsPassOf table.now pass.old }
    requires may { MayView (caller table.now pass.old).own (caller table.now pass.old).found.control walks }
    ensures { Viewed table.now pass.old pass.new walks result }
{
    let word = table.start.layout.current();
    let found = load_turning::<Brand, bool>(table, pass, word, &walks);
    position(found)
}

/// The position that packs into this word.
fn position(word: u64) -> Current
    ensures { IsCurrent result × (current_word result ≡ word) }
{
    Current {
        epoch: (word >> 32) as u32,
        tick: (word % (1 << 32)) as u32,
    }
}

/// Moves current from this position on to the next bucket of the table with the control word, where it still is there,
/// and answers whether it was. A take does so that found no present row of its bucket.
pub fn raise_step(
    table: &Table,
    pass: &mut Pass,
    control: &Control,
    from: Current,
    to: Current,
) -> bool
    requires of { IsPassOf table.now pass.old }
    requires may { MayRaise control.now from (caller table.now pass.old) }
    requires next { to ≡ next_position control.now from }
    ensures { Raised table.now pass.old pass.new control.now from result }
{
    let word = table.start.layout.current();
    let old = from.pack();
    let found = exchange_as::<Brand, Current>(table, pass, word, old, to.pack(), &from);
    found == old
}

/// The position at the bucket after this one's, in the table with the control word. None where no tick is left for it.
pub fn next_position(control: &Control, from: Current) -> Option<Current>
    requires { IsControl control.now }
    ensures { MatchOption result (2 ^ 32 ≤ (next_position control.now from).tick) (λ to. to ≡ next_position control.now from) }
{
    let bucket = u64::from(from.tick) >> control.shift;
    let tick = (bucket + 1) << control.shift;
    if tick > u64::from(u32::MAX) {
        return None;
    }
    Some(Current {
        tick: tick as u32,
        ..from
    })
}

/// Loads current for the event that the pass owes, which is settled with that where it lies in a later bucket than
/// current. Answers current, and whether the event is settled.
pub fn owed_step(table: &Table, pass: &mut Pass, debt: &SettleDebt) -> (Current, bool)
    requires of { IsPassOf table.now pass.old }
    requires owes { (caller table.now pass.old).debts.settle ≡ Some debt.now }
    requires shift { debt.now.shift < 2 ^ 5 }
    ensures { ViewedOwed table.now pass.old pass.new debt.now result.0 result.1 }
{
    let word = table.start.layout.current();
    let found = load_seated::<Brand, SettleDebt>(table, pass, word, debt);
    let current = position(found);
    let ahead = lies_ahead(debt, current);
    if ahead {
        pass.debts.settle = None;
    }
    (current, ahead)
}

/// Whether the event lies in a later bucket than current.
fn lies_ahead(debt: &SettleDebt, current: Current) -> bool
    requires { debt.now.shift < 2 ^ 5 }
    ensures { result ≡ lies_ahead debt.now current }
{
    current.tick >> debt.shift < debt.event.time >> debt.shift
}

/// Moves current from this position back to the bucket of the event that the pass owes, where it still is there, and
/// answers whether it was. The event is settled then.
pub fn settle_step(
    table: &Table,
    pass: &mut Pass,
    debt: &SettleDebt,
    from: Current,
    to: Current,
) -> bool
    requires of { IsPassOf table.now pass.old }
    requires may { MaySettle debt.now from (caller table.now pass.old) }
    requires next { to ≡ owed_position debt.now from }
    ensures { SettledBack table.now pass.old pass.new debt.now from result }
{
    let word = table.start.layout.current();
    let old = from.pack();
    let found = exchange_seated::<Brand, (SettleDebt, Current)>(
        table,
        pass,
        word,
        old,
        to.pack(),
        &(*debt, from),
    );
    let won = found == old;
    if won {
        pass.debts.settle = None;
    }
    won
}

/// The position at the event's bucket, under the epoch after this one's.
pub fn owed_position(debt: &SettleDebt, from: Current) -> Current
    requires shift { debt.now.shift < 2 ^ 5 }
    requires room { from.epoch + 1 < 2 ^ 32 }
    ensures { result ≡ owed_position debt.now from }
{
    let debt = *debt;
    Current {
        epoch: from.epoch + 1,
        tick: debt.event.time >> debt.shift << debt.shift,
    }
}
