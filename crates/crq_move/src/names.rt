//! The dead rows that a pass names at run time: once one more is owed, and once some turned out not to be owed any more.
ghost use Rattle.std.specs.Prelude.{◌≡◌, None};
ghost use Rattle.crq_rule.specs.Core.{moved_up, names_of, renamed};
ghost use Rattle.crq_rule.specs.ListKinds.{unnamed, unnamed_row};
ghost use Rattle.crq_rule.specs.CopyKinds.{named_too};
ghost use Rattle.crq_move.specs.Names.{unfronted, unfronted_names, without_lost};

use crq_rule::{CutDebt, Debts};

/// With one dead row more. It needs room for that.
pub(crate) fn name_too(debts: &mut Debts, name: CutDebt)
    requires { debts.old.second_cut ≡ None }
    ensures { debts.new ≡ renamed debts.old (named_too name (names_of debts.old)) }
{
    if debts.cut.is_some() {
        debts.second_cut = Some(name);
    } else {
        debts.cut = Some(name);
    }
}

/// With these names. Where the first is gone, the second moves up.
fn rename(debts: &mut Debts, first: Option<CutDebt>, second: Option<CutDebt>)
    ensures { debts.new ≡ renamed debts.old (moved_up first second) }
{
    if first.is_some() {
        debts.cut = first;
        debts.second_cut = second;
    } else {
        debts.cut = second;
        debts.second_cut = None;
    }
}

/// The name, unless it is of this row.
fn unnamed(name: Option<CutDebt>, row: u32) -> Option<CutDebt>
    ensures { result ≡ unnamed row name }
{
    let name = name?;
    if name.row == row {
        return None;
    }
    Some(name)
}

/// Without this row, which was cut.
pub(crate) fn forget_row(debts: &mut Debts, row: u32)
    ensures { debts.new ≡ renamed debts.old (unnamed_row row (names_of debts.old)) }
{
    rename(
        debts,
        unnamed(debts.cut, row),
        unnamed(debts.second_cut, row),
    );
}

/// The name, unless it is of a first row of this head that is another one.
fn unfronted(name: Option<CutDebt>, head: u32, row: u32) -> Option<CutDebt>
    ensures { result ≡ unfronted head row name }
{
    let name = name?;
    if name.front && name.head == head && row != name.row {
        return None;
    }
    Some(name)
}

/// Without the first rows of this head that are others than this one, which the head names now: they were cut.
pub(crate) fn forget_front(debts: &mut Debts, head: u32, row: u32)
    ensures { debts.new ≡ renamed debts.old (unfronted_names head row (names_of debts.old)) }
{
    rename(
        debts,
        unfronted(debts.cut, head, row),
        unfronted(debts.second_cut, head, row),
    );
}

/// Without the name that came last, which was cut: the second, or the only one.
pub(crate) fn forget_lost(debts: &mut Debts)
    ensures { debts.new ≡ renamed debts.old (without_lost (names_of debts.old)) }
{
    if debts.second_cut.is_some() {
        debts.second_cut = None;
    } else {
        debts.cut = None;
    }
}
