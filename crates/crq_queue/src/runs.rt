//! The parts of a call: single operations, each made within the budget of exchanges that the call has left.
ghost use Rattle.std.specs.Prelude.{◌≡◌, ◌⊎◌, ◌<◌, ◌≤◌, ◌++◌, [], ◌∷◌, ℕ, false, Some, None, Ok, Err, Option, Result, MatchResult};
ghost use Rattle.crq_base.specs.declared.words.Control.{Control};
ghost use Rattle.crq_rule.specs.declared.view.Guard.TheVariants.{Off};
ghost use Rattle.crq_rows.specs.Passes.{caller, IsPassOf};
ghost use Rattle.crq_list.specs.Inserting.{IsInserting};
ghost use Rattle.crq_list.specs.Cutting.{IsCutting};
ghost use Rattle.crq_list.specs.Taking.{IsTaking};
ghost use Rattle.crq_queue.specs.Runs.{Ran, MayRun, IsInside};
ghost use Rattle.crq_queue.specs.Parts.{Entered, Left, CutRan, InsertRan, TakeRan, OwnRan, RecoverRan};

use crq_list::{CutEnd, CutOp, InsertEnd, InsertOp, MarkEnd, Progress, TakeOp};
use crq_rows::{
    Own, OwnOp, Pass, Recover, RecoverOp, Table, confirm_step, enter_step, epoch_step, leave_step,
};

/// The budget of exchanges is used up.
#[derive(Clone, Copy, Debug, PartialEq, Eq)]
pub(crate) struct Spent;

/// Turns the guard on.
#[inline(always)]
pub(crate) fn enter(table: &Table, pass: &mut Pass)
    requires of { IsPassOf table.now pass.old }
    requires off { (caller table.now pass.old).guard ≡ Off }
    ensures { (n budget : ℕ) → MayRun table.now n budget pass.old → Entered table.now n budget pass.old pass.new }
{
    let epoch = epoch_step(table, pass);
    enter_step(table, pass, epoch);
    confirm_step(table, pass);
}

/// Turns the guard off.
#[inline(always)]
pub(crate) fn leave(table: &Table, pass: &mut Pass)
    requires of { IsPassOf table.now pass.old }
    requires cut { (caller table.now pass.old).cut ≡ None }
    requires copy { pass.old.debts.copy ≡ None }
    ensures { (n budget : ℕ) → MayRun table.now n budget pass.old → Left table.now n budget pass.old pass.new }
{
    leave_step(table, pass);
}

/// Makes a cut, unless the budget ends before it.
#[inline(always)]
pub(crate) fn cut_within(
    table: &Table,
    pass: &mut Pass,
    op: CutOp,
    budget: u32,
) -> Result<(), Spent>
    requires of { IsPassOf table.now pass.old }
    requires still { table.now.start.moves ≡ false }
    requires within { pass.old.turns ≤ budget }
    requires op { (n : ℕ) × (x : Control) × IsCutting n table.now x op (caller table.now pass.old) }
    ensures { (n : ℕ) (x : Control) → IsCutting n table.now x op (caller table.now pass.old) → CutRan table.now n budget x op pass.old pass.new result }
{
    let mut op = op;
    while !op.exchanges() || pass.turns < budget {
        match op.run(table, pass) {
            Progress::More => {}
            Progress::Done(CutEnd::Clean) => return Ok(()),
            Progress::Done(CutEnd::Frozen) => unreachable!(),
        }
    }
    Err(Spent)
}

/// Makes an insertion, unless the budget ends before it.
#[inline(always)]
pub(crate) fn insert_within(
    table: &Table,
    pass: &mut Pass,
    op: InsertOp,
    budget: u32,
) -> Result<(), Spent>
    requires of { IsPassOf table.now pass.old }
    requires still { table.now.start.moves ≡ false }
    requires within { pass.old.turns ≤ budget }
    requires op { (n : ℕ) × (x : Control) × IsInserting n table.now x op (caller table.now pass.old) }
    ensures { (n : ℕ) (x : Control) → IsInserting n table.now x op (caller table.now pass.old) → InsertRan table.now n budget x op pass.old pass.new result }
{
    let mut op = op;
    while !op.exchanges() || pass.turns < budget {
        match op.run(table, pass) {
            Progress::More => {}
            Progress::Done(InsertEnd::Linked) => return Ok(()),
            Progress::Done(InsertEnd::Frozen) => unreachable!(),
        }
    }
    Err(Spent)
}

/// Makes a take from the list, unless the budget ends before it.
#[inline(always)]
pub(crate) fn take_within(
    table: &Table,
    pass: &mut Pass,
    op: TakeOp,
    budget: u32,
) -> Result<MarkEnd, Spent>
    requires of { IsPassOf table.now pass.old }
    requires still { table.now.start.moves ≡ false }
    requires within { pass.old.turns ≤ budget }
    requires free { pass.old.debts.cut ≡ None }
    requires op { (n : ℕ) × (x : Control) × IsTaking n table.now x op (caller table.now pass.old) }
    ensures { (n : ℕ) (x : Control) → IsTaking n table.now x op (caller table.now pass.old) → TakeRan table.now n budget x op pass.old pass.new result }
{
    let mut op = op;
    while !op.exchanges() || pass.turns < budget {
        match op.run(table, pass) {
            Progress::More => {}
            Progress::Done(end) => return Ok(end),
        }
    }
    Err(Spent)
}

/// The first free row of the pass, or a ripe one. None is Empty.
#[inline(always)]
pub(crate) fn own_row(table: &Table, pass: &mut Pass) -> Option<u32>
    requires of { IsPassOf table.now pass.old }
    ensures { (n budget : ℕ) → MayRun table.now n budget pass.old → OwnRan table.now n budget pass.old pass.new result }
{
    let mut op = OwnOp::new();
    loop {
        match op.step(table, pass) {
            Own::More => {}
            Own::Row(row) => return Some(row),
            Own::Empty => return None,
        }
    }
}

/// Makes a recovery of rows, unless the budget ends before it.
pub(crate) fn recover_within(table: &Table, pass: &mut Pass, budget: u32) -> Result<Recover, Spent>
    requires of { IsPassOf table.now pass.old }
    requires off { (caller table.now pass.old).guard ≡ Off }
    requires within { pass.old.turns ≤ budget }
    ensures { (n : ℕ) → MayRun table.now n budget pass.old → RecoverRan table.now n budget pass.old pass.new result }
{
    let mut op = RecoverOp::new();
    while !op.exchanges(table) || pass.turns < budget {
        match op.step(table, pass) {
            Recover::More => {}
            end => return Ok(end),
        }
    }
    Err(Spent)
}
