//! Finishing what a pass owes: an event that it put and that isn't settled yet, and then a dead row.
ghost use Rattle.std.specs.Prelude.{◌≡◌, ◌≤◌, ℕ, Some, None, is_some, true};
ghost use Rattle.crq_base.specs.declared.words.Control.{Control};
ghost use Rattle.crq_base.specs.Words.{IsControl};
ghost use Rattle.crq_rule.specs.Ranks.{head_of, shape_of};
ghost use Rattle.crq_rule.specs.ListKinds.{owed_event};
ghost use Rattle.crq_rows.specs.Passes.{IsPassOf};
ghost use Rattle.crq_queue.specs.Wholes.{IsResting};
ghost use Rattle.crq_queue.specs.Runs.{MayRun, IsInside};
ghost use Rattle.crq_queue.specs.Calls.{call};
ghost use Rattle.crq_queue.specs.Stages.{BeginAnswers, CutsDebt, CutFinished, DebtCut, DebtsSettled, EventFinished, EventSettled};

use crate::calendar::Calendar;
use crate::runs::{Spent, cut_within, enter, leave};
use crq_base::{Control, Event};
use crq_current::{owed_position, owed_step, settle_step};
use crq_list::{CutOp, ListAt, begin_step, control_step, head_of};
use crq_rows::Pass;
use crq_rule::SettleDebt;

/// The list of an event in the table with this control word.
#[inline(always)]
pub(crate) fn list_of(control: &Control, event: &Event) -> ListAt
    requires { IsControl control.now }
    ensures { (result.generation ≡ control.now.generation) × (result.head ≡ head_of control.now event.now) }
{
    ListAt {
        generation: control.generation,
        head: head_of(control, event),
    }
}

/// What a pass owes that put the event into the table with this control word, until the event is settled.
#[inline(always)]
pub(crate) fn debt_of(control: &Control, event: &Event) -> SettleDebt
    ensures { result ≡ owed_event control.now.generation (shape_of control.now) event.now }
{
    SettleDebt {
        event: *event,
        generation: control.generation,
        shift: control.shift,
    }
}

impl Calendar {
    /// Makes this cut, of the dead row that the pass owes, while its guard is on.
    #[inline(always)]
    pub(crate) fn cut_owed(&self, pass: &mut Pass, cut: CutOp, budget: u32) -> Result<(), Spent>
        requires of { IsPassOf self.now.table pass.old }
        requires within { pass.old.turns ≤ budget }
        requires owed { (n : ℕ) × (x : Control) × CutsDebt n self.now.table x cut pass.old }
        ensures { (n : ℕ) (x : Control) → MayRun self.now.table n budget pass.old → CutsDebt n self.now.table x cut pass.old → CutFinished self.now.table n budget x pass.old pass.new result }
    {
        cut_within(&self.table, pass, cut, budget)?;
        pass.debts.cut = None;
        Ok(())
    }

    /// Cuts the dead row that the pass owes, if it owes one, while its guard is on.
    #[inline(always)]
    fn finish_cut(&self, pass: &mut Pass, control: &Control, budget: u32) -> Result<(), Spent>
        requires of { IsPassOf self.now.table pass.old }
        requires inside { IsInside self.now.table control.now pass.old }
        requires one { pass.old.debts.second_cut ≡ None }
        requires within { pass.old.turns ≤ budget }
        ensures { (n : ℕ) → MayRun self.now.table n budget pass.old → CutFinished self.now.table n budget control.now pass.old pass.new result }
    {
        let Some(debt) = pass.debts.cut else {
            return Ok(());
        };
        let list = list_of(control, &debt.event);
        let cut = CutOp::new(list, Some((debt.event, debt.row)));
        self.cut_owed(pass, cut, budget)
    }

    /// Cuts the dead row that a resting pass owes. Since it is seldom called, it isn't inlined.
    #[inline(never)]
    fn settle_cut(&self, pass: &mut Pass, budget: u32) -> Result<(), Spent>
        requires rests { IsResting self.now.table pass.old }
        requires within { pass.old.turns ≤ budget }
        requires owes { is_some pass.old.debts.cut ≡ true }
        ensures { (n : ℕ) → MayRun self.now.table n budget pass.old → DebtCut self.now.table n budget pass.old pass.new result }
    {
        let control = control_step(&self.table, pass);
        enter(&self.table, pass);
        let end = self.finish_cut(pass, &control, budget);
        leave(&self.table, pass);
        end
    }

    /// Settles the event that a resting pass owes. A load of current settles it that finds it in a later bucket than
    /// current; else current goes back to the event's bucket, if a turn is left for that.
    #[inline(always)]
    pub(crate) fn settle_event(
        &self,
        pass: &mut Pass,
        debt: &SettleDebt,
        budget: u32,
    ) -> Result<(), Spent>
        requires rests { IsResting self.now.table pass.old }
        requires owes { pass.old.debts.settle ≡ Some debt.now }
        requires within { pass.old.turns ≤ budget }
        ensures { (n : ℕ) → MayRun self.now.table n budget pass.old → EventSettled self.now.table n budget debt.now pass.old pass.new result }
    {
        loop {
            let (current, settled) = owed_step(&self.table, pass, debt);
            if settled {
                return Ok(());
            }
            if pass.turns >= budget {
                return Err(Spent);
            }
            let back = owed_position(debt, current);
            if settle_step(&self.table, pass, debt, current, back) {
                return Ok(());
            }
        }
    }

    /// Settles the event that a resting pass owes, if it owes one.
    #[inline(always)]
    fn finish_event(&self, pass: &mut Pass, budget: u32) -> Result<(), Spent>
        requires rests { IsResting self.now.table pass.old }
        requires within { pass.old.turns ≤ budget }
        ensures { (n : ℕ) → MayRun self.now.table n budget pass.old → EventFinished self.now.table n budget pass.old pass.new result }
    {
        let Some(debt) = pass.debts.settle else {
            return Ok(());
        };
        self.settle_event(pass, &debt, budget)
    }

    /// Finishes what a resting pass owes.
    #[inline(always)]
    pub(crate) fn settle(&self, pass: &mut Pass, budget: u32) -> Result<(), Spent>
        requires rests { IsResting self.now.table pass.old }
        requires within { pass.old.turns ≤ budget }
        ensures { (n : ℕ) → MayRun self.now.table n budget pass.old → DebtsSettled self.now.table n budget pass.old pass.new result }
    {
        self.finish_event(pass, budget)?;
        if pass.debts.cut.is_none() {
            return Ok(());
        }
        self.settle_cut(pass, budget)
    }

    /// Begins a call: finishes what the pass owes, and only then loads the control word for the call's Begin.
    #[inline(always)]
    pub(crate) fn begin(&self, pass: &mut Pass, budget: u32) -> Result<Control, Spent>
        requires rests { IsResting self.now.table pass.old }
        ensures { BeginAnswers (call self.now.table budget pass.old) pass.new result }
    {
        pass.turns = 0;
        self.settle(pass, budget)?;
        Ok(begin_step(&self.table, pass))
    }
}
