//! The calls that put and settle, each within a budget of exchanges.
ghost use Rattle.std.specs.Prelude.{◌≡◌, ◌≤◌, ℕ, Some, None, true};
ghost use Rattle.crq_base.specs.Lists.{In};
ghost use Rattle.crq_base.specs.Sources.{IsFresh};
ghost use Rattle.crq_rule.specs.Ranks.{shape_of};
ghost use Rattle.crq_rule.specs.ListKinds.{owed_event};
ghost use Rattle.crq_rows.specs.Passes.{caller, IsPassOf};
ghost use Rattle.crq_list.specs.Inserting.{IsInserting};
ghost use Rattle.crq_base.specs.declared.words.Control.{Control};
ghost use Rattle.crq_queue.specs.Wholes.{IsResting};
ghost use Rattle.crq_queue.specs.Runs.{MayRun};
ghost use Rattle.crq_queue.specs.Calls.{PutAnswers, SettleAnswers, OwesNothing, call};
ghost use Rattle.crq_queue.specs.Stages.{EventInserted, EventNoted};

use crate::calendar::Calendar;
use crate::runs::{Spent, enter, insert_within, leave};
use crate::settling::{debt_of, list_of};
use crq_base::{Control, Event, PutEnd, Refusal};
use crq_current::{EPOCHS_END, current_step};
use crq_list::InsertOp;
use crq_rows::Pass;
use crq_rule::SettleDebt;

impl Calendar {
    /// Makes this insertion while the guard is on, and notes the event as owed.
    #[inline(always)]
    fn insert_noted(
        &self,
        pass: &mut Pass,
        op: InsertOp,
        debt: &SettleDebt,
        budget: u32,
    ) -> Result<(), Spent>
        requires of { IsPassOf self.now.table pass.old }
        requires within { pass.old.turns ≤ budget }
        requires op { (n : ℕ) × (x : Control) × IsInserting n self.now.table x op (caller self.now.table pass.old) × (debt.now ≡ owed_event x.generation (shape_of x) op.event) }
        ensures { (n : ℕ) (x : Control) → IsInserting n self.now.table x op (caller self.now.table pass.old) → debt.now ≡ owed_event x.generation (shape_of x) op.event
            → EventNoted self.now.table n budget x op debt.now pass.old pass.new result }
    {
        insert_within(&self.table, pass, op, budget)?;
        pass.debts.settle = Some(*debt);
        Ok(())
    }

    /// Links an event into its list of the table with this control word, owes it from then on, and rests.
    #[inline(always)]
    fn insert(
        &self,
        pass: &mut Pass,
        control: &Control,
        row: u32,
        event: &Event,
        budget: u32,
    ) -> Result<(), Spent>
        requires rests { IsResting self.now.table pass.old }
        requires control { (caller self.now.table pass.old).found.control ≡ Some control.now }
        requires settled { pass.old.debts.settle ≡ None }
        requires permit { (caller self.now.table pass.old).permit ≡ true }
        requires held { In row (caller self.now.table pass.old).hand }
        requires fresh { IsFresh self.now.table.start.layout.workers (caller self.now.table pass.old).deal.history (caller self.now.table pass.old).own
            (caller self.now.table pass.old).deal.span pass.old.number event.now }
        requires within { pass.old.turns ≤ budget }
        ensures { (n : ℕ) → MayRun self.now.table n budget pass.old → EventInserted self.now.table n budget control.now event.now pass.old pass.new result }
    {
        enter(&self.table, pass);
        let op = InsertOp::new(list_of(control, event), row, *event, None);
        let end = self.insert_noted(pass, op, &debt_of(control, event), budget);
        leave(&self.table, pass);
        end
    }

    /// Puts an event within a budget of exchanges. It first finishes what the pass owes, an event to settle and then a dead row
    /// to cut, which adds the Settled of that event, and only then begins. `Settled`: the entries that it adds since are a Begin,
    /// the Put and its Settled, and the pass owes nothing afterwards. `Owed`: they are a Begin and the Put. The budget is used
    /// up and one more exchange is needed to settle the event, and the pass owes just that event afterwards.
    ///
    /// Where the budget ends before what was owed is finished, Again comes, no Begin was added, and the pass still owes what
    /// isn't finished. After any other refusal the Begin alone was added, and the pass owes nothing: Epochs comes where the call
    /// then found current's epoch at 2^32 - 64 or above, before anything was linked; Again where the budget is used up and one
    /// more exchange is needed to cut a dead row, to recover a row or to insert the event. Where this call found
    /// no row free or ripe it cuts the dead rows of all lists, and then raises the epoch: Held comes where it found a caller
    /// that keeps the epoch, Rows where it found no row ripe after the epoch rose three times. Then twice
    /// the number of events that were pending when the first of these three ticks loaded the epoch is at least the number of
    /// the caller's rows, and the pass keeps these events for `gather`.
    pub fn try_put(&self, pass: &mut Pass, event: &Event, budget: u32) -> Result<PutEnd, Refusal>
        requires rests { IsResting self.now.table pass.old }
        requires budget { 1 ≤ budget }
        requires fresh { IsFresh self.now.table.start.layout.workers (caller self.now.table pass.old).deal.history (caller self.now.table pass.old).own
            (caller self.now.table pass.old).deal.span pass.old.number event.now }
        ensures { PutAnswers (call self.now.table budget pass.old) event.now pass.new result }
    {
        let again = Refusal::Again { turns: budget };
        let Ok(control) = self.begin(pass, budget) else {
            return Err(again);
        };
        if current_step(&self.table, pass, false).epoch >= EPOCHS_END {
            return Err(Refusal::Epochs);
        }
        let row = self.free_row(pass, &control, budget)?;
        match self.insert(pass, &control, row, event, budget) {
            Ok(()) => match self.settle_event(pass, &debt_of(&control, event), budget) {
                Ok(()) => Ok(PutEnd::Settled),
                Err(Spent) => Ok(PutEnd::Owed),
            },
            Err(Spent) => Err(again),
        }
    }

    /// Finishes what the pass owes within a budget of exchanges, and nothing else: an event to settle, and then a dead row to
    /// cut. It adds the Settled of that event, and no other entry. Where the pass owes nothing it makes no step. Its one refusal
    /// is Again, where the budget is used up and one more exchange is needed for the event, or, once that is settled, for the
    /// row: the pass still owes it.
    pub fn try_settle(&self, pass: &mut Pass, budget: u32) -> Result<(), Refusal>
        requires rests { IsResting self.now.table pass.old }
        requires budget { 1 ≤ budget }
        ensures answers { SettleAnswers (call self.now.table budget pass.old) pass.new result }
        ensures idle { OwesNothing pass.old → caller self.now.table pass.new ≡ caller self.now.table pass.old }
    {
        pass.turns = 0;
        let again = Refusal::Again { turns: budget };
        match self.settle(pass, budget) {
            Ok(()) => Ok(()),
            Err(Spent) => Err(again),
        }
    }
}
