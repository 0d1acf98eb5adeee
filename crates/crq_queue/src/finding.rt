//! A row for an event that is to be put.
ghost use Rattle.std.specs.Prelude.{◌≡◌, ◌≤◌, ℕ, Some};
ghost use Rattle.crq_base.specs.Words.{IsControl};
ghost use Rattle.crq_rows.specs.Passes.{caller, IsPassOf};
ghost use Rattle.crq_queue.specs.Wholes.{IsResting};
ghost use Rattle.crq_queue.specs.Runs.{MayRun, IsInside};
ghost use Rattle.crq_queue.specs.Stages.{ListsSwept, SweepEnded, RowFound};

use crate::calendar::Calendar;
use crate::runs::{Spent, cut_within, enter, leave, own_row, recover_within};
use crq_base::{Control, Refusal};
use crq_list::{CutOp, ListAt};
use crq_rows::{Pass, Recover};
use crq_rule::BANK;

impl Calendar {
    /// Cuts the dead rows of each list of the table with this control word in turn, while the guard is on.
    fn sweep_lists(&self, pass: &mut Pass, control: &Control, budget: u32) -> Result<(), Spent>
        requires of { IsPassOf self.now.table pass.old }
        requires inside { IsInside self.now.table control.now pass.old }
        requires within { pass.old.turns ≤ budget }
        ensures { (n : ℕ) → MayRun self.now.table n budget pass.old → ListsSwept self.now.table n budget control.now pass.old pass.new result }
    {
        let first = control.generation % 2 * BANK;
        let lists: u32 = 1 << control.log;
        for number in 0..lists {
            let list = ListAt {
                generation: control.generation,
                head: first + number,
            };
            cut_within(&self.table, pass, CutOp::new(list, None), budget)?;
        }
        Ok(())
    }

    /// Cuts the dead rows of all lists of the open table, and rests. Since it is seldom called, it isn't inlined.
    #[inline(never)]
    fn sweep(&self, pass: &mut Pass, control: &Control, budget: u32) -> Result<(), Spent>
        requires rests { IsResting self.now.table pass.old }
        requires control { (caller self.now.table pass.old).found.control ≡ Some control.now }
        requires within { pass.old.turns ≤ budget }
        ensures { (n : ℕ) → MayRun self.now.table n budget pass.old → SweepEnded self.now.table n budget pass.old pass.new result }
    {
        enter(&self.table, pass);
        let end = self.sweep_lists(pass, control, budget);
        leave(&self.table, pass);
        end
    }

    /// A row that the pass may use: a free one, a ripe one, or one that a recovery makes free. Before a recovery it cuts the
    /// dead rows of all lists.
    pub(crate) fn free_row(
        &self,
        pass: &mut Pass,
        control: &Control,
        budget: u32,
    ) -> Result<u32, Refusal>
        requires rests { IsResting self.now.table pass.old }
        requires control { (caller self.now.table pass.old).found.control ≡ Some control.now }
        requires within { pass.old.turns ≤ budget }
        ensures { (n : ℕ) → MayRun self.now.table n budget pass.old → RowFound self.now.table n budget pass.old pass.new result }
    {
        if let Some(row) = own_row(&self.table, pass) {
            return Ok(row);
        }
        let Ok(()) = self.sweep(pass, control, budget) else {
            return Err(Refusal::Again { turns: budget });
        };
        match recover_within(&self.table, pass, budget) {
            Ok(Recover::Held(holder)) => Err(Refusal::Held(holder)),
            Ok(Recover::Rows) => Err(Refusal::Rows),
            Ok(Recover::Ready) => match pass.free.front() {
                Some(row) => Ok(*row),
                None => unreachable!(),
            },
            Ok(Recover::More) => unreachable!(),
            Err(Spent) => Err(Refusal::Again { turns: budget }),
        }
    }
}
