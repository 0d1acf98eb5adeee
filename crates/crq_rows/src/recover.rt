//! Free rows for a pass that has none, by raising the epoch.
ghost use Rattle.std.specs.Prelude.{◌≡◌, ◌<◌, ◌+◌, []};
ghost use Rattle.crq_base.specs.Lists.{In};
ghost use Rattle.crq_rule.specs.declared.view.Guard.TheVariants.{Off};
ghost use Rattle.crq_rule.specs.Places.{IsHomeRow};
ghost use Rattle.crq_rows.specs.Passes.{caller, IsPassOf};
ghost use Rattle.crq_rows.specs.Ticking.{IsTicking};
ghost use Rattle.crq_rows.specs.declared.tick.TickOp.TheVariants.{Load};
ghost use Rattle.crq_rows.specs.declared.recover.RecoverOp.TheVariants.{Ticking, Visiting, Taking};
ghost use Rattle.crq_rows.specs.Recovering.{IsRecovering, LookedSince, HasCounted, RecoverStepped, IsAfterRow, recover_exchanges};

use crate::own::look;
use crate::steps::claim_step;
use crate::tick::{Tick, TickOp};
use crq_base::Holder;
use crq_rule::{Pass, Table};

/// How many ticks make a row ripe that was retired before the first one: two, and one that may have begun before.
const TICKS: u32 = 3;

/// Recovers rows, one atomic step at a time: it raises the epoch three times, and then looks at each home row in order,
/// and claims each that it finds ripe, right after the look. After it has ended it begins anew. The guard of its pass has
/// to be off.
#[derive(Clone, Copy)]
pub enum RecoverOp {
    /// So many ticks have moved, fewer than three, and this one is made.
    Ticking(u32, TickOp),
    /// The epoch to which the third tick moved, and the next home row to look at.
    Visiting(u64, u32),
    /// That epoch, and a home row that was found ripe under it.
    Taking(u64, u32),
}

/// What one step of a `RecoverOp` answers.
#[derive(Clone, Copy, Debug, PartialEq, Eq)]
pub enum Recover {
    /// There is more to do.
    More,
    /// All home rows were looked at, each that was found ripe is claimed, and the pass has a free row.
    Ready,
    /// The epoch can't rise.
    Held(Holder),
    /// Three ticks moved, and then no home row was found ripe. The pass keeps the events that were pending when the first
    /// of these ticks loaded the epoch: twice their number is at least the number of its rows.
    Rows,
}

/// What follows on this home row, which was looked at.
fn after_row(table: &Table, pass: &Pass, epoch: u64, row: u32) -> (RecoverOp, Recover)
    requires of { IsPassOf table.now pass.now }
    requires read { In epoch (caller table.now pass.now).epochs }
    requires home { IsHomeRow table.now.start.layout pass.now.number row }
    requires looked { (caller table.now pass.now).hand ≡ [] → LookedSince table.now.start.layout epoch (row + 1) (caller table.now pass.now)
        × HasCounted table.now.start.layout epoch (row + 1) (caller table.now pass.now) }
    ensures { IsAfterRow table.now.start.layout epoch row (caller table.now pass.now) result.0 result.1 }
{
    if row < table.start.layout.last_home(pass.number) {
        return (RecoverOp::Visiting(epoch, row + 1), Recover::More);
    }
    let Some(_) = pass.free.front() else {
        return (RecoverOp::new(), Recover::Rows);
    };
    (RecoverOp::new(), Recover::Ready)
}

/// Makes one step of a tick.
fn tick(table: &Table, pass: &mut Pass, moved: u32, tick: TickOp) -> (RecoverOp, Recover)
    requires of { IsPassOf table.now pass.old }
    requires op { IsRecovering table.now.start.layout (Ticking moved tick) (caller table.now pass.old) }
    ensures { RecoverStepped table.now (Ticking moved tick) result.0 pass.old pass.new result.1 }
{
    let mut next = tick;
    match next.step(table, pass, moved) {
        Tick::More => (RecoverOp::Ticking(moved, next), Recover::More),
        Tick::Held(holder) => (RecoverOp::new(), Recover::Held(holder)),
        Tick::Moved(epoch) => {
            if moved + 1 < TICKS {
                (RecoverOp::Ticking(moved + 1, TickOp::Load), Recover::More)
            } else {
                let first = table.start.layout.first_home(pass.number);
                (RecoverOp::Visiting(epoch, first), Recover::More)
            }
        }
    }
}

/// Looks at the next home row.
fn visit(table: &Table, pass: &mut Pass, epoch: u64, row: u32) -> (RecoverOp, Recover)
    requires of { IsPassOf table.now pass.old }
    requires op { IsRecovering table.now.start.layout (Visiting epoch row) (caller table.now pass.old) }
    ensures { RecoverStepped table.now (Visiting epoch row) result.0 pass.old pass.new result.1 }
{
    if look(table, pass, row, epoch) {
        return (RecoverOp::Taking(epoch, row), Recover::More);
    }
    after_row(table, pass, epoch, row)
}

/// Claims a row that was found ripe.
fn take(table: &Table, pass: &mut Pass, epoch: u64, row: u32) -> (RecoverOp, Recover)
    requires of { IsPassOf table.now pass.old }
    requires op { IsRecovering table.now.start.layout (Taking epoch row) (caller table.now pass.old) }
    ensures { RecoverStepped table.now (Taking epoch row) result.0 pass.old pass.new result.1 }
{
    claim_step(table, pass, row, epoch);
    after_row(table, pass, epoch, row)
}

impl RecoverOp {
    /// A recovery that has made no step. The guard of its pass has to be off.
    pub fn new() -> RecoverOp
        ensures { result ≡ Ticking 0 Load }
    {
        RecoverOp::Ticking(0, TickOp::Load)
    }

    /// Whether the next step exchanges a word.
    pub fn exchanges(&self, table: &Table) -> bool
        ensures { result ≡ recover_exchanges table.now.start.layout self.now }
    {
        match *self {
            RecoverOp::Ticking(_, tick) => tick.exchanges(table),
            _ => false,
        }
    }

    /// Makes one atomic step.
    pub fn step(&mut self, table: &Table, pass: &mut Pass) -> Recover
        requires of { IsPassOf table.now pass.old }
        requires op { IsRecovering table.now.start.layout self.old (caller table.now pass.old) }
        ensures { RecoverStepped table.now self.old self.new pass.old pass.new result }
    {
        let (op, answer) = match *self {
            RecoverOp::Ticking(moved, op) => tick(table, pass, moved, op),
            RecoverOp::Visiting(epoch, row) => visit(table, pass, epoch, row),
            RecoverOp::Taking(epoch, row) => take(table, pass, epoch, row),
        };
        *self = op;
        answer
    }
}
