//! A free row for a pass.
ghost use Rattle.std.specs.Prelude.{◌≡◌, ◌↔◌, ◌⊎◌, ◌+◌, ◌<◌, ◌≤◌, ℕ, IsTrue, MatchBool, [], ◌∷◌};
ghost use Rattle.crq_base.specs.Lists.{In};
ghost use Rattle.crq_base.specs.Words.{stamp_word};
ghost use Rattle.crq_base.specs.declared.kinds.StepKind.TheVariants.{Look};
ghost use Rattle.crq_rule.specs.Places.{index, stamp, IsHomeRow};
ghost use Rattle.crq_rule.specs.Kinds.{looks};
ghost use Rattle.crq_rows.specs.Passes.{caller, load_made, IsPassOf, Stepped};
ghost use Rattle.crq_rows.specs.declared.own.OwnOp.TheVariants.{Load, Looking, Claiming};
ghost use Rattle.crq_rows.specs.Owning.{IsOwning, IsRipeWord, LookedRound, IsAfterLook, OwnStepped};

use crate::steps::{claim_step, epoch_step, look_step};
use crq_base::Stamp;
use crq_rule::{Pass, Table};

/// Looks for a row that the pass may use, one atomic step at a time.
///
/// Where the pass has a free row, that is the one. Else it loads the epoch and looks at each home row in order, and claims
/// each that it finds ripe, right after the look. The first of them is the one, and the others are free for later searches.
/// After it has ended it begins anew.
#[derive(Clone, Copy)]
pub enum OwnOp {
    /// Nothing was done yet.
    Load,
    /// The epoch that was loaded, and the next home row to look at.
    Looking(u64, u32),
    /// The epoch that was loaded, and a home row that was found ripe under it.
    Claiming(u64, u32),
}

/// What one step of an `OwnOp` answers.
#[derive(Clone, Copy, Debug, PartialEq, Eq)]
pub enum Own {
    /// There is more to do.
    More,
    /// This is the pass's first free row. Where it had none before, all home rows were looked at, and each that was found
    /// ripe is claimed.
    Row(u32),
    /// The pass has no free row, and none of its home rows was found ripe.
    Empty,
}

/// Whether a row with this stamp may be claimed under this epoch: two epochs after its tag.
fn is_ripe(stamp: Stamp, epoch: u64) -> bool
    ensures { IsTrue result ↔ IsRipeWord epoch (stamp_word stamp) }
{
    match stamp {
        Stamp::Kept => false,
        Stamp::Retired(tag) => epoch >= 2 && tag <= epoch - 2,
    }
}

/// Looks at a home row, and answers whether it is ripe.
pub(crate) fn look(table: &Table, pass: &mut Pass, row: u32, epoch: u64) -> bool
    requires of { IsPassOf table.now pass.old }
    requires home { IsHomeRow table.now.start.layout pass.old.number row }
    ensures { (w : ℕ) × Stepped table.now pass.old pass.new (load_made Look (index table.now.start.layout (stamp row)) w) (looks row w) × (IsTrue result ↔ IsRipeWord epoch w) }
{
    is_ripe(look_step(table, pass, row), epoch)
}

/// Answers the first free row, or loads the epoch where there is none.
fn begin(table: &Table, pass: &mut Pass) -> (OwnOp, Own)
    requires { IsPassOf table.now pass.old }
    ensures { OwnStepped table.now Load result.0 pass.old pass.new result.1 }
{
    if let Some(row) = pass.free.front() {
        return (OwnOp::Load, Own::Row(*row));
    }
    let epoch = epoch_step(table, pass);
    let first = table.start.layout.first_home(pass.number);
    (OwnOp::Looking(epoch, first), Own::More)
}

/// What follows on this home row, which was looked at, and claimed where it was ripe.
fn after_row(table: &Table, pass: &Pass, epoch: u64, row: u32) -> (OwnOp, Own)
    requires of { IsPassOf table.now pass.now }
    requires read { In epoch (caller table.now pass.now).epochs }
    requires home { IsHomeRow table.now.start.layout pass.now.number row }
    requires looked { LookedRound table.now.start.layout epoch (row + 1) (caller table.now pass.now) }
    ensures { IsAfterLook table.now.start.layout epoch row (caller table.now pass.now) result.0 result.1 }
{
    if row < table.start.layout.last_home(pass.number) {
        return (OwnOp::Looking(epoch, row + 1), Own::More);
    }
    let Some(first) = pass.free.front() else {
        return (OwnOp::Load, Own::Empty);
    };
    (OwnOp::Load, Own::Row(*first))
}

/// Looks at the next home row.
fn look_next(table: &Table, pass: &mut Pass, epoch: u64, row: u32) -> (OwnOp, Own)
    requires of { IsPassOf table.now pass.old }
    requires op { IsOwning table.now.start.layout (Looking epoch row) (caller table.now pass.old) }
    ensures { OwnStepped table.now (Looking epoch row) result.0 pass.old pass.new result.1 }
{
    if look(table, pass, row, epoch) {
        return (OwnOp::Claiming(epoch, row), Own::More);
    }
    after_row(table, pass, epoch, row)
}

/// Claims a row that was found ripe.
fn claim(table: &Table, pass: &mut Pass, epoch: u64, row: u32) -> (OwnOp, Own)
    requires of { IsPassOf table.now pass.old }
    requires op { IsOwning table.now.start.layout (Claiming epoch row) (caller table.now pass.old) }
    ensures { OwnStepped table.now (Claiming epoch row) result.0 pass.old pass.new result.1 }
{
    claim_step(table, pass, row, epoch);
    after_row(table, pass, epoch, row)
}

impl OwnOp {
    /// A search that has made no step.
    pub fn new() -> OwnOp
        ensures { result ≡ Load }
    {
        OwnOp::Load
    }

    /// Makes one atomic step, but at the beginning where the pass has a free row: then it answers that row, and makes none.
    pub fn step(&mut self, table: &Table, pass: &mut Pass) -> Own
        requires of { IsPassOf table.now pass.old }
        requires op { IsOwning table.now.start.layout self.old (caller table.now pass.old) }
        ensures { OwnStepped table.now self.old self.new pass.old pass.new result }
    {
        let (op, answer) = match *self {
            OwnOp::Load => begin(table, pass),
            OwnOp::Looking(epoch, row) => look_next(table, pass, epoch, row),
            OwnOp::Claiming(epoch, row) => claim(table, pass, epoch, row),
        };
        *self = op;
        answer
    }
}
