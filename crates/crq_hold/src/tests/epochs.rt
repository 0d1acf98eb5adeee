//! Worked examples of the passes of a small table: how they raise the epoch, and find free rows.
ghost use Rattle.std.specs.Prelude.{◌≡◌, ◌<◌, ◌≤◌, ◌^◌, IfOk, None};
ghost use Rattle.crq_rule.specs.declared.view.Guard.TheVariants.{Off};
ghost use Rattle.crq_rows.specs.Passes.{caller, IsNew, IsPassOf};
ghost use Rattle.crq_rows.specs.Ticking.{IsTicking};
ghost use Rattle.crq_rows.specs.Owning.{IsOwning};
ghost use Rattle.crq_rows.specs.Recovering.{IsRecovering};

use crate::tests::alone;
use crate::tests::scarcity::{BUDGET, put_and_take};
use crq_base::First;
use crq_queue::Memory;
use crq_rows::{
    Holder, Owes, Own, OwnOp, Pass, Recover, RecoverOp, Stamp, Table, Tick, TickOp, confirm_step,
    enter_step, epoch_step, leave_step, look_step, passes, scan_step,
};
use crq_rule::{Layout, open_table};
use std::alloc::{AllocError, Global};
use std::test::Fail;

/// A table of two callers, and their passes.
fn pair(alloc: Global, guard: u64) -> Result<(Table, Pass, Pass), AllocError>
    requires { guard ≤ 2 ^ 62 }
    ensures first { IfOk result (λ r. IsNew r.0 0 r.1) }
    ensures second { IfOk result (λ r. IsNew r.0 1 r.2) }
    ensures rows { IfOk result (λ r. r.0.start.layout.home ≡ 8) }
{
    let layout = Layout::of(2, 4);
    let first = First {
        epoch: 0,
        generation: 1,
        guard,
    };
    let (table, mut all) = passes(open_table(alloc, &layout, first, false)?);
    let zero = all.lift(0);
    let one = all.lift(1);
    all.lower(zero);
    let zero = all.lift(0);
    Ok((table, zero, one))
}

/// Makes a whole attempt to raise the epoch.
fn tick(table: &Table, pass: &mut Pass) -> Tick
    requires of { IsPassOf table.now pass.old }
    requires off { (caller table.now pass.old).guard ≡ Off }
    ensures of { IsPassOf table.now pass.new }
    ensures off { (caller table.now pass.new).guard ≡ Off }
{
    let mut op = TickOp::new();
    for i in 0..8 {
        match op.step(table, pass, 0) {
            Tick::More => {}
            end => return end,
        }
    }
    Tick::More
}

#[test]
fn raises_the_epoch(rt: HostRuntime) -> Result<(), Fail> {
    let (table, mut zero, mut one) = pair(rt.alloc(), 0)?;
    let epoch = epoch_step(&table, &mut zero);
    enter_step(&table, &mut zero, epoch);
    assert_eq!(rt; confirm_step(&table, &mut zero), 0);
    assert_eq!(rt; scan_step(&table, &mut one, 0), Some(0));
    assert_eq!(rt; tick(&table, &mut one), Tick::Moved(1));
    assert_eq!(rt; tick(&table, &mut one), Tick::Held(Holder::Seat(0, 0)));
    leave_step(&table, &mut zero);
    assert_eq!(rt; scan_step(&table, &mut one, 0), None);
    assert_eq!(rt; tick(&table, &mut one), Tick::Moved(2));
    let (table, _zero, mut one) = pair(rt.alloc(), 1 << 62)?;
    assert_eq!(rt; tick(&table, &mut one), Tick::Held(Holder::Last));
    Ok(())
}

/// Makes a whole recovery.
fn recover(table: &Table, pass: &mut Pass) -> Recover
    requires of { IsPassOf table.now pass.old }
    requires off { (caller table.now pass.old).guard ≡ Off }
    ensures { IsPassOf table.now pass.new }
{
    let mut op = RecoverOp::new();
    for i in 0..64 {
        match op.step(table, pass) {
            Recover::More => {}
            end => return end,
        }
    }
    Recover::More
}

#[test]
fn finds_free_rows(rt: HostRuntime) -> Result<(), Fail> {
    let (table, zero, mut one) = pair(rt.alloc(), 5)?;
    assert_eq!(rt;
        (zero.number(), one.number(), one.owes()),
        (0, 1, Owes::Nothing)
    );
    assert_eq!(rt; OwnOp::new().step(&table, &mut one), Own::Row(9));
    assert_eq!(rt; look_step(&table, &mut one, 9), Stamp::Kept);
    assert_eq!(rt; recover(&table, &mut one), Recover::Ready);
    assert_eq!(rt; epoch_step(&table, &mut one), 8);
    Ok(())
}

/// Makes a whole search for a free row.
fn search(table: &Table, pass: &mut Pass) -> Own
    requires { IsPassOf table.now pass.old }
{
    let mut op = OwnOp::new();
    for i in 0..64 {
        match op.step(table, pass) {
            Own::More => {}
            end => return end,
        }
    }
    Own::More
}

/// One caller uses all its six rows: so many for events that stay pending, and the others for events that it takes. Two
/// ticks then make these ripe. Whether all that was done, what a search answers, and how many rows are free after it.
fn searched(alloc: Global, pending: u32) -> Result<(bool, Own, usize), Memory> {
    let (queue, _places, mut worker) = alone(alloc, 4, 0)?;
    let mut done = true;
    for row in 0..6u32 {
        let used = if row < pending {
            worker.put(&queue, 1, 0, BUDGET).is_ok()
        } else {
            put_and_take(&queue, &mut worker)
        };
        done = done && used;
    }
    let first = tick(&queue.table, &mut worker.pass);
    let second = tick(&queue.table, &mut worker.pass);
    let moved = first == Tick::Moved(1) && second == Tick::Moved(2);
    let answer = search(&queue.table, &mut worker.pass);
    Ok((done && moved, answer, worker.pass.free.len()))
}

/// A search claims all ripe rows on its one look round, and answers the first: how many events stay pending, what it
/// answers, and how many rows are free then.
#[test]
fn claims_all_ripe_rows(rt: HostRuntime) -> Result<(), Fail> {
    let table = [
        (0, Own::Row(1), 6),
        (2, Own::Row(3), 4),
        (5, Own::Row(6), 1),
        (6, Own::Empty, 0),
    ];
    for (pending, answer, free) in table {
        let found = searched(rt.alloc(), pending)?;
        assert_eq!(rt; found, (true, answer, free), "{pending} pending");
    }
    Ok(())
}
