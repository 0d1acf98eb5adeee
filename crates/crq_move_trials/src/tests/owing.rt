//! Copies that a helper left owed, and that are taken up without the rest of its help.
ghost use Rattle.std.specs.Prelude.{◌≡◌, ◌<◌, None, true, length, IfSome};
ghost use Rattle.crq_base.specs.Words.{IsControl};
ghost use Rattle.crq_rows.specs.Passes.{IsPassOf};
ghost use Rattle.crq_list.specs.Operations.{IsUnderWay};
ghost use Rattle.crq_move.specs.Binding.{the_binding};
ghost use Rattle.crq_move_trials.specs.Moving.{AreNewPlaces, MayHelp};

use crate::tests::again::second_of;
use crate::tests::halting::{Exchange, stop_before};
use crate::tests::helping::{Helper, announced, finish, helper, next_pass, opened, sets};
use crate::tests::moved::{is_moved, looker};
use crq_base::Control;
use crq_list::Progress;
use crq_move::{BindEnd, BindOp, HelpPart, MoveOp, MoveState};
use crq_rows::{Pass, Seating, Table};
use std::alloc::{AllocError, Global};
use std::test::Fail;

/// More steps than a binding makes here.
const STEPS: u32 = 16;

/// Lets a binding go on to its end, and answers that.
fn bound(table: &Table, pass: &mut Pass, binding: BindOp) -> Option<BindEnd>
    requires of { IsPassOf table.now pass.old }
    requires op { IsUnderWay the_binding table.now (binding, pass.old) }
    requires room { pass.old.debts.second_cut ≡ None }
{
    let mut op = binding;
    for _ in 0..STEPS {
        match op.step(table, pass) {
            Progress::More => {}
            Progress::Done(end) => return Some(end),
        }
    }
    None
}

/// Takes up the copy that a helper left owed, by what the pass owes alone. None where it owes none.
fn take_up(table: &Table, left: Helper) -> Option<BindEnd>
    requires { MayHelp table.now left }
{
    let (help, mut pass) = left;
    let HelpPart::Empty(MoveOp { state, .. }) = help?.part else {
        return None;
    };
    let MoveState::Bind(binding) = state else {
        return None;
    };
    bound(table, &mut pass, BindOp::new(&binding.debt))
}

/// Lets others make so many moves, the first of which has this control word. It answers the control word of the last one
/// that is under way or over then. None where one of them didn't end with its table open.
fn make_moves(
    table: &Table,
    places: &mut Vec<Seating>,
    first: &mut Helper,
    control: &Control,
    moves: u32,
) -> Option<Control>
    requires helper { MayHelp table.now first.old }
    requires places { AreNewPlaces table.now places.old.items }
    requires may { table.now.start.moves ≡ true }
    requires control { IsControl control.now }
    ensures helper { MayHelp table.now first.new }
    ensures control { IfSome result (λ x. IsControl x) }
{
    if moves > 0 && finish(table, first) != opened(control) {
        return None;
    }
    if moves < 2 {
        return Some(*control);
    }
    let pass = next_pass(table, places)?;
    let second = second_of(control);
    if !sets(table, pass, second.new_log, second.new_shift) {
        return None;
    }
    let mut other = helper(table, places)?;
    if finish(table, &mut other) == opened(&second) {
        Some(second)
    } else {
        None
    }
}

/// How a copy that was left owed comes out, and whether all is moved in the end, where others make so many moves before it
/// is taken up. Where they make none, they make the one that is under way afterwards.
fn outcome_of(
    alloc: Global,
    times: &[u32],
    moves: u32,
) -> Result<Option<(BindEnd, bool)>, AllocError>
    requires few { length times.now < 11 }
{
    let Some((table, mut places)) = announced(alloc, times, 1, 0)? else {
        return Ok(None);
    };
    let Some((mut looker, control)) = looker(&table, &mut places) else {
        return Ok(None);
    };
    let (Some(mut slow), Some(mut fast)) = (
        helper(&table, &mut places),
        helper(&table, &mut places),
    ) else {
        return Ok(None);
    };
    let stopped = stop_before(&table, &mut slow, Exchange::Bind);
    let Some(last) = make_moves(&table, &mut places, &mut fast, &control, moves) else {
        return Ok(None);
    };
    let Some(end) = take_up(&table, slow) else {
        return Ok(None);
    };
    let ended = moves > 0 || finish(&table, &mut fast) == opened(&control);
    let moved = is_moved(alloc, &table, &mut looker, &last, times)?;
    Ok(Some((end, stopped && ended && moved)))
}

/// A copy is bound where nobody moved on; else it is discarded, unless a later move came upon it and did so.
#[test]
fn a_copy_that_is_owed_is_taken_up(rt: HostRuntime) -> Result<(), Fail> {
    let shapes: [&[u32]; 3] = [&[5], &[3, 3, 3], &[4, 3, 12, 4, 20]];
    for times in shapes {
        let ends = [BindEnd::Bound, BindEnd::Discarded, BindEnd::Dead];
        for moves in 0..3u32 {
            let told = outcome_of(rt.alloc(), times, moves)?;
            let end = ends[moves as usize];
            assert_eq!(rt; told, Some((end, true)), "{moves} moves");
        }
    }
    Ok(())
}
