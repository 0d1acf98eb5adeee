//! Moves whose helpers make their steps in a drawn order.
ghost use Rattle.std.specs.Prelude.{◌≡◌, ◌<◌, length, IfOk, IfSome};
ghost use Rattle.crq_base.specs.Words.{IsControl};
ghost use Rattle.crq_move_trials.specs.Moving.{MayHelp};
ghost use Rattle.crq_move_trials.specs.Looking.{IsLooker};

use crate::tests::helping::{Helper, announced, helper, opened, step};
use crate::tests::moved::{is_moved, looker};
use crq_base::{Control, Memory};
use crq_move::HelpEnd;
use crq_rows::{Pass, Table};
use crq_sim::draw;
use std::alloc::{AllocError, Global};
use std::test::Fail;

/// How many schedules are drawn.
const SCHEDULES: u64 = 64;
/// How many steps the callers are to make in all of them at least.
const LEAST: u32 = 20_000;
/// More turns than are drawn in a schedule until all callers have ended.
const TURNS: u32 = 65536;

/// A number below the bound, and the state after it.
fn below(state: u64, bound: u64) -> (u32, u64)
    requires { (0 < bound) × (bound < 4294967296) }
    ensures { result.0 < bound }
{
    let (value, next) = draw(state);
    ((value % bound) as u32, next)
}

/// Up to 10 times from 1 on, which fall on few ticks or on many.
fn times_of(alloc: Global, state: u64) -> Result<Vec<u32>, AllocError> {
    let (count, state) = below(state, 11);
    let (spread, state) = below(state, 6);
    let mut times = Vec::new(alloc);
    let mut left = state;
    for _ in 0..count {
        let (time, next) = below(left, 2 << spread);
        times.push(1 + time)?;
        left = next;
    }
    Ok(times)
}

/// Four callers that help a move, and one more that looks on.
#[derive(Drop)]
struct Scene {
    /// The table that moves.
    table: Table,
    /// The control word of the move.
    control: Control,
    /// The one that looks on.
    looker: Pass,
    /// The helpers.
    first: Helper,
    second: Helper,
    third: Helper,
    fourth: Helper,
}

/// Four callers that help a drawn move of the events at these times, at the begin of their help.
fn four_callers(alloc: Global, times: &[u32], state: u64) -> Result<Option<Scene>, AllocError>
    requires { length times.now < 11 }
    ensures looker { IfOk result (λ made. IfSome made (λ s. IsLooker s.table s.looker × IsControl s.control)) }
    ensures helpers { IfOk result (λ made. IfSome made (λ s. (MayHelp s.table s.first × MayHelp s.table s.second) × (MayHelp s.table s.third × MayHelp s.table s.fourth))) }
{
    let (log, state) = below(state, 6);
    let (shift, _) = below(state, 5);
    let Some((table, mut places)) = announced(alloc, times, log, shift)? else {
        return Ok(None);
    };
    let Some((looker, control)) = looker(&table, &mut places) else {
        return Ok(None);
    };
    let (Some(first), Some(second)) = (helper(&table, &mut places), helper(&table, &mut places))
    else {
        return Ok(None);
    };
    let (Some(third), Some(fourth)) = (helper(&table, &mut places), helper(&table, &mut places))
    else {
        return Ok(None);
    };
    Ok(Some(Scene {
        table,
        control,
        looker,
        first,
        second,
        third,
        fourth,
    }))
}

/// Whether the help of one of the four is still under way.
fn goes_on(scene: &Scene, which: u32) -> bool {
    match which {
        0 => scene.first.0.is_some(),
        1 => scene.second.0.is_some(),
        2 => scene.third.0.is_some(),
        _ => scene.fourth.0.is_some(),
    }
}

/// Lets one of the four make a step, and answers how its help ended, where it did.
fn turn(scene: &mut Scene, which: u32) -> Option<HelpEnd>
    requires first { MayHelp scene.old.table scene.old.first × MayHelp scene.old.table scene.old.second }
    requires last { MayHelp scene.old.table scene.old.third × MayHelp scene.old.table scene.old.fourth }
    ensures first { MayHelp scene.new.table scene.new.first × MayHelp scene.new.table scene.new.second }
    ensures last { MayHelp scene.new.table scene.new.third × MayHelp scene.new.table scene.new.fourth }
    ensures looker { (scene.new.looker ≡ scene.old.looker) × (scene.new.table ≡ scene.old.table) × (scene.new.control ≡ scene.old.control) }
{
    match which {
        0 => step(&scene.table, &mut scene.first),
        1 => step(&scene.table, &mut scene.second),
        2 => step(&scene.table, &mut scene.third),
        _ => step(&scene.table, &mut scene.fourth),
    }
}

/// Lets one of the four make a step. Where its help ended by that, it answers whether all was moved then.
fn look(
    alloc: Global,
    scene: &mut Scene,
    which: u32,
    times: &[u32],
) -> Result<Option<bool>, AllocError>
    requires first { MayHelp scene.old.table scene.old.first × MayHelp scene.old.table scene.old.second }
    requires last { MayHelp scene.old.table scene.old.third × MayHelp scene.old.table scene.old.fourth }
    requires looker { IsLooker scene.old.table scene.old.looker × IsControl scene.old.control }
    ensures first { MayHelp scene.new.table scene.new.first × MayHelp scene.new.table scene.new.second }
    ensures last { MayHelp scene.new.table scene.new.third × MayHelp scene.new.table scene.new.fourth }
    ensures looker { IsLooker scene.new.table scene.new.looker × IsControl scene.new.control }
{
    let Some(end) = turn(scene, which) else {
        return Ok(None);
    };
    let moved = is_moved(
        alloc,
        &scene.table,
        &mut scene.looker,
        &scene.control,
        times,
    )?;
    Ok(Some(moved && Some(end) == opened(&scene.control)))
}

/// How the schedule of a move came out.
#[derive(Clone, Copy, Debug, PartialEq, Eq)]
struct Outcome {
    /// How many steps the callers made.
    steps: u32,
    /// How many callers came to the end of their part.
    ended: u32,
    /// Whether all was moved whenever one did.
    moved: bool,
}

/// Lets so many of the callers go on by steps that are drawn, until all of these have ended.
fn run(
    alloc: Global,
    scene: &mut Scene,
    times: &[u32],
    callers: u32,
    seed: u64,
) -> Result<Outcome, AllocError>
    requires callers { 0 < callers }
    requires first { MayHelp scene.old.table scene.old.first × MayHelp scene.old.table scene.old.second }
    requires last { MayHelp scene.old.table scene.old.third × MayHelp scene.old.table scene.old.fourth }
    requires looker { IsLooker scene.old.table scene.old.looker × IsControl scene.old.control }
{
    let mut told = Outcome {
        steps: 0,
        ended: 0,
        moved: true,
    };
    let mut state = seed;
    for _ in 0..TURNS {
        if told.ended >= callers {
            break;
        }
        let (which, next) = below(state, u64::from(callers));
        state = next;
        // A caller whose help has ended makes no step, and its turn isn't counted.
        if !goes_on(scene, which) {
            continue;
        }
        told.steps = told.steps.saturating_add(1);
        if let Some(moved) = look(alloc, scene, which, times)? {
            told.ended = told.ended.saturating_add(1);
            told.moved = told.moved && moved;
        }
    }
    Ok(told)
}

/// However the steps of 2 to 4 callers follow on one another: each time that one ends its part, each event stands once in
/// the new lists, and all callers end theirs.
#[test]
fn any_order_moves_all(rt: HostRuntime) -> Result<(), Fail> {
    let mut steps = 0u32;
    for seed in 0..SCHEDULES {
        let (others, state) = below(seed, 3);
        let callers = 2 + others;
        let times = times_of(rt.alloc(), state)?;
        let times = times.as_slice();
        if times.len() > 10 {
            return Err(Fail::from(Memory));
        }
        let Some(mut scene) = four_callers(rt.alloc(), times, state)? else {
            return Err(Fail::from(Memory));
        };
        let told = run(rt.alloc(), &mut scene, times, callers, state)?;
        assert_eq!(rt; told.ended, callers, "schedule {seed}");
        assert!(rt; told.moved, "schedule {seed}");
        steps = steps.saturating_add(told.steps);
    }
    assert!(rt; steps >= LEAST, "{steps} steps");
    Ok(())
}
