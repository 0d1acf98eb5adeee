//! Callers that are stopped before an exchange of a move, while another one moves all.
ghost use Rattle.std.specs.Prelude.{◌<◌, length, IfOk, IfSome};
ghost use Rattle.crq_base.specs.Words.{IsControl};
ghost use Rattle.crq_move_trials.specs.Moving.{MayHelp};
ghost use Rattle.crq_move_trials.specs.Looking.{IsLooker};

use crate::tests::helping::{Helper, announced, finish, helper, opened, step};
use crate::tests::moved::{is_moved, looker};
use crq_base::{Control, Memory};
use crq_move::{BindState, FinishState, HelpPart, MoveState};
use crq_rows::{Owes, Pass, Table};
use std::alloc::{AllocError, Global};
use std::test::Fail;

/// More steps than a caller's whole part in any move here.
const STEPS: u32 = 4096;

/// An exchange of a move, before which a caller can be stopped.
#[derive(Clone, Copy, Debug, PartialEq, Eq)]
pub(crate) enum Exchange {
    /// A head of the new table is opened.
    Prepare,
    /// A head of the old one is frozen.
    FreezeHead,
    /// The new table is pinned.
    Pin,
    /// The first row of a list is frozen.
    FreezeNode,
    /// A copy of it is linked.
    Copy,
    /// The copy is bound to it.
    Bind,
    /// The copy is made valid.
    Validate,
    /// A copy of the caller's own, beside which another was bound, is discarded.
    Drop,
    /// The discarded copy is cut out of its list.
    Cut,
    /// The row leaves its list.
    Pop,
    /// Current is led past the pin.
    Pass,
    /// The new table is opened.
    Finish,
}

/// Whether a binding at this state is at this exchange, where it makes one next.
fn binds(state: BindState, exchange: Exchange) -> bool {
    match state {
        BindState::Bind => exchange == Exchange::Bind,
        BindState::Drop(_) => exchange == Exchange::Drop,
        _ => false,
    }
}

/// Whether an emptying at this state is at this exchange, where it makes one next.
fn empties(state: MoveState, exchange: Exchange) -> bool {
    match state {
        MoveState::Freeze(_, _) => exchange == Exchange::FreezeNode,
        MoveState::Copy(_) => exchange == Exchange::Copy,
        MoveState::Bind(op) => binds(op.state, exchange),
        MoveState::Validate(_, _, _, _) => exchange == Exchange::Validate,
        MoveState::Cut(_) => exchange == Exchange::Cut,
        MoveState::Pop(_, _) => exchange == Exchange::Pop,
        _ => false,
    }
}

/// Whether a helper's next step is this exchange.
fn is_before(helper: &Helper, exchange: Exchange) -> bool {
    let Some(help) = helper.0 else {
        return false;
    };
    let fits = match help.part {
        HelpPart::Prepare(_) => exchange == Exchange::Prepare,
        HelpPart::Freeze(_) => exchange == Exchange::FreezeHead,
        HelpPart::Pin(_) => exchange == Exchange::Pin,
        HelpPart::Empty(op) => empties(op.state, exchange),
        HelpPart::Finish(op) => match op.state {
            FinishState::Pass(_, _) => exchange == Exchange::Pass,
            FinishState::Open(_, _) => exchange == Exchange::Finish,
            _ => false,
        },
        HelpPart::Over => false,
    };
    fits && help.exchanges()
}

/// Lets a helper go on up to this exchange, which it doesn't make yet. It says whether it came so far.
pub(crate) fn stop_before(table: &Table, helper: &mut Helper, exchange: Exchange) -> bool
    requires { MayHelp table.now helper.old }
    ensures { MayHelp table.now helper.new }
{
    for _ in 0..STEPS {
        if is_before(helper, exchange) {
            return true;
        }
        if step(table, helper).is_some() {
            return false;
        }
    }
    false
}

/// Lets a helper make this exchange so often. It says whether it came so far.
fn make(table: &Table, helper: &mut Helper, exchange: Exchange, often: u32) -> bool
    requires { MayHelp table.now helper.old }
    ensures { MayHelp table.now helper.new }
{
    for _ in 0..often {
        if !stop_before(table, helper, exchange) || step(table, helper).is_some() {
            return false;
        }
    }
    true
}

/// Two callers that help a move, and one more that looks on.
#[derive(Drop)]
struct Scene {
    /// The table that moves.
    table: Table,
    /// The control word of the move.
    control: Control,
    /// The one that looks on.
    looker: Pass,
    /// The helper that is stopped.
    slow: Helper,
    /// The other one.
    fast: Helper,
}

/// Events in a table of 8 lists with buckets one tick wide, and the width of the table that they move into.
#[derive(Clone, Copy)]
struct Shape<'a> {
    /// What is told of it.
    name: &'a str,
    /// The times of the events.
    times: &'a [u32],
    /// The new table has 2^log lists.
    log: u32,
    /// Its buckets are 2^shift ticks wide.
    shift: u32,
}

/// The helpers of such a move, at the begin of their help.
fn two_callers(
    alloc: Global,
    times: &[u32],
    log: u32,
    shift: u32,
) -> Result<Option<Scene>, AllocError>
    requires few { length times.now < 11 }
    requires log { log < 16 }
    requires shift { shift < 32 }
    ensures looker { IfOk result (λ made. IfSome made (λ s. IsLooker s.table s.looker × IsControl s.control)) }
    ensures helpers { IfOk result (λ made. IfSome made (λ s. MayHelp s.table s.slow × MayHelp s.table s.fast)) }
{
    let Some((table, mut places)) = announced(alloc, times, log, shift)? else {
        return Ok(None);
    };
    let Some((looker, control)) = looker(&table, &mut places) else {
        return Ok(None);
    };
    let Some(slow) = helper(&table, &mut places) else {
        return Ok(None);
    };
    let Some(fast) = helper(&table, &mut places) else {
        return Ok(None);
    };
    Ok(Some(Scene {
        table,
        control,
        looker,
        slow,
        fast,
    }))
}

/// A caller that is stopped before it binds a copy finds another one bound afterwards: it discards its own, and cuts it.
#[test]
fn a_lost_copy_is_cut(rt: HostRuntime) -> Result<(), Fail> {
    let times = [1, 1, 9, 2, 7, 30];
    let Some(mut scene) = two_callers(rt.alloc(), &times, 2, 1)? else {
        return Err(Fail::from(Memory));
    };
    assert!(rt; stop_before(&scene.table, &mut scene.slow, Exchange::Bind));
    assert_eq!(rt; scene.slow.1.owes(), Owes::Copy);
    assert_eq!(rt;
        finish(&scene.table, &mut scene.fast),
        opened(&scene.control)
    );
    assert!(rt;
        is_moved(
            rt.alloc(),
            &scene.table,
            &mut scene.looker,
            &scene.control,
            &times
        )?
    );
    assert_eq!(rt; step(&scene.table, &mut scene.slow), None);
    assert_eq!(rt; scene.slow.1.owes(), Owes::Copy);
    assert!(rt; stop_before(&scene.table, &mut scene.slow, Exchange::Drop));
    assert_eq!(rt; step(&scene.table, &mut scene.slow), None);
    assert_eq!(rt; scene.slow.1.owes(), Owes::Cut);
    assert!(rt; stop_before(&scene.table, &mut scene.slow, Exchange::Cut));
    assert_eq!(rt;
        finish(&scene.table, &mut scene.slow),
        opened(&scene.control)
    );
    assert_eq!(rt; scene.slow.1.owes(), Owes::Nothing);
    assert!(rt;
        is_moved(
            rt.alloc(),
            &scene.table,
            &mut scene.looker,
            &scene.control,
            &times
        )?
    );
    Ok(())
}

/// Lets the stopped caller, after it made this exchange so often, go on up to the next one. For those that follow on a lost
/// copy, it binds so many, and then the other caller binds one before it. It says whether it came so far.
fn stop_at(
    table: &Table,
    slow: &mut Helper,
    fast: &mut Helper,
    exchange: Exchange,
    made: u32,
) -> bool
    requires slow { MayHelp table.now slow.old }
    requires fast { MayHelp table.now fast.old }
    ensures slow { MayHelp table.now slow.new }
    ensures fast { MayHelp table.now fast.new }
{
    match exchange {
        Exchange::Drop | Exchange::Cut => {
            make(table, slow, Exchange::Bind, made)
                && stop_before(table, slow, Exchange::Bind)
                && stop_before(table, fast, Exchange::Validate)
                && stop_before(table, slow, exchange)
        }
        _ => make(table, slow, exchange, made) && stop_before(table, slow, exchange),
    }
}

/// How a move came out of which a caller was stopped.
#[derive(Clone, Copy, Debug, PartialEq, Eq)]
struct Outcome {
    /// Whether the caller came to where it was to be stopped.
    stopped: bool,
    /// Whether all was moved once the other one had ended.
    moved: bool,
    /// Whether it still was once the stopped one had ended, and neither owes a row then.
    stays: bool,
}

/// How it is to come out.
const GOOD: Outcome = Outcome {
    stopped: true,
    moved: true,
    stays: true,
};

/// Stops a caller before an exchange, after it made it so often, while the other moves all, and then lets it go on.
fn outcome_of(
    alloc: Global,
    shape: &Shape,
    exchange: Exchange,
    made: u32,
) -> Result<Option<Outcome>, AllocError>
    requires few { length shape.now.times.now < 11 }
    requires log { shape.now.log < 16 }
    requires shift { shape.now.shift < 32 }
{
    let Some(mut scene) = two_callers(alloc, shape.times, shape.log, shape.shift)? else {
        return Ok(None);
    };
    let (table, control) = (&scene.table, &scene.control);
    let stopped = stop_at(table, &mut scene.slow, &mut scene.fast, exchange, made);
    let ended = finish(table, &mut scene.fast) == opened(control);
    let moved = ended && is_moved(alloc, table, &mut scene.looker, control, shape.times)?;
    let ended = finish(table, &mut scene.slow) == opened(control);
    let stays = ended && is_moved(alloc, table, &mut scene.looker, control, shape.times)?;
    let free = scene.slow.1.owes() == Owes::Nothing && scene.fast.1.owes() == Owes::Nothing;
    Ok(Some(Outcome {
        stopped,
        moved,
        stays: stays && free,
    }))
}

/// The exchanges of an emptying before which a caller is stopped.
const EXCHANGES: [Exchange; 7] = [
    Exchange::FreezeNode,
    Exchange::Copy,
    Exchange::Bind,
    Exchange::Validate,
    Exchange::Drop,
    Exchange::Cut,
    Exchange::Pop,
];

/// Where a caller is stopped before any exchange while the other one moves all, each event stands once in the new lists
/// afterwards, and still does when the stopped one has gone on. That a first row is found which is a copy that isn't valid
/// isn't among the cases: no list of a first table holds a copy, so that this takes a second move.
#[test]
fn a_stopped_caller_harms_nothing(rt: HostRuntime) -> Result<(), Fail> {
    let shapes: [(&str, &[u32], u32, u32); 8] = [
        ("one list into as many", &[1, 9, 17, 25, 33], 3, 0),
        ("one list into many", &[33, 25, 17, 9, 1], 6, 0),
        ("one list into one", &[65, 1, 9, 57, 33], 0, 0),
        ("a row in each list", &[1, 2, 3, 4, 5, 6, 7, 8], 4, 0),
        ("ties", &[3, 3, 3, 3, 3, 3], 5, 0),
        ("ties and others", &[4, 3, 3, 12, 4, 3, 2, 4, 11, 20], 2, 2),
        ("wide buckets", &[1, 1000, 40, 1 << 31, 70, u32::MAX], 1, 5),
        ("the widest buckets", &[7, 1 << 31, 6, 5, 1 << 30], 1, 31),
    ];
    for (name, times, log, shift) in shapes {
        let shape = Shape {
            name,
            times,
            log,
            shift,
        };
        for exchange in EXCHANGES {
            let count = times.len() as u32;
            for made in [0, count / 2, count - 1] {
                let told = outcome_of(rt.alloc(), &shape, exchange, made)?;
                assert_eq!(rt;
                    told,
                    Some(GOOD),
                    "{}: {exchange:?} after {made}",
                    shape.name
                );
            }
        }
    }
    Ok(())
}

/// The same of the exchanges before an emptying, and of those that end a move: each is the first one of its kind.
#[test]
fn a_caller_that_is_stopped_at_either_end_harms_nothing(rt: HostRuntime) -> Result<(), Fail> {
    let ends = [
        Exchange::Prepare,
        Exchange::FreezeHead,
        Exchange::Pin,
        Exchange::Pass,
        Exchange::Finish,
    ];
    let shapes: [(&str, &[u32], u32, u32); 3] = [
        ("no event", &[], 4, 1),
        ("one list into one", &[65, 1, 9, 57, 33], 0, 0),
        ("ties and others", &[4, 3, 3, 12, 4, 3, 2, 4, 11, 20], 2, 2),
    ];
    for (name, times, log, shift) in shapes {
        let shape = Shape {
            name,
            times,
            log,
            shift,
        };
        for exchange in ends {
            let told = outcome_of(rt.alloc(), &shape, exchange, 0)?;
            assert_eq!(rt; told, Some(GOOD), "{}: {exchange:?}", shape.name);
        }
    }
    Ok(())
}
