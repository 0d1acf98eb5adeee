//! A caller that is stopped in a move, while others end that and one more.
ghost use Rattle.std.specs.Prelude.{◌<◌, length};
ghost use Rattle.crq_base.specs.Words.{IsControl};

use crate::tests::halting::{Exchange, stop_before};
use crate::tests::helping::{announced, finish, helper, next_pass, opened, sets};
use crate::tests::moved::{is_moved, looker};
use crq_base::Control;
use std::alloc::{AllocError, Global};
use std::test::Fail;

/// The table into which the second move leads has 2^4 lists.
const NEXT_LOG: u32 = 4;
/// Its buckets are 2 ticks wide.
const NEXT_SHIFT: u32 = 1;

/// How two moves came out, in the first of which a caller was stopped.
#[derive(Clone, Copy, Debug, PartialEq, Eq)]
struct Outcome {
    /// Whether the caller came to where it was to be stopped.
    stopped: bool,
    /// Whether the others ended both moves, and all was moved twice then.
    moved: bool,
    /// Whether the stopped one then found the last table open, and all is where it was.
    stays: bool,
}

/// The control word of the second move.
pub(crate) fn second_of(control: &Control) -> Control
    ensures { IsControl result }
{
    Control {
        generation: control.generation.saturating_add(1) % (1 << 30),
        moving: true,
        log: control.new_log % 16,
        shift: control.new_shift % 32,
        new_log: NEXT_LOG,
        new_shift: NEXT_SHIFT,
    }
}

/// Stops a helper of a move into a table of 2^log lists before an exchange, while others end that move and one more, and
/// then lets it go on.
fn outcome_of(
    alloc: Global,
    times: &[u32],
    log: u32,
    exchange: Exchange,
) -> Result<Option<Outcome>, AllocError>
    requires few { length times.now < 11 }
    requires log { log < 16 }
{
    let Some((table, mut places)) = announced(alloc, times, log, 0)? else {
        return Ok(None);
    };
    let Some((mut looker, control)) = looker(&table, &mut places) else {
        return Ok(None);
    };
    let (Some(mut slow), Some(mut fast)) = (
        helper(&table, &mut places),
        helper(&table, &mut places),
    ) else {
        return Ok(None);
    };
    let stopped = stop_before(&table, &mut slow, exchange);
    let first = finish(&table, &mut fast) == opened(&control);
    let Some(pass) = next_pass(&table, &mut places) else {
        return Ok(None);
    };
    if !sets(&table, pass, NEXT_LOG, NEXT_SHIFT) {
        return Ok(None);
    }
    let Some(mut other) = helper(&table, &mut places) else {
        return Ok(None);
    };
    let second = second_of(&control);
    let both = finish(&table, &mut other) == opened(&second) && first;
    let moved = is_moved(alloc, &table, &mut looker, &second, times)?;
    let ended = finish(&table, &mut slow) == opened(&second);
    let stays = is_moved(alloc, &table, &mut looker, &second, times)?;
    Ok(Some(Outcome {
        stopped,
        moved: both && moved,
        stays: ended && stays,
    }))
}

/// Whatever exchange a late helper still has before it, it harms no later move.
#[test]
fn a_late_helper_harms_no_later_move(rt: HostRuntime) -> Result<(), Fail> {
    let exchanges = [
        Exchange::Prepare,
        Exchange::FreezeHead,
        Exchange::Pin,
        Exchange::FreezeNode,
        Exchange::Copy,
        Exchange::Bind,
        Exchange::Validate,
        Exchange::Pop,
        Exchange::Pass,
        Exchange::Finish,
    ];
    let good = Outcome {
        stopped: true,
        moved: true,
        stays: true,
    };
    let shapes: [(&[u32], u32); 3] = [
        (&[1, 9, 17, 25, 33], 3),
        (&[3, 3, 3, 3, 3, 3], 0),
        (&[4, 3, 3, 12, 4, 3, 2, 4, 11, 20], 2),
    ];
    for (times, log) in shapes {
        for exchange in exchanges {
            let told = outcome_of(rt.alloc(), times, log, exchange)?;
            assert_eq!(rt; told, Some(good), "2^{log} lists: {exchange:?}");
        }
    }
    Ok(())
}
