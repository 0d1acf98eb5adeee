//! Announcing a table, into which the events are to move.
ghost use Rattle.std.specs.Prelude.{◌≡◌, ◌+◌, ◌<◌, None, true};
ghost use Rattle.crq_base.specs.Words.{IsControl};
ghost use Rattle.crq_rule.specs.Parts.{newest};
ghost use Rattle.crq_rows.specs.Passes.{caller, IsPassOf};
ghost use Rattle.crq_move.specs.Announcing.{AnnounceEnded};

use crate::steps::announce_step;
use crq_base::{Announce, Control};
use crq_current::{EPOCHS_END, current_step};
use crq_list::control_step;
use crq_rows::{Pass, Table};

/// The last generation of a table, which none may follow: 2^30 - 2.
const LAST_GENERATION: u32 = (1 << 30) - 2;

/// The generation of the newest table that the control word tells of.
fn newest(control: &Control) -> u32
    requires { IsControl control.now }
    ensures { result ≡ newest control.now }
{
    control.generation + u32::from(control.moving)
}

/// Announces that the table moves into one with 2^log lists, whose buckets are 2^shift ticks wide. It makes three steps at
/// most: it loads the control word and current, and exchanges the control word once.
///
/// `Set` comes with the new table's generation where that exchange was made, and adds the Table, which is all that a call
/// ever adds. `Moving` comes where the control word was found moving at first, or where the exchange failed, which only a
/// later table's control word can cause: with the generation of the newest table that was found. `Tables` comes where the
/// open table was found to be the last that there may be, and then `Epochs` where current's epoch was found at 2^32 - 64 or
/// above. It never answers `Memory`. Whatever the answer, the pass owes what it owed, and its guard is as it was.
pub fn announce(table: &Table, pass: &mut Pass, log: u32, shift: u32) -> Announce
    requires of { IsPassOf table.now pass.old }
    requires moves { table.now.start.moves ≡ true }
    requires log { log < 16 }
    requires shift { shift < 32 }
    requires settled { (caller table.now pass.old).debts.settle ≡ None }
    ensures { AnnounceEnded table.now log shift pass.old pass.new result }
{
    let control = control_step(table, pass);
    if control.moving {
        return Announce::Moving(newest(&control));
    }
    if control.generation >= LAST_GENERATION {
        return Announce::Tables;
    }
    if current_step(table, pass, false).epoch >= EPOCHS_END {
        return Announce::Epochs;
    }
    match announce_step(table, pass, &control, log, shift) {
        Ok(()) => Announce::Set(control.generation + 1),
        Err(found) => Announce::Moving(newest(&found)),
    }
}
