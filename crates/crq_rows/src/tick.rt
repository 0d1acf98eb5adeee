//! An attempt to raise the epoch.
ghost use Rattle.std.specs.Prelude.{◌≡◌, ◌⊎◌, ◌+◌, ◌<◌, ◌≤◌, ◌≢◌, ◌^◌};
ghost use Rattle.crq_rule.specs.declared.view.Guard.TheVariants.{Off};
ghost use Rattle.crq_rows.specs.Passes.{caller, IsPassOf};
ghost use Rattle.crq_rows.specs.declared.tick.TickOp.TheVariants.{Load, Scanning, Passed};
ghost use Rattle.crq_rows.specs.Ticking.{IsTicking, LoadsEpoch, TickStepped, tick_exchanges};

use crate::steps::{epoch_step, recovery_step, scan_step, tick_step};
use crq_base::Holder;
use crq_rule::{Pass, Table};

/// The last epoch.
const LAST: u64 = 1 << 62;

/// An attempt to raise the epoch by 1, one atomic step at a time.
///
/// It loads the epoch and scans the announcements of all other callers, in order of their numbers. Where each of them is
/// out or at that epoch, it exchanges the epoch for the next one. After it has ended it begins anew.
#[derive(Clone, Copy)]
pub enum TickOp {
    /// The epoch is to be loaded.
    Load,
    /// The epoch that was loaded, and the next caller to scan; with no caller left, the epoch is to be exchanged.
    Scanning(u64, u32),
    /// The epoch that was loaded. An announcement above it was found, and the epoch is to be loaded again.
    Passed(u64),
}

/// What one step of a `TickOp` answers.
#[derive(Clone, Copy, Debug, PartialEq, Eq)]
pub enum Tick {
    /// There is more to do.
    More,
    /// The epoch was found or made this, which is greater than the epoch that the attempt loaded first.
    Moved(u64),
    /// The epoch can't rise. It is the last one, or it is above this announcement.
    Held(Holder),
}

/// The caller to scan at `next` or after it, which isn't the caller `own` itself.
fn other(next: u32, own: u32) -> u32
    requires { next < 2 ^ 31 }
    ensures other { result ≢ own }
    ensures skips { (result ≡ next) ⊎ ((next ≡ own) × (result ≡ next + 1)) }
{
    if next == own { next + 1 } else { next }
}

/// Loads the epoch. Where none of the ticks of a recovery has moved yet, the recovery begins with this load.
fn load_epoch(table: &Table, pass: &mut Pass, moved: u32) -> u64
    requires { IsPassOf table.now pass.old }
    ensures { LoadsEpoch table.now moved pass.old pass.new result }
{
    if moved == 0 {
        recovery_step(table, pass)
    } else {
        epoch_step(table, pass)
    }
}

/// Loads the epoch.
fn load(table: &Table, pass: &mut Pass, moved: u32) -> (TickOp, Tick)
    requires of { IsPassOf table.now pass.old }
    requires off { (caller table.now pass.old).guard ≡ Off }
    ensures { TickStepped table.now moved Load result.0 pass.old pass.new result.1 }
{
    let epoch = load_epoch(table, pass, moved);
    if epoch == LAST {
        return (TickOp::Load, Tick::Held(Holder::Last));
    }
    (TickOp::Scanning(epoch, other(0, pass.number)), Tick::More)
}

/// Scans the caller `next`. `_moved` says which tick it is, for the clauses.
fn scan(table: &Table, pass: &mut Pass, _moved: u32, epoch: u64, next: u32) -> (TickOp, Tick)
    requires of { IsPassOf table.now pass.old }
    requires op { IsTicking table.now.start.layout (Scanning epoch next) (caller table.now pass.old) }
    requires inside { next < table.now.start.layout.workers }
    ensures { TickStepped table.now _moved (Scanning epoch next) result.0 pass.old pass.new result.1 }
{
    let found = scan_step(table, pass, next);
    if let Some(announced) = found {
        if announced < epoch {
            return (TickOp::Load, Tick::Held(Holder::Seat(next, announced)));
        }
        if announced > epoch {
            return (TickOp::Passed(epoch), Tick::More);
        }
    }
    (
        TickOp::Scanning(epoch, other(next + 1, pass.number)),
        Tick::More,
    )
}

/// Exchanges the epoch for the next one. `_next` says at which state the attempt is, for the clauses: after the last
/// caller. `_moved` says which tick it is.
fn raise(table: &Table, pass: &mut Pass, _moved: u32, epoch: u64, _next: u32) -> (TickOp, Tick)
    requires of { IsPassOf table.now pass.old }
    requires op { IsTicking table.now.start.layout (Scanning epoch _next) (caller table.now pass.old) }
    requires last { _next ≡ table.now.start.layout.workers }
    ensures { TickStepped table.now _moved (Scanning epoch _next) result.0 pass.old pass.new result.1 }
{
    match tick_step(table, pass, epoch) {
        Ok(()) => (TickOp::Load, Tick::Moved(epoch + 1)),
        Err(found) => (TickOp::Load, Tick::Moved(found)),
    }
}

/// Loads the epoch again, which an announcement above it has shown to have moved. `_epoch` says at which state the attempt
/// is, for the clauses, and `_moved` which tick it is.
fn reload(table: &Table, pass: &mut Pass, _moved: u32, _epoch: u64) -> (TickOp, Tick)
    requires of { IsPassOf table.now pass.old }
    requires op { IsTicking table.now.start.layout (Passed _epoch) (caller table.now pass.old) }
    ensures { TickStepped table.now _moved (Passed _epoch) result.0 pass.old pass.new result.1 }
{
    let found = epoch_step(table, pass);
    (TickOp::Load, Tick::Moved(found))
}

impl TickOp {
    /// An attempt that has made no step. The guard of its pass has to be off.
    pub fn new() -> TickOp
        ensures { result ≡ Load }
    {
        TickOp::Load
    }

    /// Whether the next step exchanges a word.
    pub fn exchanges(&self, table: &Table) -> bool
        ensures { result ≡ tick_exchanges table.now.start.layout self.now }
    {
        match *self {
            TickOp::Scanning(_, next) => next == table.start.layout.workers,
            _ => false,
        }
    }

    /// Makes one atomic step. `moved` is how many ticks of a recovery have moved before this one. With 0 the recovery
    /// begins with this tick's load of the epoch.
    pub fn step(&mut self, table: &Table, pass: &mut Pass, moved: u32) -> Tick
        requires of { IsPassOf table.now pass.old }
        requires op { IsTicking table.now.start.layout self.old (caller table.now pass.old) }
        ensures { TickStepped table.now moved self.old self.new pass.old pass.new result }
    {
        let (op, answer) = match *self {
            TickOp::Load => load(table, pass, moved),
            TickOp::Scanning(epoch, next) => {
                if next < table.start.layout.workers {
                    scan(table, pass, moved, epoch, next)
                } else {
                    raise(table, pass, moved, epoch, next)
                }
            }
            TickOp::Passed(epoch) => reload(table, pass, moved, epoch),
        };
        *self = op;
        answer
    }
}
