//! The order in which a helper passes the heads of a table.
ghost use Rattle.std.specs.Prelude.{◌≡◌, ◌<◌, ◌^◌};
ghost use Rattle.crq_base.specs.Words.{IsControl};
ghost use Rattle.crq_rule.specs.Helping.{woven, old_head, new_head};
ghost use Rattle.crq_rule.specs.Ranks.{next_list};

use crq_base::{Control, Event};
use crq_rule::BANK;

/// The head that the caller with this number passes at this place, of 2^log heads. It goes in blocks of 16 heads, so that
/// callers begin at blocks of their own, and comes to each head.
pub(crate) fn woven(number: u32, log: u32, at: u32) -> u32
    requires { log < 2 ^ 4 }
    ensures { result ≡ woven number log at }
{
    at ^ (16 * u64::from(number) % (1 << log)) as u32
}

/// The head of the table that moves at this place of the order, numbered over both banks.
pub(crate) fn old_head(control: &Control, number: u32, at: u32) -> u32
    requires bits { IsControl control.now }
    requires place { at < 2 ^ control.now.log }
    ensures { result ≡ old_head control.now number at }
{
    control.generation % 2 * BANK + woven(number, control.log, at)
}

/// The head of the new table at this place of the order, numbered over both banks.
pub(crate) fn new_head(control: &Control, number: u32, at: u32) -> u32
    requires bits { IsControl control.now }
    requires place { at < 2 ^ control.now.new_log }
    ensures { result ≡ new_head control.now number at }
{
    (control.generation + 1) % 2 * BANK + woven(number, control.new_log, at)
}

/// The event's list in the new table, as a head numbered over both banks.
pub(crate) fn next_list(control: &Control, event: &Event) -> u32
    requires { IsControl control.now }
    ensures { result ≡ next_list control.now event.now }
{
    (control.generation + 1) % 2 * BANK + (event.time >> control.new_shift) % (1 << control.new_log)
}
