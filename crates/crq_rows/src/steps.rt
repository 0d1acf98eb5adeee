//! One function for each kind of step on guards, epochs and retired rows.
ghost use Rattle.std.specs.Prelude.{◌≡◌, ◌≢◌, ◌+◌, ◌<◌, ◌≤◌, ◌^◌, None, IfErr, Option, Result};
ghost use Rattle.crq_base.specs.declared.kinds.StepKind.TheVariants.{EpochLoad, Enter, Confirm, Leave, Scan, Tick, Retire, Look, Claim, Write, Read};
ghost use Rattle.crq_base.specs.Words.{stamp_word};
ghost use Rattle.crq_rule.specs.declared.view.Guard.TheVariants.{Off};
ghost use Rattle.crq_rule.specs.Places.{index, epoch, announced, stamp, IsHomeRow};
ghost use Rattle.crq_rule.specs.Kinds.{loads_epoch, enters, confirms, leaves, scans, ticks, retires, looks, claims, HasScanned, IsEntering, MayRetire, IsRipe};
ghost use Rattle.crq_base.specs.declared.event.Event.{Event};
ghost use Rattle.crq_base.specs.Lists.{In};
ghost use Rattle.crq_rule.specs.ListKinds.{Content, IsContent, content_number, content_word, row_place, writes, StandsOn, event_word};
ghost use Rattle.crq_rule.specs.Moves.{TellsEpoch, BeginsRecovery};
ghost use Rattle.crq_rows.specs.Reading.{stays};
ghost use Rattle.crq_rows.specs.Passes.{caller, IsPassOf, Stepped, Turned, Exchanged, Claimed, load_made, store_made, step_made, announcement_word, found_by};

use crate::kinds::{exchange_as, load_as, load_turning, store_as, store_seated};
use crq_base::Stamp;
use crq_rule::{Pass, Table};
use std::marker::Brand;

/// Loads the epoch and answers it. It isn't below any epoch that the pass has read, and not below an announcement that it
/// scanned.
pub fn epoch_step(table: &Table, pass: &mut Pass) -> u64
    requires { IsPassOf table.now pass.old }
    ensures stepped { Stepped table.now pass.old pass.new (load_made EpochLoad (index table.now.start.layout epoch) result) (loads_epoch result) }
    ensures told { TellsEpoch result (caller table.now pass.old) }
{
    load_as::<Brand, ()>(table, pass, table.start.layout.epoch(), &())
}

/// Loads the epoch and answers it, as `epoch_step` does. A recovery of rows begins with this load: what was known of an
/// earlier one goes, and which events are pending now is noted.
pub fn recovery_step(table: &Table, pass: &mut Pass) -> u64
    requires { IsPassOf table.now pass.old }
    ensures { Turned table.now pass.old pass.new (load_made EpochLoad (index table.now.start.layout epoch) result) (BeginsRecovery result) }
{
    load_turning::<Brand, ()>(table, pass, table.start.layout.epoch(), &())
}

/// Announces an epoch that the pass has read.
pub fn enter_step(table: &Table, pass: &mut Pass, epoch: u64)
    requires of { IsPassOf table.now pass.old }
    requires off { (caller table.now pass.old).guard ≡ Off }
    requires read { In epoch (caller table.now pass.old).epochs }
    ensures { Stepped table.now pass.old pass.new (store_made Enter (index table.now.start.layout (announced pass.old.number)) (epoch + 1)) (enters epoch) }
{
    let word = table.start.layout.announced(pass.number);
    store_as::<Brand, u64>(table, pass, word, epoch.saturating_add(1), &epoch);
}

/// Loads the epoch again, which turns the guard on. It answers the epoch found.
pub fn confirm_step(table: &Table, pass: &mut Pass) -> u64
    requires of { IsPassOf table.now pass.old }
    requires entering { IsEntering (caller table.now pass.old).guard }
    ensures stepped { Stepped table.now pass.old pass.new (load_made Confirm (index table.now.start.layout epoch) result) (confirms result) }
    ensures told { TellsEpoch result (caller table.now pass.old) }
{
    let again = table.start.layout.epoch();
    load_as::<Brand, ()>(table, pass, again, &())
}

/// Takes the announcement back, which turns the guard off. The pass stands on no row then.
pub fn leave_step(table: &Table, pass: &mut Pass)
    requires of { IsPassOf table.now pass.old }
    requires cut { (caller table.now pass.old).cut ≡ None }
    requires copy { pass.old.debts.copy ≡ None }
    ensures { Stepped table.now pass.old pass.new (store_made Leave (index table.now.start.layout (announced pass.old.number)) 0) leaves }
{
    let word = table.start.layout.announced(pass.number);
    store_as::<Brand, ()>(table, pass, word, 0, &());
}

/// Loads a caller's announcement. None is 'out'.
pub fn scan_step(table: &Table, pass: &mut Pass, number: u32) -> Option<u64>
    requires of { IsPassOf table.now pass.old }
    requires inside { number < table.now.start.layout.workers }
    ensures { Stepped table.now pass.old pass.new (load_made Scan (index table.now.start.layout (announced number)) (announcement_word result)) (scans number (announcement_word result)) }
{
    match load_as::<Brand, u32>(table, pass, table.start.layout.announced(number), &number) {
        0 => None,
        word => Some(word - 1),
    }
}

/// Raises the epoch from `from`, which this tick loaded, by 1. It fails where it finds another epoch, and answers that.
pub fn tick_step(table: &Table, pass: &mut Pass, from: u64) -> Result<(), u64>
    requires of { IsPassOf table.now pass.old }
    requires below { from < 2 ^ 62 }
    requires loaded { (caller table.now pass.old).tick.loaded ≡ from }
    requires off { (caller table.now pass.old).guard ≡ Off }
    requires scanned { HasScanned table.now.start.layout.workers pass.old.number (caller table.now pass.old).tick }
    ensures exchanged { Exchanged table.now pass.old pass.new (step_made Tick (index table.now.start.layout epoch) from (from + 1) (found_by from result)) (ticks from (found_by from result)) }
    ensures failed { IfErr result (λ found. found ≢ from) }
    ensures told { TellsEpoch (found_by from result) (caller table.now pass.old) }
{
    let word = table.start.layout.epoch();
    let found = exchange_as::<Brand, u64>(table, pass, word, from, from + 1, &from);
    if found == from { Ok(()) } else { Err(found) }
}

/// Retires the row that the pass cut, with a tag that it loaded since.
pub fn retire_step(table: &Table, pass: &mut Pass, row: u32, tag: u64)
    requires of { IsPassOf table.now pass.old }
    requires cut { MayRetire (caller table.now pass.old).cut row tag }
    ensures { Stepped table.now pass.old pass.new (store_made Retire (index table.now.start.layout (stamp row)) (tag + 1)) retires }
{
    let word = table.start.layout.stamp(row);
    store_as::<Brand, u64>(table, pass, word, tag.saturating_add(1), &tag);
}

/// Loads the stamp of a home row.
pub fn look_step(table: &Table, pass: &mut Pass, row: u32) -> Stamp
    requires of { IsPassOf table.now pass.old }
    requires home { IsHomeRow table.now.start.layout pass.old.number row }
    ensures { Stepped table.now pass.old pass.new (load_made Look (index table.now.start.layout (stamp row)) (stamp_word result)) (looks row (stamp_word result)) }
{
    let word = load_as::<Brand, u32>(table, pass, table.start.layout.stamp(row), &row);
    if word == 0 {
        Stamp::Kept
    } else {
        Stamp::Retired(word - 1)
    }
}

/// Takes a home row that was found ripe under an epoch that the pass has read. The row is the last free one then.
pub fn claim_step(table: &Table, pass: &mut Pass, row: u32, epoch: u64)
    requires of { IsPassOf table.now pass.old }
    requires read { In epoch (caller table.now pass.old).epochs }
    requires ripe { IsRipe (caller table.now pass.old).ripening row epoch }
    ensures { Claimed table.now pass.old pass.new row (store_made Claim (index table.now.start.layout (stamp row)) 0) (claims row) }
{
    let word = table.start.layout.stamp(row);
    store_seated::<Brand, (u32, u64)>(table, pass, word, 0, &(row, epoch));
    let Ok(()) = pass.free.push_back(row) else {
        unreachable!()
    };
}

/// Writes one word of a row in hand. The places of a row are 0 for its link, 1 for its twin and 2 to 5 for its event.
pub fn write_step(table: &Table, pass: &mut Pass, row: u32, place: u32, word: u64)
    requires of { IsPassOf table.now pass.old }
    requires held { In row (caller table.now pass.old).hand }
    requires spelled { (x : Content) × IsContent x × (content_number x ≡ place) × (content_word x ≡ word) }
    ensures { Stepped table.now pass.old pass.new (store_made Write (index table.now.start.layout (row_place row place)) word) (writes row place word) }
{
    let at = table.start.layout.row_word(row, place);
    store_as::<Brand, (u32, u32)>(table, pass, at, word, &(row, place));
}

/// Reads one word of the event of a row on which the pass stands: 2 for its time and destination, 3 for its source, 4 for
/// its number and 5 for its load.
pub fn read_step(table: &Table, pass: &mut Pass, row: u32, place: u32) -> u64
    requires of { IsPassOf table.now pass.old }
    requires stands { (e : Event) × StandsOn (caller table.now pass.old).position.rows row e }
    requires place { (2 ≤ place) × (place < 6) }
    ensures stepped { Stepped table.now pass.old pass.new (load_made Read (index table.now.start.layout (row_place row place)) result) stays }
    ensures word { (e : Event) → StandsOn (caller table.now pass.old).position.rows row e → result ≡ event_word e place }
{
    let at = table.start.layout.row_word(row, place);
    load_as::<Brand, (u32, u32)>(table, pass, at, &(row, place))
}
