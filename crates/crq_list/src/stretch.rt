//! Several steps of a walk made in one go, as they mostly follow on one another: so the walk needn't be stored and taken up
//! again after each of them.
ghost use Rattle.std.specs.Prelude.{◌≡◌, ℕ};
ghost use Rattle.crq_rule.specs.declared.pass.Pass.{Pass};
ghost use Rattle.crq_rows.specs.Passes.{IsPassOf};
ghost use Rattle.crq_list.specs.declared.seek.SeekState.{SeekState};
ghost use Rattle.crq_list.specs.declared.seek.SeekState.TheVariants.{Reading, Passing};
ghost use Rattle.crq_list.specs.declared.parts.Progress.TheVariants.{More};
ghost use Rattle.crq_list.specs.Operations.{IsUnderWay, MayGoOn, MakesSteps, GoesOn};
ghost use Rattle.crq_list.specs.Seeking.{the_walk};

use crate::parts::{Before, Progress};
use crate::seek::{SeekEnd, SeekState, Sought, load, pass_row, read, retire, tag};
use crq_rows::{Pass, Table};

/// Reads words of the next row's event, from this one on, until it is known on which side of the target the row comes.
#[inline(always)]
fn compare(
    table: &Table,
    pass: &mut Pass,
    sought: &Sought,
    before: Before,
    first: u32,
) -> (SeekState, Progress<SeekEnd>)
    requires of { IsPassOf table.now pass.old }
    requires seek { IsUnderWay (the_walk sought.now) table.now (Reading before first, pass.old) }
    ensures { MakesSteps (the_walk sought.now) table.now (Reading before first, pass.old) (result.0, pass.new) result.1 }
{
    let mut place = first;
    loop {
        let told = read(table, pass, sought, before, place);
        let (SeekState::Reading(_, next), Progress::More) = told else {
            return told;
        };
        place = next;
    }
}

/// Passes rows for as long as each is present and its time is before the target's. These are most of a walk's steps, two
/// for each row.
#[inline(always)]
fn pass_rows(
    table: &Table,
    pass: &mut Pass,
    sought: &Sought,
    before: Before,
) -> (SeekState, Progress<SeekEnd>)
    requires of { IsPassOf table.now pass.old }
    requires seek { IsUnderWay (the_walk sought.now) table.now (Passing before, pass.old) }
    ensures { MakesSteps (the_walk sought.now) table.now (Passing before, pass.old) (result.0, pass.new) result.1 }
{
    let mut before = before;
    loop {
        let told = pass_row(table, pass, sought, before);
        let (SeekState::Reading(next, place), Progress::More) = told else {
            return told;
        };
        let told = read(table, pass, sought, next, place);
        let (SeekState::Passing(_), Progress::More) = told else {
            return told;
        };
        before = next;
    }
}

/// Loads the epoch, where a row was just cut.
#[inline(always)]
fn then_tag(
    table: &Table,
    pass: &mut Pass,
    sought: &Sought,
    told: (SeekState, Progress<SeekEnd>),
) -> (SeekState, Progress<SeekEnd>)
    requires of { IsPassOf table.now pass.old }
    requires seek { MayGoOn (the_walk sought.now) table.now (told.0, pass.old) told.1 }
    ensures { GoesOn (the_walk sought.now) table.now (told.0, pass.old) told.1 (result.0, pass.new) result.1 }
{
    let (SeekState::Tagging(spot, row), Progress::More) = told else {
        return told;
    };
    tag(table, pass, sought, spot, row)
}

/// Retires a row that was cut, where its tag is loaded.
#[inline(always)]
fn then_retire(
    table: &Table,
    pass: &mut Pass,
    sought: &Sought,
    told: (SeekState, Progress<SeekEnd>),
) -> (SeekState, Progress<SeekEnd>)
    requires of { IsPassOf table.now pass.old }
    requires seek { MayGoOn (the_walk sought.now) table.now (told.0, pass.old) told.1 }
    ensures { GoesOn (the_walk sought.now) table.now (told.0, pass.old) told.1 (result.0, pass.new) result.1 }
{
    let (SeekState::Retiring(spot, row, epoch), Progress::More) = told else {
        return told;
    };
    retire(table, pass, sought, spot, row, epoch)
}

/// Loads the link of a spot, where that is next.
#[inline(always)]
fn then_load(
    table: &Table,
    pass: &mut Pass,
    sought: &Sought,
    told: (SeekState, Progress<SeekEnd>),
) -> (SeekState, Progress<SeekEnd>)
    requires of { IsPassOf table.now pass.old }
    requires seek { MayGoOn (the_walk sought.now) table.now (told.0, pass.old) told.1 }
    ensures { GoesOn (the_walk sought.now) table.now (told.0, pass.old) told.1 (result.0, pass.new) result.1 }
{
    let (SeekState::Load(spot), Progress::More) = told else {
        return told;
    };
    load(table, pass, sought, spot)
}

/// Compares the next row with the target, where that is next.
#[inline(always)]
fn then_compare(
    table: &Table,
    pass: &mut Pass,
    sought: &Sought,
    told: (SeekState, Progress<SeekEnd>),
) -> (SeekState, Progress<SeekEnd>)
    requires of { IsPassOf table.now pass.old }
    requires seek { MayGoOn (the_walk sought.now) table.now (told.0, pass.old) told.1 }
    ensures { GoesOn (the_walk sought.now) table.now (told.0, pass.old) told.1 (result.0, pass.new) result.1 }
{
    let (SeekState::Reading(before, place), Progress::More) = told else {
        return told;
    };
    compare(table, pass, sought, before, place)
}

/// Passes rows, where that is next.
#[inline(always)]
fn then_pass(
    table: &Table,
    pass: &mut Pass,
    sought: &Sought,
    told: (SeekState, Progress<SeekEnd>),
) -> (SeekState, Progress<SeekEnd>)
    requires of { IsPassOf table.now pass.old }
    requires seek { MayGoOn (the_walk sought.now) table.now (told.0, pass.old) told.1 }
    ensures { GoesOn (the_walk sought.now) table.now (told.0, pass.old) told.1 (result.0, pass.new) result.1 }
{
    let (SeekState::Passing(before), Progress::More) = told else {
        return told;
    };
    pass_rows(table, pass, sought, before)
}

/// Makes one atomic step of the walk or more, of which only the first may be an exchange.
#[inline(always)]
pub(crate) fn run_seek(
    table: &Table,
    pass: &mut Pass,
    sought: &Sought,
    seek: &mut SeekState,
) -> Progress<SeekEnd>
    requires of { IsPassOf table.now pass.old }
    requires seek { IsUnderWay (the_walk sought.now) table.now (seek.old, pass.old) }
    ensures { MakesSteps (the_walk sought.now) table.now (seek.old, pass.old) (seek.new, pass.new) result }
{
    let answer = seek.step(table, pass, sought);
    let told = then_tag(table, pass, sought, (*seek, answer));
    let told = then_retire(table, pass, sought, told);
    let told = then_load(table, pass, sought, told);
    let told = then_compare(table, pass, sought, told);
    let (after, answer) = then_pass(table, pass, sought, told);
    *seek = after;
    answer
}
