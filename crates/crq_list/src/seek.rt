//! Walking a list to a target, with dead rows cut on the way.
ghost use Rattle.std.specs.Prelude.{◌≡◌, ◌<◌, ℕ, true};
ghost use Rattle.crq_rows.specs.Passes.{IsPassOf};
ghost use Rattle.crq_list.specs.declared.parts.Before.{Before};
ghost use Rattle.crq_list.specs.declared.seek.SeekState.TheVariants.{Load, Reading, Passing, Cutting, Tagging, Retiring};
ghost use Rattle.crq_list.specs.Operations.{IsUnderWay, MakesStep};
ghost use Rattle.crq_list.specs.Seeking.{the_walk, seek_exchanges, is_on_way, next_seek, key_part, part_of};

use crate::parts::{Before, ListAt, Progress, Spot};
use crate::steps::{cut_step, walk_step};
use crq_base::{Event, Link, Mark};
use crq_rows::{Pass, Table, epoch_step, read_step, retire_step};

/// A walk to the place of a target in a list, one atomic step at a time. Dead rows that it meets are cut out of the list
/// and retired, each before the next.
#[derive(Clone, Copy)]
pub enum SeekState {
    /// The link of this spot is to be loaded.
    Load(Spot),
    /// Of the row that was found next, this word of the event is to be read.
    Reading(Before, u32),
    /// The row that was found next doesn't come after the target, and its link is to be loaded.
    Passing(Before),
    /// That row was found dead, with this last link, and is to be cut.
    Cutting(Before, Link),
    /// This row was cut behind the spot, and the epoch is to be loaded.
    Tagging(Spot, u32),
    /// This row was cut behind the spot, and is to be retired with this tag.
    Retiring(Spot, u32, u64),
}

/// What a walk seeks: the place of a target in a list.
#[derive(Clone, Copy)]
pub struct Sought {
    /// The list.
    pub list: ListAt,
    /// Up to which row of which event the walk goes: not past its place in the order by key and row. None is the whole
    /// list.
    pub target: Option<(Event, u32)>,
}

/// How a walk ends.
#[derive(Clone, Copy)]
pub enum SeekEnd {
    /// The target's place is behind this spot.
    There(Before),
    /// A head or row was found frozen, or the head of another table than the list, in a table that may move.
    Frozen,
}

/// What is to be done after a spot was passed: to read of the next row, to load its link where all of the list is walked,
/// or nothing more where there is none.
#[inline(always)]
fn next_of(before: Before, sought: &Sought) -> (SeekState, Progress<SeekEnd>)
    ensures { result ≡ next_seek before sought.now.target }
{
    if before.link.row == 0 {
        return (
            SeekState::Load(before.spot),
            Progress::Done(SeekEnd::There(before)),
        );
    }
    match sought.target {
        Some(_) => (SeekState::Reading(before, 2), Progress::More),
        None => (SeekState::Passing(before), Progress::More),
    }
}

/// Loads the link of a spot. A head is of the list's table, or not prepared for that yet; a row is of its spot's table.
#[inline(always)]
pub(crate) fn load(
    table: &Table,
    pass: &mut Pass,
    sought: &Sought,
    spot: Spot,
) -> (SeekState, Progress<SeekEnd>)
    requires of { IsPassOf table.now pass.old }
    requires seek { IsUnderWay (the_walk sought.now) table.now (Load spot, pass.old) }
    ensures { MakesStep (the_walk sought.now) table.now (Load spot, pass.old) (result.0, pass.new) result.1 }
{
    let link = walk_step(table, pass, spot, None);
    if link.generation != sought.list.generation {
        return (SeekState::Load(spot), Progress::Done(SeekEnd::Frozen));
    }
    match link.mark {
        Mark::Val | Mark::Inv => next_of(Before { spot, link }, sought),
        Mark::Del => (
            SeekState::Load(Spot::Head(sought.list.head)),
            Progress::More,
        ),
        Mark::Mov => (SeekState::Load(spot), Progress::Done(SeekEnd::Frozen)),
    }
}

/// The part of an event's key that stands at this place of its row: 2 for its time, 3 for its source and 4 for its number.
#[inline(always)]
fn key_part(event: &Event, place: u32) -> u64
    ensures { result ≡ key_part event.now place }
{
    match place {
        2 => event.time as u64,
        3 => event.src as u64,
        _ => event.seq,
    }
}

/// That part of the word at the place.
#[inline(always)]
fn part_of(word: u64, place: u32) -> u64
    ensures { result ≡ part_of word place }
{
    if place == 2 { word >> 32 } else { word }
}

/// Reads a word of the next row's event, and compares it with the target's.
#[inline(always)]
pub(crate) fn read(
    table: &Table,
    pass: &mut Pass,
    sought: &Sought,
    before: Before,
    place: u32,
) -> (SeekState, Progress<SeekEnd>)
    requires of { IsPassOf table.now pass.old }
    requires seek { IsUnderWay (the_walk sought.now) table.now (Reading before place, pass.old) }
    ensures stepped { MakesStep (the_walk sought.now) table.now (Reading before place, pass.old) (result.0, pass.new) result.1 }
    ensures same { (other : Before) → ((next : ℕ) → result.0 ≡ Reading other next → other ≡ before) × (result.0 ≡ Passing other → other ≡ before) }
{
    let Some((event, row)) = &sought.target else {
        unreachable!()
    };
    let found = part_of(read_step(table, pass, before.link.row, place), place);
    let wanted = key_part(event, place);
    if found < wanted {
        return (SeekState::Passing(before), Progress::More);
    }
    if found > wanted {
        return (
            SeekState::Load(before.spot),
            Progress::Done(SeekEnd::There(before)),
        );
    }
    if place < 4 {
        return (SeekState::Reading(before, place + 1), Progress::More);
    }
    if before.link.row <= *row {
        return (SeekState::Passing(before), Progress::More);
    }
    (
        SeekState::Load(before.spot),
        Progress::Done(SeekEnd::There(before)),
    )
}

/// Loads the link of the next row, which is passed where it is present, or not valid yet.
#[inline(always)]
pub(crate) fn pass_row(
    table: &Table,
    pass: &mut Pass,
    sought: &Sought,
    before: Before,
) -> (SeekState, Progress<SeekEnd>)
    requires of { IsPassOf table.now pass.old }
    requires seek { IsUnderWay (the_walk sought.now) table.now (Passing before, pass.old) }
    ensures { MakesStep (the_walk sought.now) table.now (Passing before, pass.old) (result.0, pass.new) result.1 }
{
    let spot = Spot::Row(before.link.row);
    let link = walk_step(table, pass, spot, None);
    match link.mark {
        Mark::Val | Mark::Inv => next_of(Before { spot, link }, sought),
        Mark::Del => (SeekState::Cutting(before, link), Progress::More),
        Mark::Mov => (SeekState::Load(spot), Progress::Done(SeekEnd::Frozen)),
    }
}

/// Cuts the next row, which is dead.
#[inline(always)]
pub(crate) fn cut_row(
    table: &Table,
    pass: &mut Pass,
    sought: &Sought,
    before: Before,
    last: Link,
) -> (SeekState, Progress<SeekEnd>)
    requires of { IsPassOf table.now pass.old }
    requires seek { IsUnderWay (the_walk sought.now) table.now (Cutting before last, pass.old) }
    ensures { MakesStep (the_walk sought.now) table.now (Cutting before last, pass.old) (result.0, pass.new) result.1 }
{
    if cut_step(table, pass, before.spot, before.link, last) {
        (
            SeekState::Tagging(before.spot, before.link.row),
            Progress::More,
        )
    } else {
        (
            SeekState::Load(Spot::Head(sought.list.head)),
            Progress::More,
        )
    }
}

/// Loads the epoch, with which the row that was cut is to be retired.
#[inline(always)]
pub(crate) fn tag(
    table: &Table,
    pass: &mut Pass,
    sought: &Sought,
    spot: Spot,
    row: u32,
) -> (SeekState, Progress<SeekEnd>)
    requires of { IsPassOf table.now pass.old }
    requires seek { IsUnderWay (the_walk sought.now) table.now (Tagging spot row, pass.old) }
    ensures { MakesStep (the_walk sought.now) table.now (Tagging spot row, pass.old) (result.0, pass.new) result.1 }
{
    let epoch = epoch_step(table, pass);
    (SeekState::Retiring(spot, row, epoch), Progress::More)
}

/// Retires the row that was cut, and goes on behind the spot.
#[inline(always)]
pub(crate) fn retire(
    table: &Table,
    pass: &mut Pass,
    sought: &Sought,
    spot: Spot,
    row: u32,
    epoch: u64,
) -> (SeekState, Progress<SeekEnd>)
    requires of { IsPassOf table.now pass.old }
    requires seek { IsUnderWay (the_walk sought.now) table.now (Retiring spot row epoch, pass.old) }
    ensures { MakesStep (the_walk sought.now) table.now (Retiring spot row epoch, pass.old) (result.0, pass.new) result.1 }
{
    retire_step(table, pass, row, epoch);
    (SeekState::Load(spot), Progress::More)
}

impl SeekState {
    /// Whether the next step is an exchange.
    pub(crate) fn exchanges(&self) -> bool
        ensures { result ≡ seek_exchanges self.now }
    {
        matches!(self, SeekState::Cutting(_, _))
    }

    /// Makes one atomic step.
    #[inline(always)]
    pub(crate) fn step(
        &mut self,
        table: &Table,
        pass: &mut Pass,
        sought: &Sought,
    ) -> Progress<SeekEnd>
        requires of { IsPassOf table.now pass.old }
        requires seek { IsUnderWay (the_walk sought.now) table.now (self.old, pass.old) }
        ensures { MakesStep (the_walk sought.now) table.now (self.old, pass.old) (self.new, pass.new) result }
    {
        let (seek, answer) = match *self {
            SeekState::Load(spot) => load(table, pass, sought, spot),
            SeekState::Reading(before, place) => read(table, pass, sought, before, place),
            SeekState::Passing(before) => pass_row(table, pass, sought, before),
            SeekState::Cutting(before, last) => cut_row(table, pass, sought, before, last),
            SeekState::Tagging(spot, row) => tag(table, pass, sought, spot, row),
            SeekState::Retiring(spot, row, epoch) => retire(table, pass, sought, spot, row, epoch),
        };
        *self = seek;
        answer
    }

    /// Makes one atomic step on the way from a dead row to its retirement.
    #[inline(always)]
    pub(crate) fn step_on_way(
        &mut self,
        table: &Table,
        pass: &mut Pass,
        sought: &Sought,
    ) -> Progress<SeekEnd>
        requires of { IsPassOf table.now pass.old }
        requires seek { IsUnderWay (the_walk sought.now) table.now (self.old, pass.old) }
        requires way { is_on_way self.old ≡ true }
        ensures { MakesStep (the_walk sought.now) table.now (self.old, pass.old) (self.new, pass.new) result }
    {
        let (seek, answer) = match *self {
            SeekState::Passing(before) => pass_row(table, pass, sought, before),
            SeekState::Cutting(before, last) => cut_row(table, pass, sought, before, last),
            SeekState::Tagging(spot, row) => tag(table, pass, sought, spot, row),
            SeekState::Retiring(spot, row, epoch) => retire(table, pass, sought, spot, row, epoch),
            SeekState::Load(_) | SeekState::Reading(_, _) => unreachable!(),
        };
        *self = seek;
        answer
    }
}
