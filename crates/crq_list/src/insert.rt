//! Inserting a row into a sorted list.
ghost use Rattle.std.specs.Prelude.{◌≡◌, ◌<◌, ◌≤◌, ℕ, Some, None};
ghost use Rattle.crq_rule.specs.ListKinds.{event_word};
ghost use Rattle.crq_rows.specs.Passes.{IsPassOf};
ghost use Rattle.crq_rule.specs.declared.pass.Pass.{Pass};
ghost use Rattle.crq_list.specs.declared.parts.Progress.TheVariants.{More};
ghost use Rattle.crq_list.specs.declared.insert.InsertOp.{InsertOp};
ghost use Rattle.crq_list.specs.declared.insert.InsertState.TheVariants.{Writing, Seeking, Placing, Linking};
ghost use Rattle.crq_list.specs.Operations.{IsUnderWay, MayGoOn, MakesStep, MakesSteps, GoesOn};
ghost use Rattle.crq_list.specs.Inserting.{the_insertion, insertion_at, insert_exchanges, after_seek, after_link, own_mark, own_debt};

use crate::parts::{Before, ListAt, Progress, Spot};
use crate::seek::{SeekEnd, SeekState, Sought};
use crate::steps::{copy_step, link_step};
use crate::stretch::run_seek;
use crq_base::{Event, Link, Mark};
use crq_rows::{Pass, Table, write_step};
use crq_rule::CopyDebt;

/// How an insertion ends.
#[derive(Clone, Copy, Debug, PartialEq, Eq)]
pub enum InsertEnd {
    /// The row is linked. Of a put: the event was put, and the caller owes it to be settled. The pass's own debts don't
    /// name it yet, since a list doesn't tell how wide the buckets of its table are: whoever made the step notes that. Of
    /// a copy: the pass owes it to be bound.
    Linked,
    /// The walk found a head or row frozen, or a head of another table, in a table that may move. Nothing was put or
    /// copied: the row is still in hand, and the pass owes no event of a put, and no copy.
    Frozen,
}

/// Of which row a copy is inserted.
#[derive(Clone, Copy)]
pub struct CopyOf {
    /// The frozen row of the table that moves.
    pub old: u32,
    /// Its last link.
    pub last: Link,
}

/// How far an insertion is.
#[derive(Clone, Copy)]
pub enum InsertState {
    /// The word at this place of the row is to be written: 1 for the twin, 2 to 5 for the event.
    Writing(u32),
    /// The row's place in the list is looked for.
    Seeking(SeekState),
    /// The row's own link is to be written: it comes behind this spot.
    Placing(Before),
    /// The row is to be linked behind this spot.
    Linking(Before),
}

/// The insertion of a row in hand before the first row with a greater key, one atomic step at a time. It writes the words
/// of its row, walks to the row's place, cuts dead rows on its way, and links the row by one exchange. The row is that of
/// a put, or a copy of a frozen row.
#[derive(Clone, Copy)]
pub struct InsertOp {
    /// The event's list.
    pub list: ListAt,
    /// The row, which is in hand.
    pub row: u32,
    /// The event.
    pub event: Event,
    /// Of which row this one is a copy; a put has none.
    pub copy_of: Option<CopyOf>,
    /// How far it is.
    pub state: InsertState,
}

/// The word of an event's row at a place: 1 for its twin, of which it has none, 2 for the event's time and destination, 3
/// for its source, 4 for its number and 5 for its load.
fn word_at(event: &Event, place: u32) -> u64
    requires { (1 ≤ place) × (place < 6) }
    ensures { result ≡ event_word event.now place }
{
    match place {
        1 => 0,
        2 => (u64::from(event.time) << 32) + u64::from(event.dst),
        3 => u64::from(event.src),
        4 => event.seq,
        _ => event.load,
    }
}

/// Writes the word at a place of the row: no twin, or a word of the event.
#[inline(always)]
fn write_word(
    table: &Table,
    pass: &mut Pass,
    op: &InsertOp,
    place: u32,
) -> (InsertState, Progress<InsertEnd>)
    requires of { IsPassOf table.now pass.old }
    requires op { IsUnderWay the_insertion table.now (insertion_at op.now (Writing place), pass.old) }
    ensures { MakesStep the_insertion table.now (insertion_at op.now (Writing place), pass.old) (insertion_at op.now result.0, pass.new) result.1 }
{
    let word = word_at(&op.event, place);
    write_step(table, pass, op.row, place, word);
    if place < 5 {
        (InsertState::Writing(place + 1), Progress::More)
    } else {
        (
            InsertState::Seeking(SeekState::Load(Spot::Head(op.list.head))),
            Progress::More,
        )
    }
}

/// Writes the words of the row from this place on.
#[inline(always)]
fn write_words(
    table: &Table,
    pass: &mut Pass,
    op: &InsertOp,
    first: u32,
) -> (InsertState, Progress<InsertEnd>)
    requires of { IsPassOf table.now pass.old }
    requires op { IsUnderWay the_insertion table.now (insertion_at op.now (Writing first), pass.old) }
    ensures { MakesSteps the_insertion table.now (insertion_at op.now (Writing first), pass.old) (insertion_at op.now result.0, pass.new) result.1 }
{
    let mut place = first;
    loop {
        let told = write_word(table, pass, op, place);
        let (InsertState::Writing(next), Progress::More) = told else {
            return told;
        };
        place = next;
    }
}

/// What follows on steps of the walk, which is there.
#[inline(always)]
fn after_seek(seek: SeekState, walked: Progress<SeekEnd>) -> (InsertState, Progress<InsertEnd>)
    ensures { result ≡ after_seek seek walked }
{
    match walked {
        Progress::More => (InsertState::Seeking(seek), Progress::More),
        Progress::Done(SeekEnd::There(before)) => (InsertState::Placing(before), Progress::More),
        Progress::Done(SeekEnd::Frozen) => (
            InsertState::Seeking(seek),
            Progress::Done(InsertEnd::Frozen),
        ),
    }
}

/// Makes one step of the walk to the row's place.
#[inline(always)]
fn seek_place(
    table: &Table,
    pass: &mut Pass,
    op: &InsertOp,
    seek: SeekState,
) -> (InsertState, Progress<InsertEnd>)
    requires of { IsPassOf table.now pass.old }
    requires op { IsUnderWay the_insertion table.now (insertion_at op.now (Seeking seek), pass.old) }
    ensures { MakesStep the_insertion table.now (insertion_at op.now (Seeking seek), pass.old) (insertion_at op.now result.0, pass.new) result.1 }
{
    let mut seek = seek;
    let sought = Sought {
        list: op.list,
        target: Some((op.event, op.row)),
    };
    let walked = seek.step(table, pass, &sought);
    after_seek(seek, walked)
}

/// Makes one step of that walk or more, of which only the first may be an exchange.
#[inline(always)]
fn run_to_place(
    table: &Table,
    pass: &mut Pass,
    op: &InsertOp,
    seek: SeekState,
) -> (InsertState, Progress<InsertEnd>)
    requires of { IsPassOf table.now pass.old }
    requires op { IsUnderWay the_insertion table.now (insertion_at op.now (Seeking seek), pass.old) }
    ensures { MakesSteps the_insertion table.now (insertion_at op.now (Seeking seek), pass.old) (insertion_at op.now result.0, pass.new) result.1 }
{
    let mut seek = seek;
    let sought = Sought {
        list: op.list,
        target: Some((op.event, op.row)),
    };
    let walked = run_seek(table, pass, &sought, &mut seek);
    after_seek(seek, walked)
}

/// Writes the row's own link, which for a copy isn't valid yet: the row that is next behind the spot is to follow it.
#[inline(always)]
fn place_row(
    table: &Table,
    pass: &mut Pass,
    op: &InsertOp,
    before: Before,
) -> (InsertState, Progress<InsertEnd>)
    requires of { IsPassOf table.now pass.old }
    requires op { IsUnderWay the_insertion table.now (insertion_at op.now (Placing before), pass.old) }
    ensures { MakesStep the_insertion table.now (insertion_at op.now (Placing before), pass.old) (insertion_at op.now result.0, pass.new) result.1 }
{
    let link = Link {
        mark: op.mark(),
        ..before.link
    };
    let word = link.pack();
    write_step(table, pass, op.row, 0, word);
    (InsertState::Linking(before), Progress::More)
}

/// What follows on the exchange that was to link the row behind the spot: where it found another link, the list is walked
/// anew.
#[inline(always)]
fn after_link(list: ListAt, before: Before, linked: bool) -> (InsertState, Progress<InsertEnd>)
    ensures { result ≡ after_link list before linked }
{
    if linked {
        (
            InsertState::Linking(before),
            Progress::Done(InsertEnd::Linked),
        )
    } else {
        (
            InsertState::Seeking(SeekState::Load(Spot::Head(list.head))),
            Progress::More,
        )
    }
}

/// Links the row behind the spot, or walks the list anew where the spot's link has changed.
#[inline(always)]
fn link_row(
    table: &Table,
    pass: &mut Pass,
    op: &InsertOp,
    before: Before,
) -> (InsertState, Progress<InsertEnd>)
    requires of { IsPassOf table.now pass.old }
    requires op { IsUnderWay the_insertion table.now (insertion_at op.now (Linking before), pass.old) }
    ensures { MakesStep the_insertion table.now (insertion_at op.now (Linking before), pass.old) (insertion_at op.now result.0, pass.new) result.1 }
{
    match op.copy_of {
        None => {
            let linked = link_step(table, pass, before.spot, before.link, op.row, &op.event);
            after_link(op.list, before, linked)
        }
        Some(of) => {
            let debt = op.debt(of);
            let linked = copy_step(table, pass, before.spot, before.link, &debt);
            after_link(op.list, before, linked)
        }
    }
}

/// Walks on, where the row's place is looked for and the next step is no exchange.
#[inline(always)]
fn then_seek(
    table: &Table,
    pass: &mut Pass,
    op: &InsertOp,
    told: (InsertState, Progress<InsertEnd>),
) -> (InsertState, Progress<InsertEnd>)
    requires of { IsPassOf table.now pass.old }
    requires op { MayGoOn the_insertion table.now (insertion_at op.now told.0, pass.old) told.1 }
    ensures { GoesOn the_insertion table.now (insertion_at op.now told.0, pass.old) told.1 (insertion_at op.now result.0, pass.new) result.1 }
{
    let (InsertState::Seeking(seek), Progress::More) = told else {
        return told;
    };
    if seek.exchanges() {
        return told;
    }
    run_to_place(table, pass, op, seek)
}

/// Writes the row's own link, where its place was found.
#[inline(always)]
fn then_place(
    table: &Table,
    pass: &mut Pass,
    op: &InsertOp,
    told: (InsertState, Progress<InsertEnd>),
) -> (InsertState, Progress<InsertEnd>)
    requires of { IsPassOf table.now pass.old }
    requires op { MayGoOn the_insertion table.now (insertion_at op.now told.0, pass.old) told.1 }
    ensures { GoesOn the_insertion table.now (insertion_at op.now told.0, pass.old) told.1 (insertion_at op.now result.0, pass.new) result.1 }
{
    let (InsertState::Placing(before), Progress::More) = told else {
        return told;
    };
    place_row(table, pass, op, before)
}

impl InsertOp {
    /// An insertion of a put that has made no step. Nothing reads `old`: a copy is inserted by `copy`.
    pub fn new(list: ListAt, row: u32, event: Event, old: Option<u32>) -> InsertOp
        ensures { result ≡ record { list = list; row = row; event = event; copy_of = None; state = Writing 1 } }
    {
        let _of_a_migration = old;
        InsertOp {
            list,
            row,
            event,
            copy_of: None,
            state: InsertState::Writing(1),
        }
    }

    /// An insertion of a copy that has made no step, into the event's list of the table that the open one moves into.
    pub fn copy(list: ListAt, row: u32, event: Event, of: CopyOf) -> InsertOp
        ensures { result ≡ record { list = list; row = row; event = event; copy_of = Some of; state = Writing 1 } }
    {
        InsertOp {
            list,
            row,
            event,
            copy_of: Some(of),
            state: InsertState::Writing(1),
        }
    }

    /// The mark of the row's own link: a row that is put is present, and a copy isn't valid yet.
    #[inline(always)]
    fn mark(&self) -> Mark
        ensures { result ≡ own_mark self.now.copy_of }
    {
        match self.copy_of {
            None => Mark::Val,
            Some(_) => Mark::Inv,
        }
    }

    /// What the pass owes once the copy is linked.
    #[inline(always)]
    fn debt(&self, of: CopyOf) -> CopyDebt
        ensures { result ≡ own_debt self.now of }
    {
        CopyDebt {
            old: of.old,
            copy: self.row,
            event: self.event,
            generation: self.list.generation,
            head: self.list.head,
            last: of.last,
        }
    }

    /// Whether the next step is an exchange.
    pub fn exchanges(&self) -> bool
        ensures { result ≡ insert_exchanges self.now }
    {
        match self.state {
            InsertState::Writing(_) | InsertState::Placing(_) => false,
            InsertState::Seeking(seek) => seek.exchanges(),
            InsertState::Linking(_) => true,
        }
    }

    /// Makes one atomic step.
    #[inline(always)]
    pub fn step(&mut self, table: &Table, pass: &mut Pass) -> Progress<InsertEnd>
        requires of { IsPassOf table.now pass.old }
        requires op { IsUnderWay the_insertion table.now (self.old, pass.old) }
        ensures { MakesStep the_insertion table.now (self.old, pass.old) (self.new, pass.new) result }
    {
        let (state, answer) = match self.state {
            InsertState::Writing(place) => write_word(table, pass, self, place),
            InsertState::Seeking(seek) => seek_place(table, pass, self, seek),
            InsertState::Placing(before) => place_row(table, pass, self, before),
            InsertState::Linking(before) => link_row(table, pass, self, before),
        };
        self.state = state;
        answer
    }

    /// Makes the next atomic step, or all that write words of the row where one of these is next.
    #[inline(always)]
    fn next(&self, table: &Table, pass: &mut Pass) -> (InsertState, Progress<InsertEnd>)
        requires of { IsPassOf table.now pass.old }
        requires op { IsUnderWay the_insertion table.now (self.now, pass.old) }
        ensures { MakesSteps the_insertion table.now (self.now, pass.old) (insertion_at self.now result.0, pass.new) result.1 }
    {
        match self.state {
            InsertState::Writing(place) => write_words(table, pass, self, place),
            InsertState::Seeking(seek) => seek_place(table, pass, self, seek),
            InsertState::Placing(before) => place_row(table, pass, self, before),
            InsertState::Linking(before) => link_row(table, pass, self, before),
        }
    }

    /// Makes one atomic step or more, of which only the first may be an exchange: those that mostly follow on one another.
    #[inline(always)]
    pub fn run(&mut self, table: &Table, pass: &mut Pass) -> Progress<InsertEnd>
        requires of { IsPassOf table.now pass.old }
        requires op { IsUnderWay the_insertion table.now (self.old, pass.old) }
        ensures { MakesSteps the_insertion table.now (self.old, pass.old) (self.new, pass.new) result }
    {
        if self.exchanges() {
            return self.step(table, pass);
        }
        let told = self.next(table, pass);
        let told = then_seek(table, pass, self, told);
        let (state, answer) = then_place(table, pass, self, told);
        self.state = state;
        answer
    }
}
