//! Emptying the frozen lists of the table that moves.
ghost use Rattle.std.specs.Prelude.{◌≡◌, ◌==◌, ◌+◌, ◌^◌, ◌<◌, cond};
ghost use Rattle.crq_rows.specs.Passes.{IsPassOf};
ghost use Rattle.crq_list.specs.declared.parts.Progress.TheVariants.{More, Done};
ghost use Rattle.crq_list.specs.Operations.{IsUnderWay, MakesStep};
ghost use Rattle.crq_move.specs.declared.parts.PartEnd.TheVariants.{Done as PartDone};
ghost use Rattle.crq_move.specs.declared.empty.MoveState.TheVariants.{Load, First, Freeze, Front, Discard, Twin, Read, Copy, Bind, Cut, TwinLink, Validate, Pop, Tag, Retire};
ghost use Rattle.crq_move.specs.Emptying.{the_emptying, empty_exchanges, NamesAt, after_first};

use crate::bind::{BindEnd, BindOp};
use crate::heads::{next_list, old_head};
use crate::names::{forget_front, forget_lost, forget_row};
use crate::parts::PartEnd;
use crate::reads::{read_word, unread};
use crate::steps::{
    discard_step, freeze_row_step, head_step, pop_step, row_step, twin_step, validate_step,
};
use crq_base::{Control, Event, Link, Mark};
use crq_list::{CopyOf, CutEnd, CutOp, InsertEnd, InsertOp, ListAt, Progress};
use crq_rows::{Pass, Table, epoch_step, retire_step};
use crq_rule::CopyDebt;

/// What is done next with the head at which an emptying is. A head's link comes first, and then the link of the row that it
/// names.
#[derive(Clone, Copy)]
pub enum MoveState {
    /// The head's link is to be loaded.
    Load,
    /// The head was found to name a row, whose link is to be loaded.
    First(Link),
    /// That row was found present, and is to be frozen.
    Freeze(Link, Link),
    /// That row was found to be a copy that isn't valid. Of its event, as far as it was read, this word is to be read.
    Front(Link, Link, Event, u32),
    /// That row, with this event, is to be discarded.
    Discard(Link, Link, Event),
    /// That row is frozen, and its twin is to be loaded.
    Twin(Link, Link),
    /// This row, with this last link, has no twin. Of its event, as far as it was read, this word is to be read.
    Read(u32, Link, Event, u32),
    /// A copy of the row is being linked into the new table.
    Copy(InsertOp),
    /// The pass owes the copy, which is being bound to the row.
    Bind(BindOp),
    /// The row has another twin, and the copy was discarded, and is being cut out of its list.
    Cut(CutOp),
    /// The head's row is frozen, and has this twin, whose link is to be loaded.
    TwinLink(Link, Link, u32),
    /// That twin was found not to be valid, with this link, and is to be validated.
    Validate(Link, Link, u32, Link),
    /// The row is dead, or its twin is valid, and the row is to leave the list.
    Pop(Link, Link),
    /// This row left the list, and the epoch is to be loaded.
    Tag(u32),
    /// This row left the list, and is to be retired with this tag.
    Retire(u32, u64),
}

/// Empties the frozen lists of the table that moves, one atomic step at a time: the first row of a list is frozen, copied
/// into the new table, and then cut out of the list. Heads whose lists were found empty are passed. It begins once all heads
/// were frozen.
#[derive(Clone, Copy)]
pub struct MoveOp {
    /// The control word of the move.
    pub control: Control,
    /// How many heads were passed.
    pub passed: u32,
    /// What is done next with the next head.
    pub state: MoveState,
}

/// What is done next where this link was found in the row that the head names.
fn after_first(head: Link, link: Link) -> MoveState
    ensures { result ≡ after_first head link }
{
    match link.mark {
        Mark::Val => MoveState::Freeze(head, link),
        Mark::Inv => MoveState::Front(head, link, unread(), 2),
        Mark::Mov => MoveState::Twin(head, link),
        Mark::Del => MoveState::Pop(head, link),
    }
}

impl MoveOp {
    /// An emptying that has made no step.
    pub fn new(control: &Control) -> MoveOp
        ensures { result ≡ record { control = control.now; passed = 0; state = Load } }
    {
        MoveOp {
            control: *control,
            passed: 0,
            state: MoveState::Load,
        }
    }

    /// Whether the next step is an exchange.
    pub fn exchanges(&self) -> bool
        ensures { result ≡ empty_exchanges self.now }
    {
        match self.state {
            MoveState::Freeze(_, _)
            | MoveState::Discard(_, _, _)
            | MoveState::Validate(_, _, _, _)
            | MoveState::Pop(_, _) => true,
            MoveState::Copy(op) => op.exchanges(),
            MoveState::Bind(op) => op.exchanges(),
            MoveState::Cut(op) => op.exchanges(),
            _ => false,
        }
    }

    /// Passes the head, and says whether it was the last one.
    fn pass_head(&mut self) -> Progress<PartEnd>
        requires log { self.old.control.log < 2 ^ 4 }
        requires more { self.old.passed < 2 ^ self.old.control.log }
        ensures passed { self.new ≡ record self.old { passed = self.old.passed + 1; state = Load } }
        ensures last { result ≡ cond (self.old.passed + 1 == 2 ^ self.old.control.log) (Done PartDone) More }
    {
        self.passed += 1;
        self.state = MoveState::Load;
        if self.passed == 1 << self.control.log {
            Progress::Done(PartEnd::Done)
        } else {
            Progress::More
        }
    }

    /// Loads the link of the next head. It is passed where its list is empty. Where it is of a later table, the move is over.
    fn load(&mut self, table: &Table, pass: &mut Pass) -> Progress<PartEnd>
        requires of { IsPassOf table.now pass.old }
        requires op { IsUnderWay the_emptying table.now (self.old, pass.old) }
        requires state { self.old.state ≡ Load }
        ensures { MakesStep the_emptying table.now (self.old, pass.old) (self.new, pass.new) result }
    {
        let head = old_head(&self.control, pass.number, self.passed);
        let link = head_step(table, pass, head);
        if link.generation != self.control.generation {
            return Progress::Done(PartEnd::Passed);
        }
        forget_front(&mut pass.debts, head, link.row);
        if pass.debts.second_cut.is_some() {
            return Progress::Done(PartEnd::Passed);
        }
        if link.row == 0 {
            return self.pass_head();
        }
        self.state = MoveState::First(link);
        Progress::More
    }

    /// Loads the link of the row that the head names.
    fn first(&mut self, table: &Table, pass: &mut Pass, head: Link) -> Progress<PartEnd>
        requires of { IsPassOf table.now pass.old }
        requires op { IsUnderWay the_emptying table.now (self.old, pass.old) }
        requires room { NamesAt self.old.state pass.old.debts }
        requires state { self.old.state ≡ First head }
        ensures { MakesStep the_emptying table.now (self.old, pass.old) (self.new, pass.new) result }
    {
        let link = row_step(table, pass, head.row);
        self.state = after_first(head, link);
        Progress::More
    }

    /// Freezes that row.
    fn freeze(
        &mut self,
        table: &Table,
        pass: &mut Pass,
        head: Link,
        link: Link,
    ) -> Progress<PartEnd>
        requires of { IsPassOf table.now pass.old }
        requires op { IsUnderWay the_emptying table.now (self.old, pass.old) }
        requires room { NamesAt self.old.state pass.old.debts }
        requires state { self.old.state ≡ Freeze head link }
        ensures { MakesStep the_emptying table.now (self.old, pass.old) (self.new, pass.new) result }
    {
        if freeze_row_step(table, pass, head.row, link) {
            let last = Link {
                mark: Mark::Mov,
                ..link
            };
            self.state = MoveState::Twin(head, last);
        } else {
            self.state = MoveState::First(head);
        }
        Progress::More
    }

    /// Reads a word of the event of a row that is to be discarded.
    fn front(
        &mut self,
        table: &Table,
        pass: &mut Pass,
        head: Link,
        link: Link,
        read: Event,
        place: u32,
    ) -> Progress<PartEnd>
        requires of { IsPassOf table.now pass.old }
        requires op { IsUnderWay the_emptying table.now (self.old, pass.old) }
        requires room { NamesAt self.old.state pass.old.debts }
        requires state { self.old.state ≡ Front head link read place }
        ensures { MakesStep the_emptying table.now (self.old, pass.old) (self.new, pass.new) result }
    {
        let event = read_word(table, pass, head.row, place, read);
        if place < 5 {
            self.state = MoveState::Front(head, link, event, place + 1);
        } else {
            self.state = MoveState::Discard(head, link, event);
        }
        Progress::More
    }

    /// Discards that row.
    fn discard(
        &mut self,
        table: &Table,
        pass: &mut Pass,
        head: Link,
        link: Link,
        event: Event,
    ) -> Progress<PartEnd>
        requires of { IsPassOf table.now pass.old }
        requires op { IsUnderWay the_emptying table.now (self.old, pass.old) }
        requires room { NamesAt self.old.state pass.old.debts }
        requires state { self.old.state ≡ Discard head link event }
        ensures { MakesStep the_emptying table.now (self.old, pass.old) (self.new, pass.new) result }
    {
        let at = old_head(&self.control, pass.number, self.passed);
        if discard_step(table, pass, at, head.row, &event, link) {
            let last = Link {
                mark: Mark::Del,
                ..link
            };
            self.state = MoveState::Pop(head, last);
        } else {
            self.state = MoveState::First(head);
        }
        Progress::More
    }

    /// Loads the twin of the frozen row.
    fn twin(&mut self, table: &Table, pass: &mut Pass, head: Link, last: Link) -> Progress<PartEnd>
        requires of { IsPassOf table.now pass.old }
        requires op { IsUnderWay the_emptying table.now (self.old, pass.old) }
        requires room { NamesAt self.old.state pass.old.debts }
        requires state { self.old.state ≡ Twin head last }
        ensures { MakesStep the_emptying table.now (self.old, pass.old) (self.new, pass.new) result }
    {
        let twin = twin_step(table, pass, head.row);
        if twin == 0 {
            self.state = MoveState::Read(head.row, last, unread(), 2);
        } else {
            self.state = MoveState::TwinLink(head, last, twin);
        }
        Progress::More
    }

    /// Reads a word of the event of a row that has no twin. After the last one a copy is linked, for which the pass needs a
    /// free row.
    fn read(
        &mut self,
        table: &Table,
        pass: &mut Pass,
        row: u32,
        last: Link,
        read: Event,
        place: u32,
    ) -> Progress<PartEnd>
        requires of { IsPassOf table.now pass.old }
        requires op { IsUnderWay the_emptying table.now (self.old, pass.old) }
        requires room { NamesAt self.old.state pass.old.debts }
        requires state { self.old.state ≡ Read row last read place }
        ensures { MakesStep the_emptying table.now (self.old, pass.old) (self.new, pass.new) result }
    {
        let event = read_word(table, pass, row, place, read);
        if place < 5 {
            self.state = MoveState::Read(row, last, event, place + 1);
            return Progress::More;
        }
        let Some(copy) = pass.free.front() else {
            self.state = MoveState::Load;
            return Progress::Done(PartEnd::NeedRow);
        };
        let list = ListAt {
            generation: self.control.generation + 1,
            head: next_list(&self.control, &event),
        };
        let of = CopyOf { old: row, last };
        self.state = MoveState::Copy(InsertOp::copy(list, *copy, event, of));
        Progress::More
    }

    /// Makes a step of the copy's insertion. Where the new table's list was found frozen, control has moved on.
    fn copy(&mut self, table: &Table, pass: &mut Pass, inserting: InsertOp) -> Progress<PartEnd>
        requires of { IsPassOf table.now pass.old }
        requires op { IsUnderWay the_emptying table.now (self.old, pass.old) }
        requires room { NamesAt self.old.state pass.old.debts }
        requires state { self.old.state ≡ Copy inserting }
        ensures { MakesStep the_emptying table.now (self.old, pass.old) (self.new, pass.new) result }
    {
        let mut op = inserting;
        match op.step(table, pass) {
            Progress::More => {
                self.state = MoveState::Copy(op);
                Progress::More
            }
            Progress::Done(InsertEnd::Linked) => {
                let Some(debt) = pass.debts.copy else {
                    unreachable!()
                };
                self.state = MoveState::Bind(BindOp::new(&debt));
                Progress::More
            }
            Progress::Done(InsertEnd::Frozen) => {
                self.state = MoveState::Load;
                Progress::Done(PartEnd::Passed)
            }
        }
    }

    /// Makes a step by which the copy that the pass owes is bound. Where it was discarded instead, it is cut out of its list.
    fn bind(&mut self, table: &Table, pass: &mut Pass, binding: BindOp) -> Progress<PartEnd>
        requires of { IsPassOf table.now pass.old }
        requires op { IsUnderWay the_emptying table.now (self.old, pass.old) }
        requires room { NamesAt self.old.state pass.old.debts }
        requires state { self.old.state ≡ Bind binding }
        ensures { MakesStep the_emptying table.now (self.old, pass.old) (self.new, pass.new) result }
    {
        let mut op = binding;
        match op.step(table, pass) {
            Progress::More => self.state = MoveState::Bind(op),
            Progress::Done(BindEnd::Discarded) => {
                let CopyDebt {
                    generation,
                    head,
                    event,
                    copy,
                    ..
                } = binding.debt;
                let list = ListAt { generation, head };
                self.state = MoveState::Cut(CutOp::new(list, Some((event, copy))));
            }
            Progress::Done(BindEnd::Bound) => self.state = MoveState::Load,
            Progress::Done(BindEnd::Dead) => self.state = MoveState::Load,
        }
        Progress::More
    }

    /// Makes a step of the cut of a copy that was discarded. Where the new table's list was found frozen, control has moved
    /// on.
    fn cut(&mut self, table: &Table, pass: &mut Pass, cutting: CutOp) -> Progress<PartEnd>
        requires of { IsPassOf table.now pass.old }
        requires op { IsUnderWay the_emptying table.now (self.old, pass.old) }
        requires room { NamesAt self.old.state pass.old.debts }
        requires state { self.old.state ≡ Cut cutting }
        ensures { MakesStep the_emptying table.now (self.old, pass.old) (self.new, pass.new) result }
    {
        let mut op = cutting;
        match op.step(table, pass) {
            Progress::More => {
                self.state = MoveState::Cut(op);
                Progress::More
            }
            Progress::Done(CutEnd::Clean) => {
                forget_lost(&mut pass.debts);
                self.state = MoveState::Load;
                Progress::More
            }
            Progress::Done(CutEnd::Frozen) => {
                self.state = MoveState::Load;
                Progress::Done(PartEnd::Passed)
            }
        }
    }

    /// Loads the link of the twin.
    fn twin_link(
        &mut self,
        table: &Table,
        pass: &mut Pass,
        head: Link,
        last: Link,
        twin: u32,
    ) -> Progress<PartEnd>
        requires of { IsPassOf table.now pass.old }
        requires op { IsUnderWay the_emptying table.now (self.old, pass.old) }
        requires room { NamesAt self.old.state pass.old.debts }
        requires state { self.old.state ≡ TwinLink head last twin }
        ensures { MakesStep the_emptying table.now (self.old, pass.old) (self.new, pass.new) result }
    {
        let link = row_step(table, pass, twin);
        match link.mark {
            Mark::Inv => self.state = MoveState::Validate(head, last, twin, link),
            _ => self.state = MoveState::Pop(head, last),
        }
        Progress::More
    }

    /// Validates the twin.
    fn validate(
        &mut self,
        table: &Table,
        pass: &mut Pass,
        head: Link,
        last: Link,
        twin: u32,
        link: Link,
    ) -> Progress<PartEnd>
        requires of { IsPassOf table.now pass.old }
        requires op { IsUnderWay the_emptying table.now (self.old, pass.old) }
        requires room { NamesAt self.old.state pass.old.debts }
        requires state { self.old.state ≡ Validate head last twin link }
        ensures { MakesStep the_emptying table.now (self.old, pass.old) (self.new, pass.new) result }
    {
        if validate_step(table, pass, twin, link) {
            self.state = MoveState::Pop(head, last);
        } else {
            self.state = MoveState::TwinLink(head, last, twin);
        }
        Progress::More
    }

    /// Cuts the first row out of the frozen list.
    fn pop(&mut self, table: &Table, pass: &mut Pass, head: Link, last: Link) -> Progress<PartEnd>
        requires of { IsPassOf table.now pass.old }
        requires op { IsUnderWay the_emptying table.now (self.old, pass.old) }
        requires room { NamesAt self.old.state pass.old.debts }
        requires state { self.old.state ≡ Pop head last }
        ensures { MakesStep the_emptying table.now (self.old, pass.old) (self.new, pass.new) result }
    {
        let at = old_head(&self.control, pass.number, self.passed);
        if pop_step(table, pass, at, head, last) {
            forget_row(&mut pass.debts, head.row);
            self.state = MoveState::Tag(head.row);
        } else {
            self.state = MoveState::Load;
        }
        Progress::More
    }

    /// Loads the epoch, with which the row that left is to be retired.
    fn tag(&mut self, table: &Table, pass: &mut Pass, row: u32) -> Progress<PartEnd>
        requires of { IsPassOf table.now pass.old }
        requires op { IsUnderWay the_emptying table.now (self.old, pass.old) }
        requires room { NamesAt self.old.state pass.old.debts }
        requires state { self.old.state ≡ Tag row }
        ensures { MakesStep the_emptying table.now (self.old, pass.old) (self.new, pass.new) result }
    {
        let epoch = epoch_step(table, pass);
        self.state = MoveState::Retire(row, epoch);
        Progress::More
    }

    /// Retires that row.
    fn retire(&mut self, table: &Table, pass: &mut Pass, row: u32, epoch: u64) -> Progress<PartEnd>
        requires of { IsPassOf table.now pass.old }
        requires op { IsUnderWay the_emptying table.now (self.old, pass.old) }
        requires room { NamesAt self.old.state pass.old.debts }
        requires state { self.old.state ≡ Retire row epoch }
        ensures { MakesStep the_emptying table.now (self.old, pass.old) (self.new, pass.new) result }
    {
        retire_step(table, pass, row, epoch);
        self.state = MoveState::Load;
        Progress::More
    }

    /// Makes one atomic step.
    pub fn step(&mut self, table: &Table, pass: &mut Pass) -> Progress<PartEnd>
        requires of { IsPassOf table.now pass.old }
        requires op { IsUnderWay the_emptying table.now (self.old, pass.old) }
        requires room { NamesAt self.old.state pass.old.debts }
        ensures { MakesStep the_emptying table.now (self.old, pass.old) (self.new, pass.new) result }
    {
        match self.state {
            MoveState::Load => self.load(table, pass),
            MoveState::First(head) => self.first(table, pass, head),
            MoveState::Freeze(head, link) => self.freeze(table, pass, head, link),
            MoveState::Front(head, link, read, place) => {
                self.front(table, pass, head, link, read, place)
            }
            MoveState::Discard(head, link, event) => self.discard(table, pass, head, link, event),
            MoveState::Twin(head, last) => self.twin(table, pass, head, last),
            MoveState::Read(row, last, read, place) => {
                self.read(table, pass, row, last, read, place)
            }
            MoveState::Copy(op) => self.copy(table, pass, op),
            MoveState::Bind(op) => self.bind(table, pass, op),
            MoveState::Cut(op) => self.cut(table, pass, op),
            MoveState::TwinLink(head, last, twin) => self.twin_link(table, pass, head, last, twin),
            MoveState::Validate(head, last, twin, link) => {
                self.validate(table, pass, head, last, twin, link)
            }
            MoveState::Pop(head, last) => self.pop(table, pass, head, last),
            MoveState::Tag(row) => self.tag(table, pass, row),
            MoveState::Retire(row, epoch) => self.retire(table, pass, row, epoch),
        }
    }
}
